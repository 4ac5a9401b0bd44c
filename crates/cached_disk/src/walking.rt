//! A path that is walked through the caches.
ghost use Rattle.std.specs.Prelude.{◌≡◌, ℕ, true, Bool, List, None};
ghost use Rattle.std.specs.List.{AllByRecursion};
ghost use Rattle.kabi_types.specs.Arguments.{path_fault};
ghost use Rattle.posix_defs.specs.Paths.{resolve};
ghost use Rattle.posix_defs.specs.Queries.{queries_of};
ghost use Rattle.posix_defs.specs.Tree.{Tree, is_directory};
ghost use Rattle.posix_defs.specs.declared.walked.Walked.TheVariants as walked;
ghost use Rattle.cached_disk.specs.TreeLent.{tree_parts, AllLent, StandsThrough, TreeGoesOn, HasName, AreReordered, IsKnown};

use crate::CachedDirs;
use block_cache::BlockCache;
use disk_layout::RamDisk;
use kheap_slabs::{KHeap, Purse};
use name_cache::NameCache;
use path_walk::{Walked, walk};
use vnode_cache::VnodeCache;

/// Where a path leads from a working directory.
///
/// Where all that is asked for on the way is cached nothing is read. The name that the path led to is cached afterwards.
pub fn walk_through(
    heap: &mut KHeap,
    purse: &mut Purse,
    names: &mut NameCache,
    vnodes: &mut VnodeCache,
    blocks: &mut BlockCache,
    disk: &mut RamDisk,
    start: u32,
    path: &[u8],
) -> Walked
    requires lent { AllLent heap.old purse.old names.old vnodes.old blocks.old disk.old }
    requires directory { (tree : Tree)
        × StandsThrough (tree_parts heap.old purse.old names.old vnodes.old blocks.old disk.old) tree
        × (is_directory tree start ≡ true) }
    requires path { path_fault path.now ≡ None }
    ensures resolved { (tree : Tree)
        → StandsThrough (tree_parts heap.old purse.old names.old vnodes.old blocks.old disk.old) tree
        → result ≡ resolve tree start path.now }
    ensures lent { AllLent heap.new purse.new names.new vnodes.new blocks.new disk.new }
    ensures stands { (tree : Tree)
        → StandsThrough (tree_parts heap.old purse.old names.old vnodes.old blocks.old disk.old) tree
        → StandsThrough (tree_parts heap.new purse.new names.new vnodes.new blocks.new disk.new) tree }
    ensures goes_on { TreeGoesOn (tree_parts heap.old purse.old names.old vnodes.old blocks.old disk.old)
        (tree_parts heap.new purse.new names.new vnodes.new blocks.new disk.new) }
    ensures saved { (tree : Tree)
        → StandsThrough (tree_parts heap.old purse.old names.old vnodes.old blocks.old disk.old) tree
        → AllByRecursion (IsKnown (tree_parts heap.old purse.old names.old vnodes.old blocks.old disk.old))
        (queries_of tree start path.now)
        → AreReordered (tree_parts heap.old purse.old names.old vnodes.old blocks.old disk.old)
        (tree_parts heap.new purse.new names.new vnodes.new blocks.new disk.new) }
    ensures kept { (tree : Tree) (parent : ℕ) (name : List ℕ) (node : ℕ) (slashed : Bool)
        → StandsThrough (tree_parts heap.old purse.old names.old vnodes.old blocks.old disk.old) tree
        → resolve tree start path.now ≡ walked.Named parent name node slashed
        → HasName (tree_parts heap.new purse.new names.new vnodes.new blocks.new disk.new) parent name }
{
    let mut dirs = CachedDirs {
        heap,
        purse,
        names,
        vnodes,
        blocks,
        disk,
    };
    walk(&mut dirs, start, path)
}
