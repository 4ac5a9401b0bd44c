//! What is asked of a disk through a cache of its blocks, each a call that lends its parts and asks once.
ghost use Rattle.std.specs.Prelude.{◌≡◌, ◌≢◌, ℕ, ◌+◌, ◌-◌, ◌/◌, ◌<◌, ◌≤◌, ◌++◌, true, min, length, take, drop};
ghost use Rattle.std.specs.List.{AllByRecursion};
ghost use Rattle.posix_defs.specs.DiskFormat.{block_size, table_nodes};
ghost use Rattle.posix_defs.specs.SoundDisk.{HasInode, HasNode, Sound};
ghost use Rattle.posix_defs.specs.DiskContents.{data_block, node_bytes, own_name, parent_name};
ghost use Rattle.posix_defs.specs.DiskTree.{StandsFor};
ghost use Rattle.posix_defs.specs.Tree.{Tree, found, is_directory, parent_at};
ghost use Rattle.memfs_file.specs.FileChange.{IsInUse};
ghost use Rattle.memfs_file.specs.Ranges.{asked_to_read};
ghost use Rattle.cached_disk.specs.Lent.{parts, AreLent, GoesOn, IsCached, IsReordered};

use crate::CachedBlocks;
use crate::looking::{node_named, parent_of};
use block_cache::BlockCache;
use disk_layout::RamDisk;
use kabi_types::Inode;
use kheap_slabs::{KHeap, Purse};
use memfs_file::read_at;
use memfs_node::inode_at;

/// Reads the bytes of a node from `at` on, as many as are there and have room, and answers how many.
///
/// Nothing is read of the disk where all blocks that it asks for are cached. The block of the last byte is cached
/// afterwards.
pub fn read_through(
    heap: &mut KHeap,
    purse: &mut Purse,
    cache: &mut BlockCache,
    disk: &mut RamDisk,
    inode: &Inode,
    at: u32,
    out: &mut [u8],
) -> u32
    requires lent { AreLent heap.old purse.old cache.old disk.old }
    requires sound { Sound disk.old.blocks }
    requires node { IsInUse disk.old.blocks inode.now }
    ensures count { result ≡ min (length out.old) (inode.now.size - at) }
    ensures bytes { out.new
        ≡ take result (drop at (node_bytes disk.old.blocks inode.now)) ++ drop result out.old }
    ensures kept { disk.new.blocks ≡ disk.old.blocks }
    ensures lent { AreLent heap.new purse.new cache.new disk.new }
    ensures goes_on { GoesOn (parts heap.old purse.old cache.old disk.old)
        (parts heap.new purse.new cache.new disk.new) }
    ensures saved { AllByRecursion (IsCached cache.old)
        (asked_to_read disk.old.blocks inode.now at result)
        → IsReordered (parts heap.old purse.old cache.old disk.old)
        (parts heap.new purse.new cache.new disk.new) }
    ensures last { 0 < result → IsCached cache.new
        (data_block disk.old.blocks inode.now ((at + result - 1) / block_size)) }
{
    let mut blocks = CachedBlocks {
        heap,
        purse,
        cache,
        disk,
    };
    read_at(&mut blocks, inode, at, out)
}

/// The inode that the table has of a node, in use or free.
#[cold]
pub fn inode_through(
    heap: &mut KHeap,
    purse: &mut Purse,
    cache: &mut BlockCache,
    disk: &mut RamDisk,
    number: u32,
) -> Inode
    requires lent { AreLent heap.old purse.old cache.old disk.old }
    requires sound { Sound disk.old.blocks }
    requires number { (0 < number) × (number ≤ table_nodes (length disk.old.blocks)) }
    ensures has { HasInode disk.old.blocks number result }
    ensures kept { disk.new.blocks ≡ disk.old.blocks }
    ensures lent { AreLent heap.new purse.new cache.new disk.new }
    ensures goes_on { GoesOn (parts heap.old purse.old cache.old disk.old)
        (parts heap.new purse.new cache.new disk.new) }
{
    let mut blocks = CachedBlocks {
        heap,
        purse,
        cache,
        disk,
    };
    inode_at(&mut blocks, number)
}

/// The node under a name of a directory, other than `.` and `..`; None exactly where the name isn't there.
pub(crate) fn name_through(
    heap: &mut KHeap,
    purse: &mut Purse,
    cache: &mut BlockCache,
    disk: &mut RamDisk,
    dir: &Inode,
    name: &[u8],
) -> Option<u32>
    requires lent { AreLent heap.old purse.old cache.old disk.old }
    requires stands { (tree : Tree) × (number : ℕ) × StandsFor disk.old.blocks tree
        × (is_directory tree number ≡ true) × HasNode disk.old.blocks number dir.now }
    requires name { (name.now ≢ own_name) × (name.now ≢ parent_name) }
    ensures value { (tree : Tree) (number : ℕ) → StandsFor disk.old.blocks tree
        → is_directory tree number ≡ true → HasNode disk.old.blocks number dir.now
        → result ≡ found tree number name.now }
    ensures kept { disk.new.blocks ≡ disk.old.blocks }
    ensures lent { AreLent heap.new purse.new cache.new disk.new }
    ensures goes_on { GoesOn (parts heap.old purse.old cache.old disk.old)
        (parts heap.new purse.new cache.new disk.new) }
{
    let mut blocks = CachedBlocks {
        heap,
        purse,
        cache,
        disk,
    };
    node_named(&mut blocks, dir, name)
}

/// The directory that `..` of a directory names.
pub(crate) fn parent_through(
    heap: &mut KHeap,
    purse: &mut Purse,
    cache: &mut BlockCache,
    disk: &mut RamDisk,
    dir: &Inode,
) -> u32
    requires lent { AreLent heap.old purse.old cache.old disk.old }
    requires stands { (tree : Tree) × (number : ℕ) × StandsFor disk.old.blocks tree
        × (is_directory tree number ≡ true) × HasNode disk.old.blocks number dir.now }
    ensures value { (tree : Tree) (number : ℕ) → StandsFor disk.old.blocks tree
        → is_directory tree number ≡ true → HasNode disk.old.blocks number dir.now
        → result ≡ parent_at tree number }
    ensures kept { disk.new.blocks ≡ disk.old.blocks }
    ensures lent { AreLent heap.new purse.new cache.new disk.new }
    ensures goes_on { GoesOn (parts heap.old purse.old cache.old disk.old)
        (parts heap.new purse.new cache.new disk.new) }
{
    let mut blocks = CachedBlocks {
        heap,
        purse,
        cache,
        disk,
    };
    parent_of(&mut blocks, dir)
}
