//! What is changed of a directory and of a node's links on a disk behind a cache of its blocks, each a call that lends its
//! parts and makes one change.
ghost use Rattle.std.specs.Prelude.{◌≡◌, ◌+◌, ◌<◌, ◌≤◌, ◌^◌, ◌&&◌, ◌==◌, ◌↔◌, ℕ, true, not, IsTrue};
ghost use Rattle.posix_defs.specs.DiskFormat.{greatest_size};
ghost use Rattle.posix_defs.specs.DiskTree.{StandsFor, ChangesNode};
ghost use Rattle.posix_defs.specs.SoundDisk.{HasNode, Sound};
ghost use Rattle.posix_defs.specs.Tree.{Tree, is_directory as directory_in};
ghost use Rattle.posix_defs.specs.TreeChanges.{most_links};
ghost use Rattle.blk_map.specs.Named.{TakesNone};
ghost use Rattle.memfs_dir.specs.Listed.{IsFullBeside};
ghost use Rattle.memfs_node.specs.NodeOnDisk.{DropsLink, Retags};
ghost use Rattle.cached_disk.specs.Lent.{parts, AreLent, GoesOn};
ghost use Rattle.memfs_ops.specs.Entries.{edited, MayEdit, TakesFor};

use crate::entries::{EntryEdit, edit_entry};
use block_cache::BlockCache;
use cached_disk::CachedBlocks;
use disk_layout::RamDisk;
use kabi_types::Inode;
use kheap_slabs::{KHeap, Purse};
use memfs_node::{add_link, drop_link, has_room_for_entry};

/// Changes an entry of a directory.
pub(crate) fn edit_through(
    heap: &mut KHeap,
    purse: &mut Purse,
    cache: &mut BlockCache,
    disk: &mut RamDisk,
    dir: u32,
    inode: &mut Inode,
    edit: &EntryEdit,
)
    requires lent { AreLent heap.old purse.old cache.old disk.old }
    requires stands { (tree : Tree) × StandsFor disk.old.blocks tree × (directory_in tree dir ≡ true)
        × MayEdit edit.now disk.old.blocks tree dir inode.old }
    requires node { HasNode disk.old.blocks dir inode.old }
    ensures stands { (tree : Tree) → StandsFor disk.old.blocks tree
        → StandsFor disk.new.blocks (edited edit.now tree dir) }
    ensures node { HasNode disk.new.blocks dir inode.new }
    ensures changes { ChangesNode disk.old.blocks disk.new.blocks dir }
    ensures takes { TakesFor edit.now disk.old.blocks disk.new.blocks }
    ensures lent { AreLent heap.new purse.new cache.new disk.new }
    ensures goes_on { GoesOn (parts heap.old purse.old cache.old disk.old)
        (parts heap.new purse.new cache.new disk.new) }
{
    let mut blocks = CachedBlocks {
        heap,
        purse,
        cache,
        disk,
    };
    edit_entry(&mut blocks, dir, inode, edit);
}

/// Counts one link less of a node that has some, and frees it with its last one, unless it is `opened`; the answer is
/// whether it was freed.
pub(crate) fn drop_through(
    heap: &mut KHeap,
    purse: &mut Purse,
    cache: &mut BlockCache,
    disk: &mut RamDisk,
    number: u32,
    inode: &mut Inode,
    opened: bool,
) -> bool
    requires lent { AreLent heap.old purse.old cache.old disk.old }
    requires sound { Sound disk.old.blocks }
    requires node { HasNode disk.old.blocks number inode.old }
    requires some { 0 < inode.old.nlink }
    ensures freed { result ≡ (inode.old.nlink == 1 && not opened) }
    ensures drops { DropsLink result number disk.old.blocks inode.old disk.new.blocks inode.new }
    ensures takes_none { TakesNone disk.old.blocks disk.new.blocks }
    ensures lent { AreLent heap.new purse.new cache.new disk.new }
    ensures goes_on { GoesOn (parts heap.old purse.old cache.old disk.old)
        (parts heap.new purse.new cache.new disk.new) }
{
    let mut blocks = CachedBlocks {
        heap,
        purse,
        cache,
        disk,
    };
    drop_link(&mut blocks, number, inode, opened)
}

/// Counts one link more of a node that has fewer than 127.
pub(crate) fn add_through(
    heap: &mut KHeap,
    purse: &mut Purse,
    cache: &mut BlockCache,
    disk: &mut RamDisk,
    number: u32,
    inode: &mut Inode,
)
    requires lent { AreLent heap.old purse.old cache.old disk.old }
    requires sound { Sound disk.old.blocks }
    requires node { HasNode disk.old.blocks number inode.old }
    requires most { inode.old.nlink < most_links }
    ensures links { Retags number disk.old.blocks inode.old inode.old.kind (inode.old.nlink + 1) disk.new.blocks inode.new }
    ensures lent { AreLent heap.new purse.new cache.new disk.new }
    ensures goes_on { GoesOn (parts heap.old purse.old cache.old disk.old)
        (parts heap.new purse.new cache.new disk.new) }
{
    let mut blocks = CachedBlocks {
        heap,
        purse,
        cache,
        disk,
    };
    add_link(&mut blocks, number, inode);
}

/// Whether a directory has room for one entry more.
pub(crate) fn room_through(
    heap: &mut KHeap,
    purse: &mut Purse,
    cache: &mut BlockCache,
    disk: &mut RamDisk,
    dir: &Inode,
) -> bool
    requires lent { AreLent heap.old purse.old cache.old disk.old }
    requires sound { Sound disk.old.blocks }
    requires size { dir.now.size ≤ greatest_size }
    ensures value { IsTrue result ↔ ¬ (IsFullBeside disk.old.blocks dir.now 0) }
    ensures kept { disk.new.blocks ≡ disk.old.blocks }
    ensures lent { AreLent heap.new purse.new cache.new disk.new }
    ensures goes_on { GoesOn (parts heap.old purse.old cache.old disk.old)
        (parts heap.new purse.new cache.new disk.new) }
{
    let mut blocks = CachedBlocks {
        heap,
        purse,
        cache,
        disk,
    };
    has_room_for_entry(&mut blocks, dir, 0)
}
