//! What is changed on a disk through a cache of its blocks, each a call that lends its parts and makes one change.
ghost use Rattle.std.specs.Prelude.{◌≡◌, ◌⊎◌, ◌↔◌, ◌<◌, ◌≤◌, true, Err, IfErr, IfOk, OnOk, length, take};
ghost use Rattle.kabi_types.specs.declared.errnos.Errno.TheVariants.{EFBIG, ENOSPC};
ghost use Rattle.posix_defs.specs.DiskFormat.{IsName, blocks_of, greatest_size};
ghost use Rattle.posix_defs.specs.FileBytes.{fitting, overwritten, resized};
ghost use Rattle.posix_defs.specs.SoundDisk.{HasNode, Sound};
ghost use Rattle.posix_defs.specs.DiskContents.{node_bytes};
ghost use Rattle.posix_defs.specs.DiskTree.{StandsFor};
ghost use Rattle.posix_defs.specs.Tree.{Tree, is_directory};
ghost use Rattle.posix_defs.specs.TreeChanges.{make};
ghost use Rattle.blk_map.specs.Named.{TakesLowest, TakesNone, file};
ghost use Rattle.memfs_file.specs.FileChange.{blocks_for, Rewrites};
ghost use Rattle.memfs_dir.specs.Listed.{IsDirectory};
ghost use Rattle.memfs_node.specs.NodeOnDisk.{AnswersAs, Frees, HasParent, KeepsOthers, content_of};
ghost use Rattle.cached_disk.specs.Lent.{parts, AreLent, GoesOn};

use crate::CachedBlocks;
use block_cache::BlockCache;
use disk_layout::RamDisk;
use kabi_types::{Errno, Inode, Name27};
use kheap_slabs::{KHeap, Purse};
use memfs_file::{set_size, write_at};
use memfs_node::{NewNode, free_node, make_named};

/// Makes a node under a name that a directory has not, as the free node of the lowest number, and answers that number.
///
/// ENOSPC exactly where no node is free, the directory has the greatest size, or fewer blocks are free than the node and
/// the growth of the directory take; nothing is written then. The blocks that it takes are the lowest of those that are free.
pub fn make_through(
    heap: &mut KHeap,
    purse: &mut Purse,
    cache: &mut BlockCache,
    disk: &mut RamDisk,
    parent: u32,
    dir: &mut Inode,
    name: Name27,
    new: NewNode,
) -> Result<u32, Errno>
    requires lent { AreLent heap.old purse.old cache.old disk.old }
    requires sound { Sound disk.old.blocks }
    requires node { HasNode disk.old.blocks parent dir.old }
    requires entries { IsDirectory disk.old.blocks dir.old }
    requires name { IsName name }
    requires parent { HasParent new }
    ensures answer { (tree : Tree) → StandsFor disk.old.blocks tree → is_directory tree parent ≡ true
        → AnswersAs disk.old.blocks disk.new.blocks (make tree parent name (content_of new)) result }
    ensures node { HasNode disk.new.blocks parent dir.new }
    ensures others { KeepsOthers parent disk.old.blocks disk.new.blocks }
    ensures lowest { TakesLowest disk.old.blocks disk.new.blocks }
    ensures lent { AreLent heap.new purse.new cache.new disk.new }
    ensures goes_on { GoesOn (parts heap.old purse.old cache.old disk.old)
        (parts heap.new purse.new cache.new disk.new) }
{
    let full = disk.full_blocks();
    let mut blocks = CachedBlocks {
        heap,
        purse,
        cache,
        disk,
    };
    make_named(&mut blocks, parent, dir, name, new, full)
}

/// Writes bytes into a file from `at` on, as many as there is room for, and answers how many; a gap before `at` is zeros. The
/// blocks that it takes are the lowest of those that are free.
///
/// EFBIG exactly where the place is at or behind the greatest size, else ENOSPC exactly where there is no room for the gap
/// and one byte; nothing is written then.
pub fn write_through(
    heap: &mut KHeap,
    purse: &mut Purse,
    cache: &mut BlockCache,
    disk: &mut RamDisk,
    number: u32,
    inode: &mut Inode,
    at: u32,
    bytes: &[u8],
) -> Result<u32, Errno>
    requires lent { AreLent heap.old purse.old cache.old disk.old }
    requires sound { Sound disk.old.blocks }
    requires node { HasNode disk.old.blocks number inode.old }
    requires kind { inode.old.kind ≡ file }
    requires some { 0 < length bytes.now }
    ensures count { IfOk result (λ count. count ≡ fitting (blocks_for disk.old.blocks inode.old) at (length bytes.now)) }
    ensures ok { IfOk result (λ count. Rewrites number disk.old.blocks inode.old
        (overwritten at (take count bytes.now) (node_bytes disk.old.blocks inode.old)) disk.new.blocks inode.new) }
    ensures lowest { IfOk result (λ _. TakesLowest disk.old.blocks disk.new.blocks) }
    ensures err { IfErr result (λ fault. ((fault ≡ EFBIG) ⊎ (fault ≡ ENOSPC))
        × (disk.new.blocks ≡ disk.old.blocks) × (inode.new ≡ inode.old)) }
    ensures big { (result ≡ Err EFBIG) ↔ (greatest_size ≤ at) }
    ensures full { at < greatest_size → (result ≡ Err ENOSPC)
        ↔ (fitting (blocks_for disk.old.blocks inode.old) at (length bytes.now) ≡ 0) }
    ensures lent { AreLent heap.new purse.new cache.new disk.new }
    ensures goes_on { GoesOn (parts heap.old purse.old cache.old disk.old)
        (parts heap.new purse.new cache.new disk.new) }
{
    let mut blocks = CachedBlocks {
        heap,
        purse,
        cache,
        disk,
    };
    write_at(&mut blocks, number, inode, at, bytes)
}

/// Gives a file another size: what it grows by is zeros, in the lowest of the blocks that are free.
///
/// EFBIG exactly where the size is above the greatest one, else ENOSPC exactly where there is no room; nothing is written
/// then.
pub fn size_through(
    heap: &mut KHeap,
    purse: &mut Purse,
    cache: &mut BlockCache,
    disk: &mut RamDisk,
    number: u32,
    inode: &mut Inode,
    size: u32,
) -> Result<(), Errno>
    requires lent { AreLent heap.old purse.old cache.old disk.old }
    requires sound { Sound disk.old.blocks }
    requires node { HasNode disk.old.blocks number inode.old }
    requires kind { inode.old.kind ≡ file }
    ensures ok { OnOk result (Rewrites number disk.old.blocks inode.old
        (resized size (node_bytes disk.old.blocks inode.old)) disk.new.blocks inode.new) }
    ensures lowest { OnOk result (TakesLowest disk.old.blocks disk.new.blocks) }
    ensures err { IfErr result (λ fault. ((fault ≡ EFBIG) ⊎ (fault ≡ ENOSPC))
        × (disk.new.blocks ≡ disk.old.blocks) × (inode.new ≡ inode.old)) }
    ensures big { (result ≡ Err EFBIG) ↔ (greatest_size < size) }
    ensures full { size ≤ greatest_size → (result ≡ Err ENOSPC)
        ↔ (blocks_for disk.old.blocks inode.old < blocks_of size) }
    ensures lent { AreLent heap.new purse.new cache.new disk.new }
    ensures goes_on { GoesOn (parts heap.old purse.old cache.old disk.old)
        (parts heap.new purse.new cache.new disk.new) }
{
    let mut blocks = CachedBlocks {
        heap,
        purse,
        cache,
        disk,
    };
    set_size(&mut blocks, number, inode, size)
}

/// Frees a node: its blocks, where it has some, and its slot of the table. It takes none.
pub fn free_through(
    heap: &mut KHeap,
    purse: &mut Purse,
    cache: &mut BlockCache,
    disk: &mut RamDisk,
    number: u32,
    inode: &Inode,
)
    requires lent { AreLent heap.old purse.old cache.old disk.old }
    requires sound { Sound disk.old.blocks }
    requires node { HasNode disk.old.blocks number inode.now }
    ensures frees { Frees number disk.old.blocks inode.now disk.new.blocks }
    ensures takes_none { TakesNone disk.old.blocks disk.new.blocks }
    ensures lent { AreLent heap.new purse.new cache.new disk.new }
    ensures goes_on { GoesOn (parts heap.old purse.old cache.old disk.old)
        (parts heap.new purse.new cache.new disk.new) }
{
    let mut blocks = CachedBlocks {
        heap,
        purse,
        cache,
        disk,
    };
    free_node(&mut blocks, number, inode);
}
