ghost use Rattle.std.specs.Prelude.{◌≡◌, ℕ, ◌<◌, ◌≤◌, ◌==◌, if◌then◌else◌, [], ◌∷◌, length};
ghost use Rattle.posix_defs.specs.Asking.{AskedInTurn};
ghost use Rattle.posix_defs.specs.DiskFormat.{block_pointers, data_blocks, IsForFiles};
ghost use Rattle.posix_defs.specs.SoundDisk.{HasNode, Sound, block_of_run, pointer_block};
ghost use Rattle.posix_defs.specs.DiskContents.{data_block};
ghost use Rattle.blk_map.specs.Named.{asked_for};

use crate::counts::{BLOCK_POINTERS, DIRECT_POINTERS};
use disk_layout::pointer_in;
use kabi_types::Inode;
use posix_defs::Blocks;

/// The block that has the bytes of a node from `index` blocks on.
///
/// One of the first ten costs nothing, one of the next 256 a `get` of the node's block of pointers, every other a `get` of
/// the double block and one of the block of pointers that this one names.
pub fn block_at<B: Blocks>(b: &mut B, inode: &Inode, index: u32) -> u32
    requires sound { Sound (B.blocks b.old) }
    requires node { (number : ℕ) × HasNode (B.blocks b.old) number inode.now }
    requires within { index < data_blocks inode.now.size }
    ensures value { result ≡ data_block (B.blocks b.old) inode.now index }
    ensures for_files { IsForFiles (length (B.blocks b.old)) result }
    ensures kept { B.blocks b.new ≡ B.blocks b.old }
    ensures asked { AskedInTurn B.asked b.old (asked_for (B.blocks b.old) inode.now index) b.new }
    ensures follows { B.follows b.old b.new }
{
    if index < DIRECT_POINTERS {
        return inode.direct[index as usize];
    }
    let behind = index - DIRECT_POINTERS;
    let block = pointers_at(b, inode, behind / BLOCK_POINTERS);
    pointer_in(&b.get(block), behind % BLOCK_POINTERS)
}

/// The block that has a run of a node's pointers.
///
/// That of the first run costs nothing, every other a `get` of the double block.
pub fn pointers_at<B: Blocks>(b: &mut B, inode: &Inode, run: u32) -> u32
    requires within { run ≤ block_pointers }
    requires double { 0 < run → inode.now.double < length (B.blocks b.old) }
    ensures value { result ≡ pointer_block (B.blocks b.old) inode.now (block_of_run run) }
    ensures kept { B.blocks b.new ≡ B.blocks b.old }
    ensures asked { AskedInTurn B.asked b.old (if run == 0 then [] else inode.now.double ∷ []) b.new }
    ensures follows { B.follows b.old b.new }
{
    if run == 0 {
        return inode.indirect;
    }
    pointer_in(&b.get(inode.double), run - 1)
}
