//! Room for bytes that are to be written: how many of them fit, and the growth that they take.

ghost use Rattle.std.specs.Prelude.{◌≡◌, ℕ, ◌+◌, ◌*◌, ◌/◌, ◌<◌, ◌≤◌, IfErr, IfOk, max, min};
ghost use Rattle.kabi_types.specs.declared.errnos.Errno.TheVariants.{ENOSPC};
ghost use Rattle.posix_defs.specs.DiskFormat.{block_size, greatest_size, data_blocks, blocks_of};
ghost use Rattle.posix_defs.specs.FileBytes.{fitting};
ghost use Rattle.posix_defs.specs.SoundDisk.{HasNode, Sound, free_in_map};
ghost use Rattle.blk_map.specs.Growing.{GrowsBut};
ghost use Rattle.blk_map.specs.Named.{file};
ghost use Rattle.memfs_file.specs.FileChange.{blocks_for, IsInUse, Clears};

use crate::counts::{BLOCK_SIZE, most_bytes};
use crate::putting::put_bytes;
use blk_map::{block_count, data_count, free_up_to, grow_but};
use kabi_types::{Errno, Inode};
use posix_defs::Blocks;

/// How many blocks of a disk are free, counted up to what is wanted.
///
/// It costs a `get` of the map.
pub fn free_count<B: Blocks>(b: &mut B, wanted: u32) -> u32
    requires { Sound (B.blocks b.old) }
    ensures value { result ≡ min wanted (free_in_map (B.blocks b.old)) }
    ensures kept { B.blocks b.new ≡ B.blocks b.old }
    ensures follows { B.follows b.old b.new }
{
    let map = b.get(0);
    free_up_to(&map, b.count(), wanted)
}

/// Gives a file the size that so many bytes at a place take, or as many of them as there is room for, and answers how
/// many; it stays as it is where they lie within its size. The new bytes up to the end of its last block are those that
/// the block has there, new blocks of which these bytes are all have any, and all others are zeros.
///
/// ENOSPC exactly where not one of them has room; nothing is written then.
pub fn make_room<B: Blocks>(
    b: &mut B,
    number: u32,
    inode: &mut Inode,
    at: u32,
    wanted: u32,
) -> Result<u32, Errno>
    requires sound { Sound (B.blocks b.old) }
    requires node { HasNode (B.blocks b.old) number inode.old }
    requires kind { inode.old.kind ≡ file }
    requires some { 0 < wanted }
    requires most { at + wanted ≤ greatest_size }
    ensures count { IfOk result (λ count. (count ≡ fitting (blocks_for (B.blocks b.old) inode.old) at wanted) × (0 < count)) }
    ensures ok { IfOk result (λ count. GrowsBut (data_blocks at) ((at + count) / block_size) number
        (B.blocks b.old) inode.old (max inode.old.size (at + count)) (B.blocks b.new) inode.new) }
    ensures err { IfErr result (λ fault. (fault ≡ ENOSPC)
        × (fitting (blocks_for (B.blocks b.old) inode.old) at wanted ≡ 0) × (B.blocks b.new ≡ B.blocks b.old) × (inode.new ≡ inode.old)) }
    ensures follows { B.follows b.old b.new }
{
    let end = at + wanted;
    if end <= inode.size {
        return Ok(wanted);
    }
    let from = data_count(at);
    match grow_but(b, number, inode, end, from, end / BLOCK_SIZE) {
        Ok(()) => Ok(wanted),
        Err(_) => grow_to_most(b, number, inode, at, wanted),
    }
}

/// Gives a file the greatest size that there is room for, and answers how many bytes at a place that leaves; fewer than
/// are wanted.
fn grow_to_most<B: Blocks>(
    b: &mut B,
    number: u32,
    inode: &mut Inode,
    at: u32,
    wanted: u32,
) -> Result<u32, Errno>
    requires sound { Sound (B.blocks b.old) }
    requires node { HasNode (B.blocks b.old) number inode.old }
    requires kind { inode.old.kind ≡ file }
    requires most { at + wanted ≤ greatest_size }
    requires full { blocks_for (B.blocks b.old) inode.old < blocks_of (at + wanted) }
    ensures count { IfOk result (λ count. (count ≡ fitting (blocks_for (B.blocks b.old) inode.old) at wanted) × (0 < count)) }
    ensures ok { IfOk result (λ count. GrowsBut (data_blocks at) ((at + count) / block_size) number
        (B.blocks b.old) inode.old (max inode.old.size (at + count)) (B.blocks b.new) inode.new) }
    ensures err { IfErr result (λ fault. (fault ≡ ENOSPC)
        × (fitting (blocks_for (B.blocks b.old) inode.old) at wanted ≡ 0) × (B.blocks b.new ≡ B.blocks b.old) × (inode.new ≡ inode.old)) }
    ensures follows { B.follows b.old b.new }
{
    let had = block_count(inode.size);
    let more = block_count(at + wanted) - had;
    let most = most_bytes(had + free_count(b, more));
    if most <= at {
        return Err(Errno::ENOSPC);
    }
    grow_but(b, number, inode, most, data_count(at), most / BLOCK_SIZE)?;
    Ok(most - at)
}

/// Writes zeros behind the bytes that a node had before it grew, up to a place or the end of the block that has the last
/// of them.
pub fn zero_gap<B: Blocks>(b: &mut B, inode: &Inode, from: u32, to: u32)
    requires sound { Sound (B.blocks b.old) }
    requires node { IsInUse (B.blocks b.old) inode.now }
    requires within { (from < to → to ≤ inode.now.size) × (to ≤ greatest_size) }
    ensures clears { (number : ℕ) → HasNode (B.blocks b.old) number inode.now
        → Clears number (B.blocks b.old) inode.now from to (B.blocks b.new) }
    ensures follows { B.follows b.old b.new }
{
    let start = from % BLOCK_SIZE;
    if start == 0 || to <= from {
        return;
    }
    let count = (BLOCK_SIZE - start).min(to - from);
    put_bytes(b, inode, from, &[0; 1024][..count as usize]);
}
