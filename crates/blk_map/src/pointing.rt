//! Blocks of pointers that a node gets with further blocks of bytes, and those that it gives up with them.

ghost use Rattle.std.specs.Prelude.{◌≡◌, ◌≢◌, ℕ, ◌+◌, ◌-◌, ◌<◌, ◌≤◌, [], length, slice_index};
ghost use Rattle.posix_defs.specs.DiskFormat.{block_pointers, data_blocks, pointer_blocks};
ghost use Rattle.posix_defs.specs.SoundDisk.{block_bytes, HasNode, IsFreeBlock, Sound, block_of_run, pointer_at, pointer_block, run_of};
ghost use Rattle.blk_map.specs.Pointing.{Repoints, SameBeside, WritesDouble};
ghost use Rattle.blk_map.specs.Runs.{run_start, run_end, run_first};

use crate::counts::{data_count, run_start};
use crate::found::Found;
use crate::locating::pointers_at;
use disk_layout::{block_of_pointers, pointers_in};
use kabi_types::Inode;
use posix_defs::Blocks;

/// Names these blocks for the pointers that a node of another size needs more, all in one run, and answers the block that
/// has that run.
pub fn name_pointers<B: Blocks>(
    b: &mut B,
    number: u32,
    inode: &mut Inode,
    size: u32,
    run: u32,
    more: &[u32],
) -> u32
    requires sound { Sound (B.blocks b.old) }
    requires node { HasNode (B.blocks b.old) number inode.old }
    requires run { run ≡ run_of (data_blocks inode.old.size) }
    requires grows { inode.old.size ≤ size }
    requires within { data_blocks size ≤ run_end run }
    requires few { run ≤ block_pointers }
    requires many { length more.now ≡ pointer_blocks size - pointer_blocks inode.old.size }
    requires free { (k : ℕ) → k < length more.now → IsFreeBlock (B.blocks b.old) (slice_index more.now k) }
    ensures has { run_start run < data_blocks size → result ≡ pointer_block (B.blocks b.new) inode.new (block_of_run run) }
    ensures names { Repoints (B.blocks b.old) inode.old size more.now (B.blocks b.new) inode.new }
    ensures same { SameBeside inode.old inode.new }
    ensures count { length (B.blocks b.new) ≡ length (B.blocks b.old) }
    ensures others { WritesDouble (B.blocks b.old) size (B.blocks b.new) inode.new }
    ensures follows { B.follows b.old b.new }
{
    if run > 0 {
        return name_far(b, number, inode, size, run, more);
    }
    if more.is_empty() {
        return inode.indirect;
    }
    inode.indirect = more[0];
    more[0]
}

/// The same where the double block names the block of the run.
#[inline(never)]
fn name_far<B: Blocks>(
    b: &mut B,
    number: u32,
    inode: &mut Inode,
    size: u32,
    run: u32,
    more: &[u32],
) -> u32
    requires sound { Sound (B.blocks b.old) }
    requires node { HasNode (B.blocks b.old) number inode.old }
    requires run { run ≡ run_of (data_blocks inode.old.size) }
    requires grows { inode.old.size ≤ size }
    requires within { data_blocks size ≤ run_end run }
    requires few { (0 < run) × (run ≤ block_pointers) }
    requires many { length more.now ≡ pointer_blocks size - pointer_blocks inode.old.size }
    requires free { (k : ℕ) → k < length more.now → IsFreeBlock (B.blocks b.old) (slice_index more.now k) }
    ensures has { run_start run < data_blocks size → result ≡ pointer_block (B.blocks b.new) inode.new (block_of_run run) }
    ensures names { Repoints (B.blocks b.old) inode.old size more.now (B.blocks b.new) inode.new }
    ensures same { SameBeside inode.old inode.new }
    ensures count { length (B.blocks b.new) ≡ length (B.blocks b.old) }
    ensures others { WritesDouble (B.blocks b.old) size (B.blocks b.new) inode.new }
    ensures follows { B.follows b.old b.new }
{
    if more.is_empty() {
        return pointers_at(b, inode, run);
    }
    let block = more[more.len() - 1];
    if run > 1 {
        set_pointer(b, inode.double, run - 1, block);
        return block;
    }
    inode.double = more[0];
    b.set(inode.double, &block_naming(block));
    block
}

/// Where a node that shrinks within a run needs the block of that run no more, takes its name away, and the double block's
/// where that named no other, and tells which blocks they were.
pub fn forget_pointers<B: Blocks>(
    b: &mut B,
    number: u32,
    inode: &mut Inode,
    size: u32,
    run: u32,
    pointers: u32,
) -> Found
    requires sound { Sound (B.blocks b.old) }
    requires node { HasNode (B.blocks b.old) number inode.old }
    requires run { run ≡ run_of (data_blocks inode.old.size - 1) }
    requires shrinks { size ≤ inode.old.size }
    requires within { run_first run ≤ data_blocks size }
    requires few { run ≤ block_pointers }
    requires pointers { run_start run < data_blocks inode.old.size → pointers ≡ pointer_block (B.blocks b.old) inode.old (block_of_run run) }
    ensures names { Repoints (B.blocks b.old) inode.old size [] (B.blocks b.new) inode.new }
    ensures same { SameBeside inode.old inode.new }
    ensures count { length (B.blocks b.new) ≡ length (B.blocks b.old) }
    ensures others { WritesDouble (B.blocks b.old) size (B.blocks b.new) inode.new }
    ensures many { result.count ≡ pointer_blocks inode.old.size - pointer_blocks size }
    ensures each { (k : ℕ) → k < pointer_blocks inode.old.size - pointer_blocks size
        → slice_index result.blocks k ≡ pointer_block (B.blocks b.old) inode.old (pointer_blocks size + k) }
    ensures follows { B.follows b.old b.new }
{
    let mut dropped = Found {
        blocks: [0; 267],
        count: 0,
    };
    let first = run_start(run);
    let left = data_count(size);
    let had = data_count(inode.size);
    if left > first || had <= first {
        return dropped;
    }
    if run == 1 {
        dropped.push(inode.double);
        inode.double = 0;
        dropped.push(pointers);
        return dropped;
    }
    dropped.push(pointers);
    if run == 0 {
        inode.indirect = 0;
        return dropped;
    }
    set_pointer(b, inode.double, run - 1, 0);
    dropped
}

/// A block of pointers of which the first names a block, and no other.
fn block_naming(block: u32) -> [u8; 1024]
    ensures first { pointer_at result 0 ≡ block }
    ensures rest { (place : ℕ) → 0 < place → place < block_pointers → pointer_at result place ≡ 0 }
{
    let mut pointers = [0; 256];
    pointers[0] = block;
    block_of_pointers(&pointers)
}

/// Writes one pointer of a block of pointers, and leaves all others.
#[inline(never)]
fn set_pointer<B: Blocks>(b: &mut B, number: u32, place: u32, block: u32)
    requires on_disk { number < length (B.blocks b.old) }
    requires place { place < block_pointers }
    ensures count { length (B.blocks b.new) ≡ length (B.blocks b.old) }
    ensures this { pointer_at (block_bytes (B.blocks b.new) number) place ≡ block }
    ensures rest { (other : ℕ) → other < block_pointers → other ≢ place
        → pointer_at (block_bytes (B.blocks b.new) number) other ≡ pointer_at (block_bytes (B.blocks b.old) number) other }
    ensures others { (other : ℕ) → other ≢ number → block_bytes (B.blocks b.new) other ≡ block_bytes (B.blocks b.old) other }
    ensures follows { B.follows b.old b.new }
{
    let mut pointers = pointers_in(&b.get(number));
    pointers[place as usize] = block;
    b.set(number, &block_of_pointers(&pointers));
}
