//! Bytes of a node that are read.

ghost use Rattle.std.specs.Prelude.{◌≡◌, ℕ, ◌+◌, ◌-◌, ◌/◌, ◌<◌, ◌≤◌, ◌⊎◌, ◌++◌, min, length, slice_index, take, drop};
ghost use Rattle.posix_defs.specs.Asking.{AskedInTurn};
ghost use Rattle.posix_defs.specs.DiskFormat.{block_size, data_blocks, near_blocks};
ghost use Rattle.posix_defs.specs.SoundDisk.{Sound, block_of_run, pointer_block, run_of};
ghost use Rattle.blk_map.specs.Runs.{run_end};
ghost use Rattle.posix_defs.specs.DiskContents.{byte_at, node_bytes};
ghost use Rattle.memfs_file.specs.FileChange.{IsInUse};
ghost use Rattle.memfs_file.specs.Ranges.{asked_between, asked_to_read, blocks_between, pointers_for};

use crate::counts::BLOCK_SIZE;
use crate::ranges::{copy_out, pointers_behind, pointers_of};
use blk_map::{NEAR_BLOCKS, data_count, pointer_of, run_first, run_of, run_start};
use disk_layout::pointers_in;
use kabi_types::Inode;
use posix_defs::Blocks;

/// Reads the bytes of a node from `at` on, as many as are there and have room, and answers how many; the rest of `out`
/// stays as it was.
///
/// It asks for each block of these bytes once, before for the blocks of pointers that name one of them, each where its run
/// begins, and first of all for the double block where that names one of these. See [read](https://pubs.opengroup.org/onlinepubs/9699919799/functions/read.html).
pub fn read_at<B: Blocks>(b: &mut B, inode: &Inode, at: u32, out: &mut [u8]) -> u32
    requires sound { Sound (B.blocks b.old) }
    requires node { IsInUse (B.blocks b.old) inode.now }
    ensures count { result ≡ min (length out.old) (inode.now.size - at) }
    ensures bytes { out.new ≡ take result (drop at (node_bytes (B.blocks b.old) inode.now)) ++ drop result out.old }
    ensures kept { B.blocks b.new ≡ B.blocks b.old }
    ensures asked { AskedInTurn B.asked b.old (asked_to_read (B.blocks b.old) inode.now at result) b.new }
    ensures follows { B.follows b.old b.new }
{
    let there = inode.size.saturating_sub(at) as usize;
    let count = there.min(out.len());
    if count == 0 {
        return 0;
    }
    read_range(b, inode, at, &mut out[..count]);
    count as u32
}

/// Reads a range of a node's bytes.
fn read_range<B: Blocks>(b: &mut B, inode: &Inode, at: u32, out: &mut [u8])
    requires sound { Sound (B.blocks b.old) }
    requires node { IsInUse (B.blocks b.old) inode.now }
    requires some { 0 < length out.old }
    requires within { at + length out.old ≤ inode.now.size }
    ensures bytes { (k : ℕ) → k < length out.old → slice_index out.new k ≡ byte_at (B.blocks b.old) inode.now (at + k) }
    ensures kept { B.blocks b.new ≡ B.blocks b.old }
    ensures asked { AskedInTurn B.asked b.old (asked_to_read (B.blocks b.old) inode.now at (length out.old)) b.new }
    ensures follows { B.follows b.old b.new }
{
    let first = at / BLOCK_SIZE;
    let end = data_count(at + out.len() as u32);
    if end > NEAR_BLOCKS {
        return read_far(b, inode, first, end, at, out);
    }
    read_run(b, inode, inode.indirect, first, end, at, out);
}

/// Reads what the blocks from one up to another have of a range, all of them in the run of pointers that this block has.
fn read_run<B: Blocks>(
    b: &mut B,
    inode: &Inode,
    pointers: u32,
    from: u32,
    to: u32,
    at: u32,
    out: &mut [u8],
)
    requires sound { Sound (B.blocks b.old) }
    requires node { IsInUse (B.blocks b.old) inode.now }
    requires some { from < to }
    requires run { to ≤ run_end (run_of from) }
    requires pointers { pointers ≡ pointer_block (B.blocks b.old) inode.now (block_of_run (run_of from)) }
    requires range { (at / block_size ≤ from) × (to ≤ data_blocks (at + length out.old)) }
    requires within { at + length out.old ≤ inode.now.size }
    ensures bytes { (k : ℕ) → k < length out.old → from ≤ (at + k) / block_size → (at + k) / block_size < to → slice_index out.new k ≡ byte_at (B.blocks b.old) inode.now (at + k) }
    ensures others { (k : ℕ) → ((at + k) / block_size < from) ⊎ (to ≤ (at + k) / block_size) → slice_index out.new k ≡ slice_index out.old k }
    ensures kept { B.blocks b.new ≡ B.blocks b.old }
    ensures asked { AskedInTurn B.asked b.old (pointers_for pointers to ++ blocks_between (B.blocks b.old) inode.now from to) b.new }
    ensures follows { B.follows b.old b.new }
{
    let mut behind = [0; 256];
    pointers_behind(b, pointers, to, &mut behind);
    for index in from..to {
        let number = pointer_of(&inode.direct, &behind, index as usize);
        copy_out(&b.get(number), index, at, out);
    }
}

/// The same of any blocks, some of which the double block leads to.
#[inline(never)]
fn read_far<B: Blocks>(b: &mut B, inode: &Inode, from: u32, to: u32, at: u32, out: &mut [u8])
    requires sound { Sound (B.blocks b.old) }
    requires node { IsInUse (B.blocks b.old) inode.now }
    requires some { from < to }
    requires far { near_blocks < to }
    requires range { (at / block_size ≡ from) × (to ≡ data_blocks (at + length out.old)) }
    requires within { at + length out.old ≤ inode.now.size }
    ensures bytes { (k : ℕ) → k < length out.old → slice_index out.new k ≡ byte_at (B.blocks b.old) inode.now (at + k) }
    ensures kept { B.blocks b.new ≡ B.blocks b.old }
    ensures asked { AskedInTurn B.asked b.old (asked_between (B.blocks b.old) inode.now from to) b.new }
    ensures follows { B.follows b.old b.new }
{
    let double = pointers_in(&b.get(inode.double));
    for run in run_of(from)..run_of(to - 1) + 1 {
        let pointers = pointers_of(inode, &double, run);
        let first = from.max(run_first(run));
        let end = to.min(run_start(run + 1));
        read_run(b, inode, pointers, first, end, at, out);
    }
}
