//! Bytes that are written within a node's size.

ghost use Rattle.std.specs.Prelude.{◌≡◌, ℕ, ◌+◌, ◌-◌, ◌*◌, ◌/◌, ◌%◌, ◌^◌, ◌<◌, ◌≤◌, ◌⊎◌, List, length, slice_index, slice_set};
ghost use Rattle.posix_defs.specs.DiskFormat.{block_size, data_blocks, near_blocks};
ghost use Rattle.posix_defs.specs.SoundDisk.{block_bytes, block_of_run, pointer_block, run_of, HasNode, Sound};
ghost use Rattle.blk_map.specs.Runs.{run_end};
ghost use Rattle.memfs_file.specs.FileChange.{IsInUse, Puts, PutsPart};

use crate::counts::BLOCK_SIZE;
use crate::ranges::{copy_in, pointers_behind, pointers_of, whole_block};
use blk_map::{NEAR_BLOCKS, data_count, pointer_of, run_first, run_of, run_start};
use disk_layout::pointers_in;
use kabi_types::Inode;
use posix_defs::Blocks;

/// Writes a range of a node's bytes, all of it within the node's size.
pub fn put_bytes<B: Blocks>(b: &mut B, inode: &Inode, at: u32, bytes: &[u8])
    requires sound { Sound (B.blocks b.old) }
    requires node { IsInUse (B.blocks b.old) inode.now }
    requires some { 0 < length bytes.now }
    requires within { at + length bytes.now ≤ inode.now.size }
    ensures puts { (number : ℕ) → HasNode (B.blocks b.old) number inode.now → Puts number (B.blocks b.old) inode.now at bytes.now (B.blocks b.new) }
    ensures follows { B.follows b.old b.new }
{
    let first = at / BLOCK_SIZE;
    let end = data_count(at + bytes.len() as u32);
    if end > NEAR_BLOCKS {
        return put_far(b, inode, first, end, at, bytes);
    }
    put_run(b, inode, inode.indirect, first, end, at, bytes);
}

/// Writes what the blocks from one up to another have of a range, all of them in the run of pointers that this block has.
fn put_run<B: Blocks>(
    b: &mut B,
    inode: &Inode,
    pointers: u32,
    from: u32,
    to: u32,
    at: u32,
    bytes: &[u8],
)
    requires sound { Sound (B.blocks b.old) }
    requires node { IsInUse (B.blocks b.old) inode.now }
    requires some { from < to }
    requires run { to ≤ run_end (run_of from) }
    requires pointers { pointers ≡ pointer_block (B.blocks b.old) inode.now (block_of_run (run_of from)) }
    requires range { (at / block_size ≤ from) × (to ≤ data_blocks (at + length bytes.now)) }
    requires within { at + length bytes.now ≤ inode.now.size }
    ensures puts { (number : ℕ) → HasNode (B.blocks b.old) number inode.now → PutsPart number (B.blocks b.old) inode.now at bytes.now from to (B.blocks b.new) }
    ensures follows { B.follows b.old b.new }
{
    let mut behind = [0; 256];
    pointers_behind(b, pointers, to, &mut behind);
    for index in from..to {
        let block = pointer_of(&inode.direct, &behind, index as usize);
        put_part(b, block, index, at, bytes);
    }
}

/// The same of any blocks, some of which the double block leads to.
#[inline(never)]
fn put_far<B: Blocks>(b: &mut B, inode: &Inode, from: u32, to: u32, at: u32, bytes: &[u8])
    requires sound { Sound (B.blocks b.old) }
    requires node { IsInUse (B.blocks b.old) inode.now }
    requires some { from < to }
    requires far { near_blocks < to }
    requires range { (at / block_size ≤ from) × (to ≤ data_blocks (at + length bytes.now)) }
    requires within { at + length bytes.now ≤ inode.now.size }
    ensures puts { (number : ℕ) → HasNode (B.blocks b.old) number inode.now → PutsPart number (B.blocks b.old) inode.now at bytes.now from to (B.blocks b.new) }
    ensures follows { B.follows b.old b.new }
{
    let double = pointers_in(&b.get(inode.double));
    for run in run_of(from)..run_of(to - 1) + 1 {
        let pointers = pointers_of(inode, &double, run);
        let first = from.max(run_first(run));
        let end = to.min(run_start(run + 1));
        put_run(b, inode, pointers, first, end, at, bytes);
    }
}

/// Writes what a block has of a range of bytes. A block that the range covers is not read.
fn put_part<B: Blocks>(b: &mut B, number: u32, index: u32, at: u32, bytes: &[u8])
    requires on_disk { number < length (B.blocks b.old) }
    requires block { block_size * (index + 1) < 2 ^ 32 }
    requires before { block_size * index < at + length bytes.now }
    requires behind { at < block_size * (index + 1) }
    ensures set { (block : List ℕ) × (B.blocks b.new ≡ slice_set (B.blocks b.old) number block) }
    ensures here { (place : ℕ) → at ≤ place → place < at + length bytes.now → place / block_size ≡ index
        → slice_index (block_bytes (B.blocks b.new) number) (place % block_size) ≡ slice_index bytes.now (place - at) }
    ensures rest { (place : ℕ) → place / block_size ≡ index → (place < at) ⊎ (at + length bytes.now ≤ place)
        → slice_index (block_bytes (B.blocks b.new) number) (place % block_size) ≡ slice_index (block_bytes (B.blocks b.old) number) (place % block_size) }
    ensures follows { B.follows b.old b.new }
{
    match whole_block(index, at, bytes) {
        Some(whole) => b.set(number, whole),
        None => put_some(b, number, index, at, bytes),
    }
}

/// The same of any part of a block, which is read before. It stands by itself, since a function pays for the room of all its
/// locals whenever it is entered.
#[inline(never)]
fn put_some<B: Blocks>(b: &mut B, number: u32, index: u32, at: u32, bytes: &[u8])
    requires on_disk { number < length (B.blocks b.old) }
    requires block { block_size * (index + 1) < 2 ^ 32 }
    requires before { block_size * index < at + length bytes.now }
    requires behind { at < block_size * (index + 1) }
    ensures set { (block : List ℕ) × (B.blocks b.new ≡ slice_set (B.blocks b.old) number block) }
    ensures here { (place : ℕ) → at ≤ place → place < at + length bytes.now → place / block_size ≡ index
        → slice_index (block_bytes (B.blocks b.new) number) (place % block_size) ≡ slice_index bytes.now (place - at) }
    ensures rest { (place : ℕ) → place / block_size ≡ index → (place < at) ⊎ (at + length bytes.now ≤ place)
        → slice_index (block_bytes (B.blocks b.new) number) (place % block_size) ≡ slice_index (block_bytes (B.blocks b.old) number) (place % block_size) }
    ensures follows { B.follows b.old b.new }
{
    let mut block = b.get(number);
    copy_in(&mut block, index, at, bytes);
    b.set(number, &block);
}
