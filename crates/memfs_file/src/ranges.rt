//! A range of bytes, of which a block has a part.

ghost use Rattle.std.specs.Prelude.{◌≡◌, ◌≢◌, ℕ, ◌+◌, ◌-◌, ◌*◌, ◌/◌, ◌%◌, ◌^◌, ◌<◌, ◌≤◌, ◌⊎◌, ◌==◌, if◌then◌else◌, MatchOption, length, slice_index};
ghost use Rattle.posix_defs.specs.Asking.{AskedInTurn};
ghost use Rattle.posix_defs.specs.DiskFormat.{block_size, direct_pointers, block_pointers};
ghost use Rattle.posix_defs.specs.SoundDisk.{block_bytes, pointer_at};
ghost use Rattle.memfs_file.specs.Ranges.{shared, pointers_for};

use crate::counts::BLOCK_SIZE;
use blk_map::DIRECT_POINTERS;
use disk_layout::pointers_in;
use kabi_types::Inode;
use posix_defs::Blocks;

/// What a block and a range of bytes have in common.
#[derive(Clone, Copy)]
struct Part {
    /// Where it begins in the range.
    from: usize,
    /// Where it begins in the block.
    start: usize,
    /// How many bytes it has.
    count: usize,
}

/// What the block from `index` blocks on and a range of so many bytes have in common.
fn part_of(index: u32, at: u32, len: usize) -> Part
    requires block { block_size * (index + 1) < 2 ^ 32 }
    requires before { block_size * index < at + len }
    requires behind { at < block_size * (index + 1) }
    ensures from { result.from ≡ block_size * index - at }
    ensures start { result.start ≡ at - block_size * index }
    ensures count { result.count ≡ shared index at len }
{
    let first = BLOCK_SIZE * index;
    let from = first.saturating_sub(at) as usize;
    let start = at.saturating_sub(first) as usize;
    Part {
        from,
        start,
        count: (BLOCK_SIZE as usize - start).min(len - from),
    }
}

/// Copies out of a block what it has of a range, and leaves all other bytes.
pub fn copy_out(block: &[u8; 1024], index: u32, at: u32, out: &mut [u8])
    requires block { block_size * (index + 1) < 2 ^ 32 }
    requires before { block_size * index < at + length out.old }
    requires behind { at < block_size * (index + 1) }
    ensures here { (k : ℕ) → k < length out.old → (at + k) / block_size ≡ index → slice_index out.new k ≡ slice_index block.now ((at + k) % block_size) }
    ensures others { (k : ℕ) → (at + k) / block_size ≢ index → slice_index out.new k ≡ slice_index out.old k }
{
    let part = part_of(index, at, out.len());
    let bytes = &block[part.start..part.start + part.count];
    out[part.from..part.from + part.count].copy_from_slice(bytes);
}

/// Copies into a block what it has of a range, and leaves all other bytes.
pub fn copy_in(block: &mut [u8; 1024], index: u32, at: u32, bytes: &[u8])
    requires block { block_size * (index + 1) < 2 ^ 32 }
    requires before { block_size * index < at + length bytes.now }
    requires behind { at < block_size * (index + 1) }
    ensures here { (place : ℕ) → at ≤ place → place < at + length bytes.now → place / block_size ≡ index
        → slice_index block.new (place % block_size) ≡ slice_index bytes.now (place - at) }
    ensures others { (place : ℕ) → place / block_size ≡ index → (place < at) ⊎ (at + length bytes.now ≤ place)
        → slice_index block.new (place % block_size) ≡ slice_index block.old (place % block_size) }
{
    let part = part_of(index, at, bytes.len());
    let part_bytes = &bytes[part.from..part.from + part.count];
    block[part.start..part.start + part.count].copy_from_slice(part_bytes);
}

/// The bytes of the block from `index` blocks on, where the range has all of them.
pub fn whole_block(index: u32, at: u32, bytes: &[u8]) -> Option<&[u8; 1024]>
    requires block { block_size * (index + 1) < 2 ^ 32 }
    ensures { MatchOption result ((block_size * index < at) ⊎ (at + length bytes.now < block_size * (index + 1)))
        (λ whole. (at ≤ block_size * index) × (block_size * (index + 1) ≤ at + length bytes.now)
        × ((k : ℕ) → k < block_size → slice_index whole.now k ≡ slice_index bytes.now (block_size * index + k - at))) }
{
    let first = BLOCK_SIZE * index;
    if at > first || (first - at) as usize > bytes.len() {
        return None;
    }
    let from = (first - at) as usize;
    bytes[from..].first_chunk::<1024>()
}

/// Copies a run of pointers out of its block, where one of the first blocks of bytes is named there.
pub fn pointers_behind<B: Blocks>(b: &mut B, pointers: u32, blocks: u32, behind: &mut [u32; 256])
    requires { direct_pointers < blocks → pointers < length (B.blocks b.old) }
    ensures pointers { direct_pointers < blocks → (k : ℕ) → k < block_pointers → slice_index behind.new k ≡ pointer_at (block_bytes (B.blocks b.old) pointers) k }
    ensures kept { B.blocks b.new ≡ B.blocks b.old }
    ensures asked { AskedInTurn B.asked b.old (pointers_for pointers blocks) b.new }
    ensures follows { B.follows b.old b.new }
{
    if blocks <= DIRECT_POINTERS {
        return;
    }
    let block = b.get(pointers);
    *behind = pointers_in(&block);
}

/// The block that has a run of a node's pointers, by those of the double block.
pub fn pointers_of(inode: &Inode, double: &[u32; 256], run: u32) -> u32
    requires { run ≤ block_pointers }
    ensures { result ≡ (if run == 0 then inode.now.indirect else slice_index double.now (run - 1)) }
{
    if run == 0 {
        return inode.indirect;
    }
    double[run as usize - 1]
}
