//! The pointers of a node in hand: those of its inode, and those of one run.

ghost use Rattle.std.specs.Prelude.{◌≡◌, ◌≢◌, ℕ, ◌+◌, ◌-◌, ◌%◌, ◌^◌, ◌<◌, ◌≤◌, ◌⊎◌, length, slice_index};
ghost use Rattle.posix_defs.specs.DiskFormat.{block_pointers, direct_pointers};
ghost use Rattle.posix_defs.specs.SoundDisk.{block_bytes, pointer_at, run_of};
ghost use Rattle.blk_map.specs.Named.{IsInHand, pointer_to};
ghost use Rattle.blk_map.specs.Runs.{run_start, run_end, run_first};

use crate::counts::{BLOCK_POINTERS, DIRECT_POINTERS, run_start};
use crate::found::Found;
use disk_layout::pointers_in;
use posix_defs::Blocks;

/// Copies a run of pointers out of the block that has it, over zeros, which stay where a node of so many blocks of bytes
/// has none of them.
pub fn behind_of<B: Blocks>(b: &mut B, pointers: u32, held: u32, run: u32, behind: &mut [u32; 256])
    requires few { run ≤ block_pointers }
    requires within { run_start run < held → pointers < length (B.blocks b.old) }
    requires zeros { (k : ℕ) → k < block_pointers → slice_index behind.old k ≡ 0 }
    ensures large { run_start run < held → (k : ℕ) → k < block_pointers → slice_index behind.new k ≡ pointer_at (block_bytes (B.blocks b.old) pointers) k }
    ensures small { held ≤ run_start run → (k : ℕ) → k < block_pointers → slice_index behind.new k ≡ 0 }
    ensures kept { B.blocks b.new ≡ B.blocks b.old }
    ensures follows { B.follows b.old b.new }
{
    if held <= run_start(run) {
        return;
    }
    let block = b.get(pointers);
    *behind = pointers_in(&block);
}

/// The place of a block's pointer in its run.
fn place_in_run(index: usize) -> usize
    requires { direct_pointers ≤ index }
    ensures { result ≡ (index - direct_pointers) % block_pointers }
{
    (index - DIRECT_POINTERS as usize) % BLOCK_POINTERS as usize
}

/// The block that these pointers name for the bytes from `index` blocks on.
pub fn pointer_of(direct: &[u32; 10], behind: &[u32; 256], index: usize) -> u32
    ensures { result ≡ pointer_to direct.now behind.now index }
{
    if index < 10 {
        direct[index]
    } else {
        behind[place_in_run(index)]
    }
}

/// Names a block for the bytes from `index` blocks on.
fn name(direct: &mut [u32; 10], behind: &mut [u32; 256], index: usize, block: u32)
    ensures this { pointer_to direct.new behind.new index ≡ block }
    ensures others { (other : ℕ) → IsInHand (run_of index) other → other ≢ index → pointer_to direct.new behind.new other ≡ pointer_to direct.old behind.old other }
{
    if index < 10 {
        direct[index] = block;
        return;
    }
    behind[place_in_run(index)] = block;
}

/// Names the first of these blocks, one after another, for the bytes from `from` blocks on, all of them in one run.
pub fn name_all(
    direct: &mut [u32; 10],
    behind: &mut [u32; 256],
    from: usize,
    blocks: &[u32],
    count: usize,
)
    requires many { count ≤ length blocks.now }
    requires low { from < 2 ^ 32 }
    requires within { from + count ≤ run_end (run_of from) }
    ensures these { (k : ℕ) → k < count → pointer_to direct.new behind.new (from + k) ≡ slice_index blocks.now k }
    ensures others { (index : ℕ) → IsInHand (run_of from) index → (index < from) ⊎ (from + count ≤ index) → pointer_to direct.new behind.new index ≡ pointer_to direct.old behind.old index }
{
    for k in 0..count {
        name(direct, behind, from + k, blocks[k]);
    }
}

/// Takes the names from `from` up to `to` away, all of them in one run, and puts the blocks behind those that were dropped.
pub fn forget_all(
    direct: &mut [u32; 10],
    behind: &mut [u32; 256],
    run: u32,
    from: usize,
    to: usize,
    dropped: &mut Found,
)
    requires few { run ≤ block_pointers }
    requires order { from ≤ to }
    requires within { (run_first run ≤ from) × (to ≤ run_end run) }
    requires room { dropped.old.count + (to - from) ≤ 267 }
    ensures many { dropped.new.count ≡ dropped.old.count + (to - from) }
    ensures kept { (k : ℕ) → k < dropped.old.count → slice_index dropped.new.blocks k ≡ slice_index dropped.old.blocks k }
    ensures each { (k : ℕ) → k < to - from → slice_index dropped.new.blocks (dropped.old.count + k) ≡ pointer_to direct.old behind.old (from + k) }
    ensures these { (index : ℕ) → from ≤ index → index < to → pointer_to direct.new behind.new index ≡ 0 }
    ensures others { (index : ℕ) → IsInHand run index → (index < from) ⊎ (to ≤ index) → pointer_to direct.new behind.new index ≡ pointer_to direct.old behind.old index }
{
    for index in from..to {
        dropped.push(pointer_of(direct, behind, index));
        name(direct, behind, index, 0);
    }
}
