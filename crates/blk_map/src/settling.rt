//! What a call writes at its end: new blocks as zeros, a run of a node's pointers, and its inode in the table.

ghost use Rattle.std.specs.Prelude.{◌≡◌, ◌≢◌, ℕ, ◌<◌, ◌≤◌, length, slice_index};
ghost use Rattle.posix_defs.specs.DiskFormat.{block_pointers, block_size, data_blocks, table_nodes, IsForFiles, inode_bytes};
ghost use Rattle.posix_defs.specs.SoundDisk.{block_bytes, table_block, table_bytes, pointer_at};
ghost use Rattle.posix_defs.specs.DiskContents.{zeros};
ghost use Rattle.blk_map.specs.Runs.{run_start};

use crate::counts::{data_count, run_start};
use disk_layout::{block_of_pointers, put_inode};
use kabi_types::Inode;
use posix_defs::Blocks;

#[tactic(auto, unfolding(posix_defs::specs::DiskContents::zeros))]
fn zero_block() -> [u8; 1024]
    ensures { result ≡ zeros 1024 }
{
    [0; 1024]
}

/// Writes zeros into these blocks from one place up to another, and leaves all others.
pub fn zero_range<B: Blocks>(b: &mut B, blocks: &[u32], from: usize, to: usize)
    requires order { from ≤ to }
    requires few { to ≤ length blocks.now }
    requires within { (k : ℕ) → k < to → slice_index blocks.now k < length (B.blocks b.old) }
    ensures count { length (B.blocks b.new) ≡ length (B.blocks b.old) }
    ensures these { (k : ℕ) → from ≤ k → k < to → block_bytes (B.blocks b.new) (slice_index blocks.now k) ≡ zeros block_size }
    ensures others { (block : ℕ) → ((k : ℕ) → from ≤ k → k < to → slice_index blocks.now k ≢ block) → block_bytes (B.blocks b.new) block ≡ block_bytes (B.blocks b.old) block }
    ensures follows { B.follows b.old b.new }
{
    let zeros = zero_block();
    for k in from..to {
        b.set(blocks[k], &zeros);
    }
}

/// Writes a node's inode into the table, and leaves all else.
pub fn put_in_table<B: Blocks>(b: &mut B, number: u32, inode: &Inode)
    requires { (0 < number) × (number ≤ table_nodes (length (B.blocks b.old))) }
    ensures count { length (B.blocks b.new) ≡ length (B.blocks b.old) }
    ensures slot { table_bytes (B.blocks b.new) number ≡ inode_bytes inode.now }
    ensures slots { (node : ℕ) → 0 < node → node ≢ number → table_bytes (B.blocks b.new) node ≡ table_bytes (B.blocks b.old) node }
    ensures others { (block : ℕ) → block ≢ table_block number → block_bytes (B.blocks b.new) block ≡ block_bytes (B.blocks b.old) block }
    ensures follows { B.follows b.old b.new }
{
    let place = number - 1;
    let block = 1 + place / 16;
    let mut bytes = b.get(block);
    put_inode(&mut bytes, place % 16, inode);
    b.set(block, &bytes);
}

/// Writes a run of a node's pointers, where its size needs one of them.
fn put_pointers<B: Blocks>(b: &mut B, size: u32, pointers: u32, run: u32, behind: &[u32; 256])
    requires few { run ≤ block_pointers }
    requires within { run_start run < data_blocks size → pointers < length (B.blocks b.old) }
    ensures count { length (B.blocks b.new) ≡ length (B.blocks b.old) }
    ensures named { run_start run < data_blocks size → (k : ℕ) → k < block_pointers → pointer_at (block_bytes (B.blocks b.new) pointers) k ≡ slice_index behind.now k }
    ensures others { (block : ℕ) → (run_start run < data_blocks size → block ≢ pointers) → block_bytes (B.blocks b.new) block ≡ block_bytes (B.blocks b.old) block }
    ensures follows { B.follows b.old b.new }
{
    if data_count(size) <= run_start(run) {
        return;
    }
    b.set(pointers, &block_of_pointers(behind));
}

/// Writes a run of a node's pointers into its block, where the node's size needs one of them, and the node's inode.
pub fn settle<B: Blocks>(
    b: &mut B,
    number: u32,
    inode: &Inode,
    pointers: u32,
    run: u32,
    behind: &[u32; 256],
)
    requires few { run ≤ block_pointers }
    requires number { (0 < number) × (number ≤ table_nodes (length (B.blocks b.old))) }
    requires within { run_start run < data_blocks inode.now.size → IsForFiles (length (B.blocks b.old)) pointers }
    ensures count { length (B.blocks b.new) ≡ length (B.blocks b.old) }
    ensures slot { table_bytes (B.blocks b.new) number ≡ inode_bytes inode.now }
    ensures slots { (node : ℕ) → 0 < node → node ≤ table_nodes (length (B.blocks b.old)) → node ≢ number → table_bytes (B.blocks b.new) node ≡ table_bytes (B.blocks b.old) node }
    ensures named { run_start run < data_blocks inode.now.size → (k : ℕ) → k < block_pointers → pointer_at (block_bytes (B.blocks b.new) pointers) k ≡ slice_index behind.now k }
    ensures others { (block : ℕ) → block ≢ table_block number → (run_start run < data_blocks inode.now.size → block ≢ pointers) → block_bytes (B.blocks b.new) block ≡ block_bytes (B.blocks b.old) block }
    ensures follows { B.follows b.old b.new }
{
    put_pointers(b, inode.size, pointers, run, behind);
    put_in_table(b, number, inode);
}
