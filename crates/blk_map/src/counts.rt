//! How many blocks a size takes, and in which run of pointers a block of bytes has its own.

ghost use Rattle.std.specs.Prelude.{◌≡◌, ◌-◌, ◌*◌, ◌<◌, ◌≤◌, ◌^◌};
ghost use Rattle.posix_defs.specs.DiskFormat.{block_size, most_blocks, data_blocks, blocks_of};
ghost use Rattle.posix_defs.specs.SoundDisk.{run_of};
ghost use Rattle.blk_map.specs.Runs.{run_start, run_end, run_first};

use disk_layout::GREATEST_SIZE;

/// The most blocks of bytes that a node can name.
pub const MOST_BLOCKS: u32 = GREATEST_SIZE / 1024;

/// How many blocks an inode names itself.
pub const DIRECT_POINTERS: u32 = 10;

/// How many blocks a block of pointers names.
pub const BLOCK_POINTERS: u32 = 256;

/// How many blocks of bytes a node can name without a double block.
pub const NEAR_BLOCKS: u32 = DIRECT_POINTERS + BLOCK_POINTERS;

/// How many blocks hold the bytes of a node of this size.
pub fn data_count(size: u32) -> u32
    ensures { result ≡ data_blocks size }
{
    let whole = size / 1024;
    if size % 1024 == 0 { whole } else { whole + 1 }
}

/// How many blocks it takes, its blocks of pointers among them.
pub fn block_count(size: u32) -> u32
    ensures { result ≡ blocks_of size }
{
    let data = data_count(size);
    if data <= DIRECT_POINTERS {
        return data;
    }
    let runs = (data - DIRECT_POINTERS).div_ceil(BLOCK_POINTERS);
    let double = if runs > 1 { 1 } else { 0 };
    data + runs + double
}

/// The run of pointers that a block of bytes has its own in; those that the inode has itself go with the first.
pub fn run_of(index: u32) -> u32
    ensures { result ≡ run_of index }
{
    index.saturating_sub(DIRECT_POINTERS) / BLOCK_POINTERS
}

/// The first block of bytes whose pointer stands in a run.
pub fn run_start(run: u32) -> u32
    requires { run < 2 ^ 20 }
    ensures { result ≡ run_start run }
{
    DIRECT_POINTERS + BLOCK_POINTERS * run
}

/// The first block of bytes of a run: the first of all goes with the first run.
pub fn run_first(run: u32) -> u32
    requires { run < 2 ^ 20 }
    ensures { result ≡ run_first run }
{
    if run == 0 { 0 } else { run_start(run) }
}

/// The size up to which a node of so many blocks grows within one run.
pub fn size_in_run(blocks: u32) -> u32
    requires { blocks ≤ most_blocks }
    ensures { result ≡ block_size * run_end (run_of blocks) }
{
    1024 * run_start(run_of(blocks) + 1)
}

/// The size down to which a node of so many blocks shrinks within one run.
pub fn size_below_run(blocks: u32) -> u32
    requires { blocks ≤ most_blocks }
    ensures { result ≡ block_size * run_first (run_of (blocks - 1)) }
{
    1024 * run_first(run_of(blocks.saturating_sub(1)))
}
