//! How many bytes so many blocks hold.

ghost use Rattle.std.specs.Prelude.{◌≡◌, ◌<◌, ◌^◌};
ghost use Rattle.posix_defs.specs.FileBytes.{capacity};

use blk_map::{BLOCK_POINTERS, DIRECT_POINTERS, NEAR_BLOCKS};
use disk_layout::GREATEST_SIZE;

/// The bytes of a block.
pub const BLOCK_SIZE: u32 = 1024;

/// The greatest size of a file that takes so many blocks.
pub fn most_bytes(blocks: u32) -> u32
    requires { blocks < 2 ^ 20 }
    ensures { result ≡ capacity blocks }
{
    let own = blocks.min(DIRECT_POINTERS);
    let double = (blocks / (NEAR_BLOCKS + 2)).min(1);
    let others = blocks.saturating_sub(DIRECT_POINTERS + double);
    let data = own + BLOCK_POINTERS * others / (BLOCK_POINTERS + 1);
    (BLOCK_SIZE * data).min(GREATEST_SIZE)
}
