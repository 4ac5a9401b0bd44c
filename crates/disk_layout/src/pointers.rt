//! A block of pointers: the numbers of 256 blocks, 0 where there is none.

ghost use Rattle.std.specs.Prelude.{◌≡◌, ℕ, ◌<◌, length, slice_index};
ghost use Rattle.posix_defs.specs.DiskFormat.{block_pointers};
ghost use Rattle.posix_defs.specs.SoundDisk.{pointer_at};

use crate::words::{put_words, word_at};

/// The pointer at a place of a block of pointers.
pub fn pointer_in(block: &[u8; 1024], place: u32) -> u32
    requires { place < block_pointers }
    ensures { result ≡ pointer_at block.now place }
{
    word_at(block, 4 * place as usize)
}

/// All pointers of a block of pointers.
pub fn pointers_in(block: &[u8; 1024]) -> [u32; 256]
    ensures { (place : ℕ) → place < block_pointers → slice_index result place ≡ pointer_at block.now place }
{
    let mut pointers = [0; 256];
    for place in 0..256 {
        pointers[place as usize] = pointer_in(block, place);
    }
    pointers
}

/// The block that has these pointers.
pub fn block_of_pointers(pointers: &[u32; 256]) -> [u8; 1024]
    ensures { (place : ℕ) → place < block_pointers → pointer_at result place ≡ slice_index pointers.now place }
{
    let mut block = [0; 1024];
    put_words(&mut block, 0, pointers);
    block
}
