//! Whether there is room for what is to be made.

ghost use Rattle.std.specs.Prelude.{◌≡◌, ◌≤◌, ◌<◌, ◌^◌, ◌↔◌, IsTrue};
ghost use Rattle.posix_defs.specs.DiskFormat.{greatest_size};
ghost use Rattle.posix_defs.specs.SoundDisk.{Sound, free_in_map};
ghost use Rattle.memfs_dir.specs.Listed.{IsFullBeside};

use blk_map::block_count;
use disk_layout::GREATEST_SIZE;
use kabi_types::Inode;
use memfs_file::free_count;
use posix_defs::Blocks;

/// The bytes of an entry.
const ENTRY_SIZE: u32 = 32;

/// Whether so many blocks are free.
///
/// It costs a `get` of the map, and nothing where none is wanted.
pub fn has_room<B: Blocks>(b: &mut B, blocks: u32) -> bool
    requires { Sound (B.blocks b.old) }
    ensures value { IsTrue result ↔ (blocks ≤ free_in_map (B.blocks b.old)) }
    ensures kept { B.blocks b.new ≡ B.blocks b.old }
    ensures follows { B.follows b.old b.new }
{
    blocks == 0 || free_count(b, blocks) == blocks
}

/// Whether a directory has room for one entry more, and so many blocks are free beside those that it grows by.
pub fn has_room_for_entry<B: Blocks>(b: &mut B, dir: &Inode, beside: u32) -> bool
    requires sound { Sound (B.blocks b.old) }
    requires size { dir.now.size ≤ greatest_size }
    requires beside { beside < 2 ^ 16 }
    ensures value { IsTrue result ↔ ¬ (IsFullBeside (B.blocks b.old) dir.now beside) }
    ensures kept { B.blocks b.new ≡ B.blocks b.old }
    ensures follows { B.follows b.old b.new }
{
    if dir.size == GREATEST_SIZE {
        return false;
    }
    let growth = block_count(dir.size + ENTRY_SIZE) - block_count(dir.size);
    has_room(b, growth + beside)
}
