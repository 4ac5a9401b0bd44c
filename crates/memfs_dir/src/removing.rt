ghost use Rattle.std.specs.Prelude.{◌≡◌, ℕ, ◌*◌, ◌<◌, List, Some, slice_get, slice_index_or};
ghost use Rattle.std.specs.List.{swap_remove};
ghost use Rattle.kabi_types.specs.declared.inodes.DirEntry.{DirEntry};
ghost use Rattle.posix_defs.specs.DiskFormat.{IsEntry};
ghost use Rattle.posix_defs.specs.SoundDisk.{HasNode, Sound};
ghost use Rattle.posix_defs.specs.DiskContents.{HasEntries};
ghost use Rattle.posix_defs.specs.TreeChanges.{no_entry};
ghost use Rattle.blk_map.specs.Named.{TakesNone};
ghost use Rattle.memfs_dir.specs.Slots.{entry_size};
ghost use Rattle.memfs_dir.specs.Listed.{IsDirectory, IsInUse, PutsEntry, Relists, at_place};

use crate::entries::{dir_entry, replace_entry};
use crate::slots::ENTRY_SIZE;
use blk_map::shrink;
use kabi_types::{DirEntry, Inode};
use posix_defs::Blocks;

/// Takes the entry at a place out of a directory, and answers its node. The last entry moves to that place, and a block
/// that no entry needs any more is free, as are the blocks of pointers; none is taken.
pub fn dir_remove<B: Blocks>(b: &mut B, number: u32, dir: &mut Inode, place: u32) -> u32
    requires sound { Sound (B.blocks b.old) }
    requires node { HasNode (B.blocks b.old) number dir.old }
    requires entries { IsDirectory (B.blocks b.old) dir.old }
    requires within { entry_size * place < dir.old.size }
    ensures removes { Relists number (B.blocks b.old) dir.old (λ entries. swap_remove entries place no_entry) (B.blocks b.new) dir.new }
    ensures answer { (entries : List DirEntry) → HasEntries (B.blocks b.old) dir.old entries → result ≡ (slice_index_or entries place no_entry).node }
    ensures takes_none { TakesNone (B.blocks b.old) (B.blocks b.new) }
    ensures follows { B.follows b.old b.new }
{
    let at = dir.size / ENTRY_SIZE - 1;
    let last = dir_entry(b, dir, at);
    let node = fill_place(b, dir, place, at, &last);
    let size = dir.size - ENTRY_SIZE;
    shrink(b, number, dir, size);
    node
}

/// Puts the last entry of a directory, which stands at a place of its own, in the place of another, of which it answers the node.
/// Where the two are one nothing is written.
fn fill_place<B: Blocks>(b: &mut B, dir: &Inode, place: u32, at: u32, last: &DirEntry) -> u32
    requires sound { Sound (B.blocks b.old) }
    requires node { IsInUse (B.blocks b.old) dir.now }
    requires entries { IsDirectory (B.blocks b.old) dir.now }
    requires within { entry_size * place < dir.now.size }
    requires entry { IsEntry last.now }
    requires last { (entries : List DirEntry) → HasEntries (B.blocks b.old) dir.now entries → slice_get entries at ≡ Some last.now }
    ensures was { (entries : List DirEntry) → HasEntries (B.blocks b.old) dir.now entries → result ≡ (at_place entries place).node }
    ensures puts { (number : ℕ) → HasNode (B.blocks b.old) number dir.now → PutsEntry number (B.blocks b.old) dir.now place last.now (B.blocks b.new) }
    ensures follows { B.follows b.old b.new }
{
    if place == at {
        return last.node;
    }
    replace_entry(b, dir, place, last)
}
