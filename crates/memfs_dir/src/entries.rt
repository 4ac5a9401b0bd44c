//! One entry of a directory, by its place.

ghost use Rattle.std.specs.Prelude.{◌≡◌, ℕ, ◌+◌, ◌*◌, ◌/◌, ◌<◌, List, [], ◌∷◌, ◌++◌, slice_get, slice_set, Some};
ghost use Rattle.kabi_types.specs.declared.inodes.DirEntry.{DirEntry};
ghost use Rattle.posix_defs.specs.Asking.{AskedInTurn};
ghost use Rattle.posix_defs.specs.DiskFormat.{IsEntry};
ghost use Rattle.posix_defs.specs.SoundDisk.{HasNode, Sound};
ghost use Rattle.posix_defs.specs.DiskContents.{HasEntries, data_block};
ghost use Rattle.blk_map.specs.Named.{FreesNone, TakesNone, asked_for};
ghost use Rattle.memfs_dir.specs.Slots.{entry_size, entries_in_block};
ghost use Rattle.memfs_dir.specs.Listed.{IsDirectory, IsInUse, PutsEntry, Relists, at_place};

use crate::slots::{ENTRIES_IN_BLOCK, entry_in, node_in, put_entry};
use blk_map::block_at;
use kabi_types::{DirEntry, Inode};
use posix_defs::Blocks;

/// The entry at a place of a directory, counted from 0.
///
/// One of the first 320 costs a `get` of its block, one of the first 8512 also one of the directory's block of pointers, and
/// every other one of the double block and one of the pointers that this one names.
pub fn dir_entry<B: Blocks>(b: &mut B, dir: &Inode, place: u32) -> DirEntry
    requires sound { Sound (B.blocks b.old) }
    requires node { IsInUse (B.blocks b.old) dir.now }
    requires entries { IsDirectory (B.blocks b.old) dir.now }
    requires within { entry_size * place < dir.now.size }
    ensures value { (entries : List DirEntry) → HasEntries (B.blocks b.old) dir.now entries → slice_get entries place ≡ Some result }
    ensures valid { IsEntry result }
    ensures kept { B.blocks b.new ≡ B.blocks b.old }
    ensures asked { let index = place / entries_in_block in
        AskedInTurn B.asked b.old (asked_for (B.blocks b.old) dir.now index ++ data_block (B.blocks b.old) dir.now index ∷ []) b.new }
    ensures follows { B.follows b.old b.new }
{
    let number = block_at(b, dir, place / ENTRIES_IN_BLOCK);
    entry_in(&b.get(number), place % ENTRIES_IN_BLOCK)
}

/// The node of the entry at a place of a directory, counted from 0.
///
/// It costs what `dir_entry` does.
pub fn dir_node<B: Blocks>(b: &mut B, dir: &Inode, place: u32) -> u32
    requires sound { Sound (B.blocks b.old) }
    requires node { IsInUse (B.blocks b.old) dir.now }
    requires entries { IsDirectory (B.blocks b.old) dir.now }
    requires within { entry_size * place < dir.now.size }
    ensures value { (entries : List DirEntry) → HasEntries (B.blocks b.old) dir.now entries → result ≡ (at_place entries place).node }
    ensures kept { B.blocks b.new ≡ B.blocks b.old }
    ensures follows { B.follows b.old b.new }
{
    let number = block_at(b, dir, place / ENTRIES_IN_BLOCK);
    node_in(&b.get(number), place % ENTRIES_IN_BLOCK)
}

/// Puts an entry in the place of another, of which it answers the node.
pub fn replace_entry<B: Blocks>(b: &mut B, dir: &Inode, place: u32, entry: &DirEntry) -> u32
    requires sound { Sound (B.blocks b.old) }
    requires node { IsInUse (B.blocks b.old) dir.now }
    requires entries { IsDirectory (B.blocks b.old) dir.now }
    requires within { entry_size * place < dir.now.size }
    requires entry { IsEntry entry.now }
    ensures was { (entries : List DirEntry) → HasEntries (B.blocks b.old) dir.now entries → result ≡ (at_place entries place).node }
    ensures puts { (number : ℕ) → HasNode (B.blocks b.old) number dir.now → PutsEntry number (B.blocks b.old) dir.now place entry.now (B.blocks b.new) }
    ensures follows { B.follows b.old b.new }
{
    let number = block_at(b, dir, place / ENTRIES_IN_BLOCK);
    let mut block = b.get(number);
    let node = node_in(&block, place % ENTRIES_IN_BLOCK);
    put_entry(&mut block, place % ENTRIES_IN_BLOCK, entry);
    b.set(number, &block);
    node
}

/// Puts an entry in the place of another. No block is taken, and none is freed.
pub fn dir_rename<B: Blocks>(b: &mut B, dir: &Inode, place: u32, entry: &DirEntry)
    requires sound { Sound (B.blocks b.old) }
    requires node { IsInUse (B.blocks b.old) dir.now }
    requires entries { IsDirectory (B.blocks b.old) dir.now }
    requires within { entry_size * place < dir.now.size }
    requires entry { IsEntry entry.now }
    ensures puts { (number : ℕ) → HasNode (B.blocks b.old) number dir.now
        → Relists number (B.blocks b.old) dir.now (λ entries. slice_set entries place entry.now) (B.blocks b.new) dir.now }
    ensures takes_none { TakesNone (B.blocks b.old) (B.blocks b.new) }
    ensures frees_none { FreesNone (B.blocks b.old) (B.blocks b.new) }
    ensures follows { B.follows b.old b.new }
{
    replace_entry(b, dir, place, entry);
}
