ghost use Rattle.std.specs.Prelude.{◌≡◌, ◌≢◌, ℕ, ◌+◌, ◌*◌, ◌<◌, ◌≤◌, ◌^◌, ◌==◌, if◌then◌else◌, List, [], ◌∷◌, None, IfSome, length};
ghost use Rattle.kabi_types.specs.declared.inodes.DirEntry.{DirEntry};
ghost use Rattle.posix_defs.specs.Asking.{AskedInTurn};
ghost use Rattle.posix_defs.specs.DiskFormat.{data_blocks};
ghost use Rattle.posix_defs.specs.SoundDisk.{Sound, block_bytes, block_of_run, pointer_block};
ghost use Rattle.posix_defs.specs.DiskContents.{HasEntries, data_block};
ghost use Rattle.memfs_dir.specs.Slots.{entry_size, entries_in_block, IsCalled, Spells};
ghost use Rattle.blk_map.specs.Runs.{run_start};
ghost use Rattle.memfs_dir.specs.Looking.{FoundIn, HasDouble, HasRun, IsLookOf, asked_to_find, blocks_at, entered, found_place};
ghost use Rattle.memfs_dir.specs.Listed.{IsDirectory, IsInUse, place_called};

use crate::copied::CopiedBlocks;
use crate::slots::{ENTRIES_IN_BLOCK, ENTRY_SIZE, node_in, slot_called};
use blk_map::{BLOCK_POINTERS, DIRECT_POINTERS, run_of};
use disk_layout::pointers_in;
use kabi_types::Inode;
use posix_defs::Blocks;

/// The greatest size of a directory whose inode names all its blocks itself.
const DIRECT_SIZE: u32 = 10_240;

/// Where a directory has an entry, counted from 0, and the entry's node.
#[derive(Clone, Copy)]
pub struct FoundEntry {
    pub place: u32,
    pub node: u32,
}

/// Blocks in which a name is looked for where they lie: none is copied to be looked through.
pub trait LookedBlocks: Blocks {
    /// The first of so many slots of a block, each of which has an entry, that has one of this name, and that entry's node.
    ///
    /// It costs a `get` of the block.
    fn look(&mut self, block: u32, count: u32, name: &[u8]) -> Option<FoundEntry>
        requires block { block < length (Self.blocks self.old) }
        requires count { count ≤ entries_in_block }
        requires spelled { (slot : ℕ) → slot < count → (entry : DirEntry) × Spells (block_bytes (Self.blocks self.old) block) slot entry }
        ensures value { FoundIn (block_bytes (Self.blocks self.old) block) count name.now result }
        ensures kept { Self.blocks self.new ≡ Self.blocks self.old }
        ensures asked { Self.asked self.old block self.new }
        ensures follows { Self.follows self.old self.new }
    {
        look_in(&self.get(block), count, name)
    }
}

/// The place of the first entry of a directory that has this name, counted from 0; None exactly where none has it.
///
/// It asks for each block of the directory at most once, and for no block behind that of the entry.
pub fn dir_find<B: Blocks>(b: &mut B, dir: &Inode, name: &[u8]) -> Option<u32>
    requires sound { Sound (B.blocks b.old) }
    requires node { IsInUse (B.blocks b.old) dir.now }
    requires entries { IsDirectory (B.blocks b.old) dir.now }
    ensures value { (entries : List DirEntry) → HasEntries (B.blocks b.old) dir.now entries → result ≡ place_called name.now entries }
    ensures within { IfSome result (λ place. entry_size * place < dir.now.size) }
    ensures kept { B.blocks b.new ≡ B.blocks b.old }
    ensures asked { AskedInTurn B.asked b.old (asked_to_find (B.blocks b.old) dir.now result) b.new }
    ensures follows { B.follows b.old b.new }
{
    let mut copied = CopiedBlocks { below: b };
    place_of(dir_look(&mut copied, dir, name))
}

fn place_of(found: Option<FoundEntry>) -> Option<u32>
    ensures { result ≡ found_place found }
{
    match found {
        Some(entry) => Some(entry.place),
        None => None,
    }
}

/// The same with the node of that entry, in blocks that are looked through where they lie.
pub fn dir_look<B: LookedBlocks>(b: &mut B, dir: &Inode, name: &[u8]) -> Option<FoundEntry>
    requires sound { Sound (B.blocks b.old) }
    requires node { IsInUse (B.blocks b.old) dir.now }
    requires entries { IsDirectory (B.blocks b.old) dir.now }
    ensures value { (entries : List DirEntry) → HasEntries (B.blocks b.old) dir.now entries → IsLookOf name.now entries result }
    ensures within { IfSome result (λ found. entry_size * found.place < dir.now.size) }
    ensures kept { B.blocks b.new ≡ B.blocks b.old }
    ensures asked { AskedInTurn B.asked b.old (asked_to_find (B.blocks b.old) dir.now (found_place result)) b.new }
    ensures follows { B.follows b.old b.new }
{
    if dir.size <= DIRECT_SIZE {
        look_near(b, dir, name)
    } else {
        look_far(b, dir, name)
    }
}

/// The first of so many slots of a block, each of which has an entry, that has one of this name, and that entry's node.
pub fn look_in(block: &[u8; 1024], count: u32, name: &[u8]) -> Option<FoundEntry>
    requires count { count ≤ entries_in_block }
    requires spelled { (slot : ℕ) → slot < count → (entry : DirEntry) × Spells block.now slot entry }
    ensures found { IfSome result (λ found. (found.place < count) × IsCalled block.now found.place name.now) }
    ensures node { IfSome result (λ found. (entry : DirEntry) → Spells block.now found.place entry → found.node ≡ entry.node) }
    ensures first { IfSome result (λ found. (before : ℕ) → before < found.place → ¬ (IsCalled block.now before name.now)) }
    ensures none { result ≡ None → (slot : ℕ) → slot < count → ¬ (IsCalled block.now slot name.now) }
{
    let Some(slot) = slot_called(block, count, name) else {
        return None;
    };
    Some(FoundEntry {
        place: slot,
        node: node_in(block, slot),
    })
}

/// The entry that was found in a block behind so many others.
fn behind(first: u32, found: FoundEntry) -> FoundEntry
    requires { first + found.place < 2 ^ 32 }
    ensures { result ≡ record { place = first + found.place; node = found.node } }
{
    FoundEntry {
        place: first + found.place,
        node: found.node,
    }
}

/// A look through a directory whose inode names all its blocks.
fn look_near<B: LookedBlocks>(b: &mut B, dir: &Inode, name: &[u8]) -> Option<FoundEntry>
    requires sound { Sound (B.blocks b.old) }
    requires node { IsInUse (B.blocks b.old) dir.now }
    requires entries { IsDirectory (B.blocks b.old) dir.now }
    requires near { dir.now.size ≤ 10240 }
    ensures value { (entries : List DirEntry) → HasEntries (B.blocks b.old) dir.now entries → IsLookOf name.now entries result }
    ensures within { IfSome result (λ found. entry_size * found.place < dir.now.size) }
    ensures kept { B.blocks b.new ≡ B.blocks b.old }
    ensures asked { AskedInTurn B.asked b.old (asked_to_find (B.blocks b.old) dir.now (found_place result)) b.new }
    ensures follows { B.follows b.old b.new }
{
    let count = dir.size / ENTRY_SIZE;
    for index in 0..count.div_ceil(ENTRIES_IN_BLOCK) {
        let first = ENTRIES_IN_BLOCK * index;
        let here = (count - first).min(ENTRIES_IN_BLOCK);
        let block = dir.direct[index as usize];
        if let Some(found) = b.look(block, here, name) {
            return Some(behind(first, found));
        }
    }
    None
}

/// The same through any directory. It stands by itself, since a function pays for the room of all its locals whenever it is
/// entered, and few directories have a block of pointers.
#[inline(never)]
fn look_far<B: LookedBlocks>(b: &mut B, dir: &Inode, name: &[u8]) -> Option<FoundEntry>
    requires sound { Sound (B.blocks b.old) }
    requires node { IsInUse (B.blocks b.old) dir.now }
    requires entries { IsDirectory (B.blocks b.old) dir.now }
    ensures value { (entries : List DirEntry) → HasEntries (B.blocks b.old) dir.now entries → IsLookOf name.now entries result }
    ensures within { IfSome result (λ found. entry_size * found.place < dir.now.size) }
    ensures kept { B.blocks b.new ≡ B.blocks b.old }
    ensures asked { AskedInTurn B.asked b.old (asked_to_find (B.blocks b.old) dir.now (found_place result)) b.new }
    ensures follows { B.follows b.old b.new }
{
    let count = dir.size / ENTRY_SIZE;
    let mut pointers = [0; 256];
    let mut double = [0; 256];
    for index in 0..count.div_ceil(ENTRIES_IN_BLOCK) {
        let first = ENTRIES_IN_BLOCK * index;
        let here = (count - first).min(ENTRIES_IN_BLOCK);
        let block = block_in_turn(b, dir, &mut pointers, &mut double, index);
        if let Some(found) = b.look(block, here, name) {
            return Some(behind(first, found));
        }
    }
    None
}

/// The block that has the bytes of a node from `index` blocks on, where those before were asked for one after another. A run
/// of pointers is copied out when the first of it is wanted, and so are those of the double block.
fn block_in_turn<B: Blocks>(
    b: &mut B,
    inode: &Inode,
    pointers: &mut [u32; 256],
    double: &mut [u32; 256],
    index: u32,
) -> u32
    requires sound { Sound (B.blocks b.old) }
    requires node { IsInUse (B.blocks b.old) inode.now }
    requires within { index < data_blocks inode.now.size }
    requires pointers { HasRun (B.blocks b.old) inode.now pointers.old index }
    requires double { HasDouble (B.blocks b.old) inode.now double.old index }
    ensures value { result ≡ data_block (B.blocks b.old) inode.now index }
    ensures on_disk { result < length (B.blocks b.old) }
    ensures pointers { HasRun (B.blocks b.old) inode.now pointers.new (index + 1) }
    ensures double { HasDouble (B.blocks b.old) inode.now double.new (index + 1) }
    ensures kept { B.blocks b.new ≡ B.blocks b.old }
    ensures asked { AskedInTurn B.asked b.old (blocks_at (B.blocks b.old) inode.now (entered index)) b.new }
    ensures follows { B.follows b.old b.new }
{
    if index < DIRECT_POINTERS {
        return inode.direct[index as usize];
    }
    let place = (index - DIRECT_POINTERS) % BLOCK_POINTERS;
    if place == 0 {
        let number = run_in_turn(b, inode, double, run_of(index));
        *pointers = pointers_in(&b.get(number));
    }
    pointers[place as usize]
}

/// The block that has a run of a node's pointers, where those before were asked for one after another.
fn run_in_turn<B: Blocks>(b: &mut B, inode: &Inode, double: &mut [u32; 256], run: u32) -> u32
    requires sound { Sound (B.blocks b.old) }
    requires node { IsInUse (B.blocks b.old) inode.now }
    requires within { run_start run < data_blocks inode.now.size }
    requires double { HasDouble (B.blocks b.old) inode.now double.old (run_start run) }
    ensures value { result ≡ pointer_block (B.blocks b.old) inode.now (block_of_run run) }
    ensures double { HasDouble (B.blocks b.old) inode.now double.new (run_start run + 1) }
    ensures kept { B.blocks b.new ≡ B.blocks b.old }
    ensures asked { AskedInTurn B.asked b.old (if run == 1 then inode.now.double ∷ [] else []) b.new }
    ensures follows { B.follows b.old b.new }
{
    if run == 0 {
        return inode.indirect;
    }
    if run == 1 {
        *double = pointers_in(&b.get(inode.double));
    }
    double[run as usize - 1]
}
