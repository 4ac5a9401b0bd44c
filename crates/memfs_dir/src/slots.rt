//! A block of a directory: 32 slots, each with the bytes of one entry.

ghost use Rattle.std.specs.Prelude.{◌≡◌, ℕ, ◌+◌, ◌*◌, ◌<◌, ◌≤◌, ◌⊎◌, ◌↔◌, IsTrue, IfSome, None, true, length, take, drop, slice_index};
ghost use Rattle.std.specs.Str.{bytes_eq};
ghost use Rattle.kabi_types.specs.declared.inodes.DirEntry.{DirEntry};
ghost use Rattle.posix_defs.specs.DiskFormat.{IsEntry};
ghost use Rattle.memfs_dir.specs.Slots.{entry_size, entries_in_block, HasBytesOf, Spells, IsCalled};

use disk_layout::{bytes_of_entry, entry_of, pointer_in};
use kabi_types::DirEntry;

/// The bytes of an entry.
pub const ENTRY_SIZE: u32 = 32;

/// How many entries a block has.
pub const ENTRIES_IN_BLOCK: u32 = 32;

fn slot_in(block: &[u8; 1024], slot: u32) -> [u8; 32]
    requires { slot < entries_in_block }
    ensures { result ≡ take entry_size (drop (entry_size * slot) block.now) }
{
    let start = 32 * slot as usize;
    let mut bytes = [0; 32];
    bytes.copy_from_slice(&block[start..start + 32]);
    bytes
}

/// The entry that a slot has.
pub fn entry_in(block: &[u8; 1024], slot: u32) -> DirEntry
    requires slot { slot < entries_in_block }
    requires spelled { (entry : DirEntry) × Spells block.now slot entry }
    ensures { Spells block.now slot result }
{
    entry_of(&slot_in(block, slot)).unwrap()
}

/// Writes an entry into a slot, and leaves all other bytes.
pub fn put_entry(block: &mut [u8; 1024], slot: u32, entry: &DirEntry)
    requires slot { slot < entries_in_block }
    requires entry { IsEntry entry.now }
    ensures this { HasBytesOf block.new slot entry.now }
    ensures others { (k : ℕ) → (k < entry_size * slot) ⊎ (entry_size * slot + entry_size ≤ k) → slice_index block.new k ≡ slice_index block.old k }
{
    let start = 32 * slot as usize;
    block[start..start + 32].copy_from_slice(&bytes_of_entry(entry));
}

/// Whether the length and the last byte of a slot's name are those of this name, as those of few others are: only such a name is
/// compared.
fn looks_like(block: &[u8; 1024], slot: u32, name: &[u8]) -> bool
    requires { slot < entries_in_block }
    ensures called { IsCalled block.now slot name.now → result ≡ true }
    ensures length { result ≡ true → (length name.now ≤ 27) × (slice_index block.now (entry_size * slot + 4) ≡ length name.now) }
{
    let length = name.len();
    if length == 0 || length > 27 {
        return false;
    }
    let start = 32 * slot as usize + 4;
    block[start] as usize == length && block[start + length] == name[length - 1]
}

/// Whether a slot, which has an entry, has one of this name.
fn is_called(block: &[u8; 1024], slot: u32, name: &[u8]) -> bool
    requires slot { slot < entries_in_block }
    requires spelled { (entry : DirEntry) × Spells block.now slot entry }
    ensures { IsTrue result ↔ IsCalled block.now slot name.now }
{
    if !looks_like(block, slot, name) {
        return false;
    }
    let start = 32 * slot as usize + 5;
    are_same(&block[start..start + name.len()], name)
}

/// Whether two runs of bytes are one. It stands by itself, so that the slots whose names aren't compared cost nothing for it.
#[inline(never)]
fn are_same(one: &[u8], other: &[u8]) -> bool
    ensures { result ≡ bytes_eq one.now other.now }
{
    one == other
}

/// The first of so many slots, each of which has an entry, that has one of this name.
pub fn slot_called(block: &[u8; 1024], count: u32, name: &[u8]) -> Option<u32>
    requires count { count ≤ entries_in_block }
    requires spelled { (slot : ℕ) → slot < count → (entry : DirEntry) × Spells block.now slot entry }
    ensures found { IfSome result (λ slot. (slot < count) × IsCalled block.now slot name.now) }
    ensures first { IfSome result (λ slot. (before : ℕ) → before < slot → ¬ (IsCalled block.now before name.now)) }
    ensures none { result ≡ None → (slot : ℕ) → slot < count → ¬ (IsCalled block.now slot name.now) }
{
    for slot in 0..count {
        if is_called(block, slot, name) {
            return Some(slot);
        }
    }
    None
}

/// The node of the entry that a slot has: the first four of its bytes, as a pointer has them.
pub fn node_in(block: &[u8; 1024], slot: u32) -> u32
    requires { slot < entries_in_block }
    ensures { (entry : DirEntry) → Spells block.now slot entry → result ≡ entry.node }
{
    pointer_in(block, 8 * slot)
}
