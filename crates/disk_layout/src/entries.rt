//! A directory entry as the 32 bytes that a disk has of it.

ghost use Rattle.std.specs.Prelude.{◌≡◌, ℕ, ◌-◌, ◌<◌, ◌≢◌, ◌++◌, ◌↔◌, List, length, take, replicate, slice_index, EachIndex, IsTrue, IfOk, Ok, Some, IfSome};
ghost use Rattle.kabi_types.specs.declared.inodes.DirEntry.{DirEntry};
ghost use Rattle.posix_defs.specs.DiskFormat.{IsName, IsEntry, entry_bytes};

use crate::faults::BadEntry;
use crate::words::{all_zero, put, word_at};
use kabi_types::{DirEntry, Name27};

fn has_no_zero_or_slash(name: &[u8]) -> bool
    ensures { IsTrue result ↔ EachIndex name.now (λ k. (slice_index name.now k ≢ 0) × (slice_index name.now k ≢ 47)) }
{
    name.iter().all(|byte| *byte != 0 && *byte != b'/')
}

/// The name of so many bytes that stands at the front, with nothing behind it; None where there is no such name.
fn name_in(field: &[u8], len: usize) -> Option<Name27>
    requires { length field.now ≡ 27 }
    ensures found { IfSome result (λ name. IsName name × (length name ≡ len) × (field.now ≡ name ++ replicate (27 - len) 0)) }
    ensures only { (name : List ℕ) → IsName name → length name ≡ len → field.now ≡ name ++ replicate (27 - len) 0 → result ≡ Some name }
{
    if len == 0 || len > 27 {
        return None;
    }
    let (name, behind) = field.split_at(len);
    if !has_no_zero_or_slash(name) || !all_zero(behind) {
        return None;
    }
    Name27::of(name)
}

/// The entry that the bytes spell; BadEntry exactly where they spell none.
pub fn entry_of(bytes: &[u8; 32]) -> Result<DirEntry, BadEntry>
    ensures found { IfOk result (λ entry. IsEntry entry × (bytes.now ≡ entry_bytes entry)) }
    ensures only { (entry : DirEntry) → IsEntry entry → bytes.now ≡ entry_bytes entry → result ≡ Ok entry }
{
    let node = word_at(bytes, 0);
    if node == 0 {
        return Err(BadEntry);
    }
    let Some(name) = name_in(&bytes[5..], bytes[4] as usize) else {
        return Err(BadEntry);
    };
    Ok(DirEntry { node, name })
}

/// The 32 bytes of an entry.
pub fn bytes_of_entry(entry: &DirEntry) -> [u8; 32]
    ensures { result ≡ entry_bytes entry.now }
{
    let name = entry.name.items();
    let mut bytes = [0; 32];
    put(&mut bytes, 0, &entry.node.to_be_bytes());
    bytes[4] = name.len() as u8;
    put(&mut bytes, 5, name);
    bytes
}
