//! An inode as the 64 bytes that a disk has of it.

ghost use Rattle.std.specs.Prelude.{◌≡◌, ℕ, ◌*◌, ◌<◌, ◌↔◌, length, take, drop, nat_lt, slice_index, EachIndex, IsTrue, IfOk, IfErr, Ok, IfSome, IfNone};
ghost use Rattle.std.specs.Int.{w16, w32, to_be_bytes};
ghost use Rattle.std.specs.List.{flat_map};
ghost use Rattle.kabi_types.specs.declared.inodes.Inode.{Inode};
ghost use Rattle.posix_defs.specs.DiskFormat.{direct_pointers, block_size, IsPointer, Fits, IsOfKind, HasPointers, IsInode, inode_bytes};
ghost use Rattle.disk_layout.specs.Faults.{IsFault};

use crate::faults::BadInode;
use crate::words::{all_zero, put, put_words, word_at};
use kabi_types::Inode;

/// The bytes of a block.
const BLOCK_SIZE: u32 = 1024;

/// How many blocks an inode names itself.
const DIRECT_POINTERS: u32 = 10;

/// How many blocks a block of pointers names.
const BLOCK_POINTERS: u32 = 256;

/// How many blocks of bytes a node can name without a double block.
const NEAR_BLOCKS: u32 = DIRECT_POINTERS + BLOCK_POINTERS;

/// The greatest size of a node: as many blocks of bytes as it can name.
pub const GREATEST_SIZE: u32 = BLOCK_SIZE * (NEAR_BLOCKS + BLOCK_POINTERS * BLOCK_POINTERS);

/// The big-endian numbers of an inode's direct pointers.
fn pointers_of(bytes: &[u8]) -> [u32; 10]
    requires { length bytes.now ≡ 4 * direct_pointers }
    ensures { flat_map (to_be_bytes w32) result ≡ bytes.now }
{
    let mut pointers = [0; 10];
    for k in 0..pointers.len() {
        pointers[k] = word_at(bytes, 4 * k);
    }
    pointers
}

/// The fields as they stand in the bytes, whatever they are.
fn fields_of(bytes: &[u8; 64]) -> Inode
    ensures fits { Fits result }
    ensures kind { result.kind ≡ slice_index bytes.now 0 }
    ensures nlink { to_be_bytes w16 result.nlink ≡ take 2 (drop 2 bytes.now) }
    ensures size { to_be_bytes w32 result.size ≡ take 4 (drop 4 bytes.now) }
    ensures direct { flat_map (to_be_bytes w32) result.direct ≡ take 40 (drop 8 bytes.now) }
    ensures indirect { to_be_bytes w32 result.indirect ≡ take 4 (drop 48 bytes.now) }
    ensures double { to_be_bytes w32 result.double ≡ take 4 (drop 52 bytes.now) }
{
    Inode {
        kind: bytes[0],
        nlink: u16::from_be_bytes([bytes[2], bytes[3]]),
        size: word_at(bytes, 4),
        direct: pointers_of(&bytes[8..48]),
        indirect: word_at(bytes, 48),
        double: word_at(bytes, 52),
    }
}

/// The inode that is spelled so, whatever its fields say; None where a byte that is kept zero isn't 0.
fn spelled_in(bytes: &[u8; 64]) -> Option<Inode>
    ensures spelled { IfSome result (λ inode. Fits inode × (bytes.now ≡ inode_bytes inode)) }
    ensures none { IfNone result ((inode : Inode) → Fits inode → ¬ (bytes.now ≡ inode_bytes inode)) }
{
    if bytes[1] != 0 || !all_zero(&bytes[56..]) {
        return None;
    }
    Some(fields_of(bytes))
}

fn is_of_kind(inode: &Inode) -> bool
    ensures { IsTrue result ↔ IsOfKind inode.now }
{
    if inode.nlink > 127 || inode.size > GREATEST_SIZE {
        return false;
    }
    match inode.kind {
        0 => inode.nlink == 0 && inode.size == 0,
        1 => true,
        2 => inode.size % 32 == 0,
        3 | 4 => inode.size == 0,
        _ => false,
    }
}

fn is_pointer(pointer: u32, needed: bool, blocks: u32) -> bool
    ensures { IsTrue result ↔ IsPointer blocks needed pointer }
{
    if needed {
        pointer > blocks / 16 && pointer < blocks
    } else {
        pointer == 0
    }
}

fn are_direct_pointers(inode: &Inode, blocks: u32) -> bool
    ensures { IsTrue result ↔ ((k : ℕ) → k < direct_pointers → IsPointer blocks (nat_lt (k * block_size) inode.now.size) (slice_index inode.now.direct k)) }
{
    for (k, pointer) in inode.direct.iter().enumerate() {
        if !is_pointer(*pointer, (k as u32) * BLOCK_SIZE < inode.size, blocks) {
            return false;
        }
    }
    true
}

fn has_pointers(inode: &Inode, blocks: u32) -> bool
    ensures { IsTrue result ↔ HasPointers blocks inode.now }
{
    let has_indirect = DIRECT_POINTERS * BLOCK_SIZE < inode.size;
    let has_double = NEAR_BLOCKS * BLOCK_SIZE < inode.size;
    are_direct_pointers(inode, blocks)
        && is_pointer(inode.indirect, has_indirect, blocks)
        && is_pointer(inode.double, has_double, blocks)
}

/// The inode that the bytes spell on a disk of so many blocks.
pub fn inode_of(bytes: &[u8; 64], blocks: u32) -> Result<Inode, BadInode>
    ensures found { IfOk result (λ inode. IsInode blocks inode × (bytes.now ≡ inode_bytes inode)) }
    ensures only { (inode : Inode) → IsInode blocks inode → bytes.now ≡ inode_bytes inode → result ≡ Ok inode }
    ensures fault { IfErr result (λ fault. IsFault blocks bytes.now fault) }
{
    let Some(inode) = spelled_in(bytes) else {
        return Err(BadInode::BadKind);
    };
    if !is_of_kind(&inode) {
        return Err(BadInode::BadKind);
    }
    if !has_pointers(&inode, blocks) {
        return Err(BadInode::BadPointer);
    }
    Ok(inode)
}

/// The 64 bytes of an inode.
pub fn bytes_of(inode: &Inode) -> [u8; 64]
    ensures { result ≡ inode_bytes inode.now }
{
    let mut bytes = [0; 64];
    bytes[0] = inode.kind;
    put(&mut bytes, 2, &inode.nlink.to_be_bytes());
    put(&mut bytes, 4, &inode.size.to_be_bytes());
    put_words(&mut bytes, 8, &inode.direct);
    put(&mut bytes, 48, &inode.indirect.to_be_bytes());
    put(&mut bytes, 52, &inode.double.to_be_bytes());
    bytes
}
