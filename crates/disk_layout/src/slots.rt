//! A block of the table: 16 slots, each with the inode of one node.

ghost use Rattle.std.specs.Prelude.{◌≡◌, ◌≢◌, ℕ, ◌<◌, IfOk, IfErr, Ok, IfSome, IfNone};
ghost use Rattle.kabi_types.specs.declared.inodes.Inode.{Inode};
ghost use Rattle.posix_defs.specs.DiskFormat.{inodes_in_block, IsInode, inode_bytes};
ghost use Rattle.posix_defs.specs.SoundDisk.{slot_bytes};
ghost use Rattle.disk_layout.specs.Faults.{IsFault};
ghost use Rattle.disk_layout.specs.Vacant.{kind_in};

use crate::faults::BadInode;
use crate::inodes::{bytes_of, inode_of};
use crate::words::put;
use kabi_types::Inode;

/// How many inodes a block of the table has.
const INODES_IN_BLOCK: u32 = 16;

/// The first slot of a block of the table that has the inode of a free node: its first byte, the kind, is 0.
pub fn free_slot(block: &[u8; 1024]) -> Option<u32>
    ensures found { IfSome result (λ slot. (slot < inodes_in_block) × (kind_in block.now slot ≡ 0) × ((before : ℕ) → before < slot → kind_in block.now before ≢ 0)) }
    ensures none { IfNone result ((slot : ℕ) → slot < inodes_in_block → kind_in block.now slot ≢ 0) }
{
    for slot in 0..INODES_IN_BLOCK {
        if block[64 * slot as usize] == 0 {
            return Some(slot);
        }
    }
    None
}

fn slot_in(block: &[u8; 1024], slot: u32) -> [u8; 64]
    requires { slot < inodes_in_block }
    ensures { result ≡ slot_bytes block.now slot }
{
    let start = 64 * slot as usize;
    let mut bytes = [0; 64];
    bytes.copy_from_slice(&block[start..start + 64]);
    bytes
}

/// The inode in a slot of a block of the table, on a disk of so many blocks.
pub fn inode_in(block: &[u8; 1024], slot: u32, blocks: u32) -> Result<Inode, BadInode>
    requires { slot < inodes_in_block }
    ensures found { IfOk result (λ inode. IsInode blocks inode × (slot_bytes block.now slot ≡ inode_bytes inode)) }
    ensures only { (inode : Inode) → IsInode blocks inode → slot_bytes block.now slot ≡ inode_bytes inode → result ≡ Ok inode }
    ensures fault { IfErr result (λ fault. IsFault blocks (slot_bytes block.now slot) fault) }
{
    inode_of(&slot_in(block, slot), blocks)
}

/// Writes an inode into a slot of a block of the table, and leaves all other slots.
pub fn put_inode(block: &mut [u8; 1024], slot: u32, inode: &Inode)
    requires { slot < inodes_in_block }
    ensures this { slot_bytes block.new slot ≡ inode_bytes inode.now }
    ensures others { (other : ℕ) → other ≢ slot → slot_bytes block.new other ≡ slot_bytes block.old other }
{
    put(block, 64 * slot as usize, &bytes_of(inode));
}
