//! The table of inodes: the inode of a number, and the free node of the lowest one.

ghost use Rattle.std.specs.Prelude.{◌≡◌, ℕ, ◌<◌, ◌≤◌, IfSome, IfNone, length};
ghost use Rattle.posix_defs.specs.DiskFormat.{table_end, table_nodes};
ghost use Rattle.posix_defs.specs.SoundDisk.{HasInode, IsFreeNode, IsLowestFreeNode, Sound, table_block};
ghost use Rattle.disk_layout.specs.Vacant.{NoneFreeIn};

use disk_layout::{free_slot, inode_in};
use kabi_types::Inode;
use posix_defs::Blocks;

/// How many inodes a block of the table has.
const INODES_IN_BLOCK: u32 = 16;

/// The inode of a node of the disk, in use or free.
///
/// It costs a `get` of the node's block of the table.
pub fn inode_at<B: Blocks>(b: &mut B, number: u32) -> Inode
    requires sound { Sound (B.blocks b.old) }
    requires number { (0 < number) × (number ≤ table_nodes (length (B.blocks b.old))) }
    ensures has { HasInode (B.blocks b.old) number result }
    ensures kept { B.blocks b.new ≡ B.blocks b.old }
    ensures asked { B.asked b.old (table_block number) b.new }
    ensures follows { B.follows b.old b.new }
{
    let place = number - 1;
    let blocks = b.count();
    let block = b.get(1 + place / INODES_IN_BLOCK);
    inode_in(&block, place % INODES_IN_BLOCK, blocks).unwrap()
}

/// The free node of the lowest number; None exactly where no node is free.
///
/// It looks at the blocks of the table one after another, up to that of the node, but for the first ones, of which it is
/// known that they have none.
pub fn lowest_node<B: Blocks>(b: &mut B, full: u32) -> Option<u32>
    requires sound { Sound (B.blocks b.old) }
    requires within { full ≤ table_end (length (B.blocks b.old)) }
    requires full { NoneFreeIn (B.blocks b.old) full }
    ensures found { IfSome result (λ number. IsLowestFreeNode (B.blocks b.old) number) }
    ensures none { IfNone result ((number : ℕ) → ¬ (IsFreeNode (B.blocks b.old) number)) }
    ensures kept { B.blocks b.new ≡ B.blocks b.old }
    ensures follows { B.follows b.old b.new }
{
    let blocks = b.count();
    for index in full..blocks / 16 {
        let block = b.get(1 + index);
        if let Some(slot) = free_slot(&block) {
            return Some(INODES_IN_BLOCK * index + slot + 1);
        }
    }
    None
}
