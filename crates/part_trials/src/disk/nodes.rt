//! Nodes on a new disk, and files and directories on one that counts.

ghost use Rattle.posix_defs.specs.SoundDisk.{Sound};

mod counting;
mod directories;
mod files;

use disk_layout::RamDisk;
use memfs_node::{
    NewNode, add_link, drop_link, free_node, has_room, inode_at, lowest_node, make_node,
};
use std::test::Fail;

/// Whether this node is the lowest free one.
fn is_lowest(b: &mut RamDisk, number: u32) -> bool
    requires { Sound b.old.blocks }
{
    let first = b.full_blocks();
    lowest_node(b, first) == Some(number)
}

/// Makes a directory, counts links of it up and down, and frees it. Whether each step left what it should.
fn links_and_frees(b: &mut RamDisk) -> bool
    requires { Sound b.old.blocks }
{
    let first = b.full_blocks();
    let Some(number) = lowest_node(b, first) else {
        return false;
    };
    if !has_room(b, 1) {
        return false;
    }
    let mut node = make_node(b, number, NewNode::Directory { parent: 1 });
    let full = !has_room(b, 13) && has_room(b, 12);
    add_link(b, number, &mut node);
    let twice = node.nlink == 2;
    let stays = !drop_link(b, number, &mut node, false);
    let once = node.nlink == 1 && inode_at(b, number) == node;
    free_node(b, number, &node);
    full && twice && stays && once && has_room(b, 13) && is_lowest(b, number)
}

/// A new disk of 16 blocks has 13 free ones.
#[test]
fn a_directory_is_made_and_freed(rt: HostRuntime) -> Result<(), Fail> {
    let mut disk = RamDisk::boot(rt.alloc(), 16)?;
    assert!(rt; links_and_frees(&mut disk));
    drop(disk);
    Ok(())
}
