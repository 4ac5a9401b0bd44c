ghost use Rattle.std.specs.Prelude.{◌≡◌, ◌≤◌, ◌<◌, length};
ghost use Rattle.posix_defs.specs.DiskFormat.{blocks_of};
ghost use Rattle.posix_defs.specs.SoundDisk.{HasNode, IsFreeNode, Sound, free_in_map};
ghost use Rattle.posix_defs.specs.DiskContents.{entry_for};
ghost use Rattle.posix_defs.specs.Tree.{directory, kind_of, size_of};
ghost use Rattle.blk_map.specs.Named.{TakesLowest};
ghost use Rattle.memfs_node.specs.NodeOnDisk.{HasParent, Makes, content_of};
ghost use Rattle.memfs_node.specs.Dots.{HasDots, PutsDots};

use crate::inodes::inode_at;
use crate::retagging::retag;
use blk_map::grow;
use kabi_types::{DirEntry, Inode, Name27};
use memfs_dir::put_entry;
use posix_defs::Blocks;

/// What a new node is to hold.
#[derive(Clone, Copy)]
pub enum NewNode {
    /// A file without bytes.
    File,
    /// A directory of this parent, without entries but `.` and `..`.
    Directory { parent: u32 },
    /// The name of a socket.
    SocketName,
    /// Nothing: a FIFO.
    Fifo,
}

impl NewNode {
    /// The kind of it in the table.
    pub fn kind(self) -> u8
        ensures { result ≡ kind_of (content_of self) }
    {
        match self {
            NewNode::File => 1,
            NewNode::Directory { .. } => 2,
            NewNode::SocketName => 3,
            NewNode::Fifo => 4,
        }
    }

    /// How many blocks it takes.
    pub fn blocks(self) -> u32
        ensures { result ≡ blocks_of (size_of (content_of self)) }
    {
        match self {
            NewNode::Directory { .. } => 1,
            _ => 0,
        }
    }
}

/// Makes a free node a new one of one link, and answers its inode. The block that a directory takes is the lowest of those
/// that are free.
pub fn make_node<B: Blocks>(b: &mut B, number: u32, new: NewNode) -> Inode
    requires sound { Sound (B.blocks b.old) }
    requires free { IsFreeNode (B.blocks b.old) number }
    requires parent { HasParent new }
    requires room { blocks_of (size_of (content_of new)) ≤ free_in_map (B.blocks b.old) }
    ensures makes { Makes number (B.blocks b.old) (content_of new) (B.blocks b.new) result }
    ensures lowest { TakesLowest (B.blocks b.old) (B.blocks b.new) }
    ensures follows { B.follows b.old b.new }
{
    let mut inode = inode_at(b, number);
    retag(b, number, &mut inode, new.kind(), 1);
    let NewNode::Directory { parent } = new else {
        return inode;
    };
    put_dots(b, number, &mut inode, parent);
    inode
}

fn entry_called(node: u32, name: &[u8]) -> DirEntry
    requires { length name.now ≤ 27 }
    ensures { result ≡ entry_for node name.now }
{
    let name = Name27::of(name).unwrap();
    DirEntry { node, name }
}

/// The block of a directory that has `.` and `..` alone.
fn dots(number: u32, parent: u32) -> [u8; 1024]
    requires { (0 < number) × (0 < parent) }
    ensures { HasDots result number parent }
{
    let mut block = [0; 1024];
    put_entry(&mut block, 0, &entry_called(number, b"."));
    put_entry(&mut block, 1, &entry_called(parent, b".."));
    block
}

/// Gives a directory without any entry its first two, `.` and `..`.
fn put_dots<B: Blocks>(b: &mut B, number: u32, inode: &mut Inode, parent: u32)
    requires sound { Sound (B.blocks b.old) }
    requires node { HasNode (B.blocks b.old) number inode.old }
    requires kind { inode.old.kind ≡ directory }
    requires empty { inode.old.size ≡ 0 }
    requires parent { 0 < parent }
    requires room { 1 ≤ free_in_map (B.blocks b.old) }
    ensures puts { PutsDots number (B.blocks b.old) inode.old parent (B.blocks b.new) inode.new }
    ensures lowest { TakesLowest (B.blocks b.old) (B.blocks b.new) }
    ensures follows { B.follows b.old b.new }
{
    grow(b, number, inode, 64).unwrap();
    b.set(inode.direct[0], &dots(number, parent));
}
