ghost use Rattle.std.specs.Prelude.{◌≡◌, ◌≤◌, Some, true, refl};
ghost use Rattle.std.proofs.Common.{◌∙◌};
ghost use Rattle.posix_defs.specs.DiskContents.{blank_inode};
ghost use Rattle.posix_defs.specs.DiskFormat.{greatest_size};
ghost use Rattle.posix_defs.specs.Tree.{IsInodeOf, found_among, is_directory, is_in_use, node_at, entries_at, parent_at, size_of, kind_of};
ghost use Rattle.posix_defs.specs.IsTree.{IsTree};
ghost use Rattle.posix_defs.specs.NodeLists.{content_listed, node_listed, tree_listed};

use crate::Dirs;
use kabi_types::{DirEntry, Inode};

/// A free inode, without links, bytes and pointers.
pub fn blank_inode() -> Inode
    ensures { result ≡ blank_inode }
{
    Inode {
        kind: 0,
        nlink: 0,
        size: 0,
        direct: [0; 10],
        indirect: 0,
        double: 0,
    }
}

/// What a node in memory holds.
#[derive(Drop)]
pub enum Listed {
    /// A file's bytes.
    File(Vec<u8>),
    /// A directory's parent, and its entries behind `.` and `..`.
    Directory { parent: u32, entries: Vec<DirEntry> },
    /// The name of a socket.
    SocketName,
    /// Nothing: a FIFO, whose bytes stand in its pipe.
    Fifo,
}

/// A node in memory.
#[derive(Drop)]
pub struct ListedNode {
    pub links: u16,
    pub content: Listed,
}

/// A tree in memory, for whatever wants a tree of its own.
#[derive(Drop)]
pub struct NodeList {
    /// How many blocks a disk of this tree has.
    pub blocks: u32,
    /// Each node that such a disk has an inode for, that of number 1 first.
    pub nodes: Vec<Option<ListedNode>>,
}

impl NodeList {
    /// A node in use.
    fn at(&self, number: u32) -> &ListedNode
        requires { is_in_use (tree_listed self.now) number ≡ true }
        ensures { node_at (tree_listed self.now) number ≡ Some (node_listed result.now) }
    {
        match &self.nodes[number as usize - 1] {
            Some(node) => node,
            None => unreachable!(),
        }
    }

    /// A directory's parent and its entries.
    fn directory(&self, dir: u32) -> (u32, &[DirEntry])
        requires { is_directory (tree_listed self.now) dir ≡ true }
        ensures parent { result.0 ≡ parent_at (tree_listed self.now) dir }
        ensures entries { result.1.now ≡ entries_at (tree_listed self.now) dir }
    {
        match &self.at(dir).content {
            Listed::Directory { parent, entries } => (*parent, entries.as_slice()),
            _ => unreachable!(),
        }
    }
}

/// The kind of a node in the table.
fn kind(content: &Listed) -> u8
    ensures { result ≡ kind_of (content_listed content.now) }
{
    match content {
        Listed::File(_) => 1,
        Listed::Directory { .. } => 2,
        Listed::SocketName => 3,
        Listed::Fifo => 4,
    }
}

/// A node's size in bytes.
fn size(content: &Listed) -> u32
    requires { size_of (content_listed content.now) ≤ greatest_size }
    ensures { result ≡ size_of (content_listed content.now) }
{
    match content {
        Listed::File(bytes) => bytes.len() as u32,
        Listed::Directory { entries, .. } => 32 * (entries.len() as u32 + 2),
        Listed::SocketName | Listed::Fifo => 0,
    }
}

/// The node under a name.
fn node_named(entries: &[DirEntry], name: &[u8]) -> Option<u32>
    ensures { result ≡ found_among entries.now name.now }
{
    entries
        .iter()
        .find(|entry| entry.name.items() == name)
        .map(|entry| entry.node)
}

impl Dirs for NodeList {
    ghost stands = { λ list tree. (tree ≡ tree_listed list) × IsTree tree };

    // To read it changes nothing.
    ghost follows = { λ before after. after ≡ before };

    ghost asked = { λ before _ after. after ≡ before };

    ghost stands_tree = { λ _ _ stands. stands.1 };

    ghost follows_refl = { λ _. refl };

    ghost follows_trans = { λ _ _ _ on further. further ∙ on };

    fn node(&mut self, number: u32) -> Inode {
        let node = self.at(number);
        Inode {
            kind: kind(&node.content),
            nlink: node.links,
            size: size(&node.content),
            ..blank_inode()
        }
    }

    fn look(&mut self, dir: u32, name: &[u8]) -> Option<u32> {
        node_named(self.directory(dir).1, name)
    }

    fn parent(&mut self, dir: u32) -> u32 {
        self.directory(dir).0
    }
}
