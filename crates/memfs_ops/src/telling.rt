//! Calls that look at the tree and change nothing of it.
ghost use Rattle.std.specs.Prelude.{◌≡◌, ◌==◌, ◌||◌, ℕ, true, not, Bool, List, None, Some, IsSome, if◌then◌else◌};
ghost use Rattle.std.specs.List.{AllByRecursion};
ghost use Rattle.kabi_types.specs.Arguments.{path_fault};
ghost use Rattle.lru_index.specs.NameKeys.{name_key};
ghost use Rattle.posix_defs.specs.PathCalls as calls;
ghost use Rattle.posix_defs.specs.Paths.{resolve};
ghost use Rattle.posix_defs.specs.Queries.{queries_of};
ghost use Rattle.posix_defs.specs.SoundDisk.{HasNode};
ghost use Rattle.posix_defs.specs.Tree.{Tree, IsInodeAt, found, is_directory as directory_in, is_in_use};
ghost use Rattle.posix_defs.specs.declared.walked.Walked.TheVariants as walked;
ghost use Rattle.name_cache.specs.Names.{name_slot};
ghost use Rattle.vnode_cache.specs.Nodes.{node_slot};
ghost use Rattle.cached_disk.specs.TreeLent.{AreReordered, IsKnown};
ghost use Rattle.memfs_ops.specs.FileTree.{Stands, MayWalk, Looks, KnowsWay, KeepsLed, in_call};
ghost use Rattle.memfs_ops.specs.Starting.{file_kind};

use crate::FileTree;
use cached_disk::{find_inode, find_name, walk_through};
use kabi_types::{Errno, Inode, NodeKind, StatInfo};
use kheap_slabs::{KHeap, Purse};
use path_walk::Walked;

const FILE: u8 = 1;

const DIRECTORY: u8 = 2;

const SOCKET_NAME: u8 = 3;

const FIFO: u8 = 4;

impl FileTree {
    /// Where a path leads from a working directory.
    ///
    /// Where all that is asked for on the way is cached nothing is read. The name that it led to is cached afterwards.
    pub(crate) fn walk(
        &mut self,
        heap: &mut KHeap,
        purse: &mut Purse,
        cwd: u32,
        path: &[u8],
    ) -> Walked
        requires stands { (tree : Tree) × (pins : ℕ → ℕ) × Stands heap.old self.old tree pins
            × (directory_in tree cwd ≡ true) }
        requires path { path_fault path.now ≡ None }
        requires may { MayWalk heap.old purse.old }
        ensures resolved { (tree : Tree) (pins : ℕ → ℕ) → Stands heap.old self.old tree pins
            → result ≡ resolve tree cwd path.now }
        ensures looks { Looks heap.old heap.new purse.old purse.new self.old self.new }
        ensures saved { (tree : Tree) (pins : ℕ → ℕ) → Stands heap.old self.old tree pins
            → AllByRecursion (IsKnown (in_call heap.old purse.old self.old)) (queries_of tree cwd path.now)
            → AreReordered (in_call heap.old purse.old self.old) (in_call heap.new purse.new self.new) }
        ensures kept { (tree : Tree) (pins : ℕ → ℕ) (parent : ℕ) (name : List ℕ) (node : ℕ) (slashed : Bool)
            → Stands heap.old self.old tree pins
            → resolve tree cwd path.now ≡ walked.Named parent name node slashed
            → IsSome (name_slot self.new.names (name_key parent name)) }
    {
        walk_through(
            heap,
            purse,
            &mut self.names,
            &mut self.vnodes,
            &mut self.blocks,
            &mut self.disk,
            cwd,
            path,
        )
    }

    /// The inode of a node in use, which is cached afterwards.
    pub(crate) fn inode(&mut self, heap: &mut KHeap, purse: &mut Purse, number: u32) -> Inode
        requires stands { (tree : Tree) × (pins : ℕ → ℕ) × Stands heap.old self.old tree pins
            × (is_in_use tree number ≡ true) }
        requires may { MayWalk heap.old purse.old }
        ensures value { (tree : Tree) (pins : ℕ → ℕ) → Stands heap.old self.old tree pins
            → IsInodeAt tree number result }
        ensures has { HasNode self.old.disk.blocks number result }
        ensures looks { Looks heap.old heap.new purse.old purse.new self.old self.new }
        ensures saved { IsSome (node_slot self.old.vnodes number)
            → AreReordered (in_call heap.old purse.old self.old) (in_call heap.new purse.new self.new) }
        ensures kept { IsSome (node_slot self.new.vnodes number) }
        ensures names { self.new.names ≡ self.old.names }
    {
        find_inode(
            heap,
            purse,
            &mut self.vnodes,
            &mut self.blocks,
            &mut self.disk,
            number,
        )
    }

    /// The node under a name of a directory, which is cached afterwards where it is there.
    pub(crate) fn look(
        &mut self,
        heap: &mut KHeap,
        purse: &mut Purse,
        dir: u32,
        name: &[u8],
    ) -> Option<u32>
        requires stands { (tree : Tree) × (pins : ℕ → ℕ) × Stands heap.old self.old tree pins
            × (directory_in tree dir ≡ true) }
        requires may { MayWalk heap.old purse.old }
        ensures value { (tree : Tree) (pins : ℕ → ℕ) → Stands heap.old self.old tree pins
            → result ≡ found tree dir name.now }
        ensures looks { Looks heap.old heap.new purse.old purse.new self.old self.new }
        ensures kept { (tree : Tree) (pins : ℕ → ℕ) (node : ℕ) → Stands heap.old self.old tree pins
            → found tree dir name.now ≡ Some node
            → IsSome (name_slot self.new.names (name_key dir name.now)) }
    {
        find_name(
            heap,
            purse,
            &mut self.names,
            &mut self.vnodes,
            &mut self.blocks,
            &mut self.disk,
            dir,
            name,
        )
    }

    /// What `stat` tells of the node that a path leads to: ENOENT and ENOTDIR as the walk has them.
    ///
    /// Where all that is asked for is cached nothing is read. What was found is cached afterwards, by its name and its inode.
    /// See [stat](https://pubs.opengroup.org/onlinepubs/9699919799/functions/stat.html).
    pub fn stat_path(
        &mut self,
        heap: &mut KHeap,
        purse: &mut Purse,
        cwd: u32,
        path: &[u8],
    ) -> Result<StatInfo, Errno>
        requires stands { (tree : Tree) × (pins : ℕ → ℕ) × Stands heap.old self.old tree pins
            × (directory_in tree cwd ≡ true) }
        requires path { path_fault path.now ≡ None }
        requires may { MayWalk heap.old purse.old }
        ensures value { (tree : Tree) (pins : ℕ → ℕ) → Stands heap.old self.old tree pins
            → result ≡ calls.stat_path tree cwd path.now }
        ensures looks { Looks heap.old heap.new purse.old purse.new self.old self.new }
        ensures saved { (tree : Tree) (pins : ℕ → ℕ) → Stands heap.old self.old tree pins
            → KnowsWay (in_call heap.old purse.old self.old) tree cwd path.now
            → AreReordered (in_call heap.old purse.old self.old) (in_call heap.new purse.new self.new) }
        ensures kept { (tree : Tree) (pins : ℕ → ℕ) → Stands heap.old self.old tree pins
            → KeepsLed self.new (resolve tree cwd path.now) }
    {
        match node_led(self.walk(heap, purse, cwd, path)) {
            Ok(number) => {
                let inode = self.inode(heap, purse, number);
                Ok(told(number, &inode))
            }
            Err(errno) => Err(errno),
        }
    }

    /// The name of a socket that a path leads to; None exactly where the node is something else.
    ///
    /// Where all that is asked for is cached nothing is read. What was found is cached afterwards, by its name and its inode.
    pub fn find_name(
        &mut self,
        heap: &mut KHeap,
        purse: &mut Purse,
        cwd: u32,
        path: &[u8],
    ) -> Result<Option<u32>, Errno>
        requires stands { (tree : Tree) × (pins : ℕ → ℕ) × Stands heap.old self.old tree pins
            × (directory_in tree cwd ≡ true) }
        requires path { path_fault path.now ≡ None }
        requires may { MayWalk heap.old purse.old }
        ensures value { (tree : Tree) (pins : ℕ → ℕ) → Stands heap.old self.old tree pins
            → result ≡ calls.find_socket tree cwd path.now }
        ensures looks { Looks heap.old heap.new purse.old purse.new self.old self.new }
        ensures saved { (tree : Tree) (pins : ℕ → ℕ) → Stands heap.old self.old tree pins
            → KnowsWay (in_call heap.old purse.old self.old) tree cwd path.now
            → AreReordered (in_call heap.old purse.old self.old) (in_call heap.new purse.new self.new) }
        ensures kept { (tree : Tree) (pins : ℕ → ℕ) → Stands heap.old self.old tree pins
            → KeepsLed self.new (resolve tree cwd path.now) }
    {
        match node_led(self.walk(heap, purse, cwd, path)) {
            Ok(number) => {
                let inode = self.inode(heap, purse, number);
                Ok(socket_of(number, &inode))
            }
            Err(errno) => Err(errno),
        }
    }
}

/// The node that a path led to; a free name leads to none.
pub(crate) fn node_led(walked: Walked) -> Result<u32, Errno>
    ensures { result ≡ calls.node_led walked }
{
    match walked {
        Walked::Node(node) | Walked::Named { node, .. } => Ok(node),
        Walked::Free { .. } => Err(Errno::ENOENT),
        Walked::Fail(errno) => Err(errno),
    }
}

/// What `stat` tells of a node by its inode.
pub(crate) fn told(number: u32, inode: &Inode) -> StatInfo
    ensures { (tree : Tree) → IsInodeAt tree number inode.now → result ≡ calls.stat_info tree number }
{
    let kind = match inode.kind {
        2 => NodeKind::Dir,
        3 => NodeKind::Sock,
        4 => NodeKind::Fifo,
        _ => NodeKind::File,
    };
    StatInfo {
        kind,
        number,
        nlink: u32::from(inode.nlink),
        size: inode.size,
    }
}

/// Whether a node is a file, by its inode.
pub(crate) fn is_file(inode: &Inode) -> bool
    ensures value { (tree : Tree) (number : ℕ) → IsInodeAt tree number inode.now
        → result ≡ not (directory_in tree number || calls.is_socket tree number || calls.is_fifo tree number) }
    ensures kind { result ≡ (inode.now.kind == file_kind) }
{
    inode.kind == FILE
}

/// Whether a node stays without links while it is open, by its inode: a file and a FIFO do.
pub(crate) fn is_kept_open(inode: &Inode) -> bool
    ensures { (tree : Tree) (number : ℕ) → IsInodeAt tree number inode.now
        → result ≡ not (directory_in tree number || calls.is_socket tree number) }
{
    matches!(inode.kind, FILE | FIFO)
}

/// Whether a node is a directory, by its inode.
pub(crate) fn is_directory(inode: &Inode) -> bool
    ensures { (tree : Tree) (number : ℕ) → IsInodeAt tree number inode.now
        → result ≡ directory_in tree number }
{
    inode.kind == DIRECTORY
}

/// Whether a node is the name of a socket, by its inode.
pub(crate) fn is_socket(inode: &Inode) -> bool
    ensures { (tree : Tree) (number : ℕ) → IsInodeAt tree number inode.now
        → result ≡ calls.is_socket tree number }
{
    inode.kind == SOCKET_NAME
}

/// The number of a node that is the name of a socket.
fn socket_of(number: u32, inode: &Inode) -> Option<u32>
    ensures { (tree : Tree) → IsInodeAt tree number inode.now
        → result ≡ (if calls.is_socket tree number then Some number else None) }
{
    if is_socket(inode) { Some(number) } else { None }
}
