//! Names that go: those of files, FIFOs and sockets, and of directories without entries.
ghost use Rattle.std.specs.Prelude.{◌≡◌, ◌≢◌, ℕ, ◌&&◌, ◌==◌, Bool, Option, List, true, false, not, None, Some, Ok, Err, Result, IsSome};
ghost use Rattle.std.specs.List.{last_or};
ghost use Rattle.std.specs.Option.{option_map};
ghost use Rattle.kabi_types.specs.Arguments.{path_fault};
ghost use Rattle.kabi_types.specs.PathParts.{components};
ghost use Rattle.kabi_types.specs.declared.errnos.Errno.TheVariants.{EBUSY, ENOTDIR, ENOTEMPTY, EPERM};
ghost use Rattle.posix_defs.specs.PathCalls as calls;
ghost use Rattle.posix_defs.specs.Tree.{Tree, IsInodeAt, root, found, is_directory as directory_in};
ghost use Rattle.posix_defs.specs.TreeChanges.{unlink};
ghost use Rattle.vnode_cache.specs.Nodes.{node_slot};
ghost use Rattle.memfs_ops.specs.FileTree.{Stands, MayWalk, Pays};
ghost use Rattle.memfs_ops.specs.Changing.{ChangedTo};
ghost use Rattle.memfs_ops.specs.Removing.{ToldTo, is_held, TellsHeld, TellsOpened, HoldsNoSocket, MayUnlink};

use crate::FileTree;
use crate::entries::EntryEdit;
use crate::telling::{is_directory, is_kept_open, is_socket};
use kabi_types::{Errno, Inode, Name27};
use kheap_slabs::{KHeap, Purse};
use path_walk::Walked;

/// The size of a directory that has `.` and `..` alone.
const NO_ENTRIES: u32 = 64;

impl FileTree {
    /// Takes a directory without entries away. EINVAL where the path ends in `.`, ENOTEMPTY where it ends in `..` or the
    /// directory has entries, ENOTDIR where it is none, EBUSY where it is the root or is in use, else the faults of the walk.
    ///
    /// `busy` says of each node but the root whether it is held. See
    /// [rmdir](https://pubs.opengroup.org/onlinepubs/9699919799/functions/rmdir.html).
    pub fn remove_dir<U: Fn(u32) -> bool>(
        &mut self,
        heap: &mut KHeap,
        purse: &mut Purse,
        cwd: u32,
        path: &[u8],
        busy: &U,
    ) -> Result<(), Errno>
        requires stands { (tree : Tree) × (pins : ℕ → ℕ) × Stands heap.old self.old tree pins
            × (directory_in tree cwd ≡ true)
            × ((number : ℕ) (answer : Bool) → U.post busy.now number answer → number ≢ root → answer ≡ is_held pins number) }
        requires path { path_fault path.now ≡ None }
        requires callable { U.IsAlwaysCallable busy.now }
        requires may { MayWalk heap.old purse.old }
        ensures answer { (tree : Tree) (pins : ℕ → ℕ) (held : ℕ → Bool) → Stands heap.old self.old tree pins
            → TellsHeld pins held
            → ChangedTo heap.new self.new tree (calls.rmdir_path tree cwd path.now held) pins result }
        ensures pays { Pays heap.old heap.new purse.old purse.new self.old self.new }
    {
        if ends_in(path, b".") {
            return Err(Errno::EINVAL);
        }
        if ends_in(path, b"..") {
            return Err(Errno::ENOTEMPTY);
        }
        match self.walk(heap, purse, cwd, path) {
            Walked::Named {
                parent,
                name,
                node,
                ..
            } => self.remove_empty(heap, purse, parent, &name, node, busy),
            Walked::Node(_) => Err(Errno::EBUSY),
            Walked::Free { .. } => Err(Errno::ENOENT),
            Walked::Fail(errno) => Err(errno),
        }
    }

    // The same of a name that is there.
    fn remove_empty<U: Fn(u32) -> bool>(
        &mut self,
        heap: &mut KHeap,
        purse: &mut Purse,
        parent: u32,
        name: &Name27,
        node: u32,
        busy: &U,
    ) -> Result<(), Errno>
        requires stands { (tree : Tree) × (pins : ℕ → ℕ) × Stands heap.old self.old tree pins
            × (found tree parent name.now ≡ Some node)
            × ((number : ℕ) (answer : Bool) → U.post busy.now number answer → number ≢ root → answer ≡ is_held pins number) }
        requires callable { U.IsAlwaysCallable busy.now }
        requires may { MayWalk heap.old purse.old }
        ensures answer { (tree : Tree) (pins : ℕ → ℕ) → Stands heap.old self.old tree pins
            → ChangedTo heap.new self.new tree
            (calls.unless (not (directory_in tree node)) ENOTDIR
            (calls.unless (not (calls.is_empty tree node)) ENOTEMPTY
            (calls.unless (is_held pins node) EBUSY
            (Ok (unlink tree parent name.now node false))))) pins result }
        ensures pays { Pays heap.old heap.new purse.old purse.new self.old self.new }
    {
        let inode = self.inode(heap, purse, node);
        if !is_directory(&inode) {
            return Err(Errno::ENOTDIR);
        }
        if inode.size != NO_ENTRIES {
            return Err(Errno::ENOTEMPTY);
        }
        if busy(node) {
            return Err(Errno::EBUSY);
        }
        self.take_name(heap, purse, parent, name, node, false);
        Ok(())
    }

    /// Takes a name away, and with the last one its node, but for a file or a FIFO that someone holds. Answers the number of a socket's
    /// name that went. EPERM where it is a directory, ENOENT where the name is free, else the faults of the walk.
    ///
    /// See [unlink](https://pubs.opengroup.org/onlinepubs/9699919799/functions/unlink.html).
    pub fn remove_name(
        &mut self,
        heap: &mut KHeap,
        purse: &mut Purse,
        cwd: u32,
        path: &[u8],
    ) -> Result<Option<u32>, Errno>
        requires stands { (tree : Tree) × (pins : ℕ → ℕ) × Stands heap.old self.old tree pins
            × (directory_in tree cwd ≡ true) × HoldsNoSocket tree pins }
        requires path { path_fault path.now ≡ None }
        requires may { MayWalk heap.old purse.old }
        ensures answer { (tree : Tree) (pins : ℕ → ℕ) (opened : ℕ → Bool) → Stands heap.old self.old tree pins
            → TellsOpened tree pins opened
            → ToldTo heap.new self.new tree (calls.unlink_path tree cwd path.now opened) pins result }
        ensures pays { Pays heap.old heap.new purse.old purse.new self.old self.new }
    {
        match self.walk(heap, purse, cwd, path) {
            Walked::Named {
                parent,
                name,
                node,
                ..
            } => self.remove_named(heap, purse, parent, &name, node),
            Walked::Node(_) => Err(Errno::EPERM),
            Walked::Free { .. } => Err(Errno::ENOENT),
            Walked::Fail(errno) => Err(errno),
        }
    }

    // The same of a name that is there.
    fn remove_named(
        &mut self,
        heap: &mut KHeap,
        purse: &mut Purse,
        parent: u32,
        name: &Name27,
        node: u32,
    ) -> Result<Option<u32>, Errno>
        requires stands { (tree : Tree) × (pins : ℕ → ℕ) × Stands heap.old self.old tree pins
            × (found tree parent name.now ≡ Some node) × HoldsNoSocket tree pins }
        requires may { MayWalk heap.old purse.old }
        ensures answer { (tree : Tree) (pins : ℕ → ℕ) → Stands heap.old self.old tree pins
            → ToldTo heap.new self.new tree
            (calls.unless (directory_in tree node) EPERM
            (Ok (calls.freed_by tree node, unlink tree parent name.now node (calls.is_held tree (is_held pins) node)))) pins result }
        ensures pays { Pays heap.old heap.new purse.old purse.new self.old self.new }
    {
        let inode = self.inode(heap, purse, node);
        if is_directory(&inode) {
            return Err(Errno::EPERM);
        }
        let opened = self.stays_open(heap, node, &inode);
        self.take_name(heap, purse, parent, name, node, opened);
        Ok(socket_freed(node, &inode))
    }

    /// Whether a node that is cached stays without a name: a file and a FIFO do as long as someone holds them.
    pub(crate) fn stays_open(&self, heap: &KHeap, node: u32, inode: &Inode) -> bool
        requires stands { (tree : Tree) × (pins : ℕ → ℕ) × Stands heap.now self.now tree pins
            × IsInodeAt tree node inode.now }
        requires there { IsSome (node_slot self.now.vnodes node) }
        ensures { (tree : Tree) (pins : ℕ → ℕ) → Stands heap.now self.now tree pins
            → result ≡ calls.is_held tree (is_held pins) node }
    {
        self.vnodes.pins(heap, node) != 0 && is_kept_open(inode)
    }

    /// A name goes that leads to a node, which loses a link.
    pub(crate) fn take_name(
        &mut self,
        heap: &mut KHeap,
        purse: &mut Purse,
        parent: u32,
        name: &Name27,
        node: u32,
        opened: bool,
    )
        requires stands { (tree : Tree) × (pins : ℕ → ℕ) × Stands heap.old self.old tree pins
            × MayUnlink tree pins parent name.now node opened }
        requires may { MayWalk heap.old purse.old }
        ensures stands { (tree : Tree) (pins : ℕ → ℕ) → Stands heap.old self.old tree pins
            → Stands heap.new self.new (unlink tree parent name.now node opened) pins }
        ensures pays { Pays heap.old heap.new purse.old purse.new self.old self.new }
    {
        self.forget_name(heap, purse, parent, name);
        let mut dir = self.inode(heap, purse, parent);
        let mut inode = self.inode(heap, purse, node);
        let edit = EntryEdit::Take { name: name.copy() };
        self.edit_dir(heap, purse, parent, &mut dir, &edit);
        self.unlink_node(heap, purse, node, &mut inode, opened);
    }
}

/// The number of a socket's name that goes with the link that it loses.
pub(crate) fn socket_freed(number: u32, inode: &Inode) -> Option<u32>
    ensures { (tree : Tree) → IsInodeAt tree number inode.now → result ≡ calls.freed_by tree number }
{
    if is_socket(inode) && inode.nlink == 1 {
        Some(number)
    } else {
        None
    }
}

/// Whether the last component of a path is this one.
fn ends_in(path: &[u8], name: &[u8]) -> bool
    ensures { result ≡ calls.ends_in name.now path.now }
{
    match last_component(path) {
        Some(last) => last == name,
        None => false,
    }
}

fn last_component(path: &[u8]) -> Option<&[u8]>
    ensures { option_map (λ part. part.now) result ≡ last_or None (components path.now) }
{
    path.split(|byte| *byte == b'/')
        .filter(|part| !part.is_empty())
        .last()
}
