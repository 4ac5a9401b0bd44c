//! New nodes: directories, FIFOs, and names of sockets.
ghost use Rattle.std.specs.Prelude.{◌≡◌, ℕ, ◌<◌, ◌^◌, true, None, Ok, Err, MatchResult};
ghost use Rattle.std.specs.List.{All};
ghost use Rattle.kabi_types.specs.Arguments.{path_fault};
ghost use Rattle.kabi_types.specs.declared.errnos.Errno.TheVariants.{ENOENT};
ghost use Rattle.posix_defs.specs.IsTree.{IsEntryName, IsNewContent};
ghost use Rattle.posix_defs.specs.PathCalls as calls;
ghost use Rattle.posix_defs.specs.SoundDisk.{HasNode};
ghost use Rattle.posix_defs.specs.Tree.{Tree, found, is_directory as directory_in};
ghost use Rattle.posix_defs.specs.TreeChanges.{make};
ghost use Rattle.memfs_node.specs.NodeOnDisk.{content_of};
ghost use Rattle.blk_map.specs.Named.{TakesLowest};
ghost use Rattle.cached_disk.specs.Lent.{parts, GoesOn};
ghost use Rattle.memfs_ops.specs.FileTree.{Stands, MayWalk, Pays};
ghost use Rattle.memfs_ops.specs.Fetching.{MayFetch};
ghost use Rattle.memfs_ops.specs.Changing.{LagsAs, LedTo, DoneAs};

use crate::FileTree;
use cached_disk::make_through;
use kabi_types::{Errno, Inode, Name27};
use kheap_slabs::{KHeap, Purse};
use memfs_node::NewNode;
use path_walk::Walked;

impl FileTree {
    /// Makes a directory without entries: EEXIST where something is under its name, ENOSPC where there is no room, else the
    /// faults of the walk. The blocks that it takes are the lowest of those that are free.
    ///
    /// See [mkdir](https://pubs.opengroup.org/onlinepubs/9699919799/functions/mkdir.html).
    pub fn make_dir(
        &mut self,
        heap: &mut KHeap,
        purse: &mut Purse,
        cwd: u32,
        path: &[u8],
    ) -> Result<(), Errno>
        requires stands { (tree : Tree) × (pins : ℕ → ℕ) × Stands heap.old self.old tree pins
            × (directory_in tree cwd ≡ true) }
        requires path { path_fault path.now ≡ None }
        requires bytes { All (λ byte. (0 < byte) × (byte < 2 ^ 8)) path.now }
        requires may { MayWalk heap.old purse.old }
        ensures answer { (tree : Tree) (pins : ℕ → ℕ) → Stands heap.old self.old tree pins
            → DoneAs heap.new self.new tree (calls.mkdir_path tree cwd path.now) pins result }
        ensures pays { Pays heap.old heap.new purse.old purse.new self.old self.new }
        ensures lowest { TakesLowest self.old.disk.blocks self.new.disk.blocks }
    {
        match self.walk(heap, purse, cwd, path) {
            Walked::Free { parent, name, .. } => {
                let new = NewNode::Directory { parent };
                done(self.make_new(heap, purse, parent, name, new))
            }
            Walked::Node(_) => Err(Errno::EEXIST),
            Walked::Named { .. } => Err(Errno::EEXIST),
            Walked::Fail(errno) => Err(errno),
        }
    }

    /// Makes a FIFO: EEXIST where something is under its name, ENOENT where a slash stands behind the name, ENOSPC where there is no
    /// room, else the faults of the walk.
    ///
    /// See [mkfifo](https://pubs.opengroup.org/onlinepubs/9699919799/functions/mkfifo.html).
    pub fn make_fifo(
        &mut self,
        heap: &mut KHeap,
        purse: &mut Purse,
        cwd: u32,
        path: &[u8],
    ) -> Result<(), Errno>
        requires stands { (tree : Tree) × (pins : ℕ → ℕ) × Stands heap.old self.old tree pins
            × (directory_in tree cwd ≡ true) }
        requires path { path_fault path.now ≡ None }
        requires bytes { All (λ byte. (0 < byte) × (byte < 2 ^ 8)) path.now }
        requires may { MayWalk heap.old purse.old }
        ensures answer { (tree : Tree) (pins : ℕ → ℕ) → Stands heap.old self.old tree pins
            → DoneAs heap.new self.new tree (calls.mkfifo_path tree cwd path.now) pins result }
        ensures pays { Pays heap.old heap.new purse.old purse.new self.old self.new }
        ensures lowest { TakesLowest self.old.disk.blocks self.new.disk.blocks }
    {
        match self.walk(heap, purse, cwd, path) {
            Walked::Free {
                parent,
                name,
                slash,
            } => done(self.make_named(heap, purse, parent, name, slash, NewNode::Fifo)),
            Walked::Node(_) => Err(Errno::EEXIST),
            Walked::Named { .. } => Err(Errno::EEXIST),
            Walked::Fail(errno) => Err(errno),
        }
    }

    /// Makes the name of a socket, and answers its node: EADDRINUSE where something is under that name, ENOSPC where there is
    /// no room, ENOENT where a slash stands behind the name, else the faults of the walk. The blocks that it takes are the lowest
    /// of those that are free.
    ///
    /// See [bind](https://pubs.opengroup.org/onlinepubs/9699919799/functions/bind.html).
    pub fn bind_name(
        &mut self,
        heap: &mut KHeap,
        purse: &mut Purse,
        cwd: u32,
        path: &[u8],
    ) -> Result<u32, Errno>
        requires stands { (tree : Tree) × (pins : ℕ → ℕ) × Stands heap.old self.old tree pins
            × (directory_in tree cwd ≡ true) }
        requires path { path_fault path.now ≡ None }
        requires bytes { All (λ byte. (0 < byte) × (byte < 2 ^ 8)) path.now }
        requires may { MayWalk heap.old purse.old }
        ensures answer { (tree : Tree) (pins : ℕ → ℕ) → Stands heap.old self.old tree pins
            → LedTo heap.new self.new tree (calls.bind_path tree cwd path.now) pins result }
        ensures pays { Pays heap.old heap.new purse.old purse.new self.old self.new }
        ensures lowest { TakesLowest self.old.disk.blocks self.new.disk.blocks }
    {
        match self.walk(heap, purse, cwd, path) {
            Walked::Free {
                parent,
                name,
                slash,
            } => self.make_named(heap, purse, parent, name, slash, NewNode::SocketName),
            Walked::Node(_) => Err(Errno::EADDRINUSE),
            Walked::Named { .. } => Err(Errno::EADDRINUSE),
            Walked::Fail(errno) => Err(errno),
        }
    }

    // A new node that is no directory, under a free name: none may have a slash behind it.
    fn make_named(
        &mut self,
        heap: &mut KHeap,
        purse: &mut Purse,
        parent: u32,
        name: Name27,
        slash: bool,
        new: NewNode,
    ) -> Result<u32, Errno>
        requires stands { (tree : Tree) × (pins : ℕ → ℕ) × Stands heap.old self.old tree pins
            × (directory_in tree parent ≡ true) × (found tree parent name ≡ None) }
        requires name { IsEntryName name }
        requires content { IsNewContent parent (content_of new) }
        requires may { MayWalk heap.old purse.old }
        ensures answer { (tree : Tree) (pins : ℕ → ℕ) → Stands heap.old self.old tree pins
            → LedTo heap.new self.new tree (calls.unless slash ENOENT (make tree parent name (content_of new))) pins result }
        ensures pays { Pays heap.old heap.new purse.old purse.new self.old self.new }
        ensures lowest { TakesLowest self.old.disk.blocks self.new.disk.blocks }
    {
        if slash {
            return Err(Errno::ENOENT);
        }
        self.make_new(heap, purse, parent, name, new)
    }

    // A new node under a free name of a directory.
    pub(crate) fn make_new(
        &mut self,
        heap: &mut KHeap,
        purse: &mut Purse,
        parent: u32,
        name: Name27,
        new: NewNode,
    ) -> Result<u32, Errno>
        requires stands { (tree : Tree) × (pins : ℕ → ℕ) × Stands heap.old self.old tree pins
            × (directory_in tree parent ≡ true) × (found tree parent name ≡ None) }
        requires name { IsEntryName name }
        requires content { IsNewContent parent (content_of new) }
        requires may { MayWalk heap.old purse.old }
        ensures answer { (tree : Tree) (pins : ℕ → ℕ) → Stands heap.old self.old tree pins
            → LedTo heap.new self.new tree (make tree parent name (content_of new)) pins result }
        ensures pays { Pays heap.old heap.new purse.old purse.new self.old self.new }
        ensures lowest { TakesLowest self.old.disk.blocks self.new.disk.blocks }
        ensures may { MayWalk heap.new purse.new }
    {
        let mut dir = self.inode(heap, purse, parent);
        let made = self.make_in(heap, purse, parent, &mut dir, name, new);
        self.renew(heap, parent, &dir);
        made
    }

    // The same on the disk: the inode of the directory is written there, and not where it is cached.
    fn make_in(
        &mut self,
        heap: &mut KHeap,
        purse: &mut Purse,
        parent: u32,
        dir: &mut Inode,
        name: Name27,
        new: NewNode,
    ) -> Result<u32, Errno>
        requires stands { (tree : Tree) × (pins : ℕ → ℕ) × Stands heap.old self.old tree pins
            × (directory_in tree parent ≡ true) × (found tree parent name ≡ None) }
        requires node { HasNode self.old.disk.blocks parent dir.old }
        requires name { IsEntryName name }
        requires content { IsNewContent parent (content_of new) }
        requires may { MayFetch heap.old purse.old }
        ensures answer { (tree : Tree) (pins : ℕ → ℕ) → Stands heap.old self.old tree pins
            → LagsAs parent heap.new self.new tree (make tree parent name (content_of new)) pins result }
        ensures lowest { TakesLowest self.old.disk.blocks self.new.disk.blocks }
        ensures node { HasNode self.new.disk.blocks parent dir.new }
        ensures goes_on { GoesOn (parts heap.old purse.old self.old.blocks self.old.disk)
            (parts heap.new purse.new self.new.blocks self.new.disk) }
        ensures may { MayFetch heap.new purse.new }
    {
        make_through(
            heap,
            purse,
            &mut self.blocks,
            &mut self.disk,
            parent,
            dir,
            name,
            new,
        )
    }
}

fn done(answer: Result<u32, Errno>) -> Result<(), Errno>
    ensures { MatchResult answer (λ _. result ≡ Ok tt) (λ errno. result ≡ Err errno) }
{
    match answer {
        Ok(_) => Ok(()),
        Err(errno) => Err(errno),
    }
}
