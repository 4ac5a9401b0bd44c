//! Further names of files, FIFOs and sockets.
ghost use Rattle.std.specs.Prelude.{◌≡◌, ℕ, ◌<◌, ◌^◌, true, false, None, Ok};
ghost use Rattle.std.specs.List.{All};
ghost use Rattle.kabi_types.specs.Arguments.{path_fault};
ghost use Rattle.kabi_types.specs.declared.errnos.Errno.TheVariants.{ENOENT, EPERM};
ghost use Rattle.posix_defs.specs.IsTree.{IsEntryName};
ghost use Rattle.posix_defs.specs.PathCalls as calls;
ghost use Rattle.posix_defs.specs.Paths.{resolve};
ghost use Rattle.posix_defs.specs.Tree.{Tree, found, is_directory as directory_in, is_in_use};
ghost use Rattle.posix_defs.specs.TreeChanges.{link};
ghost use Rattle.blk_map.specs.Named.{TakesLowest};
ghost use Rattle.memfs_ops.specs.FileTree.{Stands, MayWalk, Pays};
ghost use Rattle.memfs_ops.specs.Changing.{ChangedTo};

use crate::FileTree;
use crate::entries::EntryEdit;
use crate::telling::{is_directory, node_led};
use kabi_types::{Errno, Name27};
use kheap_slabs::{KHeap, Purse};
use path_walk::Walked;

/// The greatest count of links.
const MOST_LINKS: u16 = 127;

impl FileTree {
    /// Gives the node of one path a further name. EPERM where it is a directory, EEXIST where something is under the new name,
    /// ENOENT where a slash stands behind it, EMLINK where the node has 127 names, ENOSPC where there is no room, else the
    /// faults of both walks. The blocks that it takes are the lowest of those that are free.
    ///
    /// See [link](https://pubs.opengroup.org/onlinepubs/9699919799/functions/link.html).
    pub fn link_name(
        &mut self,
        heap: &mut KHeap,
        purse: &mut Purse,
        cwd: u32,
        old: &[u8],
        new: &[u8],
    ) -> Result<(), Errno>
        requires stands { (tree : Tree) × (pins : ℕ → ℕ) × Stands heap.old self.old tree pins
            × (directory_in tree cwd ≡ true) }
        requires old { path_fault old.now ≡ None }
        requires new { path_fault new.now ≡ None }
        requires bytes { All (λ byte. (0 < byte) × (byte < 2 ^ 8)) new.now }
        requires may { MayWalk heap.old purse.old }
        ensures answer { (tree : Tree) (pins : ℕ → ℕ) → Stands heap.old self.old tree pins
            → ChangedTo heap.new self.new tree (calls.link_path tree cwd old.now new.now) pins result }
        ensures pays { Pays heap.old heap.new purse.old purse.new self.old self.new }
        ensures lowest { TakesLowest self.old.disk.blocks self.new.disk.blocks }
    {
        match node_led(self.walk(heap, purse, cwd, old)) {
            Ok(number) => self.link_found(heap, purse, cwd, number, new),
            Err(errno) => Err(errno),
        }
    }

    // The same of a node that the old path led to.
    fn link_found(
        &mut self,
        heap: &mut KHeap,
        purse: &mut Purse,
        cwd: u32,
        number: u32,
        new: &[u8],
    ) -> Result<(), Errno>
        requires stands { (tree : Tree) × (pins : ℕ → ℕ) × Stands heap.old self.old tree pins
            × (directory_in tree cwd ≡ true) × (is_in_use tree number ≡ true) }
        requires new { path_fault new.now ≡ None }
        requires bytes { All (λ byte. (0 < byte) × (byte < 2 ^ 8)) new.now }
        requires may { MayWalk heap.old purse.old }
        ensures answer { (tree : Tree) (pins : ℕ → ℕ) → Stands heap.old self.old tree pins
            → ChangedTo heap.new self.new tree (calls.link_from tree (Ok number) (resolve tree cwd new.now)) pins result }
        ensures pays { Pays heap.old heap.new purse.old purse.new self.old self.new }
        ensures lowest { TakesLowest self.old.disk.blocks self.new.disk.blocks }
    {
        let inode = self.inode(heap, purse, number);
        if is_directory(&inode) {
            return Err(Errno::EPERM);
        }
        self.link_at(heap, purse, cwd, number, new)
    }

    // The same of a node that is no directory.
    fn link_at(
        &mut self,
        heap: &mut KHeap,
        purse: &mut Purse,
        cwd: u32,
        number: u32,
        new: &[u8],
    ) -> Result<(), Errno>
        requires stands { (tree : Tree) × (pins : ℕ → ℕ) × Stands heap.old self.old tree pins
            × (directory_in tree cwd ≡ true) × (is_in_use tree number ≡ true) × (directory_in tree number ≡ false) }
        requires new { path_fault new.now ≡ None }
        requires bytes { All (λ byte. (0 < byte) × (byte < 2 ^ 8)) new.now }
        requires may { MayWalk heap.old purse.old }
        ensures answer { (tree : Tree) (pins : ℕ → ℕ) → Stands heap.old self.old tree pins
            → ChangedTo heap.new self.new tree (calls.link_to tree number (resolve tree cwd new.now)) pins result }
        ensures pays { Pays heap.old heap.new purse.old purse.new self.old self.new }
        ensures lowest { TakesLowest self.old.disk.blocks self.new.disk.blocks }
    {
        match self.walk(heap, purse, cwd, new) {
            Walked::Free {
                parent,
                name,
                slash,
            } => self.link_free(heap, purse, parent, &name, slash, number),
            Walked::Node(_) => Err(Errno::EEXIST),
            Walked::Named { .. } => Err(Errno::EEXIST),
            Walked::Fail(errno) => Err(errno),
        }
    }

    // The same of a new name that is free.
    fn link_free(
        &mut self,
        heap: &mut KHeap,
        purse: &mut Purse,
        parent: u32,
        name: &Name27,
        slash: bool,
        number: u32,
    ) -> Result<(), Errno>
        requires stands { (tree : Tree) × (pins : ℕ → ℕ) × Stands heap.old self.old tree pins
            × (directory_in tree parent ≡ true) × (found tree parent name.now ≡ None)
            × (is_in_use tree number ≡ true) × (directory_in tree number ≡ false) }
        requires name { IsEntryName name.now }
        requires may { MayWalk heap.old purse.old }
        ensures answer { (tree : Tree) (pins : ℕ → ℕ) → Stands heap.old self.old tree pins
            → ChangedTo heap.new self.new tree (calls.unless slash ENOENT (link tree parent name.now number)) pins result }
        ensures pays { Pays heap.old heap.new purse.old purse.new self.old self.new }
        ensures lowest { TakesLowest self.old.disk.blocks self.new.disk.blocks }
    {
        if slash {
            return Err(Errno::ENOENT);
        }
        self.add_name(heap, purse, parent, name, number)
    }

    // A further name in a directory, where there is room.
    fn add_name(
        &mut self,
        heap: &mut KHeap,
        purse: &mut Purse,
        parent: u32,
        name: &Name27,
        number: u32,
    ) -> Result<(), Errno>
        requires stands { (tree : Tree) × (pins : ℕ → ℕ) × Stands heap.old self.old tree pins
            × (directory_in tree parent ≡ true) × (found tree parent name.now ≡ None)
            × (is_in_use tree number ≡ true) × (directory_in tree number ≡ false) }
        requires name { IsEntryName name.now }
        requires may { MayWalk heap.old purse.old }
        ensures answer { (tree : Tree) (pins : ℕ → ℕ) → Stands heap.old self.old tree pins
            → ChangedTo heap.new self.new tree (link tree parent name.now number) pins result }
        ensures pays { Pays heap.old heap.new purse.old purse.new self.old self.new }
        ensures lowest { TakesLowest self.old.disk.blocks self.new.disk.blocks }
    {
        let mut inode = self.inode(heap, purse, number);
        let mut dir = self.inode(heap, purse, parent);
        if inode.nlink == MOST_LINKS {
            return Err(Errno::EMLINK);
        }
        if !self.has_room(heap, purse, &dir) {
            return Err(Errno::ENOSPC);
        }
        let edit = EntryEdit::Put {
            name: name.copy(),
            node: number,
        };
        self.link_node(heap, purse, number, &mut inode);
        self.edit_dir(heap, purse, parent, &mut dir, &edit);
        Ok(())
    }
}
