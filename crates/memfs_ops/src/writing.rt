//! Bytes of a file that is held, written; and its size.
ghost use Rattle.std.specs.Prelude.{◌≡◌, ℕ, ◌<◌, ◌≤◌, ◌^◌, length};
ghost use Rattle.std.specs.List.{All};
ghost use Rattle.posix_defs.specs.SoundDisk.{HasNode};
ghost use Rattle.posix_defs.specs.Tree.{Tree};
ghost use Rattle.posix_defs.specs.TreeChanges.{resize, write};
ghost use Rattle.blk_map.specs.Named.{TakesLowest};
ghost use Rattle.cached_disk.specs.Lent.{parts, GoesOn};
ghost use Rattle.memfs_ops.specs.FileTree.{Stands, Pays};
ghost use Rattle.memfs_ops.specs.Fetching.{MayFetch, IsFile};
ghost use Rattle.memfs_ops.specs.Changing.{LagsAs, LagsTo, LedTo, ChangedTo};

use crate::FileTree;
use crate::reading::place_of;
use cached_disk::{size_through, write_through};
use kabi_types::{Errno, Inode};
use kheap_slabs::{KHeap, Purse};

impl FileTree {
    /// Writes bytes into a file that is held, from `at` on, as many as there is room for, and answers how many; a gap before
    /// `at` is zeros. EFBIG where the place is at or behind the greatest size, else ENOSPC where there is no room for the gap
    /// and one byte; nothing is written then. The blocks that it takes are the lowest of those that are free.
    ///
    /// See [write](https://pubs.opengroup.org/onlinepubs/9699919799/functions/write.html).
    pub fn write_node(
        &mut self,
        heap: &mut KHeap,
        purse: &mut Purse,
        node: u32,
        at: u64,
        bytes: &[u8],
    ) -> Result<u32, Errno>
        requires stands { (tree : Tree) × (pins : ℕ → ℕ) × Stands heap.old self.old tree pins
            × (0 < pins node) × IsFile tree node }
        requires some { 0 < length bytes.now }
        requires bytes { All (λ byte. byte < 2 ^ 8) bytes.now }
        requires may { MayFetch heap.old purse.old }
        ensures answer { (tree : Tree) (pins : ℕ → ℕ) → Stands heap.old self.old tree pins
            → LedTo heap.new self.new tree (write tree node at bytes.now) pins result }
        ensures pays { Pays heap.old heap.new purse.old purse.new self.old self.new }
        ensures lowest { TakesLowest self.old.disk.blocks self.new.disk.blocks }
    {
        let mut inode = self.held_inode(heap, node);
        let answer = self.write_in(heap, purse, node, &mut inode, place_of(at), bytes);
        self.renew(heap, node, &inode);
        answer
    }

    /// Gives a file that is held another size; what it grows by is zeros. EFBIG where the size is above the greatest one, else
    /// ENOSPC where there is no room; nothing is changed then. The blocks that it takes are the lowest of those that are free.
    ///
    /// See [ftruncate](https://pubs.opengroup.org/onlinepubs/9699919799/functions/ftruncate.html).
    pub fn size_node(
        &mut self,
        heap: &mut KHeap,
        purse: &mut Purse,
        node: u32,
        size: u64,
    ) -> Result<(), Errno>
        requires stands { (tree : Tree) × (pins : ℕ → ℕ) × Stands heap.old self.old tree pins
            × (0 < pins node) × IsFile tree node }
        requires may { MayFetch heap.old purse.old }
        ensures answer { (tree : Tree) (pins : ℕ → ℕ) → Stands heap.old self.old tree pins
            → ChangedTo heap.new self.new tree (resize tree node size) pins result }
        ensures pays { Pays heap.old heap.new purse.old purse.new self.old self.new }
        ensures lowest { TakesLowest self.old.disk.blocks self.new.disk.blocks }
    {
        let mut inode = self.held_inode(heap, node);
        let answer = self.size_in(heap, purse, node, &mut inode, place_of(size));
        self.renew(heap, node, &inode);
        answer
    }

    // The bytes on the disk: the inode is written there, and not where it is cached.
    fn write_in(
        &mut self,
        heap: &mut KHeap,
        purse: &mut Purse,
        node: u32,
        inode: &mut Inode,
        at: u32,
        bytes: &[u8],
    ) -> Result<u32, Errno>
        requires stands { (tree : Tree) × (pins : ℕ → ℕ) × Stands heap.old self.old tree pins × IsFile tree node }
        requires node { HasNode self.old.disk.blocks node inode.old }
        requires some { 0 < length bytes.now }
        requires bytes { All (λ byte. byte < 2 ^ 8) bytes.now }
        requires may { MayFetch heap.old purse.old }
        ensures answer { (tree : Tree) (pins : ℕ → ℕ) → Stands heap.old self.old tree pins
            → LagsAs node heap.new self.new tree (write tree node at bytes.now) pins result }
        ensures lowest { TakesLowest self.old.disk.blocks self.new.disk.blocks }
        ensures node { HasNode self.new.disk.blocks node inode.new }
        ensures goes_on { GoesOn (parts heap.old purse.old self.old.blocks self.old.disk)
            (parts heap.new purse.new self.new.blocks self.new.disk) }
        ensures may { MayFetch heap.new purse.new }
    {
        write_through(
            heap,
            purse,
            &mut self.blocks,
            &mut self.disk,
            node,
            inode,
            at,
            bytes,
        )
    }

    // The size on the disk: the inode is written there, and not where it is cached.
    pub(crate) fn size_in(
        &mut self,
        heap: &mut KHeap,
        purse: &mut Purse,
        node: u32,
        inode: &mut Inode,
        size: u32,
    ) -> Result<(), Errno>
        requires stands { (tree : Tree) × (pins : ℕ → ℕ) × Stands heap.old self.old tree pins × IsFile tree node }
        requires node { HasNode self.old.disk.blocks node inode.old }
        requires may { MayFetch heap.old purse.old }
        ensures answer { (tree : Tree) (pins : ℕ → ℕ) → Stands heap.old self.old tree pins
            → LagsTo node heap.new self.new tree (resize tree node size) pins result }
        ensures lowest { TakesLowest self.old.disk.blocks self.new.disk.blocks }
        ensures node { HasNode self.new.disk.blocks node inode.new }
        ensures goes_on { GoesOn (parts heap.old purse.old self.old.blocks self.old.disk)
            (parts heap.new purse.new self.new.blocks self.new.disk) }
        ensures may { MayFetch heap.new purse.new }
        ensures nodes { self.new.vnodes ≡ self.old.vnodes }
        ensures names { self.new.names ≡ self.old.names }
    {
        size_through(
            heap,
            purse,
            &mut self.blocks,
            &mut self.disk,
            node,
            inode,
            size,
        )
    }
}
