//! The steps of a call that changes more than one node, each from one tree to the next: in between a tree need not be one
//! that a call leaves, and the names that are cached are those of the tree before.
ghost use Rattle.std.specs.Prelude.{◌≡◌, ◌<◌, ◌≤◌, ◌↔◌, ℕ, true, false, IsTrue};
ghost use Rattle.posix_defs.specs.DiskTree.{ChangesNode};
ghost use Rattle.posix_defs.specs.SoundDisk.{HasNode, free_in_map};
ghost use Rattle.posix_defs.specs.Tree.{Tree, is_directory as directory_in};
ghost use Rattle.posix_defs.specs.TreeChanges.{link_added, link_dropped, most_links};
ghost use Rattle.blk_map.specs.Named.{TakesNone};
ghost use Rattle.memfs_dir.specs.Listed.{IsFull};
ghost use Rattle.memfs_node.specs.NodeOnDisk.{KeepsOthers};
ghost use Rattle.cached_disk.specs.Lent.{parts, GoesOn};
ghost use Rattle.memfs_ops.specs.FileTree.{Stands, Pays};
ghost use Rattle.memfs_ops.specs.Fetching.{MayFetch};
ghost use Rattle.memfs_ops.specs.Changing.{Between, MidWay};
ghost use Rattle.memfs_ops.specs.Closing.{MayFree};
ghost use Rattle.memfs_ops.specs.Entries.{edited, MayEdit, TakesFor};

use crate::FileTree;
use crate::entries::EntryEdit;
use crate::through::{add_through, drop_through, edit_through, room_through};
use kabi_types::Inode;
use kheap_slabs::{KHeap, Purse};

impl FileTree {
    /// An entry of a directory changes.
    pub(crate) fn edit_dir(
        &mut self,
        heap: &mut KHeap,
        purse: &mut Purse,
        dir: u32,
        inode: &mut Inode,
        edit: &EntryEdit,
    )
        requires mid { (told tree : Tree) × (pins : ℕ → ℕ) × MidWay heap.old self.old told tree pins
            × (directory_in tree dir ≡ true) × MayEdit edit.now self.old.disk.blocks tree dir inode.old }
        requires node { HasNode self.old.disk.blocks dir inode.old }
        requires may { MayFree heap.old purse.old }
        ensures mid { (told tree : Tree) (pins : ℕ → ℕ) → MidWay heap.old self.old told tree pins
            → MidWay heap.new self.new told (edited edit.now tree dir) pins }
        ensures node { HasNode self.new.disk.blocks dir inode.new }
        ensures others { KeepsOthers dir self.old.disk.blocks self.new.disk.blocks }
        ensures changes { ChangesNode self.old.disk.blocks self.new.disk.blocks dir }
        ensures takes { TakesFor edit.now self.old.disk.blocks self.new.disk.blocks }
        ensures names { self.new.names ≡ self.old.names }
        ensures pays { Pays heap.old heap.new purse.old purse.new self.old self.new }
        ensures may { MayFree heap.new purse.new }
    {
        self.edit_in(heap, purse, dir, inode, edit);
        self.renew(heap, dir, inode);
    }

    // The same on the disk: the inode is written there, and not where it is cached.
    fn edit_in(
        &mut self,
        heap: &mut KHeap,
        purse: &mut Purse,
        dir: u32,
        inode: &mut Inode,
        edit: &EntryEdit,
    )
        requires mid { (told tree : Tree) × (pins : ℕ → ℕ) × MidWay heap.old self.old told tree pins
            × (directory_in tree dir ≡ true) × MayEdit edit.now self.old.disk.blocks tree dir inode.old }
        requires node { HasNode self.old.disk.blocks dir inode.old }
        requires may { MayFetch heap.old purse.old }
        ensures between { (told tree : Tree) (pins : ℕ → ℕ) → MidWay heap.old self.old told tree pins
            → Between dir heap.new self.new told (edited edit.now tree dir) pins }
        ensures node { HasNode self.new.disk.blocks dir inode.new }
        ensures others { KeepsOthers dir self.old.disk.blocks self.new.disk.blocks }
        ensures changes { ChangesNode self.old.disk.blocks self.new.disk.blocks dir }
        ensures takes { TakesFor edit.now self.old.disk.blocks self.new.disk.blocks }
        ensures names { self.new.names ≡ self.old.names }
        ensures goes_on { GoesOn (parts heap.old purse.old self.old.blocks self.old.disk)
            (parts heap.new purse.new self.new.blocks self.new.disk) }
        ensures may { MayFetch heap.new purse.new }
    {
        edit_through(
            heap,
            purse,
            &mut self.blocks,
            &mut self.disk,
            dir,
            inode,
            edit,
        );
    }

    /// A node has one link less. With the last one it goes, unless it is `opened`.
    pub(crate) fn unlink_node(
        &mut self,
        heap: &mut KHeap,
        purse: &mut Purse,
        number: u32,
        inode: &mut Inode,
        opened: bool,
    )
        requires mid { (told tree : Tree) × (pins : ℕ → ℕ) × MidWay heap.old self.old told tree pins
            × (opened ≡ false → pins number ≡ 0) }
        requires node { HasNode self.old.disk.blocks number inode.old }
        requires some { 0 < inode.old.nlink }
        requires may { MayFree heap.old purse.old }
        ensures mid { (told tree : Tree) (pins : ℕ → ℕ) → MidWay heap.old self.old told tree pins
            → MidWay heap.new self.new told (link_dropped tree number opened) pins }
        ensures others { KeepsOthers number self.old.disk.blocks self.new.disk.blocks }
        ensures takes_none { TakesNone self.old.disk.blocks self.new.disk.blocks }
        ensures names { self.new.names ≡ self.old.names }
        ensures pays { Pays heap.old heap.new purse.old purse.new self.old self.new }
        ensures may { MayFree heap.new purse.new }
    {
        if self.drop_in(heap, purse, number, inode, opened) {
            self.forget_node(heap, purse, number);
        } else {
            self.renew(heap, number, inode);
        }
    }

    // The same on the disk: the inode is written there, and not where it is cached. Answers whether the node was freed.
    fn drop_in(
        &mut self,
        heap: &mut KHeap,
        purse: &mut Purse,
        number: u32,
        inode: &mut Inode,
        opened: bool,
    ) -> bool
        requires mid { (told tree : Tree) × (pins : ℕ → ℕ) × MidWay heap.old self.old told tree pins }
        requires node { HasNode self.old.disk.blocks number inode.old }
        requires some { 0 < inode.old.nlink }
        requires may { MayFetch heap.old purse.old }
        ensures between { (told tree : Tree) (pins : ℕ → ℕ) → MidWay heap.old self.old told tree pins
            → Between number heap.new self.new told (link_dropped tree number opened) pins }
        ensures freed { result ≡ true → opened ≡ false }
        ensures node { result ≡ false → HasNode self.new.disk.blocks number inode.new }
        ensures others { KeepsOthers number self.old.disk.blocks self.new.disk.blocks }
        ensures takes_none { TakesNone self.old.disk.blocks self.new.disk.blocks }
        ensures names { self.new.names ≡ self.old.names }
        ensures goes_on { GoesOn (parts heap.old purse.old self.old.blocks self.old.disk)
            (parts heap.new purse.new self.new.blocks self.new.disk) }
        ensures may { MayFetch heap.new purse.new }
    {
        drop_through(
            heap,
            purse,
            &mut self.blocks,
            &mut self.disk,
            number,
            inode,
            opened,
        )
    }

    /// A node has one link more.
    pub(crate) fn link_node(
        &mut self,
        heap: &mut KHeap,
        purse: &mut Purse,
        number: u32,
        inode: &mut Inode,
    )
        requires mid { (told tree : Tree) × (pins : ℕ → ℕ) × MidWay heap.old self.old told tree pins }
        requires node { HasNode self.old.disk.blocks number inode.old }
        requires most { inode.old.nlink < most_links }
        requires may { MayFree heap.old purse.old }
        ensures mid { (told tree : Tree) (pins : ℕ → ℕ) → MidWay heap.old self.old told tree pins
            → MidWay heap.new self.new told (link_added tree number) pins }
        ensures others { KeepsOthers number self.old.disk.blocks self.new.disk.blocks }
        ensures free { free_in_map self.new.disk.blocks ≡ free_in_map self.old.disk.blocks }
        ensures takes_none { TakesNone self.old.disk.blocks self.new.disk.blocks }
        ensures names { self.new.names ≡ self.old.names }
        ensures pays { Pays heap.old heap.new purse.old purse.new self.old self.new }
        ensures may { MayFree heap.new purse.new }
    {
        self.add_in(heap, purse, number, inode);
        self.renew(heap, number, inode);
    }

    // The same on the disk: the inode is written there, and not where it is cached.
    fn add_in(&mut self, heap: &mut KHeap, purse: &mut Purse, number: u32, inode: &mut Inode)
        requires mid { (told tree : Tree) × (pins : ℕ → ℕ) × MidWay heap.old self.old told tree pins }
        requires node { HasNode self.old.disk.blocks number inode.old }
        requires most { inode.old.nlink < most_links }
        requires may { MayFetch heap.old purse.old }
        ensures between { (told tree : Tree) (pins : ℕ → ℕ) → MidWay heap.old self.old told tree pins
            → Between number heap.new self.new told (link_added tree number) pins }
        ensures node { HasNode self.new.disk.blocks number inode.new }
        ensures others { KeepsOthers number self.old.disk.blocks self.new.disk.blocks }
        ensures free { free_in_map self.new.disk.blocks ≡ free_in_map self.old.disk.blocks }
        ensures takes_none { TakesNone self.old.disk.blocks self.new.disk.blocks }
        ensures names { self.new.names ≡ self.old.names }
        ensures goes_on { GoesOn (parts heap.old purse.old self.old.blocks self.old.disk)
            (parts heap.new purse.new self.new.blocks self.new.disk) }
        ensures may { MayFetch heap.new purse.new }
    {
        add_through(heap, purse, &mut self.blocks, &mut self.disk, number, inode);
    }

    /// Whether a directory has room for one entry more, by its inode.
    pub(crate) fn has_room(&mut self, heap: &mut KHeap, purse: &mut Purse, dir: &Inode) -> bool
        requires stands { (tree : Tree) × (pins : ℕ → ℕ) × Stands heap.old self.old tree pins }
        requires node { (number : ℕ) × HasNode self.old.disk.blocks number dir.now }
        requires may { MayFree heap.old purse.old }
        ensures value { IsTrue result ↔ ¬ (IsFull self.old.disk.blocks dir.now) }
        ensures stands { (tree : Tree) (pins : ℕ → ℕ) → Stands heap.old self.old tree pins
            → Stands heap.new self.new tree pins }
        ensures bytes { self.new.disk.blocks ≡ self.old.disk.blocks }
        ensures names { self.new.names ≡ self.old.names }
        ensures pays { Pays heap.old heap.new purse.old purse.new self.old self.new }
        ensures may { MayFree heap.new purse.new }
    {
        room_through(heap, purse, &mut self.blocks, &mut self.disk, dir)
    }
}
