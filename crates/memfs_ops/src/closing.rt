//! Nodes that are closed: who holds one lets it go, and one without a name goes with the last that holds it.
ghost use Rattle.std.specs.Prelude.{◌≡◌, ◌≢◌, ℕ, ◌-◌, ◌<◌, ◌==◌, []};
ghost use Rattle.kheap_slabs.specs.Objects.{InUse};
ghost use Rattle.kheap_slabs.specs.Paid.{HasFills, TakesNothing};
ghost use Rattle.posix_defs.specs.SoundDisk.{HasNode};
ghost use Rattle.posix_defs.specs.Tree.{Tree, root};
ghost use Rattle.posix_defs.specs.TreeChanges.{closed};
ghost use Rattle.posix_defs.specs.IsTree.{IsTree};
ghost use Rattle.vnode_cache.specs.Nodes.{node_slot};
ghost use Rattle.cached_disk.specs.Lent.{parts, GoesOn};
ghost use Rattle.memfs_ops.specs.FileTree.{Stands, Pays};
ghost use Rattle.memfs_ops.specs.Fetching.{MayFetch};
ghost use Rattle.memfs_ops.specs.Changing.{Lags};
ghost use Rattle.memfs_ops.specs.Closing.{one_less, left_tree, GoesThen, KeepsCached, MayFree, HeldToClose};

use crate::FileTree;
use cached_disk::free_through;
use kabi_types::Inode;
use kheap_slabs::{KHeap, Purse};

impl FileTree {
    /// One less holds a node that is held. With the last that holds it a node goes that has no links.
    ///
    /// Blocks are asked for in that case alone, and those that were filled go before it ends: a purse that had filled nothing
    /// is then as it was. See [close](https://pubs.opengroup.org/onlinepubs/9699919799/functions/close.html).
    pub fn close_node(&mut self, heap: &mut KHeap, purse: &mut Purse, node: u32)
        requires stands { HeldToClose heap.old purse.old self.old node }
        requires fills { HasFills heap.old purse.old }
        ensures stands { (tree : Tree) (pins : ℕ → ℕ) → Stands heap.old self.old tree pins
            → Stands heap.new self.new (left_tree tree pins node) (one_less pins node) }
        ensures pays { Pays heap.old heap.new purse.old purse.new self.old self.new }
        ensures dropped { purse.old.vnodes ≡ [] → purse.old.blocks ≡ [] → purse.new ≡ purse.old }
        ensures stays { (tree : Tree) (pins : ℕ → ℕ) → Stands heap.old self.old tree pins → (GoesThen tree pins node → ⊥)
            → (purse.new ≡ purse.old) × (self.new.disk ≡ self.old.disk) × (self.new.blocks ≡ self.old.blocks) }
        ensures cached { KeepsCached self.old self.new }
    {
        let inode = self.held_inode(heap, node);
        let last = self.release(heap, node);
        if !last {
            return;
        }
        if inode.nlink != 0 {
            return;
        }
        self.free_closed(heap, purse, node, &inode);
    }

    /// One less holds a node, which stays on the disk and in its cache, as a process leaves the directory that it works in.
    /// Nothing is used by that: what is cached keeps its order. Answers whether it was the last that held it.
    pub fn release(&mut self, heap: &mut KHeap, node: u32) -> bool
        requires stands { (tree : Tree) × (pins : ℕ → ℕ) × Stands heap.old self.old tree pins
            × (0 < pins node) × (0 < one_less pins node root) }
        ensures last { (tree : Tree) (pins : ℕ → ℕ) → Stands heap.old self.old tree pins → result ≡ (pins node == 1) }
        ensures stands { (tree : Tree) (pins : ℕ → ℕ) → Stands heap.old self.old tree pins
            → Stands heap.new self.new tree (one_less pins node) }
        ensures only { heap.new ≡ record heap.old { vnodes = heap.new.vnodes } }
        ensures used { (slot : ℕ) → InUse heap.old.vnodes slot → InUse heap.new.vnodes slot }
        ensures takes { TakesNothing heap.old heap.new }
        ensures rest { self.new ≡ record self.old { vnodes = self.new.vnodes } }
        ensures same { self.new.vnodes.order ≡ self.old.vnodes.order }
    {
        let pins = self.vnodes.pins(heap, node);
        self.vnodes.unpin(heap, node);
        pins == 1
    }

    // A node without links that no one holds goes: its blocks, its slot of the table, and its inode where that is cached.
    // Then the blocks go that this filled.
    fn free_closed(&mut self, heap: &mut KHeap, purse: &mut Purse, node: u32, inode: &Inode)
        requires stands { (tree : Tree) × (pins : ℕ → ℕ) × Stands heap.old self.old tree pins × (pins node ≡ 0) }
        requires node { HasNode self.old.disk.blocks node inode.now }
        requires links { inode.now.nlink ≡ 0 }
        requires may { MayFree heap.old purse.old }
        ensures stands { (tree : Tree) (pins : ℕ → ℕ) → Stands heap.old self.old tree pins
            → Stands heap.new self.new (closed tree node) pins }
        ensures pays { Pays heap.old heap.new purse.old purse.new self.old self.new }
        ensures dropped { purse.old.vnodes ≡ [] → purse.old.blocks ≡ [] → purse.new ≡ purse.old }
        ensures names { self.new.names ≡ self.old.names }
        ensures others { (other : ℕ) → node ≢ other → node_slot self.new.vnodes other ≡ node_slot self.old.vnodes other }
    {
        self.free_in(heap, purse, node, inode);
        self.forget_node(heap, purse, node);
        self.drop_blocks(heap, purse);
    }

    // The node goes on the disk, and not where it is cached.
    fn free_in(&mut self, heap: &mut KHeap, purse: &mut Purse, node: u32, inode: &Inode)
        requires stands { (tree : Tree) × (pins : ℕ → ℕ) × Stands heap.old self.old tree pins }
        requires node { HasNode self.old.disk.blocks node inode.now }
        requires links { inode.now.nlink ≡ 0 }
        requires may { MayFetch heap.old purse.old }
        ensures lags { (tree : Tree) (pins : ℕ → ℕ) → Stands heap.old self.old tree pins
            → IsTree (closed tree node) × Lags node heap.new self.new (closed tree node) pins }
        ensures goes_on { GoesOn (parts heap.old purse.old self.old.blocks self.old.disk)
            (parts heap.new purse.new self.new.blocks self.new.disk) }
        ensures may { MayFetch heap.new purse.new }
        ensures rest { self.new ≡ record self.old { blocks = self.new.blocks; disk = self.new.disk } }
    {
        free_through(heap, purse, &mut self.blocks, &mut self.disk, node, inode);
    }
}
