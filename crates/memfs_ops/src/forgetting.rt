//! What is cached and is true no more goes, and what a call filled and may not leave.
ghost use Rattle.std.specs.Prelude.{◌≡◌, ◌≢◌, ◌≤◌, ◌+◌, ℕ, [], None, length};
ghost use Rattle.kheap_slabs.specs.Paid.{HasFills};
ghost use Rattle.lru_index.specs.NameKeys.{name_key};
ghost use Rattle.lru_index.specs.declared.keys.NameKey.{NameKey as KeyOf};
ghost use Rattle.posix_defs.specs.Tree.{Tree};
ghost use Rattle.block_cache.specs.Blocks.{with_blocks};
ghost use Rattle.name_cache.specs.Names.{name_slot};
ghost use Rattle.vnode_cache.specs.Calls.{with_vnodes};
ghost use Rattle.vnode_cache.specs.Nodes.{node_slot};
ghost use Rattle.memfs_ops.specs.FileTree.{Stands, MayWalk, Looks, Pays};
ghost use Rattle.memfs_ops.specs.Changing.{Between, MidWay};

use crate::FileTree;
use kabi_types::Name27;
use kheap_slabs::{KHeap, Purse};
use lru_index::NameKey;

impl FileTree {
    /// The inode of a node that no one holds goes, where it is cached. A purse that had filled it takes it back.
    pub(crate) fn forget_node(&mut self, heap: &mut KHeap, purse: &mut Purse, number: u32)
        requires lags { (told tree : Tree) × (pins : ℕ → ℕ) × Between number heap.old self.old told tree pins
            × (pins number ≡ 0) }
        requires fills { HasFills heap.old purse.old }
        requires few { purse.old.need.vnode ≤ 4 }
        ensures stands { (told tree : Tree) (pins : ℕ → ℕ) → Between number heap.old self.old told tree pins
            → MidWay heap.new self.new told tree pins }
        ensures pays { Pays heap.old heap.new purse.old purse.new self.old self.new }
        ensures rest { self.new ≡ record self.old { vnodes = self.new.vnodes } }
        ensures purse { purse.new ≡ with_vnodes purse.old purse.new.left.vnode purse.new.vnodes }
        ensures same { purse.old.vnodes ≡ [] → purse.new ≡ purse.old }
        ensures others { (other : ℕ) → number ≢ other → node_slot self.new.vnodes other ≡ node_slot self.old.vnodes other }
    {
        self.vnodes.let_go(heap, purse, number);
    }

    /// A name goes, where it is cached. A purse that had filled it takes it back.
    pub(crate) fn forget_name(
        &mut self,
        heap: &mut KHeap,
        purse: &mut Purse,
        dir: u32,
        name: &Name27,
    )
        requires stands { (tree : Tree) × (pins : ℕ → ℕ) × Stands heap.old self.old tree pins }
        requires may { MayWalk heap.old purse.old }
        ensures looks { Looks heap.old heap.new purse.old purse.new self.old self.new }
        ensures gone { name_slot self.new.names (name_key dir name.now) ≡ None }
        ensures others { (key : KeyOf) → name_slot self.old.names key ≡ None → name_slot self.new.names key ≡ None }
    {
        self.names.let_go(heap, purse, NameKey::of(dir, name));
    }

    /// The blocks go that a call filled. Its purse takes them back.
    pub(crate) fn drop_blocks(&mut self, heap: &mut KHeap, purse: &mut Purse)
        requires stands { (tree : Tree) × (pins : ℕ → ℕ) × Stands heap.old self.old tree pins }
        requires fills { HasFills heap.old purse.old }
        ensures stands { (tree : Tree) (pins : ℕ → ℕ) → Stands heap.old self.old tree pins
            → Stands heap.new self.new tree pins }
        ensures pays { Pays heap.old heap.new purse.old purse.new self.old self.new }
        ensures dropped { purse.new ≡ with_blocks purse.old (purse.old.left.block + length purse.old.blocks) [] }
        ensures rest { self.new ≡ record self.old { blocks = self.new.blocks } }
    {
        self.blocks.drop_fills(heap, purse);
    }
}
