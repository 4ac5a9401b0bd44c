//! What of the caches may go, and what goes.
ghost use Rattle.std.specs.Prelude.{◌≡◌, ◌↔◌, ℕ, IsTrue};
ghost use Rattle.kheap_slabs.specs.Paid.{TakesNothing};
ghost use Rattle.posix_defs.specs.Tree.{Tree};
ghost use Rattle.memfs_ops.specs.FileTree.{Stands};
ghost use Rattle.memfs_ops.specs.Evicting.{MayGo, HasGone};

use crate::FileTree;
use kabi_types::Cached;
use kheap_slabs::KHeap;

impl FileTree {
    /// Whether an object of this cache may go: any name and any block, and each node that no one holds.
    pub fn evictable(&self, heap: &KHeap, what: Cached) -> bool
        requires { (tree : Tree) × (pins : ℕ → ℕ) × Stands heap.now self.now tree pins }
        ensures { IsTrue result ↔ MayGo heap.now what }
    {
        match what {
            Cached::Name => self.names.evictable(heap),
            Cached::Block => self.blocks.evictable(heap),
            Cached::Vnode => self.vnodes.evictable(heap),
        }
    }

    /// Of a cache of which something may go, what was used longest ago goes.
    pub fn evict(&mut self, heap: &mut KHeap, what: Cached)
        requires stands { (tree : Tree) × (pins : ℕ → ℕ) × Stands heap.old self.old tree pins }
        requires may { MayGo heap.old what }
        ensures stands { (tree : Tree) (pins : ℕ → ℕ) → Stands heap.old self.old tree pins
            → Stands heap.new self.new tree pins }
        ensures gone { HasGone what heap.old heap.new self.old self.new }
        ensures takes { TakesNothing heap.old heap.new }
    {
        match what {
            Cached::Name => self.evict_name(heap),
            Cached::Block => self.evict_block(heap),
            Cached::Vnode => self.evict_node(heap),
        }
    }

    // The coldest name goes.
    fn evict_name(&mut self, heap: &mut KHeap)
        requires stands { (tree : Tree) × (pins : ℕ → ℕ) × Stands heap.old self.old tree pins }
        requires may { MayGo heap.old Cached.Name }
        ensures stands { (tree : Tree) (pins : ℕ → ℕ) → Stands heap.old self.old tree pins
            → Stands heap.new self.new tree pins }
        ensures gone { HasGone Cached.Name heap.old heap.new self.old self.new }
        ensures takes { TakesNothing heap.old heap.new }
    {
        let _slot = self.names.evict_coldest(heap);
    }

    // The coldest block goes.
    fn evict_block(&mut self, heap: &mut KHeap)
        requires stands { (tree : Tree) × (pins : ℕ → ℕ) × Stands heap.old self.old tree pins }
        requires may { MayGo heap.old Cached.Block }
        ensures stands { (tree : Tree) (pins : ℕ → ℕ) → Stands heap.old self.old tree pins
            → Stands heap.new self.new tree pins }
        ensures gone { HasGone Cached.Block heap.old heap.new self.old self.new }
        ensures takes { TakesNothing heap.old heap.new }
    {
        let _slot = self.blocks.evict_coldest(heap);
    }

    // The coldest node that no one holds goes.
    fn evict_node(&mut self, heap: &mut KHeap)
        requires stands { (tree : Tree) × (pins : ℕ → ℕ) × Stands heap.old self.old tree pins }
        requires may { MayGo heap.old Cached.Vnode }
        ensures stands { (tree : Tree) (pins : ℕ → ℕ) → Stands heap.old self.old tree pins
            → Stands heap.new self.new tree pins }
        ensures gone { HasGone Cached.Vnode heap.old heap.new self.old self.new }
        ensures takes { TakesNothing heap.old heap.new }
    {
        let _slot = self.vnodes.evict_coldest(heap);
    }
}
