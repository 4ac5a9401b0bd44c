//! The cached inode of a node that was changed on the disk.
ghost use Rattle.std.specs.Prelude.{◌≡◌, ℕ};
ghost use Rattle.kheap_slabs.specs.Objects.{InUse};
ghost use Rattle.kheap_slabs.specs.Paid.{TakesNothing};
ghost use Rattle.posix_defs.specs.IsTree.{IsTree};
ghost use Rattle.posix_defs.specs.SoundDisk.{HasNode};
ghost use Rattle.posix_defs.specs.Tree.{Tree};
ghost use Rattle.vnode_cache.specs.Nodes.{IsLoose};
ghost use Rattle.memfs_ops.specs.Changing.{Between, MidWay};

use crate::FileTree;
use kabi_types::Inode;
use kheap_slabs::KHeap;

impl FileTree {
    /// Where a node is cached, it gets the inode that the disk has of it now.
    pub(crate) fn renew(&mut self, heap: &mut KHeap, number: u32, inode: &Inode)
        requires lags { (told tree : Tree) × (pins : ℕ → ℕ) × Between number heap.old self.old told tree pins }
        requires has { HasNode self.old.disk.blocks number inode.now }
        ensures stands { (told tree : Tree) (pins : ℕ → ℕ) → Between number heap.old self.old told tree pins
            → MidWay heap.new self.new told tree pins }
        ensures only { heap.new ≡ record heap.old { vnodes = heap.new.vnodes } }
        ensures used { (slot : ℕ) → InUse heap.old.vnodes slot → InUse heap.new.vnodes slot }
        ensures loose { (slot : ℕ) → IsLoose heap.old.vnodes slot → IsLoose heap.new.vnodes slot }
        ensures takes { TakesNothing heap.old heap.new }
        ensures same { self.new ≡ self.old }
    {
        if self.vnodes.has(number) {
            self.vnodes.set(heap, number, *inode);
        }
    }
}
