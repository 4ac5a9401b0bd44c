//! Nodes that are held, so that their inodes are cached.
ghost use Rattle.std.specs.Prelude.{◌≡◌, ℕ, ◌<◌};
ghost use Rattle.posix_defs.specs.PathCalls as calls;
ghost use Rattle.posix_defs.specs.SoundDisk.{HasNode};
ghost use Rattle.posix_defs.specs.Tree.{Tree, IsInodeAt};
ghost use Rattle.memfs_ops.specs.FileTree.{Stands, IsUsed};

use crate::FileTree;
use crate::telling::told;
use kabi_types::{Inode, StatInfo};
use kheap_slabs::KHeap;

impl FileTree {
    /// The inode of a node that is held, which is cached therefore.
    pub(crate) fn held_inode(&mut self, heap: &KHeap, node: u32) -> Inode
        requires { (tree : Tree) × (pins : ℕ → ℕ) × Stands heap.now self.old tree pins × (0 < pins node) }
        ensures value { (tree : Tree) (pins : ℕ → ℕ) → Stands heap.now self.old tree pins → IsInodeAt tree node result }
        ensures has { HasNode self.old.disk.blocks node result }
        ensures used { IsUsed self.old self.new }
        ensures stands { (tree : Tree) (pins : ℕ → ℕ) → Stands heap.now self.old tree pins → Stands heap.now self.new tree pins }
    {
        match self.vnodes.get(heap, node) {
            Some(inode) => inode,
            None => unreachable!(),
        }
    }

    /// What `fstat` tells of a node that is held.
    pub fn stat_node(&mut self, heap: &KHeap, node: u32) -> StatInfo
        requires { (tree : Tree) × (pins : ℕ → ℕ) × Stands heap.now self.old tree pins × (0 < pins node) }
        ensures value { (tree : Tree) (pins : ℕ → ℕ) → Stands heap.now self.old tree pins → result ≡ calls.stat_info tree node }
        ensures used { IsUsed self.old self.new }
        ensures stands { (tree : Tree) (pins : ℕ → ℕ) → Stands heap.now self.old tree pins → Stands heap.now self.new tree pins }
    {
        let inode = self.held_inode(heap, node);
        told(node, &inode)
    }
}
