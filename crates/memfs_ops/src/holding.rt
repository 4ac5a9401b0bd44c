//! Who holds a node: a working directory and each open description do, and the root is held always.
ghost use Rattle.std.specs.Prelude.{◌≡◌, ℕ, ◌+◌, ◌<◌, true, None, Ok, IsSome, MatchResult};
ghost use Rattle.kabi_types.specs.Arguments.{path_fault};
ghost use Rattle.kheap_slabs.specs.Paid.{TakesNothing};
ghost use Rattle.posix_defs.specs.PathCalls as calls;
ghost use Rattle.posix_defs.specs.Paths.{resolve};
ghost use Rattle.posix_defs.specs.Tree.{Tree, is_directory as directory_in, is_in_use};
ghost use Rattle.vnode_cache.specs.Nodes.{node_slot};
ghost use Rattle.vnode_cache.specs.Calls.{NodeSet};
ghost use Rattle.memfs_ops.specs.FileTree.{Stands, MayWalk, Pays, KnowsWay, KeepsLed, in_call, one_more};

use crate::FileTree;
use crate::telling::{is_directory, node_led};
use kabi_types::Errno;
use kheap_slabs::{KHeap, Purse};

impl FileTree {
    /// The directory that a path leads to, which one more holds from then on: ENOTDIR where it is none, else the faults of the
    /// walk.
    ///
    /// See [chdir](https://pubs.opengroup.org/onlinepubs/9699919799/functions/chdir.html).
    pub fn enter(
        &mut self,
        heap: &mut KHeap,
        purse: &mut Purse,
        cwd: u32,
        path: &[u8],
    ) -> Result<u32, Errno>
        requires stands { (tree : Tree) × (pins : ℕ → ℕ) × Stands heap.old self.old tree pins
            × (directory_in tree cwd ≡ true) × ((number : ℕ) → pins number < 4294967295) }
        requires path { path_fault path.now ≡ None }
        requires may { MayWalk heap.old purse.old }
        ensures value { (tree : Tree) (pins : ℕ → ℕ) → Stands heap.old self.old tree pins
            → result ≡ calls.enter_path tree cwd path.now }
        ensures stands { (tree : Tree) (pins : ℕ → ℕ) → Stands heap.old self.old tree pins
            → MatchResult result (λ number. Stands heap.new self.new tree (one_more pins number))
            (λ _. Stands heap.new self.new tree pins) }
        ensures pays { Pays heap.old heap.new purse.old purse.new self.old self.new }
        ensures saved { (tree : Tree) (pins : ℕ → ℕ) → Stands heap.old self.old tree pins
            → KnowsWay (in_call heap.old purse.old self.old) tree cwd path.now
            → self.new.disk ≡ self.old.disk }
        ensures kept { (tree : Tree) (pins : ℕ → ℕ) → Stands heap.old self.old tree pins
            → KeepsLed self.new (resolve tree cwd path.now) }
    {
        match node_led(self.walk(heap, purse, cwd, path)) {
            Ok(number) => self.enter_node(heap, purse, number),
            Err(errno) => Err(errno),
        }
    }

    // The same of a node that a path led to.
    fn enter_node(&mut self, heap: &mut KHeap, purse: &mut Purse, number: u32) -> Result<u32, Errno>
        requires stands { (tree : Tree) × (pins : ℕ → ℕ) × Stands heap.old self.old tree pins
            × (is_in_use tree number ≡ true) × (pins number < 4294967295) }
        requires may { MayWalk heap.old purse.old }
        ensures value { (tree : Tree) (pins : ℕ → ℕ) → Stands heap.old self.old tree pins
            → result ≡ calls.entered tree (Ok number) }
        ensures stands { (tree : Tree) (pins : ℕ → ℕ) → Stands heap.old self.old tree pins
            → MatchResult result (λ node. Stands heap.new self.new tree (one_more pins node))
            (λ _. Stands heap.new self.new tree pins) }
        ensures pays { Pays heap.old heap.new purse.old purse.new self.old self.new }
        ensures saved { IsSome (node_slot self.old.vnodes number) → self.new.disk ≡ self.old.disk }
        ensures kept { IsSome (node_slot self.new.vnodes number) }
        ensures names { self.new.names ≡ self.old.names }
    {
        let inode = self.inode(heap, purse, number);
        if is_directory(&inode) {
            self.hold(heap, number);
            Ok(number)
        } else {
            Err(Errno::ENOTDIR)
        }
    }

    /// One more holds a node that is held, as the child of a fork does its working directory.
    pub fn pin_node(&mut self, heap: &mut KHeap, node: u32)
        requires { (tree : Tree) × (pins : ℕ → ℕ) × Stands heap.old self.old tree pins
            × (0 < pins node) × (pins node < 4294967295) }
        ensures stands { (tree : Tree) (pins : ℕ → ℕ) → Stands heap.old self.old tree pins
            → Stands heap.new self.new tree (one_more pins node) }
        ensures only { heap.new ≡ record heap.old { vnodes = heap.new.vnodes } }
        ensures takes { TakesNothing heap.old heap.new }
        ensures rest { self.new ≡ record self.old { vnodes = self.new.vnodes } }
        ensures same { self.new.vnodes.order ≡ self.old.vnodes.order }
    {
        self.hold(heap, node);
    }

    // One more holds a node that is cached.
    pub(crate) fn hold(&mut self, heap: &mut KHeap, node: u32)
        requires stands { (tree : Tree) × (pins : ℕ → ℕ) × Stands heap.old self.old tree pins
            × (pins node < 4294967295) }
        requires there { IsSome (node_slot self.old.vnodes node) }
        ensures stands { (tree : Tree) (pins : ℕ → ℕ) → Stands heap.old self.old tree pins
            → Stands heap.new self.new tree (one_more pins node) }
        ensures set { NodeSet node (λ was. record was { pins = was.pins + 1 }) heap.old heap.new self.old.vnodes self.new.vnodes }
        ensures only { heap.new ≡ record heap.old { vnodes = heap.new.vnodes } }
        ensures takes { TakesNothing heap.old heap.new }
        ensures rest { self.new ≡ record self.old { vnodes = self.new.vnodes } }
        ensures same { self.new.vnodes.order ≡ self.old.vnodes.order }
    {
        self.vnodes.pin(heap, node);
    }
}
