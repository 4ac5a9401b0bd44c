//! Sets of nodes, with a bit a node.

ghost use Rattle.std.specs.Prelude.{◌≡◌, ◌==◌, ℕ, false};
ghost use Rattle.path_calls.specs.Nodes.{Adds, has_node};

use disk_layout::{is_marked, mark};

/// More than the greatest number of a node, which a disk of 4096 blocks has.
const MOST: u32 = 8192;

/// Some nodes.
#[derive(Drop)]
pub(crate) struct NodeSet {
    // A bit a node, as the map of a disk has one a block.
    bits: [u8; 1024],
}

impl NodeSet {
    /// No node.
    pub(crate) fn new() -> NodeSet
        ensures { (number : ℕ) → has_node result number ≡ false }
    {
        NodeSet { bits: [0; 1024] }
    }

    /// One node more, if a disk may have it.
    pub(crate) fn add(&mut self, node: u32)
        ensures { Adds self.old self.new (λ number. node == number) }
    {
        if node < MOST {
            mark(&mut self.bits, node);
        }
    }

    /// Whether a node is among them.
    pub(crate) fn has(&self, node: u32) -> bool
        ensures { result ≡ has_node self.now node }
    {
        node < MOST && is_marked(&self.bits, node)
    }
}
