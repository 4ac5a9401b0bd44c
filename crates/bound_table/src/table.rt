ghost use Rattle.std.specs.Prelude.{◌≡◌, ◌<◌, IfOk, None, Some, length, replicate, slice_index_or, slice_set};

use kabi_types::Memory;
use std::alloc::Global;
use std::marker::Model;

/// For each node, by its number, the key of the socket that is bound to it: none, or one.
///
/// Who is bound to a node is found at once, whatever there is of sockets. All memory is taken by `boot`.
#[derive(Drop)]
pub struct BoundTable {
    keys: Vec<Option<u32>>,
}

impl Model for BoundTable {
    ghost use Rattle.std.specs.Prelude.{ℕ, List, Option};

    ghost Value = { List (Option ℕ) };

    ghost view = { λ table. table.keys.items };
}

impl BoundTable {
    /// A place for each node of so many, to none of which a socket is bound.
    /// Memory where the host has none for them.
    pub fn boot(alloc: Global, nodes: u32) -> Result<BoundTable, Memory>
        ensures { IfOk result (λ table. table ≡ replicate nodes None) }
    {
        let keys = vec![in alloc; None; nodes as usize]?;
        Ok(BoundTable { keys })
    }

    /// The key of the socket that is bound to a node; None where none is, as to a number that has no place.
    pub fn bound_at(&self, node: u32) -> Option<u32>
        ensures { result ≡ slice_index_or self.now node None }
    {
        match self.keys.get(node as usize) {
            Some(key) => *key,
            None => None,
        }
    }

    /// A socket is bound to a node from now on.
    pub fn bind(&mut self, node: u32, key: u32)
        requires { node < length self.old }
        ensures { self.new ≡ slice_set self.old node (Some key) }
    {
        self.keys[node as usize] = Some(key);
    }

    /// No socket is bound to a node any more.
    pub fn free(&mut self, node: u32)
        requires { node < length self.old }
        ensures { self.new ≡ slice_set self.old node None }
    {
        self.keys[node as usize] = None;
    }
}
