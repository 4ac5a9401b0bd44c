//! The objects of a store at boot.

ghost use Rattle.std.specs.Prelude.{◌≤◌, IfOk};
ghost use Rattle.store_objects.specs.Booting.{HasBooted};

use crate::objects::Objects;
use bound_table::BoundTable;
use fifo_nodes::FifoTable;
use kabi_types::{Control, Memory};
use kheap_slabs::KHeap;
use lock_table::LockTable;
use memfs_ops::FileTree;
use proc_table::{Place, ProcTable};
use std::alloc::Global;

/// The greatest number of a node, which the greatest disk has.
const MOST_NODES: u32 = 4096;

/// The pid of the first process.
const FIRST: u32 = 1;

/// A heap of so many bytes, with the first process, which stands at this control, beside the tree of a new disk of so many
/// blocks. Of the disk the heap has the root's vnode alone. Its one pin is its own and stays for good: who works in the root
/// pins it no more.
pub fn booted(alloc: Global, heap: u64, blocks: u32, control: Control) -> Result<Objects, Memory>
    requires least { 8192 ≤ heap }
    requires most { heap ≤ 8388608 }
    requires blocks { (16 ≤ blocks) × (blocks ≤ 4096) }
    ensures { IfOk result (λ objects. HasBooted objects heap blocks control) }
{
    // The greater, the later: where memory is wanting, what is there already is let go.
    let names = BoundTable::boot(alloc, MOST_NODES + 1)?;
    let mut heap = KHeap::boot(alloc, heap)?;
    let tree = match FileTree::boot(alloc, blocks, &mut heap) {
        Ok(tree) => tree,
        Err(wanting) => {
            drop(heap);
            return Err(wanting);
        }
    };
    let procs = ProcTable::boot(&mut heap);
    let mut objects = Objects {
        heap,
        procs,
        tree,
        names,
        fifos: FifoTable::new(),
        locks: LockTable::new(),
    };
    let key = objects.key_there(FIRST);
    objects.move_on(Place { pid: FIRST, key }, control);
    Ok(objects)
}
