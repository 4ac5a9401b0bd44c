//! Who holds which nodes, told while the heap is lent to the tree.

ghost use Rattle.std.specs.Prelude.{◌≡◌, ◌&&◌, ℕ, [], Some, false, nat_lt, true};
ghost use Rattle.kheap_slabs.specs.Objects.{InUse, object};
ghost use Rattle.kheap_slabs.specs.declared.objects.Descriptor.{Descriptor as HeldDescriptor};
ghost use Rattle.kheap_slabs.specs.declared.objects.Proc.{Proc};
ghost use Rattle.kheap_slabs.specs.Heap.{IsWellFormed};
ghost use Rattle.kheap_slabs.specs.Leaves.{OwnsLeaves, row_at};
ghost use Rattle.open_laws.specs.Described.{node_in};
ghost use Rattle.open_laws.specs.Owned.{HasItsOwners};
ghost use Rattle.open_laws.specs.Polled.{IsTargetIn};
ghost use Rattle.posix_defs.specs.Files.State.{is_number};
ghost use Rattle.proc_numbers.specs.Having.{AreListed};
ghost use Rattle.proc_table.specs.Table.{AreStored, processes};
ghost use Rattle.path_calls.specs.Nodes.{Adds, HasNoFifo, has_node, holds_node, most_nodes, some_holds, some_opens};

use crate::node_set::NodeSet;
use kheap_slabs::{Desc, Descriptor, KHeap, Target};
use pipe_ends::pipe_fifo;
use proc_table::ProcTable;

/// Puts the nodes that live processes work in, and those that are open, into a set that has none.
pub(crate) fn add_all_held(heap: &KHeap, procs: &ProcTable, no_fifo: bool, nodes: &mut NodeSet)
    requires whole { IsWellFormed heap.now }
    requires stored { AreStored heap.now.procs procs.now.listed }
    requires listed { AreListed heap.now procs.now }
    requires owners { HasItsOwners heap.now [] }
    requires fifos { HasNoFifo heap.now no_fifo }
    requires none { (number : ℕ) → has_node nodes.old number ≡ false }
    ensures { (number : ℕ) → has_node nodes.new number
        ≡ (nat_lt number most_nodes && some_holds heap.now (processes heap.now procs.now) number) }
{
    for place in procs.listed() {
        add_held(heap, place.key, no_fifo, nodes);
    }
}

// The node that a process works in, as long as it runs, and those that it has open.
fn add_held(heap: &KHeap, key: u32, no_fifo: bool, nodes: &mut NodeSet)
    requires whole { IsWellFormed heap.now }
    requires there { InUse heap.now.procs key }
    requires owners { HasItsOwners heap.now [] }
    requires fifos { HasNoFifo heap.now no_fifo }
    requires owns { (proc : Proc) → object heap.now.procs key ≡ Some proc → OwnsLeaves heap.now.leaves proc.leaves }
    ensures { (proc : Proc) → object heap.now.procs key ≡ Some proc
        → Adds nodes.old nodes.new (λ number. holds_node heap.now number proc) }
{
    let proc = heap.get_proc(key);
    if proc.status.is_none() {
        nodes.add(proc.cwd);
    }
    add_row(heap, &proc.descriptors, no_fifo, nodes);
    add_leaf(heap, proc.leaves[0], no_fifo, nodes);
    add_leaf(heap, proc.leaves[1], no_fifo, nodes);
    add_leaf(heap, proc.leaves[2], no_fifo, nodes);
}

// The nodes that the numbers of a Leaf are open on, where it is there.
fn add_leaf(heap: &KHeap, leaf: Option<u32>, no_fifo: bool, nodes: &mut NodeSet)
    requires there { (key : ℕ) → leaf ≡ Some key → InUse heap.now.leaves key }
    requires whole { IsWellFormed heap.now }
    requires owners { HasItsOwners heap.now [] }
    requires fifos { HasNoFifo heap.now no_fifo }
    requires named { (fd : ℕ) (held : HeldDescriptor) → object (row_at heap.now.leaves leaf) fd ≡ Some held → InUse heap.now.descs held.desc }
    ensures { Adds nodes.old nodes.new (some_opens heap.now (row_at heap.now.leaves leaf)) }
{
    let Some(key) = leaf else {
        return;
    };
    add_row(heap, &heap.get_leaf(key).descriptors, no_fifo, nodes);
}

// The nodes that these descriptors are open on. Where no FIFO is open no pipe is asked for its own.
fn add_row(heap: &KHeap, row: &[Option<Descriptor>; 32], no_fifo: bool, nodes: &mut NodeSet)
    requires owners { HasItsOwners heap.now [] }
    requires fifos { HasNoFifo heap.now no_fifo }
    requires named { (fd : ℕ) (held : HeldDescriptor) → object row.now fd ≡ Some held → InUse heap.now.descs held.desc }
    ensures { Adds nodes.old nodes.new (some_opens heap.now row.now) }
{
    if no_fifo {
        add_files(heap, row, nodes);
    } else {
        add_nodes(heap, row, nodes);
    }
}

// The same where no FIFO is open.
fn add_files(heap: &KHeap, row: &[Option<Descriptor>; 32], nodes: &mut NodeSet)
    requires fifos { HasNoFifo heap.now true }
    requires named { (fd : ℕ) (held : HeldDescriptor) → object row.now fd ≡ Some held → InUse heap.now.descs held.desc }
    ensures { Adds nodes.old nodes.new (some_opens heap.now row.now) }
{
    for descriptor in row {
        if let Some(held) = descriptor {
            add_file(heap, heap.get_desc(held.desc), nodes);
        }
    }
}

// The file or the directory that a description is open on, if it is open on one.
fn add_file(_heap: &KHeap, desc: &Desc, nodes: &mut NodeSet)
    requires { HasNoFifo _heap.now true }
    ensures { Adds nodes.old nodes.new (λ number. is_number number (node_in _heap.now.pipes desc.now.target)) }
{
    if let Target::Inode(node) = desc.target {
        nodes.add(node);
    }
}

// The same where a pipe may be a FIFO's.
fn add_nodes(heap: &KHeap, row: &[Option<Descriptor>; 32], nodes: &mut NodeSet)
    requires owners { HasItsOwners heap.now [] }
    requires named { (fd : ℕ) (held : HeldDescriptor) → object row.now fd ≡ Some held → InUse heap.now.descs held.desc }
    ensures { Adds nodes.old nodes.new (some_opens heap.now row.now) }
{
    for descriptor in row {
        if let Some(held) = descriptor {
            add_opened(heap, heap.get_desc(held.desc), nodes);
        }
    }
}

// The node that a description opens, if it opens one.
fn add_opened(heap: &KHeap, desc: &Desc, nodes: &mut NodeSet)
    requires { IsTargetIn heap.now desc.now.target }
    ensures { Adds nodes.old nodes.new (λ number. is_number number (node_in heap.now.pipes desc.now.target)) }
{
    if let Some(node) = node_of(heap, desc.target) {
        nodes.add(node);
    }
}

// The node of a target; an end of a FIFO's pipe has that of the FIFO.
fn node_of(heap: &KHeap, target: Target) -> Option<u32>
    requires { IsTargetIn heap.now target }
    ensures { result ≡ node_in heap.now.pipes target }
{
    match target {
        Target::Inode(node) => Some(node),
        Target::Pipe(key) => pipe_fifo(heap, key),
        Target::Sock(_) => None,
    }
}
