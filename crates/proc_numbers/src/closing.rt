//! A process closes what it has open.

ghost use Rattle.std.specs.Prelude.{◌≡◌, ◌<◌, [], IsSome, None, Some, slice_index_or};
ghost use Rattle.kheap_slabs.specs.declared.objects.Descriptor.{Descriptor as HeldDescriptor};
ghost use Rattle.kheap_slabs.specs.declared.objects.Proc.{Proc as HeldProc};
ghost use Rattle.kheap_slabs.specs.Heap.{IsWellFormed};
ghost use Rattle.kheap_slabs.specs.Paid.{TakesNothing};
ghost use Rattle.fifo_nodes.specs.Chain.{IsChain};
ghost use Rattle.open_laws.specs.Owned.{HasItsOwners};
ghost use Rattle.open_laws.specs.Placed.{Numbers};
ghost use Rattle.posix_defs.specs.Files.State.{Files};
ghost use Rattle.kabi_types.specs.Arguments.{most_descriptors};
ghost use Rattle.proc_table.specs.Procs.{numbers_in, proc_of};
ghost use Rattle.proc_table.specs.Table.{IsPlaced, processes};
ghost use Rattle.proc_numbers.specs.Queues.{QueuesStand};
ghost use Rattle.proc_numbers.specs.Closed.{without_number};
ghost use Rattle.proc_numbers.specs.Having.{AreListed, ClosesNumber, HaveOpen, OpensNoNode, node_closed};
ghost use Rattle.proc_numbers.specs.Naming.{TurnsNumber, named_at};

use desc_table::{Descs, close_desc};
use fifo_nodes::FifoTable;
use kheap_slabs::KHeap;
use proc_table::{Place, ProcTable};

/// A process has a number open no more (POSIX close), which was found open. With the last of its numbers that is open a Leaf goes. With
/// the last descriptor that names it a description goes, and what it was open on is closed. Locks are let go by the caller.
///
/// The answer is the node whose pin the caller then drops, that of a FIFO too; None where no description of a node has gone.
pub fn close_one(
    heap: &mut KHeap,
    procs: &ProcTable,
    fifos: &mut FifoTable,
    place: Place,
    fd: u32,
) -> Option<u32>
    requires listed { AreListed heap.old procs.now }
    requires owners { HasItsOwners heap.old [] }
    requires chain { IsChain heap.old fifos.old }
    requires there { IsPlaced procs.now place }
    requires number { fd < most_descriptors }
    requires is_open { IsSome (named_at heap.old procs.now place.pid fd) }
    ensures closed { (numbers : Numbers) (files : Files) → HaveOpen numbers heap.old procs.now files
        → HaveOpen numbers heap.new procs.now (without_number files place.pid fd) }
    ensures nodes { OpensNoNode heap.old.descs → OpensNoNode heap.new.descs }
    ensures listed { AreListed heap.new procs.now }
    ensures owners { HasItsOwners heap.new [] }
    ensures chain { IsChain heap.new fifos.new }
    ensures closes { ClosesNumber heap.old heap.new procs.now place.pid fd }
    ensures node { (proc : HeldProc) → proc_of (processes heap.old procs.now) place.pid ≡ Some proc
        → result ≡ node_closed heap.old (slice_index_or (numbers_in heap.old proc) fd None) }
    ensures queues { QueuesStand heap.old heap.new }
    ensures takes { TakesNothing heap.old heap.new }
{
    let desc = clear_number(heap, procs, place, fd);
    close_desc(heap, fifos, desc)
}

// A number of a process that is open names nothing any more, in its Proc or its Leaf, which goes with the last of its numbers. The key
// of the Desc that it named, which is in hand then.
fn clear_number(heap: &mut KHeap, procs: &ProcTable, place: Place, fd: u32) -> u32
    requires listed { AreListed heap.old procs.now }
    requires there { IsPlaced procs.now place }
    requires number { fd < most_descriptors }
    requires is_open { IsSome (named_at heap.old procs.now place.pid fd) }
    ensures named { (held : HeldDescriptor) → named_at heap.old procs.now place.pid fd ≡ Some held → result ≡ held.desc }
    ensures turns { TurnsNumber heap.old heap.new procs.now place.pid fd None }
    ensures takes { TakesNothing heap.old heap.new }
{
    is_well_formed(heap);
    let proc = procs.at(heap, place);
    let mut descs = Descs::of(proc.descriptors, proc.leaves);
    let desc = descs.clear(heap, fd);
    heap.set_proc_numbers(place.key, descs.places(), descs.leaves());
    desc
}

// The heap is well formed: each row of its objects is as long as it was reserved.
pub(crate) fn is_well_formed(heap: &KHeap)
    ensures { IsWellFormed heap.now }
{
    let _ = heap.heap();
}
