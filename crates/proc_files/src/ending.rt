//! What a process has open is closed at its end, and by `exec`.

ghost use Rattle.std.specs.Prelude.{◌≡◌, ◌<◌, ◌≤◌, ℕ, [], None, Some, false, if◌then◌else◌, is_none, is_some, length, true};
ghost use Rattle.std.specs.List.{list_all, list_any};
ghost use Rattle.fifo_nodes.specs.Chain.{IsChain};
ghost use Rattle.kheap_slabs.specs.Paid.{IsPaid};
ghost use Rattle.kheap_slabs.specs.declared.objects.Proc.{Proc as HeldProc};
ghost use Rattle.lock_table.specs.Chain.{HoldsLocks, IsLockTable};
ghost use Rattle.memfs_ops.specs.Closing.{KeepsCached};
ghost use Rattle.open_laws.specs.Owned.{HasItsOwners};
ghost use Rattle.open_laws.specs.Placed.{Numbers};
ghost use Rattle.posix_defs.specs.Files.Closing.{after_close, after_exec_of};
ghost use Rattle.posix_defs.specs.Files.State.{Files};
ghost use Rattle.posix_defs.specs.Reaching.{ends_node};
ghost use Rattle.kabi_types.specs.Arguments.{most_descriptors};
ghost use Rattle.proc_table.specs.Procs.{OpensNone, proc_of};
ghost use Rattle.proc_table.specs.Table.{IsPlaced, processes};
ghost use Rattle.proc_numbers.specs.Having.{AreListed};
ghost use Rattle.proc_numbers.specs.Naming.{named_at, places_of};
ghost use Rattle.proc_numbers.specs.Queues.{QueuesStand};
ghost use Rattle.proc_files.specs.Closing.{ChangesHolding, MayClose};
ghost use Rattle.proc_files.specs.Holders.{openings};
ghost use Rattle.proc_files.specs.Ending.{ClosesEach, ClosesIf, ClosesMarked, OnlyGoes, closed_each, closed_where, goes_at_exec, has_mark, is_marked};
ghost use Rattle.proc_files.specs.NameHolding.{HoldNames, HoldSomeNames};

use crate::closing::close_at;
use crate::nodes::is_well_formed;
use bound_table::BoundTable;
use desc_table::descriptor_of;
use fifo_nodes::FifoTable;
use kabi_types::MOST_DESCRIPTORS;
use kheap_slabs::{Descriptor, KHeap, Purse};
use lock_table::LockTable;
use memfs_ops::FileTree;
use proc_table::{Place, ProcTable};

/// A process has nothing open any more: it closes all its numbers, the lowest first, as one does that ends. A file without links
/// goes with the last description of it; where no description of a node goes, the tree is as it was.
///
/// The purse pays for the blocks that this asks for, and is then as it was.
///
/// <https://pubs.opengroup.org/onlinepubs/9699919799/functions/_exit.html>
pub fn close_each(
    heap: &mut KHeap,
    purse: &mut Purse,
    procs: &ProcTable,
    tree: &mut FileTree,
    names: &mut BoundTable,
    fifos: &mut FifoTable,
    locks: &mut LockTable,
    place: Place,
)
    requires listed { AreListed heap.old procs.now }
    requires owners { HasItsOwners heap.old [] }
    requires chain { IsChain heap.old fifos.old }
    requires locked { IsLockTable heap.old.locks locks.old }
    requires there { IsPlaced procs.now place }
    requires hold { HoldSomeNames heap.old procs.now tree.old names.old }
    requires may { MayClose heap.old purse.old }
    ensures closed { (numbers : Numbers) (others : ℕ → ℕ) (files : Files)
        → HoldNames numbers others heap.old procs.now tree.old names.old files
        → HoldNames numbers others heap.new procs.now tree.new names.new (closed_each files place.pid) }
    ensures locks { (numbers : Numbers) (others : ℕ → ℕ) (files : Files)
        → HoldNames numbers others heap.old procs.now tree.old names.old files → HoldsLocks heap.old.locks locks.old files.locks
        → HoldsLocks heap.new.locks locks.new (closed_each files place.pid).locks }
    ensures listed { AreListed heap.new procs.now }
    ensures owners { HasItsOwners heap.new [] }
    ensures chain { IsChain heap.new fifos.new }
    ensures locked { IsLockTable heap.new.locks locks.new }
    ensures hold { HoldSomeNames heap.new procs.now tree.new names.new }
    ensures closes { ClosesEach heap.old heap.new procs.now place.pid }
    ensures places { length names.new ≡ length names.old }
    ensures queues { QueuesStand heap.old heap.new }
    ensures same { purse.new ≡ purse.old }
    ensures may { MayClose heap.new purse.new }
    ensures paid { IsPaid heap.old purse.old heap.new purse.new }
    ensures reads { tree.old.disk.reads ≤ tree.new.disk.reads }
    ensures stays { (numbers : Numbers) (others : ℕ → ℕ) (files : Files)
        → HoldNames numbers others heap.old procs.now tree.old names.old files → ends_node files (closed_each files place.pid) ≡ false
        → tree.new ≡ tree.old }
{
    // Most processes that end have nothing open.
    if has_none_open(heap, procs, place) {
        return;
    }
    let marks = all_marks();
    let below = reach_of(heap, procs, place);
    close_marked(
        heap, purse, procs, tree, names, fifos, locks, place, &marks, below,
    );
    is_well_formed(heap);
}

/// A process closes the numbers that `exec` closes (FD_CLOEXEC), the lowest first. A file without links goes with the last
/// description of it; where no description of a node goes, the tree is as it was.
///
/// The purse pays for the blocks that this asks for, and is then as it was.
///
/// <https://pubs.opengroup.org/onlinepubs/9699919799/functions/exec.html>
pub fn close_at_exec(
    heap: &mut KHeap,
    purse: &mut Purse,
    procs: &ProcTable,
    tree: &mut FileTree,
    names: &mut BoundTable,
    fifos: &mut FifoTable,
    locks: &mut LockTable,
    place: Place,
)
    requires listed { AreListed heap.old procs.now }
    requires owners { HasItsOwners heap.old [] }
    requires chain { IsChain heap.old fifos.old }
    requires locked { IsLockTable heap.old.locks locks.old }
    requires there { IsPlaced procs.now place }
    requires hold { HoldSomeNames heap.old procs.now tree.old names.old }
    requires may { MayClose heap.old purse.old }
    ensures closed { (numbers : Numbers) (others : ℕ → ℕ) (files : Files)
        → HoldNames numbers others heap.old procs.now tree.old names.old files
        → HoldNames numbers others heap.new procs.now tree.new names.new (after_exec_of files place.pid) }
    ensures locks { (numbers : Numbers) (others : ℕ → ℕ) (files : Files)
        → HoldNames numbers others heap.old procs.now tree.old names.old files → HoldsLocks heap.old.locks locks.old files.locks
        → HoldsLocks heap.new.locks locks.new (after_exec_of files place.pid).locks }
    ensures listed { AreListed heap.new procs.now }
    ensures owners { HasItsOwners heap.new [] }
    ensures chain { IsChain heap.new fifos.new }
    ensures locked { IsLockTable heap.new.locks locks.new }
    ensures hold { HoldSomeNames heap.new procs.now tree.new names.new }
    ensures changes { ChangesHolding heap.old heap.new procs.now place.pid }
    ensures places { length names.new ≡ length names.old }
    ensures queues { QueuesStand heap.old heap.new }
    ensures same { purse.new ≡ purse.old }
    ensures may { MayClose heap.new purse.new }
    ensures paid { IsPaid heap.old purse.old heap.new purse.new }
    ensures reads { tree.old.disk.reads ≤ tree.new.disk.reads }
    ensures stays { (numbers : Numbers) (others : ℕ → ℕ) (files : Files)
        → HoldNames numbers others heap.old procs.now tree.old names.old files → ends_node files (after_exec_of files place.pid) ≡ false
        → tree.new ≡ tree.old }
    ensures cached { KeepsCached tree.old tree.new }
{
    let below = reach_of(heap, procs, place);
    let marks = marks_of(heap, procs, place, below);
    close_marked(
        heap, purse, procs, tree, names, fifos, locks, place, &marks, below,
    );
}

// Whether nothing is open in a process.
fn has_none_open(heap: &KHeap, procs: &ProcTable, place: Place) -> bool
    requires listed { AreListed heap.now procs.now }
    requires there { IsPlaced procs.now place }
    ensures { result ≡ true → (proc : HeldProc) → proc_of (processes heap.now procs.now) place.pid ≡ Some proc → OpensNone proc }
{
    is_well_formed(heap);
    let proc = procs.at(heap, place);
    !has_leaf(&proc.leaves) && are_none(&proc.descriptors)
}

fn are_none(places: &[Option<Descriptor>; 32]) -> bool
    ensures { result ≡ list_all is_none places.now }
{
    places.iter().all(Option::is_none)
}

// Whether one of a process's Leaves is there.
fn has_leaf(leaves: &[Option<u32>; 3]) -> bool
    ensures { result ≡ list_any is_some leaves.now }
{
    leaves.iter().any(Option::is_some)
}

// The number from which on none is open, if not one: without a Leaf that is the first behind those of the Proc.
fn reach_of(heap: &KHeap, procs: &ProcTable, place: Place) -> u32
    requires listed { AreListed heap.now procs.now }
    requires there { IsPlaced procs.now place }
    ensures within { result ≤ most_descriptors }
    ensures rest { (fd : ℕ) → result ≤ fd → named_at heap.now procs.now place.pid fd ≡ None }
{
    is_well_formed(heap);
    if has_leaf(&procs.at(heap, place).leaves) {
        MOST_DESCRIPTORS
    } else {
        32
    }
}

// Which of the numbers below one `exec` closes.
fn marks_of(heap: &KHeap, procs: &ProcTable, place: Place, below: u32) -> [bool; 128]
    requires listed { AreListed heap.now procs.now }
    requires there { IsPlaced procs.now place }
    requires within { below ≤ most_descriptors }
    ensures below { (fd : ℕ) → fd < below → is_marked result fd ≡ goes_at_exec (places_of heap.now procs.now place.pid) fd }
    ensures behind { (fd : ℕ) → below ≤ fd → is_marked result fd ≡ false }
{
    is_well_formed(heap);
    let proc = procs.at(heap, place);
    let mut marks = [false; 128];
    for fd in 0..below {
        marks[fd as usize] = closes_at_exec(descriptor_of(heap, proc, fd));
    }
    marks
}

// All numbers are marked.
fn all_marks() -> [bool; 128]
    ensures { (fd : ℕ) → fd < most_descriptors → is_marked result fd ≡ true }
{
    [true; 128]
}

// Whether a number is marked.
fn mark_at(marks: &[bool; 128], fd: u32) -> bool
    requires { fd < most_descriptors }
    ensures { result ≡ is_marked marks.now fd }
{
    marks[fd as usize]
}

// Whether `exec` closes what a number names.
fn closes_at_exec(place: Option<Descriptor>) -> bool
    ensures { result ≡ has_mark place }
{
    match place {
        Some(descriptor) => descriptor.close_on_exec,
        None => false,
    }
}

// A process closes the numbers below one that are marked, the lowest first.
fn close_marked(
    heap: &mut KHeap,
    purse: &mut Purse,
    procs: &ProcTable,
    tree: &mut FileTree,
    names: &mut BoundTable,
    fifos: &mut FifoTable,
    locks: &mut LockTable,
    place: Place,
    marks: &[bool; 128],
    below: u32,
)
    requires listed { AreListed heap.old procs.now }
    requires owners { HasItsOwners heap.old [] }
    requires chain { IsChain heap.old fifos.old }
    requires locked { IsLockTable heap.old.locks locks.old }
    requires there { IsPlaced procs.now place }
    requires hold { HoldSomeNames heap.old procs.now tree.old names.old }
    requires within { below ≤ most_descriptors }
    requires may { MayClose heap.old purse.old }
    ensures closed { (numbers : Numbers) (others : ℕ → ℕ) (files : Files)
        → HoldNames numbers others heap.old procs.now tree.old names.old files
        → HoldNames numbers others heap.new procs.now tree.new names.new (closed_where (is_marked marks.now) files place.pid below) }
    ensures locks { (numbers : Numbers) (others : ℕ → ℕ) (files : Files)
        → HoldNames numbers others heap.old procs.now tree.old names.old files → HoldsLocks heap.old.locks locks.old files.locks
        → HoldsLocks heap.new.locks locks.new (closed_where (is_marked marks.now) files place.pid below).locks }
    ensures listed { AreListed heap.new procs.now }
    ensures owners { HasItsOwners heap.new [] }
    ensures chain { IsChain heap.new fifos.new }
    ensures locked { IsLockTable heap.new.locks locks.new }
    ensures hold { HoldSomeNames heap.new procs.now tree.new names.new }
    ensures closes { ClosesMarked heap.old heap.new procs.now place.pid (is_marked marks.now) below }
    ensures places { length names.new ≡ length names.old }
    ensures queues { QueuesStand heap.old heap.new }
    ensures same { purse.new ≡ purse.old }
    ensures may { MayClose heap.new purse.new }
    ensures paid { IsPaid heap.old purse.old heap.new purse.new }
    ensures reads { tree.old.disk.reads ≤ tree.new.disk.reads }
    ensures goes { (numbers : Numbers) (others : ℕ → ℕ) (files : Files)
        → HoldNames numbers others heap.old procs.now tree.old names.old files
        → OnlyGoes files (closed_where (is_marked marks.now) files place.pid below) }
    ensures stays { (numbers : Numbers) (others : ℕ → ℕ) (files : Files)
        → HoldNames numbers others heap.old procs.now tree.old names.old files
        → ((number : ℕ) → openings (closed_where (is_marked marks.now) files place.pid below) number ≡ openings files number)
        → tree.new ≡ tree.old }
    ensures cached { KeepsCached tree.old tree.new }
{
    for fd in 0..below {
        let marked = mark_at(marks, fd);
        close_if(
            heap, purse, procs, tree, names, fifos, locks, place, fd, marked,
        );
    }
}

// A process closes a number, if that is marked.
fn close_if(
    heap: &mut KHeap,
    purse: &mut Purse,
    procs: &ProcTable,
    tree: &mut FileTree,
    names: &mut BoundTable,
    fifos: &mut FifoTable,
    locks: &mut LockTable,
    place: Place,
    fd: u32,
    marked: bool,
)
    requires listed { AreListed heap.old procs.now }
    requires owners { HasItsOwners heap.old [] }
    requires chain { IsChain heap.old fifos.old }
    requires locked { IsLockTable heap.old.locks locks.old }
    requires there { IsPlaced procs.now place }
    requires hold { HoldSomeNames heap.old procs.now tree.old names.old }
    requires may { MayClose heap.old purse.old }
    ensures closed { (numbers : Numbers) (others : ℕ → ℕ) (files : Files)
        → HoldNames numbers others heap.old procs.now tree.old names.old files
        → HoldNames numbers others heap.new procs.now tree.new names.new (if marked then after_close files place.pid fd else files) }
    ensures locks { (numbers : Numbers) (others : ℕ → ℕ) (files : Files)
        → HoldNames numbers others heap.old procs.now tree.old names.old files → HoldsLocks heap.old.locks locks.old files.locks
        → HoldsLocks heap.new.locks locks.new (if marked then after_close files place.pid fd else files).locks }
    ensures listed { AreListed heap.new procs.now }
    ensures owners { HasItsOwners heap.new [] }
    ensures chain { IsChain heap.new fifos.new }
    ensures locked { IsLockTable heap.new.locks locks.new }
    ensures hold { HoldSomeNames heap.new procs.now tree.new names.new }
    ensures closes { ClosesIf heap.old heap.new procs.now place.pid fd marked }
    ensures places { length names.new ≡ length names.old }
    ensures queues { QueuesStand heap.old heap.new }
    ensures same { purse.new ≡ purse.old }
    ensures may { MayClose heap.new purse.new }
    ensures paid { IsPaid heap.old purse.old heap.new purse.new }
    ensures reads { tree.old.disk.reads ≤ tree.new.disk.reads }
    ensures goes { (numbers : Numbers) (others : ℕ → ℕ) (files : Files)
        → HoldNames numbers others heap.old procs.now tree.old names.old files
        → OnlyGoes files (if marked then after_close files place.pid fd else files) }
    ensures stays { (numbers : Numbers) (others : ℕ → ℕ) (files : Files)
        → HoldNames numbers others heap.old procs.now tree.old names.old files
        → ((number : ℕ) → openings (if marked then after_close files place.pid fd else files) number ≡ openings files number)
        → tree.new ≡ tree.old }
    ensures cached { KeepsCached tree.old tree.new }
{
    if !marked {
        return;
    }
    close_at(heap, purse, procs, tree, names, fifos, locks, place, fd);
}
