//! `close`, and what is closed with a number, where a socket may lose its name.

ghost use Rattle.std.specs.Prelude.{◌≡◌, ◌≤◌, ℕ, [], None, OnErr, Some, length, pos};
ghost use Rattle.fifo_nodes.specs.Chain.{IsChain};
ghost use Rattle.kabi_types.specs.declared.scripts.Script.{Script};
ghost use Rattle.kheap_slabs.specs.Objects.{object};
ghost use Rattle.kheap_slabs.specs.Paid.{IsPaid, TakesNothing};
ghost use Rattle.lock_table.specs.Chain.{HoldsLocks, IsLockTable};
ghost use Rattle.memfs_ops.specs.Closing.{KeepsCached};
ghost use Rattle.memfs_ops.specs.FileTree.{TreeView};
ghost use Rattle.open_laws.specs.Described.{inode_in};
ghost use Rattle.open_laws.specs.Owned.{HasItsOwners, sock_of};
ghost use Rattle.open_laws.specs.Placed.{Numbers};
ghost use Rattle.posix_defs.specs.Calls.OnDescriptors.{close};
ghost use Rattle.posix_defs.specs.Files.Closing.{after_close};
ghost use Rattle.posix_defs.specs.Files.State.{Files, let_go};
ghost use Rattle.posix_defs.specs.Locks.{Locks};
ghost use Rattle.posix_defs.specs.Plain.{Plain};
ghost use Rattle.proc_table.specs.Table.{IsPlaced, TableView};
ghost use Rattle.proc_numbers.specs.Closed.{without_number};
ghost use Rattle.proc_numbers.specs.Found.{IsOpened};
ghost use Rattle.proc_numbers.specs.Having.{AreListed, node_closed};
ghost use Rattle.proc_numbers.specs.Naming.{named_at, named_by};
ghost use Rattle.proc_numbers.specs.Queues.{QueuesStand};
ghost use Rattle.proc_numbers.specs.Answering.{zero_of};
ghost use Rattle.proc_files.specs.Closing.{ChangesHolding, ClosesHolding, MayClose, with_locks_of};
ghost use Rattle.proc_files.specs.NameAnswering.{AnswersClosing};
ghost use Rattle.proc_files.specs.Names.{AreBound, name_of};
ghost use Rattle.proc_files.specs.SocketGoing.{socket_going, unnamed};
ghost use Rattle.proc_files.specs.NameHolding.{HoldNames, HoldSomeNames};

use crate::naming::take_name;
use bound_table::BoundTable;
use fifo_nodes::FifoTable;
use kabi_types::Errno;
use kheap_slabs::{Desc, KHeap, Purse, Target};
use lock_table::LockTable;
use memfs_ops::FileTree;
use proc_numbers::{Found, Named, close_one, opened};
use proc_table::{Place, ProcTable};

/// A process closes a number, whatever it is open on. With the last descriptor that names it a description goes, and what it was
/// open on is closed; a file without links goes with the last description of it, and a socket has no name when it goes. The process's
/// locks of a file go with any of its numbers that name that.
///
/// The purse pays for the blocks that this asks for, and is then as it was. EBADF where the number isn't open; nothing is changed
/// then.
///
/// <https://pubs.opengroup.org/onlinepubs/9699919799/functions/close.html>
pub fn close_number(
    heap: &mut KHeap,
    purse: &mut Purse,
    procs: &ProcTable,
    tree: &mut FileTree,
    names: &mut BoundTable,
    fifos: &mut FifoTable,
    locks: &mut LockTable,
    place: Place,
    on: &Named,
) -> Result<(), Errno>
    requires listed { AreListed heap.old procs.now }
    requires owners { HasItsOwners heap.old [] }
    requires chain { IsChain heap.old fifos.old }
    requires locked { IsLockTable heap.old.locks locks.old }
    requires there { IsPlaced procs.now place }
    requires opened { IsOpened heap.old procs.now place.pid on.now }
    requires hold { HoldSomeNames heap.old procs.now tree.old names.old }
    requires may { MayClose heap.old purse.old }
    ensures answers { (numbers : Numbers) (others : ℕ → ℕ) (script : Script) (plain : Plain)
        → HoldNames numbers others heap.old procs.now tree.old names.old plain.files
        → AnswersClosing numbers others heap.old heap.new locks.old locks.new procs.now tree.new names.new script plain place.pid
        (close script plain place.pid on.now.fd) (zero_of result) }
    ensures listed { AreListed heap.new procs.now }
    ensures owners { HasItsOwners heap.new [] }
    ensures chain { IsChain heap.new fifos.new }
    ensures locked { IsLockTable heap.new.locks locks.new }
    ensures hold { HoldSomeNames heap.new procs.now tree.new names.new }
    ensures changes { ChangesHolding heap.old heap.new procs.now place.pid }
    ensures places { length names.new ≡ length names.old }
    ensures queues { QueuesStand heap.old heap.new }
    ensures unchanged { OnErr result ((heap.new ≡ heap.old) × (tree.new ≡ tree.old) × (names.new ≡ names.old)) }
    ensures same { purse.new ≡ purse.old }
    ensures paid { IsPaid heap.old purse.old heap.new purse.new }
    ensures reads { tree.old.disk.reads ≤ tree.new.disk.reads }
    ensures stays { node_closed heap.old (named_by heap.old procs.now place.pid on.now.fd) ≡ None → tree.new ≡ tree.old }
{
    let Some(found) = on.found else {
        return Err(Errno::EBADF);
    };
    close_open(heap, purse, procs, tree, names, fifos, locks, place, &found);
    Ok(())
}

/// A process has a number open no more, whether it had it open or not: `dup2`, `exec` and the end of a process close by this. A
/// number that isn't open changes nothing.
///
/// The purse pays for the blocks that this asks for, and is then as it was.
pub(crate) fn close_at(
    heap: &mut KHeap,
    purse: &mut Purse,
    procs: &ProcTable,
    tree: &mut FileTree,
    names: &mut BoundTable,
    fifos: &mut FifoTable,
    locks: &mut LockTable,
    place: Place,
    fd: u32,
)
    requires listed { AreListed heap.old procs.now }
    requires owners { HasItsOwners heap.old [] }
    requires chain { IsChain heap.old fifos.old }
    requires locked { IsLockTable heap.old.locks locks.old }
    requires there { IsPlaced procs.now place }
    requires hold { HoldSomeNames heap.old procs.now tree.old names.old }
    requires may { MayClose heap.old purse.old }
    ensures closed { (numbers : Numbers) (others : ℕ → ℕ) (files : Files)
        → HoldNames numbers others heap.old procs.now tree.old names.old files
        → HoldNames numbers others heap.new procs.now tree.new names.new (after_close files place.pid fd) }
    ensures locks { (numbers : Numbers) (others : ℕ → ℕ) (files : Files)
        → HoldNames numbers others heap.old procs.now tree.old names.old files → HoldsLocks heap.old.locks locks.old files.locks
        → HoldsLocks heap.new.locks locks.new (after_close files place.pid fd).locks }
    ensures listed { AreListed heap.new procs.now }
    ensures owners { HasItsOwners heap.new [] }
    ensures chain { IsChain heap.new fifos.new }
    ensures locked { IsLockTable heap.new.locks locks.new }
    ensures hold { HoldSomeNames heap.new procs.now tree.new names.new }
    ensures closes { ClosesHolding (with_locks_of heap.old heap.new) heap.new procs.now place.pid fd }
    ensures places { length names.new ≡ length names.old }
    ensures queues { QueuesStand heap.old heap.new }
    ensures same { purse.new ≡ purse.old }
    ensures may { MayClose heap.new purse.new }
    ensures paid { IsPaid heap.old purse.old heap.new purse.new }
    ensures reads { tree.old.disk.reads ≤ tree.new.disk.reads }
    ensures stays { node_closed heap.old (named_at heap.old procs.now place.pid fd) ≡ None → tree.new ≡ tree.old }
    ensures cached { KeepsCached tree.old tree.new }
{
    let on = opened(heap, procs, place, i64::from(fd));
    let Some(found) = on.found else {
        return;
    };
    close_open(heap, purse, procs, tree, names, fifos, locks, place, &found);
}

// A process closes a number of which was found what it names, whatever that is open on: the one way to close.
//
// Its locks of the file go first, whatever else has that open.
// A socket that goes has no name before. With the last descriptor that names it a description goes, and what it was open on is
// closed; a file without links goes with the last description of it.
//
// The purse pays for the blocks that this asks for, and is then as it was.
fn close_open(
    heap: &mut KHeap,
    purse: &mut Purse,
    procs: &ProcTable,
    tree: &mut FileTree,
    names: &mut BoundTable,
    fifos: &mut FifoTable,
    locks: &mut LockTable,
    place: Place,
    found: &Found,
)
    requires listed { AreListed heap.old procs.now }
    requires owners { HasItsOwners heap.old [] }
    requires chain { IsChain heap.old fifos.old }
    requires locked { IsLockTable heap.old.locks locks.old }
    requires there { IsPlaced procs.now place }
    requires opened { IsOpened heap.old procs.now place.pid (record { fd = pos found.now.number; found = Some found.now }) }
    requires hold { HoldSomeNames heap.old procs.now tree.old names.old }
    requires may { MayClose heap.old purse.old }
    ensures closed { (numbers : Numbers) (others : ℕ → ℕ) (files : Files)
        → HoldNames numbers others heap.old procs.now tree.old names.old files
        → HoldNames numbers others heap.new procs.now tree.new names.new (after_close files place.pid found.now.number) }
    ensures locks { (numbers : Numbers) (others : ℕ → ℕ) (files : Files)
        → HoldNames numbers others heap.old procs.now tree.old names.old files → HoldsLocks heap.old.locks locks.old files.locks
        → HoldsLocks heap.new.locks locks.new (after_close files place.pid found.now.number).locks }
    ensures listed { AreListed heap.new procs.now }
    ensures owners { HasItsOwners heap.new [] }
    ensures chain { IsChain heap.new fifos.new }
    ensures locked { IsLockTable heap.new.locks locks.new }
    ensures hold { HoldSomeNames heap.new procs.now tree.new names.new }
    ensures closes { ClosesHolding (with_locks_of heap.old heap.new) heap.new procs.now place.pid found.now.number }
    ensures places { length names.new ≡ length names.old }
    ensures queues { QueuesStand heap.old heap.new }
    ensures same { purse.new ≡ purse.old }
    ensures may { MayClose heap.new purse.new }
    ensures paid { IsPaid heap.old purse.old heap.new purse.new }
    ensures reads { tree.old.disk.reads ≤ tree.new.disk.reads }
    ensures stays { node_closed heap.old (named_at heap.old procs.now place.pid found.now.number) ≡ None → tree.new ≡ tree.old }
    ensures cached { KeepsCached tree.old tree.new }
{
    unlock(heap, locks, place, found.desc.target);
    close_found(heap, purse, procs, tree, names, fifos, place, found);
}

// A process has no lock any more of the file that a target is, if it is one.
fn unlock(heap: &mut KHeap, locks: &mut LockTable, place: Place, target: Target)
    requires { IsLockTable heap.old.locks locks.old }
    ensures locks { (held : Locks) → HoldsLocks heap.old.locks locks.old held → HoldsLocks heap.new.locks locks.new (let_go held place.pid (inode_in target)) }
    ensures locked { IsLockTable heap.new.locks locks.new }
    ensures beside { heap.new ≡ with_locks_of heap.old heap.new }
    ensures takes { TakesNothing heap.old heap.new }
{
    // Most runs lock nothing.
    if locks.is_empty() {
        return;
    }
    let Target::Inode(node) = target else {
        return;
    };
    locks.drop_of(heap, node, place.pid);
}

// A process closes a number of which was found what it names, whatever that is open on. Its locks have gone before.
//
// A socket that goes has no name before. With the last descriptor that names it a description goes, and what it was open on is
// closed; a file without links goes with the last description of it.
//
// The purse pays for the blocks that this asks for, and is then as it was.
fn close_found(
    heap: &mut KHeap,
    purse: &mut Purse,
    procs: &ProcTable,
    tree: &mut FileTree,
    names: &mut BoundTable,
    fifos: &mut FifoTable,
    place: Place,
    found: &Found,
)
    requires listed { AreListed heap.old procs.now }
    requires owners { HasItsOwners heap.old [] }
    requires chain { IsChain heap.old fifos.old }
    requires there { IsPlaced procs.now place }
    requires opened { IsOpened heap.old procs.now place.pid (record { fd = pos found.now.number; found = Some found.now }) }
    requires hold { HoldSomeNames heap.old procs.now tree.old names.old }
    requires may { MayClose heap.old purse.old }
    ensures closed { (numbers : Numbers) (others : ℕ → ℕ) (files : Files)
        → HoldNames numbers others heap.old procs.now tree.old names.old files
        → HoldNames numbers others heap.new procs.now tree.new names.new (without_number files place.pid found.now.number) }
    ensures listed { AreListed heap.new procs.now }
    ensures owners { HasItsOwners heap.new [] }
    ensures chain { IsChain heap.new fifos.new }
    ensures hold { HoldSomeNames heap.new procs.now tree.new names.new }
    ensures closes { ClosesHolding heap.old heap.new procs.now place.pid found.now.number }
    ensures places { length names.new ≡ length names.old }
    ensures queues { QueuesStand heap.old heap.new }
    ensures same { purse.new ≡ purse.old }
    ensures may { MayClose heap.new purse.new }
    ensures paid { IsPaid heap.old purse.old heap.new purse.new }
    ensures reads { tree.old.disk.reads ≤ tree.new.disk.reads }
    ensures stays { node_closed heap.old (named_at heap.old procs.now place.pid found.now.number) ≡ None → tree.new ≡ tree.old }
    ensures cached { KeepsCached tree.old tree.new }
{
    unname_going(heap, names, found);
    let Some(node) = close_one(heap, procs, fifos, place, found.number) else {
        return;
    };
    tree.close_node(heap, purse, node);
}

// The socket that goes with a descriptor, if one does, has no name from now on.
fn unname_going(heap: &mut KHeap, names: &mut BoundTable, found: &Found)
    requires owners { HasItsOwners heap.old [] }
    requires there { object heap.old.descs found.now.key ≡ Some found.now.desc }
    requires bound { AreBound (name_of heap.old.socks) names.old }
    ensures hold { (numbers : Numbers) (others : ℕ → ℕ) (kept : TableView) (fs : TreeView) (files : Files)
        → HoldNames numbers others heap.old kept fs names.old files
        → HoldNames numbers others heap.new kept fs names.new (unnamed numbers files (socket_going found.now.desc)) }
    ensures owners { HasItsOwners heap.new [] }
    ensures places { length names.new ≡ length names.old }
    ensures beside { heap.new
        ≡ record heap.old { chunks = heap.new.chunks; socks = heap.new.socks; high = heap.new.high } }
    ensures queues { QueuesStand heap.old heap.new }
    ensures takes { TakesNothing heap.old heap.new }
{
    let Some(key) = socket_going(&found.desc) else {
        return;
    };
    let Some(node) = heap.get_sock(key).node else {
        return;
    };
    take_name(heap, names, key, node);
}

// The socket that goes with one descriptor less of a Desc, if one does.
fn socket_going(desc: &Desc) -> Option<u32>
    ensures { result ≡ socket_going desc.now }
{
    if desc.count == 1 {
        socket_of(desc.target)
    } else {
        None
    }
}

// The socket that a target is, if it is one.
fn socket_of(target: Target) -> Option<u32>
    ensures { result ≡ sock_of target }
{
    match target {
        Target::Sock(key) => Some(key),
        Target::Inode(_) | Target::Pipe(_) => None,
    }
}
