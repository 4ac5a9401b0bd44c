//! `accept`.

ghost use Rattle.std.specs.Prelude.{◌≡◌, ◌-◌, ◌<◌, ℕ, ℤ, [], Ok};
ghost use Rattle.std.specs.List.{Contains};
ghost use Rattle.kabi_types.specs.declared.scripts.Script.{Script};
ghost use Rattle.kabi_types.specs.declared.classes.Class.TheVariants as class;
ghost use Rattle.kabi_types.specs.Counts.{with_count};
ghost use Rattle.kheap_slabs.specs.Paid.{CanPay, IsPaid};
ghost use Rattle.open_laws.specs.Owned.{HasItsOwners, socks_named};
ghost use Rattle.open_laws.specs.Placed.{Numbers};
ghost use Rattle.posix_defs.specs.Answer.{Answer};
ghost use Rattle.posix_defs.specs.Calls.OnSockets.{accept as plain_accept};
ghost use Rattle.posix_defs.specs.Calls.Opened.{Opened};
ghost use Rattle.posix_defs.specs.Machine.{blocks};
ghost use Rattle.posix_defs.specs.Plain.{Plain};
ghost use Rattle.proc_table.specs.Table.{IsPlaced};
ghost use Rattle.proc_numbers.specs.Found.{IsOpened};
ghost use Rattle.proc_numbers.specs.Having.{AreListed, HaveOpen, OpensNoNode};
ghost use Rattle.proc_numbers.specs.Naming.{ChangesNumbers};
ghost use Rattle.proc_numbers.specs.Queues.{QueuesStand};
ghost use Rattle.proc_numbers.specs.Finding.{FindsSocket};
ghost use Rattle.proc_numbers.specs.SocketOpening.{Accepts, IfTaken, StillUsed, UnlessTaken};

use crate::describing::open_on;
use crate::finding::{OpenSocket, lowest_from};
use crate::lookups::Named;
use kabi_types::Errno;
use kheap_slabs::{KHeap, Purse};
use proc_table::{Place, ProcTable};
use usock_core::{Accepted, accept};

/// The lowest number of a process that is free names the socket that waited first for the one that a number is open on. That
/// number; None where it would have to wait.
///
/// EBADF where the number isn't open, ENOTSOCK where it is open on something else, EINVAL where the socket doesn't listen, EMFILE
/// where no number is free, EAGAIN where none waits and the caller doesn't wait. Nothing is changed but where one is taken.
///
/// <https://pubs.opengroup.org/onlinepubs/9699919799/functions/accept.html>
pub fn accept_number(
    heap: &mut KHeap,
    purse: &mut Purse,
    procs: &ProcTable,
    place: Place,
    on: &Named,
) -> Result<Option<u32>, Errno>
    requires listed { AreListed heap.old procs.now }
    requires owners { HasItsOwners heap.old [] }
    requires there { IsPlaced procs.now place }
    requires opened { IsOpened heap.old procs.now place.pid on.now }
    requires pays { CanPay heap.old purse.old }
    requires left { 0 < purse.old.left.desc }
    requires left_leaf { 0 < purse.old.left.leaf }
    ensures answers { (numbers : Numbers) (script : Script) (plain : Plain) → HaveOpen numbers heap.old procs.now plain.files
        → Accepts numbers heap.old heap.new procs.now script plain place.pid (plain_accept script plain place.pid on.now.fd) result }
    ensures nodes { OpensNoNode heap.old.descs → OpensNoNode heap.new.descs }
    ensures listed { AreListed heap.new procs.now }
    ensures owners { HasItsOwners heap.new [] }
    ensures changes { ChangesNumbers heap.old heap.new procs.now place.pid }
    ensures still { StillUsed heap.old heap.new }
    ensures queues { QueuesStand heap.old heap.new }
    ensures unchanged { UnlessTaken result ((heap.new ≡ heap.old) × (purse.new ≡ purse.old)) }
    ensures paid { IsPaid heap.old purse.old heap.new purse.new }
    ensures pays { CanPay heap.new purse.new }
    ensures spent { IfTaken result (purse.new
        ≡ record purse.old { left = with_count (with_count purse.old.left class.Desc (purse.old.left.desc - 1)) class.Leaf purse.new.left.leaf }) }
{
    match on.socket() {
        Ok(found) => accept_on(heap, purse, procs, place, found),
        Err(errno) => Err(errno),
    }
}

/// Whether an `accept` would have to wait.
pub fn accept_waits(heap: &KHeap, procs: &ProcTable, place: Place, on: &Named) -> bool
    requires listed { AreListed heap.now procs.now }
    requires owners { HasItsOwners heap.now [] }
    requires there { IsPlaced procs.now place }
    requires opened { IsOpened heap.now procs.now place.pid on.now }
    ensures { (numbers : Numbers) (script : Script) (plain : Plain) → HaveOpen numbers heap.now procs.now plain.files
        → result ≡ blocks (plain_accept script plain place.pid on.now.fd) }
{
    let Ok(found) = on.socket() else {
        return false;
    };
    let lowest = lowest_from(heap, procs, place, 0);
    usock_core::accept_waits(heap, found.key, lowest.is_some(), found.nonblock)
}

// The lowest number of a process that is free names the socket that waited first for this one; None where it would have to wait.
fn accept_on(
    heap: &mut KHeap,
    purse: &mut Purse,
    procs: &ProcTable,
    place: Place,
    on: OpenSocket,
) -> Result<Option<u32>, Errno>
    requires listed { AreListed heap.old procs.now }
    requires owners { HasItsOwners heap.old [] }
    requires there { IsPlaced procs.now place }
    requires named { Contains (socks_named heap.old.descs) on.key }
    requires pays { CanPay heap.old purse.old }
    requires left { 0 < purse.old.left.desc }
    requires left_leaf { 0 < purse.old.left.leaf }
    ensures answers { (numbers : Numbers) (script : Script) (plain : Plain) (fd : ℤ) → HaveOpen numbers heap.old procs.now plain.files
        → ((answer : Opened → ℕ → Answer) → FindsSocket numbers script plain place.pid fd answer (Ok on))
        → Accepts numbers heap.old heap.new procs.now script plain place.pid (plain_accept script plain place.pid fd) result }
    ensures nodes { OpensNoNode heap.old.descs → OpensNoNode heap.new.descs }
    ensures listed { AreListed heap.new procs.now }
    ensures owners { HasItsOwners heap.new [] }
    ensures changes { ChangesNumbers heap.old heap.new procs.now place.pid }
    ensures still { StillUsed heap.old heap.new }
    ensures queues { QueuesStand heap.old heap.new }
    ensures unchanged { UnlessTaken result ((heap.new ≡ heap.old) × (purse.new ≡ purse.old)) }
    ensures paid { IsPaid heap.old purse.old heap.new purse.new }
    ensures pays { CanPay heap.new purse.new }
    ensures spent { IfTaken result (purse.new
        ≡ record purse.old { left = with_count (with_count purse.old.left class.Desc (purse.old.left.desc - 1)) class.Leaf purse.new.left.leaf }) }
{
    let lowest = lowest_from(heap, procs, place, 0);
    match accept(heap, on.key, lowest.is_some(), on.nonblock) {
        Accepted::Took(taken) => {
            let Some(number) = lowest else {
                unreachable!();
            };
            open_on(heap, purse, procs, place, number, taken);
            Ok(Some(number))
        }
        Accepted::Blocked => Ok(None),
        Accepted::Fault(errno) => Err(errno),
    }
}
