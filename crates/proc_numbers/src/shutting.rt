//! `listen` and `shutdown`.

ghost use Rattle.std.specs.Prelude.{◌≡◌, [], OnErr};
ghost use Rattle.kabi_types.specs.declared.scripts.Script.{Script};
ghost use Rattle.kheap_slabs.specs.Paid.{TakesNothing};
ghost use Rattle.open_laws.specs.Owned.{HasItsOwners};
ghost use Rattle.open_laws.specs.Placed.{Numbers};
ghost use Rattle.posix_defs.specs.Calls.OnSockets.{listen as plain_listen, shutdown as plain_shutdown};
ghost use Rattle.posix_defs.specs.Plain.{Plain};
ghost use Rattle.proc_table.specs.Table.{IsPlaced};
ghost use Rattle.proc_numbers.specs.Found.{IsOpened};
ghost use Rattle.proc_numbers.specs.Having.{AreListed, HaveOpen};
ghost use Rattle.proc_numbers.specs.Naming.{ChangesNumbers};
ghost use Rattle.proc_numbers.specs.Queues.{QueuesStand};
ghost use Rattle.proc_numbers.specs.Answering.{Answers, zero_of};

use crate::lookups::Named;
use kabi_types::Errno;
use kheap_slabs::KHeap;
use proc_table::{Place, ProcTable};
use usock_core::{listen, shutdown};

/// The socket that a number of a process is open on listens from now on; one that listens already goes on.
///
/// EBADF where the number isn't open, ENOTSOCK where it is open on something else, EINVAL where the socket is connected,
/// EDESTADDRREQ where it has no name; nothing is changed then.
///
/// <https://pubs.opengroup.org/onlinepubs/9699919799/functions/listen.html>
pub fn listen_number(
    heap: &mut KHeap,
    procs: &ProcTable,
    place: Place,
    on: &Named,
) -> Result<(), Errno>
    requires listed { AreListed heap.old procs.now }
    requires owners { HasItsOwners heap.old [] }
    requires there { IsPlaced procs.now place }
    requires opened { IsOpened heap.old procs.now place.pid on.now }
    ensures answers { (numbers : Numbers) (script : Script) (plain : Plain) → HaveOpen numbers heap.old procs.now plain.files
        → Answers numbers heap.new procs.now script plain place.pid (plain_listen script plain place.pid on.now.fd) (zero_of result) }
    ensures listed { AreListed heap.new procs.now }
    ensures owners { HasItsOwners heap.new [] }
    ensures changes { ChangesNumbers heap.old heap.new procs.now place.pid }
    ensures beside { heap.new
        ≡ record heap.old { chunks = heap.new.chunks; socks = heap.new.socks; high = heap.new.high } }
    ensures unchanged { OnErr result (heap.new ≡ heap.old) }
    ensures queues { QueuesStand heap.old heap.new }
    ensures takes { TakesNothing heap.old heap.new }
{
    match on.socket() {
        Ok(found) => listen(heap, found.key),
        Err(errno) => Err(errno),
    }
}

/// The socket that a number of a process is open on is shut for reading (SHUT_RD 0), for writing (SHUT_WR 1) or both
/// (SHUT_RDWR 2). One that is shut for reading drops the bytes that are there. Any other `how` shuts nothing.
///
/// EBADF where the number isn't open, ENOTSOCK where it is open on something else, ENOTCONN where the socket isn't connected;
/// nothing is changed then.
///
/// <https://pubs.opengroup.org/onlinepubs/9699919799/functions/shutdown.html>
pub fn shut_number(
    heap: &mut KHeap,
    procs: &ProcTable,
    place: Place,
    on: &Named,
    how: i64,
) -> Result<(), Errno>
    requires listed { AreListed heap.old procs.now }
    requires owners { HasItsOwners heap.old [] }
    requires there { IsPlaced procs.now place }
    requires opened { IsOpened heap.old procs.now place.pid on.now }
    ensures answers { (numbers : Numbers) (script : Script) (plain : Plain) → HaveOpen numbers heap.old procs.now plain.files
        → Answers numbers heap.new procs.now script plain place.pid (plain_shutdown script plain place.pid on.now.fd how) (zero_of result) }
    ensures listed { AreListed heap.new procs.now }
    ensures owners { HasItsOwners heap.new [] }
    ensures changes { ChangesNumbers heap.old heap.new procs.now place.pid }
    ensures beside { heap.new
        ≡ record heap.old { chunks = heap.new.chunks; socks = heap.new.socks; high = heap.new.high } }
    ensures unchanged { OnErr result (heap.new ≡ heap.old) }
    ensures queues { QueuesStand heap.old heap.new }
    ensures takes { TakesNothing heap.old heap.new }
{
    match on.socket() {
        Ok(found) => shutdown(heap, found.key, how),
        Err(errno) => Err(errno),
    }
}
