//! `listen` and `shutdown`.

ghost use Rattle.std.specs.Prelude.{◌≡◌};
ghost use Rattle.kabi_types.specs.declared.calls.Call.{Call};
ghost use Rattle.kheap_slabs.specs.Paid.{TakesNothing};
ghost use Rattle.posix_defs.specs.Calls.OnSockets.{listen, shutdown};
ghost use Rattle.proc_numbers.specs.Answering.{zero_of};
ghost use Rattle.posix_defs.specs.World.{World};
ghost use Rattle.proc_numbers.specs.Found.{IsOpened};
ghost use Rattle.proc_table.specs.Table.{IsPlaced};
ghost use Rattle.store_objects.specs.Objects.{AreKept, Runs};
ghost use Rattle.store_objects.specs.Standing.{Performs, StandsFor};

use kabi_types::{Errno, Reply, Script};
use posix_defs::Turned;
use proc_numbers::{Named, listen_number, shut_number};
use store_objects::{Caller, Objects, go_on};

/// Has a socket listen from now on; one that listens already goes on. EBADF where the number isn't open, ENOTSOCK where it is open
/// on something else, EINVAL where the socket is connected, EDESTADDRREQ where it has no name.
///
/// <https://pubs.opengroup.org/onlinepubs/9699919799/functions/listen.html>
#[inline(never)]
pub fn listen(script: &Script, objects: &mut Objects, caller: &Caller, on: &Named) -> Turned
    requires stands { (world : World) × StandsFor script.now objects.old world }
    requires runs { Runs objects.old caller.now.place.pid caller.now.control }
    requires placed { IsPlaced objects.old.procs caller.now.place }
    requires opened { IsOpened objects.old.heap objects.old.procs caller.now.place.pid on.now }
    ensures kept { AreKept script.now objects.new }
    ensures takes { TakesNothing objects.old.heap objects.new.heap }
    ensures does { Performs script.now objects.old caller.now.place.pid (Call.Listen on.now.fd) (λ plain. listen script.now plain caller.now.place.pid on.now.fd) result objects.new }
{
    let reply = zero(listen_number(&mut objects.heap, &objects.procs, caller.place, on));
    go_on(script, objects, caller, reply)
}

/// Shuts a socket for reading (SHUT_RD 0), for writing (SHUT_WR 1) or both (SHUT_RDWR 2). EBADF where the number isn't open,
/// ENOTSOCK where it is open on something else, ENOTCONN where the socket isn't connected.
///
/// <https://pubs.opengroup.org/onlinepubs/9699919799/functions/shutdown.html>
#[inline(never)]
pub fn shutdown(
    script: &Script,
    objects: &mut Objects,
    caller: &Caller,
    on: &Named,
    how: i64,
) -> Turned
    requires stands { (world : World) × StandsFor script.now objects.old world }
    requires runs { Runs objects.old caller.now.place.pid caller.now.control }
    requires placed { IsPlaced objects.old.procs caller.now.place }
    requires opened { IsOpened objects.old.heap objects.old.procs caller.now.place.pid on.now }
    ensures kept { AreKept script.now objects.new }
    ensures takes { TakesNothing objects.old.heap objects.new.heap }
    ensures does { Performs script.now objects.old caller.now.place.pid (Call.Shutdown on.now.fd how) (λ plain. shutdown script.now plain caller.now.place.pid on.now.fd how) result objects.new }
{
    let reply = zero(shut_number(&mut objects.heap, &objects.procs, caller.place, on, how));
    go_on(script, objects, caller, reply)
}

// 0, or why the call failed.
fn zero(done: Result<(), Errno>) -> Reply
    ensures { result ≡ zero_of done }
{
    match done {
        Ok(()) => Reply::Val(0),
        Err(errno) => Reply::Fail(errno),
    }
}
