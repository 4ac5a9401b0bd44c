//! `accept`.

ghost use Rattle.std.specs.Prelude.{◌≡◌, ◌<◌, true};
ghost use Rattle.kabi_types.specs.declared.calls.Call.{Call};
ghost use Rattle.kabi_types.specs.declared.scripts.Script.{Script};
ghost use Rattle.kheap_slabs.specs.Paid.{CanPay, IsPaid};
ghost use Rattle.posix_defs.specs.Calls.OnSockets.{accept};
ghost use Rattle.posix_defs.specs.Machine.{blocks, machine};
ghost use Rattle.posix_defs.specs.Process.{is_alive};
ghost use Rattle.posix_defs.specs.World.{World};
ghost use Rattle.queue_calls.specs.Taking.{told_as};
ghost use Rattle.proc_numbers.specs.Found.{IsOpened};
ghost use Rattle.proc_table.specs.Table.{IsPlaced};
ghost use Rattle.store_objects.specs.Objects.{AreKept, Runs};
ghost use Rattle.store_objects.specs.Standing.{Performs, StandsFor};

use kabi_types::{Errno, Reply, Script};
use kheap_slabs::Purse;
use posix_defs::Turned;
use proc_numbers::{Named, accept_number, accept_waits, opened};
use proc_table::Place;
use store_objects::{Caller, Objects, go_on};

/// Takes the socket that waited first for the one that a number is open on: the lowest number that is free names it, and is told.
/// It sleeps where none waits (POSIX accept).
///
/// EBADF where the number isn't open, ENOTSOCK where it is open on something else, EINVAL where the socket doesn't listen, EMFILE
/// where no number is free, EAGAIN in place of a sleep where the description has O_NONBLOCK.
///
/// <https://pubs.opengroup.org/onlinepubs/9699919799/functions/accept.html>
#[inline(never)]
pub fn accept(
    script: &Script,
    objects: &mut Objects,
    purse: &mut Purse,
    caller: &Caller,
    on: &Named,
) -> Turned
    requires stands { (world : World) × StandsFor script.now objects.old world }
    requires runs { Runs objects.old caller.now.place.pid caller.now.control }
    requires placed { IsPlaced objects.old.procs caller.now.place }
    requires opened { IsOpened objects.old.heap objects.old.procs caller.now.place.pid on.now }
    requires room { CanPay objects.old.heap purse.old }
    requires left_desc { 0 < purse.old.left.desc }
    requires left_leaf { 0 < purse.old.left.leaf }
    ensures kept { AreKept script.now objects.new }
    ensures paid { IsPaid objects.old.heap purse.old objects.new.heap purse.new }
    ensures does { Performs script.now objects.old caller.now.place.pid (Call.Accept on.now.fd) (λ plain. accept script.now plain caller.now.place.pid on.now.fd) result objects.new }
{
    let taken = accept_number(&mut objects.heap, purse, &objects.procs, caller.place, on);
    match told(taken) {
        Some(reply) => go_on(script, objects, caller, reply),
        None => Turned::Sleep,
    }
}

/// Whether an `accept` of a live process would sleep, whatever its operand is.
pub fn accept_would_block(objects: &Objects, place: Place, fd: i64) -> bool
    requires stands { (script : Script) × (world : World) × StandsFor script objects.now world × (is_alive world.plain.table place.pid ≡ true) }
    requires there { IsPlaced objects.now.procs place }
    ensures { (script : Script) (world : World) → StandsFor script objects.now world
        → result ≡ blocks (machine script world.plain place.pid (Call.Accept fd)) }
{
    let on = opened(&objects.heap, &objects.procs, place, fd);
    accept_waits(&objects.heap, &objects.procs, place, &on)
}

// The number of the socket that was taken, or why there is none; None where the caller has to wait for one.
fn told(taken: Result<Option<u32>, Errno>) -> Option<Reply>
    ensures { result ≡ told_as taken }
{
    match taken {
        Ok(Some(number)) => Some(Reply::Val(i64::from(number))),
        Ok(None) => None,
        Err(errno) => Some(Reply::Fail(errno)),
    }
}
