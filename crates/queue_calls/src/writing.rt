//! `write`.

ghost use Rattle.std.specs.Prelude.{◌≡◌, ◌-◌, ◌≤◌, None, true};
ghost use Rattle.kabi_types.specs.Arguments.{argument_fault, count_of};
ghost use Rattle.kabi_types.specs.declared.calls.Call.{Call};
ghost use Rattle.kabi_types.specs.declared.scripts.Script.{Script};
ghost use Rattle.kheap_slabs.specs.Paid.{CanPay, IsPaid};
ghost use Rattle.posix_defs.specs.Calls.Writing.{write_ends, write_ignoring};
ghost use Rattle.posix_defs.specs.Machine.{blocks, machine};
ghost use Rattle.posix_defs.specs.Needs.{chunks_for};
ghost use Rattle.posix_defs.specs.Process.{is_alive};
ghost use Rattle.posix_defs.specs.World.{World};
ghost use Rattle.proc_numbers.specs.Found.{IsOffNodes, IsOpened};
ghost use Rattle.proc_table.specs.Table.{IsPlaced};
ghost use Rattle.store_objects.specs.Objects.{AreKept, IsCaller, Runs};
ghost use Rattle.store_objects.specs.Standing.{Performs, StandsFor};

use crate::operands::may_move;
use kabi_types::Script;
use kheap_slabs::Purse;
use posix_defs::Turned;
use proc_numbers::{Buffer, Named, opened, write_breaks as breaks, write_waits};
use proc_table::Place;
use store_objects::{Caller, Objects, do_part, go_on_done};

/// Writes n bytes of memory, of which so many were moved before, to the pipe or the socket that a number is open on: up to 512 go
/// into a pipe whole or not at all; of more, and to a socket always, as many as there is room for. It sleeps where there is no room,
/// and is told a part where some bytes are left (POSIX write). One that ends its caller has no turn of this.
///
/// EBADF where the number isn't open for writing, EFAULT where a page of the bytes isn't mapped, ENOTCONN of a socket that isn't
/// connected, EPIPE where nobody can read, EAGAIN in place of a sleep where the description has O_NONBLOCK; where bytes were moved
/// their number in place of the last two.
#[inline(never)]
pub fn write(
    script: &Script,
    objects: &mut Objects,
    purse: &mut Purse,
    buffer: &mut Buffer,
    caller: &Caller,
    on: &Named,
    addr: i64,
    n: i64,
    done: u32,
) -> Turned
    requires stands { (world : World) × StandsFor script.now objects.old world }
    requires runs { Runs objects.old caller.now.place.pid caller.now.control }
    requires placed { IsPlaced objects.old.procs caller.now.place }
    requires opened { IsOpened objects.old.heap objects.old.procs caller.now.place.pid on.now }
    requires so_far { caller.now.control.done ≡ done }
    requires off { IsOffNodes objects.old.heap objects.old.procs caller.now.place.pid on.now.fd }
    requires right { argument_fault (Call.Write on.now.fd addr n done) ≡ None }
    requires room { CanPay objects.old.heap purse.old }
    requires left { chunks_for (count_of n - done) ≤ purse.old.left.chunk }
    ensures kept { AreKept script.now objects.new }
    ensures paid { IsPaid objects.old.heap purse.old objects.new.heap purse.new }
    ensures does { Performs script.now objects.old caller.now.place.pid (Call.Write on.now.fd addr n done) (λ plain. write_ignoring script.now plain caller.now.place.pid on.now.fd addr n done) result objects.new }
{
    let told = proc_numbers::write(
        &mut objects.heap,
        purse,
        &objects.procs,
        buffer,
        caller.place,
        on,
        addr,
        n,
        done,
    );
    match told {
        Turned::Part(moved) => do_part(objects, caller, moved),
        told => go_on_done(script, objects, caller, told),
    }
}

/// Whether a `write` to a pipe or a socket ends its caller, which then has no turn of it: nobody reads it, and the caller doesn't ignore
/// SIGPIPE. Who ignores it pays for one test.
pub fn write_breaks(
    objects: &Objects,
    caller: &Caller,
    on: &Named,
    addr: i64,
    n: i64,
    done: u32,
) -> bool
    requires stands { (script : Script) × (world : World) × StandsFor script objects.now world }
    requires caller { IsCaller objects.now caller.now.place.pid caller.now }
    requires opened { IsOpened objects.now.heap objects.now.procs caller.now.place.pid on.now }
    requires right { argument_fault (Call.Write on.now.fd addr n done) ≡ None }
    ensures { (script : Script) (world : World) → StandsFor script objects.now world
        → result ≡ write_ends world.plain caller.now.place.pid on.now.fd addr n done }
{
    let proc = objects.procs.at(&objects.heap, caller.place);
    if proc.ignores_pipe {
        return false;
    }
    if done > 0 {
        return false;
    }
    breaks(&objects.heap, &objects.procs, caller.place, on, addr, n)
}

/// Whether a `write` of a live process would sleep, of which so many bytes were moved before, whatever its operands are and its number is open on.
pub fn write_would_block(
    objects: &Objects,
    place: Place,
    fd: i64,
    addr: i64,
    n: i64,
    done: u32,
) -> bool
    requires stands { (script : Script) × (world : World) × StandsFor script objects.now world × (is_alive world.plain.table place.pid ≡ true) }
    requires there { IsPlaced objects.now.procs place }
    ensures { (script : Script) (world : World) → StandsFor script objects.now world
        → result ≡ blocks (machine script world.plain place.pid (Call.Write fd addr n done)) }
{
    if !may_move(addr, n) {
        return false;
    }
    let on = opened(&objects.heap, &objects.procs, place, fd);
    write_waits(&objects.heap, &objects.procs, place, &on, addr, n, done)
}
