//! `read`.

ghost use Rattle.std.specs.Prelude.{◌≡◌, ◌≤◌, None, true};
ghost use Rattle.kabi_types.specs.Arguments.{argument_fault, count_of};
ghost use Rattle.kabi_types.specs.declared.calls.Call.{Call};
ghost use Rattle.kabi_types.specs.declared.scripts.Script.{Script};
ghost use Rattle.kheap_slabs.specs.Paid.{CanPay, IsPaid};
ghost use Rattle.posix_defs.specs.Calls.Reading.{read};
ghost use Rattle.posix_defs.specs.Machine.{blocks, machine};
ghost use Rattle.posix_defs.specs.Needs.{pages_touched};
ghost use Rattle.posix_defs.specs.Process.{is_alive};
ghost use Rattle.posix_defs.specs.World.{World};
ghost use Rattle.proc_numbers.specs.Found.{IsOffNodes, IsOpened};
ghost use Rattle.proc_table.specs.Table.{IsPlaced};
ghost use Rattle.store_objects.specs.Objects.{AreKept, Runs};
ghost use Rattle.store_objects.specs.Standing.{Performs, StandsFor};

use crate::operands::may_move;
use kabi_types::Script;
use kheap_slabs::Purse;
use posix_defs::Turned;
use proc_numbers::{Buffer, Named, opened, read_waits};
use proc_table::Place;
use store_objects::{Caller, Objects, go_on_done};

/// Reads at most n bytes from the pipe or the socket that a number is open on into memory, as many as are there; none are the end
/// of the file. It sleeps where nothing is there and something can come (POSIX read).
///
/// EBADF where the number isn't open for reading, EFAULT where a page that n bytes would touch isn't mapped, ENOTCONN of a socket
/// that isn't connected, EAGAIN in place of a sleep where the description has O_NONBLOCK.
#[inline(never)]
pub fn read(
    script: &Script,
    objects: &mut Objects,
    purse: &mut Purse,
    buffer: &mut Buffer,
    caller: &Caller,
    on: &Named,
    addr: i64,
    n: i64,
) -> Turned
    requires stands { (world : World) × StandsFor script.now objects.old world }
    requires runs { Runs objects.old caller.now.place.pid caller.now.control }
    requires placed { IsPlaced objects.old.procs caller.now.place }
    requires opened { IsOpened objects.old.heap objects.old.procs caller.now.place.pid on.now }
    requires off { IsOffNodes objects.old.heap objects.old.procs caller.now.place.pid on.now.fd }
    requires right { argument_fault (Call.Read on.now.fd addr n) ≡ None }
    requires room { CanPay objects.old.heap purse.old }
    requires left { pages_touched (count_of addr) (count_of n) ≤ purse.old.left.page }
    ensures kept { AreKept script.now objects.new }
    ensures paid { IsPaid objects.old.heap purse.old objects.new.heap purse.new }
    ensures does { Performs script.now objects.old caller.now.place.pid (Call.Read on.now.fd addr n) (λ plain. read script.now plain caller.now.place.pid on.now.fd addr n) result objects.new }
{
    let told = proc_numbers::read(
        &mut objects.heap,
        purse,
        &objects.procs,
        buffer,
        caller.place,
        on,
        addr,
        n,
    );
    go_on_done(script, objects, caller, told)
}

/// Whether a `read` of a live process would sleep, whatever its operands are and its number is open on.
pub fn read_would_block(objects: &Objects, place: Place, fd: i64, addr: i64, n: i64) -> bool
    requires stands { (script : Script) × (world : World) × StandsFor script objects.now world × (is_alive world.plain.table place.pid ≡ true) }
    requires there { IsPlaced objects.now.procs place }
    ensures { (script : Script) (world : World) → StandsFor script objects.now world
        → result ≡ blocks (machine script world.plain place.pid (Call.Read fd addr n)) }
{
    if !may_move(addr, n) {
        return false;
    }
    let on = opened(&objects.heap, &objects.procs, place, fd);
    read_waits(&objects.heap, &objects.procs, place, &on, addr, n)
}
