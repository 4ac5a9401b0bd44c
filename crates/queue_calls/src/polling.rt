//! `poll`.

ghost use Rattle.std.specs.Prelude.{◌≡◌, true};
ghost use Rattle.kabi_types.specs.declared.calls.Call.{Call};
ghost use Rattle.kabi_types.specs.declared.scripts.Script.{Script};
ghost use Rattle.kheap_slabs.specs.Paid.{TakesNothing};
ghost use Rattle.posix_defs.specs.Calls.Polling.{poll};
ghost use Rattle.posix_defs.specs.Machine.{blocks, machine};
ghost use Rattle.posix_defs.specs.Process.{is_alive};
ghost use Rattle.posix_defs.specs.World.{World};
ghost use Rattle.proc_table.specs.Table.{IsPlaced};
ghost use Rattle.store_objects.specs.Objects.{AreKept, Runs};
ghost use Rattle.store_objects.specs.Standing.{Performs, StandsFor};

use kabi_types::{PollList, Script};
use posix_defs::Turned;
use proc_table::Place;
use store_objects::{Caller, Objects, go_on_done};

/// Tells what each entry is ready for; sleeps with timeout -1 where none is ready for anything (POSIX poll).
#[inline(never)]
pub fn poll(
    script: &Script,
    objects: &mut Objects,
    caller: &Caller,
    timeout: i64,
    entries: &PollList,
) -> Turned
    requires kept { AreKept script.now objects.old }
    requires runs { Runs objects.old caller.now.place.pid caller.now.control }
    requires placed { IsPlaced objects.old.procs caller.now.place }
    ensures kept { AreKept script.now objects.new }
    ensures takes { TakesNothing objects.old.heap objects.new.heap }
    ensures does { Performs script.now objects.old caller.now.place.pid (Call.Poll timeout entries.now) (λ plain. poll script.now plain caller.now.place.pid timeout entries.now) result objects.new }
{
    let told = proc_numbers::poll(
        &objects.heap,
        &objects.procs,
        caller.place,
        timeout,
        entries,
    );
    go_on_done(script, objects, caller, told)
}

/// Whether a `poll` of a live process would sleep, whatever its operands are.
pub fn poll_would_block(objects: &Objects, place: Place, timeout: i64, entries: &PollList) -> bool
    requires stands { (script : Script) × (world : World) × StandsFor script objects.now world × (is_alive world.plain.table place.pid ≡ true) }
    requires there { IsPlaced objects.now.procs place }
    ensures { (script : Script) (world : World) → StandsFor script objects.now world
        → result ≡ blocks (machine script world.plain place.pid (Call.Poll timeout entries.now)) }
{
    proc_numbers::poll_waits(&objects.heap, &objects.procs, place, timeout, entries)
}
