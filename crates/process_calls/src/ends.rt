//! The calls that end a process: `kill` and `exit`.

ghost use Rattle.std.specs.Prelude.{◌≡◌, ◌≢◌, ◌+◌, ◌<◌, ◌≤◌, ℕ, ℤ, None};
ghost use Rattle.kabi_types.specs.Arguments.{argument_fault, count_of};
ghost use Rattle.kabi_types.specs.declared.calls.Call.{Call};
ghost use Rattle.kabi_types.specs.declared.scripts.Script.{Script};
ghost use Rattle.kheap_slabs.specs.Heap.{live_bytes};
ghost use Rattle.posix_defs.specs.Answer.{Ended};
ghost use Rattle.posix_defs.specs.Ending.{die, exit_status};
ghost use Rattle.posix_defs.specs.Killing.{kill, struck};
ghost use Rattle.posix_defs.specs.Signals.{sigpipe};
ghost use Rattle.posix_defs.specs.Sizes.{reserve};
ghost use Rattle.posix_defs.specs.World.{World};
ghost use Rattle.proc_table.specs.Procs.{IsAlive};
ghost use Rattle.proc_table.specs.Table.{IsPlaced};
ghost use Rattle.store_objects.specs.Objects.{AreKept, Runs, procs_of};
ghost use Rattle.store_objects.specs.Standing.{IsSound, StandsFor};
ghost use Rattle.store_objects.specs.Uses.{UsesAtMost};
ghost use Rattle.store_objects.specs.Walking.{Serves};

use crate::end;
use crate::endings::SIGPIPE;
use kabi_types::{Reply, Script};
use posix_defs::Turned;
use proc_table::Place;
use store_objects::{Caller, Objects, go_on, go_on_anew};

/// Ends a process that isn't the first, with a signal.
fn strike(
    script: &Script,
    objects: &mut Objects,
    caller: &Caller,
    target: u32,
    signal: u16,
) -> Turned
    requires stands { (world : World) × StandsFor script.now objects.old world × IsSound world.plain }
    requires runs { Runs objects.old caller.now.place.pid caller.now.control }
    requires other { target ≢ 1 }
    requires there { IsAlive (procs_of objects.old) target }
    requires room { live_bytes objects.old.heap + reserve ≤ objects.old.heap.heap }
    ensures kept { AreKept script.now objects.new }
    ensures uses { UsesAtMost objects.old.heap objects.new.heap 0 reserve }
    ensures does { (named sent : ℤ) → Serves script.now objects.old caller.now.place.pid (Call.Kill named sent) (λ plain. struck script.now plain caller.now.place.pid target signal) result objects.new }
{
    let key = objects.key_there(target);
    let place = Place { pid: target, key };
    end(objects, place, signal);
    if target == caller.place.pid {
        return Turned::Ended(signal);
    }
    go_on_anew(script, objects, caller, Reply::Val(0))
}

/// The wait status of a process that a signal ends.
fn signalled(signal: i64) -> u16
    requires { count_of signal < 65536 }
    ensures { result ≡ count_of signal }
{
    u16::try_from(signal).unwrap_or(0)
}

/// Ends a process, or asks by the signal 0 whether it is there: ESRCH where none of that pid is, EPERM where the first process is to
/// end. What the closings of the end ask for is taken of what is kept back for ends.
///
/// <https://pubs.opengroup.org/onlinepubs/9699919799/functions/kill.html>
#[inline(never)]
pub fn signal_process(
    script: &Script,
    objects: &mut Objects,
    caller: &Caller,
    target: i64,
    signal: i64,
) -> Turned
    requires stands { (world : World) × StandsFor script.now objects.old world × IsSound world.plain }
    requires runs { Runs objects.old caller.now.place.pid caller.now.control }
    requires placed { IsPlaced objects.old.procs caller.now.place }
    requires right { argument_fault (Call.Kill target signal) ≡ None }
    requires room { live_bytes objects.old.heap + reserve ≤ objects.old.heap.heap }
    ensures kept { AreKept script.now objects.new }
    ensures uses { UsesAtMost objects.old.heap objects.new.heap 0 reserve }
    ensures does { Serves script.now objects.old caller.now.place.pid (Call.Kill target signal) (λ plain. kill script.now plain caller.now.place.pid target signal) result objects.new }
{
    match objects
        .procs
        .may_kill(&objects.heap, caller.place.pid, target, signal)
    {
        Err(errno) => go_on(script, objects, caller, Reply::Fail(errno)),
        Ok(false) => go_on(script, objects, caller, Reply::Val(0)),
        Ok(true) => {
            objects.pids_have_32_bits();
            let (number, status) = (target.cast_unsigned() as u32, signalled(signal));
            strike(script, objects, caller, number, status)
        }
    }
}

/// Ends the process by its own call. What its closings ask for is taken of what is kept back for ends.
///
/// <https://pubs.opengroup.org/onlinepubs/9699919799/functions/_exit.html>
#[inline(never)]
pub fn exit(objects: &mut Objects, place: Place, status: i64) -> Turned
    requires stands { (script : Script) × (world : World) × StandsFor script objects.old world × IsSound world.plain }
    requires runs { IsAlive (procs_of objects.old) place.pid }
    requires placed { IsPlaced objects.old.procs place }
    requires room { live_bytes objects.old.heap + reserve ≤ objects.old.heap.heap }
    ensures kept { (script : Script) → AreKept script objects.old → AreKept script objects.new }
    ensures uses { UsesAtMost objects.old.heap objects.new.heap 0 reserve }
    ensures does { (script : Script) → Serves script objects.old place.pid (Call.Exit status) (λ plain. Ended (exit_status status) (die plain place.pid (exit_status status))) result objects.new }
{
    let status = exit_status(status);
    end(objects, place, status);
    Turned::Ended(status)
}

/// Ends a process by its own `write`, which nobody reads: by SIGPIPE, which it doesn't ignore. What its closings ask for is taken of what
/// is kept back for ends.
#[inline(never)]
pub fn break_off(objects: &mut Objects, place: Place) -> Turned
    requires stands { (script : Script) × (world : World) × StandsFor script objects.old world × IsSound world.plain }
    requires runs { IsAlive (procs_of objects.old) place.pid }
    requires placed { IsPlaced objects.old.procs place }
    requires room { live_bytes objects.old.heap + reserve ≤ objects.old.heap.heap }
    ensures kept { (script : Script) → AreKept script objects.old → AreKept script objects.new }
    ensures uses { UsesAtMost objects.old.heap objects.new.heap 0 reserve }
    ensures does { (script : Script) (fd : ℤ) (addr : ℤ) (n : ℤ) (done : ℕ)
        → Serves script objects.old place.pid (Call.Write fd addr n done) (λ plain. Ended sigpipe (die plain place.pid sigpipe)) result objects.new }
{
    end(objects, place, SIGPIPE);
    Turned::Ended(SIGPIPE)
}

/// The wait status of a process that ends by itself: only the lowest eight bits of what it says are told.
fn exit_status(status: i64) -> u16
    ensures { result ≡ exit_status status }
{
    256 * (status.cast_unsigned() % 256) as u16
}
