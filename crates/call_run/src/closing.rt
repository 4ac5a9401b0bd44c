//! The calls with which descriptions go, whatever these are open on: `close` and `dup2`.

ghost use Rattle.std.specs.Prelude.{◌<◌, ◌≤◌, ◌+◌};
ghost use Rattle.kabi_types.specs.declared.calls.Call.{Call};
ghost use Rattle.kheap_slabs.specs.Heap.{live_bytes};
ghost use Rattle.kheap_slabs.specs.Paid.{CanPay};
ghost use Rattle.kheap_slabs.specs.Purse.{left_bytes};
ghost use Rattle.posix_defs.specs.Calls.OnDescriptors.{close, dup2};
ghost use Rattle.posix_defs.specs.Needs.{bound};
ghost use Rattle.posix_defs.specs.Sizes.{reserve};
ghost use Rattle.posix_defs.specs.World.{World};
ghost use Rattle.proc_numbers.specs.Found.{IsOpened};
ghost use Rattle.proc_table.specs.Table.{IsPlaced};
ghost use Rattle.store_objects.specs.Objects.{AreKept, Runs};
ghost use Rattle.store_objects.specs.Standing.{IsSound, StandsFor};
ghost use Rattle.store_objects.specs.Uses.{UsesAtMost};
ghost use Rattle.store_objects.specs.Walking.{Serves};

use kabi_types::Script;
use kheap_slabs::Purse;
use posix_defs::Turned;
use proc_files::{close_number, dup_number};
use proc_numbers::Named;
use store_objects::told::{value, zero};
use store_objects::{Caller, Objects, go_on, kept_back};

/// Closes a number; with the last that names it a description goes, and what it was open on. A file without links goes with the last
/// description of it, and a socket has no name when it goes. EBADF where the number isn't open.
///
/// What this asks for of the heap meanwhile is kept back for it, and is given back.
///
/// <https://pubs.opengroup.org/onlinepubs/9699919799/functions/close.html>
#[inline(never)]
pub fn close(script: &Script, objects: &mut Objects, caller: &Caller, on: &Named) -> Turned
    requires stands { (world : World) × StandsFor script.now objects.old world × IsSound world.plain }
    requires runs { Runs objects.old caller.now.place.pid caller.now.control }
    requires placed { IsPlaced objects.old.procs caller.now.place }
    requires opened { IsOpened objects.old.heap objects.old.procs caller.now.place.pid on.now }
    requires room { live_bytes objects.old.heap + reserve ≤ objects.old.heap.heap }
    ensures kept { AreKept script.now objects.new }
    ensures uses { UsesAtMost objects.old.heap objects.new.heap 0 reserve }
    ensures does { Serves script.now objects.old caller.now.place.pid (Call.Close on.now.fd) (λ plain. close script.now plain caller.now.place.pid on.now.fd) result objects.new }
{
    objects.heap_is_well_formed();
    let mut purse = kept_back();
    let closed = close_number(
        &mut objects.heap,
        &mut purse,
        &objects.procs,
        &mut objects.tree,
        &mut objects.names,
        &mut objects.fifos,
        &mut objects.locks,
        caller.place,
        on,
    );
    go_on(script, objects, caller, zero(closed))
}

/// Has a given number name what another names, and tells it; what it named before is closed, and nothing changes where both are
/// the same number. EBADF where the other isn't open, or where a descriptor can't have the number.
///
/// What this asks for of the heap meanwhile is kept back for it, and is given back.
///
/// <https://pubs.opengroup.org/onlinepubs/9699919799/functions/dup.html>
#[inline(never)]
pub fn dup2(
    script: &Script,
    objects: &mut Objects,
    purse: &mut Purse,
    caller: &Caller,
    on: &Named,
    to: i64,
) -> Turned
    requires stands { (world : World) × StandsFor script.now objects.old world × IsSound world.plain }
    requires runs { Runs objects.old caller.now.place.pid caller.now.control }
    requires placed { IsPlaced objects.old.procs caller.now.place }
    requires opened { IsOpened objects.old.heap objects.old.procs caller.now.place.pid on.now }
    requires pays { CanPay objects.old.heap purse.old }
    requires left_leaf { 0 < purse.old.left.leaf }
    requires paid_by { left_bytes purse.old ≤ bound (Call.Dup2 on.now.fd to) }
    requires room { live_bytes objects.old.heap + bound (Call.Dup2 on.now.fd to) + reserve ≤ objects.old.heap.heap }
    ensures kept { AreKept script.now objects.new }
    ensures uses { UsesAtMost objects.old.heap objects.new.heap (bound (Call.Dup2 on.now.fd to)) reserve }
    ensures does { Serves script.now objects.old caller.now.place.pid (Call.Dup2 on.now.fd to) (λ plain. dup2 script.now plain caller.now.place.pid on.now.fd to) result objects.new }
{
    objects.heap_is_well_formed();
    let mut back = kept_back();
    let made = dup_number(
        &mut objects.heap,
        purse,
        &mut back,
        &objects.procs,
        &mut objects.tree,
        &mut objects.names,
        &mut objects.fifos,
        &mut objects.locks,
        caller.place,
        on,
        to,
    );
    go_on(script, objects, caller, value(made))
}
