//! `dup` and `fcntl`, which close nothing.

ghost use Rattle.std.specs.Prelude.{◌≡◌, ◌<◌};
ghost use Rattle.kabi_types.specs.Arguments.{count_of};
ghost use Rattle.kabi_types.specs.declared.calls.Call.{Call};
ghost use Rattle.kheap_slabs.specs.Paid.{CanPay, IsPaid};
ghost use Rattle.posix_defs.specs.Calls.OnDescriptors.{dup, fcntl};
ghost use Rattle.proc_numbers.specs.Found.{IsOpened};
ghost use Rattle.proc_table.specs.Table.{IsPlaced};
ghost use Rattle.store_objects.specs.Objects.{AreKept, Runs};
ghost use Rattle.store_objects.specs.Standing.{Performs};

use kabi_types::Script;
use kheap_slabs::Purse;
use posix_defs::Turned;
use proc_numbers::{Named, dup_one};
use store_objects::told::value;
use store_objects::{Caller, Objects, go_on};

/// Has the lowest number that is free name what another names, and tells it. EBADF where the other isn't open, EMFILE where no
/// number is free.
///
/// <https://pubs.opengroup.org/onlinepubs/9699919799/functions/dup.html>
#[inline(never)]
pub fn dup(
    script: &Script,
    objects: &mut Objects,
    purse: &mut Purse,
    caller: &Caller,
    on: &Named,
) -> Turned
    requires kept { AreKept script.now objects.old }
    requires runs { Runs objects.old caller.now.place.pid caller.now.control }
    requires placed { IsPlaced objects.old.procs caller.now.place }
    requires opened { IsOpened objects.old.heap objects.old.procs caller.now.place.pid on.now }
    requires room { CanPay objects.old.heap purse.old }
    requires left_leaf { 0 < purse.old.left.leaf }
    ensures kept { AreKept script.now objects.new }
    ensures paid { IsPaid objects.old.heap purse.old objects.new.heap purse.new }
    ensures does { Performs script.now objects.old caller.now.place.pid (Call.Dup on.now.fd) (λ plain. dup script.now plain caller.now.place.pid on.now.fd) result objects.new }
{
    let reply = value(dup_one(&mut objects.heap, purse, &objects.procs, caller.place, on));
    go_on(script, objects, caller, reply)
}

/// Tells or sets the flags of a number or of its description, or has a further number name that. EBADF where the number isn't
/// open, EMFILE where no number is free, EINVAL where the command isn't one of the five.
///
/// <https://pubs.opengroup.org/onlinepubs/9699919799/functions/fcntl.html>
#[inline(never)]
pub fn fcntl(
    script: &Script,
    objects: &mut Objects,
    purse: &mut Purse,
    caller: &Caller,
    on: &Named,
    cmd: i64,
    arg: i64,
) -> Turned
    requires kept { AreKept script.now objects.old }
    requires runs { Runs objects.old caller.now.place.pid caller.now.control }
    requires placed { IsPlaced objects.old.procs caller.now.place }
    requires opened { IsOpened objects.old.heap objects.old.procs caller.now.place.pid on.now }
    requires room { CanPay objects.old.heap purse.old }
    requires left_leaf { count_of cmd ≡ 0 → 0 < purse.old.left.leaf }
    ensures kept { AreKept script.now objects.new }
    ensures paid { IsPaid objects.old.heap purse.old objects.new.heap purse.new }
    ensures does { Performs script.now objects.old caller.now.place.pid (Call.Fcntl on.now.fd cmd arg) (λ plain. fcntl script.now plain caller.now.place.pid on.now.fd cmd arg) result objects.new }
{
    let reply = value(proc_numbers::control(
        &mut objects.heap,
        purse,
        &objects.procs,
        caller.place,
        on,
        cmd,
        arg,
    ));
    go_on(script, objects, caller, reply)
}
