//! `pipe`.

ghost use Rattle.std.specs.Prelude.{◌<◌, ◌≤◌};
ghost use Rattle.kabi_types.specs.declared.calls.Call.{Call};
ghost use Rattle.kheap_slabs.specs.Paid.{CanPay, IsPaid};
ghost use Rattle.posix_defs.specs.Calls.OnPipes.{pipe};
ghost use Rattle.proc_table.specs.Table.{IsPlaced};
ghost use Rattle.store_objects.specs.Objects.{AreKept, Runs};
ghost use Rattle.store_objects.specs.Standing.{Performs};

use crate::replies::pair;
use kabi_types::Script;
use kheap_slabs::Purse;
use posix_defs::Turned;
use proc_numbers::make_pipe;
use store_objects::{Caller, Objects, go_on};

/// Makes a pipe: the lowest number that is free names its read end, the next one its write end, and both are told. EMFILE where
/// fewer than two are free; nothing is made then.
///
/// <https://pubs.opengroup.org/onlinepubs/9699919799/functions/pipe.html>
#[inline(never)]
pub fn pipe(script: &Script, objects: &mut Objects, purse: &mut Purse, caller: &Caller) -> Turned
    requires kept { AreKept script.now objects.old }
    requires runs { Runs objects.old caller.now.place.pid caller.now.control }
    requires placed { IsPlaced objects.old.procs caller.now.place }
    requires room { CanPay objects.old.heap purse.old }
    requires left_pipe { 0 < purse.old.left.pipe }
    requires left_descs { 2 ≤ purse.old.left.desc }
    requires left_leaf { 0 < purse.old.left.leaf }
    ensures kept { AreKept script.now objects.new }
    ensures paid { IsPaid objects.old.heap purse.old objects.new.heap purse.new }
    ensures does { Performs script.now objects.old caller.now.place.pid Call.Pipe (λ plain. pipe script.now plain caller.now.place.pid) result objects.new }
{
    let reply = pair(make_pipe(&mut objects.heap, purse, &objects.procs, caller.place));
    go_on(script, objects, caller, reply)
}
