//! `socket` and `socketpair`.

ghost use Rattle.std.specs.Prelude.{◌<◌, ◌≤◌};
ghost use Rattle.kabi_types.specs.declared.calls.Call.{Call};
ghost use Rattle.kheap_slabs.specs.Paid.{CanPay, IsPaid};
ghost use Rattle.posix_defs.specs.Calls.OnSockets.{socket, socketpair};
ghost use Rattle.posix_defs.specs.World.{World};
ghost use Rattle.proc_table.specs.Table.{IsPlaced};
ghost use Rattle.store_objects.specs.Objects.{AreKept, Runs};
ghost use Rattle.store_objects.specs.Standing.{Performs, StandsFor};

use crate::replies::pair;
use kabi_types::Script;
use kheap_slabs::Purse;
use posix_defs::Turned;
use proc_numbers::{make_pair, make_socket};
use store_objects::told::value;
use store_objects::{Caller, Objects, go_on};

/// Makes a socket: the lowest number that is free names it, and is told. EMFILE where none is free; nothing is made then.
///
/// <https://pubs.opengroup.org/onlinepubs/9699919799/functions/socket.html>
#[inline(never)]
pub fn socket(script: &Script, objects: &mut Objects, purse: &mut Purse, caller: &Caller) -> Turned
    requires stands { (world : World) × StandsFor script.now objects.old world }
    requires runs { Runs objects.old caller.now.place.pid caller.now.control }
    requires placed { IsPlaced objects.old.procs caller.now.place }
    requires room { CanPay objects.old.heap purse.old }
    requires left_sock { 0 < purse.old.left.sock }
    requires left_desc { 0 < purse.old.left.desc }
    requires left_leaf { 0 < purse.old.left.leaf }
    ensures kept { AreKept script.now objects.new }
    ensures paid { IsPaid objects.old.heap purse.old objects.new.heap purse.new }
    ensures does { Performs script.now objects.old caller.now.place.pid Call.Socket (λ plain. socket script.now plain caller.now.place.pid) result objects.new }
{
    let reply = value(make_socket(&mut objects.heap, purse, &objects.procs, caller.place));
    go_on(script, objects, caller, reply)
}

/// Makes two sockets that are connected to each other: the lowest number that is free names one, the next one the other, and both
/// are told. EMFILE where fewer than two are free; nothing is made then.
///
/// <https://pubs.opengroup.org/onlinepubs/9699919799/functions/socketpair.html>
#[inline(never)]
pub fn socketpair(
    script: &Script,
    objects: &mut Objects,
    purse: &mut Purse,
    caller: &Caller,
) -> Turned
    requires stands { (world : World) × StandsFor script.now objects.old world }
    requires runs { Runs objects.old caller.now.place.pid caller.now.control }
    requires placed { IsPlaced objects.old.procs caller.now.place }
    requires room { CanPay objects.old.heap purse.old }
    requires left_socks { 2 ≤ purse.old.left.sock }
    requires left_descs { 2 ≤ purse.old.left.desc }
    requires left_leaf { 0 < purse.old.left.leaf }
    ensures kept { AreKept script.now objects.new }
    ensures paid { IsPaid objects.old.heap purse.old objects.new.heap purse.new }
    ensures does { Performs script.now objects.old caller.now.place.pid Call.Socketpair (λ plain. socketpair script.now plain caller.now.place.pid) result objects.new }
{
    let reply = pair(make_pair(&mut objects.heap, purse, &objects.procs, caller.place));
    go_on(script, objects, caller, reply)
}
