//! The calls of a parent: `fork` and `waitpid`.

ghost use Rattle.std.specs.Prelude.{◌≡◌, ◌<◌, ◌≤◌, None};
ghost use Rattle.kabi_types.specs.Arguments.{argument_fault};
ghost use Rattle.kabi_types.specs.declared.calls.Call.{Call};
ghost use Rattle.kabi_types.specs.declared.scripts.Script.{Script};
ghost use Rattle.kheap_slabs.specs.Paid.{CanPay, IsPaid, TakesNothing};
ghost use Rattle.posix_defs.specs.Forking.{fork};
ghost use Rattle.posix_defs.specs.Machine.{blocks};
ghost use Rattle.posix_defs.specs.Waiting.{is_nohang, waitpid};
ghost use Rattle.posix_defs.specs.World.{World};
ghost use Rattle.proc_table.specs.Table.{Holds, IsPlaced};
ghost use Rattle.store_objects.specs.Objects.{AreKept, Runs};
ghost use Rattle.store_objects.specs.Standing.{Performs, StandsFor};

use kabi_types::{Errno, Reply, Script};
use kheap_slabs::Purse;
use posix_defs::Turned;
use proc_table::{Place, Reaped};
use store_objects::{Caller, Objects, behind, directory_of, go_on, go_on_anew, hold_directory};

/// The only option of `waitpid`: not to wait.
const WNOHANG: i64 = 1;

/// Makes a child that goes on where its parent does, works there, has open what its parent has, and is told 0; EAGAIN where nobody
/// more can be made.
///
/// <https://pubs.opengroup.org/onlinepubs/9699919799/functions/fork.html>
#[inline(never)]
pub fn fork(script: &Script, objects: &mut Objects, purse: &mut Purse, caller: &Caller) -> Turned
    requires kept { AreKept script.now objects.old }
    requires runs { Runs objects.old caller.now.place.pid caller.now.control }
    requires placed { IsPlaced objects.old.procs caller.now.place }
    requires stands { (world : World) × StandsFor script.now objects.old world }
    requires room { CanPay objects.old.heap purse.old }
    requires left_proc { 0 < purse.old.left.proc }
    requires left_nodes { 4 ≤ purse.old.left.node }
    requires left_leaves { 3 ≤ purse.old.left.leaf }
    ensures kept { AreKept script.now objects.new }
    ensures paid { IsPaid objects.old.heap purse.old objects.new.heap purse.new }
    ensures does { Performs script.now objects.old caller.now.place.pid Call.Fork (λ plain. fork script.now plain caller.now.place.pid) result objects.new }
{
    objects.heap_is_well_formed();
    let directory = directory_of(objects, caller.place);
    match objects
        .procs
        .fork(&mut objects.heap, purse, caller.place.pid)
    {
        Ok(child) => {
            let key = objects.key_there(child);
            let place = Place { pid: child, key };
            objects.move_on(place, behind(script, caller.control, &Reply::Val(0)));
            hold_directory(objects, directory);
            let reply = Reply::Val(i64::from(child));
            go_on_anew(script, objects, caller, reply)
        }
        Err(errno) => go_on(script, objects, caller, Reply::Fail(errno)),
    }
}

/// Whether the caller of `waitpid` doesn't want to wait.
fn is_nohang(options: i64) -> bool
    ensures { result ≡ is_nohang options }
{
    options == WNOHANG
}

/// Tells the ended child of the lowest pid that is asked for, which then goes; sleeps where one is there that hasn't ended,
/// and answers ECHILD where none is.
///
/// <https://pubs.opengroup.org/onlinepubs/9699919799/functions/waitpid.html>
#[inline(never)]
pub fn wait(
    script: &Script,
    objects: &mut Objects,
    caller: &Caller,
    which: i64,
    options: i64,
) -> Turned
    requires kept { AreKept script.now objects.old }
    requires right { argument_fault (Call.Waitpid which options) ≡ None }
    requires runs { Runs objects.old caller.now.place.pid caller.now.control }
    ensures kept { AreKept script.now objects.new }
    ensures takes { TakesNothing objects.old.heap objects.new.heap }
    ensures does { Performs script.now objects.old caller.now.place.pid (Call.Waitpid which options) (λ plain. waitpid script.now plain caller.now.place.pid which options) result objects.new }
{
    match objects
        .procs
        .wait(&mut objects.heap, caller.place.pid, which)
    {
        Reaped::Took { pid: child, status } => {
            go_on_anew(script, objects, caller, Reply::Waited(child, status))
        }
        Reaped::Nobody if is_nohang(options) => {
            go_on_anew(script, objects, caller, Reply::Val(0))
        }
        Reaped::Nobody => Turned::Sleep,
        Reaped::NoChild => go_on_anew(script, objects, caller, Reply::Fail(Errno::ECHILD)),
    }
}

/// Whether a wait for a child would sleep: one that is asked for is there, none has ended, and the caller wants to wait.
pub fn would_sleep(objects: &Objects, pid: u32, which: i64, options: i64) -> bool
    requires { Holds objects.now.heap objects.now.procs }
    ensures { (script : Script) (world : World) → StandsFor script objects.now world → result ≡ blocks (waitpid script world.plain pid which options) }
{
    match objects.procs.answer(&objects.heap, pid, which) {
        Reaped::Nobody => !is_nohang(options),
        _ => false,
    }
}
