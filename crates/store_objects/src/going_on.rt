//! A process goes on behind its call.

ghost use Rattle.std.specs.Prelude.{◌≡◌};
ghost use Rattle.kabi_types.specs.declared.scripts.Control.{Control};
ghost use Rattle.kheap_slabs.specs.Paid.{TakesNothing};
ghost use Rattle.posix_defs.specs.Control.{after, settled};
ghost use Rattle.posix_defs.specs.World.{World};
ghost use Rattle.posix_defs.specs.declared.turner.Turned.TheVariants as turned;
ghost use Rattle.proc_table.specs.Table.{IsPlaced};
ghost use Rattle.prog_ctl.specs.Runnable.{Rests, Stands};
ghost use Rattle.store_objects.specs.Objects.{AreKept, Runs};
ghost use Rattle.store_objects.specs.Standing.{StandsFor, answered_in};

use crate::objects::{Caller, Objects};
use kabi_types::{Control, Reply, Script};
use posix_defs::Turned;
use proc_table::Place;

/// Where a control stands behind its call, which got this reply: at the call after it.
pub fn behind(script: &Script, mut control: Control, reply: &Reply) -> Control
    requires stands { Stands script.now control }
    requires rests { Rests script.now control }
    ensures stands { Stands script.now result }
    ensures rests { Rests script.now result }
    ensures leads { (before : Control) → settled script.now before ≡ control
        → settled script.now (after script.now before reply.now) ≡ result }
{
    prog_ctl::answer(script, &mut control, reply);
    prog_ctl::go_to_call(script, &mut control);
    control
}

/// The caller goes on behind its call, at which it stands, and which got this reply.
pub fn go_on(script: &Script, objects: &mut Objects, caller: &Caller, reply: Reply) -> Turned
    requires kept { AreKept script.now objects.old }
    requires runs { Runs objects.old caller.now.place.pid caller.now.control }
    requires placed { IsPlaced objects.old.procs caller.now.place }
    ensures kept { AreKept script.now objects.new }
    ensures told { result ≡ turned.Done reply }
    ensures takes { TakesNothing objects.old.heap objects.new.heap }
    ensures tree { objects.new.tree ≡ objects.old.tree }
    ensures goes { (world : World) → StandsFor script.now objects.old world → StandsFor script.now objects.new (answered_in script.now world caller.now.place.pid reply) }
{
    objects.move_on(caller.place, behind(script, caller.control, &reply));
    Turned::Done(reply)
}

/// The same behind a call with which others were made or are gone: where the caller stands in the heap is found anew.
pub fn go_on_anew(script: &Script, objects: &mut Objects, caller: &Caller, reply: Reply) -> Turned
    requires kept { AreKept script.now objects.old }
    requires runs { Runs objects.old caller.now.place.pid caller.now.control }
    ensures kept { AreKept script.now objects.new }
    ensures told { result ≡ turned.Done reply }
    ensures takes { TakesNothing objects.old.heap objects.new.heap }
    ensures tree { objects.new.tree ≡ objects.old.tree }
    ensures goes { (world : World) → StandsFor script.now objects.old world → StandsFor script.now objects.new (answered_in script.now world caller.now.place.pid reply) }
{
    let pid = caller.place.pid;
    let key = objects.key_there(pid);
    objects.move_on(Place { pid, key }, behind(script, caller.control, &reply));
    Turned::Done(reply)
}
