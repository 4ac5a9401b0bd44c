//! A process goes on as its call was told.

ghost use Rattle.std.specs.Prelude.{◌≡◌, ◌+◌, ◌≤◌};
ghost use Rattle.kabi_types.specs.declared.scripts.Script.{Script};
ghost use Rattle.kheap_slabs.specs.Paid.{TakesNothing};
ghost use Rattle.posix_defs.specs.World.{World};
ghost use Rattle.posix_defs.specs.declared.turner.Turned.TheVariants as turned;
ghost use Rattle.store_objects.specs.Told.{behind_in, partly_in};
ghost use Rattle.proc_table.specs.Table.{IsPlaced};
ghost use Rattle.store_objects.specs.Objects.{AreKept, Runs};
ghost use Rattle.store_objects.specs.Standing.{StandsFor};

use crate::going_on::go_on;
use crate::objects::{Caller, Objects};
use kabi_types::Script;
use posix_defs::Turned;

/// The process goes on behind its call where that is over, and else stays at it.
pub fn go_on_done(script: &Script, objects: &mut Objects, caller: &Caller, told: Turned) -> Turned
    requires kept { AreKept script.now objects.old }
    requires runs { Runs objects.old caller.now.place.pid caller.now.control }
    requires placed { IsPlaced objects.old.procs caller.now.place }
    ensures kept { AreKept script.now objects.new }
    ensures told { result ≡ told }
    ensures takes { TakesNothing objects.old.heap objects.new.heap }
    ensures goes { (world : World) → StandsFor script.now objects.old world → StandsFor script.now objects.new (behind_in script.now world caller.now.place.pid told) }
{
    match told {
        Turned::Done(reply) => go_on(script, objects, caller, reply),
        told => told,
    }
}

/// The process stays at its write, of which so many bytes more are done, or at its open of a FIFO, whose one end is made.
pub fn do_part(objects: &mut Objects, caller: &Caller, moved: u32) -> Turned
    requires kept { (script : Script) × AreKept script objects.old }
    requires runs { Runs objects.old caller.now.place.pid caller.now.control }
    requires placed { IsPlaced objects.old.procs caller.now.place }
    requires fits { caller.now.control.done + moved ≤ 4294967295 }
    ensures kept { (script : Script) → AreKept script objects.old → AreKept script objects.new }
    ensures told { result ≡ turned.Part moved }
    ensures takes { TakesNothing objects.old.heap objects.new.heap }
    ensures goes { (script : Script) (world : World) → StandsFor script objects.old world → StandsFor script objects.new (partly_in world caller.now.place.pid moved) }
{
    let mut control = caller.control;
    prog_ctl::moved(&mut control, moved);
    objects.move_on(caller.place, control);
    Turned::Part(moved)
}
