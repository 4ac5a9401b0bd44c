//! What a process ignores.

ghost use Rattle.std.specs.Prelude.{◌≡◌};
ghost use Rattle.kabi_types.specs.Arguments.{count_of};
ghost use Rattle.kabi_types.specs.declared.scripts.Control.{Control};
ghost use Rattle.kabi_types.specs.declared.scripts.Script.{Script};
ghost use Rattle.kheap_slabs.specs.Paid.{TakesNothing};
ghost use Rattle.posix_defs.specs.Process.{ignores_of};
ghost use Rattle.posix_defs.specs.Signals.{is_ignored};
ghost use Rattle.posix_defs.specs.World.{World};
ghost use Rattle.proc_table.specs.Table.{IsPlaced};
ghost use Rattle.store_objects.specs.Objects.{AreKept, Runs};
ghost use Rattle.store_objects.specs.Standing.{StandsFor, disposed_in};

use crate::objects::Objects;
use proc_table::Place;

/// Has a process ignore a signal from now on, or be ended by it, and tells whether it ignored it before.
pub fn dispose(objects: &mut Objects, place: Place, signal: i64, ignored: bool) -> bool
    requires kept { (script : Script) × AreKept script objects.old }
    requires there { IsPlaced objects.old.procs place }
    ensures kept { (script : Script) → AreKept script objects.old → AreKept script objects.new }
    ensures procs { objects.new.procs ≡ objects.old.procs }
    ensures runs { (control : Control) → Runs objects.old place.pid control → Runs objects.new place.pid control }
    ensures before { (script : Script) (world : World) → StandsFor script objects.old world
        → result ≡ is_ignored (ignores_of world.plain.table place.pid) (count_of signal) }
    ensures stands { (script : Script) (world : World) → StandsFor script objects.old world
        → StandsFor script objects.new (disposed_in world place.pid (count_of signal) ignored) }
    ensures takes { TakesNothing objects.old.heap objects.new.heap }
{
    objects
        .procs
        .dispose(&mut objects.heap, place, signal, ignored)
}
