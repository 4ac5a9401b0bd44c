//! What is told of what a number is open on: `fstat`.

ghost use Rattle.kabi_types.specs.declared.calls.Call.{Call};
ghost use Rattle.kheap_slabs.specs.Paid.{TakesNothing};
ghost use Rattle.posix_defs.specs.Calls.OnFiles.{fstat};
ghost use Rattle.posix_defs.specs.World.{World};
ghost use Rattle.proc_numbers.specs.Found.{IsOpened};
ghost use Rattle.proc_table.specs.Table.{IsPlaced};
ghost use Rattle.store_objects.specs.Objects.{AreKept, Runs};
ghost use Rattle.store_objects.specs.Standing.{IsSound, StandsFor};
ghost use Rattle.store_objects.specs.Walking.{Serves};

use crate::replies::stat;
use kabi_types::Script;
use posix_defs::Turned;
use proc_files::stat_number;
use proc_numbers::Named;
use store_objects::{Caller, Objects, go_on};

/// Tells what a number is open on: all of a file or a directory, and of a pipe or a socket only that it is one. EBADF where the
/// number isn't open.
///
/// <https://pubs.opengroup.org/onlinepubs/9699919799/functions/fstat.html>
#[inline(never)]
pub fn fstat(script: &Script, objects: &mut Objects, caller: &Caller, on: &Named) -> Turned
    requires stands { (world : World) × StandsFor script.now objects.old world × IsSound world.plain }
    requires runs { Runs objects.old caller.now.place.pid caller.now.control }
    requires placed { IsPlaced objects.old.procs caller.now.place }
    requires opened { IsOpened objects.old.heap objects.old.procs caller.now.place.pid on.now }
    ensures kept { AreKept script.now objects.new }
    ensures takes { TakesNothing objects.old.heap objects.new.heap }
    ensures does { Serves script.now objects.old caller.now.place.pid (Call.Fstat on.now.fd) (λ plain. fstat script.now plain caller.now.place.pid on.now.fd) result objects.new }
{
    objects.heap_is_well_formed();
    let told = stat_number(
        &objects.heap,
        &objects.procs,
        &mut objects.tree,
        caller.place,
        on,
    );
    go_on(script, objects, caller, stat(told))
}
