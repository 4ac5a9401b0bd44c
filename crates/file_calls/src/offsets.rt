//! The calls on where a description stands and on how long a file is: `lseek` and `ftruncate`.

ghost use Rattle.std.specs.Prelude.{◌≡◌, None};
ghost use Rattle.kabi_types.specs.Arguments.{argument_fault};
ghost use Rattle.kabi_types.specs.declared.calls.Call.{Call};
ghost use Rattle.kheap_slabs.specs.Paid.{IsPaid, TakesNothing};
ghost use Rattle.memfs_ops.specs.Fetching.{MayFetch};
ghost use Rattle.posix_defs.specs.Calls.OnFiles.{ftruncate, lseek};
ghost use Rattle.posix_defs.specs.Needs.{need_of};
ghost use Rattle.posix_defs.specs.World.{World};
ghost use Rattle.proc_numbers.specs.Found.{IsOpened};
ghost use Rattle.proc_table.specs.Table.{IsPlaced};
ghost use Rattle.store_objects.specs.Objects.{AreKept, Runs};
ghost use Rattle.store_objects.specs.Purses.{need_for};
ghost use Rattle.store_objects.specs.Standing.{IsSound, StandsFor};
ghost use Rattle.store_objects.specs.Walking.{Serves};
ghost use Rattle.store_objects.specs.declared.purses.Target.TheVariants.{File};

use crate::replies::offset;
use kabi_types::Script;
use kheap_slabs::Purse;
use posix_defs::Turned;
use proc_files::{seek_number, size_number};
use proc_numbers::Named;
use store_objects::told::zero;
use store_objects::{Caller, Objects, go_on};

/// Has the description that a number names stand at another offset, counted from the beginning, from where it is, or from the end of
/// what it is open on, and tells it.
///
/// EBADF where the number isn't open, ESPIPE of a pipe and a socket, EINVAL of an offset before the beginning, EOVERFLOW of one above
/// the greatest, EINVAL of one within an entry of a directory.
///
/// <https://pubs.opengroup.org/onlinepubs/9699919799/functions/lseek.html>
#[inline(never)]
pub fn lseek(
    script: &Script,
    objects: &mut Objects,
    caller: &Caller,
    on: &Named,
    distance: i64,
    whence: i64,
) -> Turned
    requires stands { (world : World) × StandsFor script.now objects.old world × IsSound world.plain }
    requires runs { Runs objects.old caller.now.place.pid caller.now.control }
    requires placed { IsPlaced objects.old.procs caller.now.place }
    requires opened { IsOpened objects.old.heap objects.old.procs caller.now.place.pid on.now }
    requires right { argument_fault (Call.Lseek on.now.fd distance whence) ≡ None }
    ensures kept { AreKept script.now objects.new }
    ensures takes { TakesNothing objects.old.heap objects.new.heap }
    ensures does { Serves script.now objects.old caller.now.place.pid (Call.Lseek on.now.fd distance whence) (λ plain. lseek script.now plain caller.now.place.pid on.now.fd distance whence) result objects.new }
{
    objects.heap_is_well_formed();
    let sought = seek_number(
        &mut objects.heap,
        &objects.procs,
        &mut objects.tree,
        caller.place,
        on,
        distance,
        whence,
    );
    go_on(script, objects, caller, offset(sought))
}

/// The file that a number is open on gets another size; what it grows by is zeros.
///
/// EBADF where the number isn't open, EINVAL of all but a file, EBADF where it isn't open for writing, EFBIG of a size above the
/// greatest one, ENOSPC where there is no room.
///
/// <https://pubs.opengroup.org/onlinepubs/9699919799/functions/ftruncate.html>
#[inline(never)]
pub fn ftruncate(
    script: &Script,
    objects: &mut Objects,
    purse: &mut Purse,
    caller: &Caller,
    on: &Named,
    size: i64,
) -> Turned
    requires stands { (world : World) × StandsFor script.now objects.old world × IsSound world.plain }
    requires runs { Runs objects.old caller.now.place.pid caller.now.control }
    requires placed { IsPlaced objects.old.procs caller.now.place }
    requires opened { IsOpened objects.old.heap objects.old.procs caller.now.place.pid on.now }
    requires right { argument_fault (Call.Ftruncate on.now.fd size) ≡ None }
    requires may { MayFetch objects.old.heap purse.old }
    requires needed { purse.old.left ≡ need_for File (need_of (Call.Ftruncate on.now.fd size)) }
    ensures kept { AreKept script.now objects.new }
    ensures paid { IsPaid objects.old.heap purse.old objects.new.heap purse.new }
    ensures does { Serves script.now objects.old caller.now.place.pid (Call.Ftruncate on.now.fd size) (λ plain. ftruncate script.now plain caller.now.place.pid on.now.fd size) result objects.new }
{
    objects.heap_is_well_formed();
    let done = size_number(
        &mut objects.heap,
        purse,
        &objects.procs,
        &mut objects.tree,
        caller.place,
        on,
        size,
    );
    go_on(script, objects, caller, zero(done))
}
