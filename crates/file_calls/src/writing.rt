//! The calls that write bytes to files: `write` and `pwrite`.

ghost use Rattle.std.specs.Prelude.{◌≡◌, None};
ghost use Rattle.kabi_types.specs.Arguments.{argument_fault};
ghost use Rattle.kabi_types.specs.declared.calls.Call.{Call};
ghost use Rattle.kheap_slabs.specs.Paid.{IsPaid};
ghost use Rattle.memfs_ops.specs.Fetching.{MayFetch};
ghost use Rattle.posix_defs.specs.Calls.Writing.{pwrite, write};
ghost use Rattle.posix_defs.specs.Needs.{need_of};
ghost use Rattle.posix_defs.specs.World.{World};
ghost use Rattle.proc_numbers.specs.Found.{IsOnNode, IsOpened};
ghost use Rattle.proc_table.specs.Table.{IsPlaced};
ghost use Rattle.store_objects.specs.Objects.{AreKept, Runs};
ghost use Rattle.store_objects.specs.Purses.{need_for};
ghost use Rattle.store_objects.specs.Standing.{IsSound, StandsFor};
ghost use Rattle.store_objects.specs.Walking.{Serves};
ghost use Rattle.store_objects.specs.declared.purses.Target.TheVariants.{File};

use kabi_types::Script;
use kheap_slabs::Purse;
use posix_defs::Turned;
use proc_files::{FileBuffer, pwrite_file, write_file};
use proc_numbers::Named;
use store_objects::told::value;
use store_objects::{Caller, Objects, go_on};

/// Writes n bytes of memory to the file that a number is open on, at the description's offset, or at the file's end where it was
/// opened so (O_APPEND), as many as there is room for; the offset moves behind them. Tells how many. No part of it was done before,
/// since a write to a file never waits.
///
/// EBADF where the number isn't open for writing, EFAULT where a page of the bytes isn't mapped, EFBIG where the place is at or
/// behind the greatest size, ENOSPC where there is no room for one byte.
///
/// <https://pubs.opengroup.org/onlinepubs/9699919799/functions/write.html>
#[inline(never)]
pub fn write(
    script: &Script,
    objects: &mut Objects,
    purse: &mut Purse,
    buffer: &mut FileBuffer,
    caller: &Caller,
    on: &Named,
    addr: i64,
    n: i64,
) -> Turned
    requires stands { (world : World) × StandsFor script.now objects.old world × IsSound world.plain }
    requires runs { Runs objects.old caller.now.place.pid caller.now.control }
    requires placed { IsPlaced objects.old.procs caller.now.place }
    requires opened { IsOpened objects.old.heap objects.old.procs caller.now.place.pid on.now }
    requires on { IsOnNode objects.old.heap objects.old.procs caller.now.place.pid on.now.fd }
    requires right { argument_fault (Call.Write on.now.fd addr n 0) ≡ None }
    requires may { MayFetch objects.old.heap purse.old }
    requires needed { purse.old.left ≡ need_for File (need_of (Call.Write on.now.fd addr n 0)) }
    ensures kept { AreKept script.now objects.new }
    ensures paid { IsPaid objects.old.heap purse.old objects.new.heap purse.new }
    ensures does { Serves script.now objects.old caller.now.place.pid (Call.Write on.now.fd addr n 0) (λ plain. write script.now plain caller.now.place.pid on.now.fd addr n 0) result objects.new }
{
    objects.heap_is_well_formed();
    let moved = write_file(
        &mut objects.heap,
        purse,
        &objects.procs,
        &mut objects.tree,
        buffer,
        caller.place,
        on,
        addr,
        n,
    );
    go_on(script, objects, caller, value(moved))
}

/// Writes n bytes of memory to the file that a number is open on, at a place of it, whatever O_APPEND says, as many as there is room
/// for; the offset stays. Tells how many.
///
/// EBADF where the number isn't open for writing, ESPIPE of a pipe and a socket, EISDIR of a directory, EFAULT where a page of the
/// bytes isn't mapped, EFBIG where the place is at or behind the greatest size, ENOSPC where there is no room for one byte.
///
/// <https://pubs.opengroup.org/onlinepubs/9699919799/functions/pwrite.html>
#[inline(never)]
pub fn pwrite(
    script: &Script,
    objects: &mut Objects,
    purse: &mut Purse,
    buffer: &mut FileBuffer,
    caller: &Caller,
    on: &Named,
    addr: i64,
    n: i64,
    at: i64,
) -> Turned
    requires stands { (world : World) × StandsFor script.now objects.old world × IsSound world.plain }
    requires runs { Runs objects.old caller.now.place.pid caller.now.control }
    requires placed { IsPlaced objects.old.procs caller.now.place }
    requires opened { IsOpened objects.old.heap objects.old.procs caller.now.place.pid on.now }
    requires right { argument_fault (Call.Pwrite on.now.fd addr n at) ≡ None }
    requires may { MayFetch objects.old.heap purse.old }
    requires needed { purse.old.left ≡ need_for File (need_of (Call.Pwrite on.now.fd addr n at)) }
    ensures kept { AreKept script.now objects.new }
    ensures paid { IsPaid objects.old.heap purse.old objects.new.heap purse.new }
    ensures does { Serves script.now objects.old caller.now.place.pid (Call.Pwrite on.now.fd addr n at) (λ plain. pwrite script.now plain caller.now.place.pid on.now.fd addr n at) result objects.new }
{
    objects.heap_is_well_formed();
    let moved = pwrite_file(
        &mut objects.heap,
        purse,
        &objects.procs,
        &mut objects.tree,
        buffer,
        caller.place,
        on,
        addr,
        n,
        at,
    );
    go_on(script, objects, caller, value(moved))
}
