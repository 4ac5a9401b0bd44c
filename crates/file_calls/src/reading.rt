//! The calls that read bytes of files and entries of directories: `read`, `pread` and `readdir`.

ghost use Rattle.std.specs.Prelude.{◌≡◌, None};
ghost use Rattle.file_calls.specs.Bytes.{AreBytesCached, told_count};
ghost use Rattle.kabi_types.specs.Arguments.{argument_fault, count_of};
ghost use Rattle.kabi_types.specs.declared.calls.Call.{Call};
ghost use Rattle.kheap_slabs.specs.Paid.{IsPaid};
ghost use Rattle.kheap_slabs.specs.declared.objects.Desc.{Desc as HeldDesc};
ghost use Rattle.memfs_ops.specs.Fetching.{MayFetch};
ghost use Rattle.posix_defs.specs.Calls.Reading.{pread, read, readdir};
ghost use Rattle.posix_defs.specs.Needs.{need_of};
ghost use Rattle.posix_defs.specs.World.{World};
ghost use Rattle.proc_numbers.specs.Found.{IsOnNode, IsOpened};
ghost use Rattle.proc_table.specs.Table.{IsPlaced};
ghost use Rattle.store_objects.specs.Objects.{AreKept, Runs};
ghost use Rattle.store_objects.specs.Purses.{need_for};
ghost use Rattle.store_objects.specs.Standing.{IsSound, StandsFor};
ghost use Rattle.store_objects.specs.Walking.{Serves};
ghost use Rattle.store_objects.specs.declared.purses.Target.TheVariants.{File};

use kabi_types::Script;
use kheap_slabs::Purse;
use posix_defs::Turned;
use proc_files::{FileBuffer, pread_file, read_entries, read_file};
use proc_numbers::Named;
use store_objects::told::value;
use store_objects::{Caller, Objects, go_on};

/// Reads at most n bytes of the file that a number is open on into memory, from the description's offset on, as many as are there;
/// the offset moves behind them. Tells how many; none are the end of the file.
///
/// Where the blocks are cached by which these bytes are reached nothing is read of the disk, and the block of the last of them is
/// cached afterwards. EBADF where the number isn't open for reading, EISDIR of a directory, EFAULT where a page that n bytes would touch isn't mapped.
///
/// <https://pubs.opengroup.org/onlinepubs/9699919799/functions/read.html>
#[inline(never)]
pub fn read(
    script: &Script,
    objects: &mut Objects,
    purse: &mut Purse,
    buffer: &mut FileBuffer,
    caller: &Caller,
    on: &Named,
    addr: i64,
    n: i64,
) -> Turned
    requires stands { (world : World) × StandsFor script.now objects.old world × IsSound world.plain }
    requires runs { Runs objects.old caller.now.place.pid caller.now.control }
    requires placed { IsPlaced objects.old.procs caller.now.place }
    requires opened { IsOpened objects.old.heap objects.old.procs caller.now.place.pid on.now }
    requires on { IsOnNode objects.old.heap objects.old.procs caller.now.place.pid on.now.fd }
    requires right { argument_fault (Call.Read on.now.fd addr n) ≡ None }
    requires may { MayFetch objects.old.heap purse.old }
    requires needed { purse.old.left ≡ need_for File (need_of (Call.Read on.now.fd addr n)) }
    ensures kept { AreKept script.now objects.new }
    ensures paid { IsPaid objects.old.heap purse.old objects.new.heap purse.new }
    ensures does { Serves script.now objects.old caller.now.place.pid (Call.Read on.now.fd addr n) (λ plain. read script.now plain caller.now.place.pid on.now.fd addr n) result objects.new }
    ensures cached { AreBytesCached objects.old caller.now.place.pid on.now.fd (λ (desc : HeldDesc). desc.offset) (told_count result) objects.new }
{
    objects.heap_is_well_formed();
    let moved = read_file(
        &mut objects.heap,
        purse,
        &objects.procs,
        &mut objects.tree,
        buffer,
        caller.place,
        on,
        addr,
        n,
    );
    go_on(script, objects, caller, value(moved))
}

/// Reads at most n bytes of the file that a number is open on into memory, from a place of the file on, as many as are there; the
/// offset stays. Tells how many; none are the end of the file.
///
/// Of what is read and cached the same holds as of `read`. EBADF where the number isn't open for reading, ESPIPE of a pipe and a socket, EISDIR of a directory, EFAULT where a page that n
/// bytes would touch isn't mapped.
///
/// <https://pubs.opengroup.org/onlinepubs/9699919799/functions/pread.html>
#[inline(never)]
pub fn pread(
    script: &Script,
    objects: &mut Objects,
    purse: &mut Purse,
    buffer: &mut FileBuffer,
    caller: &Caller,
    on: &Named,
    addr: i64,
    n: i64,
    at: i64,
) -> Turned
    requires stands { (world : World) × StandsFor script.now objects.old world × IsSound world.plain }
    requires runs { Runs objects.old caller.now.place.pid caller.now.control }
    requires placed { IsPlaced objects.old.procs caller.now.place }
    requires opened { IsOpened objects.old.heap objects.old.procs caller.now.place.pid on.now }
    requires right { argument_fault (Call.Pread on.now.fd addr n at) ≡ None }
    requires may { MayFetch objects.old.heap purse.old }
    requires needed { purse.old.left ≡ need_for File (need_of (Call.Pread on.now.fd addr n at)) }
    ensures kept { AreKept script.now objects.new }
    ensures paid { IsPaid objects.old.heap purse.old objects.new.heap purse.new }
    ensures does { Serves script.now objects.old caller.now.place.pid (Call.Pread on.now.fd addr n at) (λ plain. pread script.now plain caller.now.place.pid on.now.fd addr n at) result objects.new }
    ensures cached { AreBytesCached objects.old caller.now.place.pid on.now.fd (λ (desc : HeldDesc). count_of at) (told_count result) objects.new }
{
    objects.heap_is_well_formed();
    let moved = pread_file(
        &mut objects.heap,
        purse,
        &objects.procs,
        &mut objects.tree,
        buffer,
        caller.place,
        on,
        addr,
        n,
        at,
    );
    go_on(script, objects, caller, value(moved))
}

/// Reads entries of the directory that a number is open on into memory, of 32 bytes each, from the description's offset on, as many
/// whole ones as n bytes and the end allow; the offset moves behind them. Tells how many bytes; none are the end.
///
/// Of what is read and cached the same holds as of `read`. EBADF where the number isn't open, ENOTDIR of all but a directory,
/// EFAULT where a page that n bytes would touch isn't mapped.
///
/// <https://pubs.opengroup.org/onlinepubs/9699919799/functions/readdir.html>
#[inline(never)]
pub fn readdir(
    script: &Script,
    objects: &mut Objects,
    purse: &mut Purse,
    buffer: &mut FileBuffer,
    caller: &Caller,
    on: &Named,
    addr: i64,
    n: i64,
) -> Turned
    requires stands { (world : World) × StandsFor script.now objects.old world × IsSound world.plain }
    requires runs { Runs objects.old caller.now.place.pid caller.now.control }
    requires placed { IsPlaced objects.old.procs caller.now.place }
    requires opened { IsOpened objects.old.heap objects.old.procs caller.now.place.pid on.now }
    requires right { argument_fault (Call.Readdir on.now.fd addr n) ≡ None }
    requires may { MayFetch objects.old.heap purse.old }
    requires needed { purse.old.left ≡ need_for File (need_of (Call.Readdir on.now.fd addr n)) }
    ensures kept { AreKept script.now objects.new }
    ensures paid { IsPaid objects.old.heap purse.old objects.new.heap purse.new }
    ensures does { Serves script.now objects.old caller.now.place.pid (Call.Readdir on.now.fd addr n) (λ plain. readdir script.now plain caller.now.place.pid on.now.fd addr n) result objects.new }
    ensures cached { AreBytesCached objects.old caller.now.place.pid on.now.fd (λ (desc : HeldDesc). desc.offset) (told_count result) objects.new }
{
    objects.heap_is_well_formed();
    let moved = read_entries(
        &mut objects.heap,
        purse,
        &objects.procs,
        &mut objects.tree,
        buffer,
        caller.place,
        on,
        addr,
        n,
    );
    go_on(script, objects, caller, value(moved))
}
