//! A new description of a file, a directory or an end of a FIFO: `open`.

ghost use Rattle.std.specs.Prelude.{◌≡◌, ◌<◌, ◌^◌, ℕ, ℤ, List, None, Some, true};
ghost use Rattle.std.specs.List.{All};
ghost use Rattle.std.specs.Option.{option_map};
ghost use Rattle.kabi_types.specs.Arguments.{argument_fault};
ghost use Rattle.kabi_types.specs.declared.calls.Call.{Call};
ghost use Rattle.kabi_types.specs.declared.scripts.Script.{Script};
ghost use Rattle.kheap_slabs.specs.Paid.{IsPaid, TakesNothing};
ghost use Rattle.memfs_ops.specs.FileTree.{MayWalk};
ghost use Rattle.posix_defs.specs.Calls.OnFiles.{open_again, open_by, open_file};
ghost use Rattle.posix_defs.specs.Files.State.{opening_at};
ghost use Rattle.posix_defs.specs.Machine.{blocks};
ghost use Rattle.posix_defs.specs.Needs.{need_of};
ghost use Rattle.posix_defs.specs.Process.{is_alive};
ghost use Rattle.posix_defs.specs.World.{World};
ghost use Rattle.proc_table.specs.Opening.{half_in};
ghost use Rattle.proc_table.specs.Table.{IsPlaced};
ghost use Rattle.store_objects.specs.Objects.{AreKept, Runs};
ghost use Rattle.store_objects.specs.Standing.{IsSound, StandsFor};
ghost use Rattle.store_objects.specs.Walking.{Serves};
ghost use Rattle.file_calls.specs.Opening.{came_in, told_of};

use kabi_types::{Errno, Reply, Script};
use kheap_slabs::{HalfOpen, Purse};
use posix_defs::Turned;
use proc_files::{Opened, open_path};
use proc_numbers::is_met;
use proc_table::Place;
use store_objects::{Caller, Objects, do_part, go_on};

/// Has the lowest number that is free name a new description of what a path leads to, which may be made by the way (O_CREAT), and
/// tells it. An open of a FIFO makes its end, and sleeps where the other side has none, but with O_NONBLOCK; it is over once the other
/// side is opened.
///
/// EMFILE where no number is free, before the path is walked; then EEXIST where something is there that must not be, EISDIR where a
/// directory is to be written, EOPNOTSUPP of the name of a socket, ENOENT and ENOSPC where nothing is there and nothing is made, else
/// the faults of the walk.
///
/// <https://pubs.opengroup.org/onlinepubs/9699919799/functions/open.html>
#[inline(never)]
pub fn open(
    script: &Script,
    objects: &mut Objects,
    purse: &mut Purse,
    caller: &Caller,
    path: &[u8],
    flags: i64,
) -> Turned
    requires stands { (world : World) × StandsFor script.now objects.old world × IsSound world.plain }
    requires runs { Runs objects.old caller.now.place.pid caller.now.control }
    requires placed { IsPlaced objects.old.procs caller.now.place }
    requires right { argument_fault (Call.OpenFile path.now flags) ≡ None }
    requires bytes { All (λ byte. (0 < byte) × (byte < 2 ^ 8)) path.now }
    requires may { MayWalk objects.old.heap purse.old }
    requires needed { purse.old.left ≡ need_of (Call.OpenFile path.now flags) }
    requires begins { (world : World) × StandsFor script.now objects.old world × (opening_at world.plain.files caller.now.place.pid ≡ None → caller.now.control.done ≡ 0) }
    ensures kept { AreKept script.now objects.new }
    ensures paid { IsPaid objects.old.heap purse.old objects.new.heap purse.new }
    ensures does { Serves script.now objects.old caller.now.place.pid (Call.OpenFile path.now flags) (λ plain. open_file script.now plain caller.now.place.pid path.now flags) result objects.new }
{
    match opening_of(objects, caller.place) {
        Some(opening) => open_again(script, objects, caller, opening),
        None => open_anew(script, objects, purse, caller, path, flags),
    }
}

// An open that begins: what its path leads to is opened, and where that is a FIFO it may sleep.
fn open_anew(
    script: &Script,
    objects: &mut Objects,
    purse: &mut Purse,
    caller: &Caller,
    path: &[u8],
    flags: i64,
) -> Turned
    requires stands { (world : World) × StandsFor script.now objects.old world × IsSound world.plain }
    requires runs { Runs objects.old caller.now.place.pid caller.now.control }
    requires placed { IsPlaced objects.old.procs caller.now.place }
    requires right { argument_fault (Call.OpenFile path.now flags) ≡ None }
    requires bytes { All (λ byte. (0 < byte) × (byte < 2 ^ 8)) path.now }
    requires may { MayWalk objects.old.heap purse.old }
    requires needed { purse.old.left ≡ need_of (Call.OpenFile path.now flags) }
    requires begins { caller.now.control.done ≡ 0 }
    ensures kept { AreKept script.now objects.new }
    ensures paid { IsPaid objects.old.heap purse.old objects.new.heap purse.new }
    ensures does { Serves script.now objects.old caller.now.place.pid (Call.OpenFile path.now flags) (λ plain. open_by script.now plain caller.now.place.pid path.now flags None) result objects.new }
{
    objects.heap_is_well_formed();
    let came = open_path(
        &mut objects.heap,
        purse,
        &objects.procs,
        &mut objects.tree,
        &mut objects.fifos,
        caller.place,
        path,
        flags,
    );
    go_on_opened(script, objects, caller, came)
}

// The caller goes on behind its open, which told a number or a fault; or it sleeps in it until the other side of a FIFO is opened.
fn go_on_opened(
    script: &Script,
    objects: &mut Objects,
    caller: &Caller,
    came: Result<Opened, Errno>,
) -> Turned
    requires kept { AreKept script.now objects.old }
    requires runs { Runs objects.old caller.now.place.pid caller.now.control }
    requires placed { IsPlaced objects.old.procs caller.now.place }
    requires begins { caller.now.control.done ≡ 0 }
    ensures kept { AreKept script.now objects.new }
    ensures told { result ≡ told_of came }
    ensures takes { TakesNothing objects.old.heap objects.new.heap }
    ensures goes { (world : World) → StandsFor script.now objects.old world → StandsFor script.now objects.new (came_in script.now world caller.now.place.pid came) }
{
    match came {
        Ok(Opened::Over(fd)) => go_on(script, objects, caller, Reply::Val(i64::from(fd))),
        Ok(Opened::Waits(opening)) => {
            objects.wait_in(caller.place, Some(opening));
            do_part(objects, caller, 1)
        }
        Err(errno) => go_on(script, objects, caller, Reply::Fail(errno)),
    }
}

// The open of a FIFO in which a process sleeps, if it sleeps in one.
fn opening_of(objects: &Objects, place: Place) -> Option<HalfOpen>
    requires stands { (script : Script) × (world : World) × StandsFor script objects.now world }
    requires placed { IsPlaced objects.now.procs place }
    ensures { (script : Script) (world : World) → StandsFor script objects.now world
        → option_map half_in result ≡ opening_at world.plain.files place.pid }
{
    objects.procs.at(&objects.heap, place).opening
}

// An open that has made its end is over once the other side was opened, whoever is there now.
fn open_again(script: &Script, objects: &mut Objects, caller: &Caller, opening: HalfOpen) -> Turned
    requires stands { (world : World) × StandsFor script.now objects.old world }
    requires runs { Runs objects.old caller.now.place.pid caller.now.control }
    requires placed { IsPlaced objects.old.procs caller.now.place }
    requires sleeps { (world : World) → StandsFor script.now objects.old world
        → opening_at world.plain.files caller.now.place.pid ≡ Some (half_in opening) }
    ensures kept { AreKept script.now objects.new }
    ensures takes { TakesNothing objects.old.heap objects.new.heap }
    ensures does { (path : List ℕ) (flags : ℤ) → Serves script.now objects.old caller.now.place.pid (Call.OpenFile path flags)
        (λ plain. open_again script.now plain caller.now.place.pid (half_in opening)) result objects.new }
{
    if !is_met(&objects.heap, &objects.procs, caller.place, opening) {
        return Turned::Sleep;
    }
    objects.wait_in(caller.place, None);
    go_on(script, objects, caller, Reply::Val(i64::from(opening.fd)))
}

/// Whether an `open` of a live process would sleep, whatever its operands are, if they are right: it has made its end of a FIFO, whose
/// other side wasn't opened since.
pub fn open_would_block(objects: &Objects, place: Place) -> bool
    requires stands { (script : Script) × (world : World) × StandsFor script objects.now world × (is_alive world.plain.table place.pid ≡ true) }
    requires placed { IsPlaced objects.now.procs place }
    ensures { (script : Script) (world : World) → StandsFor script objects.now world
        → (path : List ℕ) (flags : ℤ) → result ≡ blocks (open_file script world.plain place.pid path flags) }
{
    match opening_of(objects, place) {
        Some(opening) => !is_met(&objects.heap, &objects.procs, place, opening),
        None => false,
    }
}
