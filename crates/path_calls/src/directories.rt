//! Directories that are made and that go, and FIFOs that are made: `mkdir`, `rmdir` and `mkfifo`.

ghost use Rattle.std.specs.Prelude.{◌≡◌, ◌<◌, ◌^◌, None};
ghost use Rattle.std.specs.List.{All};
ghost use Rattle.kabi_types.specs.Arguments.{argument_fault};
ghost use Rattle.kabi_types.specs.declared.calls.Call.{Call};
ghost use Rattle.kheap_slabs.specs.Paid.{IsPaid};
ghost use Rattle.memfs_ops.specs.FileTree.{MayWalk};
ghost use Rattle.posix_defs.specs.Calls.OnNames.{mkdir, mkfifo, rmdir};
ghost use Rattle.posix_defs.specs.Needs.{need_of};
ghost use Rattle.posix_defs.specs.World.{World};
ghost use Rattle.proc_table.specs.Table.{IsPlaced};
ghost use Rattle.store_objects.specs.Objects.{AreKept, Runs};
ghost use Rattle.store_objects.specs.Standing.{StandsFor};
ghost use Rattle.store_objects.specs.Walking.{Reaches};

use crate::held::add_all_held;
use crate::node_set::NodeSet;
use crate::replies::done;
use kabi_types::Script;
use kheap_slabs::Purse;
use posix_defs::Turned;
use store_objects::{Caller, Objects, directory_of, go_on};

/// Makes a directory without entries. EEXIST where something is under its name, ENOSPC where there is no room, else the faults of
/// its path.
///
/// <https://pubs.opengroup.org/onlinepubs/9699919799/functions/mkdir.html>
#[inline(never)]
pub fn mkdir(
    script: &Script,
    objects: &mut Objects,
    purse: &mut Purse,
    caller: &Caller,
    path: &[u8],
) -> Turned
    requires stands { (world : World) × StandsFor script.now objects.old world }
    requires runs { Runs objects.old caller.now.place.pid caller.now.control }
    requires placed { IsPlaced objects.old.procs caller.now.place }
    requires right { argument_fault (Call.Mkdir path.now) ≡ None }
    requires bytes { All (λ byte. (0 < byte) × (byte < 2 ^ 8)) path.now }
    requires may { MayWalk objects.old.heap purse.old }
    requires needed { purse.old.left ≡ need_of (Call.Mkdir path.now) }
    ensures kept { AreKept script.now objects.new }
    ensures paid { IsPaid objects.old.heap purse.old objects.new.heap purse.new }
    ensures does { Reaches script.now objects.old caller.now.place.pid (Call.Mkdir path.now) (λ plain. mkdir script.now plain caller.now.place.pid path.now) result objects.new }
{
    let cwd = directory_of(objects, caller.place);
    let made = objects.tree.make_dir(&mut objects.heap, purse, cwd, path);
    go_on(script, objects, caller, done(made))
}

/// Makes a FIFO. EEXIST where something is under its name, ENOENT where a slash stands behind the name, ENOSPC where there is no room,
/// else the faults of its path.
///
/// <https://pubs.opengroup.org/onlinepubs/9699919799/functions/mkfifo.html>
#[inline(never)]
pub fn mkfifo(
    script: &Script,
    objects: &mut Objects,
    purse: &mut Purse,
    caller: &Caller,
    path: &[u8],
) -> Turned
    requires stands { (world : World) × StandsFor script.now objects.old world }
    requires runs { Runs objects.old caller.now.place.pid caller.now.control }
    requires placed { IsPlaced objects.old.procs caller.now.place }
    requires right { argument_fault (Call.Mkfifo path.now) ≡ None }
    requires bytes { All (λ byte. (0 < byte) × (byte < 2 ^ 8)) path.now }
    requires may { MayWalk objects.old.heap purse.old }
    requires needed { purse.old.left ≡ need_of (Call.Mkfifo path.now) }
    ensures kept { AreKept script.now objects.new }
    ensures paid { IsPaid objects.old.heap purse.old objects.new.heap purse.new }
    ensures does { Reaches script.now objects.old caller.now.place.pid (Call.Mkfifo path.now) (λ plain. mkfifo script.now plain caller.now.place.pid path.now) result objects.new }
{
    let cwd = directory_of(objects, caller.place);
    let named = objects.tree.make_fifo(&mut objects.heap, purse, cwd, path);
    go_on(script, objects, caller, done(named))
}

/// Takes a directory without entries away. EINVAL and ENOTEMPTY where its path ends in `.` and `..`, ENOTEMPTY where it has entries,
/// ENOTDIR where it is none, EBUSY where it is the root, somebody works in it or has it open, else the faults of its path.
///
/// <https://pubs.opengroup.org/onlinepubs/9699919799/functions/rmdir.html>
#[inline(never)]
pub fn rmdir(
    script: &Script,
    objects: &mut Objects,
    purse: &mut Purse,
    caller: &Caller,
    path: &[u8],
) -> Turned
    requires stands { (world : World) × StandsFor script.now objects.old world }
    requires runs { Runs objects.old caller.now.place.pid caller.now.control }
    requires placed { IsPlaced objects.old.procs caller.now.place }
    requires right { argument_fault (Call.Rmdir path.now) ≡ None }
    requires may { MayWalk objects.old.heap purse.old }
    requires needed { purse.old.left ≡ need_of (Call.Rmdir path.now) }
    ensures kept { AreKept script.now objects.new }
    ensures paid { IsPaid objects.old.heap purse.old objects.new.heap purse.new }
    ensures does { Reaches script.now objects.old caller.now.place.pid (Call.Rmdir path.now) (λ plain. rmdir script.now plain caller.now.place.pid path.now) result objects.new }
{
    objects.heap_is_well_formed();
    let cwd = directory_of(objects, caller.place);
    let mut held = NodeSet::new();
    let no_fifo = objects.fifos.is_empty();
    add_all_held(&objects.heap, &objects.procs, no_fifo, &mut held);
    let busy = |node: u32| held.has(node);
    let gone = objects
        .tree
        .remove_dir(&mut objects.heap, purse, cwd, path, &busy);
    go_on(script, objects, caller, done(gone))
}
