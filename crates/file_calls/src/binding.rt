//! `bind`.

ghost use Rattle.std.specs.Prelude.{◌≡◌, ◌<◌, ◌^◌, None};
ghost use Rattle.std.specs.List.{All};
ghost use Rattle.kabi_types.specs.Arguments.{argument_fault};
ghost use Rattle.kabi_types.specs.declared.calls.Call.{Call};
ghost use Rattle.kheap_slabs.specs.Paid.{IsPaid};
ghost use Rattle.memfs_ops.specs.FileTree.{MayWalk};
ghost use Rattle.posix_defs.specs.Calls.OnSockets.{bind};
ghost use Rattle.posix_defs.specs.Needs.{need_of};
ghost use Rattle.posix_defs.specs.World.{World};
ghost use Rattle.proc_numbers.specs.Found.{IsOpened};
ghost use Rattle.proc_table.specs.Table.{IsPlaced};
ghost use Rattle.store_objects.specs.Objects.{AreKept, Runs};
ghost use Rattle.store_objects.specs.Standing.{IsSound, StandsFor};
ghost use Rattle.store_objects.specs.Walking.{Serves};

use kabi_types::Script;
use kheap_slabs::Purse;
use posix_defs::Turned;
use proc_files::bind_number;
use proc_numbers::Named;
use store_objects::told::zero;
use store_objects::{Caller, Objects, go_on};

/// Gives the socket that a number is open on a new name in the tree of files.
///
/// EBADF where the number isn't open, ENOTSOCK where it is open on something else, EINVAL where the socket has a name, EISCONN where
/// it is connected; then EADDRINUSE where something is under the path, ENOENT where a slash stands behind a free name, ENOSPC where
/// there is no room, else the faults of the walk.
///
/// <https://pubs.opengroup.org/onlinepubs/9699919799/functions/bind.html>
#[inline(never)]
pub fn bind(
    script: &Script,
    objects: &mut Objects,
    purse: &mut Purse,
    caller: &Caller,
    on: &Named,
    path: &[u8],
) -> Turned
    requires stands { (world : World) × StandsFor script.now objects.old world × IsSound world.plain }
    requires runs { Runs objects.old caller.now.place.pid caller.now.control }
    requires placed { IsPlaced objects.old.procs caller.now.place }
    requires opened { IsOpened objects.old.heap objects.old.procs caller.now.place.pid on.now }
    requires right { argument_fault (Call.Bind on.now.fd path.now) ≡ None }
    requires bytes { All (λ byte. (0 < byte) × (byte < 2 ^ 8)) path.now }
    requires may { MayWalk objects.old.heap purse.old }
    requires needed { purse.old.left ≡ need_of (Call.Bind on.now.fd path.now) }
    ensures kept { AreKept script.now objects.new }
    ensures paid { IsPaid objects.old.heap purse.old objects.new.heap purse.new }
    ensures does { Serves script.now objects.old caller.now.place.pid (Call.Bind on.now.fd path.now) (λ plain. bind script.now plain caller.now.place.pid on.now.fd path.now) result objects.new }
{
    objects.heap_is_well_formed();
    let done = bind_number(
        &mut objects.heap,
        purse,
        &objects.procs,
        &mut objects.tree,
        &mut objects.names,
        caller.place,
        on,
        path,
    );
    go_on(script, objects, caller, zero(done))
}
