//! Where processes work: `chdir`.

ghost use Rattle.std.specs.Prelude.{◌≡◌, None};
ghost use Rattle.kabi_types.specs.Arguments.{argument_fault};
ghost use Rattle.kabi_types.specs.declared.calls.Call.{Call};
ghost use Rattle.kheap_slabs.specs.Paid.{IsPaid};
ghost use Rattle.memfs_ops.specs.FileTree.{MayWalk};
ghost use Rattle.posix_defs.specs.Calls.OnNames.{chdir};
ghost use Rattle.posix_defs.specs.Needs.{need_of};
ghost use Rattle.posix_defs.specs.World.{World};
ghost use Rattle.proc_table.specs.Table.{IsPlaced};
ghost use Rattle.store_objects.specs.Objects.{AreKept, Runs};
ghost use Rattle.store_objects.specs.Standing.{StandsFor};
ghost use Rattle.store_objects.specs.Walking.{Reaches};

use kabi_types::{Reply, Script};
use kheap_slabs::Purse;
use posix_defs::Turned;
use store_objects::{Caller, Objects, directory_of, go_on, work_in};

/// Has the caller work in the directory that a path leads to, which it holds from then on, and lets the one go in which it
/// worked. ENOTDIR where the path leads to no directory, else the faults of the path; the caller works on where it worked then.
///
/// See [chdir](https://pubs.opengroup.org/onlinepubs/9699919799/functions/chdir.html).
#[inline(never)]
pub fn chdir(
    script: &Script,
    objects: &mut Objects,
    purse: &mut Purse,
    caller: &Caller,
    path: &[u8],
) -> Turned
    requires stands { (world : World) × StandsFor script.now objects.old world }
    requires runs { Runs objects.old caller.now.place.pid caller.now.control }
    requires placed { IsPlaced objects.old.procs caller.now.place }
    requires right { argument_fault (Call.Chdir path.now) ≡ None }
    requires may { MayWalk objects.old.heap purse.old }
    requires needed { purse.old.left ≡ need_of (Call.Chdir path.now) }
    ensures kept { AreKept script.now objects.new }
    ensures paid { IsPaid objects.old.heap purse.old objects.new.heap purse.new }
    ensures does { Reaches script.now objects.old caller.now.place.pid (Call.Chdir path.now) (λ plain. chdir script.now plain caller.now.place.pid path.now) result objects.new }
{
    objects.heap_is_well_formed();
    let cwd = directory_of(objects, caller.place);
    match objects.tree.enter(&mut objects.heap, purse, cwd, path) {
        Ok(directory) => {
            work_in(objects, caller.place, directory);
            go_on(script, objects, caller, Reply::Val(0))
        }
        Err(errno) => go_on(script, objects, caller, Reply::Fail(errno)),
    }
}
