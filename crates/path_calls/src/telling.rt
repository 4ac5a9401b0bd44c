//! What is told of a node: `stat`.

ghost use Rattle.std.specs.Prelude.{◌≡◌, None};
ghost use Rattle.kabi_types.specs.Arguments.{argument_fault};
ghost use Rattle.kabi_types.specs.declared.calls.Call.{Call};
ghost use Rattle.kheap_slabs.specs.Paid.{IsPaid};
ghost use Rattle.memfs_ops.specs.FileTree.{MayWalk};
ghost use Rattle.posix_defs.specs.Calls.OnNames.{stat};
ghost use Rattle.posix_defs.specs.Needs.{need_of};
ghost use Rattle.posix_defs.specs.World.{World};
ghost use Rattle.proc_table.specs.Table.{IsPlaced};
ghost use Rattle.store_objects.specs.Objects.{AreKept, Runs};
ghost use Rattle.store_objects.specs.Standing.{StandsFor};
ghost use Rattle.store_objects.specs.Walking.{Reaches};

use kabi_types::{Reply, Script};
use kheap_slabs::Purse;
use posix_defs::Turned;
use store_objects::{Caller, Objects, directory_of, go_on};

/// Tells what there is of the node that a path leads to, or the fault of its path.
#[inline(never)]
pub fn stat(
    script: &Script,
    objects: &mut Objects,
    purse: &mut Purse,
    caller: &Caller,
    path: &[u8],
) -> Turned
    requires stands { (world : World) × StandsFor script.now objects.old world }
    requires runs { Runs objects.old caller.now.place.pid caller.now.control }
    requires placed { IsPlaced objects.old.procs caller.now.place }
    requires right { argument_fault (Call.Stat path.now) ≡ None }
    requires may { MayWalk objects.old.heap purse.old }
    requires needed { purse.old.left ≡ need_of (Call.Stat path.now) }
    ensures kept { AreKept script.now objects.new }
    ensures paid { IsPaid objects.old.heap purse.old objects.new.heap purse.new }
    ensures does { Reaches script.now objects.old caller.now.place.pid (Call.Stat path.now) (λ plain. stat script.now plain caller.now.place.pid path.now) result objects.new }
{
    let cwd = directory_of(objects, caller.place);
    match objects.tree.stat_path(&mut objects.heap, purse, cwd, path) {
        Ok(info) => go_on(script, objects, caller, Reply::Stat(info)),
        Err(errno) => go_on(script, objects, caller, Reply::Fail(errno)),
    }
}
