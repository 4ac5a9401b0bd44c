//! Names that go, and that nodes get: `unlink`, `link` and `rename`.

ghost use Rattle.std.specs.Prelude.{◌≡◌, ◌<◌, ◌^◌, None};
ghost use Rattle.std.specs.List.{All};
ghost use Rattle.kabi_types.specs.Arguments.{argument_fault};
ghost use Rattle.kabi_types.specs.declared.calls.Call.{Call};
ghost use Rattle.kheap_slabs.specs.Paid.{IsPaid};
ghost use Rattle.memfs_ops.specs.FileTree.{MayWalk};
ghost use Rattle.posix_defs.specs.Calls.OnNames.{link, rename, unlink};
ghost use Rattle.posix_defs.specs.Needs.{need_of};
ghost use Rattle.posix_defs.specs.World.{World};
ghost use Rattle.proc_table.specs.Table.{IsPlaced};
ghost use Rattle.store_objects.specs.Objects.{AreKept, Runs};
ghost use Rattle.store_objects.specs.Standing.{IsSound, StandsFor};
ghost use Rattle.store_objects.specs.Walking.{Reaches, Serves};

use crate::held::add_all_held;
use crate::node_set::NodeSet;
use crate::replies::{done, freed, gone_reply};
use kabi_types::Script;
use kheap_slabs::Purse;
use posix_defs::Turned;
use proc_files::name_freed;
use store_objects::{Caller, Objects, directory_of, go_on};

/// Takes a name away, and with the last one its node, but for a file that a description opens. A socket that was bound to the node
/// keeps no name. EPERM where it is a directory, ENOENT where the name is free, else the faults of its path.
///
/// <https://pubs.opengroup.org/onlinepubs/9699919799/functions/unlink.html>
#[inline(never)]
pub fn unlink(
    script: &Script,
    objects: &mut Objects,
    purse: &mut Purse,
    caller: &Caller,
    path: &[u8],
) -> Turned
    requires stands { (world : World) × StandsFor script.now objects.old world × IsSound world.plain }
    requires runs { Runs objects.old caller.now.place.pid caller.now.control }
    requires placed { IsPlaced objects.old.procs caller.now.place }
    requires right { argument_fault (Call.Unlink path.now) ≡ None }
    requires may { MayWalk objects.old.heap purse.old }
    requires needed { purse.old.left ≡ need_of (Call.Unlink path.now) }
    ensures kept { AreKept script.now objects.new }
    ensures paid { IsPaid objects.old.heap purse.old objects.new.heap purse.new }
    ensures does { Serves script.now objects.old caller.now.place.pid (Call.Unlink path.now) (λ plain. unlink script.now plain caller.now.place.pid path.now) result objects.new }
{
    let cwd = directory_of(objects, caller.place);
    let gone = objects
        .tree
        .remove_name(&mut objects.heap, purse, cwd, path);
    objects.heap_is_well_formed();
    name_freed(&mut objects.heap, &mut objects.names, freed(&gone));
    go_on(script, objects, caller, gone_reply(gone))
}

/// Gives a node that is no directory a further name. EPERM where it is one, EEXIST where something is under the new name, ENOENT
/// where a slash stands behind it, EMLINK where the node has 127 names, ENOSPC where there is no room, else the faults of both
/// paths.
///
/// <https://pubs.opengroup.org/onlinepubs/9699919799/functions/link.html>
#[inline(never)]
pub fn link(
    script: &Script,
    objects: &mut Objects,
    purse: &mut Purse,
    caller: &Caller,
    old: &[u8],
    new: &[u8],
) -> Turned
    requires stands { (world : World) × StandsFor script.now objects.old world }
    requires runs { Runs objects.old caller.now.place.pid caller.now.control }
    requires placed { IsPlaced objects.old.procs caller.now.place }
    requires right { argument_fault (Call.Link old.now new.now) ≡ None }
    requires bytes { All (λ byte. (0 < byte) × (byte < 2 ^ 8)) new.now }
    requires may { MayWalk objects.old.heap purse.old }
    requires needed { purse.old.left ≡ need_of (Call.Link old.now new.now) }
    ensures kept { AreKept script.now objects.new }
    ensures paid { IsPaid objects.old.heap purse.old objects.new.heap purse.new }
    ensures does { Reaches script.now objects.old caller.now.place.pid (Call.Link old.now new.now) (λ plain. link script.now plain caller.now.place.pid old.now new.now) result objects.new }
{
    let cwd = directory_of(objects, caller.place);
    let linked = objects
        .tree
        .link_name(&mut objects.heap, purse, cwd, old, new);
    go_on(script, objects, caller, done(linked))
}

/// Gives the node of one path the name of another, which loses the node that it had; a socket that was bound to that one keeps no
/// name. ENOENT where the old name is free, EBUSY where a path leads to the root or to a directory that goes, in which somebody works
/// or which is open, EINVAL where a directory would go below itself, EISDIR and ENOTDIR where one of two nodes alone is a directory or
/// a slash stands behind a free name, ENOTEMPTY where a directory that goes has entries, ENOSPC where there is no room, else the faults
/// of both paths.
///
/// <https://pubs.opengroup.org/onlinepubs/9699919799/functions/rename.html>
#[inline(never)]
pub fn rename(
    script: &Script,
    objects: &mut Objects,
    purse: &mut Purse,
    caller: &Caller,
    old: &[u8],
    new: &[u8],
) -> Turned
    requires stands { (world : World) × StandsFor script.now objects.old world × IsSound world.plain }
    requires runs { Runs objects.old caller.now.place.pid caller.now.control }
    requires placed { IsPlaced objects.old.procs caller.now.place }
    requires right { argument_fault (Call.Rename old.now new.now) ≡ None }
    requires bytes { All (λ byte. (0 < byte) × (byte < 2 ^ 8)) new.now }
    requires may { MayWalk objects.old.heap purse.old }
    requires needed { purse.old.left ≡ need_of (Call.Rename old.now new.now) }
    ensures kept { AreKept script.now objects.new }
    ensures paid { IsPaid objects.old.heap purse.old objects.new.heap purse.new }
    ensures does { Serves script.now objects.old caller.now.place.pid (Call.Rename old.now new.now) (λ plain. rename script.now plain caller.now.place.pid old.now new.now) result objects.new }
{
    objects.heap_is_well_formed();
    let cwd = directory_of(objects, caller.place);
    let mut held = NodeSet::new();
    let no_fifo = objects.fifos.is_empty();
    add_all_held(&objects.heap, &objects.procs, no_fifo, &mut held);
    let busy = |node: u32| held.has(node);
    let renamed = objects
        .tree
        .rename_name(&mut objects.heap, purse, cwd, old, new, &busy);
    objects.heap_is_well_formed();
    name_freed(&mut objects.heap, &mut objects.names, freed(&renamed));
    go_on(script, objects, caller, gone_reply(renamed))
}
