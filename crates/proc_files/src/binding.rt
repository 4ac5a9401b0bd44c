//! `bind`.

ghost use Rattle.std.specs.Prelude.{◌≡◌, ◌<◌, ◌≤◌, ◌^◌, ℕ, [], OnErr, length};
ghost use Rattle.std.specs.List.{All};
ghost use Rattle.cached_disk.specs.TreeLent.{with_cached};
ghost use Rattle.kabi_types.specs.Arguments.{path_fault};
ghost use Rattle.kabi_types.specs.declared.scripts.Script.{Script};
ghost use Rattle.kheap_slabs.specs.Paid.{HasFills, IsPaid};
ghost use Rattle.memfs_ops.specs.FileTree.{MayWalk};
ghost use Rattle.open_laws.specs.Owned.{HasItsOwners};
ghost use Rattle.open_laws.specs.Placed.{Numbers};
ghost use Rattle.posix_defs.specs.Calls.OnSockets.{bind};
ghost use Rattle.posix_defs.specs.Plain.{Plain};
ghost use Rattle.posix_defs.specs.Process.{directory_of as plain_directory};
ghost use Rattle.proc_table.specs.Table.{IsPlaced};
ghost use Rattle.proc_numbers.specs.Found.{IsOpened};
ghost use Rattle.proc_numbers.specs.Having.{AreListed};
ghost use Rattle.proc_numbers.specs.Queues.{QueuesStand};
ghost use Rattle.proc_numbers.specs.Answering.{zero_of};
ghost use Rattle.proc_files.specs.NameAnswering.{AnswersNaming, NamesChange};
ghost use Rattle.proc_files.specs.NameHolding.{HoldNames, WorksAt, WorksInSome};

use crate::directories::directory_of;
use crate::naming::give_name;
use bound_table::BoundTable;
use kabi_types::Errno;
use kheap_slabs::{KHeap, Purse};
use memfs_ops::FileTree;
use proc_numbers::Named;
use proc_table::{Place, ProcTable};
use usock_core::can_bind;

/// The socket that a number of a process is open on gets a new name in the tree of files.
///
/// EBADF where the number isn't open, ENOTSOCK where it is open on something else, EINVAL where the socket has a name, EISCONN where
/// it is connected; then EADDRINUSE where something is under the path, ENOENT where a slash stands behind a free name, ENOSPC where
/// there is no room, else the faults of the walk. No socket and no name is changed then; the caches may be, once the path is walked.
///
/// <https://pubs.opengroup.org/onlinepubs/9699919799/functions/bind.html>
pub fn bind_number(
    heap: &mut KHeap,
    purse: &mut Purse,
    procs: &ProcTable,
    tree: &mut FileTree,
    names: &mut BoundTable,
    place: Place,
    on: &Named,
    path: &[u8],
) -> Result<(), Errno>
    requires listed { AreListed heap.old procs.now }
    requires owners { HasItsOwners heap.old [] }
    requires there { IsPlaced procs.now place }
    requires opened { IsOpened heap.old procs.now place.pid on.now }
    requires hold { WorksInSome heap.old procs.now tree.old names.old place.pid }
    requires path { path_fault path.now ≡ None }
    requires bytes { All (λ byte. (0 < byte) × (byte < 2 ^ 8)) path.now }
    requires may { MayWalk heap.old purse.old }
    ensures answers { (numbers : Numbers) (others : ℕ → ℕ) (script : Script) (plain : Plain)
        → HoldNames numbers others heap.old procs.now tree.old names.old plain.files
        → WorksAt heap.old procs.now place.pid (plain_directory plain.table place.pid)
        → AnswersNaming numbers others heap.new procs.now tree.new names.new script plain place.pid
        (bind script plain place.pid on.now.fd path.now) (zero_of result) }
    ensures listed { AreListed heap.new procs.now }
    ensures owners { HasItsOwners heap.new [] }
    ensures changes { NamesChange heap.old heap.new }
    ensures unchanged { OnErr result ((heap.new.socks ≡ heap.old.socks) × (names.new ≡ names.old)) }
    ensures places { length names.new ≡ length names.old }
    ensures queues { QueuesStand heap.old heap.new }
    ensures purse { purse.new ≡ with_cached purse.old purse.new }
    ensures paid { IsPaid heap.old purse.old heap.new purse.new }
    ensures fills { HasFills heap.new purse.new }
    ensures reads { tree.old.disk.reads ≤ tree.new.disk.reads }
{
    let found = on.socket()?;
    can_bind(heap, found.key)?;
    let cwd = directory_of(heap, procs, place);
    let node = tree.bind_name(heap, purse, cwd, path)?;
    give_name(heap, names, found.key, node);
    Ok(())
}
