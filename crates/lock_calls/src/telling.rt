//! Which lock is in the way: `getlk`.

ghost use Rattle.std.specs.Prelude.{◌≡◌, None, Option};
ghost use Rattle.std.specs.Option.{option_map};
ghost use Rattle.kabi_types.specs.Arguments.{argument_fault};
ghost use Rattle.kabi_types.specs.declared.calls.Call.{Call};
ghost use Rattle.kheap_slabs.specs.Paid.{TakesNothing};
ghost use Rattle.lock_table.specs.Chain.{HoldsLocks, IsLockTable};
ghost use Rattle.lock_table.specs.Holding.{asked_by, info_of};
ghost use Rattle.posix_defs.specs.Calls.OnLocks.{getlk, lock_told};
ghost use Rattle.posix_defs.specs.Locks.{Lock, Locks};
ghost use Rattle.posix_defs.specs.World.{World};
ghost use Rattle.proc_numbers.specs.Found.{IsOpened};
ghost use Rattle.proc_table.specs.Table.{IsPlaced};
ghost use Rattle.store_objects.specs.Objects.{AreKept, Runs};
ghost use Rattle.store_objects.specs.Standing.{IsSound, StandsFor};
ghost use Rattle.store_objects.specs.Walking.{Serves};
ghost use Rattle.lock_calls.specs.Setting.{first_told};

use crate::claiming::file_of;
use crate::requests::{F_UNLCK, range_of};
use kabi_types::{Errno, Reply, Script};
use lock_table::{LockInfo, LockRange};
use posix_defs::Turned;
use proc_numbers::Named;
use store_objects::{Caller, Objects, go_on};

/// Tells of another process's lock that is in the way of places of the file that a number is open on whose it is and its kind: of
/// the one of least start, and of these of the one of the lowest pid. It tells 0 and F_UNLCK where there is none.
///
/// EBADF where the number isn't open, EINVAL where it is open on no regular file.
///
/// <https://pubs.opengroup.org/onlinepubs/9699919799/functions/fcntl.html>
#[inline(never)]
pub fn getlk(
    script: &Script,
    objects: &mut Objects,
    caller: &Caller,
    on: &Named,
    kind: i64,
    start: i64,
    length: i64,
) -> Turned
    requires stands { (world : World) × StandsFor script.now objects.old world × IsSound world.plain }
    requires runs { Runs objects.old caller.now.place.pid caller.now.control }
    requires placed { IsPlaced objects.old.procs caller.now.place }
    requires opened { IsOpened objects.old.heap objects.old.procs caller.now.place.pid on.now }
    requires right { argument_fault (Call.Getlk on.now.fd kind start length) ≡ None }
    ensures kept { AreKept script.now objects.new }
    ensures takes { TakesNothing objects.old.heap objects.new.heap }
    ensures does { Serves script.now objects.old caller.now.place.pid (Call.Getlk on.now.fd kind start length) (λ plain. getlk script.now plain caller.now.place.pid on.now.fd kind start length) result objects.new }
{
    objects.heap_is_well_formed();
    let range = range_of(kind, start, length);
    let file = file_of(
        &objects.heap,
        &objects.procs,
        &mut objects.tree,
        caller.place,
        on,
    );
    let reply = told_on(objects, caller.place.pid, file, &range);
    go_on(script, objects, caller, reply)
}

/// What is told of a file, or why it isn't looked at.
fn told_on(objects: &Objects, pid: u32, file: Result<u32, Errno>, range: &LockRange) -> Reply
    requires { IsLockTable objects.now.heap.locks objects.now.locks }
    ensures { (locks : Locks) → HoldsLocks objects.now.heap.locks objects.now.locks locks → result ≡ first_told locks pid (asked_by range.now) file }
{
    match file {
        Ok(node) => told(objects.locks.conflict(&objects.heap, node, pid, range)),
        Err(errno) => Reply::Fail(errno),
    }
}

/// Whose a lock is, and its kind.
fn told(lock: Option<LockInfo>) -> Reply
    ensures { (first : Option Lock) → lock ≡ option_map info_of first → result ≡ lock_told first }
{
    match lock {
        Some(lock) => Reply::Pair(lock.pid, lock.kind),
        None => Reply::Pair(0, F_UNLCK),
    }
}
