//! Places of a file are held, or let go: `setlk` and `setlkw`.

ghost use Rattle.std.specs.Prelude.{◌≡◌, ◌≤◌, ℕ, None};
ghost use Rattle.kabi_types.specs.Arguments.{argument_fault};
ghost use Rattle.kabi_types.specs.declared.calls.Call.{Call};
ghost use Rattle.kabi_types.specs.declared.errnos.Errno.TheVariants.{EDEADLK};
ghost use Rattle.kabi_types.specs.declared.replies.Reply.TheVariants.{Fail};
ghost use Rattle.kabi_types.specs.declared.scripts.Script.{Script as ScriptOf};
ghost use Rattle.kheap_slabs.specs.Paid.{CanPay, IsPaid, TakesNothing};
ghost use Rattle.lock_table.specs.Chain.{HoldsLocks, IsLockTable};
ghost use Rattle.lock_table.specs.Holding.{IsAsked, asked_by};
ghost use Rattle.posix_defs.specs.Calls.OnLocks.{circles, is_clear, setlk, setlkw};
ghost use Rattle.open_laws.specs.Placed.{Numbers};
ghost use Rattle.posix_defs.specs.Files.State.{Files};
ghost use Rattle.posix_defs.specs.Locks.{Locks};
ghost use Rattle.posix_defs.specs.World.{World};
ghost use Rattle.posix_defs.specs.declared.turner.Turned.TheVariants as turned;
ghost use Rattle.proc_numbers.specs.Found.{IsOpened};
ghost use Rattle.proc_table.specs.Table.{IsPlaced};
ghost use Rattle.store_objects.specs.Objects.{AreKept, Runs};
ghost use Rattle.store_objects.specs.Standing.{IsSound, StandsFor, answered_in};
ghost use Rattle.store_objects.specs.Walking.{Serves};
ghost use Rattle.memfs_ops.specs.FileTree.{IsUsed};
ghost use Rattle.proc_files.specs.Answering.{StaysOffNodes};
ghost use Rattle.proc_files.specs.Holding.{HoldFiles};
ghost use Rattle.lock_calls.specs.Setting.{ChangesLocks, HasTried, locks_after, told_of, wait_told};

use crate::claiming::claimed;
use crate::requests::range_of;
use crate::waits::{Waits, is_held_up};
use kabi_types::{Errno, Reply, Script};
use kheap_slabs::Purse;
use lock_table::LockRange;
use posix_defs::Turned;
use proc_numbers::Named;
use store_objects::{Caller, Objects, go_on};

/// Has the caller hold places of the file that a number is open on, with a kind, or lets them go.
///
/// EBADF where the number isn't open, EINVAL where it is open on no regular file, EBADF where it isn't open for that, EAGAIN where
/// another process's lock is in the way.
///
/// <https://pubs.opengroup.org/onlinepubs/9699919799/functions/fcntl.html>
#[inline(never)]
pub fn setlk(
    script: &Script,
    objects: &mut Objects,
    purse: &mut Purse,
    caller: &Caller,
    on: &Named,
    kind: i64,
    start: i64,
    length: i64,
) -> Turned
    requires stands { (world : World) × StandsFor script.now objects.old world × IsSound world.plain }
    requires runs { Runs objects.old caller.now.place.pid caller.now.control }
    requires placed { IsPlaced objects.old.procs caller.now.place }
    requires opened { IsOpened objects.old.heap objects.old.procs caller.now.place.pid on.now }
    requires right { argument_fault (Call.Setlk on.now.fd kind start length) ≡ None }
    requires pays { CanPay objects.old.heap purse.old }
    requires left { 2 ≤ purse.old.left.lock }
    ensures kept { AreKept script.now objects.new }
    ensures paid { IsPaid objects.old.heap purse.old objects.new.heap purse.new }
    ensures does { Serves script.now objects.old caller.now.place.pid (Call.Setlk on.now.fd kind start length) (λ plain. setlk script.now plain caller.now.place.pid on.now.fd kind start length) result objects.new }
{
    objects.heap_is_well_formed();
    let range = range_of(kind, start, length);
    let reply = told(set_claimed(objects, purse, caller, on, &range));
    go_on(script, objects, caller, reply)
}

/// The same, but where another process's lock is in the way it sleeps; EDEADLK where it would wait for itself then, through whomever.
///
/// <https://pubs.opengroup.org/onlinepubs/9699919799/functions/fcntl.html>
#[inline(never)]
pub fn setlkw(
    script: &Script,
    objects: &mut Objects,
    purse: &mut Purse,
    caller: &Caller,
    on: &Named,
    kind: i64,
    start: i64,
    length: i64,
) -> Turned
    requires stands { (world : World) × StandsFor script.now objects.old world × IsSound world.plain }
    requires runs { Runs objects.old caller.now.place.pid caller.now.control }
    requires placed { IsPlaced objects.old.procs caller.now.place }
    requires opened { IsOpened objects.old.heap objects.old.procs caller.now.place.pid on.now }
    requires right { argument_fault (Call.Setlkw on.now.fd kind start length) ≡ None }
    requires pays { CanPay objects.old.heap purse.old }
    requires left { 2 ≤ purse.old.left.lock }
    ensures kept { AreKept script.now objects.new }
    ensures paid { IsPaid objects.old.heap purse.old objects.new.heap purse.new }
    ensures does { Serves script.now objects.old caller.now.place.pid (Call.Setlkw on.now.fd kind start length) (λ plain. setlkw script.now plain caller.now.place.pid on.now.fd kind start length) result objects.new }
{
    objects.heap_is_well_formed();
    let range = range_of(kind, start, length);
    if is_held_up(objects, caller.place, on, &range) {
        return wait(script, objects, caller);
    }
    let reply = told(set_claimed(objects, purse, caller, on, &range));
    go_on(script, objects, caller, reply)
}

/// What is told of places that were set or not, or of why they weren't asked for.
fn told(done: Result<bool, Errno>) -> Reply
    ensures { result ≡ told_of done }
{
    match done {
        Ok(true) => Reply::Val(0),
        Ok(false) => Reply::Fail(Errno::EAGAIN),
        Err(errno) => Reply::Fail(errno),
    }
}

/// The caller sleeps, unless it would wait for itself.
fn wait(script: &Script, objects: &mut Objects, caller: &Caller) -> Turned
    requires kept { AreKept script.now objects.old }
    requires runs { Runs objects.old caller.now.place.pid caller.now.control }
    requires placed { IsPlaced objects.old.procs caller.now.place }
    ensures kept { AreKept script.now objects.new }
    ensures takes { TakesNothing objects.old.heap objects.new.heap }
    ensures told { (world : World) → StandsFor script.now objects.old world → IsSound world.plain
        → result ≡ wait_told (circles script.now world.plain caller.now.place.pid) }
    ensures asleep { result ≡ turned.Sleep → objects.new ≡ objects.old }
    ensures goes { result ≡ turned.Done (Fail EDEADLK) → (world : World) → StandsFor script.now objects.old world
        → StandsFor script.now objects.new (answered_in script.now world caller.now.place.pid (Fail EDEADLK)) }
{
    if circles(script, objects, caller) {
        go_on(script, objects, caller, Reply::Fail(Errno::EDEADLK))
    } else {
        Turned::Sleep
    }
}

/// Has the caller's kind be the one asked for at each place that is asked for, unless a lock of another process is in the way. It tells
/// whether.
fn set_claimed(
    objects: &mut Objects,
    purse: &mut Purse,
    caller: &Caller,
    on: &Named,
    range: &LockRange,
) -> Result<bool, Errno>
    requires stands { (script : ScriptOf) × (world : World) × StandsFor script objects.old world × IsSound world.plain }
    requires runs { Runs objects.old caller.now.place.pid caller.now.control }
    requires placed { IsPlaced objects.old.procs caller.now.place }
    requires opened { IsOpened objects.old.heap objects.old.procs caller.now.place.pid on.now }
    requires asked { IsAsked range.now }
    requires pays { CanPay objects.old.heap purse.old }
    requires left { 2 ≤ purse.old.left.lock }
    ensures tries { (script : ScriptOf) (world : World) → StandsFor script objects.old world → IsSound world.plain
        → HasTried objects.old objects.new world.plain caller.now.place.pid on.now.fd (asked_by range.now) result }
    ensures holds { (numbers : Numbers) (others : ℕ → ℕ) (files : Files) → HoldFiles numbers others objects.old.heap objects.old.procs objects.old.tree files
        → HoldFiles numbers others objects.new.heap objects.old.procs objects.new.tree files }
    ensures stays { StaysOffNodes objects.old.heap objects.old.procs caller.now.place.pid on.now.fd objects.old.tree objects.new.tree }
    ensures used { IsUsed objects.old.tree objects.new.tree }
    ensures beside { ChangesLocks objects.old objects.new }
    ensures paid { IsPaid objects.old.heap purse.old objects.new.heap purse.new }
{
    objects.heap_is_well_formed();
    let file = claimed(
        &objects.heap,
        &objects.procs,
        &mut objects.tree,
        caller.place,
        on,
        range.kind,
    );
    match file {
        Ok(node) => Ok(set_if_clear(objects, purse, caller.place.pid, node, range)),
        Err(errno) => Err(errno),
    }
}

/// The same of a file.
fn set_if_clear(
    objects: &mut Objects,
    purse: &mut Purse,
    pid: u32,
    node: u32,
    range: &LockRange,
) -> bool
    requires table { IsLockTable objects.old.heap.locks objects.old.locks }
    requires asked { IsAsked range.now }
    requires pays { CanPay objects.old.heap purse.old }
    requires left { 2 ≤ purse.old.left.lock }
    ensures clear { (locks : Locks) → HoldsLocks objects.old.heap.locks objects.old.locks locks → result ≡ is_clear locks pid node (asked_by range.now) }
    ensures locks { (locks : Locks) → HoldsLocks objects.old.heap.locks objects.old.locks locks
        → HoldsLocks objects.new.heap.locks objects.new.locks (locks_after locks pid node (asked_by range.now) result) }
    ensures same { objects.new ≡ record objects.old { heap = objects.new.heap; locks = objects.new.locks } }
    ensures heap { objects.new.heap ≡ record objects.old.heap { locks = objects.new.heap.locks; high = objects.new.heap.high } }
    ensures paid { IsPaid objects.old.heap purse.old objects.new.heap purse.new }
{
    let first = objects.locks.conflict(&objects.heap, node, pid, range);
    if first.is_some() {
        return false;
    }
    objects
        .locks
        .set(&mut objects.heap, purse, node, pid, range);
    true
}

/// Whether a chain of waits leads from the caller back to itself. It stands by itself, since it has room for all who wait.
#[inline(never)]
fn circles(script: &Script, objects: &Objects, caller: &Caller) -> bool
    requires kept { AreKept script.now objects.now }
    requires placed { IsPlaced objects.now.procs caller.now.place }
    ensures { (world : World) → StandsFor script.now objects.now world → IsSound world.plain → result ≡ circles script.now world.plain caller.now.place.pid }
{
    Waits::of(script, objects).circle(objects, caller.place.pid)
}
