//! Who waits for whom.

ghost use Rattle.std.specs.Prelude.{◌≡◌, ◌<◌, ◌≤◌, ℕ, IsSome, None, Some, false, length, not, true};
ghost use Rattle.std.specs.Int.{bit_at};
ghost use Rattle.kabi_types.specs.declared.calls.Call.{Call};
ghost use Rattle.kheap_slabs.specs.Heap.{Heap};
ghost use Rattle.kabi_types.specs.declared.scripts.Script.{Script as ScriptOf};
ghost use Rattle.lock_table.specs.Chain.{HoldsLocks, IsLockTable};
ghost use Rattle.lock_table.specs.Holding.{asked_by};
ghost use Rattle.open_laws.specs.Placed.{Numbers};
ghost use Rattle.posix_defs.specs.Calls.OnLocks.{circles, is_clear, wanted_by, wanted_on};
ghost use Rattle.posix_defs.specs.Calls.Opened.{opened_at};
ghost use Rattle.posix_defs.specs.Files.State.{Files};
ghost use Rattle.posix_defs.specs.Locks.{Locks, stops};
ghost use Rattle.posix_defs.specs.Plain.{call_of};
ghost use Rattle.posix_defs.specs.Process.{is_alive};
ghost use Rattle.posix_defs.specs.World.{World};
ghost use Rattle.prog_ctl.specs.Waits.{wait_of};
ghost use Rattle.proc_numbers.specs.Found.{IsOpened};
ghost use Rattle.proc_numbers.specs.Having.{HaveOpen};
ghost use Rattle.proc_table.specs.Table.{IsPlaced, TableView, key_of};
ghost use Rattle.store_objects.specs.Objects.{AreKept};
ghost use Rattle.store_objects.specs.Standing.{IsSound, StandsFor};
ghost use Rattle.lock_calls.specs.Claiming.{all_wanted};
ghost use Rattle.lock_calls.specs.Waiting.{AreCircling, AreRows, IsRowOf, bit_if, is_held_up, pid_at, stops_at};

use crate::claiming::{may_hold, node_of};
use crate::requests::right_range;
use kabi_types::Script;
use lock_table::LockRange;
use proc_numbers::{Named, opened};
use proc_table::Place;
use prog_ctl::{Awaited, wait_here};
use store_objects::Objects;
use wait_graph::circling;

/// How many processes may be there.
const MOST: usize = 64;

/// The places of a file for which a process would wait.
#[derive(Clone, Copy)]
struct Wanted {
    node: u32,
    range: LockRange,
}

/// Of each process that is there, at its place among these, whether a chain of waits leads from it back to itself, as a bit.
#[derive(Clone, Copy)]
pub struct Waits {
    circling: u64,
}

impl Waits {
    /// Whom chains of waits lead back to now. It stands by itself, since it has room for all who wait.
    #[inline(never)]
    pub fn of(script: &Script, objects: &Objects) -> Waits
        requires { AreKept script.now objects.now }
        ensures { AreCircling script.now objects.now result.circling }
    {
        let rows = rows_of(script, objects);
        Waits {
            circling: circling(&rows),
        }
    }

    /// Whether a chain of waits leads from a process back to itself.
    pub fn circle(&self, objects: &Objects, pid: u32) -> bool
        requires { IsSome (key_of objects.now.procs.listed pid) }
        ensures { (script : ScriptOf) (world : World) → AreCircling script objects.now self.now.circling → StandsFor script objects.now world → IsSound world.plain
            → result ≡ circles script world.plain pid }
    {
        (self.circling >> place_of(objects.procs.listed(), pid)) & 1 == 1
    }
}

/// For each process that is there, at its place among these, those that hold what is in its way, as bits: none where its next call
/// isn't a `setlkw` that gets so far.
fn rows_of(script: &Script, objects: &Objects) -> [u64; MOST]
    requires { AreKept script.now objects.now }
    ensures rows { AreRows script.now objects.now result }
    ensures few { length objects.now.procs.listed ≤ 64 }
{
    objects.heap_is_well_formed();
    let mut rows = [0; MOST];
    let mut at = 0;
    for place in objects.procs.listed() {
        rows[at] = row_of(script, objects, *place);
        at += 1;
    }
    rows
}

/// For which places of a file a number asks; None where it would be refused before it waits. Whether the node is a directory isn't looked
/// at, of which nobody holds places.
fn wanted_on(on: &Named, range: LockRange) -> Option<Wanted>
    ensures { (h : Heap) (kept : TableView) (pid : ℕ) (numbers : Numbers) (files : Files) → IsOpened h kept pid on.now → HaveOpen numbers h kept files
        → all_wanted files.tree result ≡ wanted_on files (asked_by range) (opened_at files pid on.now.fd) }
{
    let Some(found) = on.found else {
        return None;
    };
    let Some(node) = node_of(found.desc.target) else {
        return None;
    };
    if may_hold(&found, range.kind) {
        Some(Wanted { node, range })
    } else {
        None
    }
}

/// The same by the operands of a `setlkw`.
fn asked(
    objects: &Objects,
    place: Place,
    fd: i64,
    kind: i64,
    start: i64,
    length: i64,
) -> Option<Wanted>
    requires kept { (script : ScriptOf) × AreKept script objects.now }
    requires there { IsPlaced objects.now.procs place }
    ensures { (script : ScriptOf) (world : World) → StandsFor script objects.now world
        → all_wanted world.plain.files.tree result ≡ wanted_by world.plain.files place.pid (Call.Setlkw fd kind start length) }
{
    let Some(range) = right_range(fd, kind, start, length) else {
        return None;
    };
    let on = opened(&objects.heap, &objects.procs, place, fd);
    wanted_on(&on, range)
}

/// For which places of a file a process asks with a call that waits for this.
fn asked_with(objects: &Objects, place: Place, wait: Awaited) -> Option<Wanted>
    requires kept { (script : ScriptOf) × AreKept script objects.now }
    requires there { IsPlaced objects.now.procs place }
    ensures { (script : ScriptOf) (world : World) → StandsFor script objects.now world → (call : Call) → Some wait ≡ wait_of call
        → all_wanted world.plain.files.tree result ≡ wanted_by world.plain.files place.pid call }
{
    match wait {
        Awaited::Lock {
            fd,
            kind,
            start,
            length,
        } => asked(objects, place, fd, kind, start, length),
        _ => None,
    }
}

/// Whether another process's lock is in the way of the places for which a number asks, if they may be asked for through it.
pub(crate) fn is_held_up(objects: &Objects, place: Place, on: &Named, range: &LockRange) -> bool
    requires kept { (script : ScriptOf) × AreKept script objects.now }
    requires opened { IsOpened objects.now.heap objects.now.procs place.pid on.now }
    ensures { (script : ScriptOf) (world : World) → StandsFor script objects.now world → IsSound world.plain
        → result ≡ is_held_up world.plain.files.locks place.pid (wanted_on world.plain.files (asked_by range.now) (opened_at world.plain.files place.pid on.now.fd)) }
{
    match wanted_on(on, *range) {
        Some(wanted) => is_stopped(objects, place.pid, &wanted),
        None => false,
    }
}

/// Whether another process's lock is in the way of what one wants.
fn is_stopped(objects: &Objects, pid: u32, wanted: &Wanted) -> bool
    requires { IsLockTable objects.now.heap.locks objects.now.locks }
    ensures { (locks : Locks) → HoldsLocks objects.now.heap.locks objects.now.locks locks
        → result ≡ not (is_clear locks pid wanted.now.node (asked_by wanted.now.range)) }
{
    let first = objects
        .locks
        .conflict(&objects.heap, wanted.node, pid, &wanted.range);
    first.is_some()
}

/// For which places a process that is there would wait with its next call, if it stands at such a call.
fn wanted_by(script: &Script, objects: &Objects, place: Place) -> Option<Wanted>
    requires kept { AreKept script.now objects.now }
    requires there { IsPlaced objects.now.procs place }
    ensures asks { (world : World) → StandsFor script.now objects.now world → is_alive world.plain.table place.pid ≡ true
        → all_wanted world.plain.files.tree result ≡ wanted_by world.plain.files place.pid (call_of script.now world.plain place.pid) }
    ensures ended { (world : World) → StandsFor script.now objects.now world → is_alive world.plain.table place.pid ≡ false → result ≡ None }
{
    let proc = objects.procs.at(&objects.heap, place);
    if proc.status.is_some() {
        return None;
    }
    match wait_here(script, &proc.control) {
        Some(wait) => asked_with(objects, place, wait),
        None => None,
    }
}

/// Those that hold what is in the way of a process, as bits.
fn row_of(script: &Script, objects: &Objects, place: Place) -> u64
    requires kept { AreKept script.now objects.now }
    requires there { IsPlaced objects.now.procs place }
    ensures { IsRowOf script.now objects.now place.pid result }
{
    match wanted_by(script, objects, place) {
        Some(wanted) => holders_of(objects, place.pid, &wanted),
        None => 0,
    }
}

/// Those that hold what is in the way of what a process wants, as bits.
fn holders_of(objects: &Objects, pid: u32, wanted: &Wanted) -> u64
    requires { IsLockTable objects.now.heap.locks objects.now.locks }
    ensures { (locks : Locks) → HoldsLocks objects.now.heap.locks objects.now.locks locks → (at : ℕ)
        → bit_at result at ≡ bit_if (stops_at locks pid wanted.now (pid_at objects.now.procs.listed at)) }
{
    let mut holders = 0;
    let mut at: u32 = 0;
    for other in objects.procs.listed() {
        if stops(objects, pid, wanted, other.pid) {
            holders |= 1 << at;
        }
        at += 1;
    }
    holders
}

/// Whether another process holds what is in the way.
fn stops(objects: &Objects, pid: u32, wanted: &Wanted, other: u32) -> bool
    requires { IsLockTable objects.now.heap.locks objects.now.locks }
    ensures { (locks : Locks) → HoldsLocks objects.now.heap.locks objects.now.locks locks
        → result ≡ stops locks pid wanted.now.node (asked_by wanted.now.range) other }
{
    objects
        .locks
        .stops(&objects.heap, wanted.node, pid, &wanted.range, other)
}

/// The place of a process that is there among all.
fn place_of(listed: &[Place], pid: u32) -> u32
    requires few { length listed.now ≤ 64 }
    requires there { IsSome (key_of listed.now pid) }
    ensures place { pid_at listed.now result ≡ Some pid }
    ensures within { result < 64 }
{
    let mut at = 0;
    for place in listed {
        if place.pid == pid {
            return at;
        }
        at += 1;
    }
    unreachable!()
}
