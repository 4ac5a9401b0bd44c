//! `poll`.

ghost use Rattle.std.specs.Prelude.{◌≡◌, ◌==◌, ◌&&◌, ◌≤◌, length};
ghost use Rattle.kabi_types.specs.Arguments.{is_minus_one};
ghost use Rattle.kabi_types.specs.declared.calls.Call.{Call};
ghost use Rattle.kabi_types.specs.declared.scripts.Script.{Script};
ghost use Rattle.open_laws.specs.Placed.{Numbers};
ghost use Rattle.posix_defs.specs.Account.{Account};
ghost use Rattle.posix_defs.specs.Calls.Polling.{hits_of, poll, revents_of};
ghost use Rattle.posix_defs.specs.Files.State.{Files};
ghost use Rattle.posix_defs.specs.Machine.{blocks};
ghost use Rattle.posix_defs.specs.Plain.{Plain};
ghost use Rattle.proc_numbers.specs.Having.{HaveOpen};
ghost use Rattle.proc_table.specs.Table.{IsPlaced};
ghost use Rattle.proc_numbers.specs.Standing.{IsKept, Leads, StandsFor};

use crate::closing::is_well_formed;
use desc_table::polled;
use kabi_types::{PollEntry, PollHits, PollList, Reply, Revents};
use kheap_slabs::KHeap;
use posix_defs::Turned;
use proc_table::{Place, ProcTable};

/// The timeout that waits until an entry has an event.
const FOREVER: i64 = -1;

/// What each entry is ready for, whatever its number is open on; with timeout -1 it sleeps where none is ready for anything
/// (POSIX poll).
pub fn poll(
    heap: &KHeap,
    procs: &ProcTable,
    place: Place,
    timeout: i64,
    entries: &PollList,
) -> Turned
    requires kept { IsKept heap.now procs.now }
    requires there { IsPlaced procs.now place }
    ensures { (script : Script) (numbers : Numbers) (plain : Plain) (account : Account)
        → StandsFor numbers heap.now procs.now plain account
        → Leads script numbers heap.now procs.now plain account place.pid (Call.Poll timeout entries.now)
        (poll script plain place.pid timeout entries.now) result }
{
    let revents = revents_of(heap, procs, place, entries.items());
    let hits = hits_of(revents.items());
    if sleeps(hits, timeout) {
        Turned::Sleep
    } else {
        Turned::Done(Reply::Polled(PollHits { hits, revents }))
    }
}

/// Whether a `poll` would sleep.
pub fn poll_waits(
    heap: &KHeap,
    procs: &ProcTable,
    place: Place,
    timeout: i64,
    entries: &PollList,
) -> bool
    requires kept { IsKept heap.now procs.now }
    requires there { IsPlaced procs.now place }
    ensures { (script : Script) (numbers : Numbers) (plain : Plain) → HaveOpen numbers heap.now procs.now plain.files
        → result ≡ blocks (poll script plain place.pid timeout entries.now) }
{
    let revents = revents_of(heap, procs, place, entries.items());
    sleeps(hits_of(revents.items()), timeout)
}

// Whether a `poll` with so many hits waits for more.
fn sleeps(hits: u32, timeout: i64) -> bool
    ensures { result ≡ ((hits == 0) && is_minus_one timeout) }
{
    hits == 0 && timeout == FOREVER
}

// What each entry is told.
fn revents_of(heap: &KHeap, procs: &ProcTable, place: Place, entries: &[PollEntry]) -> Revents
    requires kept { IsKept heap.now procs.now }
    requires there { IsPlaced procs.now place }
    requires few { length entries.now ≤ 8 }
    ensures { (numbers : Numbers) (files : Files) → HaveOpen numbers heap.now procs.now files
        → result ≡ revents_of files place.pid entries.now }
{
    is_well_formed(heap);
    // Entries are many, so the process is looked up once and not for each.
    let proc = procs.at(heap, place);
    let mut events = [0; 8];
    for index in 0..entries.len() {
        events[index] = polled(heap, proc, &entries[index]);
    }
    let Some(revents) = Revents::of(&events[..entries.len()]) else {
        unreachable!();
    };
    revents
}

// How many entries are told something.
fn hits_of(revents: &[u8]) -> u32
    requires few { length revents.now ≤ 8 }
    ensures { result ≡ hits_of revents.now }
{
    let mut hits = 0;
    for events in revents {
        if *events != 0 {
            hits += 1;
        }
    }
    hits
}
