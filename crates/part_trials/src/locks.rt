//! Record locks in the heap: ranges that are held, cut, joined and let go, and what is in the way of whom, by hand.

ghost use Rattle.std.specs.Prelude.{◌≡◌};
ghost use Rattle.lock_table.specs.Chain.{IsLockTable};

use kabi_types::{Memory, Need};
use kheap_slabs::{KHeap, Purse};
use lock_table::{LockInfo, LockRange, LockTable};
use std::alloc::Global;
use std::process::Abort;
use std::test::Fail;

const READ: u32 = 0;

const WRITE: u32 = 1;

const UNLOCK: u32 = 2;

const LAST: u64 = 9223372036854775807;

// A process, a file, and a range with its kind.
type Ask = (u32, u32, u32, u64, u64);

// A process, and a range that it holds with its kind.
type Told = (u32, u32, u64, u64);

#[derive(Clone, Copy)]
enum Step {
    Set(Ask),
    // All of a process of a file goes.
    Drop(u32, u32),
}

// What is done, what another process asks for then, what is told of it, and how many Locks there are.
type Row = (&'static [Step], Ask, Option<Told>, u64);

fn range_of(ask: &Ask) -> LockRange {
    LockRange {
        kind: ask.2,
        start: ask.3,
        last: ask.4,
    }
}

fn set(rt: &impl Abort, heap: &mut KHeap, locks: &mut LockTable, ask: &Ask)
    requires { IsLockTable heap.old.locks locks.old }
    ensures { IsLockTable heap.new.locks locks.new }
{
    let (pid, node, kind, start, last) = *ask;
    assert!(rt; kind <= 2);
    assert!(rt; start <= last);
    assert!(rt; last <= LAST);
    let live = heap.live();
    assert!(rt; live <= 8192);
    assert!(rt; live + 128 <= heap.heap());
    let mut purse = Purse::of(Need {
        lock: 2,
        ..Need::default()
    });
    let range = LockRange { kind, start, last };
    locks.set(heap, &mut purse, node, pid, &range);
}

fn take_one(rt: &impl Abort, heap: &mut KHeap, locks: &mut LockTable, step: &Step)
    requires { IsLockTable heap.old.locks locks.old }
    ensures { IsLockTable heap.new.locks locks.new }
{
    match step {
        Step::Set(ask) => set(rt, heap, locks, ask),
        Step::Drop(pid, node) => locks.drop_of(heap, *node, *pid),
    }
}

fn take(rt: &impl Abort, heap: &mut KHeap, locks: &mut LockTable, steps: &[Step])
    requires { IsLockTable heap.old.locks locks.old }
    ensures { IsLockTable heap.new.locks locks.new }
{
    for step in steps {
        take_one(rt, heap, locks, step);
    }
}

fn is_told(told: Option<LockInfo>, row: &Option<Told>) -> bool {
    match (told, row) {
        (Some(lock), Some((pid, kind, start, last))) => {
            let places = lock.start == *start && lock.last == *last;
            lock.pid == *pid && lock.kind == *kind && places
        }
        (None, None) => true,
        _ => false,
    }
}

fn check(rt: &impl Abort, alloc: Global, row: &Row) -> Result<(), Memory> {
    let (steps, ask, told, many) = row;
    let mut heap = KHeap::boot(alloc, 8192)?;
    let mut locks = LockTable::new();
    take(rt, &mut heap, &mut locks, steps);
    let first = locks.conflict(&heap, ask.1, ask.0, &range_of(ask));
    assert!(rt; is_told(first, told) && heap.live() / 64 == *many);
    assert!(rt; locks.is_empty() == (*many == 0));
    drop(heap);
    drop(locks);
    Ok(())
}

fn check_rows(rt: &impl Abort, alloc: Global, rows: &[Row]) -> Result<(), Memory> {
    for row in rows {
        check(rt, alloc, row)?;
    }
    Ok(())
}

// What one process holds, as another one meets it.
const HELD: &[Row] = &[
    (&[], (2, 7, WRITE, 0, LAST), None, 0),
    (
        &[Step::Set((1, 7, READ, 5, 9))],
        (2, 7, WRITE, 0, LAST),
        Some((1, READ, 5, 9)),
        1,
    ),
    // a cut in the middle leaves a piece before and a piece behind
    (
        &[
            Step::Set((1, 7, WRITE, 0, 9)),
            Step::Set((1, 7, UNLOCK, 4, 5)),
        ],
        (2, 7, READ, 1, LAST),
        Some((1, WRITE, 0, 3)),
        2,
    ),
    (
        &[
            Step::Set((1, 7, WRITE, 0, 9)),
            Step::Set((1, 7, UNLOCK, 4, 5)),
        ],
        (2, 7, READ, 4, LAST),
        Some((1, WRITE, 6, 9)),
        2,
    ),
    (
        &[
            Step::Set((1, 7, WRITE, 0, 9)),
            Step::Set((1, 7, READ, 4, 5)),
        ],
        (2, 7, WRITE, 4, 5),
        Some((1, READ, 4, 5)),
        3,
    ),
    // three ranges that touch are one, in whatever order
    (
        &[
            Step::Set((1, 7, READ, 0, 3)),
            Step::Set((1, 7, READ, 6, 9)),
            Step::Set((1, 7, READ, 4, 5)),
        ],
        (2, 7, WRITE, 9, 9),
        Some((1, READ, 0, 9)),
        1,
    ),
    (
        &[
            Step::Set((1, 7, READ, 6, 9)),
            Step::Set((1, 7, READ, 4, 5)),
            Step::Set((1, 7, READ, 0, 3)),
        ],
        (2, 7, WRITE, 9, 9),
        Some((1, READ, 0, 9)),
        1,
    ),
    // of two kinds they stay two
    (
        &[
            Step::Set((1, 7, READ, 0, 3)),
            Step::Set((1, 7, WRITE, 4, 5)),
        ],
        (2, 7, WRITE, 5, 5),
        Some((1, WRITE, 4, 5)),
        2,
    ),
    // a range over others takes them all in
    (
        &[
            Step::Set((1, 7, WRITE, 2, 3)),
            Step::Set((1, 7, READ, 5, 6)),
            Step::Set((1, 7, WRITE, 8, 9)),
            Step::Set((1, 7, READ, 3, 8)),
        ],
        (2, 7, WRITE, 4, LAST),
        Some((1, READ, 3, 8)),
        3,
    ),
    // all is let go, of one file, of one process
    (
        &[
            Step::Set((1, 7, WRITE, 2, 3)),
            Step::Set((1, 7, UNLOCK, 0, LAST)),
        ],
        (2, 7, WRITE, 0, LAST),
        None,
        0,
    ),
    (
        &[
            Step::Set((1, 7, WRITE, 2, 3)),
            Step::Set((1, 8, WRITE, 2, 3)),
            Step::Set((3, 7, READ, 5, 6)),
            Step::Drop(1, 7),
        ],
        (2, 7, WRITE, 0, LAST),
        Some((3, READ, 5, 6)),
        2,
    ),
    (
        &[Step::Set((1, 7, WRITE, LAST, LAST)), Step::Drop(1, 7)],
        (2, 7, WRITE, 0, LAST),
        None,
        0,
    ),
];

// What is in the way of whom.
const IN_WAY: &[Row] = &[
    // of least start, then of the lowest pid
    (
        &[
            Step::Set((5, 7, READ, 4, 20)),
            Step::Set((4, 7, READ, 8, 9)),
            Step::Set((6, 7, READ, 4, 4)),
            Step::Set((3, 7, READ, 6, 6)),
        ],
        (2, 7, WRITE, 0, LAST),
        Some((5, READ, 4, 20)),
        4,
    ),
    (
        &[
            Step::Set((6, 7, READ, 4, 4)),
            Step::Set((5, 7, READ, 4, 20)),
        ],
        (2, 7, WRITE, 0, LAST),
        Some((5, READ, 4, 20)),
        2,
    ),
    // those who read are in the way of those who write alone
    (
        &[Step::Set((1, 7, READ, 0, 9))],
        (2, 7, READ, 0, 9),
        None,
        1,
    ),
    (
        &[Step::Set((1, 7, WRITE, 0, 9))],
        (2, 7, READ, 9, 9),
        Some((1, WRITE, 0, 9)),
        1,
    ),
    (
        &[
            Step::Set((1, 7, READ, 0, 9)),
            Step::Set((3, 7, WRITE, 20, 29)),
        ],
        (2, 7, READ, 0, LAST),
        Some((3, WRITE, 20, 29)),
        2,
    ),
    // nothing is in the way of who lets go, of another file, of oneself, and beside it
    (
        &[Step::Set((1, 7, WRITE, 0, 9))],
        (2, 7, UNLOCK, 0, 9),
        None,
        1,
    ),
    (
        &[Step::Set((1, 7, WRITE, 0, 9))],
        (2, 8, WRITE, 0, 9),
        None,
        1,
    ),
    (
        &[Step::Set((1, 7, WRITE, 0, 9))],
        (1, 7, WRITE, 0, 9),
        None,
        1,
    ),
    (
        &[Step::Set((1, 7, WRITE, 5, 9))],
        (2, 7, WRITE, 10, LAST),
        None,
        1,
    ),
    (
        &[Step::Set((1, 7, WRITE, 5, 9))],
        (2, 7, WRITE, 0, 4),
        None,
        1,
    ),
];

#[test]
fn ranges_are_cut_joined_and_let_go(rt: HostRuntime) -> Result<(), Fail> {
    check_rows(&rt, rt.alloc(), HELD)?;
    Ok(())
}

#[test]
fn the_first_lock_in_the_way_is_told(rt: HostRuntime) -> Result<(), Fail> {
    check_rows(&rt, rt.alloc(), IN_WAY)?;
    Ok(())
}

// Whether each of three processes stops another one.
fn stopping(rt: &impl Abort, heap: &KHeap, locks: &LockTable)
    requires { IsLockTable heap.now.locks locks.now }
{
    let asked = range_of(&(2, 7, WRITE, 0, 9));
    assert!(rt; locks.stops(heap, 7, 2, &asked, 1) && locks.stops(heap, 7, 2, &asked, 3));
    assert!(rt; !locks.stops(heap, 7, 2, &asked, 4) && !locks.stops(heap, 7, 1, &asked, 1));
    let reading = range_of(&(2, 7, READ, 0, 9));
    assert!(rt; locks.stops(heap, 7, 2, &reading, 3) && !locks.stops(heap, 7, 2, &reading, 1));
}

#[test]
fn who_stops_whom_is_told(rt: HostRuntime) -> Result<(), Fail> {
    let mut heap = KHeap::boot(rt.alloc(), 8192)?;
    let mut locks = LockTable::new();
    let steps = [
        Step::Set((1, 7, READ, 0, 3)),
        Step::Set((3, 7, WRITE, 5, 5)),
        Step::Set((4, 7, WRITE, 10, 19)),
        Step::Set((4, 8, WRITE, 0, 9)),
    ];
    take(&rt, &mut heap, &mut locks, &steps);
    stopping(&rt, &heap, &locks);
    drop(heap);
    drop(locks);
    Ok(())
}
