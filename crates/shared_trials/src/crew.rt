//! Workers over a store of one process.
ghost use Rattle.std.specs.Prelude.{◌<◌};

use crate::one_pid::{OnePid, at_boot};
use charge_words::Charge;
use kabi_types::{CallKind, End, Entry, Memory, Reply};
use kern_shared::Closed;
use std::alloc::Global;
use std::marker::Brand;
use std::sync::Wait;
use std::sync::atomic::{AtomicU32, Ordering};
use std::test::Fail;
use std::thread::Threads;
use work_crew::{Door, OpenDoor, Point, run_workers};

/// A run of the process by so many workers.
fn run_by<R: Threads + Wait + Sync, D: Door + Sync>(
    rt: &R,
    alloc: Global,
    workers: u32,
    door: &D,
) -> Result<Closed<OnePid>, Memory>
    requires { 0 < workers }
{
    let (charge, seat) = Charge::boot(alloc, 8192)?;
    run_workers::<OnePid, Brand, D, R>(rt, alloc, at_boot(), 100, 8192, workers, charge, seat, door)
}

/// Whether the process was told that its pid is 1.
fn is_asked(entry: &Entry) -> bool {
    matches!(
        entry,
        Entry::Done {
            pid: 1,
            kind: CallKind::Getpid,
            reply: Reply::Val(1),
        }
    )
}

/// Whether the process ended with status 0.
fn is_ended(entry: &Entry) -> bool {
    matches!(
        entry,
        Entry::Ended {
            pid: 1,
            kind: CallKind::Exit,
            status: 0,
        }
    )
}

/// Whether a run was closed with the process's two entries, as one that has ended: 128 bytes are live, the root's node, and 2176 stay
/// in reserve.
fn is_finished(closed: &Closed<OnePid>) -> bool {
    let entries = closed.history.items();
    entries.len() == 2
        && is_asked(&entries[0])
        && is_ended(&entries[1])
        && closed.end == Some(End::Finished)
        && closed.charged == 2304
}

#[test]
fn one_two_and_four_workers_run_to_the_end(rt: HostRuntime) -> Result<(), Fail> {
    for workers in [1, 2, 4] {
        let closed = run_by(&rt, rt.alloc(), workers, &OpenDoor)?;
        assert!(rt; is_finished(&closed), "by {workers}");
    }
    Ok(())
}

/// A door that adds up the pids that were picked, and those whose calls were answered.
#[derive(Drop)]
struct Counter {
    picked: AtomicU32,
    answered: AtomicU32,
}

impl Door for Counter {
    fn at(&self, _worker: u32, pid: u32, point: Point) {
        let word = match point {
            Point::Picked => &self.picked,
            Point::Answered => &self.answered,
        };
        word.fetch_add(pid, Ordering::SeqCst);
    }
}

#[test]
fn the_door_is_told_of_each_pick_and_answer(rt: HostRuntime) -> Result<(), Fail> {
    let door = Counter {
        picked: AtomicU32::new(0),
        answered: AtomicU32::new(0),
    };
    let closed = run_by(&rt, rt.alloc(), 2, &door)?;
    assert!(rt; is_finished(&closed));
    assert!(rt; door.picked.load(Ordering::SeqCst) == 2);
    assert!(rt; door.answered.load(Ordering::SeqCst) == 2);
    Ok(())
}
