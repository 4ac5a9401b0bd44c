//! How many workers there are, by what a door is told of them; and that they end where no step is left.

use crate::tool::{NONE, check, outcome_at};
use crossbeam_utils::Backoff;
use kres_tool::Status;
use std::sync::atomic::{AtomicBool, AtomicU8, AtomicU32, Ordering};
use std::test::Fail;
use work_crew::{Door, OpenDoor, Point};

/// The first process makes two more, and each of the three asks for its pid over and over.
const THREE: &str =
    "heap 65536\nsteps 200\nprogram init\nr1 = fork\nif r1 == 0 ask\nr1 = fork\nlabel ask\nset r2 100\nlabel again\ngetpid\nloop r2 again\nexit 0\nend\n";

/// How often a worker that is held looks whether it may go on.
const MOST_TURNS: u32 = 1_000_000;

/// The workers 0, 1 and 2.
const ALL: u8 = 7;

/// A door that holds whoever picks one of three processes until the workers 0, 1 and 2 each have picked one.
#[derive(Drop)]
struct Meeting {
    /// How often the first process was picked: its first two calls make the others.
    firsts: AtomicU32,
    /// A bit for each worker that came.
    came: AtomicU8,
    waited_in_vain: AtomicBool,
}

/// The bit of a worker; one for all that there shouldn't be.
fn bit_of(worker: u32) -> u8 {
    match worker {
        0 => 1,
        1 => 2,
        2 => 4,
        _ => 8,
    }
}

impl Meeting {
    fn hold(&self) {
        let backoff = Backoff::new();
        for _ in 0..MOST_TURNS {
            if self.came.load(Ordering::SeqCst) == ALL {
                return;
            }
            backoff.snooze();
        }
        self.waited_in_vain.store(true, Ordering::SeqCst);
    }
}

impl Door for Meeting {
    fn at(&self, worker: u32, pid: u32, point: Point) {
        if point == Point::Answered {
            return;
        }
        if pid == 1 && self.firsts.fetch_add(1, Ordering::SeqCst) < 2 {
            return;
        }
        self.came.fetch_or(bit_of(worker), Ordering::SeqCst);
        if !self.waited_in_vain.load(Ordering::SeqCst) {
            self.hold();
        }
    }
}

/// Each of three workers has a process at the same time, and is told to the door by its number.
#[test]
fn three_workers_meet_at_the_door(rt: HostRuntime) -> Result<(), Fail> {
    let meeting = Meeting {
        firsts: AtomicU32::new(0),
        came: AtomicU8::new(0),
        waited_in_vain: AtomicBool::new(false),
    };
    let outcome = outcome_at(&rt, "threads 3", THREE, NONE, &meeting)?;
    check(&rt, outcome.status == Status::Spent, "spent");
    check(&rt, meeting.came.load(Ordering::SeqCst) == ALL, "who came");
    check(&rt, !meeting.waited_in_vain.load(Ordering::SeqCst), "met");
    Ok(())
}

/// Processes that fill the heap and go to sleep in a read of an empty pipe, for which there is room only once one of them was killed. The
/// tenth step is a kill, behind which the call of the killed one, that a worker still has, finds no room: it is given back.
const SLEEPERS: &str =
    "heap 15900\nsteps 10\nprogram init\nr1 = mmap 8192\nr2 r3 = pipe\nr5 = fork\nr5 = fork\nset r9 1000000\nlabel again\nr4 = store r1 \"abcdefgh\"\nr6 = read r2 r1 4096\nloop r9 again\nend\n";

/// How often each number of workers runs them.
const RUNS: u32 = 20;

/// The test's limit of time is what it shows: a worker that went on asking for room would never end. By one worker all steps are used up; by
/// several it may come that all who are left sleep by then.
#[test]
fn a_call_is_given_back_where_no_step_is_left_to_free_heap(rt: HostRuntime) -> Result<(), Fail> {
    for words in ["threads 1", "threads 2", "threads 4"] {
        for _ in 0..RUNS {
            let outcome = outcome_at(&rt, words, SLEEPERS, NONE, &OpenDoor)?;
            let slept = words != "threads 1" && outcome.status == Status::AllAsleep;
            check(&rt, slept || outcome.status == Status::Spent, words);
        }
    }
    Ok(())
}
