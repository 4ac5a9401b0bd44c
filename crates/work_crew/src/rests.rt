//! How long workers rest, so that they don't stand in each other's way. It is advice: no clause hangs on it.

use std::thread;

/// How often a worker yields in its shortest rest.
const SHORTEST: u32 = 2;

/// And in its longest.
const LONGEST: u32 = 4096;

/// How long a worker rests. A turn that it had to wait for was one that others wanted, so it rests before it asks again, each time
/// twice as long as the last, until it had its turns without waiting. It rests by yielding, so the more there is to do beside it, the
/// longer a rest is. The first worker never rests, so that one always goes on.
#[derive(Drop)]
pub(crate) struct Rest {
    is_first: bool,
    yields: u32,
}

impl Rest {
    /// The rests of a worker, by its number from 0.
    pub(crate) fn of(worker: u32) -> Rest {
        Rest {
            is_first: worker == 0,
            yields: SHORTEST,
        }
    }

    /// Behind a process that was served: whether a turn for it had to be waited for.
    pub(crate) fn behind(&mut self, waited: bool) {
        if !waited {
            self.yields = SHORTEST;
        } else if !self.is_first {
            self.take();
        }
    }

    /// Where there was no process to serve.
    pub(crate) fn without_work(&mut self) {
        if self.is_first {
            thread::yield_now();
        } else {
            self.take();
        }
    }

    fn take(&mut self) {
        for _ in 0..self.yields {
            thread::yield_now();
        }
        self.yields = self.yields.saturating_mul(2).min(LONGEST);
    }
}
