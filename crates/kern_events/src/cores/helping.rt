//! How calls that wait for room are helped.

ghost use Rattle.std.specs.Prelude.{◌≡◌, length, None};
ghost use Rattle.posix_defs.specs.CoreState.{CoreState};
ghost use Rattle.posix_defs.specs.SoundTasks.{IsSound};
ghost use Rattle.posix_defs.specs.Ends.{end_of};
ghost use Rattle.kern_tasks.specs.View.{IsAt, GoesOn, StaysInside};
ghost use Rattle.kern_events.specs.Reliefs.{NeverStarves, Relieves, relief_of};

use super::Core;
use crate::reliefs::Relief;
use kern_tasks::first_going;
use posix_defs::Turner;

impl<T: Turner + Drop> Core<T> {
    /// Helps the calls that wait, where no end holds, and tells how: the first case that holds. Nothing changes but by an
    /// eviction or a kill, which is one event.
    pub fn relief(&mut self) -> Relief
        requires goes_on { GoesOn T.stands (T.script self.old.store) self.old }
        requires no_end { (s : CoreState) → IsAt T.stands self.old s → IsSound (T.script self.old.store) s → end_of (T.script self.old.store) self.old.steps (length self.old.run) s ≡ None }
        ensures script { T.script self.new.store ≡ T.script self.old.store }
        ensures told { (s : CoreState) → IsAt T.stands self.old s → IsSound (T.script self.old.store) s → result ≡ relief_of (T.script self.old.store) s }
        ensures leads { Relieves T.stands (T.script self.old.store) self.old result self.new }
        ensures inside { StaysInside T.marks T.high (T.script self.old.store).heap self.old self.new }
        ensures never { NeverStarves result }
    {
        if !self.some_wait() {
            return Relief::NoneWaiting;
        }
        if let Some(pid) = first_going(self.tasks.as_slice(), self.room()) {
            return Relief::Fits(pid);
        }
        if self.reserved != 0 {
            return Relief::Outstanding {
                charged: self.charged,
                live: self.store.live(),
            };
        }
        if let Some(what) = self.first_evictable() {
            self.evict(what);
            return Relief::Evicted(what);
        }
        let Some(pid) = self.store.victim() else {
            unreachable!()
        };
        self.kill(pid);
        Relief::Killed(pid)
    }
}
