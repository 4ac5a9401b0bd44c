//! When a run ends.

ghost use Rattle.std.specs.Prelude.{◌≡◌, ◌==◌, ◌<◌, if◌then◌else◌, ℕ, false, length, true, Some, None, IsNone, slice_get};
ghost use Rattle.std.specs.List.{list_all};
ghost use Rattle.std.specs.Option.{option_or};
ghost use Rattle.kabi_types.specs.declared.entries.End.TheVariants.{Spent};
ghost use Rattle.posix_defs.specs.declared.phases.Task.{Task as TaskOf};
ghost use Rattle.posix_defs.specs.CoreState.{CoreState};
ghost use Rattle.posix_defs.specs.SoundTasks.{IsSound};
ghost use Rattle.posix_defs.specs.Ends.{all_asleep, end_of, starves_for, sleeps_on};
ghost use Rattle.kern_tasks.specs.Room.{is_asleep};
ghost use Rattle.kern_tasks.specs.View.{Has, IsAt, GoesOn};

use super::Core;
use kabi_types::End;
use kern_tasks::{is_alone, phase_of};
use posix_defs::{Phase, Task, Turner};

impl<T: Turner + Drop> Core<T> {
    /// The end that stands now, the first that holds; None where the run goes on, and then some event may be taken.
    pub fn ended(&self) -> Option<End>
        ensures end { (s : CoreState) → IsAt T.stands self.now s → IsSound (T.script self.now.store) s → result ≡ end_of (T.script self.now.store) self.now.steps (length self.now.run) s }
        ensures goes_on { IsNone result → GoesOn T.stands (T.script self.now.store) self.now }
    {
        // While a call holds bytes in reserve it is admitted, so no end stands but that of the steps.
        if self.reserved != 0 {
            return self.spent();
        }
        match self.ended_at_rest() {
            Some(end) => Some(end),
            None => self.spent(),
        }
    }

    /// The end that stands whatever number of events may still be taken, the first that holds.
    fn ended_at_rest(&self) -> Option<End>
        ensures { (s : CoreState) → IsAt T.stands self.now s → IsSound (T.script self.now.store) s → (steps taken : ℕ)
            → end_of (T.script self.now.store) steps taken s ≡ option_or result (if taken == steps then Some Spent else None) }
    {
        if !self.store.alive(1) && !self.admits_any() {
            return Some(End::Finished);
        }
        if let Some(need) = self.starves_for() {
            return Some(End::Starved { pid: 1, need });
        }
        if self.all_asleep() {
            return Some(End::AllAsleep);
        }
        None
    }

    /// The end of a run that has taken as many events as it may.
    fn spent(&self) -> Option<End>
        ensures { result ≡ (if length self.now.run == self.now.steps then Some Spent else None) }
    {
        if self.run.len() == self.steps as usize {
            Some(End::Spent)
        } else {
            None
        }
    }

    /// What the first process's call needs, where it waits in vain and nothing can help it.
    fn starves_for(&self) -> Option<u64>
        ensures { (s : CoreState) → IsAt T.stands self.now s → result ≡ starves_for (T.script self.now.store) s }
    {
        if self.all_fit() {
            return None;
        }
        self.starves_alone()
    }

    /// The same, where the tasks are looked at.
    fn starves_alone(&self) -> Option<u64>
        ensures { (s : CoreState) → IsAt T.stands self.now s → result ≡ starves_for (T.script self.now.store) s }
    {
        if !is_alone(self.tasks.as_slice()) || self.admits_any() || self.can_evict_any() {
            return None;
        }
        match phase_of(self.tasks.as_slice(), 1) {
            Phase::Waiting(asked) if asked.bound > self.room() => Some(asked.bound),
            _ => None,
        }
    }

    /// Whether every process that is alive sleeps on a call that would still block, and none is admitted.
    fn all_asleep(&self) -> bool
        ensures { (s : CoreState) → IsAt T.stands self.now s → IsSound (T.script self.now.store) s → result ≡ all_asleep (T.script self.now.store) s }
    {
        // How many sleep mostly tells it, which asks nothing of the store.
        if self.some_awake() {
            return false;
        }
        self.all_block()
    }

    /// Whether some call doesn't sleep.
    fn some_awake(&self) -> bool
        ensures { result ≡ true → list_all (λ task. is_asleep task.phase) self.now.tasks ≡ false }
    {
        (self.asleep as usize) < self.tasks.len()
    }

    /// The same, where the store is asked of each that is runnable.
    fn all_block(&self) -> bool
        ensures { (s : CoreState) → IsAt T.stands self.now s → IsSound (T.script self.now.store) s → result ≡ all_asleep (T.script self.now.store) s }
    {
        for place in &self.runnable {
            if !self.sleeps_at(*place as usize) {
                return false;
            }
        }
        true
    }

    /// Whether a process sleeps on a call that would still block: that of the task at this place.
    fn sleeps_at(&self, place: usize) -> bool
        requires { place < length self.now.tasks }
        ensures { (s : CoreState) (task : TaskOf) → IsAt T.stands self.now s → IsSound (T.script self.now.store) s → slice_get self.now.tasks place ≡ Some task
            → result ≡ sleeps_on (T.script self.now.store) s task.pid task.phase }
    {
        self.sleeps_on(self.tasks[place])
    }

    /// The same of a task.
    fn sleeps_on(&self, task: Task) -> bool
        requires { Has self.now.tasks task }
        ensures { (s : CoreState) → IsAt T.stands self.now s → IsSound (T.script self.now.store) s
            → result ≡ sleeps_on (T.script self.now.store) s task.pid task.phase }
    {
        match task.phase {
            Phase::Asleep(_) => !self.goes_on(task),
            _ => false,
        }
    }
}
