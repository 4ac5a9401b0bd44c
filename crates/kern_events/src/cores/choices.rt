//! Which of the events is taken.

ghost use Rattle.std.specs.Prelude.{◌≡◌, ◌≤◌, ◌<◌, length, filter, Some, IfSome, IsSome, IsNone, slice_get, true};
ghost use Rattle.posix_defs.specs.Sizes.{room};
ghost use Rattle.posix_defs.specs.CoreState.{CoreState};
ghost use Rattle.posix_defs.specs.SoundTasks.{IsSound};
ghost use Rattle.posix_defs.specs.Ends.{end_of};
ghost use Rattle.posix_defs.specs.Choice.{evicts_in, asks_nothing, default_of, enabled_in, default_in, named_by, others_in};
ghost use Rattle.kern_tasks.specs.View.{IsAt, CanTake, GoesOn, MayTake};
ghost use Rattle.kern_tasks.specs.Others.{present};
ghost use Rattle.kern_events.specs.Sleepers.{HaveEvents};

use super::Core;
use kabi_types::Event;
use kern_tasks::{all_have_events, count_present, place_at, present_at};
use posix_defs::Turner;

impl<T: Turner + Drop> Core<T> {
    /// The event that a number names: it counts round those that may be taken now.
    pub fn named(&self, number: u32) -> Option<Event>
        requires { GoesOn T.stands (T.script self.now.store) self.now }
        ensures named { (s : CoreState) → IsAt T.stands self.now s → IsSound (T.script self.now.store) s → result ≡ named_by (Some number) (T.script self.now.store) s }
        ensures may { IfSome result (λ event. CanTake T.stands (T.script self.now.store) self.now event) }
    {
        let others = self.others();
        if self.all_go() {
            return self.named_of_all(number, &others);
        }
        let count = self.task_events() + count_present(&others);
        match self.task_event(number % count) {
            Ok(event) => Some(event),
            Err(left) => present_at(&others, left),
        }
    }

    /// The same where each runnable task has an event, which then stands at the task's own place among them, and the events of no
    /// process are these.
    fn named_of_all(&self, number: u32, others: &[Option<Event>]) -> Option<Event>
        requires goes_on { GoesOn T.stands (T.script self.now.store) self.now }
        requires all { HaveEvents (T.settled self.now.store) (T.script self.now.store).heap self.now.charged self.now.tasks }
        requires others { (s : CoreState) → IsAt T.stands self.now s → present others.now ≡ others_in (T.script self.now.store) s }
        requires few { length others.now ≤ 4 }
        ensures named { (s : CoreState) → IsAt T.stands self.now s → IsSound (T.script self.now.store) s → result ≡ named_by (Some number) (T.script self.now.store) s }
        ensures may { IfSome result (λ event. CanTake T.stands (T.script self.now.store) self.now event) }
    {
        let count = self.runnable.len() as u32;
        let chosen = number % (count + count_present(others));
        match place_at(self.runnable.as_slice(), chosen) {
            Some(place) => self.event_at(place as usize),
            None => present_at(others, chosen - count),
        }
    }

    /// Whether no runnable task sleeps, and each has an event.
    fn all_go(&self) -> bool
        ensures { result ≡ true → HaveEvents (T.settled self.now.store) (T.script self.now.store).heap self.now.charged self.now.tasks }
    {
        // Of each call that sleeps the store keeps in mind that it would block.
        if self.asleep as usize + self.runnable.len() != self.tasks.len() {
            return false;
        }
        if self.all_fit() {
            return true;
        }
        self.all_awake_go()
    }

    /// Whether no call sleeps, and each task has an event, though some wait for more than there is room for.
    fn all_awake_go(&self) -> bool
        ensures { result ≡ true → HaveEvents (T.settled self.now.store) (T.script self.now.store).heap self.now.charged self.now.tasks }
    {
        if self.asleep > 0 {
            return false;
        }
        all_have_events(self.tasks.as_slice(), self.room())
    }

    /// The event that is taken where nothing else is chosen: the first that may be, or where a call waits in vain the first
    /// that asks for no more heap. None exactly where `ended` answers an end.
    pub fn default_event(&self) -> Option<Event>
        ensures picked { (s : CoreState) → IsAt T.stands self.now s → IsSound (T.script self.now.store) s
            → result ≡ default_in (T.script self.now.store) self.now.steps (length self.now.run) s }
        ensures may { IfSome result (λ event. MayTake T.stands (T.script self.now.store) self.now event) }
        ensures room { IfSome result (λ _. length self.now.run < self.now.steps) }
        ensures none { (s : CoreState) → IsAt T.stands self.now s → IsSound (T.script self.now.store) s → IsNone result
            → IsSome (end_of (T.script self.now.store) self.now.steps (length self.now.run) s) }
    {
        if self.ended().is_some() {
            return None;
        }
        self.first_choice()
    }

    /// The first event that may be taken, or where a call waits in vain the first that asks for no more heap. Whether an end
    /// stands is not looked at.
    pub fn first_choice(&self) -> Option<Event>
        ensures { (s : CoreState) → IsAt T.stands self.now s → IsSound (T.script self.now.store) s → result ≡ default_of (T.script self.now.store) s }
    {
        if self.some_wait_in_vain() {
            self.first_that_frees()
        } else {
            self.enabled(0)
        }
    }

    /// The first event that may be taken and asks for no more heap.
    fn first_that_frees(&self) -> Option<Event>
        ensures { (s : CoreState) → IsAt T.stands self.now s → IsSound (T.script self.now.store) s
            → result ≡ slice_get (filter asks_nothing (enabled_in (T.script self.now.store) s)) 0 }
    {
        for place in &self.runnable {
            if let Some(event) = self.event_at(*place as usize) {
                if asks_nothing(event) {
                    return Some(event);
                }
            }
        }
        self.first_other()
    }

    /// The first of the events that are of no process.
    fn first_other(&self) -> Option<Event>
        ensures { (s : CoreState) → IsAt T.stands self.now s → result ≡ slice_get (others_in (T.script self.now.store) s) 0 }
    {
        match self.first_eviction() {
            Some(event) => Some(event),
            None => self.kill_event(),
        }
    }

    /// The first eviction that may be taken.
    fn first_eviction(&self) -> Option<Event>
        ensures { (s : CoreState) → IsAt T.stands self.now s → result ≡ slice_get (evicts_in s) 0 }
    {
        let Some(what) = self.first_evictable() else {
            return None;
        };
        if self.store.alive(1) {
            Some(Event::Evict(what))
        } else {
            None
        }
    }
}

/// Whether an event brings no call nearer to the heap.
fn asks_nothing(event: Event) -> bool
    ensures { result ≡ asks_nothing event }
{
    !matches!(event, Event::Ask(_) | Event::Wake(_))
}
