//! Which events may be taken.

ghost use Rattle.std.specs.Prelude.{◌≡◌, ◌||◌, ◌+◌, ◌<◌, ◌≤◌, [], length, Some, IfSome, slice_get, true, not};
ghost use Rattle.std.specs.Option.{option_to_list};
ghost use Rattle.posix_defs.specs.declared.phases.Task.{Task as TaskOf};
ghost use Rattle.posix_defs.specs.World.{can_evict};
ghost use Rattle.posix_defs.specs.CoreState.{CoreState, some_wait_in_vain, lives};
ghost use Rattle.posix_defs.specs.SoundTasks.{IsSound};
ghost use Rattle.posix_defs.specs.Licence.{can_evict_any, is_licensed};
ghost use Rattle.posix_defs.specs.Choice.{events_of, enabled_in, kills_in, others_in};
ghost use Rattle.kern_tasks.specs.View.{IsAt, Has, HasRun, CanTake};
ghost use Rattle.kern_tasks.specs.Others.{eviction, present};
ghost use Rattle.kern_events.specs.Found.{IsFoundAt};

use super::Core;
use kabi_types::{Cached, Event};
use kern_tasks::{count_present, present_at};
use posix_defs::{Phase, Task, Turner};

impl<T: Turner + Drop> Core<T> {
    /// How many events may be taken now, whether or not an end stands.
    pub fn count(&self) -> u32
        ensures { (s : CoreState) → IsAt T.stands self.now s → IsSound (T.script self.now.store) s → result ≡ length (enabled_in (T.script self.now.store) s) }
    {
        self.task_events() + count_present(&self.others())
    }

    /// The event at place `i`, from 0, among those that may be taken now: those of processes by rising pid, evictions, and
    /// then a kill. None exactly where no more than `i` may be taken. Whether an end stands is not looked at.
    pub fn enabled(&self, i: u32) -> Option<Event>
        ensures listed { (s : CoreState) → IsAt T.stands self.now s → IsSound (T.script self.now.store) s → result ≡ slice_get (enabled_in (T.script self.now.store) s) i }
        ensures may { IfSome result (λ event. CanTake T.stands (T.script self.now.store) self.now event) }
    {
        match self.task_event(i) {
            Ok(event) => Some(event),
            Err(left) => present_at(&self.others(), left),
        }
    }

    /// How many of the events that may be taken now are of tasks.
    pub(crate) fn task_events(&self) -> u32
        ensures few { result ≤ 100001 }
        ensures counted { (s : CoreState) → IsAt T.stands self.now s → IsSound (T.script self.now.store) s
            → result + length (others_in (T.script self.now.store) s) ≡ length (enabled_in (T.script self.now.store) s) }
    {
        let mut count = 0;
        for place in &self.runnable {
            if self.event_at(*place as usize).is_some() {
                count += 1;
            }
        }
        count
    }

    /// The event at place `i`, from 0, among those of tasks that may be taken now; where there are no more than `i`, how far
    /// behind them the place is.
    pub(crate) fn task_event(&self, i: u32) -> Result<Event, u32>
        ensures found { (s : CoreState) → IsAt T.stands self.now s → IsSound (T.script self.now.store) s → IsFoundAt (T.script self.now.store) s i result }
        ensures runs { HasRun T.stands (T.script self.now.store) self.now }
    {
        let mut left = i;
        for place in &self.runnable {
            if let Some(event) = self.event_at(*place as usize) {
                if left == 0 {
                    return Ok(event);
                }
                left -= 1;
            }
        }
        Err(left)
    }

    /// The event of the task at this place, if it may be taken.
    pub(crate) fn event_at(&self, place: usize) -> Option<Event>
        requires { place < length self.now.tasks }
        ensures { (s : CoreState) (task : TaskOf) → IsAt T.stands self.now s → IsSound (T.script self.now.store) s → slice_get self.now.tasks place ≡ Some task
            → option_to_list result ≡ events_of (T.script self.now.store) s task.pid task.phase }
    {
        self.event_of(self.tasks[place])
    }

    /// The event of a task, if it may be taken.
    fn event_of(&self, task: Task) -> Option<Event>
        requires { Has self.now.tasks task }
        ensures { (s : CoreState) → IsAt T.stands self.now s → IsSound (T.script self.now.store) s
            → option_to_list result ≡ events_of (T.script self.now.store) s task.pid task.phase }
    {
        let pid = task.pid;
        match task.phase {
            Phase::User => Some(Event::Ask(pid)),
            Phase::Waiting(asked) => {
                if asked.bound <= self.room() {
                    Some(Event::Admit(pid))
                } else {
                    None
                }
            }
            Phase::Admitted(_) => Some(Event::Turn(pid)),
            Phase::Asleep(_) => {
                if self.goes_on(task) {
                    Some(Event::Wake(pid))
                } else {
                    None
                }
            }
            Phase::Stranded(_) => Some(Event::Abandon(pid)),
            Phase::Dead => None,
        }
    }

    /// The events that are of no process, each if it may be taken: the evictions, and then the kill.
    pub(crate) fn others(&self) -> [Option<Event>; 4]
        ensures { (s : CoreState) → IsAt T.stands self.now s → present result ≡ others_in (T.script self.now.store) s }
    {
        if self.is_quiet() {
            return [None; 4];
        }
        self.others_there()
    }

    /// The same, where each is asked for. It stands by itself, since a function pays for the room of all its locals whenever it
    /// is entered, and mostly there is none of them.
    #[inline(never)]
    fn others_there(&self) -> [Option<Event>; 4]
        ensures { (s : CoreState) → IsAt T.stands self.now s → present result ≡ others_in (T.script self.now.store) s }
    {
        [
            self.evict_event(Cached::Name),
            self.evict_event(Cached::Block),
            self.evict_event(Cached::Vnode),
            self.kill_event(),
        ]
    }

    /// Whether no cache keeps anything that could go, and no call waits in vain: then there is no event that is of no process.
    fn is_quiet(&self) -> bool
        ensures exact { (s : CoreState) → IsAt T.stands self.now s
            → result ≡ not (can_evict_any s.world || some_wait_in_vain (T.script self.now.store) s) }
        ensures none { (s : CoreState) → IsAt T.stands self.now s → result ≡ true → others_in (T.script self.now.store) s ≡ [] }
    {
        !self.can_evict_any() && !self.some_wait_in_vain()
    }

    /// The eviction from a cache, if it may be taken.
    fn evict_event(&self, what: Cached) -> Option<Event>
        ensures { (s : CoreState) → IsAt T.stands self.now s → result ≡ eviction (lives s 1) (can_evict s.world.plain s.world.kept what) what }
    {
        // Mostly nothing is cached, which is the cheaper question.
        if self.evictable(what) && self.store.alive(1) {
            Some(Event::Evict(what))
        } else {
            None
        }
    }

    /// The kill of the victim, if it may be taken.
    pub(crate) fn kill_event(&self) -> Option<Event>
        ensures { (s : CoreState) → IsAt T.stands self.now s → option_to_list result ≡ kills_in (T.script self.now.store) s }
    {
        if !self.is_licensed() {
            return None;
        }
        match self.store.victim() {
            Some(pid) => Some(Event::Kill(pid)),
            None => None,
        }
    }

    /// Whether a process may be killed, so that a call that waits may fit.
    fn is_licensed(&self) -> bool
        ensures { (s : CoreState) → IsAt T.stands self.now s → result ≡ is_licensed (T.script self.now.store) s }
    {
        self.some_wait_in_vain()
            && !self.admits_any()
            && !self.can_evict_any()
            && !self.some_fit()
            && self.store.victim().is_some()
    }
}
