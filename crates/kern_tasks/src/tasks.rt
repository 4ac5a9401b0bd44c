//! The tasks of a core: the processes that are alive, and those that have ended with their call admitted still, by
//! rising pid.

ghost use Rattle.std.specs.Prelude.{◌≡◌, ◌≤◌, ◌<◌, ◌+◌, ◌-◌, ◌++◌, ◌^◌, ◌==◌, IfSome, filter, map, length, not, slice_get, vec_len, vec_capacity, false};
ghost use Rattle.posix_defs.specs.World.{World};
ghost use Rattle.posix_defs.specs.CoreState.{phase_in, waiting_in, with_phase_in};
ghost use Rattle.posix_defs.specs.CoreEvent as event;
ghost use Rattle.std.specs.List.{list_all, list_any};
ghost use Rattle.kern_tasks.specs.Places.{place_from};
ghost use Rattle.kern_tasks.specs.Room.{first_going, has_event, waits_within, waits_without};
ghost use Rattle.posix_defs.specs.SoundTasks.{AreRising};

use crate::phases::{goes_within, has_event, waits_within, waits_without};
use posix_defs::{Phase, Task, Turner};

/// The place of a pid's task. Pids rise from 1, so it isn't behind the pid's own place, and mostly near it.
pub(crate) fn place_of(tasks: &[Task], pid: u32) -> Option<usize>
    requires { AreRising 0 tasks.now }
    ensures place { result ≡ place_from 0 tasks.now pid }
    ensures within { IfSome result (λ place. place < length tasks.now) }
{
    let mut place = tasks.len().min(pid as usize);
    while place > 0 {
        place -= 1;
        if tasks[place].pid == pid {
            return Some(place);
        }
    }
    None
}

/// The phase of a pid; dead where there is no task of it.
pub fn phase_of(tasks: &[Task], pid: u32) -> Phase
    requires { AreRising 0 tasks.now }
    ensures { result ≡ phase_in tasks.now pid }
{
    match place_of(tasks, pid) {
        Some(place) => tasks[place].phase,
        None => Phase::Dead,
    }
}

/// Puts the task of a pid into another phase.
pub fn set_phase(tasks: &mut Vec<Task>, pid: u32, phase: Phase)
    requires { AreRising 0 tasks.old.items }
    ensures items { tasks.new.items ≡ with_phase_in tasks.old.items pid phase }
    ensures room { vec_capacity tasks.new ≡ vec_capacity tasks.old }
{
    if let Some(place) = place_of(tasks.as_slice(), pid) {
        tasks[place].phase = phase;
    }
}

/// The task of the lowest pid whose call waits.
pub fn first_waiting(tasks: &[Task]) -> Option<Task>
    ensures { result ≡ slice_get (waiting_in tasks.now) 0 }
{
    for task in tasks {
        if matches!(task.phase, Phase::Waiting(_)) {
            return Some(*task);
        }
    }
    None
}

/// Whether some call waits for which so much room is enough.
pub fn some_within(tasks: &[Task], room: u64) -> bool
    ensures { result ≡ list_any (λ task. waits_within room task.phase) tasks.now }
{
    tasks.iter().any(|task| waits_within(task.phase, room))
}

/// Whether some call waits for which so much room isn't enough.
pub fn some_without(tasks: &[Task], room: u64) -> bool
    ensures { result ≡ list_any (λ task. waits_without room task.phase) tasks.now }
{
    tasks.iter().any(|task| waits_without(task.phase, room))
}

/// Whether each task has an event, whatever its process's call would do, where so much room is left.
pub fn all_have_events(tasks: &[Task], room: u64) -> bool
    ensures { result ≡ list_all (λ task. has_event room task.phase) tasks.now }
{
    tasks.iter().all(|task| has_event(task.phase, room))
}

/// The lowest pid whose call can go on at once where so much room is left.
pub fn first_going(tasks: &[Task], room: u64) -> Option<u32>
    ensures { result ≡ first_going room tasks.now }
{
    for task in tasks {
        if goes_within(task.phase, room) {
            return Some(task.pid);
        }
    }
    None
}

/// Whether there is no task but the first process's.
pub fn is_alone(tasks: &[Task]) -> bool
    ensures { result ≡ list_all (λ task. task.pid == 1) tasks.now }
{
    tasks.iter().all(|task| task.pid == 1)
}

/// What the end of its process leaves of a phase.
fn stranded(phase: Phase) -> Phase
    ensures { result ≡ event.stranded phase }
{
    match phase {
        Phase::Admitted(asked) | Phase::Stranded(asked) => Phase::Stranded(asked),
        Phase::User | Phase::Waiting(_) | Phase::Asleep(_) | Phase::Dead => Phase::Dead,
    }
}

/// Marks the tasks whose processes have ended.
fn mark_dead<T: Turner>(store: &T, tasks: &mut [Task])
    ensures { (world : World) → T.stands store.now world → tasks.new ≡ map (event.bury world.plain) tasks.old }
{
    for task in tasks.iter_mut() {
        if !store.alive(task.pid) {
            task.phase = stranded(task.phase);
        }
    }
}

/// Drops the tasks that are dead.
fn drop_dead(tasks: &mut Vec<Task>)
    ensures items { tasks.new.items ≡ filter (λ task. not (event.is_dead task.phase)) tasks.old.items }
    ensures room { vec_capacity tasks.new ≡ vec_capacity tasks.old }
{
    tasks.retain(|task| !is_dead(task.phase));
}

fn is_dead(phase: Phase) -> bool
    ensures { result ≡ event.is_dead phase }
{
    matches!(phase, Phase::Dead)
}

/// Drops the tasks whose processes have ended, but for calls that are admitted still.
pub fn bury<T: Turner>(store: &T, tasks: &mut Vec<Task>)
    ensures items { (world : World) → T.stands store.now world → tasks.new.items ≡ event.buried world.plain tasks.old.items }
    ensures room { vec_capacity tasks.new ≡ vec_capacity tasks.old }
{
    mark_dead(store, tasks.as_mut_slice());
    drop_dead(tasks);
}

/// The same behind a turn that may have ended processes, or has left all of them alive.
pub fn bury_ended<T: Turner>(store: &T, tasks: &mut Vec<Task>, ends: bool)
    ensures items { (world : World) → T.stands store.now world → (ends ≡ false → event.buried world.plain tasks.old.items ≡ tasks.old.items)
        → tasks.new.items ≡ event.buried world.plain tasks.old.items }
    ensures room { vec_capacity tasks.new ≡ vec_capacity tasks.old }
{
    if ends {
        bury(store, tasks);
    }
}

/// Adds the task of a process that was made, where the last pid has risen.
pub fn add_born(tasks: &mut Vec<Task>, before: u32, after: u32)
    requires one { after ≤ before + 1 }
    requires room { vec_len tasks.old < vec_capacity tasks.old }
    ensures items { tasks.new.items ≡ tasks.old.items ++ event.born (before + 1) (after - before) }
    ensures room { vec_capacity tasks.new ≡ vec_capacity tasks.old }
{
    if after > before {
        tasks.push_reserved(Task {
            pid: after,
            phase: Phase::User,
        });
    }
}

/// Drops the task of a pid.
pub fn remove(tasks: &mut Vec<Task>, pid: u32)
    requires { AreRising 0 tasks.old.items }
    ensures items { tasks.new.items ≡ event.tasks_without tasks.old.items pid }
    ensures room { vec_capacity tasks.new ≡ vec_capacity tasks.old }
{
    if let Some(place) = place_of(tasks.as_slice(), pid) {
        let _ = tasks.remove(place);
    }
}
