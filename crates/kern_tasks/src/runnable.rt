//! Which tasks are runnable: all but those whose calls sleep and of which the store keeps in mind that they would block. They are
//! kept by their places, so that an event looks at no task beside.

ghost use Rattle.std.specs.Prelude.{◌≡◌, ◌≢◌, ◌+◌, ◌≤◌, ◌<◌, ◌++◌, [], if◌then◌else◌, Bool, false, true, Some, length, slice_get, vec_len, vec_capacity};
ghost use Rattle.std.specs.List.{count_by};
ghost use Rattle.posix_defs.specs.declared.phases.Task.{Task as TaskOf};
ghost use Rattle.posix_defs.specs.SoundTasks.{AreRising};
ghost use Rattle.kern_tasks.specs.Room.{is_asleep};
ghost use Rattle.kern_tasks.specs.Runnable.{ArePlaces, AreRisingFrom, below, born_place, but_for, but_for_each, is_runnable, places_from, runnable_in, turned_test, with_place};

use crate::phases::is_asleep;
use crate::tasks::place_of;
use posix_defs::{Task, Turner};

/// Whether a task is runnable: its call doesn't sleep, or the store doesn't keep in mind that it would block.
fn is_runnable<T: Turner>(store: &T, task: Task) -> bool
    ensures { result ≡ is_runnable (T.settled store.now) task }
{
    !(is_asleep(task.phase) && store.settles(task.pid))
}

/// How many of these places, which rise, are below one. The walk goes down from the greatest, since who falls asleep or is woken is
/// mostly young.
fn count_below(places: &[u32], place: u32) -> usize
    requires { AreRisingFrom 0 places.now }
    ensures below { result ≡ below places.now place }
    ensures within { result ≤ length places.now }
{
    let mut count = places.len();
    while count > 0 {
        if places[count - 1] < place {
            return count;
        }
        count -= 1;
    }
    0
}

/// Whether a place stands at this number of them.
fn stands_at(places: &[u32], at: usize, place: u32) -> bool
    ensures stands { result ≡ true → slice_get places.now at ≡ Some place }
    ensures apart { result ≡ false → slice_get places.now at ≢ Some place }
{
    if at >= places.len() {
        return false;
    }
    places[at] == place
}

/// Has a place stand among places that rise, or not.
fn put_place(places: &mut Vec<u32>, place: u32, there: bool)
    requires rising { AreRisingFrom 0 places.old.items }
    requires room { vec_len places.old < vec_capacity places.old }
    ensures items { places.new.items ≡ with_place places.old.items place there }
    ensures room { vec_capacity places.old ≤ vec_capacity places.new }
{
    let at = count_below(places.as_slice(), place);
    if stands_at(places.as_slice(), at, place) {
        if !there {
            places.remove(at);
        }
    } else if there {
        // There is room.
        let _ = places.insert(at, place);
    }
}

/// The place of this number.
pub fn place_at(places: &[u32], number: u32) -> Option<u32>
    ensures { result ≡ slice_get places.now number }
{
    places.get(number as usize).copied()
}

/// Looks anew whether the task of a pid is runnable, if there is one.
#[inline(never)]
fn place_anew<T: Turner>(store: &T, tasks: &[Task], runnable: &mut Vec<u32>, pid: u32)
    requires rising { AreRising 0 tasks.now }
    requires few { length tasks.now ≤ 100001 }
    requires places { ArePlaces tasks.now runnable.old.items }
    requires room { length tasks.now < vec_capacity runnable.old }
    ensures items { (passes : TaskOf → Bool) → runnable.old.items ≡ places_from passes 0 tasks.now
        → runnable.new.items ≡ places_from (but_for passes pid (is_runnable (T.settled store.now))) 0 tasks.now }
    ensures room { vec_capacity runnable.old ≤ vec_capacity runnable.new }
{
    if let Some(place) = place_of(tasks, pid) {
        put_place(runnable, place as u32, is_runnable(store, tasks[place]));
    }
}

/// Looks anew at the tasks of those whom the store names.
pub fn sort_stirred<T: Turner>(store: &T, tasks: &[Task], runnable: &mut Vec<u32>)
    requires rising { AreRising 0 tasks.now }
    requires few { length tasks.now ≤ 100001 }
    requires places { ArePlaces tasks.now runnable.old.items }
    requires room { length tasks.now < vec_capacity runnable.old }
    ensures items { (passes : TaskOf → Bool) → runnable.old.items ≡ places_from passes 0 tasks.now
        → runnable.new.items ≡ places_from (but_for_each passes (T.stirred store.now) (is_runnable (T.settled store.now))) 0 tasks.now }
    ensures room { vec_capacity runnable.old ≤ vec_capacity runnable.new }
{
    for pid in store.stirred() {
        place_anew(store, tasks, runnable, *pid);
    }
}

/// How many calls sleep.
fn count_asleep(tasks: &[Task]) -> u32
    requires { length tasks.now ≤ 100001 }
    ensures { result ≡ count_by (λ task. is_asleep task.phase) tasks.now }
{
    let mut count = 0;
    for task in tasks {
        if is_asleep(task.phase) {
            count += 1;
        }
    }
    count
}

/// Puts down anew the places of the tasks that are runnable.
fn fill_runnable<T: Turner>(store: &T, tasks: &[Task], runnable: &mut Vec<u32>)
    requires few { length tasks.now ≤ 100001 }
    requires room { length tasks.now ≤ vec_capacity runnable.old }
    ensures items { runnable.new.items ≡ runnable_in (T.settled store.now) tasks.now }
    ensures room { vec_capacity runnable.old ≤ vec_capacity runnable.new }
{
    runnable.clear();
    for (place, task) in tasks.iter().enumerate() {
        if is_runnable(store, *task) {
            runnable.push_reserved(place as u32);
        }
    }
}

/// Looks anew at all tasks: which are runnable, and how many calls sleep.
#[inline(never)]
pub fn sort_anew<T: Turner>(store: &T, tasks: &[Task], runnable: &mut Vec<u32>, asleep: &mut u32)
    requires few { length tasks.now ≤ 100001 }
    requires room { length tasks.now ≤ vec_capacity runnable.old }
    ensures items { runnable.new.items ≡ runnable_in (T.settled store.now) tasks.now }
    ensures room { vec_capacity runnable.old ≤ vec_capacity runnable.new }
    ensures asleep { asleep.new ≡ count_by (λ task. is_asleep task.phase) tasks.now }
{
    fill_runnable(store, tasks, runnable);
    *asleep = count_asleep(tasks);
}

/// Adds the place of a task that was born, behind all others: who was made hasn't made a call.
fn add_runnable(tasks: &[Task], runnable: &mut Vec<u32>, born: bool)
    requires few { length tasks.now ≤ 100001 }
    requires there { born ≡ true → 0 < length tasks.now }
    requires room { vec_len runnable.old < vec_capacity runnable.old }
    ensures items { runnable.new.items ≡ runnable.old.items ++ born_place tasks.now born }
    ensures room { vec_capacity runnable.old ≤ vec_capacity runnable.new }
{
    if born {
        runnable.push_reserved(tasks.len() as u32 - 1);
    }
}

/// Looks anew at the task of a process whose turn left its call asleep, and counts it.
fn place_sleeper<T: Turner>(
    store: &T,
    tasks: &[Task],
    runnable: &mut Vec<u32>,
    asleep: &mut u32,
    pid: u32,
    sleeps: bool,
)
    requires rising { AreRising 0 tasks.now }
    requires few { length tasks.now ≤ 100001 }
    requires places { ArePlaces tasks.now runnable.old.items }
    requires room { length tasks.now < vec_capacity runnable.old }
    requires asleep { asleep.old < 4294967295 }
    ensures items { (passes : TaskOf → Bool) → runnable.old.items ≡ places_from passes 0 tasks.now
        → runnable.new.items ≡ places_from (if sleeps then but_for passes pid (is_runnable (T.settled store.now)) else passes) 0 tasks.now }
    ensures asleep { asleep.new ≡ asleep.old + (if sleeps then 1 else 0) }
    ensures room { vec_capacity runnable.old ≤ vec_capacity runnable.new }
{
    if sleeps {
        *asleep += 1;
        place_anew(store, tasks, runnable, pid);
    }
}

/// Looks anew at tasks behind a turn: at all where it may have ended somebody, else at that of its process, where its call sleeps now, at
/// those of whom the store names, and at the last, where it was born.
#[inline(never)]
fn sort_some<T: Turner>(
    store: &T,
    tasks: &[Task],
    runnable: &mut Vec<u32>,
    asleep: &mut u32,
    pid: u32,
    sleeps: bool,
    ends: bool,
    born: bool,
)
    requires rising { AreRising 0 tasks.now }
    requires few { length tasks.now ≤ 100001 }
    requires born { born ≡ true → 0 < length tasks.now }
    requires places { ends ≡ false → ArePlaces tasks.now (runnable.old.items ++ born_place tasks.now born) }
    requires room { length tasks.now < vec_capacity runnable.old }
    requires asleep { asleep.old < 4294967295 }
    ensures anew { ends ≡ true → (runnable.new.items ≡ runnable_in (T.settled store.now) tasks.now) × (asleep.new ≡ count_by (λ task. is_asleep task.phase) tasks.now) }
    ensures items { ends ≡ false → (passes : TaskOf → Bool) → runnable.old.items ++ born_place tasks.now born ≡ places_from passes 0 tasks.now
        → runnable.new.items ≡ places_from (turned_test passes pid sleeps (T.stirred store.now) (is_runnable (T.settled store.now))) 0 tasks.now }
    ensures asleep { ends ≡ false → asleep.new ≡ asleep.old + (if sleeps then 1 else 0) }
    ensures room { vec_capacity runnable.old ≤ vec_capacity runnable.new }
{
    if ends {
        sort_anew(store, tasks, runnable, asleep);
        return;
    }
    add_runnable(tasks, runnable, born);
    place_sleeper(store, tasks, runnable, asleep, pid, sleeps);
    sort_stirred(store, tasks, runnable);
}

/// Whether a turn leaves nothing to look at, as it mostly does.
#[inline(always)]
fn is_plain<T: Turner>(store: &T, sleeps: bool, ends: bool, born: bool) -> bool
    ensures ends { result ≡ true → ends ≡ false }
    ensures born { result ≡ true → born ≡ false }
    ensures sleeps { result ≡ true → sleeps ≡ false }
    ensures stirred { result ≡ true → T.stirred store.now ≡ [] }
{
    if ends || born || sleeps {
        return false;
    }
    store.stirred().is_empty()
}

/// The same, where it mostly does nothing.
#[inline(always)]
pub fn sort_turned<T: Turner>(
    store: &T,
    tasks: &[Task],
    runnable: &mut Vec<u32>,
    asleep: &mut u32,
    pid: u32,
    sleeps: bool,
    ends: bool,
    born: bool,
)
    requires rising { AreRising 0 tasks.now }
    requires few { length tasks.now ≤ 100001 }
    requires born { born ≡ true → 0 < length tasks.now }
    requires places { ends ≡ false → ArePlaces tasks.now (runnable.old.items ++ born_place tasks.now born) }
    requires room { length tasks.now < vec_capacity runnable.old }
    requires asleep { asleep.old < 4294967295 }
    ensures anew { ends ≡ true → (runnable.new.items ≡ runnable_in (T.settled store.now) tasks.now) × (asleep.new ≡ count_by (λ task. is_asleep task.phase) tasks.now) }
    ensures items { ends ≡ false → (passes : TaskOf → Bool) → runnable.old.items ++ born_place tasks.now born ≡ places_from passes 0 tasks.now
        → runnable.new.items ≡ places_from (turned_test passes pid sleeps (T.stirred store.now) (is_runnable (T.settled store.now))) 0 tasks.now }
    ensures asleep { ends ≡ false → asleep.new ≡ asleep.old + (if sleeps then 1 else 0) }
    ensures room { vec_capacity runnable.old ≤ vec_capacity runnable.new }
{
    if is_plain(store, sleeps, ends, born) {
        return;
    }
    sort_some(store, tasks, runnable, asleep, pid, sleeps, ends, born);
}
