//! What each worker does, and all of them together.
ghost use Rattle.std.specs.Prelude.{◌≡◌, ℕ, ◌<◌, List, length, None, Some, slice_index_or};
ghost use Rattle.std.specs.List.{AllByRecursion};
ghost use Rattle.turn_words.specs.Items.{heard};
ghost use Rattle.kern_shared.specs.Attends.{HoldsCall};
ghost use Rattle.kern_shared.specs.Passes.{IsAtRest};
ghost use Rattle.work_crew.specs.Working.{GoesOn, HasWorked, IsServed, is_short, may_help};

use crate::rests::Rest;
use crate::{Door, Point};
use crossbeam_utils::Backoff;
use kabi_types::Call;
use kern_events::Relief;
use kern_shared::{Attended, Kernel, Pass, Picked, RunName};
use posix_defs::Turner;
use std::sync::Wait;
use std::thread;
use std::thread::Threads;

/// Whether there was no room for a call.
fn is_short(answered: &Attended) -> bool
    ensures { result ≡ is_short answered.now }
{
    matches!(answered, Attended::Short { .. })
}

/// Whether a call for which there is no room may get some: what was just freed, what others hold and give back, or what fits now. Else
/// nobody waits that lives, nothing helps, or all steps are used up.
fn may_help(relief: &Relief) -> bool
    ensures { result ≡ may_help relief.now }
{
    match relief {
        Relief::Fits(_) | Relief::Outstanding { .. } | Relief::Evicted(_) | Relief::Killed(_) =>
            true,
        Relief::NoneWaiting | Relief::Starved | Relief::Spent => false,
    }
}

/// Has the call answered of the process that the pass holds, and helps the calls that wait as long as there is no room for it. Where
/// a relief can't help, the pass's next turn gives the process back; the answer is whether it wasn't given back.
fn serve<T: Turner + Drop, L: RunName, R: Wait>(
    rt: &R,
    kernel: &Kernel<T, L>,
    pass: &mut Pass<T, L>,
    pid: u32,
    call: &Call,
) -> bool
    requires pass { IsAtRest L.script L.steps L.charge kernel.now.turns pass.old.turn pass.old.own pass.old.given }
    requires given { pass.old.given ≡ Some pid }
    requires holds { HoldsCall L.script L.steps (heard pass.old.turn.known.seen) pid call.now }
    ensures pass { IsAtRest L.script L.steps L.charge kernel.now.turns pass.new.turn pass.new.own pass.new.given }
    ensures none { pass.new.given ≡ None }
    ensures goes_on { GoesOn pass.old.turn.known pass.new.turn.known }
    ensures serves { IsServed L.script L.steps pid call.now pass.old.turn pass.old.own.known pass.new.turn result }
{
    let backoff = Backoff::new();
    for _ in rt.forever() {
        if !is_short(&kernel.attend(rt, pass, pid, call)) {
            return true;
        }
        if !may_help(&kernel.relieve(rt, pass)) {
            kernel.release(rt, pass);
            return false;
        }
        backoff.snooze();
    }
    unreachable!()
}

/// Serves the process that the pass was given, and tells the door before it and where its call was answered.
fn visit<T: Turner + Drop, L: RunName, D: Door, R: Wait>(
    rt: &R,
    kernel: &Kernel<T, L>,
    pass: &mut Pass<T, L>,
    worker: u32,
    pid: u32,
    call: &Call,
    door: &D,
)
    requires pass { IsAtRest L.script L.steps L.charge kernel.now.turns pass.old.turn pass.old.own pass.old.given }
    requires given { pass.old.given ≡ Some pid }
    requires holds { HoldsCall L.script L.steps (heard pass.old.turn.known.seen) pid call.now }
    ensures pass { IsAtRest L.script L.steps L.charge kernel.now.turns pass.new.turn pass.new.own pass.new.given }
    ensures none { pass.new.given ≡ None }
    ensures goes_on { GoesOn pass.old.turn.known pass.new.turn.known }
{
    door.at(worker, pid, Point::Picked);
    if serve(rt, kernel, pass, pid, call) {
        door.at(worker, pid, Point::Answered);
    }
}

/// One worker: it asks for a process and serves it, again and again, until the run is over. Where its number is above what the door can
/// be told, it is told the greatest.
fn work<T: Turner + Drop, L: RunName, D: Door, R: Wait>(
    rt: &R,
    kernel: &Kernel<T, L>,
    pass: &mut Pass<T, L>,
    place: usize,
    door: &D,
)
    requires pass { IsAtRest L.script L.steps L.charge kernel.now.turns pass.old.turn pass.old.own pass.old.given }
    requires none { pass.old.given ≡ None }
    ensures pass { IsAtRest L.script L.steps L.charge kernel.now.turns pass.new.turn pass.new.own pass.new.given }
    ensures none { pass.new.given ≡ None }
    ensures worked { HasWorked L.script L.steps pass.old.turn.known pass.new.turn.known }
{
    let worker = u32::try_from(place).unwrap_or(u32::MAX);
    let mut rest = Rest::of(worker);
    for _ in rt.forever() {
        match kernel.pick(rt, pass) {
            Picked::Over(_) => return,
            Picked::Idle => rest.without_work(),
            Picked::Run { pid, call } => {
                let waited = pass.waited();
                visit(rt, kernel, pass, worker, pid, &call, door);
                rest.behind(waited || pass.waited());
            }
        }
    }
}

/// Runs the kernel's processes to the end of the run, with a worker for each of these passes, in a thread of its own where one can be
/// made. Behind it no pass holds a process, and each has seen that the run is over, with an end that stands.
pub fn crew<
    T: Turner + Drop + Send,
    L: RunName + Send + Sync,
    D: Door + Sync,
    R: Threads + Wait + Sync,
>(rt: &R, kernel: &Kernel<T, L>, passes: &mut [Pass<T, L>], door: &D)
    requires some { 0 < length passes.old }
    requires each { AllByRecursion (λ p. IsAtRest L.script L.steps L.charge kernel.now.turns p.turn p.own p.given × (p.given ≡ None)) passes.old }
    ensures each { AllByRecursion (λ p. IsAtRest L.script L.steps L.charge kernel.now.turns p.turn p.own p.given × (p.given ≡ None)) passes.new }
    ensures count { length passes.new ≡ length passes.old }
    ensures worked { (place : ℕ) (d : _) → place < length passes.old
        → HasWorked L.script L.steps (slice_index_or passes.old place d).turn.known (slice_index_or passes.new place d).turn.known }
{
    let workers = passes.len();
    thread::for_each_mut(
        rt,
        passes,
        workers,
        &|place: usize, pass: &mut Pass<T, L>|
            requires { IsAtRest L.script L.steps L.charge kernel.now.turns pass.old.turn pass.old.own pass.old.given × (pass.old.given ≡ None) }
            ensures { (IsAtRest L.script L.steps L.charge kernel.entry.now.turns pass.new.turn pass.new.own pass.new.given × (pass.new.given ≡ None))
                × HasWorked L.script L.steps pass.old.turn.known pass.new.turn.known }
        { work(rt, kernel, pass, place, door) },
    );
}
