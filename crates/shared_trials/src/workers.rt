//! What a worker does with its pass, one step after another.

ghost use Rattle.std.specs.Prelude.{◌≡◌, None};
ghost use Rattle.shared_trials.specs.Workers.{IsAsMany, Works, is_short};

use kabi_types::{Cached, Call, CallKind, End, Entry, Errno, Reply};
use kern_events::Relief;
use kern_shared::{Attended, Kernel, Pass, Picked, RunName};
use posix_defs::Turner;
use std::sync::Wait;

/// What a worker asks of the kernel.
#[derive(Clone, Copy)]
pub enum Ask {
    Pick,
    Attend,
    Relieve,
    Release,
}

/// What it is answered, as a row of a table has it.
#[derive(Clone, Copy, PartialEq)]
pub enum Told {
    Run(u32, CallKind),
    Idle,
    Over(End),
    Value(i64),
    Failed(Errno),
    Refused,
    Short { charged: u64, need: u64 },
    Ended(u16),
    Gone,
    Spent,
    Helped(Relief),
    Released,
    /// The worker can't ask that now.
    Nothing,
    /// What no process of these tests is answered.
    Other,
}

/// What an answer to a call tells.
fn told_by(answer: &Attended) -> Told {
    match answer {
        Attended::Done(Reply::Val(value)) => Told::Value(*value),
        Attended::Done(Reply::Fail(errno)) => Told::Failed(*errno),
        Attended::Refused => Told::Refused,
        Attended::Short { charged, need } => Told::Short {
            charged: *charged,
            need: *need,
        },
        Attended::Ended(status) => Told::Ended(*status),
        Attended::Gone => Told::Gone,
        Attended::Spent => Told::Spent,
        Attended::Done(_) | Attended::Part(_) | Attended::Sleep => Told::Other,
    }
}

/// Whether an answer leaves the process held.
fn is_short(answer: &Attended) -> bool
    ensures { result ≡ is_short answer.now }
{
    matches!(answer, Attended::Short { .. })
}

/// Asks for a process.
fn pick<R: Wait, T: Turner + Drop, L: RunName>(
    rt: &R,
    kernel: &Kernel<T, L>,
    pass: &mut Pass<T, L>,
    held: &mut Option<(u32, Call)>,
) -> Told
    requires { Works L.script L.steps L.charge kernel.now.turns pass.old.turn pass.old.own pass.old.given held.old }
    ensures works { Works L.script L.steps L.charge kernel.now.turns pass.new.turn pass.new.own pass.new.given held.new }
    ensures many { IsAsMany pass.old.turn pass.new.turn }
{
    if held.is_some() {
        return Told::Nothing;
    }
    match kernel.pick(rt, pass) {
        Picked::Run { pid, call } => {
            let kind = call.kind();
            *held = Some((pid, call));
            Told::Run(pid, kind)
        }
        Picked::Idle => Told::Idle,
        Picked::Over(end) => Told::Over(end),
    }
}

/// Has the call of the process answered that it holds.
fn attend<R: Wait, T: Turner + Drop, L: RunName>(
    rt: &R,
    kernel: &Kernel<T, L>,
    pass: &mut Pass<T, L>,
    held: &mut Option<(u32, Call)>,
) -> Told
    requires { Works L.script L.steps L.charge kernel.now.turns pass.old.turn pass.old.own pass.old.given held.old }
    ensures works { Works L.script L.steps L.charge kernel.now.turns pass.new.turn pass.new.own pass.new.given held.new }
    ensures many { IsAsMany pass.old.turn pass.new.turn }
{
    let Some((pid, call)) = held.take() else {
        return Told::Nothing;
    };
    let answer = kernel.attend(rt, pass, pid, &call);
    let told = told_by(&answer);
    if is_short(&answer) {
        *held = Some((pid, call));
        return told;
    }
    told
}

/// Helps the calls that wait.
fn relieve<R: Wait, T: Turner + Drop, L: RunName>(
    rt: &R,
    kernel: &Kernel<T, L>,
    pass: &mut Pass<T, L>,
    held: &Option<(u32, Call)>,
) -> Told
    requires { Works L.script L.steps L.charge kernel.now.turns pass.old.turn pass.old.own pass.old.given held.now }
    ensures works { Works L.script L.steps L.charge kernel.now.turns pass.new.turn pass.new.own pass.new.given held.now }
    ensures many { IsAsMany pass.old.turn pass.new.turn }
{
    Told::Helped(kernel.relieve(rt, pass))
}

/// Gives the process back that it holds.
pub fn release<R: Wait, T: Turner + Drop, L: RunName>(
    rt: &R,
    kernel: &Kernel<T, L>,
    pass: &mut Pass<T, L>,
    held: &mut Option<(u32, Call)>,
) -> Told
    requires { Works L.script L.steps L.charge kernel.now.turns pass.old.turn pass.old.own pass.old.given held.old }
    ensures works { Works L.script L.steps L.charge kernel.now.turns pass.new.turn pass.new.own pass.new.given held.new }
    ensures many { IsAsMany pass.old.turn pass.new.turn }
    ensures none { held.new ≡ None }
{
    if held.take().is_none() {
        return Told::Nothing;
    }
    kernel.release(rt, pass);
    Told::Released
}

/// Asks this of the kernel.
pub fn step<R: Wait, T: Turner + Drop, L: RunName>(
    rt: &R,
    kernel: &Kernel<T, L>,
    pass: &mut Pass<T, L>,
    held: &mut Option<(u32, Call)>,
    what: Ask,
) -> Told
    requires { Works L.script L.steps L.charge kernel.now.turns pass.old.turn pass.old.own pass.old.given held.old }
    ensures works { Works L.script L.steps L.charge kernel.now.turns pass.new.turn pass.new.own pass.new.given held.new }
    ensures many { IsAsMany pass.old.turn pass.new.turn }
{
    match what {
        Ask::Pick => pick(rt, kernel, pass, held),
        Ask::Attend => attend(rt, kernel, pass, held),
        Ask::Relieve => relieve(rt, kernel, pass, held),
        Ask::Release => release(rt, kernel, pass, held),
    }
}

/// An entry, as a row of a table has it.
#[derive(Clone, Copy, PartialEq)]
pub enum Line {
    Done(u32, CallKind),
    Refused(u32, CallKind, u64),
    Ended(u32, CallKind, u16),
    Gone(u32, CallKind),
    Killed {
        pid: u32,
        waiter: u32,
        need: u64,
        live: u64,
    },
    Evicted(Cached),
    /// What no process of these tests has.
    Other,
}

/// What an entry tells; of a call that is over its reply was told to the worker.
pub fn line_of(entry: &Entry) -> Line {
    match entry {
        Entry::Done { pid, kind, .. } => Line::Done(*pid, *kind),
        Entry::Refused { pid, kind, bound } => Line::Refused(*pid, *kind, *bound),
        Entry::Ended { pid, kind, status } => Line::Ended(*pid, *kind, *status),
        Entry::Gone { pid, kind } => Line::Gone(*pid, *kind),
        Entry::Killed {
            pid,
            waiter,
            need,
            live,
        } => Line::Killed {
            pid: *pid,
            waiter: *waiter,
            need: *need,
            live: *live,
        },
        Entry::Evicted { what } => Line::Evicted(*what),
        Entry::Part { .. } | Entry::Slept { .. } => Line::Other,
    }
}
