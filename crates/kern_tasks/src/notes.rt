//! What is told of a turn, and what is noted of an event.

ghost use Rattle.std.specs.Prelude.{◌≡◌, ◌<◌, ◌++◌, ◌∷◌, [], ◌-◌, Some, length, max, slice_get, vec_len, vec_capacity};
ghost use Rattle.posix_defs.specs.CoreEvent.{entry_of};
ghost use Rattle.kern_tasks.specs.Calm.{leaves_asleep, may_end};

use kabi_types::{CallKind, Entry, Noted};
use posix_defs::Turned;

/// Whether a turn of such a call may have ended a process: its own, by `kill` another, and with the first one all.
pub fn may_end(kind: CallKind, turned: &Turned) -> bool
    ensures { result ≡ may_end kind turned.now }
{
    matches!(kind, CallKind::Kill) || matches!(turned, Turned::Ended(_) | Turned::Gone)
}

/// Whether a turn that came to this leaves its call asleep.
pub fn leaves_asleep(turned: &Turned) -> bool
    ensures { result ≡ leaves_asleep turned.now }
{
    matches!(turned, Turned::Sleep | Turned::Part(_))
}

/// The entry that a turn adds to the history.
pub fn entry_of(pid: u32, kind: CallKind, turned: Turned) -> Entry
    ensures { result ≡ entry_of pid kind turned }
{
    match turned {
        Turned::Done(reply) => Entry::Done { pid, kind, reply },
        Turned::Part(moved) => Entry::Part { pid, kind, moved },
        Turned::Sleep => Entry::Slept { pid, kind },
        Turned::Ended(status) => Entry::Ended { pid, kind, status },
        Turned::Gone => Entry::Gone { pid, kind },
    }
}

/// Keeps what is noted of an event.
pub fn note(run: &mut Vec<Noted>, peak: &mut u64, noted: Noted)
    requires { vec_len run.old < vec_capacity run.old }
    ensures run { run.new.items ≡ run.old.items ++ noted ∷ [] }
    ensures room { vec_capacity run.new ≡ vec_capacity run.old }
    ensures peak { peak.new ≡ max peak.old noted.charged }
{
    *peak = (*peak).max(noted.charged);
    run.push_reserved(noted);
}

/// What was noted last.
pub fn last_noted(run: &[Noted]) -> Noted
    requires { 0 < length run.now }
    ensures { Some result ≡ slice_get run.now (length run.now - 1) }
{
    run[run.len() - 1].copy()
}
