ghost use Rattle.std.specs.Prelude.{◌≡◌};

use crate::{CallKind, Reply};

/// Which of the three caches an evicted object was in.
#[derive(Clone, Copy, PartialEq)]
pub enum Cached {
    Name,
    Block,
    Vnode,
}

/// One line of a history: what a call answered, or what happened to a process or a cache.
#[derive(Drop)]
pub enum Entry {
    /// The call ended with this reply.
    Done {
        pid: u32,
        kind: CallKind,
        reply: Reply,
    },
    /// A write moved so many bytes and sleeps with what is left.
    Part {
        pid: u32,
        kind: CallKind,
        moved: u32,
    },
    /// The call's bound is above what the heap can ever give, so it was answered ENOMEM.
    Refused {
        pid: u32,
        kind: CallKind,
        bound: u64,
    },
    /// The call would block.
    Slept {
        pid: u32,
        kind: CallKind,
    },
    /// The process ended in its own call, with this wait status.
    Ended {
        pid: u32,
        kind: CallKind,
        status: u16,
    },
    /// The call was given up, since its process had ended.
    Gone {
        pid: u32,
        kind: CallKind,
    },
    /// The process was ended with signal 9, so that the call of `waiter`, which needs `need` bytes, may fit. `live` is
    /// the live bytes before that.
    Killed {
        pid: u32,
        waiter: u32,
        need: u64,
        live: u64,
    },
    /// The coldest unpinned object of this cache went.
    Evicted {
        what: Cached,
    },
}

impl Entry {
    /// An equal entry.
    pub fn copy(&self) -> Self
        ensures { result ≡ self.now }
    {
        match self {
            Entry::Done { pid, kind, reply } => Entry::Done {
                pid: *pid,
                kind: *kind,
                reply: reply.copy(),
            },
            Entry::Part { pid, kind, moved } => Entry::Part {
                pid: *pid,
                kind: *kind,
                moved: *moved,
            },
            Entry::Refused { pid, kind, bound } => Entry::Refused {
                pid: *pid,
                kind: *kind,
                bound: *bound,
            },
            Entry::Slept { pid, kind } => Entry::Slept {
                pid: *pid,
                kind: *kind,
            },
            Entry::Ended { pid, kind, status } => Entry::Ended {
                pid: *pid,
                kind: *kind,
                status: *status,
            },
            Entry::Gone { pid, kind } => Entry::Gone {
                pid: *pid,
                kind: *kind,
            },
            Entry::Killed {
                pid,
                waiter,
                need,
                live,
            } => Entry::Killed {
                pid: *pid,
                waiter: *waiter,
                need: *need,
                live: *live,
            },
            Entry::Evicted { what } => Entry::Evicted { what: *what },
        }
    }
}

/// How a run ended.
#[derive(Clone, Copy, PartialEq)]
pub enum End {
    /// The first process has ended, and no call holds a reservation any more.
    Finished,
    /// The first process waits for heap, and nothing can be freed for it.
    Starved { pid: u32, need: u64 },
    /// Nobody can go on: what each live process sleeps for hasn't come, and no call is admitted.
    AllAsleep,
    /// As many events were taken as the script allows.
    Spent,
}

/// One atomic step of the core.
#[derive(Clone, Copy)]
pub enum Event {
    /// The process asks for its next call.
    Ask(u32),
    /// Its call reserves its bound.
    Admit(u32),
    /// Its call runs.
    Turn(u32),
    /// Its sleeping call wouldn't block now, and waits for heap again.
    Wake(u32),
    /// The admitted call of a process that has ended gives its reservation back.
    Abandon(u32),
    /// A cache loses its coldest unpinned object.
    Evict(Cached),
    /// The victim is ended.
    Kill(u32),
}

/// An event as the core keeps it.
#[derive(Drop)]
pub struct Noted {
    pub event: Event,
    /// The kind of the process's call; None for `Evict` and `Kill`.
    pub kind: Option<CallKind>,
    /// What the event adds to the history. `Admit`, `Wake`, `Abandon` and an `Ask` whose call is to wait add nothing.
    pub entry: Option<Entry>,
    /// The call's bound, in bytes; 0 for `Evict` and `Kill`.
    pub bound: u64,
    /// What is charged after the event, in bytes.
    pub charged: u64,
}

impl Noted {
    /// An equal record of the event.
    pub fn copy(&self) -> Self
        ensures { result ≡ self.now }
    {
        Noted {
            event: self.event,
            kind: self.kind,
            entry: self.entry.as_ref().map(Entry::copy),
            bound: self.bound,
            charged: self.charged,
        }
    }
}
