ghost use Rattle.std.specs.Prelude.{◌≡◌};

use kabi_types::{Cached, Entry};

/// What a process's call came to, without how it came out.
#[derive(Clone, Copy, PartialEq)]
pub enum Deed {
    /// The call is over, with some reply.
    Done,
    /// A write moved some bytes, and goes on.
    Part,
    /// The call was answered ENOMEM, since the heap can never give its bound.
    Refused,
    /// The call would block.
    Slept,
    /// The process ended in its call, with some status.
    Ended,
    /// The call was given up, since its process had ended.
    Gone,
}

/// What somebody says that came next in a history: who did what, without how it came out. The machine knows the rest.
#[derive(Clone, Copy, PartialEq)]
pub enum Claim {
    /// The call of the process came to this.
    Did { pid: u32, deed: Deed },
    /// The process was ended, so that the call of `waiter` may fit.
    Killed { pid: u32, waiter: u32 },
    /// An object of this cache went.
    Evicted { what: Cached },
}

impl Claim {
    ghost use Rattle.run_pasts.specs.Claims.{claim_of_entry};

    /// What an entry says, without how it came out.
    pub fn of(entry: &Entry) -> Claim
        ensures { result ≡ claim_of_entry entry.now }
    {
        match entry {
            Entry::Done { pid, .. } => did(*pid, Deed::Done),
            Entry::Part { pid, .. } => did(*pid, Deed::Part),
            Entry::Refused { pid, .. } => did(*pid, Deed::Refused),
            Entry::Slept { pid, .. } => did(*pid, Deed::Slept),
            Entry::Ended { pid, .. } => did(*pid, Deed::Ended),
            Entry::Gone { pid, .. } => did(*pid, Deed::Gone),
            Entry::Killed { pid, waiter, .. } => Claim::Killed {
                pid: *pid,
                waiter: *waiter,
            },
            Entry::Evicted { what } => Claim::Evicted { what: *what },
        }
    }
}

fn did(pid: u32, deed: Deed) -> Claim
    ensures { result ≡ Claim.Did pid deed }
{
    Claim::Did { pid, deed }
}
