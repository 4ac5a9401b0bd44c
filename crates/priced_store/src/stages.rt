//! How far the process has come.
ghost use Rattle.std.specs.Prelude.{◌≡◌};
ghost use Rattle.priced_store.specs.Worlds.{call_at, lives_at, live_in, stage_after, stage_refused, told_at};

use kabi_types::{Call, Reply};
use posix_defs::Turned;

/// How far the process has come.
#[derive(Clone, Copy)]
pub enum Stage {
    /// It maps its pages next.
    Begun,
    /// They are mapped, and it ends next.
    Mapped,
    /// It was refused, and ends next.
    Refused,
    /// It has ended.
    Over,
}

impl Stage {
    /// Whether the process lives.
    pub fn lives(self) -> bool
        ensures { result ≡ lives_at self }
    {
        match self {
            Stage::Begun | Stage::Mapped | Stage::Refused => true,
            Stage::Over => false,
        }
    }

    /// The call that it makes next. Nobody asks one that has ended.
    pub fn call(self) -> Call
        ensures { result ≡ call_at self }
    {
        match self {
            Stage::Begun => Call::Mmap { length: 8192 },
            Stage::Mapped | Stage::Refused | Stage::Over => Call::Exit { status: 0 },
        }
    }

    /// What the turn of that call tells.
    pub fn told(self) -> Turned
        ensures { result ≡ told_at self }
    {
        match self {
            Stage::Begun => Turned::Done(Reply::Val(4096)),
            Stage::Mapped | Stage::Refused => Turned::Ended(0),
            Stage::Over => Turned::Gone,
        }
    }

    /// Where that turn leads.
    pub fn after(self) -> Stage
        ensures { result ≡ stage_after self }
    {
        match self {
            Stage::Begun => Stage::Mapped,
            Stage::Mapped | Stage::Refused | Stage::Over => Stage::Over,
        }
    }

    /// Where it leads that it is refused: a call behind which the program goes on leads to its next, and an end is asked for again.
    pub fn refused(self) -> Stage
        ensures leads { result ≡ stage_refused self }
        ensures live { live_in result ≡ live_in self }
    {
        match self {
            Stage::Begun => Stage::Refused,
            Stage::Mapped | Stage::Refused | Stage::Over => self,
        }
    }
}
