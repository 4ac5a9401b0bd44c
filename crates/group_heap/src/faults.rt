//! Why a text of groups isn't read.

ghost use Rattle.std.specs.Prelude.{◌≡◌};
ghost use Rattle.group_heap.specs.Lines.{refusal_at};

use kabi_types::{Memory, ScriptFault};
use script_words::Refused;
use std::alloc::{AllocError, AllocFailed};
use thiserror::Error;

/// Why a text of groups isn't read.
#[derive(Clone, Copy, Debug, Error)]
pub enum GroupFault {
    /// The first line at fault, and the least of its faults; line 0 where no line is.
    #[error("bad script: {0}")]
    Bad(ScriptFault),
    /// The host has no memory left.
    #[error("out of memory")]
    Memory,
}

impl From<Memory> for GroupFault {
    ghost use Rattle.std.specs.Prelude.{◌≡◌};
    ghost use Rattle.group_heap.specs.declared.faults.GroupFault.TheVariants as fault;

    ghost from_gives = { λ _ answer. answer ≡ fault.Memory };

    fn from(_: Memory) -> Self {
        GroupFault::Memory
    }
}

impl From<AllocError> for GroupFault {
    ghost use Rattle.std.specs.Prelude.{◌≡◌};
    ghost use Rattle.group_heap.specs.declared.faults.GroupFault.TheVariants as fault;

    ghost from_gives = { λ _ answer. answer ≡ fault.Memory };

    fn from(_: AllocError) -> Self {
        GroupFault::Memory
    }
}

impl<T: Drop> From<AllocFailed<T>> for GroupFault {
    ghost use Rattle.std.specs.Prelude.{◌≡◌};
    ghost use Rattle.group_heap.specs.declared.faults.GroupFault.TheVariants as fault;

    ghost from_gives = { λ _ answer. answer ≡ fault.Memory };

    fn from(_: AllocFailed<T>) -> Self {
        GroupFault::Memory
    }
}

/// Why this line isn't taken.
pub fn at_line(line: u32, refused: Refused) -> GroupFault
    ensures { result ≡ refusal_at line refused }
{
    match refused {
        Refused::Fault(what) => GroupFault::Bad(ScriptFault { line, what }),
        Refused::Memory => GroupFault::Memory,
    }
}
