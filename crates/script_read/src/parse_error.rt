use kabi_types::{Memory, ScriptFault};
use std::alloc::{AllocError, AllocFailed};
use thiserror::Error;

/// Why a text isn't read.
#[derive(Clone, Copy, Debug, Error)]
pub enum ParseError {
    /// It is no script: the first line at fault, and the least of its faults.
    #[error("bad script: {0}")]
    Bad(ScriptFault),
    /// The host has no memory left.
    #[error("out of memory")]
    Memory,
}

impl From<Memory> for ParseError {
    ghost use Rattle.std.specs.Prelude.{◌≡◌};
    ghost use Rattle.script_read.specs.declared.parse_error.ParseError.TheVariants as error;

    ghost from_gives = { λ _ answer. answer ≡ error.Memory };

    fn from(_: Memory) -> Self {
        ParseError::Memory
    }
}

impl From<AllocError> for ParseError {
    ghost use Rattle.std.specs.Prelude.{◌≡◌};
    ghost use Rattle.script_read.specs.declared.parse_error.ParseError.TheVariants as error;

    ghost from_gives = { λ _ answer. answer ≡ error.Memory };

    fn from(_: AllocError) -> Self {
        ParseError::Memory
    }
}

impl<T: Drop> From<AllocFailed<T>> for ParseError {
    ghost use Rattle.std.specs.Prelude.{◌≡◌};
    ghost use Rattle.script_read.specs.declared.parse_error.ParseError.TheVariants as error;

    ghost from_gives = { λ _ answer. answer ≡ error.Memory };

    fn from(_: AllocFailed<T>) -> Self {
        ParseError::Memory
    }
}
