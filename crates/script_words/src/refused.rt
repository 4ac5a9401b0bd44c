use kabi_types::{FaultKind, Memory};

/// Why a reader of a part of a script stopped.
#[derive(Clone, Copy)]
pub enum Refused {
    /// The line has this fault.
    Fault(FaultKind),
    Memory,
}

impl From<Memory> for Refused {
    ghost use Rattle.std.specs.Prelude.{◌≡◌};
    ghost use Rattle.script_words.specs.declared.refused.Refused.TheVariants as refused;

    ghost from_gives = { λ _ answer. answer ≡ refused.Memory };

    fn from(_: Memory) -> Self {
        Refused::Memory
    }
}

impl From<std::alloc::AllocError> for Refused {
    ghost use Rattle.std.specs.Prelude.{◌≡◌};
    ghost use Rattle.script_words.specs.declared.refused.Refused.TheVariants as refused;

    ghost from_gives = { λ _ answer. answer ≡ refused.Memory };

    fn from(_: std::alloc::AllocError) -> Self {
        Refused::Memory
    }
}

impl<T: Drop> From<std::alloc::AllocFailed<T>> for Refused {
    ghost use Rattle.std.specs.Prelude.{◌≡◌};
    ghost use Rattle.script_words.specs.declared.refused.Refused.TheVariants as refused;

    ghost from_gives = { λ _ answer. answer ≡ refused.Memory };

    fn from(_: std::alloc::AllocFailed<T>) -> Self {
        Refused::Memory
    }
}

impl From<FaultKind> for Refused {
    ghost use Rattle.std.specs.Prelude.{◌≡◌};
    ghost use Rattle.script_words.specs.declared.refused.Refused.TheVariants as refused;

    ghost from_gives = { λ kind answer. answer ≡ refused.Fault kind };

    fn from(kind: FaultKind) -> Self {
        Refused::Fault(kind)
    }
}
