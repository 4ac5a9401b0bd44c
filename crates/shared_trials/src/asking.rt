//! What a process asks for with a call.

ghost use Rattle.std.specs.Prelude.{◌≡◌};
ghost use Rattle.kabi_types.specs.Call.{kind_of};
ghost use Rattle.posix_defs.specs.Needs.{bound};

use kabi_types::Call;
use need_table::bound;
use posix_defs::Asked;

/// The call's kind and its bound.
pub(crate) fn asked_of(call: &Call) -> Asked
    ensures { result ≡ record { kind = kind_of call.now; bound = bound call.now } }
{
    Asked {
        kind: call.kind(),
        bound: bound(call),
    }
}
