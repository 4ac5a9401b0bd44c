//! The purse of a turn.

ghost use Rattle.std.specs.Prelude.{◌≡◌, ◌≤◌};
ghost use Rattle.kabi_types.specs.declared.calls.Call.{Call};
ghost use Rattle.kheap_slabs.specs.Purse.{left_bytes};
ghost use Rattle.posix_defs.specs.Needs.{bound, need_of};
ghost use Rattle.posix_defs.specs.Sizes.{reserve};
ghost use Rattle.store_objects.specs.Purses.{closing_need, need_for, unspent};

use kabi_types::Need;
use kheap_slabs::Purse;

/// What a call moves bytes of.
#[derive(Clone, Copy)]
pub enum Target {
    /// A file or a directory, whose bytes lie in blocks.
    File,
    /// A pipe or a socket, whose bytes lie in chunks.
    Queue,
}

/// The purse of a call with this need and this target. It never has more than the call's bound, which is below what blocks and
/// chunks of a write come to together.
pub fn purse_for(need: Need, target: Target) -> Purse
    ensures value { result ≡ unspent (need_for target need) }
    ensures within { (call : Call) → need ≡ need_of call → left_bytes result ≤ bound call }
{
    match target {
        Target::File => Purse::of(Need { chunk: 0, ..need }),
        Target::Queue => Purse::of(Need { block: 0, ..need }),
    }
}

/// The purse of what is closed in one call or at one end: the blocks that are kept back for it, whatever is admitted.
pub fn kept_back() -> Purse
    ensures value { result ≡ unspent closing_need }
    ensures bytes { left_bytes result ≡ reserve }
{
    Purse::of(Need {
        block: 2,
        ..Need::default()
    })
}
