//! The two calls.
ghost use Rattle.std.specs.Prelude.{◌≡◌, ◌+◌, ◌≤◌};
ghost use Rattle.priced_store.specs.Paying.{IsPaid};
ghost use Rattle.priced_store.specs.Prices.{price};
ghost use Rattle.priced_store.specs.Worlds.{call_at, live_in, stage_after};

use crate::arena::{Arena, Purse};
use crate::prices::GROUP;
use crate::stages::Stage;

/// What a process takes, in bytes.
const PROCESS: u64 = 512;

/// `mmap` of two pages, from page 1 on: they lie in one group.
fn map(arena: &mut Arena, purse: &mut Purse)
    requires room { arena.old.used + purse.old.left ≤ arena.old.heap }
    requires price { 512 ≤ purse.old.left }
    ensures used { arena.new.used ≡ arena.old.used + 512 }
    ensures paid { IsPaid arena.old purse.old.left arena.new purse.new.left }
{
    arena.make(purse, GROUP);
}

/// The next call of a process at this stage, paid from a purse that holds its price at least.
pub fn run(arena: &mut Arena, purse: &mut Purse, stage: Stage)
    requires stage { arena.old.used ≡ live_in stage }
    requires room { arena.old.used + purse.old.left ≤ arena.old.heap }
    requires price { price (call_at stage) ≤ purse.old.left }
    ensures used { arena.new.used ≡ live_in (stage_after stage) }
    ensures paid { IsPaid arena.old purse.old.left arena.new purse.new.left }
{
    match stage {
        Stage::Begun => map(arena, purse),
        Stage::Mapped => arena.free(PROCESS + GROUP),
        Stage::Refused => arena.free(PROCESS),
        Stage::Over => (),
    }
}
