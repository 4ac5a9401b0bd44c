//! What is asked for: the places of a file, and the kind with which they are to be held.

ghost use Rattle.std.specs.Prelude.{◌≡◌, ◌^◌, ◌<◌, ◌≤◌, ℕ, None, IfSome};
ghost use Rattle.std.specs.Option.{option_map};
ghost use Rattle.kabi_types.specs.Arguments.{count_of, locked_fault};
ghost use Rattle.lock_table.specs.Holding.{IsAsked, asked_by};
ghost use Rattle.posix_defs.specs.Calls.OnLocks.{kind_asked, request_of};
ghost use Rattle.lock_calls.specs.Claiming.{right_request};

use kabi_types::{Call, last_place};
use lock_table::LockRange;

/// The kinds of a request.
pub(crate) const F_RDLCK: u32 = 0;

pub(crate) const F_WRLCK: u32 = 1;

pub(crate) const F_UNLCK: u32 = 2;

/// What the operands of a call ask for, which are right.
pub(crate) fn range_of(kind: i64, start: i64, length: i64) -> LockRange
    requires { (most : ℕ) × (locked_fault most kind start length ≡ None) }
    ensures asked { IsAsked result }
    ensures request { asked_by result ≡ request_of kind start length }
{
    let kind = kind_of(count_of(kind));
    let start = count_of(start);
    let last = last_place(start, count_of(length));
    LockRange { kind, start, last }
}

/// The same of a `setlkw`; None where its operands are wrong.
pub(crate) fn right_range(fd: i64, kind: i64, start: i64, length: i64) -> Option<LockRange>
    ensures asked { IfSome result IsAsked }
    ensures request { option_map asked_by result ≡ right_request fd kind start length }
{
    let call = Call::Setlkw {
        fd,
        kind,
        start,
        length,
    };
    match call.checked() {
        Ok(()) => Some(range_of(kind, start, length)),
        Err(_) => None,
    }
}

/// The number of a kind that is asked for.
fn kind_of(kind: u64) -> u32
    ensures same { kind_asked result ≡ kind_asked kind }
    ensures most { result ≤ 2 }
{
    match kind {
        0 => F_RDLCK,
        1 => F_WRLCK,
        _ => F_UNLCK,
    }
}

fn count_of(number: i64) -> u64
    ensures same { result ≡ count_of number }
    ensures few { result < 2 ^ 63 }
{
    u64::try_from(number).unwrap_or(0)
}
