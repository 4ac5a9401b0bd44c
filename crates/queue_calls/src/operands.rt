//! What operands a call that moves bytes takes.

ghost use Rattle.std.specs.Prelude.{◌≡◌, is_none};
ghost use Rattle.kabi_types.specs.Arguments.{count_of, is_within, lie_in_space, moved_fault};

/// The most bytes that a call may be asked to move.
const SSIZE_MAX: i64 = 32767;

/// How many bytes an address space has.
const SPACE: u64 = 1048576;

/// Whether `read` and `write` take these operands: at most 32767 bytes, which lie in the address space where they are any. It is
/// what `Call::checked` tells of the calls that have them.
pub(crate) fn may_move(addr: i64, n: i64) -> bool
    ensures { result ≡ is_none (moved_fault 0 addr n) }
{
    let count = count_of(n);
    are_few(n) && (count == 0 || lie_in_space(addr, count))
}

fn are_few(n: i64) -> bool
    ensures { result ≡ is_within 0 32767 n }
{
    0 <= n && n <= SSIZE_MAX
}

fn count_of(n: i64) -> u64
    ensures { result ≡ count_of n }
{
    u64::try_from(n).unwrap_or(0)
}

fn lie_in_space(addr: i64, n: u64) -> bool
    ensures { result ≡ lie_in_space addr n }
{
    u64::try_from(addr).is_ok_and(|addr| addr <= SPACE && n <= SPACE - addr)
}
