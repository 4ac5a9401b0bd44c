//! The price list.
ghost use Rattle.std.specs.Prelude.{◌≡◌, ◌*◌, ◌<◌, ◌≤◌, ◌^◌};
ghost use Rattle.kabi_types.specs.Arguments.{count_of};
ghost use Rattle.kabi_types.specs.declared.calls.Call.TheVariants.{Mmap};
ghost use Rattle.posix_defs.specs.Needs.{bound};
ghost use Rattle.priced_store.specs.Prices.{groups_of, price};

use kabi_types::Call;

/// What the entries of 64 neighbouring pages take, in bytes.
pub const GROUP: u64 = 512;

/// The number of bytes that an operand gives.
fn count_of(number: i64) -> u64
    ensures value { result ≡ count_of number }
    ensures below { result < 2 ^ 63 }
{
    u64::try_from(number).unwrap_or(0)
}

/// In how many groups of 64 the pages of a mapping of so many bytes lie. The first of them is page 1, as the space is empty.
fn groups_of(length: i64) -> u64
    ensures value { result ≡ groups_of length }
    ensures most { result ≤ 4 }
{
    if length < 1 {
        0
    } else {
        ((count_of(length) + 4095) / 4096 / 64 + 1).min(4)
    }
}

/// What the groups of a mapping of so many bytes take, in bytes.
fn mapping(length: i64) -> u64
    ensures value { result ≡ 512 * groups_of length }
    ensures within { result ≤ bound (Mmap length) }
{
    GROUP * groups_of(length)
}

/// What a call may take of this store's heap, in bytes: `mmap` the groups that its pages lie in, every other call nothing. The core
/// reserves as much at least.
pub fn price(call: &Call) -> u64
    ensures value { result ≡ price call.now }
    ensures within { result ≤ bound call.now }
{
    match call {
        Call::Mmap { length } => mapping(*length),
        _ => 0,
    }
}
