//! The pieces of a line. A line that each event adds is put together from its words and numbers, with no format between. A line has
//! some ten pieces, most of them a known word, so each is written where it is wanted: a call would cost more than the piece.

ghost use Rattle.std.specs.Prelude.{◌≡◌, ◌++◌, ◌<◌, OnOk, decimal, string_bytes};
ghost use Rattle.std.specs.Fmt.{signed_decimal};
ghost use Rattle.posix_defs.specs.Lines.{pid_text};

use itoa::{Buffer, Integer};
use std::alloc::AllocError;

/// A number in decimal digits, behind a sign where it is below 0.
#[inline(always)]
pub(crate) fn push_number<N: Integer>(out: &mut String, number: N) -> Result<(), AllocError>
    ensures { OnOk result (string_bytes out.new ≡ string_bytes out.old ++ N.text number) }
{
    let mut digits = Buffer::new();
    out.push_str(digits.format(number))
}

/// A number below 10 as one digit.
fn digit(number: u64) -> &'static str
    requires { number < 10 }
    ensures { result.now ≡ decimal number }
{
    match number {
        0 => "0",
        1 => "1",
        2 => "2",
        3 => "3",
        4 => "4",
        5 => "5",
        6 => "6",
        7 => "7",
        8 => "8",
        _ => "9",
    }
}

/// A number that is mostly below 10, as pids and the bounds of calls that make nothing are: then it is a known digit.
#[inline(always)]
pub(crate) fn push_small(out: &mut String, number: u64) -> Result<(), AllocError>
    ensures { OnOk result (string_bytes out.new ≡ string_bytes out.old ++ decimal number) }
{
    if number < 10 {
        return out.push_str(digit(number));
    }
    push_number(out, number)
}

/// The same of a value that may be below 0.
#[inline(always)]
pub(crate) fn push_value(out: &mut String, value: i64) -> Result<(), AllocError>
    ensures { OnOk result (string_bytes out.new ≡ string_bytes out.old ++ signed_decimal value) }
{
    match u64::try_from(value) {
        Ok(number) => push_small(out, number),
        Err(_) => push_number(out, value),
    }
}

/// A number behind a word that says what it is.
#[inline(always)]
pub(crate) fn push_field<N: Integer>(
    out: &mut String,
    word: &str,
    number: N,
) -> Result<(), AllocError>
    ensures { OnOk result (string_bytes out.new ≡ string_bytes out.old ++ word.now ++ N.text number) }
{
    out.push_str(word)?;
    push_number(out, number)
}

/// Who did what of which call.
#[inline(always)]
pub(crate) fn push_call(out: &mut String, pid: u32, did: &str, word: &str) -> Result<(), AllocError>
    ensures { OnOk result (string_bytes out.new ≡ string_bytes out.old ++ pid_text pid ++ did.now ++ word.now) }
{
    out.push_str("p")?;
    push_small(out, pid as u64)?;
    out.push_str(did)?;
    out.push_str(word)
}
