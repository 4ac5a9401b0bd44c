ghost use Rattle.std.specs.Prelude.{◌≡◌};
ghost use Rattle.claim_lines.specs.Words.{first_word, is_gap, more_by, number_after, pid_named, rest_of};

// Where a word ends.
fn ends_word(byte: u8) -> bool
    ensures { result ≡ is_gap byte }
{
    byte == b' ' || byte == b'\n'
}

/// The bytes before the first blank or newline, and those behind it; all and none, where there is none.
pub(crate) fn cut(bytes: &[u8]) -> (&[u8], &[u8])
    ensures word { result.0.now ≡ first_word bytes.now }
    ensures rest { result.1.now ≡ rest_of bytes.now }
{
    for (at, byte) in bytes.iter().enumerate() {
        if ends_word(*byte) {
            return (&bytes[..at], &bytes[at + 1..]);
        }
    }
    (bytes, &bytes[bytes.len()..])
}

// The number that digits write; None where one of them is no digit, and from 2 to the power of 32 on.
fn number(digits: &[u8]) -> Option<u32>
    ensures { result ≡ number_after 0 digits.now }
{
    let mut n = 0u32;
    for digit in digits {
        n = with_digit(n, *digit)?;
    }
    Some(n)
}

// The number with one digit more.
fn with_digit(n: u32, digit: u8) -> Option<u32>
    ensures { result ≡ more_by n digit }
{
    if !digit.is_ascii_digit() {
        return None;
    }
    n.checked_mul(10)?.checked_add(u32::from(digit - b'0'))
}

/// The pid that a word names, behind its letter.
pub(crate) fn pid_in(word: &[u8]) -> Option<u32>
    ensures { result ≡ pid_named word.now }
{
    if word.len() < 2 || word[0] != b'p' {
        return None;
    }
    number(&word[1..])
}
