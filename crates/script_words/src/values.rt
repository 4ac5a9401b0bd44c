//! Registers, numbers, constants, names and texts: what one word says.

ghost use Rattle.std.specs.Prelude.{◌≡◌, ◌==◌, not, map, Ok};
ghost use Rattle.std.specs.List.{list_all};
ghost use Rattle.std.specs.Str.{bytes_eq, all_ascii_digits};
ghost use Rattle.script_words.specs.Telling.{Tells};
ghost use Rattle.posix_defs.specs.ScriptValues as spec;
ghost use Rattle.posix_defs.specs.ScriptValues.{among};
ghost use Rattle.posix_defs.specs.ScriptLines.{only};

use crate::words::{cut_at, is_within};
use crate::{Refused, Word};
use kabi_types::{FaultKind, Name27, Operand, Text};
use std::alloc::Global;

/// The number of a fault: of several on a line the least is told.
fn rank(kind: FaultKind) -> u8
    ensures { result ≡ spec.rank kind }
{
    match kind {
        FaultKind::NotUtf8 => 1,
        FaultKind::UnknownWord => 2,
        FaultKind::BadNumber => 3,
        FaultKind::OutOfRange => 4,
        FaultKind::NoSuchLabel => 5,
        FaultKind::WrongWay => 6,
        FaultKind::TwiceDefined => 7,
        FaultKind::Unended => 8,
        FaultKind::NoInit => 9,
        FaultKind::TooLong => 10,
    }
}

/// The fault of the two that is told.
pub fn least(a: FaultKind, b: FaultKind) -> FaultKind
    ensures { result ≡ spec.least a b }
{
    if rank(a) <= rank(b) { a } else { b }
}

/// Whether the word is this one.
pub fn is_word(word: &Word, text: &str) -> bool
    ensures { result ≡ spec.is_word text.now word.now }
{
    match word {
        Word::Bare(bare) => bare.items() == text.as_bytes(),
        Word::Quoted(_) => false,
    }
}

fn is_digit(byte: u8) -> bool
    ensures { result ≡ spec.is_digit byte }
{
    is_within(b'0', b'9', byte)
}

fn is_letter(byte: u8) -> bool
    ensures { result ≡ spec.is_letter byte }
{
    is_within(b'a', b'z', byte)
}

/// The number of a register; None where the word is none.
fn register_said(word: &[u8]) -> Option<u8>
    ensures { result ≡ spec.register_said word.now }
{
    match word {
        [b'r', ones] if is_digit(*ones) => Some(*ones - b'0'),
        [b'r', b'1', ones] if is_within(b'0', b'5', *ones) => Some(10 + (*ones - b'0')),
        _ => None,
    }
}

/// The register that a word names.
pub fn register(word: &Word) -> Result<u8, FaultKind>
    ensures { result ≡ spec.register word.now }
{
    match word {
        Word::Bare(bare) => match register_said(bare.items()) {
            Some(number) => Ok(number),
            None => Err(FaultKind::UnknownWord),
        },
        Word::Quoted(_) => Err(FaultKind::UnknownWord),
    }
}

/// Whether a word can only be a number.
fn begins_number(word: &[u8]) -> bool
    ensures { result ≡ spec.begins_number word.now }
{
    match word {
        [byte, ..] => is_digit(*byte) || *byte == b'-',
        [] => false,
    }
}

fn all_digits(bytes: &[u8]) -> bool
    ensures { result ≡ all_ascii_digits bytes.now }
{
    let mut rest = bytes;
    while let Some((byte, next)) = rest.split_first() {
        if !byte.is_ascii_digit() {
            return false;
        }
        rest = next;
    }
    true
}

/// Whether there is a digit, and nothing but digits.
fn is_digits(bytes: &[u8]) -> bool
    ensures { result ≡ spec.is_digits bytes.now }
{
    match bytes {
        [byte, rest @ ..] => is_digit(*byte) && all_digits(rest),
        [] => false,
    }
}

/// Whether digits stand there, behind a sign or not.
fn is_decimal(word: &[u8]) -> bool
    ensures { result ≡ spec.is_decimal word.now }
{
    match word {
        [b'-', digits @ ..] => is_digits(digits),
        [_, ..] => is_digits(word),
        [] => false,
    }
}

/// A decimal number of 64 bits.
fn decimal(word: &[u8]) -> Result<i64, FaultKind>
    ensures { result ≡ spec.number_said word.now }
{
    if !begins_number(word) {
        return Err(FaultKind::UnknownWord);
    }
    if !is_decimal(word) {
        return Err(FaultKind::BadNumber);
    }
    match str::from_utf8(word) {
        Ok(digits) => match i64::from_str_radix(digits, 10) {
            Ok(number) => Ok(number),
            Err(_) => Err(FaultKind::OutOfRange),
        },
        Err(_) => Err(FaultKind::BadNumber),
    }
}

/// The number, where it is from `low` to `high`.
fn in_range(low: i64, high: i64, number: i64) -> Result<i64, FaultKind>
    ensures { result ≡ spec.in_range low high number }
{
    if low <= number {
        if number <= high {
            return Ok(number);
        }
    }
    Err(FaultKind::OutOfRange)
}

/// A decimal number from `low` to `high`.
pub fn number(low: i64, high: i64, word: &Word) -> Result<i64, FaultKind>
    ensures { result ≡ spec.number low high word.now }
{
    match word {
        Word::Bare(bare) => in_range(low, high, decimal(bare.items())?),
        Word::Quoted(_) => Err(FaultKind::UnknownWord),
    }
}

fn is(word: &[u8], text: &str) -> bool
    ensures { result ≡ bytes_eq word.now text.now }
{
    word == text.as_bytes()
}

/// The flags of `open`, and their numbers.
const OPEN_CONSTANTS: &[(&str, u32)] = &[
    ("O_RDONLY", 0),
    ("O_WRONLY", 1),
    ("O_RDWR", 2),
    ("O_CREAT", 64),
    ("O_EXCL", 128),
    ("O_TRUNC", 512),
    ("O_APPEND", 1024),
    ("O_NONBLOCK", 2048),
    ("O_CLOEXEC", 524288),
];

/// The constants of `lseek` and `fcntl`, and of the calls on record locks.
const DESCRIPTOR_CONSTANTS: &[(&str, u32)] = &[
    ("SEEK_SET", 0),
    ("SEEK_CUR", 1),
    ("SEEK_END", 2),
    ("F_DUPFD", 0),
    ("F_GETFD", 1),
    ("F_SETFD", 2),
    ("F_GETFL", 3),
    ("F_SETFL", 4),
    ("FD_CLOEXEC", 1),
    ("F_RDLCK", 0),
    ("F_WRLCK", 1),
    ("F_UNLCK", 2),
];

/// The constants of `waitpid`, `kill`, `signal`, `shutdown` and `poll`.
const OTHER_CONSTANTS: &[(&str, u32)] = &[
    ("WNOHANG", 1),
    ("SIGKILL", 9),
    ("SIGPIPE", 13),
    ("SIGTERM", 15),
    ("SIG_DFL", 0),
    ("SIG_IGN", 1),
    ("SHUT_RD", 0),
    ("SHUT_WR", 1),
    ("SHUT_RDWR", 2),
    ("POLLIN", 1),
    ("POLLOUT", 4),
    ("POLLERR", 8),
    ("POLLHUP", 16),
    ("POLLNVAL", 32),
];

/// The number that goes with a word.
fn number_among(entries: &[(&str, u32)], word: &[u8]) -> Option<u32>
    ensures { result ≡ among (map (λ entry. (entry.0.now, entry.1)) entries.now) word.now }
{
    for (name, number) in entries {
        if is(word, name) {
            return Some(*number);
        }
    }
    None
}

/// The number of a constant.
fn constant(word: &[u8]) -> Option<u32>
    ensures { result ≡ spec.constant_said word.now }
{
    if let Some(number) = number_among(OPEN_CONSTANTS, word) {
        return Some(number);
    }
    if let Some(number) = number_among(DESCRIPTOR_CONSTANTS, word) {
        return Some(number);
    }
    number_among(OTHER_CONSTANTS, word)
}

/// Constants that a bar joins, bit by bit.
fn constants(word: &[u8]) -> Option<u32>
    ensures { result ≡ spec.constants_said word.now }
{
    let mut number = 0;
    let mut rest = word;
    while let Some((part, next)) = cut_at(rest, b'|') {
        number |= constant(part)?;
        rest = next;
    }
    Some(number | constant(rest)?)
}

/// A register, a number, or constants.
pub fn value(word: &Word) -> Result<Operand, FaultKind>
    ensures { result ≡ spec.value word.now }
{
    let Word::Bare(bare) = word else {
        return Err(FaultKind::UnknownWord);
    };
    if let Some(register) = register_said(bare.items()) {
        return Ok(Operand::Reg(register));
    }
    if begins_number(bare.items()) {
        return Ok(Operand::Number(decimal(bare.items())?));
    }
    match constants(bare.items()) {
        Some(number) => Ok(Operand::Number(i64::from(number))),
        None => Err(FaultKind::UnknownWord),
    }
}

fn is_name_byte(byte: u8) -> bool
    ensures { result ≡ spec.is_name_byte byte }
{
    is_letter(byte) || is_digit(byte) || byte == b'_'
}

fn all_name_bytes(bytes: &[u8]) -> bool
    ensures { result ≡ list_all spec.is_name_byte bytes.now }
{
    bytes.iter().all(|byte| is_name_byte(*byte))
}

/// Whether the word may name a program or a label.
fn is_name(word: &[u8]) -> bool
    ensures { result ≡ spec.is_name word.now }
{
    match word {
        [first, rest @ ..] => { is_letter(*first) && all_name_bytes(rest) && rest.len() <= 26 }
        [] => false,
    }
}

/// The name of a program or a label.
pub fn name(word: &Word) -> Result<Name27, FaultKind>
    ensures { result ≡ spec.name word.now }
{
    let Word::Bare(bare) = word else {
        return Err(FaultKind::UnknownWord);
    };
    if !is_name(bare.items()) {
        return Err(FaultKind::UnknownWord);
    }
    match Name27::of(bare.items()) {
        Some(name) => Ok(name),
        None => Err(FaultKind::UnknownWord),
    }
}

/// The name that is the only one of these words.
pub fn only_name(words: &[Word]) -> Result<Name27, FaultKind>
    ensures { result ≡ only spec.name words.now }
{
    match words {
        [word] => name(word),
        _ => Err(FaultKind::UnknownWord),
    }
}

fn all_above_zero(bytes: &[u8]) -> bool
    ensures { result ≡ list_all (λ byte. not (byte == 0)) bytes.now }
{
    bytes.iter().all(|byte| *byte != 0)
}

fn is_path(text: &[u8]) -> bool
    ensures { result ≡ spec.is_path text.now }
{
    text.len() <= 255 && all_above_zero(text)
}

/// A path: a text of at most 255 bytes, none of them zero.
pub fn path(alloc: Global, word: &Word) -> Result<Text, Refused>
    ensures { Tells (λ text. text) result (λ said. said ≡ spec.path word.now) }
{
    let Word::Quoted(text) = word else {
        return Err(Refused::Fault(FaultKind::UnknownWord));
    };
    if !is_path(text.items()) {
        return Err(Refused::Fault(FaultKind::OutOfRange));
    }
    copied(alloc, text.items())
}

/// The bytes of a `store`: a text of at most 64 bytes.
pub fn stored(alloc: Global, word: &Word) -> Result<Text, Refused>
    ensures { Tells (λ text. text) result (λ said. said ≡ spec.stored word.now) }
{
    let Word::Quoted(text) = word else {
        return Err(Refused::Fault(FaultKind::UnknownWord));
    };
    if text.items().len() > 64 {
        return Err(Refused::Fault(FaultKind::OutOfRange));
    }
    copied(alloc, text.items())
}

/// A text of these bytes.
fn copied(alloc: Global, bytes: &[u8]) -> Result<Text, Refused>
    ensures { Tells (λ text. text) result (λ said. said ≡ Ok bytes.now) }
{
    let mut copy = Vec::new(alloc);
    copy.extend_from_slice(bytes)?;
    Ok(Text::from_vec(copy))
}
