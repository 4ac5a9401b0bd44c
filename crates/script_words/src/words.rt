//! The words of a line.

ghost use Rattle.std.specs.Prelude.{◌≡◌, ◌==◌, MatchOption, ◌≢◌, ◌∷◌, ◌++◌, ◌<◌, true, false, length, option_map, IfOk, IfSome, ◌≤◌};
ghost use Rattle.std.specs.Bool.{MatchBool};
ghost use Rattle.std.specs.List.{All};
ghost use Rattle.std.specs.Str.{IsUtf8};
ghost use Rattle.script_words.specs.Telling.{IsShorter, BeginsWith, Tells};
ghost use Rattle.posix_defs.specs.ScriptWords as spec;
ghost use Rattle.posix_defs.specs.ScriptWords.{SaysText, Words, LineWords};

use crate::{Refused, Word};
use kabi_types::{FaultKind, Memory, Text};
use std::alloc::Global;

/// A space, a tab, a carriage return.
fn is_blank(byte: u8) -> bool
    ensures { result ≡ spec.is_blank byte }
{
    byte == b' ' || byte == b'\t' || byte == b'\r'
}

/// Whether a byte is one of these.
pub fn is_within(least: u8, most: u8, byte: u8) -> bool
    ensures { result ≡ spec.is_within least most byte }
{
    least <= byte && byte <= most
}

/// The value of a hexadecimal digit; None where the byte is none.
fn hex_value(byte: u8) -> Option<u8>
    ensures { result ≡ spec.hex_value byte }
{
    if is_within(b'0', b'9', byte) {
        Some(byte - b'0')
    } else if is_within(b'A', b'F', byte) {
        Some(byte - b'A' + 10)
    } else if is_within(b'a', b'f', byte) {
        Some(byte - b'a' + 10)
    } else {
        None
    }
}

/// The byte of two hexadecimal digits, and what follows them.
fn hex_piece(bytes: &[u8]) -> Option<(Option<u8>, &[u8])>
    ensures { option_map (λ p. (p.0, p.1.now)) result ≡ spec.hex_piece bytes.now }
{
    match bytes {
        [high, low, rest @ ..] => {
            let (high, low) = (hex_value(*high)?, hex_value(*low)?);
            Some((Some(16 * high + low), rest))
        }
        _ => None,
    }
}

/// The byte that an escape stands for, which a backslash begins, and what follows.
fn escape_piece(bytes: &[u8]) -> Option<(Option<u8>, &[u8])>
    ensures { option_map (λ p. (p.0, p.1.now)) result ≡ spec.escape_piece bytes.now }
{
    let (code, rest) = bytes.split_first()?;
    match *code {
        b'n' => Some((Some(b'\n'), rest)),
        b'\\' | b'"' => Some((Some(*code), rest)),
        b'x' => hex_piece(rest),
        _ => None,
    }
}

/// What stands first behind an opening quote, and what follows: a byte of the text, or none, which is its closing quote;
/// None where the text is broken.
fn piece(bytes: &[u8]) -> Option<(Option<u8>, &[u8])>
    ensures first { option_map (λ p. (p.0, p.1.now)) result ≡ spec.piece bytes.now }
    ensures shorter { IsShorter bytes.now result }
{
    let (byte, rest) = bytes.split_first()?;
    match *byte {
        b'"' => Some((None, rest)),
        b'\\' => escape_piece(rest),
        _ => Some((Some(*byte), rest)),
    }
}

/// The text behind an opening quote, and what follows its closing quote; None where it isn't closed or an escape is none.
fn text_of(alloc: Global, bytes: &[u8]) -> Result<Option<(Vec<u8>, &[u8])>, Memory>
    ensures says { IfOk result (λ said. SaysText bytes.now (option_map (λ p. (p.0.items, p.1.now)) said)) }
    ensures shorter { IfOk result (λ said. IfSome said (λ p. length p.1.now ≤ length bytes.now)) }
{
    let mut text = Vec::new(alloc);
    let mut rest = bytes;
    loop {
        match piece(rest) {
            Some((Some(byte), next)) => {
                text.push(byte)?;
                rest = next;
            }
            Some((None, next)) => return Ok(Some((text, next))),
            None => return Ok(None),
        }
    }
}

/// Whether a word that stands before these bytes ends there.
fn ends_word(bytes: &[u8]) -> bool
    ensures { result ≡ spec.ends_word bytes.now }
{
    match bytes {
        [byte, ..] => is_blank(*byte),
        [] => true,
    }
}

/// What stands before the first byte of this value, and what follows that byte; None where none has it.
pub fn cut_at(bytes: &[u8], mark: u8) -> Option<(&[u8], &[u8])>
    ensures { MatchOption result (All (λ byte. (byte == mark) ≡ false) bytes.now) (λ parts. (bytes.now ≡ parts.0.now ++ (mark ∷ parts.1.now)) × All (λ byte. (byte == mark) ≡ false) parts.0.now) }
{
    let at = bytes.iter().position(|byte| *byte == mark)?;
    Some((&bytes[..at], &bytes[at + 1..]))
}

/// What stands before the first blank, and the rest from it on.
fn cut_word(bytes: &[u8]) -> (&[u8], &[u8])
    ensures whole { bytes.now ≡ result.0.now ++ result.1.now }
    ensures plain { All (λ byte. spec.is_blank byte ≡ false) result.0.now }
    ensures ends { spec.ends_word result.1.now ≡ true }
{
    match bytes.iter().position(|byte| is_blank(*byte)) {
        Some(at) => bytes.split_at(at),
        None => (bytes, &[]),
    }
}

/// A text in quotes, of which these bytes stand behind the opening one, and what follows it.
fn quoted_word(alloc: Global, bytes: &[u8]) -> Result<Option<(Word, &[u8])>, Memory>
    ensures { IfOk result (λ found. BeginsWith (34 ∷ bytes.now) found) }
{
    match text_of(alloc, bytes)? {
        Some((text, rest)) => {
            if ends_word(rest) {
                Ok(Some((Word::Quoted(Text::from_vec(text)), rest)))
            } else {
                Ok(None)
            }
        }
        None => Ok(None),
    }
}

/// The word that begins with this byte, and what follows it; None where it is a text that is broken.
fn first_word(alloc: Global, first: u8, next: &[u8]) -> Result<Option<(Word, &[u8])>, Memory>
    requires { spec.is_blank first ≡ false }
    ensures { IfOk result (λ found. BeginsWith (first ∷ next.now) found) }
{
    if first == b'"' {
        return quoted_word(alloc, next);
    }
    let (word, rest) = cut_word(next);
    let mut letters = Vec::new(alloc);
    letters.push(first)?;
    letters.extend_from_slice(word)?;
    Ok(Some((Word::Bare(Text::from_vec(letters)), rest)))
}

/// The words of a line; None where a text in it is broken.
fn words_of(alloc: Global, line: &[u8]) -> Result<Option<Vec<Word>>, Memory>
    ensures { IfOk result (λ said. Words line.now (option_map (λ words. words.items) said)) }
{
    let mut words = Vec::new(alloc);
    let mut rest = line;
    while let Some((first, next)) = rest.split_first() {
        if is_blank(*first) {
            rest = next;
            continue;
        }
        match first_word(alloc, *first, next)? {
            Some((word, after)) => {
                words.push(word)?;
                rest = after;
            }
            None => return Ok(None),
        }
    }
    Ok(Some(words))
}

/// Whether the first byte that is no blank begins a comment.
fn is_comment(line: &[u8]) -> bool
    ensures { result ≡ spec.is_comment line.now }
{
    let mut rest = line;
    while let Some((byte, next)) = rest.split_first() {
        if !is_blank(*byte) {
            return *byte == b'#';
        }
        rest = next;
    }
    false
}

fn is_utf8(line: &[u8]) -> bool
    ensures { MatchBool result (IsUtf8 line.now) (IsUtf8 line.now → ⊥) }
{
    match str::from_utf8(line) {
        Ok(_) => true,
        Err(_) => false,
    }
}

/// The words of a line, none in a comment, or the fault of one that has none.
pub fn line_words(alloc: Global, line: &[u8]) -> Result<Vec<Word>, Refused>
    ensures { Tells (λ words. words.items) result (LineWords line.now) }
{
    if !is_utf8(line) {
        return Err(Refused::Fault(FaultKind::NotUtf8));
    }
    if is_comment(line) {
        return Ok(Vec::new(alloc));
    }
    match words_of(alloc, line)? {
        Some(words) => Ok(words),
        None => Err(Refused::Fault(FaultKind::UnknownWord)),
    }
}
