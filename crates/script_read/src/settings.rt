//! What a line outside programs says.

ghost use Rattle.std.specs.Prelude.{◌≡◌};
ghost use Rattle.script_words.specs.Telling.{Tells};
ghost use Rattle.posix_defs.specs.ScriptLines as spec;
ghost use Rattle.posix_defs.specs.ScriptValues.{each};
ghost use Rattle.posix_defs.specs.ScriptValues as values;

use crate::{AtTop, Refused, Setting, Word};
use kabi_types::{Chooser, FaultKind, Numbers, Policy};
use script_words::{is_word, number, only_name, with_least};
use std::alloc::Global;

/// A number without a sign, from `low` to `high`.
fn natural(low: u32, high: u32, word: &Word) -> Result<u32, FaultKind>
    ensures { result ≡ spec.natural low high word.now }
{
    let number = number(i64::from(low), i64::from(high), word)?;
    Ok(number.unsigned_abs() as u32)
}

/// The one number of a setting, from `low` to `high`.
fn one_number(low: u32, high: u32, words: &[Word]) -> Result<u32, Refused>
    ensures { Tells (λ said. said) result (λ said. said ≡ spec.only (spec.natural low high) words.now) }
{
    match words {
        [word] => Ok(natural(low, high, word)?),
        _ => Err(Refused::Fault(FaultKind::UnknownWord)),
    }
}

fn policy_said(words: &[Word]) -> Result<Policy, Refused>
    ensures { Tells (λ said. said) result (λ said. said ≡ spec.only spec.policy_said words.now) }
{
    match words {
        [word] if is_word(word, "heaviest") => Ok(Policy::Heaviest),
        [word] if is_word(word, "youngest") => Ok(Policy::Youngest),
        _ => Err(Refused::Fault(FaultKind::UnknownWord)),
    }
}

/// The numbers of words, or the least of their faults.
fn numbers_of(alloc: Global, words: &[Word]) -> Result<Vec<u32>, Refused>
    ensures { Tells (λ said. said.items) result (λ said. said ≡ each (spec.natural 0 4294967295) words.now) }
{
    let mut said = Vec::new(alloc);
    let mut fault = None;
    let mut rest = words;
    while let Some((word, next)) = rest.split_first() {
        match natural(0, 4294967295, word) {
            Ok(number) => said.push(number)?,
            Err(kind) => fault = Some(with_least(fault, kind)),
        }
        rest = next;
    }
    match fault {
        None => Ok(said),
        Some(kind) => Err(Refused::Fault(kind)),
    }
}

/// Up to 1000 choices, and one at least.
fn choices_said(alloc: Global, words: &[Word]) -> Result<Numbers, Refused>
    ensures { Tells (λ said. said) result (λ said. said ≡ spec.choices_said words.now) }
{
    if words.is_empty() {
        return Err(Refused::Fault(FaultKind::UnknownWord));
    }
    let numbers = numbers_of(alloc, words)?;
    if numbers.len() <= 1000 {
        Ok(Numbers::from_vec(numbers))
    } else {
        Err(Refused::Fault(FaultKind::OutOfRange))
    }
}

fn top_said(alloc: Global, first: &Word, rest: &[Word]) -> Result<AtTop, Refused>
    ensures { Tells (λ said. said) result (λ said. said ≡ spec.top_said first.now rest.now) }
{
    if is_word(first, "heap") {
        let bytes = one_number(8192, 8388608, rest)?;
        return Ok(AtTop::Sets(Setting::Heap(u64::from(bytes))));
    }
    if is_word(first, "disk") {
        let blocks = one_number(16, 4096, rest)?;
        return Ok(AtTop::Sets(Setting::Disk(blocks)));
    }
    if is_word(first, "steps") {
        let events = one_number(1, 100000, rest)?;
        return Ok(AtTop::Sets(Setting::Steps(events)));
    }
    if is_word(first, "policy") {
        let policy = policy_said(rest)?;
        return Ok(AtTop::Sets(Setting::Victims(policy)));
    }
    if is_word(first, "choices") {
        let numbers = choices_said(alloc, rest)?;
        return Ok(AtTop::Sets(Setting::Choosing(Chooser::Choices(numbers))));
    }
    if is_word(first, "seed") {
        let seed = one_number(0, 2147483647, rest)?;
        return Ok(AtTop::Sets(Setting::Choosing(Chooser::Seed(seed))));
    }
    if is_word(first, "program") {
        let name = only_name(rest)?;
        return Ok(AtTop::Begins(name));
    }
    Err(Refused::Fault(FaultKind::UnknownWord))
}

/// What a line outside programs says.
pub fn said_at_top(alloc: Global, words: &[Word]) -> Result<AtTop, Refused>
    ensures { Tells (λ said. said) result (λ said. said ≡ spec.said_at_top words.now) }
{
    match words.split_first() {
        Some((first, rest)) => top_said(alloc, first, rest),
        None => Ok(AtTop::Silent),
    }
}
