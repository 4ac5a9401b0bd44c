//! What stands before the first section of a text of groups.

ghost use Rattle.std.specs.Prelude.{◌≡◌, ◌≤◌, MatchOption, length};
ghost use Rattle.group_heap.specs.Fronts.{BeginsFirst, BeginsNone, LeadsTo};
ghost use Rattle.group_heap.specs.Outcomes.{Outcome, SaysAt, SaysBy};
ghost use Rattle.group_heap.specs.Texts.{front_said};
ghost use Rattle.posix_defs.specs.ScriptLines.{natural, only};
ghost use Rattle.script_words.specs.Telling.{Tells};

use crate::faults::{GroupFault, at_line};
use crate::lines::{begins_section, cut_line};
use kabi_types::{FaultKind, ScriptFault};
use posix_defs::Word;
use script_words::{Refused, is_word, line_words, number};
use std::alloc::Global;

/// The bytes of the whole, from 8192 to 8388608.
fn whole_said(words: &[Word]) -> Result<u64, FaultKind>
    ensures { result ≡ only (natural 8192 8388608) words.now }
{
    match words {
        [word] => Ok(number(8192, 8388608, word)?.unsigned_abs()),
        _ => Err(FaultKind::UnknownWord),
    }
}

/// What the words of a line before the first section say, where the whole is known or not.
fn front_said(whole: Option<u64>, words: &[Word]) -> Result<Option<u64>, FaultKind>
    ensures { result ≡ front_said whole words.now }
{
    let Some((first, rest)) = words.split_first() else {
        return Ok(whole);
    };
    if whole.is_none() && is_word(first, "whole") {
        return Ok(Some(whole_said(rest)?));
    }
    Err(FaultKind::UnknownWord)
}

/// The whole behind a line before the first section.
fn whole_behind(alloc: Global, whole: Option<u64>, line: &[u8]) -> Result<Option<u64>, Refused>
    ensures { Tells (λ next. next) result (SaysBy (front_said whole) line.now) }
{
    let words = line_words(alloc, line)?;
    Ok(front_said(whole, words.as_slice())?)
}

/// The same of a line that has this number.
fn whole_at(
    alloc: Global,
    whole: Option<u64>,
    line: u32,
    text: &[u8],
) -> Result<Option<u64>, GroupFault>
    ensures { Outcome (λ next. next) result (SaysAt (front_said whole) line text.now) }
{
    match whole_behind(alloc, whole, text) {
        Ok(next) => Ok(next),
        Err(refused) => Err(at_line(line, refused)),
    }
}

/// The whole, where it is known and the first section begins with this line.
fn whole_before(whole: Option<u64>, line: &[u8]) -> Option<u64>
    ensures { MatchOption result (BeginsNone whole line.now) (BeginsFirst whole line.now) }
{
    let whole = whole?;
    if begins_section(line) {
        Some(whole)
    } else {
        None
    }
}

/// The whole, in bytes, and what is left of the text from the first section on, with the number of its first line.
pub fn read_front(alloc: Global, text: &[u8]) -> Result<(u64, u32, &[u8]), GroupFault>
    requires { length text.now ≤ 1048576 }
    ensures { LeadsTo text.now result }
{
    let mut whole = None;
    let mut line = 1;
    let mut rest = text;
    loop {
        let (first, next) = cut_line(rest);
        if let Some(bytes) = whole_before(whole, first) {
            return Ok((bytes, line, rest));
        }
        whole = whole_at(alloc, whole, line, first)?;
        let Some(next) = next else {
            return Err(GroupFault::Bad(ScriptFault {
                line: 0,
                what: FaultKind::NoInit,
            }));
        };
        line += 1;
        rest = next;
    }
}
