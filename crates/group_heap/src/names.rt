//! What the first line of a section says.

ghost use Rattle.std.specs.Prelude.{◌≡◌, ◌<◌, IfOk, length};
ghost use Rattle.group_heap.specs.Outcomes.{Outcome, SaysAt, SaysBy};
ghost use Rattle.group_heap.specs.Texts as spec;
ghost use Rattle.group_heap.specs.Texts.{has_section, section_said};
ghost use Rattle.script_words.specs.Telling.{Tells};

use crate::faults::{GroupFault, at_line};
use crate::lists::Section;
use kabi_types::{FaultKind, Name27};
use posix_defs::Word;
use script_words::{Refused, line_words, only_name};
use std::alloc::Global;

/// The most groups that a text may have.
const MOST_GROUPS: usize = 8;

/// Whether one of these sections has this name.
fn has_section(sections: &[Section], name: &[u8]) -> bool
    ensures { result ≡ has_section name.now sections.now }
{
    sections.iter().any(|section| section.name.items() == name)
}

/// The name that stands alone behind the first word of a line.
fn name_said(words: &[Word]) -> Result<Name27, FaultKind>
    ensures { result ≡ spec.name_said words.now }
{
    match words.split_first() {
        Some((_, rest)) => only_name(rest),
        None => Err(FaultKind::UnknownWord),
    }
}

/// The name of a section behind these, or the least fault that its line has.
fn section_said(before: &[Section], words: &[Word]) -> Result<Name27, FaultKind>
    ensures said { result ≡ section_said before.now words.now }
    ensures few { IfOk result (λ _. length before.now < 8) }
{
    let name = name_said(words)?;
    if before.len() >= MOST_GROUPS {
        Err(FaultKind::OutOfRange)
    } else if has_section(before, name.items()) {
        Err(FaultKind::TwiceDefined)
    } else {
        Ok(name)
    }
}

/// The name of a section behind these, by its first line.
fn name_in(alloc: Global, before: &[Section], line: &[u8]) -> Result<Name27, Refused>
    ensures says { Tells (λ name. name) result (SaysBy (section_said before.now) line.now) }
    ensures few { IfOk result (λ _. length before.now < 8) }
{
    let words = line_words(alloc, line)?;
    Ok(section_said(before, words.as_slice())?)
}

/// The name of a section behind these, by its first line, which has this number.
pub fn name_at(
    alloc: Global,
    before: &[Section],
    line: u32,
    text: &[u8],
) -> Result<Name27, GroupFault>
    ensures says { Outcome (λ name. name) result (SaysAt (section_said before.now) line text.now) }
    ensures few { IfOk result (λ _. length before.now < 8) }
{
    match name_in(alloc, before, text) {
        Ok(name) => Ok(name),
        Err(refused) => Err(at_line(line, refused)),
    }
}
