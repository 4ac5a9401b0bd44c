//! Reading a text of groups.

ghost use Rattle.std.specs.Prelude.{◌+◌, ◌≤◌, IfOk, length};
ghost use Rattle.std.specs.List.{AllByRecursion};
ghost use Rattle.posix_defs.specs.ValidScript.{IsValid};
ghost use Rattle.group_heap.specs.Lines.{Cuts, bytes_left, lines_left};
ghost use Rattle.group_heap.specs.Outcomes.{Outcome, ReadsBehind};
ghost use Rattle.group_heap.specs.Texts.{ReadsGroups, ReadsSections, lines_of};

use crate::faults::GroupFault;
use crate::fronts::read_front;
use crate::lines::{cut_line, cut_section};
use crate::lists::{GroupList, Section};
use crate::names::name_at;
use kabi_types::{FaultKind, Script, ScriptFault};
use script_parse::{ParseError, parse};
use std::alloc::Global;

/// The most bytes that a text of groups may have.
const MOST_BYTES: usize = 1048576;

/// The script that stands behind this line.
fn script_behind(alloc: Global, line: u32, text: &[u8]) -> Result<Script, GroupFault>
    requires { line + length text.now ≤ 1048577 }
    ensures { Outcome (λ script. script) result (ReadsBehind line text.now) }
{
    match parse(alloc, text) {
        Ok(script) => Ok(script),
        Err(ParseError::Bad(fault)) => Err(GroupFault::Bad(ScriptFault {
            line: line + fault.line,
            what: fault.what,
        })),
        Err(ParseError::Memory) => Err(GroupFault::Memory),
    }
}

/// What stands behind the first line of a section, as `cut_section` tells it.
fn section_behind(text: Option<&[u8]>) -> (&[u8], u32, Option<&[u8]>)
    requires { bytes_left text ≤ 1048577 }
    ensures cut { Cuts (lines_left text.entry) result.0.now result.1 (lines_left result.2) }
    ensures short { length result.0.now ≤ bytes_left text.entry }
    ensures size { result.1 + bytes_left result.2 ≤ bytes_left text.entry }
{
    match text {
        Some(text) => cut_section(text),
        None => (&[], 0, None),
    }
}

/// Reads the sections of a text behind those that are there, from its first line on, which has this number and begins one.
fn read_sections(
    alloc: Global,
    sections: &mut Vec<Section>,
    line: u32,
    text: &[u8],
) -> Result<(), GroupFault>
    requires size { line + length text.now ≤ 1048577 }
    requires few { length sections.old.items ≤ 8 }
    ensures reads { Outcome (λ _. sections.new.items) result (ReadsSections sections.old.items line (lines_of text.now)) }
    ensures few { length sections.new.items ≤ 8 }
{
    let mut number = line;
    let mut rest = text;
    loop {
        let (first, next) = cut_line(rest);
        let name = name_at(alloc, sections.as_slice(), number, first)?;
        let (body, lines, after) = section_behind(next);
        let script = script_behind(alloc, number, body)?;
        sections.push(Section { name, script })?;
        let Some(after) = after else {
            return Ok(());
        };
        number += 1 + lines;
        rest = after;
    }
}

/// The groups of a text. `Bad` is the first line at fault of the whole text, and on it the fault that is told before its others: a
/// section without `init` is at fault at its first line, where it has no other fault; line 0 tells that there is no section, or that
/// the text is longer than 1048576 bytes. `Memory` comes where the host has no memory left.
pub fn split_groups(alloc: Global, text: &[u8]) -> Result<GroupList, GroupFault>
    ensures reads { Outcome (λ list. list) result (ReadsGroups text.now) }
    ensures whole { IfOk result (λ list. (8192 ≤ list.whole) × (list.whole ≤ 8388608)) }
    ensures valid { IfOk result (λ list. AllByRecursion (λ section. IsValid section.script) list.sections) }
{
    if text.len() > MOST_BYTES {
        return Err(GroupFault::Bad(ScriptFault {
            line: 0,
            what: FaultKind::TooLong,
        }));
    }
    let (whole, line, rest) = read_front(alloc, text)?;
    let mut sections = Vec::new(alloc);
    read_sections(alloc, &mut sections, line, rest)?;
    Ok(GroupList { whole, sections })
}
