//! The report of groups.

ghost use Rattle.std.specs.Prelude.{◌≡◌, ◌++◌, ℕ, IfOk, OnOk, count_by, string_bytes};
ghost use Rattle.std.specs.List.{AllByRecursion};
ghost use Rattle.group_heap.specs.Reports.{IsGroupReport, all_lines, end_line_groups, told_lines};
ghost use Rattle.group_heap.specs.Reports as spec;
ghost use Rattle.group_heap.specs.Runs.{IsDone, sections_of};
ghost use Rattle.group_heap.specs.Telling.{told_each, told_of};

use crate::groups::{Group, GroupEnd};
use kabi_types::{Memory, Text};
use posix_defs::Turner;
use std::alloc::{AllocError, Global};

/// What stands behind a group's name in its line.
fn line_end(alloc: Global, refused: bool, heap: u64) -> Result<String, AllocError>
    ensures { IfOk result (λ text. string_bytes text ≡ spec.line_end refused heap) }
{
    let mut text = String::new(alloc);
    if refused {
        write!(&mut text, " refused heap {heap}\n")?;
    } else {
        write!(&mut text, " heap {heap}\n")?;
    }
    Ok(text)
}

/// The end line.
fn end_line(alloc: Global, groups: usize, refused: usize) -> Result<String, AllocError>
    ensures { IfOk result (λ text. string_bytes text ≡ end_line_groups groups refused) }
{
    let mut text = String::new(alloc);
    write!(&mut text, "end groups {groups} refused {refused}\n")?;
    Ok(text)
}

/// Whether a group was refused.
fn is_refused<T: Turner + Drop>(group: &Group<T>) -> bool
    ensures { result ≡ spec.is_refused (told_of group.now) }
{
    matches!(group.outcome, GroupEnd::Refused { .. })
}

/// Adds what is told of a group. Where memory is wanting, a part of it may have been added.
#[tactic(auto, using(std::proofs::Common::append_assoc))]
fn push_group<T: Turner + Drop>(
    alloc: Global,
    out: &mut Vec<u8>,
    group: &Group<T>,
) -> Result<(), AllocError>
    ensures { OnOk result (out.new.items ≡ out.old.items ++ told_lines (told_of group.now)) }
{
    let refused = is_refused(group);
    let line = line_end(alloc, refused, group.script.heap)?;
    out.extend_from_slice(b"group ")?;
    out.extend_from_slice(group.name.items())?;
    out.extend_from_slice(line.as_bytes())?;
    if !refused {
        out.extend_from_slice(group.text.items())?;
    }
    Ok(())
}

/// Adds what is told of each group. Where memory is wanting, a part of it may have been added.
#[tactic(auto, using(std::proofs::Common::append_assoc, crate::proofs::Telling::told_take_more))]
fn push_groups<T: Turner + Drop>(
    alloc: Global,
    out: &mut Vec<u8>,
    groups: &[Group<T>],
) -> Result<(), AllocError>
    ensures { OnOk result (out.new.items ≡ out.old.items ++ all_lines (told_each groups.now)) }
{
    for group in groups {
        push_group(alloc, out, group)?;
    }
    Ok(())
}

/// How many groups were refused.
fn refused_in<T: Turner + Drop>(groups: &[Group<T>]) -> usize
    ensures { result ≡ count_by (λ group. spec.is_refused (told_of group)) groups.now }
{
    let mut refused = 0;
    for group in groups {
        if is_refused(group) {
            refused += 1;
        }
    }
    refused
}

/// The report of groups: for each a line with its name and heap, in bytes, and behind that the report of its run, where it wasn't
/// refused; last how many groups there are, and how many were refused. An error is want of memory.
pub fn report_groups<T: Turner + Drop>(alloc: Global, groups: &[Group<T>]) -> Result<Text, Memory>
    ensures text { IfOk result (λ text. text ≡ spec.report_groups (told_each groups.now)) }
    ensures report { IfOk result (λ text. (whole : ℕ) → AllByRecursion (IsDone T.stands T.marks T.high whole) groups.now
        → IsGroupReport T.stands T.marks T.high whole (sections_of groups.now) text) }
{
    let mut out = Vec::new(alloc);
    push_groups(alloc, &mut out, groups)?;
    let line = end_line(alloc, groups.len(), refused_in(groups))?;
    out.extend_from_slice(line.as_bytes())?;
    Ok(Text::from_vec(out))
}
