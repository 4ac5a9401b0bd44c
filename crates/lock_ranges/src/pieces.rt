ghost use Rattle.std.specs.Prelude.{◌≡◌, IfOk, OnOk};
ghost use Rattle.kabi_types.specs.Ranges.{added, before, behind, joined, set};

use kabi_types::Memory;
use kabi_types::ranges::{Kind, Range};
use std::alloc::Global;

/// Some ranges once the places from the start to the last one are held with a kind, or let go.
pub(crate) fn after_setting(
    alloc: Global,
    ranges: &[Range],
    kind: Option<Kind>,
    start: u64,
    last: u64,
) -> Result<Vec<Range>, Memory>
    ensures { IfOk result (λ after. after.items ≡ set ranges.now kind start last) }
{
    let mut after = before(alloc, ranges, start)?;
    if let Some(kind) = kind {
        add(&mut after, Range { kind, start, last })?;
    }
    add_behind(&mut after, ranges, last)?;
    Ok(after)
}

/// What of some ranges lies before a place.
fn before(alloc: Global, ranges: &[Range], start: u64) -> Result<Vec<Range>, Memory>
    ensures { IfOk result (λ pieces. pieces.items ≡ before start ranges.now) }
{
    let mut pieces = Vec::new(alloc);
    for range in ranges {
        if range.start < start {
            pieces.push(Range {
                last: range.last.min(start - 1),
                ..*range
            })?;
        }
    }
    Ok(pieces)
}

/// Puts what of other ranges lies behind a place behind these, one after the other.
fn add_behind(ranges: &mut Vec<Range>, others: &[Range], last: u64) -> Result<(), Memory>
    ensures { OnOk result (ranges.new.items ≡ joined ranges.old.items (behind last others.now)) }
{
    for other in others {
        if last < other.last {
            let start = other.start.max(last + 1);
            add(ranges, Range { start, ..*other })?;
        }
    }
    Ok(())
}

/// Puts one more range behind others. Where it touches the last of them, and is of its kind, this one grows instead.
fn add(ranges: &mut Vec<Range>, new: Range) -> Result<(), Memory>
    ensures { OnOk result (ranges.new.items ≡ added ranges.old.items new) }
{
    match ranges.last_mut() {
        Some(end) if end.touches(&new) => end.last = new.last,
        Some(_) => ranges.push(new)?,
        None => ranges.push(new)?,
    }
    Ok(())
}
