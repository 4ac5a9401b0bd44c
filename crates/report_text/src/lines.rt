ghost use Rattle.std.specs.Prelude.{◌≡◌, ◌+◌, ◌^◌, ◌<◌, ◌++◌, length, IfOk, OnOk, string_bytes};
ghost use Rattle.posix_defs.specs.Lines.{event_line, event_lines, entry_line, end_text, end_line, end_line_threads};

use crate::fields::{push_field, push_number};
use crate::words::{push_entry, push_plain};
use kabi_types::{End, Entry, Memory, Noted};
use std::alloc::{AllocError, Global};

/// The line of an event of `sim`, the `j`-th from 1. `Memory` comes where the host has no memory left.
pub fn event_line(alloc: Global, j: u32, noted: &Noted) -> Result<String, Memory>
    ensures { IfOk result (λ text. string_bytes text ≡ event_line j noted.now) }
{
    let mut text = String::new(alloc);
    push_event(&mut text, j, noted)?;
    Ok(text)
}

/// The line of an entry of a history, the `j`-th from 1, as `threads` writes it. `Memory` comes where the host has no
/// memory left.
pub fn entry_line(alloc: Global, j: u32, entry: &Entry) -> Result<String, Memory>
    ensures { IfOk result (λ text. string_bytes text ≡ entry_line j entry.now) }
{
    let mut text = String::new(alloc);
    push_entry_line(&mut text, j, entry)?;
    Ok(text)
}

/// The end line of `sim`: how the run ended, after how many events, what is charged at the end and what was charged at
/// most, in bytes, and the blocks read. `Memory` comes where the host has no memory left.
pub fn end_line_sim(
    alloc: Global,
    end: &End,
    events: u32,
    charged: u64,
    peak: u64,
    reads: u64,
) -> Result<String, Memory>
    ensures { IfOk result (λ text. string_bytes text ≡ end_line end.now events charged peak reads) }
{
    let mut text = String::new(alloc);
    push_end_sim(&mut text, end, events, charged, peak, reads)?;
    Ok(text)
}

/// The end line of `threads`: how the run ended, after how many entries, what is charged at the end, in bytes, and the
/// blocks read. `Memory` comes where the host has no memory left.
pub fn end_line_threads(
    alloc: Global,
    end: &End,
    entries: u32,
    charged: u64,
    reads: u64,
) -> Result<String, Memory>
    ensures { IfOk result (λ text. string_bytes text ≡ end_line_threads end.now entries charged reads) }
{
    let mut text = String::new(alloc);
    push_end_threads(&mut text, end, entries, charged, reads)?;
    Ok(text)
}

/// Adds the lines of a run, numbered from 1. Where memory is wanting, a part of them may have been added.
#[tactic(auto, using(std::proofs::Common::append_assoc, crate::proofs::EventLines::event_lines_take_more))]
pub fn push_events(out: &mut String, run: &[Noted]) -> Result<(), AllocError>
    requires { length run.now < 2 ^ 32 }
    ensures { OnOk result (string_bytes out.new ≡ string_bytes out.old ++ event_lines 1 run.now) }
{
    for (index, noted) in run.iter().enumerate() {
        push_event(out, index as u32 + 1, noted)?;
    }
    Ok(())
}

/// Adds the line of an event, the `j`-th from 1. Where memory is wanting, a part of it may have been added.
pub fn push_event(out: &mut String, j: u32, noted: &Noted) -> Result<(), AllocError>
    ensures { OnOk result (string_bytes out.new ≡ string_bytes out.old ++ event_line j noted.now) }
{
    push_number(out, j)?;
    out.push_str(" ")?;
    match &noted.entry {
        Some(entry) => push_entry(out, entry)?,
        None => push_plain(out, noted)?,
    }
    push_field(out, " charged ", noted.charged)?;
    out.push_str("\n")
}

/// Adds the line of an entry, the `j`-th from 1. Where memory is wanting, a part of it may have been added.
pub fn push_entry_line(out: &mut String, j: u32, entry: &Entry) -> Result<(), AllocError>
    ensures { OnOk result (string_bytes out.new ≡ string_bytes out.old ++ entry_line j entry.now) }
{
    push_number(out, j)?;
    out.push_str(" ")?;
    push_entry(out, entry)?;
    out.push_str("\n")
}

/// Adds the end line of a run of `sim`. Where memory is wanting, a part of it may have been added.
pub fn push_end_sim(
    out: &mut String,
    end: &End,
    events: u32,
    charged: u64,
    peak: u64,
    reads: u64,
) -> Result<(), AllocError>
    ensures { OnOk result (string_bytes out.new ≡
        string_bytes out.old ++ end_line end.now events charged peak reads) }
{
    out.push_str("end ")?;
    push_end_word(out, end)?;
    write!(
        out,
        " events {events} charged {charged} peak {peak} reads {reads}\n"
    )
}

/// Adds the end line of a run of `threads`. Where memory is wanting, a part of it may have been added.
pub fn push_end_threads(
    out: &mut String,
    end: &End,
    entries: u32,
    charged: u64,
    reads: u64,
) -> Result<(), AllocError>
    ensures { OnOk result (string_bytes out.new ≡
        string_bytes out.old ++ end_line_threads end.now entries charged reads) }
{
    out.push_str("end ")?;
    push_end_word(out, end)?;
    write!(out, " entries {entries} charged {charged} reads {reads}\n")
}

/// Adds how a run ended, in the words of an end line. Where memory is wanting, a part of them may have been added.
pub fn push_end_word(out: &mut String, end: &End) -> Result<(), AllocError>
    ensures { OnOk result (string_bytes out.new ≡ string_bytes out.old ++ end_text end.now) }
{
    match end {
        End::Finished => out.push_str("finished"),
        End::Starved { pid, need } => write!(out, "starved p{pid} need {need}"),
        End::AllAsleep => out.push_str("asleep"),
        End::Spent => out.push_str("spent"),
    }
}
