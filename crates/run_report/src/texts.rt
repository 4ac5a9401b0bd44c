ghost use Rattle.std.specs.Prelude.{◌≡◌, ◌^◌, ◌<◌, ◌++◌, length, IfOk, OnOk, string_bytes};
ghost use Rattle.posix_defs.specs.Lines.{event_lines, end_line};
ghost use Rattle.run_report.specs.Histories.{entry_lines, report_threads};

use kabi_types::{End, Entry, Noted};
use report_text::{push_end_sim, push_end_threads, push_entry_line, push_events};
use std::alloc::{AllocError, Global};

/// The report of a run that ended so: a line for each of its events, numbered from 1, and the end line, which tells
/// what is charged at the end, the most that ever was, and the blocks read. An error is want of memory.
pub fn report(
    alloc: Global,
    run: &[Noted],
    end: End,
    charged: u64,
    peak: u64,
    reads: u64,
) -> Result<String, AllocError>
    requires { length run.now < 2 ^ 32 }
    ensures { IfOk result (λ text. string_bytes text ≡
        event_lines 1 run.now ++ end_line end (length run.now) charged peak reads) }
{
    let mut text = String::new(alloc);
    push_events(&mut text, run)?;
    push_end_sim(&mut text, &end, run.len() as u32, charged, peak, reads)?;
    Ok(text)
}

/// The report of a history of threads that ended so: a line for each of its entries, numbered from 1, and the end line, which
/// tells what is charged at the end, and the blocks read. An error is want of memory.
pub fn report_history(
    alloc: Global,
    entries: &[Entry],
    end: End,
    charged: u64,
    reads: u64,
) -> Result<String, AllocError>
    requires { length entries.now < 2 ^ 32 }
    ensures { IfOk result (λ text. string_bytes text ≡ report_threads entries.now end charged reads) }
{
    let mut text = String::new(alloc);
    push_entries(&mut text, entries)?;
    push_end_threads(&mut text, &end, entries.len() as u32, charged, reads)?;
    Ok(text)
}

/// Adds the lines of a history, numbered from 1. Where memory is wanting, a part of them may have been added.
#[tactic(auto, using(std::proofs::Common::append_assoc, crate::proofs::EntryLines::entry_lines_take_more))]
fn push_entries(out: &mut String, entries: &[Entry]) -> Result<(), AllocError>
    requires { length entries.now < 2 ^ 32 }
    ensures { OnOk result (string_bytes out.new ≡ string_bytes out.old ++ entry_lines 1 entries.now) }
{
    for (index, entry) in entries.iter().enumerate() {
        push_entry_line(out, index as u32 + 1, entry)?;
    }
    Ok(())
}
