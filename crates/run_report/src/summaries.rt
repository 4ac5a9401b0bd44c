//! The summary of a run of a generated script.

ghost use Rattle.std.specs.Prelude.{◌≡◌, ◌^◌, ◌<◌, IfOk, count_by, length, string_bytes};
ghost use Rattle.kabi_types.specs.declared.entries.End.{End};
ghost use Rattle.kern_core.specs.RunOver.{HasEndedOver};
ghost use Rattle.kern_tasks.specs.View.{HasBooted};
ghost use Rattle.posix_defs.specs.ValidScript.{IsValid};
ghost use Rattle.run_report.specs.Summaries.{IsSummary, answers, fails, summary_line};

use crate::runs::Reported;
use kabi_types::{End, Entry, Memory, Noted, Reply, Script};
use kern_core::{Core, run_to_end};
use posix_defs::Turner;
use report_text::push_end_word;
use std::alloc::{AllocError, Global};

/// Runs a core at boot to the end of the generated script of so many rounds, each event as the script's chooser picks it, and sums the
/// run up. The core is at its end also where the host has no memory for the summary.
pub fn sum_up_core<T: Turner + Drop>(
    alloc: Global,
    core: &mut Core<T>,
    script: &Script,
    rounds: u32,
) -> Result<Reported, Memory>
    requires valid { IsValid script.now }
    requires booted { HasBooted T.stands (T.script core.old.store) core.old }
    requires script { script.now ≡ T.script core.old.store }
    requires steps { core.old.steps ≡ script.now.steps }
    ensures script { T.script core.new.store ≡ script.now }
    ensures ended { (end : End) × HasEndedOver T.stands T.marks T.high script.now core.new end }
    ensures summed { IfOk result (λ it. IsSummary T.stands T.marks T.high script.now core.new.store it.end rounds (string_bytes it.text)) }
{
    let end = run_to_end(core, &script.chooser);
    let text = summary(alloc, rounds, core.run(), end)?;
    Ok(Reported { end, text })
}

/// The line that sums up a run of so many rounds that ended so. An error is want of memory.
fn summary(alloc: Global, rounds: u32, run: &[Noted], end: End) -> Result<String, AllocError>
    requires { length run.now < 2 ^ 32 }
    ensures { IfOk result (λ text. string_bytes text ≡ summary_line rounds run.now end) }
{
    let calls = answered_in(run);
    let failed = failed_in(run);
    let mut text = String::new(alloc);
    write!(
        &mut text,
        "load {rounds} calls {calls} failed {failed} end "
    )?;
    push_end_word(&mut text, &end)?;
    text.push('\n')?;
    Ok(text)
}

/// How many calls were answered.
fn answered_in(run: &[Noted]) -> u32
    requires { length run.now < 2 ^ 32 }
    ensures { result ≡ count_by (λ noted. answers noted.entry) run.now }
{
    let mut calls = 0;
    for noted in run {
        if is_answer(noted) {
            calls += 1;
        }
    }
    calls
}

/// Whether an event answered a call.
fn is_answer(noted: &Noted) -> bool
    ensures { result ≡ answers noted.now.entry }
{
    matches!(&noted.entry, Some(Entry::Done { .. }))
}

/// How many calls were answered by an errno.
fn failed_in(run: &[Noted]) -> u32
    requires { length run.now < 2 ^ 32 }
    ensures { result ≡ count_by (λ noted. fails noted.entry) run.now }
{
    let mut failed = 0;
    for noted in run {
        if has_failed(noted) {
            failed += 1;
        }
    }
    failed
}

/// Whether an event answered a call by an errno.
fn has_failed(noted: &Noted) -> bool
    ensures { result ≡ fails noted.now.entry }
{
    match &noted.entry {
        Some(Entry::Done { reply, .. }) => matches!(reply, Reply::Fail(_)),
        _ => false,
    }
}
