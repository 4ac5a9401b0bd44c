//! Runs of scripts by workers, each in a thread of its own.

ghost use Rattle.std.specs.Prelude.{◌≡◌, ◌^◌, ◌<◌, IfOk, None, Some, length, string_bytes};
ghost use Rattle.kabi_types.specs.declared.entries.End.{End};
ghost use Rattle.posix_defs.specs.ValidScript.{IsValid};
ghost use Rattle.posix_defs.specs.World.{World};
ghost use Rattle.run_report.specs.Histories.{report_threads};
ghost use Rattle.kres_tool.specs.Run.{IsThreadsRunOf};
ghost use Rattle.kres_tool.specs.Status.{status_of};
ghost use Rattle.kres_tool.specs.Tool.{ScriptEnds, TaskEnds, input, output};
ghost use Rattle.kres_tool.specs.declared.commands.Task.TheVariants.{Threads as ByThreads};

use crate::reading::{Reading, read_script};
use crate::statuses::Status;
use crate::tool::{forget, hand_out, tell_fault, tell_run};
use call_run::Store;
use charge_words::Charge;
use kabi_types::{Memory, Script};
use kern_shared::Closed;
use kio_ports::{Sink, Source};
use posix_defs::Turner;
use run_report::{Reported, report_history};
use std::alloc::Global;
use std::marker::Brand;
use std::sync::Wait;
use std::thread::Threads;
use thread_laws::a_tree_of_files_crosses_threads;
use victim_core::{Score, Scorer};
use work_crew::{Door, run_workers};

/// Reads a script from the source, has it run by so many workers, and writes the report of their history.
pub fn run_by_threads<
    R: Threads + Wait + Sync,
    S: Source,
    K: Sink,
    D: Door + Sync,
    F: Scorer + Send,
    G: Scorer + Send,
>(
    rt: &R,
    alloc: Global,
    workers: u32,
    source: &mut S,
    sink: &mut K,
    door: &D,
    score: Score<F, G>,
    store_out: &mut Option<Store<F, G>>,
) -> Status
    requires some { 0 < workers }
    requires none { store_out.old ≡ None }
    ensures { TaskEnds (input S.left S.faults source.old source.new) (output K.held K.faults K.put_gives sink.old sink.new) store_out.new (ByThreads workers) result }
{
    match read_script(alloc, source) {
        Ok(Reading::Script(script)) => {
            let status = answer_by_threads(
                rt, alloc, workers, &script, sink, door, score, store_out,
            );
            drop(script);
            status
        }
        Ok(Reading::Bad(fault)) => tell_fault(alloc, sink, fault),
        Ok(Reading::Broken) => Status::ReadFault,
        Err(Memory) => Status::Memory,
    }
}

/// Has a script run, and writes the report. The store is handed out where the whole report was written.
fn answer_by_threads<
    R: Threads + Wait + Sync,
    K: Sink,
    D: Door + Sync,
    F: Scorer + Send,
    G: Scorer + Send,
>(
    rt: &R,
    alloc: Global,
    workers: u32,
    script: &Script,
    sink: &mut K,
    door: &D,
    score: Score<F, G>,
    store_out: &mut Option<Store<F, G>>,
) -> Status
    requires valid { IsValid script.now }
    requires some { 0 < workers }
    requires none { store_out.old ≡ None }
    ensures { ScriptEnds (output K.held K.faults K.put_gives sink.old sink.new) (ByThreads workers) script.now store_out.new result }
{
    match run_threads(rt, alloc, workers, script, door, score, store_out) {
        Ok(reported) => tell_run(sink, &reported, store_out),
        Err(Memory) => {
            forget(store_out);
            Status::Memory
        }
    }
}

/// Has a script run by so many workers to its end, and hands the store out as they left it, also where there is no memory for the report.
fn run_threads<R: Threads + Wait + Sync, D: Door + Sync, F: Scorer + Send, G: Scorer + Send>(
    rt: &R,
    alloc: Global,
    workers: u32,
    script: &Script,
    door: &D,
    score: Score<F, G>,
    store_out: &mut Option<Store<F, G>>,
) -> Result<Reported, Memory>
    requires valid { IsValid script.now }
    requires some { 0 < workers }
    ensures { IfOk result (λ it. IsThreadsRunOf script.now (string_bytes it.text) store_out.new (status_of it.end)) }
{
    let (charge, seat) = Charge::boot(alloc, script.heap)?;
    let store = Store::boot(alloc, script, score)?;
    a_tree_of_files_crosses_threads();
    let closed = run_workers::<Store<F, G>, Brand, D, R>(
        rt,
        alloc,
        store,
        script.steps,
        script.heap,
        workers,
        charge,
        seat,
        door,
    )?;
    let reported = report_closed(alloc, &closed);
    hand_out(store_out, closed.store);
    reported
}

/// The report of what workers have left: the history, the end that stands, what is charged, and the blocks that the store has read.
fn report_closed<T: Turner>(alloc: Global, closed: &Closed<T>) -> Result<Reported, Memory>
    requires ended { (end : End) × (closed.now.end ≡ Some end) }
    requires few { length closed.now.history < 2 ^ 32 }
    ensures end { IfOk result (λ it. closed.now.end ≡ Some it.end) }
    ensures text { IfOk result (λ it. (world : World) → T.stands closed.now.store world
        → string_bytes it.text ≡ report_threads closed.now.history it.end closed.now.charged world.reads) }
{
    let Some(end) = closed.end else {
        unreachable!()
    };
    let entries = closed.history.items();
    let text = report_history(alloc, entries, end, closed.charged, closed.store.reads())?;
    Ok(Reported { end, text })
}
