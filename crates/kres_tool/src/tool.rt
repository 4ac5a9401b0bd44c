ghost use Rattle.std.specs.Prelude.{◌≡◌, ◌≢◌, ◌≤◌, List, ℕ, IfOk, None, Some, string_bytes};
ghost use Rattle.kabi_types.specs.declared.scripts.Policy.TheVariants.{Heaviest, Youngest};
ghost use Rattle.posix_defs.specs.Canonical.{canonical};
ghost use Rattle.posix_defs.specs.Generated.{generated};
ghost use Rattle.posix_defs.specs.ValidScript.{IsValid};
ghost use Rattle.kres_tool.specs.Causes.{Completes, HasCause};
ghost use Rattle.kres_tool.specs.Headline.{GroupsKeep, LoadKeeps, SimKeeps, ThreadsKeep};
ghost use Rattle.kres_tool.specs.Run.{IsLoadOf, IsRunOf};
ghost use Rattle.kres_tool.specs.Status.{status_of};
ghost use Rattle.kres_tool.specs.Tool.{CommandEnds, FaultEnds, HandsOut, HasPut, LoadEnds, Obeys, OthersEnd, ScriptEnds, TaskEnds, TextEnds, input, output};
ghost use Rattle.kres_tool.specs.Words.{Asks, AsksNoThread, IsAllowed, most_rounds};
ghost use Rattle.kres_tool.specs.declared.commands.Command.{Command};
ghost use Rattle.kres_tool.specs.declared.commands.Command.TheVariants.{Groups, Load, OnScript};
ghost use Rattle.kres_tool.specs.declared.commands.Task.{Task};
ghost use Rattle.kres_tool.specs.declared.commands.Task.TheVariants.{Sim, Threads};

use crate::commands::{Command, Task, Threaded, command_of, threaded_of};
use crate::groups::answer_groups;
use crate::lines::fault_line;
use crate::reading::{Reading, read_script};
use crate::statuses::Status;
use crate::threads::run_by_threads;
use crate::writing::write_text;
use call_run::Store;
use kabi_types::{Memory, Script, ScriptFault};
use kern_core::Core;
use kio_ports::{Failed, Sink, Source};
use load_gen::generate;
use need_table::table;
use run_report::{Reported, run_core, sum_up_core};
use script_laws::generated_scripts_are_valid;
use script_parse::print;
use std::alloc::Global;
use std::sync::Wait;
use std::thread::Threads;
use victim_core::{Score, Scorer};
use work_crew::Door;

/// What is written where the words aren't the program's.
const USAGE: &str = "usage: kres sim | threads W | print | table | gen N | load N | groups W\n";

/// Runs the tool on the words after the program's name: reads what they ask for from the source, and writes the whole
/// answer to the sink. The two closures score processes by weight and by age. Where workers run a script, they pass the door.
///
/// Where a script was run and the status is its end's, `store_out` holds the run's store as it was left, else None; what it
/// held before is dropped.
pub fn run_tool<
    R: Threads + Wait + Sync,
    S: Source,
    K: Sink,
    D: Door + Sync,
    F: Scorer + Send + Copy,
    G: Scorer + Send + Copy,
>(
    rt: &R,
    alloc: Global,
    words: &[String],
    source: &mut S,
    sink: &mut K,
    door: &D,
    heaviest: F,
    youngest: G,
    store_out: &mut Option<Store<F, G>>,
) -> Status
    requires by_weight { F.scores heaviest Heaviest }
    requires by_age { G.scores youngest Youngest }
    ensures obeys { Obeys words.now (input S.left S.faults source.old source.new) (output K.held K.faults K.put_gives sink.old sink.new) store_out.new result }
    ensures headline { Asks words.now (OnScript Sim) → SimKeeps (input S.left S.faults source.old source.new) (output K.held K.faults K.put_gives sink.old sink.new) store_out.new result }
    ensures threads { (workers : ℕ) → Asks words.now (OnScript (Threads workers)) → ThreadsKeep (input S.left S.faults source.old source.new) (output K.held K.faults K.put_gives sink.old sink.new) store_out.new result }
    ensures groups { (workers : ℕ) → Asks words.now (Groups workers) → GroupsKeep (input S.left S.faults source.old source.new) (output K.held K.faults K.put_gives sink.old sink.new) result }
    ensures loads { (rounds : ℕ) → Asks words.now (Load rounds) → LoadKeeps (output K.held K.faults K.put_gives sink.old sink.new) rounds store_out.new result }
    ensures causes { HasCause words.now (input S.left S.faults source.old source.new) (output K.held K.faults K.put_gives sink.old sink.new) store_out.new result }
    ensures complete { Completes words.now (input S.left S.faults source.old source.new) (output K.held K.faults K.put_gives sink.old sink.new) store_out.new result }
{
    match threaded_of(words) {
        Some(Threaded::Script(workers)) => {
            forget(store_out);
            let score = Score::new(heaviest, youngest);
            run_by_threads(rt, alloc, workers, source, sink, door, score, store_out)
        }
        Some(Threaded::Groups(workers)) => {
            forget(store_out);
            answer_groups(rt, alloc, workers, source, sink, heaviest, youngest)
        }
        None => run_plain(alloc, words, source, sink, heaviest, youngest, store_out),
    }
}

/// The same for the words that start no thread. It takes no runtime, so it returns.
pub fn run_plain<S: Source, K: Sink, F: Scorer, G: Scorer>(
    alloc: Global,
    words: &[String],
    source: &mut S,
    sink: &mut K,
    heaviest: F,
    youngest: G,
    store_out: &mut Option<Store<F, G>>,
) -> Status
    requires by_weight { F.scores heaviest Heaviest }
    requires by_age { G.scores youngest Youngest }
    requires plain { AsksNoThread words.now }
    ensures obeys { Obeys words.now (input S.left S.faults source.old source.new) (output K.held K.faults K.put_gives sink.old sink.new) store_out.new result }
    ensures headline { Asks words.now (OnScript Sim) → SimKeeps (input S.left S.faults source.old source.new) (output K.held K.faults K.put_gives sink.old sink.new) store_out.new result }
    ensures loads { (rounds : ℕ) → Asks words.now (Load rounds) → LoadKeeps (output K.held K.faults K.put_gives sink.old sink.new) rounds store_out.new result }
    ensures causes { HasCause words.now (input S.left S.faults source.old source.new) (output K.held K.faults K.put_gives sink.old sink.new) store_out.new result }
    ensures complete { Completes words.now (input S.left S.faults source.old source.new) (output K.held K.faults K.put_gives sink.old sink.new) store_out.new result }
{
    forget(store_out);
    match command_of(words) {
        Some(command) => {
            let score = Score::new(heaviest, youngest);
            obey(alloc, command, source, sink, score, store_out)
        }
        None => tell_usage(sink),
    }
}

/// Lets the store go that would be handed out.
pub fn forget<F: Scorer, G: Scorer>(store_out: &mut Option<Store<F, G>>)
    ensures { store_out.new ≡ None }
{
    drop(store_out.take());
}

/// Tells which words there are.
pub fn tell_usage<K: Sink>(sink: &mut K) -> Status
    ensures { OthersEnd (output K.held K.faults K.put_gives sink.old sink.new) result }
{
    match put(sink, USAGE) {
        Ok(()) => Status::Usage,
        Err(_) => Status::WriteFault,
    }
}

/// Writes a text, whole or up to a put that fails.
fn put<K: Sink>(sink: &mut K, text: &str) -> Result<(), Failed>
    ensures { HasPut (output K.held K.faults K.put_gives sink.old sink.new) text.now result }
{
    put_bytes(sink, text.as_bytes())
}

/// The same of a text's bytes.
pub fn put_bytes<K: Sink>(sink: &mut K, bytes: &[u8]) -> Result<(), Failed>
    ensures { HasPut (output K.held K.faults K.put_gives sink.old sink.new) bytes.now result }
{
    write_text(sink, bytes)
}

/// Writes a text that needs no script, where the host had the memory to make it.
fn tell<K: Sink>(sink: &mut K, made: Result<String, Memory>) -> Status
    ensures { (whole : List ℕ) → IfOk made (λ text. string_bytes text ≡ whole) → TextEnds (output K.held K.faults K.put_gives sink.old sink.new) whole result }
{
    let Ok(text) = made else {
        return Status::Memory;
    };
    match put(sink, text.as_str()) {
        Ok(()) => Status::Finished,
        Err(_) => Status::WriteFault,
    }
}

/// The generated script of so many rounds, in its canonical form.
fn generated_text(alloc: Global, rounds: u32) -> Result<String, Memory>
    requires { rounds ≤ most_rounds }
    ensures { IfOk result (λ text. string_bytes text ≡ canonical (generated rounds)) }
{
    let script = generate(alloc, rounds)?;
    print(alloc, &script)
}

/// Does what a command asks for.
fn obey<S: Source, K: Sink, F: Scorer, G: Scorer>(
    alloc: Global,
    command: Command,
    source: &mut S,
    sink: &mut K,
    score: Score<F, G>,
    store_out: &mut Option<Store<F, G>>,
) -> Status
    requires allowed { IsAllowed command }
    requires plain { (workers : ℕ) → command ≢ OnScript (Threads workers) }
    requires no_groups { (workers : ℕ) → command ≢ Groups workers }
    requires none { store_out.old ≡ None }
    ensures ends { CommandEnds (input S.left S.faults source.old source.new) (output K.held K.faults K.put_gives sink.old sink.new) store_out.new command result }
    ensures untouched { ((task : Task) → command ≢ OnScript task) → ((workers : ℕ) → command ≢ Groups workers) → source.new ≡ source.old }
{
    match command {
        Command::OnScript(task) => answer_source(alloc, task, source, sink, score, store_out),
        Command::Table => tell(sink, table(alloc)),
        Command::Gen(rounds) => tell(sink, generated_text(alloc, rounds)),
        Command::Load(rounds) => load(alloc, rounds, sink, score, store_out),
        Command::Groups(_) => unreachable!(),
    }
}

/// Reads a script from the source, does the task with it, and writes the answer.
fn answer_source<S: Source, K: Sink, F: Scorer, G: Scorer>(
    alloc: Global,
    task: Task,
    source: &mut S,
    sink: &mut K,
    score: Score<F, G>,
    store_out: &mut Option<Store<F, G>>,
) -> Status
    requires plain { (workers : ℕ) → task ≢ Threads workers }
    requires none { store_out.old ≡ None }
    ensures { TaskEnds (input S.left S.faults source.old source.new) (output K.held K.faults K.put_gives sink.old sink.new) store_out.new task result }
{
    match read_script(alloc, source) {
        Ok(Reading::Script(script)) => {
            let status = answer_script(alloc, task, &script, sink, score, store_out);
            drop(script);
            status
        }
        Ok(Reading::Bad(fault)) => tell_fault(alloc, sink, fault),
        Ok(Reading::Broken) => Status::ReadFault,
        Err(Memory) => Status::Memory,
    }
}

/// Writes the line that tells why a text is no script.
pub fn tell_fault<K: Sink>(alloc: Global, sink: &mut K, fault: ScriptFault) -> Status
    ensures { FaultEnds (output K.held K.faults K.put_gives sink.old sink.new) fault result }
{
    let Ok(line) = fault_line(alloc, fault) else {
        return Status::Memory;
    };
    match put(sink, line.as_str()) {
        Ok(()) => Status::BadScript,
        Err(_) => Status::WriteFault,
    }
}

/// Does a task with a script, and writes the answer.
fn answer_script<K: Sink, F: Scorer, G: Scorer>(
    alloc: Global,
    task: Task,
    script: &Script,
    sink: &mut K,
    score: Score<F, G>,
    store_out: &mut Option<Store<F, G>>,
) -> Status
    requires valid { IsValid script.now }
    requires plain { (workers : ℕ) → task ≢ Threads workers }
    requires none { store_out.old ≡ None }
    ensures { ScriptEnds (output K.held K.faults K.put_gives sink.old sink.new) task script.now store_out.new result }
{
    match task {
        Task::Sim => simulate(alloc, script, sink, score, store_out),
        Task::Print => tell(sink, print(alloc, script)),
        Task::Threads(_) => unreachable!(),
    }
}

/// Runs a script to its end, and writes the report of every event. The store is handed out where the whole report was
/// written.
fn simulate<K: Sink, F: Scorer, G: Scorer>(
    alloc: Global,
    script: &Script,
    sink: &mut K,
    score: Score<F, G>,
    store_out: &mut Option<Store<F, G>>,
) -> Status
    requires valid { IsValid script.now }
    ensures { ScriptEnds (output K.held K.faults K.put_gives sink.old sink.new) Sim script.now store_out.new result }
{
    match run_script(alloc, script, score, store_out) {
        Ok(reported) => tell_run(sink, &reported, store_out),
        Err(Memory) => {
            forget(store_out);
            Status::Memory
        }
    }
}

/// Writes the report of a run. The store stays where the whole report was written.
pub fn tell_run<K: Sink, F: Scorer, G: Scorer>(
    sink: &mut K,
    reported: &Reported,
    store_out: &mut Option<Store<F, G>>,
) -> Status
    ensures { HandsOut (output K.held K.faults K.put_gives sink.old sink.new) (string_bytes reported.now.text) store_out.old (status_of reported.now.end) store_out.new result }
{
    match put(sink, reported.text.as_str()) {
        Ok(()) => Status::of(reported.end),
        Err(_) => {
            forget(store_out);
            Status::WriteFault
        }
    }
}

/// Runs a script to its end. The store is handed out as it was left, also where there is no memory for the report.
fn run_script<F: Scorer, G: Scorer>(
    alloc: Global,
    script: &Script,
    score: Score<F, G>,
    store_out: &mut Option<Store<F, G>>,
) -> Result<Reported, Memory>
    requires valid { IsValid script.now }
    ensures { IfOk result (λ it. IsRunOf script.now (string_bytes it.text) store_out.new (status_of it.end)) }
{
    let store = Store::boot(alloc, script, score)?;
    let mut core = Core::boot(alloc, store, script.steps, script.heap)?;
    let reported = run_core(alloc, &mut core, script);
    hand_out(store_out, core.close());
    reported
}

/// Runs the generated script of so many rounds to its end, and writes the summary of its run. The store is handed out where that was
/// written whole.
fn load<K: Sink, F: Scorer, G: Scorer>(
    alloc: Global,
    rounds: u32,
    sink: &mut K,
    score: Score<F, G>,
    store_out: &mut Option<Store<F, G>>,
) -> Status
    requires { rounds ≤ most_rounds }
    ensures { LoadEnds (output K.held K.faults K.put_gives sink.old sink.new) store_out.new rounds result }
{
    match run_generated(alloc, rounds, score, store_out) {
        Ok(reported) => tell_run(sink, &reported, store_out),
        Err(Memory) => {
            forget(store_out);
            Status::Memory
        }
    }
}

/// Runs the generated script of so many rounds to its end, and sums its run up. The store is handed out as it was left, also where
/// there is no memory for the summary.
fn run_generated<F: Scorer, G: Scorer>(
    alloc: Global,
    rounds: u32,
    score: Score<F, G>,
    store_out: &mut Option<Store<F, G>>,
) -> Result<Reported, Memory>
    requires { rounds ≤ most_rounds }
    ensures { IfOk result (λ it. IsLoadOf rounds (string_bytes it.text) store_out.new (status_of it.end)) }
{
    let script = generate(alloc, rounds)?;
    generated_scripts_are_valid();
    let summed = run_summed(alloc, &script, rounds, score, store_out);
    drop(script);
    summed
}

/// The same of a script that is there.
fn run_summed<F: Scorer, G: Scorer>(
    alloc: Global,
    script: &Script,
    rounds: u32,
    score: Score<F, G>,
    store_out: &mut Option<Store<F, G>>,
) -> Result<Reported, Memory>
    requires script { script.now ≡ generated rounds }
    requires valid { IsValid script.now }
    ensures { IfOk result (λ it. IsLoadOf rounds (string_bytes it.text) store_out.new (status_of it.end)) }
{
    let store = Store::boot(alloc, script, score)?;
    let mut core = Core::boot(alloc, store, script.steps, script.heap)?;
    let summed = sum_up_core(alloc, &mut core, script, rounds);
    hand_out(store_out, core.close());
    summed
}

/// Hands a store out.
pub fn hand_out<F: Scorer, G: Scorer>(store_out: &mut Option<Store<F, G>>, store: Store<F, G>)
    ensures { store_out.new ≡ Some store }
{
    drop(store_out.replace(store));
}
