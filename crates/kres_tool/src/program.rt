//! The program over any arguments and streams: what `main` calls with its own.

ghost use Rattle.std.specs.Prelude.{◌≡◌, ◌≢◌, ◌⊎◌, Option, drop, IfErr, IfOk};
ghost use Rattle.std.specs.IoError.{error_kind};
ghost use Rattle.std.specs.Process.{exit_status};
ghost use Rattle.std.specs.Vec.Iter.{into_iter_items};
ghost use Rattle.kabi_types.specs.declared.scripts.Policy.TheVariants.{Heaviest, Youngest};
ghost use Rattle.call_run.specs.Stores.{StoreView};
ghost use Rattle.kres_tool.specs.Program.{EndsOn, EndsOnNoText, NothingDone};
ghost use Rattle.kres_tool.specs.Headline.{ObeysAndKeeps};
ghost use Rattle.kres_tool.specs.Status.{number_of};
ghost use Rattle.kres_tool.specs.Tool.{input, output};
ghost use Rattle.kres_tool.specs.declared.statuses.Status.TheVariants.{Memory};

use crate::statuses::Status;
use crate::tool::{run_tool, tell_usage};
use kio_ports::{Sink, Source};
use std::alloc::{AllocError, Global};
use std::io::{self, ErrorKind};
use std::process::ExitCode;
use std::sync::Wait;
use std::thread::Threads;
use std::{env, mem};
use victim_core::Scorer;
use work_crew::Door;

/// Runs the tool on the words after the program's name, and ends with the number of its status. An argument that is no
/// text is no word of the program's; 8 is also for arguments that the host had no memory for.
pub fn run_program<
    R: Threads + Wait + Sync,
    S: Source,
    K: Sink,
    D: Door + Sync,
    F: Scorer + Send + Copy,
    G: Scorer + Send + Copy,
>(
    rt: &R,
    alloc: Global,
    arguments: io::Result<env::Args>,
    source: &mut S,
    sink: &mut K,
    door: &D,
    heaviest: F,
    youngest: G,
) -> ExitCode
    requires by_weight { F.scores heaviest Heaviest }
    requires by_age { G.scores youngest Youngest }
    ensures words { IfOk arguments (λ all. EndsOn (drop 1 (into_iter_items all)) (input S.left S.faults source.old source.new) (output K.held K.faults K.put_gives sink.old sink.new) (exit_status result)) }
    ensures no_text { IfErr arguments (λ error. error_kind error ≢ ErrorKind.OutOfMemory
        → EndsOnNoText (input S.left S.faults source.old source.new) (output K.held K.faults K.put_gives sink.old sink.new) (exit_status result)) }
    ensures no_memory { IfErr arguments (λ error. error_kind error ≡ ErrorKind.OutOfMemory
        → (exit_status result ≡ number_of Memory) × NothingDone (input S.left S.faults source.old source.new) (output K.held K.faults K.put_gives sink.old sink.new)) }
{
    match arguments {
        Ok(all) => code_of(run_words(rt, alloc, all, source, sink, door, heaviest, youngest)),
        Err(error) => match error.kind() {
            ErrorKind::OutOfMemory => code_of(Status::Memory),
            _ => code_of(tell_usage(sink)),
        },
    }
}

/// Runs the tool on the words after the program's name, where the host has the memory for them.
fn run_words<
    R: Threads + Wait + Sync,
    S: Source,
    K: Sink,
    D: Door + Sync,
    F: Scorer + Send + Copy,
    G: Scorer + Send + Copy,
>(
    rt: &R,
    alloc: Global,
    all: env::Args,
    source: &mut S,
    sink: &mut K,
    door: &D,
    heaviest: F,
    youngest: G,
) -> Status
    requires by_weight { F.scores heaviest Heaviest }
    requires by_age { G.scores youngest Youngest }
    ensures { ((handed : Option StoreView) × ObeysAndKeeps (drop 1 (into_iter_items all)) (input S.left S.faults source.old source.new) (output K.held K.faults K.put_gives sink.old sink.new) handed result)
        ⊎ ((result ≡ Memory) × NothingDone (input S.left S.faults source.old source.new) (output K.held K.faults K.put_gives sink.old sink.new)) }
{
    let Ok(words) = after_name(alloc, all) else {
        return Status::Memory;
    };
    let mut store_out = None;
    let status = run_tool(
        rt,
        alloc,
        words.as_slice(),
        source,
        sink,
        door,
        heaviest,
        youngest,
        &mut store_out,
    );
    // The program is at its end, and the host takes all memory back at once: to free each object of the store would take as long
    // as a thousand events.
    mem::forget(store_out);
    drop(words);
    status
}

/// The words after the program's name, which stands first.
fn after_name(alloc: Global, all: env::Args) -> Result<Vec<String>, AllocError>
    ensures { IfOk result (λ words. words.items ≡ drop 1 (into_iter_items all)) }
{
    all.skip(1).collect(alloc)
}

/// What the program ends with: the number of its status.
fn code_of(status: Status) -> ExitCode
    ensures { exit_status result ≡ number_of status }
{
    ExitCode::from(status.number())
}
