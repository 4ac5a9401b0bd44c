//! A call of the tool, and what comes of it.

ghost use Rattle.std.specs.Prelude.{◌≡◌, ◌≢◌};
ghost use Rattle.kabi_types.specs.declared.scripts.Policy.TheVariants.{Heaviest, Youngest};
ghost use Rattle.posix_defs.specs.Victim.{score_of};

use kabi_types::{Memory, Weight};
use kio_ports::{MemSink, MemSource};
use kres_tool::{Status, run_tool};
use posix_defs::Turner;
use std::process::Abort;
use std::sync::Wait;
use std::thread::Threads;
use victim_core::Scorer;
use work_crew::{Door, OpenDoor};

/// Room for every text that a test writes, in bytes.
const ROOM: usize = 65536;

pub const PID_SCRIPT: &str = "heap 8192\nprogram init\nr1 = getpid\nexit 0\nend\n";

pub const PID_REPORT: &str = "1 p1 ask getpid bound 0 charged 2816
2 p1 admit getpid bound 0 charged 2816
3 p1 done getpid = 1 charged 2816
4 p1 ask exit bound 0 charged 2816
5 p1 admit exit bound 0 charged 2816
6 p1 ended exit 0 charged 2304
end finished events 6 charged 2304 peak 2816 reads 0
";

/// What the store that the tool hands out has in use, in bytes, and how many blocks it has read.
pub type Left = Option<(u64, u64)>;

/// Which takes of the source fail, and which puts of the sink, by their numbers from 1; whether a take gives one byte alone; and how
/// many a put takes at most.
#[derive(Clone, Copy)]
pub struct Trouble<'a> {
    pub takes: &'a [u64],
    pub puts: &'a [u64],
    pub gives_one: bool,
    pub holds: usize,
}

/// All goes well.
pub const NONE: Trouble<'static> = Trouble {
    takes: &[],
    puts: &[],
    gives_one: false,
    holds: usize::MAX,
};

// How many bytes a take gives at most.
fn most_of(gives_one: bool) -> usize
    ensures { result ≢ 0 }
{
    if gives_one { 1 } else { 4096 }
}

/// What came of a call of the tool, and how often it asked its source.
#[derive(Drop)]
pub struct Outcome {
    pub status: Status,
    pub left: Left,
    pub takes: u64,
    pub sink: MemSink,
}

fn words_of(rt: &impl AllocGlobal, line: &str) -> Result<Vec<String>, Memory> {
    let mut words = Vec::new(rt.alloc());
    for word in line.split_whitespace() {
        words.push(word.to_string(rt.alloc())?)?;
    }
    Ok(words)
}

/// What the tool answers to these words with scores of its caller's, and what it leaves.
fn run_with<D: Door + Sync, F: Scorer + Send + Copy, G: Scorer + Send + Copy>(
    rt: &(impl AllocGlobal + Threads + Wait + Sync),
    words: &[String],
    source: &mut MemSource,
    sink: &mut MemSink,
    door: &D,
    heaviest: F,
    youngest: G,
) -> (Status, Left)
    requires by_weight { F.scores heaviest Heaviest }
    requires by_age { G.scores youngest Youngest }
{
    let mut store_out = None;
    let status = run_tool(
        rt,
        rt.alloc(),
        words,
        source,
        sink,
        door,
        heaviest,
        youngest,
        &mut store_out,
    );
    let left = match &store_out {
        Some(store) => Some((store.live(), store.reads())),
        None => None,
    };
    drop(store_out);
    (status, left)
}

/// What the tool makes of the words of a line on a text, with scores of its caller's, where workers pass this door.
pub fn outcome_with<D: Door + Sync, F: Scorer + Send + Copy, G: Scorer + Send + Copy>(
    rt: &(impl AllocGlobal + Threads + Wait + Sync),
    line: &str,
    text: &str,
    trouble: Trouble,
    door: &D,
    heaviest: F,
    youngest: G,
) -> Result<Outcome, Memory>
    requires by_weight { F.scores heaviest Heaviest }
    requires by_age { G.scores youngest Youngest }
{
    let puts = trouble.puts.to_vec(rt.alloc())?;
    let mut sink = MemSink::new(rt.alloc(), ROOM, puts, trouble.holds)?;
    let takes = trouble.takes.to_vec(rt.alloc())?;
    let text = text.as_bytes().to_vec(rt.alloc())?;
    let mut source = MemSource::new(text, takes, most_of(trouble.gives_one));
    let words = words_of(rt, line)?;
    let (status, left) = run_with(
        rt,
        words.as_slice(),
        &mut source,
        &mut sink,
        door,
        heaviest,
        youngest,
    );
    Ok(Outcome {
        status,
        left,
        takes: source.calls(),
        sink,
    })
}

/// The same with the scores of the kernel.
pub fn outcome_at<D: Door + Sync>(
    rt: &(impl AllocGlobal + Threads + Wait + Sync),
    line: &str,
    text: &str,
    trouble: Trouble,
    door: &D,
) -> Result<Outcome, Memory> {
    outcome_with(
        rt,
        line,
        text,
        trouble,
        door,
        |w: Weight| -> u64
            ensures { result ≡ score_of Heaviest w }
        { 512 + 4096 * u64::from(w.frames) + 512 * u64::from(w.nodes) + 64 * u64::from(w.descs) },
        |w: Weight| -> u64
            ensures { result ≡ score_of Youngest w }
        { u64::from(w.pid) },
    )
}

/// The same where the door holds nobody.
pub fn outcome_of(
    rt: &(impl AllocGlobal + Threads + Wait + Sync),
    line: &str,
    text: &str,
    trouble: Trouble,
) -> Result<Outcome, Memory> {
    outcome_at(rt, line, text, trouble, &OpenDoor)
}

/// Whether the call ended with this status, and wrote this text alone.
pub fn is_so(outcome: &Outcome, status: Status, written: &[u8]) -> bool {
    outcome.status == status && outcome.sink.bytes() == written
}

/// Stops a test where something isn't right, and names it.
pub fn check(rt: &impl Abort, right: bool, what: &str) {
    assert!(rt; right, "wrong: {what}");
}
