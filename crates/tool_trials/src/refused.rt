//! What comes of each allocation that is refused in turn.

use crate::tool::{NONE, PID_REPORT, PID_SCRIPT, check, outcome_of};
use kres_tool::Status;
use std::sync::Wait;
use std::thread::Threads;

const PID_HISTORY: &str = "1 p1 done getpid = 1
2 p1 ended exit 0
end finished entries 2 charged 2304 reads 0
";

const CHOSEN: &str = "heap 8192\nchoices 3 1 4\nprogram init\nr1 = getpid\nexit 0\nend\n";

const GROUPS: &str =
    "whole 8192\ngroup a\nheap 8192\nprogram init\nr1 = getpid\nexit 0\nend\ngroup b\nheap 8193\nprogram init\nend\n";

const GROUPS_REPORT: &str = "group a heap 8192
1 p1 ask getpid bound 0 charged 2816
2 p1 admit getpid bound 0 charged 2816
3 p1 done getpid = 1 charged 2816
4 p1 ask exit bound 0 charged 2816
5 p1 admit exit bound 0 charged 2816
6 p1 ended exit 0 charged 2304
end finished events 6 charged 2304 peak 2816 reads 0
group b refused heap 8193
end groups 2 refused 1
";

const PRINTED: &str =
    "heap 8192\ndisk 64\nsteps 1000\npolicy heaviest\nchoices 3 1 4\nprogram init\nr1 = getpid\nexit 0\nend\n";

const WRONG: &str = "program init\nr1 = bind 0\nend\n";

const FAULT: &str = "bad script: line 2: unknown word\n";

/// Words, a text, and the status and the text where no allocation is refused.
const ROWS: &[(&str, &str, Status, &str)] = &[
    ("sim", PID_SCRIPT, Status::Finished, PID_REPORT),
    ("sim", CHOSEN, Status::Finished, PID_REPORT),
    ("sim", WRONG, Status::BadScript, FAULT),
    ("threads 2", PID_SCRIPT, Status::Finished, PID_HISTORY),
    ("print", CHOSEN, Status::Finished, PRINTED),
    ("groups 2", GROUPS, Status::Finished, GROUPS_REPORT),
    (
        "load 1",
        "",
        Status::Finished,
        "load 1 calls 2 failed 1 end finished\n",
    ),
];

/// Whether the answer is this one with this text, or want of memory with a beginning of it; also where the test itself has no
/// memory.
fn is_right(
    rt: &(impl AllocGlobal + Threads + Wait + Sync),
    line: &str,
    text: &str,
    wanted: Status,
    whole: &str,
) -> bool {
    let Ok(outcome) = outcome_of(rt, line, text, NONE) else {
        return true;
    };
    let written = outcome.sink.bytes();
    if outcome.status == Status::Memory {
        return whole.as_bytes().starts_with(written);
    }
    outcome.status == wanted && written == whole.as_bytes()
}

/// To be run with each allocation refused in turn.
#[test]
fn ends_right_whichever_allocation_is_refused(rt: HostRuntime) {
    for (line, text, wanted, whole) in ROWS {
        check(&rt, is_right(&rt, *line, *text, *wanted, *whole), *line);
    }
}
