//! `kres`: runs scripts of processes on a kernel that reserves its heap before it runs a call.
#![tactic(auto)]

mod scores;

use kio_ports::{StdSink, StdSource};
use kres_tool::run_program;
use scores::{score_by_age, score_by_weight};
use std::env;
use std::process::ExitCode;
use work_crew::OpenDoor;

// One call and nothing beside it: no clause says so of `main`, so its body has to show it.
fn main(rt: HostRuntime) -> ExitCode {
    run_program(
        &rt,
        rt.alloc(),
        env::args(&rt),
        &mut StdSource::new(rt.stdin()),
        &mut StdSink::new(rt.stdout()),
        &OpenDoor,
        score_by_weight,
        score_by_age,
    )
}
