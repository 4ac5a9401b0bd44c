//! `stat_cost HEAP COMPONENTS ROUNDS`: asks so often about a path that is cached, so that what one question costs can be
//! counted from outside as the difference of two runs.
//!
//! It makes the path's directories on a disk of 4096 blocks, beside a heap of HEAP bytes, asks about the last of them once,
//! and then ROUNDS times more. It prints how often these rounds read a block of the disk.
#![tactic(auto)]

mod words;
mod world;

use std::env;
use std::process::ExitCode;
use words::plan_of;
use world::reads_of;

/// 0; 1 where the words are no plan, or memory or room is missing.
fn main(rt: HostRuntime) -> ExitCode {
    let Ok(mut words) = env::args(&rt) else {
        return ExitCode::FAILURE;
    };
    let _name = words.next();
    let Some(plan) = plan_of(words.next(), words.next(), words.next()) else {
        return ExitCode::FAILURE;
    };
    let Some(reads) = reads_of(rt.alloc(), &plan) else {
        return ExitCode::FAILURE;
    };
    match println!(rt; "reads {reads}") {
        Ok(()) => ExitCode::SUCCESS,
        Err(_) => ExitCode::FAILURE,
    }
}
