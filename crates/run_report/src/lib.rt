//! Whole runs with their reports: what is written of a run, over any store of processes, and what is so of a run that is told. The
//! history of threads has a report of its own.
#![tactic(auto)]

mod laws;
mod runs;
mod summaries;
mod texts;

pub use laws::{
    a_history_keeps_to_the_room, a_report_keeps_the_headline, a_summary_keeps_the_headline,
};
pub use runs::{Reported, run_core};
pub use summaries::sum_up_core;
pub use texts::{report, report_history};
