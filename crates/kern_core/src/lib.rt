//! Who chooses among the events of the core, and whole runs of it, over any store of processes; the core itself is passed on.
#![tactic(auto)]

mod choosing;
mod picks;

pub use choosing::Choosing;
pub use kern_events::{Core, Relief};
pub use picks::{picked, run_to_end};
