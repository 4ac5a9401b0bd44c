//! The tool over any words and streams: what is asked for is read, run and answered, and the answer has its status.
#![tactic(auto)]

mod commands;
mod groups;
mod lines;
mod program;
mod reading;
mod statuses;
mod text;
mod threads;
mod tool;
mod writing;

pub use program::run_program;
pub use statuses::Status;
pub use tool::{run_plain, run_tool};
