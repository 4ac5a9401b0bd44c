//! The address space of a process: its pages, whose frames are shared after a fork and copied before a write.
#![tactic(auto)]

mod bytes;
mod frames;
pub mod laws;
mod rows;
mod spaces;

pub use spaces::Space;
