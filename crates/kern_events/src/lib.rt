//! The core by its events: which may be taken, what each does, and when a run ends, over any store of processes.
#![tactic(auto)]

mod cores;
mod evictables;
mod reliefs;

pub use cores::Core;
pub use reliefs::Relief;
