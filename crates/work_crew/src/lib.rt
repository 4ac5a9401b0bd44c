//! Workers over a shared kernel: each in a thread of its own, where one can be made, with a pass of its own, until the run is over.
#![tactic(auto)]

mod doors;
mod rests;
mod runs;
mod workers;

pub use doors::{Door, OpenDoor, Point};
pub use runs::run_workers;
pub use workers::crew;
