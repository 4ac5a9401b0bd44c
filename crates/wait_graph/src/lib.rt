//! Who waits for whom among at most 64, and whether a chain of waits is closed.
#![tactic(auto)]

mod circles;

pub use circles::{circle, circling};
