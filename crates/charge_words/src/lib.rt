//! The charge of a kernel on one atomic word: what all threads hold together, at most the heap.
//!
//! A `Charge` is shared by reference. Each thread steps with a `ChargeSeat` of its own, which holds a part of the word.
//! No call takes a lock or waits. The rule that the word keeps at each atomic step stands in `specs/Rule.antt`.
#![tactic(auto)]

mod charges;
mod crossing;
mod reserved;
mod rule;
mod seats;
#[cfg(test)]
mod tests;

pub use charges::Charge;
pub use crossing::crosses_threads;
pub use reserved::Reserved;
pub use rule::ChargeView;
pub use seats::ChargeSeat;
