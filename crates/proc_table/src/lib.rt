//! The processes: who is there, whose child is whose, each with its memory in the heap.
#![tactic(auto)]

mod children;
pub mod laws;
mod places;
mod reaped;
mod tables;

pub use places::Place;
pub use reaped::Reaped;
pub use tables::ProcTable;
