//! The pipes of FIFOs: a FIFO has one while a description is open on it, which counts the ends of each side and how often that side was
//! opened so far.
//!
//! They are a chain in the kernel's heap, of which the table keeps the first. All else of a pipe is as with one that `pipe` made.
#![tactic(auto)]

mod table;

pub use table::FifoTable;
