//! The price list of the kernel: which objects a call may make, and how many bytes of kernel heap it may use.
//!
//! A call reserves its bound before it runs, and counts its need down while it runs.
#![tactic(auto)]

mod bounds;
mod needs;
mod prices;
mod tables;

pub use bounds::bound;
pub use needs::need;
pub use prices::price;
pub use tables::table;
