//! The cache of directory entries: an order of use over the Names of the heap, by directory and
//! name.
//!
//! A call fills it from its purse. Where the purse has no Name left, the one that the call filled
//! first goes before another is made, so the heap never holds more than the purse paid for.
#![tactic(auto)]

mod cache;
pub mod laws;

pub use cache::NameCache;
