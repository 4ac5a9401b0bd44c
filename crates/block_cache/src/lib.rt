//! The cache of disk blocks: an order of use over the Blocks of the heap, by their numbers.
//!
//! A call fills it from its purse. Where the purse has no Block left, the one that the call filled
//! first goes before another is made, so the heap never holds more than the purse paid for.
#![tactic(auto)]

mod cache;
pub mod laws;

pub use cache::BlockCache;
