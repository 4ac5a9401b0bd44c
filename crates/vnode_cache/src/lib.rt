//! The cache of inodes: an order of use over the Vnodes of the heap, by their nodes' numbers.
//!
//! A Vnode with pins is held: it stays until as many were taken off. How many have none is counted,
//! so whether one may go is told without a look at any.
//!
//! A call fills it from its purse. Where the purse has no Vnode left, of those that the call filled
//! the first without pins goes before another is made, so the heap never holds more than the purse
//! paid for.
#![tactic(auto)]

mod cache;
pub mod laws;

pub use cache::VnodeCache;
