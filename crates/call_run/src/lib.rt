//! What a turn of each call does to the heap, to the processes in it, to the tree of files beside it and to names of sockets in that.
#![tactic(auto)]

mod calls;
mod closing;
pub mod laws;
mod numbers;
mod sleepers;
mod store;
mod touching;
mod turns;
mod victims;

pub use calls::{Buffers, run, would_block};
pub use store::Store;
pub use store_objects::{Caller, Objects, Target, go_on, purse_for};
