//! The objects of a store: the heap with the processes in it, the tree of files beside it, and the table of who is bound to its
//! nodes; what they keep, and which worlds they stand for. A process goes on behind its call here, and what is cached goes; a store
//! goes on where a call changes what is open, or files. How processes end, and what each call does else, stands in the crates of
//! its family.
#![tactic(auto)]

mod boot;
mod continuing;
mod directories;
mod disposing;
mod evicting;
pub mod file_laws;
pub mod file_moves;
mod going_on;
pub mod laws;
mod objects;
pub mod open_moves;
mod purses;
pub mod told;

pub use boot::booted;
pub use continuing::{do_part, go_on_done};
pub use directories::{directory_of, hold_directory, let_go, work_in};
pub use disposing::dispose;
pub use evicting::{evict, evictable};
pub use going_on::{behind, go_on, go_on_anew};
pub use objects::{Caller, Objects};
pub use purses::{Target, kept_back, purse_for};
