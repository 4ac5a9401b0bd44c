//! What may be handed to another thread. Each law is the contract of a function that does nothing.
#![tactic(auto)]

mod crossing;

pub use crossing::a_tree_of_files_crosses_threads;
