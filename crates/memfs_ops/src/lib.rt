//! The tree of files over three caches: each call on paths and nodes answers what the plain tree answers, whatever is
//! cached, and leaves it standing for the tree that the call leads to.
//!
//! Names, inodes and blocks are kept in the kernel's heap, from the purse of the call that asked for them.
#![tactic(auto)]

mod changing;
mod closing;
mod entries;
mod evicting;
mod file_tree;
mod forgetting;
mod held;
mod holding;
mod linking;
mod making;
mod opening;
mod reading;
mod removing;
mod renaming;
mod starting;
mod stepping;
mod telling;
mod through;
mod writing;

pub use file_tree::FileTree;
pub use opening::Opening;
