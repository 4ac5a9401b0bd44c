//! What one process has in memory, over lists: the bytes of each page that is mapped, by the number of the page.
#![tactic(auto)]

mod pages;
mod spaces;

pub use spaces::Space;
