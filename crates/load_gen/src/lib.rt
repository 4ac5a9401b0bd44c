//! Generated scripts: rounds of calls on a few files, pipes and children, as a generator of numbers chooses them.
#![tactic(auto)]

mod rounds;
mod scripts;
mod statements;

pub use scripts::generate;
