//! A store of two calls with a price list of its own, run by the core: to be read, copied, and changed call by call.
//!
//! Its one process maps two pages and ends. [`price`] is the list, `Arena` the heap with the purse that a call pays from, `calls` the two
//! calls, [`Maps`] what the core asks of them, and [`run_maps`] a run with its report.
#![tactic(auto)]

mod arena;
mod calls;
mod prices;
mod runs;
mod stages;
mod store;
#[cfg(test)]
mod trials;

pub use prices::price;
pub use runs::run_maps;
pub use stages::Stage;
pub use store::Maps;
