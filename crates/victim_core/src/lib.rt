//! Who is killed where heap has to be freed, by scores that stored closures compute.
#![tactic(auto)]

mod best;
mod laws;
mod scorers;
mod scores;

pub use laws::{victim_is_the_machines, victims_are_one};
pub use scorers::Scorer;
pub use scores::Score;
