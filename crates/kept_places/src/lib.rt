//! A list that only grows, kept as what is there: things get the places 0, 1, 2 and so on, in their order, go again, and
//! leave their places empty for good. What a look, a change and a removal cost goes by how much is there, and not by how
//! much ever was.
#![tactic(auto)]

mod places;
mod search;

pub use places::Places;
pub use search::Kept;
