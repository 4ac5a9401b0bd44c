//! Who is said to have done what, read off a line of a history. Nothing else of the line is read: the one entry of that claim
//! that may come next is known before, and a line is good where it is that entry's line, byte for byte.
#![tactic(auto)]

mod claims;
mod laws;
mod words;
mod worked;

pub use claims::claim_of;
pub use laws::{a_good_line_is_predicted, a_line_claims_what_its_entry_says, a_line_has_one_entry};
pub use worked::{first_lines_are_good, lines_of_the_killed_are_good};
