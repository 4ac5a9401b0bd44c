//! What may come next in a history of the plain machine, computed: the one entry that is expected of who is said to have
//! done what, whether an entry may follow, and where a list of entries leads. The laws say that this is what legal histories
//! are defined to be, and that each of them has one past.
#![tactic(auto)]

mod claims;
mod laws;
mod worked;

pub use claims::{Claim, Deed};
pub use laws::{
    a_history_is_computed, a_run_has_one_past, one_entry_is_expected, what_follows_is_computed,
    what_goes_before_is_a_run,
};
pub use worked::{
    a_loop_is_followed, a_refusal_is_followed, evictions_are_followed,
    killed_children_are_followed, kills_are_followed,
};
