//! Ranges of places, each held with a kind: a list whose ranges lie apart, and what it says of each place.
#![tactic(auto)]

mod laws;
mod pieces;
mod ranges;

pub use laws::{
    a_canonical_list_is_the_only_one_that_says_so, a_conflict_is_at_a_place,
    a_widened_range_stands_alone, holders_stay_apart, letting_all_go_leaves_none,
    setting_again_changes_nothing, setting_changes_the_places_inside,
    setting_makes_two_more_at_most,
};
pub use ranges::Ranges;
