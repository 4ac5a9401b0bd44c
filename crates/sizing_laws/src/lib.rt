//! The laws of sizing a heap: how much is enough for a run, and that more changes nothing.
#![tactic(auto)]

mod sizes;

pub use sizes::{
    enough_is_enough, more_heap_changes_nothing, nobody_is_killed_where_all_fit,
    the_heap_is_no_part_of_the_machine, the_need_is_the_least_that_fits,
};
