//! The laws of the core over the plain machine: what every run and every history keeps, processes and their family, kills
//! and evictions, needs and bounds. Each is the contract of a function that does nothing.
#![tactic(auto)]

mod histories;
mod prices;
mod processes;
mod relief;
mod runs;

pub use histories::{
    a_call_is_given_up_once, orphans_get_the_first_process, sleepers_have_blocked_ever_since,
    the_heaviest_or_the_youngest_is_the_victim, the_living_pin_their_directories,
    what_is_evicted_was_cached,
};
pub use prices::{
    a_bound_is_that_of_the_price_list, a_bound_is_the_sum_of_its_need,
    a_write_costs_less_as_it_goes_on, a_wrong_operand_costs_nothing, no_bound_is_above_39040,
};
pub use processes::{
    a_pid_is_never_used_again, an_error_changes_the_control_alone, answers_keep_a_family,
    nobody_outlives_the_first_process, processes_are_a_family, two_processes_have_a_history,
    two_processes_run,
};
pub use relief::{
    a_call_that_waits_is_helped, a_kill_is_the_last_resort, a_turn_leaves_the_calls_of_others,
    relief_goes_on, the_live_of_a_kill_tells_that_nothing_is_left,
};
pub use runs::{
    a_picked_run_is_a_run, charged_stays_within_the_heap, entries_are_a_legal_history,
    events_are_listed_where_they_may_be_taken, every_state_is_sound, no_reply_wants_memory,
    nothing_else_is_its_run, refusals_stand_above_the_room, something_can_be_taken,
    the_first_script_runs, the_generator_is_this_one, what_is_picked_is_enabled,
};
