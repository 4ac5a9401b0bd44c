//! Whom a turn may wake: what the calls that sleep wait for changes by few turns. Each law is the contract of a function that does
//! nothing.
#![tactic(auto)]

mod turns;

pub use turns::{
    a_turn_leaves_others_themselves, a_turn_that_moves_bytes_leaves_its_numbers,
    a_turn_that_moves_bytes_wakes_who_waits_there, a_turn_that_passes_by_leaves_its_numbers,
    a_turn_that_passes_by_wakes_nobody, no_number_outlives_its_process,
};
