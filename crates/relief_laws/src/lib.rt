//! The laws of relief: an eviction and a kill lower a measure, so no chain of them goes on for ever, and with them a call that waits
//! is helped in the end. Each is the contract of a function that does nothing.
#![tactic(auto)]

mod reliefs;

pub use reliefs::{
    a_kill_lowers_the_measure, an_eviction_lowers_the_measure, relief_helps_in_the_end,
    relief_lowers_the_measure, reliefs_come_to_an_end, reliefs_of_a_history_lower_it,
};
