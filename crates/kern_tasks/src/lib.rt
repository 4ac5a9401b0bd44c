//! What a core stands on: its tasks, which tell how far each process is with its call, and the laws of what each event
//! leads to, over any store.
#![tactic(auto)]

mod notes;
mod others;
mod phases;
mod runnable;
mod tasks;

pub use notes::{entry_of, last_noted, leaves_asleep, may_end, note};
pub use others::{count_present, present_at};
pub use phases::is_admitted;
pub use runnable::{place_at, sort_anew, sort_stirred, sort_turned};
pub use tasks::{
    add_born, all_have_events, bury, bury_ended, first_going, first_waiting, is_alone, phase_of,
    remove, set_phase, some_within, some_without,
};
