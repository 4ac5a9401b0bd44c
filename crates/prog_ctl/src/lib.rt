//! Programs run: from a control to its next call, and on behind a reply.
#![tactic(auto)]

mod asked;
mod controls;
mod laws;
mod made;
mod paths;
mod statements;
mod waits;

pub use controls::{
    answer, asked_here, call_here, go_to_call, moved, next_call, restart, wait_here,
};
pub use laws::{
    a_control_may_be_kept_at_its_call, a_program_ends_by_exit_0,
    a_started_program_stands_at_its_first_statement, asked_again_the_call_is_the_same, sums_wrap,
};
pub use waits::Awaited;
