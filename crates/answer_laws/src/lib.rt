//! Laws of what the calls of the plain machine are answered: each answer has one of thirteen shapes. Each is the contract of a
//! function that does nothing.
#![tactic(auto)]

mod answers;
mod parts;

pub use answers::{
    an_error_changes_the_control_alone_of_all_calls, every_answer_has_a_shape,
    no_reply_of_any_call_wants_memory, seven_calls_alone_may_block,
};
pub use parts::a_write_goes_on_in_parts;
