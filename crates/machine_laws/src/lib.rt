//! The laws of the plain machine with all its calls: what a call does to files, what every machine that is reached keeps, and what
//! separates processes. Each is the contract of a function that does nothing.
#![tactic(auto)]

mod ended;
mod fifos;
mod frames;
mod halves;
mod locks;
mod offsets;
mod own;
mod pipes;
mod queues;
mod runs;
mod sharing;
mod signals;
mod sockets;
mod steps;
mod trees;
mod turns;
mod whole;

pub use ended::{
    every_description_is_named, what_is_open_is_named_in_every_machine,
    who_has_ended_has_nothing_open,
};
pub use fifos::{
    a_fifo_has_one_pipe, an_open_wakes_where_the_other_side_was_opened,
    without_mkfifo_all_is_as_before,
};
pub use frames::{a_shared_frame_is_written_by_nobody, pages_of_a_frame_have_its_bytes};
pub use halves::who_is_half_done_stands_at_a_write_or_an_open;
pub use locks::{
    a_circle_is_a_chain, a_circle_is_refused_and_never_slept_in,
    no_two_processes_hold_a_place_that_they_cant_share, who_has_ended_holds_no_lock,
    without_locks_all_is_as_before,
};
pub use offsets::offsets_in_directories_stand_between_entries;
pub use own::{
    a_child_begins_with_what_its_parent_has, another_call_leaves_alone,
    kills_and_refusals_leave_alone,
};
pub use pipes::pipes_count_their_ends;
pub use queues::what_is_written_to_a_pipe_is_read_in_order;
pub use runs::{
    an_entry_of_another_leaves_alone, entries_of_others_leave_its_own, who_has_ended_stays_so,
};
pub use sharing::an_offset_is_shared;
pub use signals::{
    a_write_that_ends_its_caller_moved_nothing, no_kill_ends_the_first_process,
    who_ignores_a_signal_is_not_ended_by_it, without_signal_all_is_as_before,
};
pub use sockets::{each_socket_is_named_once_or_waits, who_waits_has_no_name};
pub use steps::every_answer_takes_a_step;
pub use trees::a_call_that_reaches_no_node_leaves_the_tree;
pub use turns::turns_lead_to_machines_that_are_reached;
pub use whole::{
    every_machine_that_is_reached_is_whole, the_machine_of_a_history_is_whole,
    valid_scripts_have_texts,
};
