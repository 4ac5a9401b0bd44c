//! The laws of the tree of files, of paths in it and of the calls on paths, with examples computed by hand. Each is the
//! contract of a function that does nothing.
#![tactic(auto)]

mod calls;
mod others;
mod paths;
mod trees;
mod worked;
mod worked_calls;

pub use calls::{calls_on_paths_leave_a_tree, thirty_bytes_tell_the_program};
pub use others::{
    a_rename_goes_step_by_step, other_names_lead_on_to_their_nodes, other_nodes_are_as_they_were,
};
pub use paths::{
    a_last_name_may_be_an_entrys, a_path_leads_to_what_is_there, dots_lead_to_directories,
    ways_up_end_at_the_root,
};
pub use trees::{
    a_changed_file_leaves_a_tree, a_further_name_leaves_a_tree, a_new_root_is_a_tree,
    a_removed_name_is_free, a_rename_over_a_name_moves_the_node,
    a_rename_to_a_new_name_moves_the_node, a_write_goes_as_far_as_there_is_room,
    bytes_are_read_as_they_were_written, what_is_made_is_found, what_was_written_is_read,
};
pub use worked::{
    a_directory_moves_with_its_parent, a_small_disk_is_full_at_12288_bytes,
    calls_on_paths_answer_these, files_are_read_and_started, paths_lead_to_these,
    renames_leave_these_entries, sizes_take_these_blocks, writes_fit_so_far,
};
pub use worked_calls::{
    names_go_and_come_so, nodes_are_made_so, renames_answer_in_this_order,
    renames_leave_these_trees, walks_find_these_kinds,
};
