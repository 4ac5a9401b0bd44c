//! The laws of the disk: what the bytes of its format say, and when it stands for a tree of files. Each is the contract of
//! a function that does nothing.
#![tactic(auto)]

mod disk_trees;
mod disks;
mod ways;

pub use disk_trees::{
    a_change_of_one_node_stands_for_the_changed_tree, a_disk_stands_for_one_tree,
    a_new_disk_stands_for_the_new_tree, free_blocks_of_the_disk_are_those_of_the_tree,
    free_nodes_of_the_disk_are_those_of_the_tree, names_of_the_disk_are_those_of_the_tree,
    nodes_of_the_disk_are_those_of_the_tree,
};
pub use disks::{
    a_block_of_a_node_is_written, a_directory_has_32_bytes_for_each_entry,
    a_formatted_disk_is_sound, a_name_leads_to_one_node, a_sound_disk_has_a_table,
    bytes_of_a_disk_say_one_thing, free_blocks_are_those_that_no_node_names, one_node_is_replaced,
    what_is_free_is_counted,
};
pub use ways::{
    a_node_has_the_blocks_of_pointers_that_it_needs, every_block_of_bytes_has_its_own_way,
};
