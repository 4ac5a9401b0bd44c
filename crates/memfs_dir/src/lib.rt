//! A directory as the list of its entries, of which the first two are `.` and `..`.
//!
//! Every call works over any `Blocks`, keeps one block's bytes in hand, and copies out the entry or the pointers that it
//! needs of it; `dir_look` alone takes blocks that are looked through where they lie. A place is counted from 0, that of `.`; which entry may go or change is for the caller to say.
#![tactic(auto)]

mod adding;
mod copied;
mod entries;
mod finding;
mod laws;
mod removing;
mod slots;

pub use adding::dir_add;
pub use entries::{dir_entry, dir_node, dir_rename};
pub use finding::{FoundEntry, LookedBlocks, dir_find, dir_look, look_in};
pub use laws::{
    a_full_directory_is_one_of_the_tree, a_look_asks_for_each_block_once,
    a_look_finds_the_names_of_the_tree, a_look_finds_what_the_name_leads_to,
    a_removed_entry_is_not_found, adding_and_removing_undo_each_other,
    an_added_entry_is_found_at_the_end, an_entry_put_in_place_changes_no_other_name,
    calls_change_the_entries_behind_the_dots, calls_on_a_directory_change_the_tree,
    other_directories_keep_their_entries, what_is_listed_are_a_directorys_bytes,
};
pub use removing::dir_remove;
pub use slots::put_entry;
