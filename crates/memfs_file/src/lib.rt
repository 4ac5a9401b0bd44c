//! The bytes of a file: reading, writing and another size, over any `Blocks`.
//!
//! Every call keeps at most one block of bytes in hand beside the file's pointers, which it copies out once, and writes a
//! block that it changes whole without reading it.
#![tactic(auto)]

mod counts;
mod laws;
mod putting;
mod ranges;
mod reading;
mod room;
mod sizing;
mod writing;

pub use laws::{
    a_short_write_has_all_the_room, a_write_is_that_of_the_tree, another_size_is_that_of_the_tree,
    another_size_keeps_the_bytes_within_it, bytes_of_the_disk_are_those_of_the_tree,
    what_was_written_is_read_back,
};
pub use reading::read_at;
pub use room::free_count;
pub use sizing::set_size;
pub use writing::write_at;
