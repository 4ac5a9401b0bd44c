//! Descriptors and open descriptions in the kernel's heap: the descriptors of one process by number, and how a description
//! is shared and dropped. Those of the numbers from 32 on stand in Leaves, each of which is in the heap exactly while one of its
//! numbers is open.
//!
//! A description counts the descriptors that name it. With the last one it goes, and what it was open on is closed: an end
//! of a pipe, or a socket with those that wait for it. A node is closed by the caller, who is told its number, that of a FIFO too.
#![tactic(auto)]

mod descriptions;
mod descriptors;
mod laws;
mod leaves;

pub use descriptions::{close_desc, drop_desc, share_desc, share_descs};
pub use descriptors::{Descs, descriptor_of, lowest_of, open_count, polled};
pub use laws::descriptions_count_their_descriptors;
pub use leaves::copy_numbers;
