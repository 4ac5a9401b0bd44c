//! The calls of a process on what stands in the tree of files, as the machine answers them: on descriptions of files and
//! directories, and on names of sockets, over heap, table of processes, tree and the table of names.
//!
//! Each leaves the table of processes as it was. A node is held by each description that is open on it, and by others: the root by
//! itself, the working directory of a process by that one, and its name by a socket. The table of names has for each node the key
//! of the socket that is bound to it, so who listens under a name is found at once. A socket loses its name before it closes, and
//! when its name is taken from the tree: the table never has a socket that has gone. Of `exec` this is the part that a program is
//! found by.
#![tactic(auto)]

mod binding;
mod closing;
mod connecting;
mod directories;
mod ending;
pub mod holding_laws;
pub mod laws;
mod naming;
mod nodes;
mod opening;
mod reading;
mod seeking;
mod sharing;
mod sizing;
mod spaces;
mod starting;
mod telling;
mod writing;

pub use binding::bind_number;
pub use closing::close_number;
pub use connecting::connect_number;
pub use ending::{close_at_exec, close_each};
pub use naming::name_freed;
pub use opening::{Opened, open_path};
pub use reading::{pread_file, read_entries, read_file};
pub use seeking::seek_number;
pub use sharing::dup_number;
pub use sizing::size_number;
pub use spaces::{FileBuffer, MOST_MOVED};
pub use starting::program_for;
pub use telling::stat_number;
pub use writing::{pwrite_file, write_file};
