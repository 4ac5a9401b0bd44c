//! The calls of a process by its numbers, over heap and table alone, as the machine answers them: what it has open, and how numbers
//! open, close and are shared; pipes and sockets, made, read and written; `poll` of any number.
//!
//! Each changes the heap and leaves the table as it was. Where the machine's answer blocks the call is told to sleep and nothing
//! changes; whether it would is told without making it. What else a call does, to the caller's control and to pins, is its
//! caller's.
#![tactic(auto)]

mod accepting;
mod buffer;
mod closing;
mod controlling;
mod describing;
mod ends;
mod finding;
pub mod laws;
mod lookups;
mod making;
mod meeting;
mod opening;
mod piping;
mod polling;
mod reading;
mod sharing;
mod shutting;
mod spaces;
mod writing;

pub use accepting::{accept_number, accept_waits};
pub use buffer::{Buffer, CAPACITY};
pub use closing::close_one;
pub use controlling::control;
pub use ends::QueueEnd;
pub use finding::{OpenSocket, lowest_from};
pub use lookups::{Found, Named, opened};
pub use making::{make_pair, make_socket};
pub use meeting::is_met;
pub use opening::{count_of, may_be_descriptor, open_one};
pub use piping::make_pipe;
pub use polling::{poll, poll_waits};
pub use reading::{read, read_waits};
pub use sharing::{dup_one, share_at};
pub use shutting::{listen_number, shut_number};
pub use writing::{write, write_breaks, write_waits};
