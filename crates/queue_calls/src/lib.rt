//! A turn of each call on pipes and on sockets without a name leads the objects of a store to what the call's definition says: `read`
//! and `write` of a number that is open on one, `poll` of any, `pipe`, `socket`, `socketpair`, `listen`, `accept` and `shutdown`,
//! and `dup` and `fcntl`, which close nothing, whatever a number is open on. Whether one that may wait would block is told without
//! making it.
#![tactic(auto)]

mod accepting;
mod descriptors;
mod laws;
mod making;
mod operands;
mod pipes;
mod polling;
mod reading;
mod replies;
mod shutting;
mod writing;

pub use accepting::{accept, accept_would_block};
pub use descriptors::{dup, fcntl};
pub use laws::a_socket_is_there_while_it_is_open_or_waits;
pub use making::{socket, socketpair};
pub use pipes::pipe;
pub use polling::{poll, poll_would_block};
pub use proc_numbers::{Buffer, CAPACITY};
pub use reading::{read, read_would_block};
pub use shutting::{listen, shutdown};
pub use writing::{write, write_breaks, write_would_block};
