//! Pipes in the kernel's heap: made with both ends, read, written, polled, and gone with their last end.
//!
//! A read and a write answer what POSIX says of them at once; one that would have to wait says so and changes nothing.
#![tactic(auto)]

mod closing;
pub mod laws;
mod making;
mod opens;
mod polling;
mod reading;
mod writing;

pub use closing::close_end;
pub use making::pipe_make;
pub use opens::{pipe_fifo, pipe_opens};
pub use polling::pipe_polled;
pub use reading::{pipe_read, pipe_read_waits};
pub use writing::{pipe_is_unread, pipe_write, pipe_write_waits};

/// How many bytes a write may have to go whole or not at all (PIPE_BUF).
const WHOLE: u32 = 512;
