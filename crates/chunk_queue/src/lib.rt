//! A queue of bytes in chunks of the kernel's heap.
//!
//! Bytes are put behind the others, into the last chunk and then into new ones, and taken from the front. A chunk goes
//! back to the heap as soon as it has no unread byte.
#![tactic(auto)]

pub mod laws;
mod moved;
mod polled;
mod queue;
mod room;

pub use moved::Moved;
pub use polled::{POLLERR, POLLHUP, POLLIN, POLLOUT, event_if};
pub use queue::Queue;
pub use room::{fitting, room_in};
