//! Queues of bytes, over lists: what is unread, where in its chunk of 512 bytes the first unread byte stands, and how many
//! chunks a queue takes. Fronts and chunks are kept by the same change as the bytes, and not counted anew from lengths.
#![tactic(auto)]

mod bits;
pub mod laws;
mod moving;
mod queue;

pub use bits::{POLLERR, POLLHUP, POLLIN, POLLOUT, event_if, has_flag};
pub use moving::Moving;
pub use queue::Queue;
