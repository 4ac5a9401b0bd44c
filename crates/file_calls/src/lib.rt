//! A turn of each call that opens, moves bytes of files and directories, tells or moves where a description stands in them, or names
//! a socket leads the objects of a store to what the call's definition says: `open`, `fstat`, `exec`, `read` and `write` of a number
//! that is open on a node, `pread`, `pwrite`, `readdir`, `lseek`, `ftruncate`, `bind` and `connect`.
#![tactic(auto)]

mod binding;
mod connecting;
mod offsets;
mod opening;
mod reading;
mod replies;
mod starting;
mod telling;
mod writing;

pub use binding::bind;
pub use connecting::connect;
pub use offsets::{ftruncate, lseek};
pub use opening::{open, open_would_block};
pub use reading::{pread, read, readdir};
pub use starting::exec;
pub use telling::fstat;
pub use writing::{pwrite, write};
