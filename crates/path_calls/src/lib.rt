//! A turn of each call that looks along a path or changes names of the tree of files leads the objects of a store to what the call's
//! definition says: `stat`, `chdir`, `mkdir`, `rmdir`, `unlink`, `link`, `rename` and `mkfifo`.
#![tactic(auto)]

mod directories;
mod held;
mod names;
mod node_set;
mod replies;
mod telling;
mod working;

pub use directories::{mkdir, mkfifo, rmdir};
pub use names::{link, rename, unlink};
pub use telling::stat;
pub use working::chdir;
