//! A turn of each call on processes and on their memory leads the objects of a store to what the call's definition says: `fork`,
//! `waitpid`, `kill`, `exit`, `signal`, `mmap`, `munmap`, `store` and `load`, and the end of who writes what nobody reads. What other calls read and write in a process's memory goes the
//! same way.
//!
//! Processes end by their own call, by a signal, and with the first process. Who ends closes what it has open, leaves its children,
//! and lets its working directory go. What a closing asks of the heap is kept back for it, once for all closings of one end.
#![tactic(auto)]

mod children;
mod endings;
mod ends;
mod maps;
mod moves;
mod signals;
mod spaces;

pub use children::{fork, wait, would_sleep};
pub use endings::{INIT, SIGKILL, end};
pub use ends::{break_off, exit, signal_process};
pub use maps::{mmap, munmap};
pub use moves::{load, store};
pub use signals::signal;
pub use spaces::{put, take};
