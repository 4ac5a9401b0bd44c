//! Pipes over lists, those of FIFOs too: each call on one as it is defined, with nothing of the heap. What a read or a write
//! comes to is asked first, and changes nothing; then the pipe changes, and the front of its queue with it.
#![tactic(auto)]

pub mod laws;
mod pipe;
mod pipes;

pub use pipe::Pipe;
pub use pipes::Pipes;
