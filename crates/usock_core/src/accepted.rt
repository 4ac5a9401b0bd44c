//! What `accept` answers.
use kabi_types::Errno;

/// What `accept` answers.
#[derive(Clone, Copy)]
pub enum Accepted {
    /// The key of the socket that waited first.
    Took(u32),
    /// It would have to wait.
    Blocked,
    Fault(Errno),
}
