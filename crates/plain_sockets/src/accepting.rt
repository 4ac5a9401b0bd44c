use kabi_types::Errno;

/// What an accept comes to, before anything changes.
#[derive(Clone, Copy, PartialEq)]
pub enum Accepting {
    /// It takes the socket of this place, which waits first.
    Takes(u32),
    /// It would block.
    Waits,
    /// It is refused.
    Refuses(Errno),
}
