//! Room for the bytes that a call moves.

/// The most bytes that a pipe holds, and so the most that one call moves.
pub const CAPACITY: usize = 4096;

/// Room for the bytes that one call moves. It is reserved once and lent to each call: room of a call's own would have to be
/// cleared each time.
pub type Buffer = [u8; CAPACITY];
