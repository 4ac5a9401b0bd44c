use kabi_types::PollList;

/// What a call may wait for, with the operands that tell whether it does: each call that may block has a case. They are as the
/// script gave them, and aren't checked yet.
#[derive(Drop)]
pub enum Awaited {
    /// A child that has ended, for `waitpid`: its pid or -1 for any child, and the options.
    Child {
        pid: i64,
        options: i64,
    },
    /// Bytes that can be read, for `read`.
    Bytes {
        fd: i64,
        addr: i64,
        n: i64,
    },
    /// Room for bytes, for `write`: `done` of the `n` are moved.
    Room {
        fd: i64,
        addr: i64,
        n: i64,
        done: u32,
    },
    /// A peer that connects, for `accept`.
    Peer {
        fd: i64,
    },
    /// One of several events, for `poll`.
    Events {
        timeout: i64,
        entries: PollList,
    },
    /// The other side of a FIFO, for `open`. Whether it waits, and for which, is known by who opens it.
    OtherSide,
    /// No lock of another in the way of a range, for `setlkw`.
    Lock {
        fd: i64,
        kind: i64,
        start: i64,
        length: i64,
    },
}
