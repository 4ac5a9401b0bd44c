use kabi_types::Cached;

/// How calls that wait for room were helped.
#[derive(Clone, Copy, PartialEq)]
pub enum Relief {
    /// No call waits.
    NoneWaiting,
    /// The call of the lowest such pid waits and there is room for it, or it is admitted and holds nothing.
    Fits(u32),
    /// Bytes are in reserve for admitted calls: what is charged and what is live, in bytes.
    Outstanding { charged: u64, live: u64 },
    /// An object went from this cache.
    Evicted(Cached),
    /// This process was killed.
    Killed(u32),
    /// Nothing helps the first process's call, which waits alone. A core says so by its end.
    Starved,
    /// The run has taken all its steps. A core says so by its end.
    Spent,
}
