//! What a turn adds to the history.

use kabi_types::{Cached, Entry};

/// One item of the history. Each turn adds one.
#[derive(Drop)]
pub enum Item {
    /// An entry other than `Evicted`.
    Noted(Entry),
    /// The entry `Evicted` of this cache, with the live bytes before it.
    Cleared { what: Cached, live: u64 },
    /// This process was given to the seat.
    Given(u32),
    /// This process was given back.
    Back(u32),
    /// The first process waits for heap, and nothing can be freed for it.
    Starved,
    /// The live bytes, as they were told to one that waits for heap.
    Live(u64),
    /// Nothing.
    Quiet,
}
