//! What an attempt to reserve answers.

/// The answer of `Charge::try_reserve`, in bytes of the heap.
#[derive(Clone, Copy, PartialEq)]
pub enum Reserved {
    /// The seat holds what it asked for.
    Granted,
    /// The word that was loaded has no room for it.
    Short { charged: u64 },
    /// Another seat changed the word between the load and the exchange.
    Raced { loaded: u64, found: u64 },
}
