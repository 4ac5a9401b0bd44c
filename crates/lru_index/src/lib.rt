//! The order of use: an index from keys to slots, which knows which key was used longest ago.
//!
//! Keys stand in buckets, so that the place of each one is found among a few, and a table has at
//! that place the key with its slot, and the places of those that were used just before and just
//! after it. So each call looks through one bucket, and writes a few places of the table; none goes
//! along the order of use. All memory is reserved by `Index::boot`, which writes the buckets alone.
#![tactic(auto)]

mod buckets;
mod chain;
mod index;
mod keys;
mod names;

pub use index::Index;
pub use keys::{Key, NameKey};
pub use names::names_have_keys_of_their_own;
