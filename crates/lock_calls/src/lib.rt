//! A turn of each call on record locks leads the objects of a store to what the call's definition says: `setlk`, `setlkw` and
//! `getlk`. Whether a `setlkw` would block is told without making it, by who waits for whom.
#![tactic(auto)]

mod claiming;
mod requests;
mod setting;
mod telling;
mod waiting;
mod waits;

pub use setting::{setlk, setlkw};
pub use telling::getlk;
pub use waiting::lock_would_block;
pub use waits::Waits;
