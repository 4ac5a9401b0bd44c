//! A value that threads use in turn, by tickets, and the one history of what they did with it.
//!
//! A `Turns` is shared by reference. Each thread steps with a `TurnSeat` of its own: it draws a ticket, looks until the
//! ticket is served, takes the value, puts it back, and passes the turn on with one item of the history. No call waits,
//! and none after `boot` takes memory. The history itself stands in proofs alone: a seat is one number, and the table two
//! words and a slot. The rule that each atomic step keeps stands in `specs/Rule.antt`.
#![tactic(auto)]

mod crossing;
mod items;
mod laws;
mod rule;
mod seats;
mod steps;
mod turns;

pub use crossing::crosses_threads;
pub use items::Item;
pub use laws::{each_ticket_out_stands_in_one_view, what_is_noted_goes_on};
pub use rule::{Chronicle, TurnView};
pub use seats::TurnSeat;
pub use turns::Turns;
