//! The token with which a thread takes its turns.

use crate::TurnView;
use atomic_table::Seat;
use std::marker::Model;

/// A seat of a `Turns`. A clause sees which `Turns` it belongs to, and its view.
///
/// Where a seat with a ticket is dropped, no later ticket is ever served.
#[derive(Drop)]
pub struct TurnSeat<T> {
    pub(crate) ticket: u64,
    pub(crate) seat: Seat<Option<T>, TurnView<T>>,
}

impl<T> Model for TurnSeat<T> {
    ghost use Rattle.turn_words.specs.Seats.{SeatState, seat_of, IsSeat};

    ghost Value = { SeatState T };

    ghost view = { λ s. seat_of s.seat.table_id s.seat.me.0 };

    ghost invariant = { λ s. IsSeat s.ticket s.seat.me };
}
