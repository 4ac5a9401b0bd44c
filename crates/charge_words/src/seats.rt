//! The token with which a thread steps on a charge word.

use crate::ChargeView;
use atomic_table::Seat;
use std::marker::Model;

/// A seat of a charge word. A clause sees which charge it belongs to, and its view.
///
/// A seat that is dropped takes what it holds with it: the word never gets it back.
#[derive(Drop)]
pub struct ChargeSeat {
    pub(crate) holds: u64,
    pub(crate) seat: Seat<(), ChargeView>,
}

impl Model for ChargeSeat {
    ghost use Rattle.std.specs.Prelude.{◌≡◌, ◌%◌, ◌^◌, [], false};
    ghost use Rattle.charge_words.specs.Names.{SeatState, seat_of, word_of};

    ghost Value = { SeatState };

    ghost view = { λ s. seat_of (word_of s.seat.table_id s.seat.me.0.heap) s.seat.me.0 };

    // A join adds before any step tells that the sum is at most the heap, so the number is kept modulo 2^64.
    ghost invariant = { λ s. (s.seat.me.1 ≡ []) × (s.seat.me.0.is_spent ≡ false) × (s.holds ≡ s.seat.me.0.holds % 2 ^ 64) };
}
