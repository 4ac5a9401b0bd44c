//! That threads share a `Turns`, and that a seat goes from one to another.
ghost use Rattle.std.specs.Thread.{IsSend, IsSync};
ghost use Rattle.turn_words.specs.contracts.seats.TurnSeat.{the_row as seat_row};
ghost use Rattle.turn_words.specs.contracts.turns.Turns.{the_row as turns_row};

use crate::rule::Chronicle;

/// Where a value may cross threads, its turns are `Send` and `Sync`, and a seat is `Send`.
pub fn crosses_threads<T: Chronicle + Send>()
    ensures turns { IsSend (turns_row T.row T.Chronicle) × IsSync (turns_row T.row T.Chronicle) }
    ensures seat { IsSend (seat_row T.row) }
{}
