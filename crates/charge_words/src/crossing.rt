//! That threads share a charge word, and that a seat goes from one to another.
ghost use Rattle.std.specs.Thread.{IsSend, IsSync};
ghost use Rattle.charge_words.specs.contracts.charges.Charge.{the_row as charge_row};
ghost use Rattle.charge_words.specs.contracts.seats.ChargeSeat.{the_row as seat_row};

/// A charge is `Send` and `Sync`, and a seat is `Send`.
pub fn crosses_threads()
    ensures charge { IsSend charge_row × IsSync charge_row }
    ensures seat { IsSend seat_row }
{}
