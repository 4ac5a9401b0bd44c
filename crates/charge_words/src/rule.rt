//! What a seat knows, the rule of the charge word, and what each atomic step tells its seat.

use atomic_table::{Join, Play, Split, TableRule};

/// What a seat of a charge word knows, in bytes. It stands in proofs alone: no value of it is made.
pub struct ChargeView {
    /// What the word may hold at most.
    pub heap: u64,
    /// Whether this is the seat of `boot`.
    pub is_boot: bool,
    /// Whether a join took this seat in. It counts nothing from then on.
    pub is_spent: bool,
    /// What the seat holds of the word.
    pub holds: u64,
    /// For the seat of `boot`, how many other seats were split and not joined.
    pub others: u64,
    /// How often the seat loaded the word; a failed exchange loads it too.
    pub loads: u64,
    /// The word that was loaded last.
    pub last: u64,
    /// The word that was loaded before the last one.
    pub earlier: u64,
    /// What the seat held at the last load.
    pub held: u64,
    /// In how many steps the seat reserved; a seat that takes another in adds that one's.
    pub reserves: u64,
    /// How many bytes these steps have added to the word in all.
    pub raised: u64,
}

/// The charge rule. Its key is the heap.
pub struct ChargeRule;

impl TableRule<(), ChargeView, u64> for ChargeRule {
    ghost use Rattle.charge_words.specs.Rule.{IsCharged, opened};

    ghost holds = { IsCharged };

    ghost first = { opened };
}

/// A load, which the view names.
pub struct Load;

impl Play<(), ChargeView> for Load {
    ghost use Rattle.charge_words.specs.Rule.{Loads};

    ghost then = { Loads };
}

/// An exchange that adds to what the seat holds. One that fails is a load.
pub struct Reserve;

impl Play<(), ChargeView> for Reserve {
    ghost use Rattle.charge_words.specs.Rule.{Reserves};

    ghost then = { Reserves };
}

/// A subtraction from the word and from what the seat holds.
pub struct GiveBack;

impl Play<(), ChargeView> for GiveBack {
    ghost use Rattle.charge_words.specs.Rule.{GivesBack};

    ghost then = { GivesBack };
}

/// The seat of `boot` makes one more seat, which holds 0.
pub struct NewSeat;

impl Split<ChargeView> for NewSeat {
    ghost use Rattle.charge_words.specs.Rule.{with_one_more, newcomer};

    ghost left = { with_one_more };

    ghost right = { newcomer };
}

/// The seat of `boot` takes in what another holds, which is spent.
pub struct TakeIn;

impl Join<ChargeView> for TakeIn {
    ghost use Rattle.charge_words.specs.Rule.{taken_in, spent};

    ghost both = { taken_in };

    ghost spent = { spent };
}
