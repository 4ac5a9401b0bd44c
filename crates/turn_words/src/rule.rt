//! What a seat knows, and the rule of the turns.
ghost use Rattle.std.specs.Prelude.{List};
ghost use Rattle.turn_words.specs.declared.items.Item.{Item as AnItem};

use crate::Item;
use atomic_table::TableRule;
use std::collections::LinkedList;

/// A value that stands for a history.
pub trait Chronicle {
    /// The value stands for these items, of which none is Quiet.
    ghost stands: { Self → List AnItem → Type 0 };
}

/// What a seat of a `Turns` knows. It stands in proofs alone: no value of it is made.
pub struct TurnView<T> {
    /// A beginning of the history.
    pub seen: LinkedList<Item>,
    /// The items that this seat has passed on, each with its place in the history.
    pub mine: LinkedList<(u64, Item)>,
    /// What the other of the two seats that were joined last had seen, where that is the shorter one.
    pub met: LinkedList<Item>,
    /// Whether this is the seat of `boot`.
    pub is_boot: bool,
    /// Whether a join took this seat in.
    pub is_spent: bool,
    /// For the seat of `boot`, how many other seats were split and not joined.
    pub others: u64,
    /// How often the seat looked.
    pub looks: u64,
    /// The serving word that the last look loaded.
    pub last: u64,
    /// Whether the seat has a ticket.
    pub has_ticket: bool,
    /// Its number, which doesn't wrap: that of the item that the seat will pass on.
    pub ticket: u64,
    /// Whether a look found the ticket served.
    pub has_turn: bool,
    /// Whether the value is out with this seat.
    pub is_out: bool,
    /// Whether a value was put under this ticket.
    pub has_put: bool,
    /// The value that was put last.
    pub value: Option<T>,
    /// The list that it stands for.
    pub names: LinkedList<Item>,
}

/// The turn rule.
pub struct TurnRule;

impl<T: Chronicle> TableRule<Option<T>, TurnView<T>, ()> for TurnRule {
    ghost use Rattle.turn_words.specs.Rule.{IsKept, opened};

    ghost holds = { λ _. IsKept T.stands };

    ghost first = { λ _. opened };
}
