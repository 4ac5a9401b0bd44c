//! What each kind of atomic step tells its seat.

use crate::TurnView;
use crate::rule::Chronicle;
use atomic_table::{Join, Play, Split};
use std::marker::{Brand, PhantomData};

/// A ticket is drawn.
pub struct Draw;

impl<T> Play<Option<T>, TurnView<T>> for Draw {
    ghost use Rattle.turn_words.specs.Rule.{Draws};

    ghost then = { Draws };
}

/// The serving word is loaded, and the view names it.
pub struct Look;

impl<T> Play<Option<T>, TurnView<T>> for Look {
    ghost use Rattle.turn_words.specs.Rule.{Looks};

    ghost then = { Looks };
}

/// The slot comes out, with the value.
pub struct SlotOut;

impl<T: Chronicle> Play<Option<T>, TurnView<T>> for SlotOut {
    ghost use Rattle.turn_words.specs.Rule.{TakesOut};

    ghost then = { TakesOut T.stands };
}

/// The view names the value that the slot is to get.
pub struct Note;

impl<T: Chronicle> Play<Option<T>, TurnView<T>> for Note {
    ghost use Rattle.turn_words.specs.Rule.{Notes};

    ghost then = { Notes T.stands };
}

/// The slot goes back, with the value that the view names.
pub struct SlotIn;

impl<T> Play<Option<T>, TurnView<T>> for SlotIn {
    ghost use Rattle.turn_words.specs.Rule.{PutsIn};

    ghost then = { PutsIn };
}

/// The item that a turn is passed on with. Each call picks it, since a step sees no argument.
pub trait Passed {
    ghost use Rattle.turn_words.specs.declared.items.Item.{Item};

    ghost item: { Item };
}

impl Passed for Brand {
    ghost use Rattle.turn_words.specs.declared.items.Item.TheVariants.{Quiet};

    ghost item = { Quiet };
}

/// The turn is passed on with this item.
pub struct PassOn<J> {
    item: PhantomData<J>,
}

impl<T, J: Passed> Play<Option<T>, TurnView<T>> for PassOn<J> {
    ghost use Rattle.turn_words.specs.Rule.{PassesOn};

    ghost then = { PassesOn J.item };
}

/// The seat of `boot` makes one more seat, which has seen as much.
pub struct NewSeat;

impl<T> Split<TurnView<T>> for NewSeat {
    ghost use Rattle.turn_words.specs.Rule.{with_one_more, newcomer};

    ghost left = { with_one_more };

    ghost right = { newcomer };
}

/// The seat of `boot` takes in what another has seen and passed on. That one is spent.
pub struct TakeIn;

impl<T> Join<TurnView<T>> for TakeIn {
    ghost use Rattle.turn_words.specs.Rule.{taken_in, spent};

    ghost both = { taken_in };

    ghost spent = { spent };
}

/// A load that changes nothing, and tells that what was met is a beginning of what was seen.
pub struct Compare;

impl<T> Play<Option<T>, TurnView<T>> for Compare {
    ghost use Rattle.turn_words.specs.Rule.{Compares};

    ghost then = { Compares };
}
