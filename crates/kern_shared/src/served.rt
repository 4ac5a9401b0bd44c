//! One turn of a value that is shared: it is taken when the seat's ticket is served, and put back with one item behind it.
ghost use Rattle.std.specs.Prelude.{◌≡◌, ◌++◌, true, false};
ghost use Rattle.turn_words.specs.Items.{heard, said};
ghost use Rattle.turn_words.specs.Rule.{MayGive, MayReturn};
ghost use Rattle.kern_shared.specs.Passes.{PutsBack, Takes};

use crossbeam_utils::Backoff;
use std::sync::Wait;
use turn_words::{Chronicle, Item, TurnSeat, Turns};

/// Draws a ticket, waits until it is served, and takes the value. It tells whether the ticket wasn't served at the first look.
pub(crate) fn begin<R: Wait, S: Chronicle>(
    rt: &R,
    turns: &Turns<S>,
    seat: &mut TurnSeat<S>,
    waited: &mut bool,
) -> S
    requires turns { seat.old.turns ≡ turns.now }
    requires free { seat.old.known.has_ticket ≡ false }
    ensures { Takes S.stands seat.old seat.new result }
{
    turns.draw(seat);
    let backoff = Backoff::new();
    *waited = false;
    for _ in rt.forever() {
        if turns.look(seat) {
            return turns.take(seat);
        }
        *waited = true;
        backoff.snooze();
    }
    unreachable!()
}

/// Puts the value back, which stands for what was taken with this item behind it, and passes the turn on with the item.
pub(crate) fn end<S: Chronicle>(turns: &Turns<S>, seat: &mut TurnSeat<S>, value: S, item: Item)
    requires turns { seat.old.turns ≡ turns.now }
    requires out { seat.old.known.is_out ≡ true }
    requires stands { S.stands value (heard seat.old.known.seen ++ said item) }
    requires returns { MayReturn seat.old.known.mine item }
    requires gives { MayGive (heard seat.old.known.seen) item }
    ensures { PutsBack seat.old seat.new value item }
{
    turns.put(seat, value);
    turns.pass_on(seat, item);
}
