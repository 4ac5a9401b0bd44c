//! The turns and their calls. None of them waits.
ghost use Rattle.std.specs.Prelude.{◌≡◌, ◌<◌, ◌≤◌, ◌%◌, ◌^◌, ◌==◌, ◌++◌, ◌∷◌, true, false, [], length, IfOk};
ghost use mathlib.Core.List.{IsPrefix};
ghost use Rattle.turn_words.specs.Items.{heard};
ghost use Rattle.turn_words.specs.Rule.{AreGiven, AreIn, AreLast, IsPutBack, MayGive, MayPut, MayReturn, Told, WasServing, drawing, looking, newcomer, opened, passing, putting, taken_in, taking, with_one_more};
ghost use Rattle.turn_words.specs.Seats.{seat_of};

use crate::rule::{Chronicle, TurnRule};
use crate::steps::{Compare, Draw, Look, NewSeat, Note, PassOn, Passed, SlotIn, SlotOut, TakeIn};
use crate::{Item, TurnSeat, TurnView};
use atomic_table::Table;
use kabi_types::Memory;
use std::alloc::Global;
use std::marker::{Brand, Model};

/// The place of the serving word in the table: the number of the ticket that is served, modulo 2^64.
const SERVING: usize = 0;

/// The place of the ticket word: the number of the next ticket, modulo 2^64.
const TICKET: usize = 1;

/// The one slot.
const SLOT: usize = 0;

/// A value with its turns. A clause sees which ones they are.
#[derive(Drop)]
pub struct Turns<T: Chronicle> {
    table: Table<Option<T>, TurnView<T>, (), TurnRule, Global>,
}

impl<T: Chronicle> Model for Turns<T> {
    ghost use Rattle.std.specs.Prelude.{◌≡◌};
    ghost use Rattle.atomic_table.specs.Seated.{TableId};

    ghost Value = { TableId };

    ghost view = { λ t. t.table.shared.table_id };

    ghost invariant = { λ t. (t.table.shared.table_id.words ≡ 2) × (t.table.shared.table_id.slots ≡ 1) };
}

impl<T: Chronicle> Turns<T> {
    /// A value that stands for no item, with the seat that may split. No later call takes memory. Where there is none,
    /// the value is dropped.
    pub fn boot(alloc: Global, value: T) -> Result<(Turns<T>, TurnSeat<T>), Memory>
    where
        T: Drop,
        requires { T.stands value [] }
        ensures { IfOk result (λ r. r.1 ≡ seat_of r.0 opened) }
    {
        let mut slots = Vec::new(alloc);
        if slots.push(Some(value)).is_err() {
            return Err(Memory);
        }
        match Table::new(alloc, &[0, 0], slots, &()) {
            Ok((table, seat)) => Ok((Turns { table }, TurnSeat { ticket: 0, seat })),
            Err(_) => Err(Memory),
        }
    }

    /// Draws the next ticket, and answers its number, modulo 2^64.
    pub fn draw(&self, seat: &mut TurnSeat<T>) -> u64
        requires turns { seat.old.turns ≡ self.now }
        requires free { seat.old.known.has_ticket ≡ false }
        ensures seat { seat.new ≡ seat_of seat.old.turns (drawing seat.old.known seat.new.known.ticket) }
        ensures ticket { (result ≡ seat.new.known.ticket % 2 ^ 64) × (length seat.old.known.seen ≤ seat.new.known.ticket) }
    {
        let ticket = self
            .table
            .shared
            .fetch_add::<Draw>(&mut seat.seat, TICKET, 1);
        seat.ticket = ticket;
        ticket
    }

    /// Loads the serving word, and says whether it is the seat's ticket. The seat's view names it.
    pub fn look(&self, seat: &mut TurnSeat<T>) -> bool
        requires turns { seat.old.turns ≡ self.now }
        requires ticket { seat.old.known.has_ticket ≡ true }
        ensures seat { seat.new ≡ seat_of seat.old.turns (looking seat.old.known seat.new.known.last) }
        ensures answer { result ≡ (seat.new.known.last == seat.old.known.ticket % 2 ^ 64) }
        ensures word { WasServing seat.old.known seat.new.known.last }
    {
        let serving = self.table.shared.load::<Look>(&mut seat.seat, SERVING);
        serving == seat.ticket
    }

    /// Takes the value, which stands for the whole history. Nobody else has it until it is put back.
    pub fn take(&self, seat: &mut TurnSeat<T>) -> T
        requires turns { seat.old.turns ≡ self.now }
        requires turn { seat.old.known.has_turn ≡ true }
        requires fresh { (seat.old.known.is_out ≡ false) × (seat.old.known.has_put ≡ false) }
        ensures seat { seat.new ≡ seat_of seat.old.turns (taking seat.old.known seat.new.known.seen) }
        ensures seen { IsPrefix seat.old.known.seen seat.new.known.seen × (length seat.new.known.seen ≡ seat.old.known.ticket) }
        ensures value { T.stands result (heard seat.new.known.seen) }
        ensures mine { AreIn seat.old.known.mine seat.new.known.seen × AreGiven seat.old.known.mine (heard seat.new.known.seen) }
        ensures last { AreLast seat.old.known.mine seat.new.known.seen }
    {
        self.table.shared.load::<SlotOut>(&mut seat.seat, SERVING);
        self.table
            .shared
            .exchange(&mut seat.seat, SLOT, None)
            .unwrap()
    }

    /// Puts a value back, which stands for what the one that was taken stood for, with at most one item more.
    pub fn put(&self, seat: &mut TurnSeat<T>, value: T)
        requires turns { seat.old.turns ≡ self.now }
        requires out { seat.old.known.is_out ≡ true }
        requires stands { MayPut T.stands (heard seat.old.known.seen) value }
        ensures seat { seat.new ≡ seat_of seat.old.turns (putting seat.old.known value seat.new.known.names) }
        ensures names { IsPutBack T.stands (heard seat.old.known.seen) value seat.new.known.names }
    {
        match self
            .table
            .shared
            .exchange(&mut seat.seat, SLOT, Some(value))
        {
            None => {}
            Some(_) => unreachable!(),
        }
        self.table.shared.load::<Note>(&mut seat.seat, SERVING);
        self.table.shared.load::<SlotIn>(&mut seat.seat, SERVING);
    }

    /// Passes the turn on with one item, the one that the value put back has more than the value taken, or Quiet.
    pub fn pass_on(&self, seat: &mut TurnSeat<T>, item: Item)
        requires turns { seat.old.turns ≡ self.now }
        requires put { seat.old.known.has_put ≡ true }
        requires more { Told T.stands seat.old.known.value (heard (seat.old.known.seen ++ item ∷ [])) }
        requires returns { MayReturn seat.old.known.mine item }
        requires gives { MayGive (heard seat.old.known.seen) item }
        ensures { seat.new ≡ seat_of seat.old.turns (passing seat.old.known item) }
    {
        self.pass_with::<Brand>(seat, &item);
    }

    /// The same, where the item has a name that the step can read.
    fn pass_with<J: Passed>(&self, seat: &mut TurnSeat<T>, item: &Item)
        requires turns { seat.old.turns ≡ self.now }
        requires item { item.now ≡ J.item }
        requires put { seat.old.known.has_put ≡ true }
        requires more { Told T.stands seat.old.known.value (heard (seat.old.known.seen ++ J.item ∷ [])) }
        requires returns { MayReturn seat.old.known.mine J.item }
        requires gives { MayGive (heard seat.old.known.seen) J.item }
        ensures { seat.new ≡ seat_of seat.old.turns (passing seat.old.known J.item) }
    {
        self.table
            .shared
            .fetch_add::<PassOn<J>>(&mut seat.seat, SERVING, 1);
    }

    /// A new seat, which has seen as much and passed on nothing. Only the seat of `boot` makes one.
    pub fn split(&self, seat: &mut TurnSeat<T>) -> TurnSeat<T>
        requires turns { seat.old.turns ≡ self.now }
        requires boot { seat.old.known.is_boot ≡ true }
        requires few { seat.old.known.others < 2 ^ 32 }
        ensures seat { seat.new ≡ seat_of seat.old.turns (with_one_more seat.old.known) }
        ensures new { result ≡ seat_of self.now (newcomer seat.old.known) }
    {
        let new = self.table.shared.split_seat::<NewSeat>(&mut seat.seat);
        TurnSeat {
            ticket: 0,
            seat: new,
        }
    }

    /// The seat of `boot` takes in what another has seen and passed on. That one is gone then.
    pub fn join(&self, from: TurnSeat<T>, into: &mut TurnSeat<T>)
        requires turns { (from.turns ≡ self.now) × (into.old.turns ≡ self.now) }
        requires free { from.known.has_ticket ≡ false }
        requires boot { into.old.known.is_boot ≡ true }
        ensures seat { into.new ≡ seat_of into.old.turns (taken_in into.old.known from.known) }
        ensures seen { IsPrefix into.old.known.seen into.new.known.seen × IsPrefix from.known.seen into.new.known.seen }
        ensures mine { AreIn into.new.known.mine into.new.known.seen }
    {
        let TurnSeat { ticket: _, seat } = from;
        self.table.shared.join_seat::<TakeIn>(&mut into.seat, seat);
        self.table.shared.load::<Compare>(&mut into.seat, SERVING);
    }

    /// Gives the value back, once every seat that was split is joined. It stands for the whole history, which is what
    /// the seat of `boot` has seen by then.
    pub fn close(self, seat: TurnSeat<T>) -> T
        requires turns { seat.turns ≡ self }
        requires boot { seat.known.is_boot ≡ true }
        requires alone { seat.known.others ≡ 0 }
        requires free { seat.known.has_ticket ≡ false }
        ensures value { T.stands result (heard seat.known.seen) }
        ensures mine { AreIn seat.known.mine seat.known.seen }
    {
        let Turns { table } = self;
        let TurnSeat { ticket: _, seat } = seat;
        let mut closed = table.close_with(seat);
        let value = closed.take(SLOT);
        closed.free();
        value.unwrap()
    }
}
