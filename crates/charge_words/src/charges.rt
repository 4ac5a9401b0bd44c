//! The charge word and its calls. None of them waits.
ghost use Rattle.std.specs.Prelude.{◌≡◌, ◌<◌, ◌≤◌, ◌+◌, ◌-◌, ◌^◌, true, IfOk};
ghost use Rattle.charge_words.specs.Names.{seat_of};
ghost use Rattle.charge_words.specs.Rule.{Tells, opened, fresh, holding, loaded, settled, taken_in, with_one_more};
ghost use Rattle.charge_words.specs.Answers.{Answers};

use crate::rule::{ChargeRule, GiveBack, Load, NewSeat, Reserve, TakeIn};
use crate::{ChargeSeat, ChargeView, Reserved};
use atomic_table::Table;
use kabi_types::Memory;
use std::alloc::Global;
use std::marker::Model;

/// What the seat of `boot` holds: a new kernel's live bytes, with the part of the heap that stays reserved.
const BOOT_CHARGE: u64 = 2816;

/// The place of the one word in the table.
const WORD: usize = 0;

/// A charge word. A clause sees which word it is, and its heap.
#[derive(Drop)]
pub struct Charge {
    heap: u64,
    table: Table<(), ChargeView, u64, ChargeRule, Global>,
}

impl Model for Charge {
    ghost use Rattle.std.specs.Prelude.{◌≡◌};
    ghost use Rattle.charge_words.specs.Names.{ChargeWord, word_of};

    ghost Value = { ChargeWord };

    ghost view = { λ c. word_of c.table.shared.table_id c.heap };

    ghost invariant = { λ c. (c.table.shared.table_id.words ≡ 1) × (c.table.shared.key ≡ c.heap) };
}

impl Charge {
    /// A charge word for a heap of so many bytes, with the seat that holds 2816 of them. No later call takes memory.
    pub fn boot(alloc: Global, heap: u64) -> Result<(Charge, ChargeSeat), Memory>
        requires { 2816 ≤ heap }
        ensures { IfOk result (λ r. (r.0.heap ≡ heap) × (r.1 ≡ seat_of r.0 (opened heap))) }
    {
        let (table, seat) = Table::of_words(alloc, &[BOOT_CHARGE], &heap)?;
        let seat = ChargeSeat {
            holds: BOOT_CHARGE,
            seat,
        };
        Ok((Charge { heap, table }, seat))
    }

    /// Loads the word, and adds `n` bytes to it and to what the seat holds where there is room: Short where there is none,
    /// and Raced where another seat changed the word in between. Each word that it found is named in the seat's view.
    pub fn try_reserve(&self, seat: &mut ChargeSeat, n: u64) -> Reserved
        requires { seat.old.charge ≡ self.now }
        ensures charge { seat.new.charge ≡ seat.old.charge }
        ensures answer { Answers self.now.heap n seat.old.known result seat.new.known }
        ensures within { seat.new.known.last ≤ self.now.heap }
    {
        let charged = self.table.shared.load::<Load>(&mut seat.seat, WORD);
        if n > self.heap - charged {
            return Reserved::Short { charged };
        }
        let found = self
            .table
            .shared
            .compare_exchange::<Reserve>(&mut seat.seat, WORD, charged, charged + n);
        if found != charged {
            return Reserved::Raced {
                loaded: charged,
                found,
            };
        }
        seat.holds += n;
        Reserved::Granted
    }

    /// Takes `n` bytes from the word and from what the seat holds, which is at least that.
    pub fn give_back(&self, seat: &mut ChargeSeat, n: u64)
        requires charge { seat.old.charge ≡ self.now }
        requires held { n ≤ seat.old.known.holds }
        ensures seat { seat.new ≡ seat_of seat.old.charge (holding seat.old.known (seat.old.known.holds - n)) }
        ensures room { (seat.old.known.holds ≤ self.now.heap) × (seat.old.known.holds < 2 ^ 64) }
    {
        self.table
            .shared
            .fetch_sub::<GiveBack>(&mut seat.seat, WORD, n);
        seat.holds -= n;
    }

    /// A new seat, which holds 0. Only the seat of `boot` makes one.
    pub fn split(&self, seat: &mut ChargeSeat) -> ChargeSeat
        requires charge { seat.old.charge ≡ self.now }
        requires boot { seat.old.known.is_boot ≡ true }
        ensures seat { seat.new ≡ seat_of seat.old.charge (with_one_more seat.old.known) }
        ensures new { result ≡ seat_of self.now (fresh self.now.heap) }
    {
        let new = self.table.shared.split_seat::<NewSeat>(&mut seat.seat);
        ChargeSeat {
            holds: 0,
            seat: new,
        }
    }

    /// The seat of `boot` takes in what another seat holds, which is gone then. The word stays.
    pub fn join(&self, from: ChargeSeat, into: &mut ChargeSeat)
        requires charge { (from.charge ≡ self.now) × (into.old.charge ≡ self.now) }
        requires boot { into.old.known.is_boot ≡ true }
        ensures { into.new ≡ seat_of into.old.charge (taken_in into.old.known from.known) }
    {
        let ChargeSeat { holds, seat } = from;
        self.table.shared.join_seat::<TakeIn>(&mut into.seat, seat);
        into.holds = into.holds.wrapping_add(holds);
    }

    /// The seat of `boot` takes in what another seat holds and keeps `kept` bytes, at most what both hold. The word gets
    /// the rest back and never rises: nothing is reserved in any step. The answer is a seat that holds 0, in place of the
    /// one that was handed in.
    pub fn settle(&self, from: ChargeSeat, into: &mut ChargeSeat, kept: u64) -> ChargeSeat
        requires charge { (from.charge ≡ self.now) × (into.old.charge ≡ self.now) }
        requires boot { into.old.known.is_boot ≡ true }
        requires kept { kept ≤ into.old.known.holds + from.known.holds }
        ensures into { into.new ≡ seat_of into.old.charge (settled into.old.known from.known kept) }
        ensures new { result ≡ seat_of self.now (fresh self.now.heap) }
        ensures room { into.old.known.holds + from.known.holds ≤ self.now.heap }
    {
        let new = self.split(into);
        self.join(from, into);
        let rest = into.holds.wrapping_sub(kept);
        self.give_back(into, rest);
        new
    }

    /// The word, in bytes. The seat's view names it.
    pub fn charged(&self, seat: &mut ChargeSeat) -> u64
        requires { seat.old.charge ≡ self.now }
        ensures seat { seat.new ≡ seat_of seat.old.charge (loaded seat.old.known result) }
        ensures word { Tells seat.old.known result }
        ensures within { result ≤ self.now.heap }
    {
        self.table.shared.load::<Load>(&mut seat.seat, WORD)
    }
}
