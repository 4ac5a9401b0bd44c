//! A shared kernel at boot, with its passes.
ghost use Rattle.std.specs.Prelude.{◌≡◌, ◌<◌, ◌≤◌, ◌^◌, [], length, true, None, vec_len, vec_capacity, IfOk};
ghost use Rattle.std.specs.List.{AllByRecursion};
ghost use Rattle.posix_defs.specs.Sizes.{fixed};
ghost use Rattle.posix_defs.specs.World.{boot_world};
ghost use Rattle.turn_words.specs.Rule.{opened};
ghost use Rattle.turn_words.specs.Seats.{seat_of};
ghost use Rattle.kern_shared.specs.Closing.{HasLast, IsEmpty, IsFirst};
ghost use Rattle.kern_shared.specs.Passes.{IsAtRest};

use crate::naming::RunCharge;
use crate::{BoxedState, Kernel, KernelState, Pass, RunName};
use charge_words::{Charge, ChargeSeat};
use kabi_types::Memory;
use posix_defs::Turner;
use std::alloc::Global;
use std::marker::PhantomData;
use turn_words::{TurnSeat, Turns};

/// As many seats of the charge word, which hold nothing.
fn split_charge(
    alloc: Global,
    word: &Charge,
    seat: &mut ChargeSeat,
    count: u32,
) -> Result<Vec<ChargeSeat>, Memory>
    requires charge { seat.old.charge ≡ word.now }
    requires boot { seat.old.known.is_boot ≡ true }
    ensures charge { seat.new.charge ≡ word.now }
    ensures boot { seat.new.known.is_boot ≡ true }
    ensures holds { seat.new.known.holds ≡ seat.old.known.holds }
    ensures reserves { seat.new.known.reserves ≡ seat.old.known.reserves }
    ensures seats { IfOk result (λ owns. (vec_len owns ≡ count) × AllByRecursion (IsEmpty word.now) owns.items) }
{
    let mut owns = Vec::with_capacity(alloc, count as usize)?;
    while owns.len() < count as usize {
        owns.push_reserved(word.split(seat));
    }
    Ok(owns)
}

/// Passes for these charge seats. The last has the seat of `boot`, each other one a seat that is split from it.
fn seat_all<T: Turner + Drop, L: RunName>(
    turns: &Turns<BoxedState<T, L>>,
    first: TurnSeat<BoxedState<T, L>>,
    owns: Vec<ChargeSeat>,
    reserved: Vec<Pass<T, L>>,
) -> Vec<Pass<T, L>>
    requires first { first ≡ seat_of turns.now opened }
    requires some { (0 < vec_len owns) × (vec_len owns ≤ 2 ^ 32) }
    requires owns { AllByRecursion (IsEmpty L.charge) owns.items }
    requires room { (reserved.items ≡ []) × (vec_len owns ≤ vec_capacity reserved) }
    ensures count { vec_len result ≡ vec_len owns }
    ensures each { AllByRecursion (λ p. IsAtRest L.script L.steps L.charge turns.now p.turn p.own p.given × (p.given ≡ None)) result.items }
    ensures last { HasLast (λ others last. IsFirst (length others) last.turn) result.items }
{
    let mut first = first;
    let mut left = owns;
    let mut passes = reserved;
    let Some(last) = left.pop() else {
        unreachable!()
    };
    while let Some(own) = left.pop() {
        let turn = turns.split(&mut first);
        passes.push_reserved(Pass {
            turn,
            own,
            given: None,
            waited: false,
        });
    }
    passes.push_reserved(Pass {
        turn: first,
        own: last,
        given: None,
        waited: false,
    });
    passes
}

impl<T: Turner + Drop, L: RunName> Kernel<T, L> {
    /// A kernel over a store at boot, with a pass for each worker. It reserves room for all entries and processes of the run, and no
    /// later call takes memory. Where there is none, what was handed in is dropped.
    pub fn boot(
        alloc: Global,
        store: T,
        steps: u32,
        heap: u64,
        workers: u32,
        charge: Charge,
        seat: ChargeSeat,
    ) -> Result<(Kernel<T, L>, Vec<Pass<T, L>>), Memory>
        requires booted { T.stands store (boot_world (T.script store)) }
        requires script { L.script ≡ T.script store }
        requires steps { L.steps ≡ steps }
        requires charge { L.charge ≡ charge }
        requires heap { heap ≡ (T.script store).heap }
        requires word { charge.heap ≡ (T.script store).heap }
        requires workers { 0 < workers }
        requires seat { seat.charge ≡ charge }
        requires boot { (seat.known.is_boot ≡ true) × (seat.known.others ≡ 0) }
        requires holds { seat.known.holds ≡ fixed }
        requires unused { seat.known.reserves ≡ 0 }
        ensures count { IfOk result (λ r. vec_len r.1 ≡ workers) }
        ensures each { IfOk result (λ r. AllByRecursion (λ p. IsAtRest L.script L.steps L.charge r.0.turns p.turn p.own p.given × (p.given ≡ None)) r.1.items) }
        ensures last { IfOk result (λ r. HasLast (λ others last. IsFirst (length others) last.turn) r.1.items) }
    {
        let mut seat = seat;
        let reserved = Vec::with_capacity(alloc, workers as usize)?;
        let owns = split_charge(alloc, &charge, &mut seat, workers)?;
        let state = KernelState::boot(alloc, store, steps, heap, seat)?;
        let (turns, first) = Turns::boot(alloc, BoxedState::new(alloc, state)?)?;
        let passes = seat_all(&turns, first, owns, reserved);
        let charge = RunCharge {
            word: charge,
            heap,
            run: PhantomData,
        };
        Ok((Kernel { turns, charge }, passes))
    }
}
