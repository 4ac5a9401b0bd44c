//! The kernel that several passes share, and what a pass asks of it.
ghost use Rattle.std.specs.Prelude.{◌≡◌, ℕ, ◌+◌, ◌<◌, ◌≤◌, None, Some, IfSome, IsSome, cond, nat_le};
ghost use Rattle.posix_defs.specs.Sizes.{room};
ghost use Rattle.kabi_types.specs.declared.calls.Call.{Call};
ghost use Rattle.charge_words.specs.Names.{seat_of};
ghost use Rattle.charge_words.specs.Rule.{loaded};
ghost use Rattle.turn_words.specs.Items.{heard};
ghost use Rattle.kern_shared.specs.Attends.{HoldsCall, ReservesNothing};
ghost use Rattle.kern_shared.specs.Passes.{AttendsTo, HoldsPicked, IsAtRest, Loads, PicksInTurn, RelievesInTurn, ReturnsInTurn, given_behind, given_by};

use crate::attends::item_of_answer;
use crate::naming::RunCharge;
use crate::picks::item_of_pick;
use crate::served::{begin, end};
use crate::state::FIXED;
use crate::{Attended, BoxedState, Pass, Picked, RunName};
use charge_words::{ChargeSeat, Reserved};
use kabi_types::Call;
use kern_events::Relief;
use need_table::bound;
use posix_defs::Turner;
use std::sync::Wait;
use std::thread;
use turn_words::{Chronicle, Item, Turns};

/// The process that a pass holds behind a pick.
fn given_by(picked: &Picked) -> Option<u32>
    ensures { result ≡ given_by picked.now }
{
    match picked {
        Picked::Run { pid, .. } => Some(*pid),
        Picked::Idle | Picked::Over(_) => None,
    }
}

/// A kernel that several passes share.
#[derive(Drop)]
pub struct Kernel<T: Turner + Drop, L: RunName> {
    pub(crate) turns: Turns<BoxedState<T, L>>,
    pub(crate) charge: RunCharge<L>,
}

impl<T: Turner + Drop, L: RunName> Kernel<T, L> {
    /// Reserves so many bytes, and tries again where another seat came in between. Where there is no room, what is charged.
    fn reserve<R: Wait>(&self, rt: &R, own: &mut ChargeSeat, needed: u64) -> Option<u64>
        requires charge { own.old.charge ≡ L.charge }
        requires empty { own.old.known.holds ≡ 0 }
        ensures charge { own.new.charge ≡ L.charge }
        ensures reserved { result ≡ None → own.new.known.holds ≡ needed }
        ensures once { result ≡ None → (own.new.known.reserves ≡ own.old.known.reserves + 1) × (own.new.known.raised ≡ own.old.known.raised + needed) }
        ensures short { IfSome result (λ charged. (own.new.known.holds ≡ 0) × (charged ≤ (L.script).heap) × ((L.script).heap < charged + needed)
            × Loads own.old.known own.new.known charged) }
        ensures nothing { IfSome result (λ charged. ReservesNothing own.old.known own.new.known) }
    {
        for _ in rt.forever() {
            match self.charge.word.try_reserve(own, needed) {
                Reserved::Granted => return None,
                Reserved::Short { charged } => return Some(charged),
                Reserved::Raced { .. } => thread::yield_now(),
            }
        }
        unreachable!()
    }

    /// Reserves what a call needs, where the heap can ever give so much. Where there is no room now, what is charged.
    fn reserve_for<R: Wait>(&self, rt: &R, own: &mut ChargeSeat, needed: u64) -> Option<u64>
        requires charge { own.old.charge ≡ L.charge }
        requires empty { own.old.known.holds ≡ 0 }
        ensures charge { own.new.charge ≡ L.charge }
        ensures reserved { result ≡ None → own.new.known.holds ≡ cond (nat_le needed (room (L.script).heap)) needed 0 }
        ensures once { result ≡ None → (own.new.known.reserves ≡ own.old.known.reserves + cond (nat_le needed (room (L.script).heap)) 1 0)
            × (own.new.known.raised ≡ own.old.known.raised + cond (nat_le needed (room (L.script).heap)) needed 0) }
        ensures short { IfSome result (λ charged. (own.new.known.holds ≡ 0) × (needed ≤ room (L.script).heap) × (charged ≤ (L.script).heap) × ((L.script).heap < charged + needed)
            × Loads own.old.known own.new.known charged) }
        ensures nothing { IfSome result (λ charged. ReservesNothing own.old.known own.new.known) }
    {
        if needed > self.charge.heap.saturating_sub(FIXED) {
            return None;
        }
        self.reserve(rt, own, needed)
    }

    /// Gives the lowest free process to the pass, where the run isn't over and one is free.
    pub fn pick<R: Wait>(&self, rt: &R, pass: &mut Pass<T, L>) -> Picked
        requires pass { IsAtRest L.script L.steps L.charge self.now.turns pass.old.turn pass.old.own pass.old.given }
        requires none { pass.old.given ≡ None }
        ensures pass { IsAtRest L.script L.steps L.charge self.now.turns pass.new.turn pass.new.own pass.new.given }
        ensures given { pass.new.given ≡ given_by result }
        ensures holds { HoldsPicked L.script L.steps pass.new.turn.known.seen result }
        ensures own { pass.new.own ≡ pass.old.own }
        ensures picks { PicksInTurn ⟦<BoxedState<T, L> as Chronicle>⟧.stands L.script L.steps pass.old.turn.known pass.new.turn.known result }
    {
        let mut state = begin(rt, &self.turns, &mut pass.turn, &mut pass.waited);
        let picked = state.pick_next();
        end(&self.turns, &mut pass.turn, state, item_of_pick(&picked));
        pass.given = given_by(&picked);
        picked
    }

    /// Answers the call of the process that the pass holds. Where its bound is at most what the heap can ever give, the pass first
    /// reserves it, and without a turn answers Short where there is no room; the pass then holds the process still. Else the call has
    /// a turn, and the pass doesn't hold the process behind it: Spent where all steps are used up, Gone where the process has ended,
    /// Refused where the heap can never give so much, else what the call comes to. In every outcome the pass reserves nothing then.
    pub fn attend<R: Wait>(&self, rt: &R, pass: &mut Pass<T, L>, pid: u32, call: &Call) -> Attended
        requires pass { IsAtRest L.script L.steps L.charge self.now.turns pass.old.turn pass.old.own pass.old.given }
        requires given { pass.old.given ≡ Some pid }
        requires holds { HoldsCall L.script L.steps (heard pass.old.turn.known.seen) pid call.now }
        ensures pass { IsAtRest L.script L.steps L.charge self.now.turns pass.new.turn pass.new.own pass.new.given }
        ensures given { pass.new.given ≡ given_behind pass.old.given result }
        ensures attends { AttendsTo ⟦<BoxedState<T, L> as Chronicle>⟧.stands L.script L.steps pass.old.turn pass.new.turn pass.old.own.known pass.new.own.known
            pid call.now result }
    {
        let need = bound(call);
        if let Some(charged) = self.reserve_for(rt, &mut pass.own, need) {
            return Attended::Short { charged, need };
        }
        let mut state = begin(rt, &self.turns, &mut pass.turn, &mut pass.waited);
        let answer = state.turn_held(&self.charge.word, &mut pass.own, pid, call);
        end(
            &self.turns,
            &mut pass.turn,
            state,
            item_of_answer(pid, call, &answer),
        );
        pass.given = None;
        answer
    }

    /// Helps the calls that wait, of all passes, in a turn: the first case that holds, with the word that the pass's charge seat loads
    /// in it. Spent where all steps are used up.
    pub fn relieve<R: Wait>(&self, rt: &R, pass: &mut Pass<T, L>) -> Relief
        requires pass { IsAtRest L.script L.steps L.charge self.now.turns pass.old.turn pass.old.own pass.old.given }
        ensures pass { IsAtRest L.script L.steps L.charge self.now.turns pass.new.turn pass.new.own pass.new.given }
        ensures given { pass.new.given ≡ pass.old.given }
        ensures holds { (pid : ℕ) (call : Call) → pass.old.given ≡ Some pid → HoldsCall L.script L.steps (heard pass.old.turn.known.seen) pid call
            → HoldsCall L.script L.steps (heard pass.new.turn.known.seen) pid call }
        ensures own { pass.new.own ≡ seat_of L.charge (loaded pass.old.own.known pass.new.own.known.last) }
        ensures loads { Loads pass.old.own.known pass.new.own.known pass.new.own.known.last }
        ensures relieves { RelievesInTurn ⟦<BoxedState<T, L> as Chronicle>⟧.stands L.script L.steps pass.old.turn.known pass.new.turn.known
            pass.new.own.known.last result }
    {
        let mut state = begin(rt, &self.turns, &mut pass.turn, &mut pass.waited);
        let (relief, item) = state.relieve_now(&self.charge.word, &mut pass.own);
        end(&self.turns, &mut pass.turn, state, item);
        relief
    }

    /// Gives the process back that the pass holds, unchanged.
    pub fn release<R: Wait>(&self, rt: &R, pass: &mut Pass<T, L>)
        requires pass { IsAtRest L.script L.steps L.charge self.now.turns pass.old.turn pass.old.own pass.old.given }
        requires given { IsSome pass.old.given }
        ensures pass { IsAtRest L.script L.steps L.charge self.now.turns pass.new.turn pass.new.own pass.new.given }
        ensures given { pass.new.given ≡ None }
        ensures own { pass.new.own ≡ pass.old.own }
        ensures returns { IfSome pass.old.given (ReturnsInTurn ⟦<BoxedState<T, L> as Chronicle>⟧.stands L.script L.steps pass.old.turn.known pass.new.turn.known) }
    {
        let Some(pid) = pass.given else {
            unreachable!()
        };
        let mut state = begin(rt, &self.turns, &mut pass.turn, &mut pass.waited);
        state.release_held(pid);
        end(&self.turns, &mut pass.turn, state, Item::Back(pid));
        pass.given = None;
    }
}
