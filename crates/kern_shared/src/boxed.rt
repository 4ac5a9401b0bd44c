//! The kernel's value behind a box, so that a turn hands on no more than a word and a bit however large the store is.
ghost use Rattle.std.specs.Prelude.{◌≡◌, ◌++◌, ◌∷◌, ◌&&◌, List, [], IfOk, true};
ghost use Rattle.charge_words.specs.Names.{seat_of};
ghost use Rattle.charge_words.specs.Rule.{loaded};
ghost use Rattle.posix_defs.specs.History.{Past};
ghost use Rattle.turn_words.specs.declared.items.Item.{Item};
ghost use Rattle.turn_words.specs.declared.items.Item.TheVariants.{Back};
ghost use Rattle.turn_words.specs.Items.{is_given, said};
ghost use Rattle.kern_shared.specs.Attends.{HasReserved, HoldsCall, IsUnused, ReservesNothing, TakesIn, TellsSpent, reserved_for, told_item};
ghost use Rattle.kern_shared.specs.Boxed.{is_idle, is_quiet};
ghost use Rattle.kern_shared.specs.Closing.{Closes};
ghost use Rattle.kern_shared.specs.Picks.{Picks, picked_item};
ghost use Rattle.kern_shared.specs.declared.picks.Picked.TheVariants as picked;
ghost use Rattle.kern_shared.specs.Relieves.{Relieves};
ghost use Rattle.kern_shared.specs.Shared.{IsShared};

use crate::{Attended, Closed, KernelState, Picked, RunName};
use charge_words::{Charge, ChargeSeat};
use kabi_types::{Call, Memory};
use kern_events::Relief;
use posix_defs::Turner;
use std::alloc::Global;
use turn_words::{Chronicle, Item};

/// Whether a pick found nobody to give, though the run isn't over.
fn is_idle(picked: &Picked) -> bool
    ensures { result ≡ is_idle picked.now }
{
    matches!(picked, Picked::Idle)
}

/// Whether nobody is found still behind this item: where nobody was, and it changes nothing of what the value stands for.
fn still_idle(idle: bool, item: &Item) -> bool
    ensures { result ≡ (idle && is_quiet item.now) }
{
    idle && matches!(item, Item::Quiet)
}

/// The value of a kernel in a block of its own, and whether a pick has found nobody to give and nothing has changed since: then the
/// next pick asks nobody. It stands for what the value stands for.
#[derive(Drop)]
pub struct BoxedState<T: Turner + Drop, L: RunName> {
    inside: Box<KernelState<T, L>>,
    idle: bool,
}

impl<T: Turner + Drop, L: RunName> Chronicle for BoxedState<T, L> {
    ghost use Rattle.kern_shared.specs.Boxed.{IsBoxed};

    ghost stands = { λ state. IsBoxed ⟦<KernelState<T, L> as Chronicle>⟧.stands L.script L.steps state.inside.value state.idle state.inside.value.seat.known.reserves };
}

impl<T: Turner + Drop, L: RunName> BoxedState<T, L> {
    /// Puts a value at boot into a block. Where there is none, the value is dropped.
    pub(crate) fn new(alloc: Global, state: KernelState<T, L>) -> Result<BoxedState<T, L>, Memory>
        requires stands { ⟦<KernelState<T, L> as Chronicle>⟧.stands state [] }
        requires unused { state.seat.known.reserves ≡ 0 }
        ensures { IfOk result (λ boxed. ⟦<BoxedState<T, L> as Chronicle>⟧.stands boxed []) }
    {
        match Box::new(alloc, state) {
            Ok(inside) => Ok(BoxedState {
                inside,
                idle: false,
            }),
            Err(_) => Err(Memory),
        }
    }

    /// As `KernelState::pick_next`. Where a pick found nobody and nothing has changed since, it asks nobody and finds nobody.
    pub(crate) fn pick_next(&mut self) -> Picked
        requires { (items : List Item) × ⟦<BoxedState<T, L> as Chronicle>⟧.stands self.old items }
        ensures picks { (items : List Item) (past : Past) → ⟦<BoxedState<T, L> as Chronicle>⟧.stands self.old items → IsShared L.script L.steps items past
            → Picks L.script L.steps items past result }
        ensures stands { (items : List Item) → ⟦<BoxedState<T, L> as Chronicle>⟧.stands self.old items
            → ⟦<BoxedState<T, L> as Chronicle>⟧.stands self.new (items ++ said (picked_item result)) }
        ensures told { self.old.idle ≡ true → result ≡ picked.Idle }
        ensures idle { self.new.idle ≡ is_idle result }
        ensures seat { self.new.inside.value.seat ≡ self.old.inside.value.seat }
    {
        if self.idle {
            return Picked::Idle;
        }
        let picked = self.inside.pick_next();
        self.idle = is_idle(&picked);
        picked
    }

    /// As `KernelState::turn_held`.
    pub(crate) fn turn_held(
        &mut self,
        word: &Charge,
        own: &mut ChargeSeat,
        pid: u32,
        call: &Call,
    ) -> Attended
        requires held { (items : List Item) × ⟦<BoxedState<T, L> as Chronicle>⟧.stands self.old items × HoldsCall L.script L.steps items pid call.now }
        requires word { word.now ≡ L.charge }
        requires own { (own.old.charge ≡ L.charge) × (own.old.known.holds ≡ reserved_for L.script call.now) }
        requires reserved { HasReserved L.script call.now own.old.known }
        ensures stands { (items : List Item) → ⟦<BoxedState<T, L> as Chronicle>⟧.stands self.old items → HoldsCall L.script L.steps items pid call.now
            → ⟦<BoxedState<T, L> as Chronicle>⟧.stands self.new (items ++ told_item pid call.now result ∷ []) }
        ensures tells { (items : List Item) → ⟦<BoxedState<T, L> as Chronicle>⟧.stands self.old items → TellsSpent L.steps items result }
        ensures own { (own.new.charge ≡ L.charge) × (own.new.known.holds ≡ 0) × IsUnused own.new.known }
        ensures takes_in { TakesIn self.old.inside.value.seat.known self.new.inside.value.seat.known own.old.known }
    {
        self.idle = false;
        self.inside.turn_held(word, own, pid, call)
    }

    /// As `KernelState::relieve_now`.
    pub(crate) fn relieve_now(&mut self, word: &Charge, own: &mut ChargeSeat) -> (Relief, Item)
        requires stands { (items : List Item) × ⟦<BoxedState<T, L> as Chronicle>⟧.stands self.old items }
        requires word { word.now ≡ L.charge }
        requires own { own.old.charge ≡ L.charge }
        ensures own { own.new ≡ seat_of L.charge (loaded own.old.known own.new.known.last) }
        ensures stands { (items : List Item) → ⟦<BoxedState<T, L> as Chronicle>⟧.stands self.old items
            → ⟦<BoxedState<T, L> as Chronicle>⟧.stands self.new (items ++ said result.1) }
        ensures relieves { (items : List Item) (past : Past) → ⟦<BoxedState<T, L> as Chronicle>⟧.stands self.old items → IsShared L.script L.steps items past
            → Relieves L.script L.steps items past own.new.known.last result.0 result.1 }
        ensures idle { self.new.idle ≡ (self.old.idle && is_quiet result.1) }
        ensures nothing { ReservesNothing self.old.inside.value.seat.known self.new.inside.value.seat.known }
    {
        let (relief, item) = self.inside.relieve_now(word, own);
        self.idle = still_idle(self.idle, &item);
        (relief, item)
    }

    /// As `KernelState::release_held`.
    pub(crate) fn release_held(&mut self, pid: u32)
        ensures stands { (items : List Item) → ⟦<BoxedState<T, L> as Chronicle>⟧.stands self.old items → is_given pid items ≡ true
            → ⟦<BoxedState<T, L> as Chronicle>⟧.stands self.new (items ++ Back pid ∷ []) }
        ensures seat { self.new.inside.value.seat ≡ self.old.inside.value.seat }
    {
        self.idle = false;
        self.inside.release_held(pid);
    }

    /// As `KernelState::close`.
    pub(crate) fn close(self, word: &Charge) -> Closed<T>
        requires stands { (items : List Item) × ⟦<BoxedState<T, L> as Chronicle>⟧.stands self items }
        requires word { word.now ≡ L.charge }
        ensures { (items : List Item) (past : Past) → ⟦<BoxedState<T, L> as Chronicle>⟧.stands self items → IsShared L.script L.steps items past
            → Closes T.stands T.script T.beside L.script L.steps items past result.history result.end result.charged result.store }
    {
        Box::into_inner(self.inside).close(word)
    }
}
