//! The end of a shared kernel.
ghost use Rattle.std.specs.Prelude.{◌≡◌, ℕ, List, length, None, vec_len};
ghost use Rattle.std.specs.List.{AllByRecursion};
ghost use mathlib.Core.List.{IsPrefix};
ghost use Rattle.posix_defs.specs.History.{Past};
ghost use Rattle.turn_words.specs.declared.items.Item.{Item};
ghost use Rattle.turn_words.specs.Items.{heard};
ghost use Rattle.kern_shared.specs.Closing.{Closes, HasLast, IsFirst, IsFree};
ghost use Rattle.kern_shared.specs.Passes.{IsAtRest};
ghost use Rattle.kern_shared.specs.Shared.{IsShared};

use crate::state::RESERVE;
use crate::{BoxedState, Kernel, KernelState, Pass, RunName};
use charge_words::Charge;
use kabi_types::{End, Entries};
use posix_defs::Turner;
use turn_words::{Chronicle, TurnSeat, Turns};

/// What is left of a shared kernel: the history, the end that stands, what is charged in bytes, and the store.
#[derive(Drop)]
pub struct Closed<T> {
    pub history: Entries,
    pub end: Option<End>,
    pub charged: u64,
    pub store: T,
}

impl<T: Turner + Drop, L: RunName> KernelState<T, L> {
    /// The value at the end, taken apart.
    pub(crate) fn close(self, word: &Charge) -> Closed<T>
        requires stands { (items : List Item) × ⟦<KernelState<T, L> as Chronicle>⟧.stands self items }
        requires word { word.now ≡ L.charge }
        ensures { (items : List Item) (past : Past) → ⟦<KernelState<T, L> as Chronicle>⟧.stands self items → IsShared L.script L.steps items past
            → Closes T.stands T.script T.beside L.script L.steps items past result.history result.end result.charged result.store }
    {
        let end = self.end();
        let KernelState {
            store,
            mut seat,
            history,
            ..
        } = self;
        word.give_back(&mut seat, 0);
        let charged = store.live() + RESERVE;
        Closed {
            history: Entries::from_vec(history),
            end,
            charged,
            store,
        }
    }
}

/// The seat of `boot` takes in what all these passes have seen.
fn gather<T: Turner + Drop, L: RunName>(
    turns: &Turns<BoxedState<T, L>>,
    first: &mut TurnSeat<BoxedState<T, L>>,
    passes: Vec<Pass<T, L>>,
)
    requires first { IsFree turns.now first.old × IsFirst (length passes.items) first.old }
    requires each { AllByRecursion (λ p. IsFree turns.now p.turn) passes.items }
    ensures first { IsFree turns.now first.new × IsFirst 0 first.new }
    ensures own { IsPrefix first.old.known.seen first.new.known.seen }
    ensures each { AllByRecursion (λ p. IsPrefix p.turn.known.seen first.new.known.seen) passes.items }
{
    let mut left = passes;
    while let Some(pass) = left.pop() {
        turns.join(pass.turn, first);
    }
}

impl<T: Turner + Drop, L: RunName> Kernel<T, L> {
    /// Ends the kernel, once all its passes are handed in, of which the last has the seat of `boot`. The history is that of which each of
    /// them has seen a beginning.
    pub fn close(self, passes: Vec<Pass<T, L>>) -> Closed<T>
        requires each { AllByRecursion (λ p. IsAtRest L.script L.steps L.charge self.turns p.turn p.own p.given × (p.given ≡ None)) passes.items }
        requires last { HasLast (λ others last. IsFirst (length others) last.turn) passes.items }
        ensures { (seen : List Item) × (past : Past) × AllByRecursion (λ p. IsPrefix p.turn.known.seen seen) passes.items × IsShared L.script L.steps (heard seen) past
            × Closes T.stands T.script T.beside L.script L.steps (heard seen) past result.history result.end result.charged result.store }
    {
        let Kernel { turns, charge } = self;
        let mut others = passes;
        let Some(last) = others.pop() else {
            unreachable!()
        };
        let mut first = last.turn;
        gather(&turns, &mut first, others);
        turns.close(first).close(&charge.word)
    }
}
