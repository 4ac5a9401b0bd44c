//! Which process is given to a pass, and when the run is over.
ghost use Rattle.std.specs.Prelude.{◌≡◌, ℕ, ◌==◌, ◌||◌, ◌++◌, List, length};
ghost use Rattle.posix_defs.specs.History.{Past};
ghost use Rattle.turn_words.specs.declared.items.Item.{Item};
ghost use Rattle.turn_words.specs.Items.{said};
ghost use Rattle.kern_shared.specs.Picks.{EndsAs, IsLowestFree, IsOverAs, Picks, Says, picked_item};
ghost use Rattle.kern_shared.specs.Shared.{AllAsleep, IsShared};

use crate::lists::{all_block, lowest_ready, lowest_unheld};
use crate::{Held, KernelState, RunName};
use kabi_types::{Call, End};
use need_table::bound;
use posix_defs::Turner;
use turn_words::{Chronicle, Item};

/// What a pass that asks for a process is answered.
#[derive(Drop)]
pub enum Picked {
    /// The pass has this process now, which makes this call.
    Run { pid: u32, call: Call },
    /// No process is free now.
    Idle,
    /// The run is over.
    Over(End),
}

/// The item that a pick passes on.
pub(crate) fn item_of_pick(picked: &Picked) -> Item
    ensures { result ≡ picked_item picked.now }
{
    match picked {
        Picked::Run { pid, .. } => Item::Given(*pid),
        Picked::Idle | Picked::Over(_) => Item::Quiet,
    }
}

impl<T: Turner + Drop, L: RunName> KernelState<T, L> {
    /// Whether all steps are used up.
    pub(crate) fn is_spent(&self) -> bool
        ensures { result ≡ (length self.now.history.items == self.now.steps) }
    {
        self.history.len() == self.steps as usize
    }

    /// Whether every live process sleeps.
    fn all_asleep(&self) -> bool
        requires { (items : List Item) × ⟦<KernelState<T, L> as Chronicle>⟧.stands self.now items }
        ensures { (items : List Item) (past : Past) → ⟦<KernelState<T, L> as Chronicle>⟧.stands self.now items → IsShared L.script L.steps items past
            → Says result (AllAsleep L.script items past) }
    {
        if !self.awake.is_empty() {
            return false;
        }
        all_block(&self.store, self.dozing.as_slice())
    }

    /// The end that stands now, the first that holds; of Starved that it was answered.
    pub(crate) fn end(&self) -> Option<End>
        requires { (items : List Item) × ⟦<KernelState<T, L> as Chronicle>⟧.stands self.now items }
        ensures { (items : List Item) (past : Past) → ⟦<KernelState<T, L> as Chronicle>⟧.stands self.now items → IsShared L.script L.steps items past
            → EndsAs L.script L.steps items past result }
    {
        if !self.store.alive(1) {
            return Some(End::Finished);
        }
        if self.all_asleep() {
            return Some(End::AllAsleep);
        }
        if self.is_spent() {
            return Some(End::Spent);
        }
        if self.starved {
            let need = bound(&self.store.next(1));
            return Some(End::Starved { pid: 1, need });
        }
        None
    }

    /// Whether an end that stands is one of the run: who is held goes on, where steps are left and Starved wasn't answered.
    fn may_be_over(&self) -> bool
        ensures { result ≡ (self.now.starved || (length self.now.history.items == self.now.steps) || (length self.now.held.items == 0)) }
    {
        self.starved || self.is_spent() || self.held.is_empty()
    }

    /// The end with which the run is over, if it is.
    fn over(&self) -> Option<End>
        requires { (items : List Item) × ⟦<KernelState<T, L> as Chronicle>⟧.stands self.now items }
        ensures { (items : List Item) (past : Past) → ⟦<KernelState<T, L> as Chronicle>⟧.stands self.now items → IsShared L.script L.steps items past
            → IsOverAs L.script L.steps items past result }
    {
        if !self.may_be_over() {
            return None;
        }
        self.end()
    }

    /// The lowest process that is free.
    fn lowest_free(&self) -> Option<u32>
        requires { (items : List Item) × ⟦<KernelState<T, L> as Chronicle>⟧.stands self.now items }
        ensures { (items : List Item) (past : Past) → ⟦<KernelState<T, L> as Chronicle>⟧.stands self.now items → IsShared L.script L.steps items past
            → IsLowestFree L.script items past result }
    {
        let found = lowest_unheld(self.awake.as_slice(), self.held.as_slice());
        lowest_ready(
            &self.store,
            self.dozing.as_slice(),
            self.held.as_slice(),
            found,
        )
    }

    /// Gives the lowest free process to a pass, where the run isn't over and one is free.
    pub fn pick_next(&mut self) -> Picked
        requires { (items : List Item) × ⟦<KernelState<T, L> as Chronicle>⟧.stands self.old items }
        ensures picks { (items : List Item) (past : Past) → ⟦<KernelState<T, L> as Chronicle>⟧.stands self.old items → IsShared L.script L.steps items past
            → Picks L.script L.steps items past result }
        ensures stands { (items : List Item) → ⟦<KernelState<T, L> as Chronicle>⟧.stands self.old items
            → ⟦<KernelState<T, L> as Chronicle>⟧.stands self.new (items ++ said (picked_item result)) }
        ensures seat { self.new.seat ≡ self.old.seat }
    {
        if let Some(end) = self.over() {
            return Picked::Over(end);
        }
        let Some(pid) = self.lowest_free() else {
            return Picked::Idle;
        };
        let call = self.store.next(pid);
        self.held.push_reserved(Held {
            pid,
            bound: bound(&call),
        });
        Picked::Run { pid, call }
    }
}
