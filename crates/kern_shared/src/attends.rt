//! A turn of a held process's call, with what was reserved for it.
ghost use Rattle.std.specs.Prelude.{◌≡◌, ℕ, ◌+◌, ◌^◌, ◌<◌, ◌≤◌, ◌++◌, ◌∷◌, List, [], length, nat_le, true, vec_len, vec_capacity};
ghost use Rattle.kabi_types.specs.declared.entries.Entry.TheVariants as entry;
ghost use Rattle.kabi_types.specs.Call.{kind_of};
ghost use Rattle.posix_defs.specs.History.{Past};
ghost use Rattle.posix_defs.specs.Needs.{bound};
ghost use Rattle.posix_defs.specs.Sizes.{room};
ghost use Rattle.turn_words.specs.declared.items.Item.{Item};
ghost use Rattle.turn_words.specs.declared.items.Item.TheVariants as item;
ghost use Rattle.turn_words.specs.Items.{noted};
ghost use Rattle.kern_shared.specs.Attends.{HasReserved, HoldsCall, IsUnused, MayGiveUp, MayRefuse, MayTurn, TakesIn, TellsSpent, reserved_for, sleeps_told, told_item, told_of};
ghost use Rattle.kern_shared.specs.Shared.{IsShared};
ghost use Rattle.kern_shared.specs.Shares.{without};

use crate::lists::sort_anew;
use crate::state::FIXED;
use crate::{Held, KernelState, RunName};
use charge_words::{Charge, ChargeSeat};
use kabi_types::{Call, CallKind, Entry, Reply};
use kern_tasks::entry_of;
use need_table::{bound, need};
use posix_defs::{Turned, Turner};
use std::mem;
use turn_words::{Chronicle, Item};

/// How a call of a held process was answered.
#[derive(Drop)]
pub enum Attended {
    /// The call is over.
    Done(Reply),
    /// A write moved so many bytes, and goes on when there is room for more.
    Part(u32),
    /// The heap can never give what the call may need.
    Refused,
    /// The call would block.
    Sleep,
    /// There is no room for it now: what is charged, and what the call may need, in bytes. The pass holds the process still.
    Short { charged: u64, need: u64 },
    /// The process has ended with this wait status.
    Ended(u16),
    /// The process had ended before.
    Gone,
    /// The run has taken all its steps.
    Spent,
}

/// The item that an answer passes on, for a call of this kind and bound.
pub(crate) fn item_of_answer(pid: u32, call: &Call, answer: &Attended) -> Item
    ensures { result ≡ told_item pid call.now answer.now }
{
    let kind = call.kind();
    match answer {
        Attended::Done(reply) => Item::Noted(Entry::Done {
            pid,
            kind,
            reply: reply.copy(),
        }),
        Attended::Part(moved) => Item::Noted(Entry::Part {
            pid,
            kind,
            moved: *moved,
        }),
        Attended::Refused => Item::Noted(Entry::Refused {
            pid,
            kind,
            bound: bound(call),
        }),
        Attended::Sleep => Item::Noted(Entry::Slept { pid, kind }),
        Attended::Ended(status) => Item::Noted(Entry::Ended {
            pid,
            kind,
            status: *status,
        }),
        Attended::Gone => Item::Noted(Entry::Gone { pid, kind }),
        Attended::Spent => Item::Back(pid),
        Attended::Short { .. } => Item::Quiet,
    }
}

/// What a turn tells.
fn told_of(turned: &Turned) -> Attended
    ensures { result ≡ told_of turned.now }
{
    match turned {
        Turned::Done(reply) => Attended::Done(reply.copy()),
        Turned::Part(moved) => Attended::Part(*moved),
        Turned::Sleep => Attended::Sleep,
        Turned::Ended(status) => Attended::Ended(*status),
        Turned::Gone => Attended::Gone,
    }
}

/// Whether a process sleeps behind its turn.
fn sleeps(turned: &Turned) -> bool
    ensures { result ≡ sleeps_told turned.now }
{
    matches!(turned, Turned::Part(_) | Turned::Sleep)
}

/// Adds an entry of a held process, which no pass holds any more.
fn note(history: &mut Vec<Entry>, held: &mut Vec<Held>, pid: u32, entry: Entry)
    requires { vec_len history.old < vec_capacity history.old }
    ensures history { history.new.items ≡ history.old.items ++ entry ∷ [] }
    ensures held { held.new.items ≡ without pid held.old.items }
    ensures room { (vec_capacity history.new ≡ vec_capacity history.old) × (vec_capacity held.new ≡ vec_capacity held.old) }
{
    history.push_reserved(entry);
    held.retain(|other| other.pid != pid);
}

/// The store's seat takes in what a pass's seat has reserved. The word stays; the step on it behind that tells that the two
/// together lie within the heap.
fn take_over(word: &Charge, own: &mut ChargeSeat, into: &mut ChargeSeat)
    requires charge { (own.old.charge ≡ word.now) × (into.old.charge ≡ word.now) }
    requires boot { into.old.known.is_boot ≡ true }
    ensures charge { (own.new.charge ≡ word.now) × (into.new.charge ≡ word.now) }
    ensures boot { into.new.known.is_boot ≡ true }
    ensures own { own.new.known.holds ≡ 0 }
    ensures unused { IsUnused own.new.known }
    ensures into { into.new.known.holds ≡ into.old.known.holds + own.old.known.holds }
    ensures takes_in { TakesIn into.old.known into.new.known own.old.known }
    ensures room { into.old.known.holds + own.old.known.holds ≤ word.now.heap }
    ensures within { into.new.known.holds < 2 ^ 64 }
{
    let fresh = word.split(into);
    let from = mem::replace(own, fresh);
    word.join(from, into);
    word.give_back(into, 0);
}

impl<T: Turner + Drop, L: RunName> KernelState<T, L> {
    /// A turn of a held live process's call, whose bound the pass's seat holds: the store's seat takes that in, the call runs, and
    /// what isn't live then goes back to the word.
    fn turn_live(&mut self, word: &Charge, own: &mut ChargeSeat, pid: u32, call: &Call) -> Attended
        requires may { (items : List Item) × (past : Past) × ⟦<KernelState<T, L> as Chronicle>⟧.stands self.old items × IsShared L.script L.steps items past
            × MayTurn L.script L.steps items past pid call.now }
        requires word { word.now ≡ L.charge }
        requires own { (own.old.charge ≡ L.charge) × (own.old.known.holds ≡ bound call.now) }
        ensures stands { (items : List Item) (past : Past) → ⟦<KernelState<T, L> as Chronicle>⟧.stands self.old items → IsShared L.script L.steps items past
            → MayTurn L.script L.steps items past pid call.now → ⟦<KernelState<T, L> as Chronicle>⟧.stands self.new (items ++ told_item pid call.now result ∷ []) }
        ensures tells { (items : List Item) → length (noted items) < L.steps → TellsSpent L.steps items result }
        ensures own { (own.new.charge ≡ L.charge) × (own.new.known.holds ≡ 0) × IsUnused own.new.known }
        ensures takes_in { TakesIn self.old.seat.known self.new.seat.known own.old.known }
    {
        let before = self.store.last_pid();
        take_over(word, own, &mut self.seat);
        let all = self.store.live() + bound(call);
        let turned = self.store.turn(pid, call, need(call));
        word.give_back(&mut self.seat, all - self.store.live());
        sort_anew(
            &self.store,
            &mut self.awake,
            &mut self.dozing,
            pid,
            sleeps(&turned),
            before,
        );
        let answer = told_of(&turned);
        note(
            &mut self.history,
            &mut self.held,
            pid,
            entry_of(pid, call.kind(), turned),
        );
        answer
    }

    /// Gives up the call of a held process that has ended.
    fn give_up(&mut self, pid: u32, kind: CallKind)
        requires { vec_len self.old.history < vec_capacity self.old.history }
        ensures stands { (items : List Item) (past : Past) → ⟦<KernelState<T, L> as Chronicle>⟧.stands self.old items → IsShared L.script L.steps items past
            → MayGiveUp L.script L.steps items past pid kind → ⟦<KernelState<T, L> as Chronicle>⟧.stands self.new (items ++ item.Noted (entry.Gone pid kind) ∷ []) }
        ensures seat { self.new.seat ≡ self.old.seat }
    {
        note(
            &mut self.history,
            &mut self.held,
            pid,
            Entry::Gone { pid, kind },
        );
    }

    /// Refuses a held live process's call, which the heap can never give.
    fn refuse_held(&mut self, pid: u32, call: &Call)
        requires may { (items : List Item) × (past : Past) × ⟦<KernelState<T, L> as Chronicle>⟧.stands self.old items × IsShared L.script L.steps items past
            × MayRefuse L.script L.steps items past pid call.now }
        ensures stands { (items : List Item) (past : Past) → ⟦<KernelState<T, L> as Chronicle>⟧.stands self.old items → IsShared L.script L.steps items past
            → MayRefuse L.script L.steps items past pid call.now
            → ⟦<KernelState<T, L> as Chronicle>⟧.stands self.new (items ++ item.Noted (entry.Refused pid (kind_of call.now) (bound call.now)) ∷ []) }
        ensures seat { self.new.seat ≡ self.old.seat }
    {
        let before = self.store.last_pid();
        self.store.refuse(pid);
        sort_anew(
            &self.store,
            &mut self.awake,
            &mut self.dozing,
            pid,
            false,
            before,
        );
        let entry = Entry::Refused {
            pid,
            kind: call.kind(),
            bound: bound(call),
        };
        note(&mut self.history, &mut self.held, pid, entry);
    }

    /// Whether the heap can ever give so much.
    fn fits_ever(&self, needed: u64) -> bool
        ensures { (items : List Item) → ⟦<KernelState<T, L> as Chronicle>⟧.stands self.now items → result ≡ nat_le needed (room L.script.heap) }
    {
        needed <= self.heap.saturating_sub(FIXED)
    }

    /// How much a pass's seat reserves for a call before its turn.
    fn reserved(&self, call: &Call) -> u64
        ensures { (items : List Item) → ⟦<KernelState<T, L> as Chronicle>⟧.stands self.now items → result ≡ reserved_for L.script call.now }
    {
        let needed = bound(call);
        if self.fits_ever(needed) { needed } else { 0 }
    }

    /// The store's seat takes in what a pass's seat has reserved for a call that has no turn, and gives it back.
    fn hand_back(&mut self, word: &Charge, own: &mut ChargeSeat, call: &Call)
        requires stands { (items : List Item) × ⟦<KernelState<T, L> as Chronicle>⟧.stands self.old items }
        requires word { word.now ≡ L.charge }
        requires own { (own.old.charge ≡ L.charge) × (own.old.known.holds ≡ reserved_for L.script call.now) }
        ensures stands { (items : List Item) → ⟦<KernelState<T, L> as Chronicle>⟧.stands self.old items → ⟦<KernelState<T, L> as Chronicle>⟧.stands self.new items }
        ensures history { self.new.history ≡ self.old.history }
        ensures own { (own.new.charge ≡ L.charge) × (own.new.known.holds ≡ 0) × IsUnused own.new.known }
        ensures takes_in { TakesIn self.old.seat.known self.new.seat.known own.old.known }
    {
        let reserved = self.reserved(call);
        take_over(word, own, &mut self.seat);
        word.give_back(&mut self.seat, reserved);
    }

    /// A turn of a held process's call, for which the pass's seat has reserved the call's bound by one step, or nothing where the heap
    /// can never give that. The pass doesn't hold the process any more, and its seat holds 0: the store's seat has taken in what was
    /// reserved, and reserves nothing itself.
    pub fn turn_held(
        &mut self,
        word: &Charge,
        own: &mut ChargeSeat,
        pid: u32,
        call: &Call,
    ) -> Attended
        requires held { (items : List Item) × ⟦<KernelState<T, L> as Chronicle>⟧.stands self.old items × HoldsCall L.script L.steps items pid call.now }
        requires word { word.now ≡ L.charge }
        requires own { (own.old.charge ≡ L.charge) × (own.old.known.holds ≡ reserved_for L.script call.now) }
        requires reserved { HasReserved L.script call.now own.old.known }
        ensures stands { (items : List Item) → ⟦<KernelState<T, L> as Chronicle>⟧.stands self.old items → HoldsCall L.script L.steps items pid call.now
            → ⟦<KernelState<T, L> as Chronicle>⟧.stands self.new (items ++ told_item pid call.now result ∷ []) }
        ensures tells { (items : List Item) → ⟦<KernelState<T, L> as Chronicle>⟧.stands self.old items → TellsSpent L.steps items result }
        ensures own { (own.new.charge ≡ L.charge) × (own.new.known.holds ≡ 0) × IsUnused own.new.known }
        ensures takes_in { TakesIn self.old.seat.known self.new.seat.known own.old.known }
    {
        if self.is_spent() {
            self.hand_back(word, own, call);
            self.release_held(pid);
            return Attended::Spent;
        }
        if !self.store.alive(pid) {
            self.hand_back(word, own, call);
            self.give_up(pid, call.kind());
            return Attended::Gone;
        }
        if !self.fits_ever(bound(call)) {
            self.refuse_held(pid, call);
            return Attended::Refused;
        }
        self.turn_live(word, own, pid, call)
    }
}
