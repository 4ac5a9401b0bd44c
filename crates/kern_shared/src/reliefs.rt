//! How calls that wait for room are helped, in a turn.
ghost use Rattle.std.specs.Prelude.{◌≡◌, ◌≢◌, ℕ, ◌+◌, ◌<◌, ◌≤◌, ◌++◌, ◌∷◌, ◌&&◌, ◌⊎◌, List, [], cond, length, nat_le, true, false, None, Some, IfSome, IsNone};
ghost use Rattle.kabi_types.specs.declared.entries.Entry.TheVariants as entry;
ghost use Rattle.charge_words.specs.Names.{seat_of};
ghost use Rattle.charge_words.specs.Rule.{loaded};
ghost use Rattle.kern_events.specs.Reliefs.{first_evictable};
ghost use Rattle.posix_defs.specs.History.{Past};
ghost use Rattle.posix_defs.specs.Process.{is_alive};
ghost use Rattle.posix_defs.specs.Sizes.{reserve};
ghost use Rattle.posix_defs.specs.Victim.{victim_of};
ghost use Rattle.posix_defs.specs.World.{World, live_of};
ghost use Rattle.turn_words.specs.declared.items.Item.{Item};
ghost use Rattle.turn_words.specs.declared.items.Item.TheVariants as item;
ghost use Rattle.turn_words.specs.Items.{said};
ghost use Rattle.kern_shared.specs.Attends.{ReservesNothing};
ghost use Rattle.kern_shared.specs.Lists.{AreNeeds, is_below, lowest};
ghost use Rattle.kern_shared.specs.Relieves.{Frees, Relieves, WaitsInVain};
ghost use Rattle.kern_shared.specs.Shared.{IsShared};
ghost use Rattle.kern_shared.specs.Shares.{pids_of};

use crate::lists::{is_below, sort_anew};
use crate::state::{FIXED, RESERVE};
use crate::{Held, KernelState, RunName};
use charge_words::{Charge, ChargeSeat};
use kabi_types::{Cached, Entry};
use kern_events::Relief;
use need_table::bound;
use posix_defs::Turner;
use turn_words::{Chronicle, Item};

/// The first cache, of names, of blocks and of nodes, that keeps something that isn't pinned.
fn first_that_loses<T: Turner>(store: &T) -> Option<Cached>
    ensures { (world : World) → T.stands store.now world → result ≡ first_evictable world }
{
    if store.evictable(Cached::Name) {
        Some(Cached::Name)
    } else if store.evictable(Cached::Block) {
        Some(Cached::Block)
    } else if store.evictable(Cached::Vnode) {
        Some(Cached::Vnode)
    } else {
        None
    }
}

/// The lesser of two numbers.
fn lesser(first: u64, second: u64) -> u64
    ensures least { (result ≤ first) × (result ≤ second) }
    ensures one { (result ≡ first) ⊎ (result ≡ second) }
{
    if first <= second { first } else { second }
}

/// Whether all that is charged is live or the reserve.
fn is_all_live(charged: u64, live: u64) -> bool
    ensures all { result ≡ true → charged ≡ live + reserve }
    ensures more { result ≡ false → charged ≢ live + reserve }
{
    charged >= RESERVE && charged - RESERVE == live
}

/// A held process, where its call needs at most so much and it is below the one that was found before; else that one.
fn lower_within(other: Held, most: u64, found: Option<u32>) -> Option<u32>
    ensures { result ≡ cond (is_below other.pid found && nat_le other.bound most) (Some other.pid) found }
{
    if is_below(other.pid, found) && other.bound <= most {
        Some(other.pid)
    } else {
        found
    }
}

/// The lowest held process whose call needs at most so much, alive or not.
fn lowest_within(held: &[Held], most: u64) -> Option<u32>
    ensures { (need : ℕ → ℕ) → AreNeeds need held.now → result ≡ lowest (λ pid. nat_le (need pid) most) None (pids_of held.now) }
{
    let mut found = None;
    for other in held {
        found = lower_within(*other, most, found);
    }
    found
}

/// The same of one that is alive.
fn lower_alive<T: Turner>(store: &T, other: Held, most: u64, found: Option<u32>) -> Option<u32>
    ensures { (world : World) → T.stands store.now world
        → result ≡ cond (is_below other.pid found && (nat_le other.bound most && is_alive world.plain.table other.pid)) (Some other.pid) found }
{
    if is_below(other.pid, found) && other.bound <= most && store.alive(other.pid) {
        Some(other.pid)
    } else {
        found
    }
}

/// The lowest held process that is alive and whose call needs at most so much.
fn lowest_alive<T: Turner>(store: &T, held: &[Held], most: u64) -> Option<u32>
    ensures { (world : World) (need : ℕ → ℕ) → T.stands store.now world → AreNeeds need held.now
        → result ≡ lowest (λ pid. nat_le (need pid) most && is_alive world.plain.table pid) None (pids_of held.now) }
{
    let mut found = None;
    for other in held {
        found = lower_alive(store, *other, most, found);
    }
    found
}

impl<T: Turner + Drop, L: RunName> KernelState<T, L> {
    /// Drops an object from the first cache that can lose something, and gives its bytes back to the word.
    fn clear(&mut self, word: &Charge, what: Cached, live: u64)
        requires word { word.now ≡ L.charge }
        requires first { (world : World) → T.stands self.old.store world → first_evictable world ≡ Some what }
        requires live { (world : World) → T.stands self.old.store world → live ≡ live_of world }
        requires may { (items : List Item) × (past : Past) × (waiter : ℕ) × (need : ℕ) × ⟦<KernelState<T, L> as Chronicle>⟧.stands self.old items
            × IsShared L.script L.steps items past × WaitsInVain L.script L.steps items past waiter need live }
        ensures stands { (items : List Item) (past : Past) (waiter need : ℕ) → ⟦<KernelState<T, L> as Chronicle>⟧.stands self.old items → IsShared L.script L.steps items past
            → WaitsInVain L.script L.steps items past waiter need live → ⟦<KernelState<T, L> as Chronicle>⟧.stands self.new (items ++ item.Cleared what live ∷ []) }
        ensures nothing { ReservesNothing self.old.seat.known self.new.seat.known }
    {
        self.store.evict(what);
        word.give_back(&mut self.seat, live - self.store.live());
        self.history.push_reserved(Entry::Evicted { what });
    }

    /// Kills the victim for a call that waits, and gives the bytes that aren't live any more back to the word.
    fn kill(&mut self, word: &Charge, pid: u32, waiter: u32, need: u64, live: u64)
        requires word { word.now ≡ L.charge }
        requires bare { (world : World) → T.stands self.old.store world → first_evictable world ≡ None }
        requires victim { (world : World) → T.stands self.old.store world → victim_of (T.script self.old.store).policy world.plain world.account ≡ Some pid }
        requires live { (world : World) → T.stands self.old.store world → live ≡ live_of world }
        requires may { (items : List Item) × (past : Past) × ⟦<KernelState<T, L> as Chronicle>⟧.stands self.old items × IsShared L.script L.steps items past
            × WaitsInVain L.script L.steps items past waiter need live }
        ensures stands { (items : List Item) (past : Past) → ⟦<KernelState<T, L> as Chronicle>⟧.stands self.old items → IsShared L.script L.steps items past
            → WaitsInVain L.script L.steps items past waiter need live
            → ⟦<KernelState<T, L> as Chronicle>⟧.stands self.new (items ++ item.Noted (entry.Killed pid waiter need live) ∷ []) }
        ensures nothing { ReservesNothing self.old.seat.known self.new.seat.known }
    {
        let before = self.store.last_pid();
        self.store.kill(pid);
        word.give_back(&mut self.seat, live - self.store.live());
        sort_anew(
            &self.store,
            &mut self.awake,
            &mut self.dozing,
            pid,
            false,
            before,
        );
        self.history.push_reserved(Entry::Killed {
            pid,
            waiter,
            need,
            live,
        });
    }

    /// Frees heap for a call that waits and has no room, while all that is charged is live or the reserve: something goes from a
    /// cache, the victim is killed, or nothing helps the first process. The item is the one to pass on.
    fn free(&mut self, word: &Charge, waiter: u32, need: u64, live: u64) -> (Relief, Item)
        requires word { word.now ≡ L.charge }
        requires live { (world : World) → T.stands self.old.store world → live ≡ live_of world }
        requires may { (items : List Item) × (past : Past) × ⟦<KernelState<T, L> as Chronicle>⟧.stands self.old items × IsShared L.script L.steps items past
            × WaitsInVain L.script L.steps items past waiter need live }
        ensures stands { (items : List Item) (past : Past) → ⟦<KernelState<T, L> as Chronicle>⟧.stands self.old items → IsShared L.script L.steps items past
            → WaitsInVain L.script L.steps items past waiter need live → ⟦<KernelState<T, L> as Chronicle>⟧.stands self.new (items ++ said result.1) }
        ensures told { (items : List Item) (past : Past) → ⟦<KernelState<T, L> as Chronicle>⟧.stands self.old items → IsShared L.script L.steps items past
            → WaitsInVain L.script L.steps items past waiter need live → Frees past waiter need live result.0 result.1 }
        ensures nothing { ReservesNothing self.old.seat.known self.new.seat.known }
    {
        if let Some(what) = first_that_loses(&self.store) {
            self.clear(word, what, live);
            return (Relief::Evicted(what), Item::Cleared { what, live });
        }
        let Some(pid) = self.store.victim() else {
            self.starved = true;
            return (Relief::Starved, Item::Starved);
        };
        self.kill(word, pid, waiter, need, live);
        let entry = Entry::Killed {
            pid,
            waiter,
            need,
            live,
        };
        (Relief::Killed(pid), Item::Noted(entry))
    }

    /// Helps the calls that wait, and tells how: the first case that holds, with the word that the pass's seat loads. The item is the
    /// one to pass on.
    pub fn relieve_now(&mut self, word: &Charge, own: &mut ChargeSeat) -> (Relief, Item)
        requires stands { (items : List Item) × ⟦<KernelState<T, L> as Chronicle>⟧.stands self.old items }
        requires word { word.now ≡ L.charge }
        requires own { own.old.charge ≡ L.charge }
        ensures own { own.new ≡ seat_of L.charge (loaded own.old.known own.new.known.last) }
        ensures stands { (items : List Item) → ⟦<KernelState<T, L> as Chronicle>⟧.stands self.old items
            → ⟦<KernelState<T, L> as Chronicle>⟧.stands self.new (items ++ said result.1) }
        ensures relieves { (items : List Item) (past : Past) → ⟦<KernelState<T, L> as Chronicle>⟧.stands self.old items → IsShared L.script L.steps items past
            → Relieves L.script L.steps items past own.new.known.last result.0 result.1 }
        ensures nothing { ReservesNothing self.old.seat.known self.new.seat.known }
    {
        let charged = word.charged(own);
        if self.is_spent() {
            return (Relief::Spent, Item::Quiet);
        }
        let ever = self.heap.saturating_sub(FIXED);
        let Some(waiter) = lowest_alive(&self.store, self.held.as_slice(), ever) else {
            return (Relief::NoneWaiting, Item::Quiet);
        };
        let most = lesser(ever, self.heap - charged);
        if let Some(pid) = lowest_within(self.held.as_slice(), most) {
            return (Relief::Fits(pid), Item::Quiet);
        }
        let live = self.store.live();
        if !is_all_live(charged, live) {
            return (Relief::Outstanding { charged, live }, Item::Live(live));
        }
        let need = bound(&self.store.next(waiter));
        self.free(word, waiter, need, live)
    }
}
