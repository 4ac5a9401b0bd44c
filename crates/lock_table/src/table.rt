ghost use Rattle.std.specs.Prelude.{◌≡◌, ◌+◌, ◌≤◌, ◌∷◌, [], None, Some, is_none};
ghost use Rattle.std.specs.Option.{option_map};
ghost use Rattle.kabi_types.specs.Counts.{with_count};
ghost use Rattle.kabi_types.specs.declared.classes.Class.TheVariants as class;
ghost use Rattle.kheap_slabs.specs.Objects.{object};
ghost use Rattle.kheap_slabs.specs.Paid.{CanPay, IsPaid, TakesNothing};
ghost use Rattle.posix_defs.specs.Locks.{Locks, after_set, first_in_way, lock_of, stops, without};
ghost use Rattle.lock_table.specs.Chain.{HasLocks, HoldsLocks, IsLockChain, IsLockTable, plain_of};
ghost use Rattle.lock_table.specs.Holding.{IsAsked, asked_by, earliest, info_of};
ghost use Rattle.lock_table.specs.Setting.{cut, held_wide, let_go, over, widened};
ghost use Rattle.lock_table.specs.Walking.{chained_again, first_again};

use crate::locks::{
    LockInfo, LockRange, earlier, kept_by, over_by, stands_in_way, told, widened_by,
};
use kabi_types::Class;
use kabi_types::ranges::Range;
use kheap_slabs::{KHeap, Lock, Purse};
use std::marker::Model;

/// Which ranges of files processes hold: the key of the first Lock of the chain.
#[derive(Drop)]
pub struct LockTable {
    first: Option<u32>,
}

impl Model for LockTable {
    ghost use Rattle.std.specs.Prelude.{ℕ, Option};

    ghost Value = { Option ℕ };

    ghost view = { λ table. table.first };
}

impl LockTable {
    /// None is held.
    pub fn new() -> LockTable
        ensures { result ≡ None }
    {
        LockTable { first: None }
    }

    /// Whether none is held.
    pub fn is_empty(&self) -> bool
        ensures { result ≡ is_none self.now }
    {
        self.first.is_none()
    }

    /// Of the locks in the way of what a process asks for of a file that of least start, and of these that of the lowest pid.
    pub fn conflict(&self, heap: &KHeap, node: u32, pid: u32, range: &LockRange) -> Option<LockInfo>
        requires { IsLockTable heap.now.locks self.now }
        ensures { (locks : Locks) → HoldsLocks heap.now.locks self.now locks
            → result ≡ option_map info_of (first_in_way locks pid node (asked_by range.now)) }
    {
        told(self.earliest(heap, node, pid, range))
    }

    /// Whether one process holds a lock that is in the way of what another asks for of a file.
    pub fn stops(&self, heap: &KHeap, node: u32, pid: u32, range: &LockRange, by: u32) -> bool
        requires { IsLockTable heap.now.locks self.now }
        ensures { (locks : Locks) → HoldsLocks heap.now.locks self.now locks
            → result ≡ stops locks pid node (asked_by range.now) by }
    {
        self.has_in_way(heap, node, pid, range, by)
    }

    /// Holds places of a file with a kind, or lets them go. The purse pays for two Locks at most: one where a range is cut in the
    /// middle, and one for what is held.
    pub fn set(
        &mut self,
        heap: &mut KHeap,
        purse: &mut Purse,
        node: u32,
        pid: u32,
        range: &LockRange,
    )
        requires table { IsLockTable heap.old.locks self.old }
        requires asked { IsAsked range.now }
        requires pays { CanPay heap.old purse.old }
        requires left { 2 ≤ purse.old.left.lock }
        ensures holds { (locks : Locks) → HoldsLocks heap.old.locks self.old locks
            → HoldsLocks heap.new.locks self.new (after_set locks pid node (asked_by range.now)) }
        ensures kept { heap.new ≡ record heap.old { locks = heap.new.locks; high = heap.new.high } }
        ensures paid { IsPaid heap.old purse.old heap.new purse.new }
        ensures pays { CanPay heap.new purse.new }
        ensures spent { purse.new ≡ record purse.old { left = with_count purse.old.left class.Lock purse.new.left.lock } }
        ensures two { purse.old.left.lock ≤ purse.new.left.lock + 2 }
    {
        match range.kind() {
            Some(kind) => self.hold(
                heap,
                purse,
                node,
                pid,
                Range {
                    kind,
                    start: range.start,
                    last: range.last,
                },
            ),
            None => self.let_go(heap, purse, node, pid, range.start, range.last),
        }
    }

    /// Lets all go that a process holds of a file.
    pub fn drop_of(&mut self, heap: &mut KHeap, node: u32, pid: u32)
        requires { IsLockTable heap.old.locks self.old }
        ensures holds { (locks : Locks) → HoldsLocks heap.old.locks self.old locks
            → HoldsLocks heap.new.locks self.new (without locks pid node) }
        ensures kept { heap.new ≡ record heap.old { locks = heap.new.locks } }
        ensures takes { TakesNothing heap.old heap.new }
    {
        self.cut(heap, node, pid, 0, 9223372036854775807);
    }

    // ---- the chain is walked

    // The first lock in the way.
    fn earliest(&self, heap: &KHeap, node: u32, pid: u32, range: &LockRange) -> Option<Lock>
        requires { HasLocks heap.now.locks self.now }
        ensures { (locks : Locks) → IsLockChain heap.now.locks self.now locks
            → option_map plain_of result ≡ earliest pid node (asked_by range.now) None locks }
    {
        let mut first = None;
        let mut at = self.first;
        'chain: while let Some(key) = at {
            let lock = heap.get_lock(key);
            first = earlier(first, lock, node, pid, range);
            at = lock.next;
        }
        first
    }

    // One of them is this other process's, and in the way.
    fn has_in_way(&self, heap: &KHeap, node: u32, pid: u32, range: &LockRange, by: u32) -> bool
        requires { HasLocks heap.now.locks self.now }
        ensures { (locks : Locks) → IsLockChain heap.now.locks self.now locks
            → result ≡ stops locks pid node (asked_by range.now) by }
    {
        let mut at = self.first;
        'chain: while let Some(key) = at {
            let lock = heap.get_lock(key);
            if stands_in_way(lock, node, pid, range, by) {
                return true;
            }
            at = lock.next;
        }
        false
    }

    // The places that are asked for, with those of the process's locks that they reach.
    fn widened(&self, heap: &KHeap, node: u32, pid: u32, asked: Range) -> Range
        requires { HasLocks heap.now.locks self.now }
        ensures { (locks : Locks) → IsLockChain heap.now.locks self.now locks
            → result ≡ widened pid node asked asked locks }
    {
        let mut wide = asked;
        let mut at = self.first;
        'chain: while let Some(key) = at {
            let lock = heap.get_lock(key);
            wide = widened_by(wide, lock, node, pid, &asked);
            at = lock.next;
        }
        wide
    }

    // ---- the chain is made anew

    // Holds places of a file, with those that they reach, as one range. What it takes in goes first, so that no more is taken at any
    // moment than at the end.
    fn hold(&mut self, heap: &mut KHeap, purse: &mut Purse, node: u32, pid: u32, asked: Range)
        requires chain { HasLocks heap.old.locks self.old }
        requires pays { CanPay heap.old purse.old }
        requires left { 2 ≤ purse.old.left.lock }
        ensures chain { (locks : Locks) → IsLockChain heap.old.locks self.old locks
            → IsLockChain heap.new.locks self.new (held_wide pid node asked locks) }
        ensures kept { heap.new ≡ record heap.old { locks = heap.new.locks; high = heap.new.high } }
        ensures paid { IsPaid heap.old purse.old heap.new purse.new }
        ensures pays { CanPay heap.new purse.new }
        ensures spent { purse.new ≡ record purse.old { left = with_count purse.old.left class.Lock purse.new.left.lock } }
        ensures two { purse.old.left.lock ≤ purse.new.left.lock + 2 }
    {
        let wide = self.widened(heap, node, pid, asked);
        self.let_go(heap, purse, node, pid, wide.start, wide.last);
        self.add(heap, purse, node, pid, wide);
    }

    // Lets places of a file go. The purse pays for one Lock where a range is cut in the middle.
    fn let_go(
        &mut self,
        heap: &mut KHeap,
        purse: &mut Purse,
        node: u32,
        pid: u32,
        start: u64,
        last: u64,
    )
        requires chain { HasLocks heap.old.locks self.old }
        requires pays { CanPay heap.old purse.old }
        requires left { 1 ≤ purse.old.left.lock }
        ensures chain { (locks : Locks) → IsLockChain heap.old.locks self.old locks
            → IsLockChain heap.new.locks self.new (let_go pid node start last locks) }
        ensures kept { heap.new ≡ record heap.old { locks = heap.new.locks; high = heap.new.high } }
        ensures paid { IsPaid heap.old purse.old heap.new purse.new }
        ensures pays { CanPay heap.new purse.new }
        ensures spent { purse.new ≡ record purse.old { left = with_count purse.old.left class.Lock purse.new.left.lock } }
        ensures one { purse.old.left.lock ≤ purse.new.left.lock + 1 }
    {
        if let Some(range) = self.cut(heap, node, pid, start, last) {
            self.add(heap, purse, node, pid, range);
        }
    }

    // A range more is held.
    fn add(&mut self, heap: &mut KHeap, purse: &mut Purse, node: u32, pid: u32, range: Range)
        requires pays { CanPay heap.old purse.old }
        requires left { 1 ≤ purse.old.left.lock }
        ensures chain { (locks : Locks) → IsLockChain heap.old.locks self.old locks
            → IsLockChain heap.new.locks self.new (lock_of pid node range ∷ locks) }
        ensures kept { heap.new ≡ record heap.old { locks = heap.new.locks; high = heap.new.high } }
        ensures paid { IsPaid heap.old purse.old heap.new purse.new }
        ensures pays { CanPay heap.new purse.new }
        ensures spent { purse.new ≡ record purse.old { left = with_count purse.old.left class.Lock purse.new.left.lock } }
        ensures one { purse.old.left.lock ≡ purse.new.left.lock + 1 }
    {
        purse.spend(Class::Lock);
        let next = self.first;
        let key = heap.insert_lock(Lock {
            pid,
            node,
            range,
            next,
        });
        self.first = Some(key);
    }

    // Of a process's locks of a file each goes, or keeps what it has before the start or else behind the last place. Of one that has
    // both, what it has behind is told.
    fn cut(&mut self, heap: &mut KHeap, node: u32, pid: u32, start: u64, last: u64) -> Option<Range>
        requires { HasLocks heap.old.locks self.old }
        ensures chain { (locks : Locks) → IsLockChain heap.old.locks self.old locks
            → IsLockChain heap.new.locks self.new (cut pid node start last [] locks) }
        ensures over { (locks : Locks) → IsLockChain heap.old.locks self.old locks
            → result ≡ over pid node start last None locks }
        ensures kept { heap.new ≡ record heap.old { locks = heap.new.locks } }
        ensures takes { TakesNothing heap.old heap.new }
    {
        let mut over = None;
        let mut first = None;
        let mut at = self.first;
        'chain: while let Some(key) = at {
            let lock = *heap.get_lock(key);
            over = over_by(over, &lock, node, pid, start, last);
            let range = kept_by(&lock, node, pid, start, last);
            first = chain_again(heap, key, lock, first, range);
            at = lock.next;
        }
        self.first = first;
        over
    }
}

// A lock stays with a range, before the first of those that stayed, or is freed. The first of those that stayed then.
fn chain_again(
    heap: &mut KHeap,
    key: u32,
    lock: Lock,
    first: Option<u32>,
    range: Option<Range>,
) -> Option<u32>
    requires { object heap.old.locks key ≡ Some lock }
    ensures first { result ≡ first_again key first range }
    ensures kept { heap.new ≡ record heap.old { locks = chained_again heap.old.locks key lock first range } }
    ensures takes { TakesNothing heap.old heap.new }
{
    match range {
        Some(range) => {
            heap.set_lock(
                key,
                Lock {
                    range,
                    next: first,
                    ..lock
                },
            );
            Some(key)
        }
        None => {
            heap.free_lock(key);
            first
        }
    }
}
