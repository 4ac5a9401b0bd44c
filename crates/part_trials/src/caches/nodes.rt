//! Nodes, of 128 bytes in the heap.
ghost use Rattle.std.specs.Prelude.{◌≡◌, ◌≤◌, ℕ, IfOk, length, true};
ghost use Rattle.std.specs.List.{Contains};
ghost use Rattle.kheap_slabs.specs.Objects.{InUse};
ghost use Rattle.kheap_slabs.specs.Paid.{CanPay};
ghost use Rattle.vnode_cache.specs.Nodes.{KeepsNodes, AreLoose, SomeLoose};
ghost use Rattle.vnode_cache.specs.Calls.{HasNodeFills};

use crate::caches::steps::{Answer, Change, Look, NO, NONE, Row, Step, YES};
use kabi_types::{Class, Inode, Memory, Need};
use kheap_slabs::{KHeap, Purse};
use std::alloc::Global;
use std::process::Abort;
use std::test::Fail;
use vnode_cache::VnodeCache;

// An empty heap and an empty cache.
fn booted(alloc: Global, capacity: u32) -> Result<(KHeap, VnodeCache), Memory>
    ensures { IfOk result (λ made. KeepsNodes made.0.vnodes made.1) }
{
    let cache = VnodeCache::boot(alloc, capacity)?;
    let heap = KHeap::boot(alloc, 65536)?;
    Ok((heap, cache))
}

// A purse of so many Vnodes.
fn purse(rt: &impl Abort, heap: &KHeap, vnode: u32) -> Purse
    requires { vnode ≤ 4 }
    ensures pays { CanPay heap.now result }
    ensures fills { HasNodeFills heap.now result }
    ensures few { result.need.vnode ≤ 4 }
{
    assert!(rt; heap.heap() >= 512 && heap.live() <= heap.heap() - 512);
    Purse::of(Need {
        vnode,
        ..Need::default()
    })
}

// A file of so many bytes.
fn file(size: u32) -> Inode {
    Inode {
        kind: 1,
        nlink: 1,
        size,
        direct: [0; 10],
        indirect: 0,
        double: 0,
    }
}

// Whether no one holds some of these Vnodes.
fn some_loose(heap: &KHeap, fills: &[u32]) -> bool
    requires used { (slot : ℕ) → Contains fills.now slot → InUse heap.now.vnodes slot }
    requires short { length fills.now ≤ 4 }
    ensures { result ≡ true → SomeLoose heap.now.vnodes fills.now }
{
    for at in 0..fills.len() as u32 {
        if heap.get_vnode(fills[at as usize]).pins == 0 {
            return true;
        }
    }
    false
}

// Whether no one holds any of these Vnodes.
fn all_loose(heap: &KHeap, fills: &[u32]) -> bool
    requires used { (slot : ℕ) → Contains fills.now slot → InUse heap.now.vnodes slot }
    requires short { length fills.now ≤ 4 }
    ensures { result ≡ true → AreLoose heap.now.vnodes fills.now }
{
    for at in 0..fills.len() as u32 {
        if heap.get_vnode(fills[at as usize]).pins != 0 {
            return false;
        }
    }
    true
}

// Fills a file whose size is its number.
fn fill(rt: &impl Abort, heap: &mut KHeap, purse: &mut Purse, cache: &mut VnodeCache, number: u32)
    requires keeps { KeepsNodes heap.old.vnodes cache.old }
    requires pays { CanPay heap.old purse.old }
    requires fills { HasNodeFills heap.old purse.old }
    requires few { purse.old.need.vnode ≤ 4 }
    ensures keeps { KeepsNodes heap.new.vnodes cache.new }
    ensures pays { CanPay heap.new purse.new }
    ensures fills { HasNodeFills heap.new purse.new }
    ensures few { purse.new.need.vnode ≤ 4 }
{
    assert!(rt; !cache.has(number));
    if purse.left(Class::Vnode) == 0 {
        assert!(rt; some_loose(heap, purse.fills(Class::Vnode)));
    } else {
        assert!(rt; !cache.is_full());
    }
    cache.fill(heap, purse, number, file(number));
}

// Holds a file once more.
fn pin(rt: &impl Abort, heap: &mut KHeap, paid: &Purse, cache: &mut VnodeCache, number: u32)
    requires keeps { KeepsNodes heap.old.vnodes cache.old }
    requires pays { CanPay heap.old paid.now }
    requires fills { HasNodeFills heap.old paid.now }
    ensures keeps { KeepsNodes heap.new.vnodes cache.new }
    ensures pays { CanPay heap.new paid.now }
    ensures fills { HasNodeFills heap.new paid.now }
{
    assert!(rt; cache.has(number));
    assert!(rt; cache.pins(heap, number) < 9);
    cache.pin(heap, number);
}

// Holds a file once less.
fn unpin(rt: &impl Abort, heap: &mut KHeap, paid: &Purse, cache: &mut VnodeCache, number: u32)
    requires keeps { KeepsNodes heap.old.vnodes cache.old }
    requires pays { CanPay heap.old paid.now }
    requires fills { HasNodeFills heap.old paid.now }
    ensures keeps { KeepsNodes heap.new.vnodes cache.new }
    ensures pays { CanPay heap.new paid.now }
    ensures fills { HasNodeFills heap.new paid.now }
{
    assert!(rt; cache.has(number));
    assert!(rt; cache.pins(heap, number) != 0);
    cache.unpin(heap, number);
}

// Lets a file go that no one holds.
fn let_go(rt: &impl Abort, heap: &mut KHeap, paid: &mut Purse, cache: &mut VnodeCache, number: u32)
    requires keeps { KeepsNodes heap.old.vnodes cache.old }
    requires pays { CanPay heap.old paid.old }
    requires fills { HasNodeFills heap.old paid.old }
    requires few { paid.old.need.vnode ≤ 4 }
    ensures keeps { KeepsNodes heap.new.vnodes cache.new }
    ensures pays { CanPay heap.new paid.new }
    ensures fills { HasNodeFills heap.new paid.new }
    ensures few { paid.new.need.vnode ≤ 4 }
{
    assert!(rt; cache.has(number));
    assert!(rt; cache.pins(heap, number) == 0);
    cache.let_go(heap, paid, number);
}

// Drops all that was filled, which no one holds.
fn drop_fills(rt: &impl Abort, heap: &mut KHeap, paid: &mut Purse, cache: &mut VnodeCache)
    requires keeps { KeepsNodes heap.old.vnodes cache.old }
    requires fills { HasNodeFills heap.old paid.old }
    requires few { paid.old.need.vnode ≤ 4 }
    ensures { KeepsNodes heap.new.vnodes cache.new }
{
    assert!(rt; all_loose(heap, paid.fills(Class::Vnode)));
    cache.drop_fills(heap, paid);
}

// The size of a file that is cached.
fn size(heap: &KHeap, cache: &mut VnodeCache, number: u8) -> Option<u32>
    requires { KeepsNodes heap.now.vnodes cache.old }
    ensures { KeepsNodes heap.now.vnodes cache.new }
{
    match cache.get(heap, number as u32) {
        Some(inode) => Some(inode.size),
        None => None,
    }
}

// How often a file is held that is cached.
fn pins(rt: &impl Abort, heap: &KHeap, cache: &VnodeCache, number: u8) -> u32
    requires { KeepsNodes heap.now.vnodes cache.now }
{
    assert!(rt; cache.has(number as u32));
    cache.pins(heap, number as u32)
}

// Whether one went, as it was told before that one may.
fn evict(rt: &impl Abort, heap: &mut KHeap, cache: &mut VnodeCache) -> bool
    requires { KeepsNodes heap.old.vnodes cache.old }
    ensures { KeepsNodes heap.new.vnodes cache.new }
{
    let may = cache.evictable(heap);
    let gone = cache.evict_coldest(heap).is_some();
    assert!(rt; may == gone);
    gone
}

fn look(rt: &impl Abort, heap: &KHeap, cache: &mut VnodeCache, what: &Look) -> Answer
    requires { KeepsNodes heap.now.vnodes cache.old }
    ensures { KeepsNodes heap.now.vnodes cache.new }
{
    match what {
        Look::Get(number) => Answer::Found(size(heap, cache, *number)),
        Look::Has(number) => Answer::Is(cache.has(*number as u32)),
        Look::Pins(number) => Answer::Count(pins(rt, heap, cache, *number)),
        Look::IsFull => Answer::Is(cache.is_full()),
        Look::IsEvictable => Answer::Is(cache.evictable(heap)),
        Look::High => Answer::Bytes(heap.high()),
        Look::Touch(_) | Look::Slot(_) => Answer::Nothing,
    }
}

fn change(rt: &impl Abort, heap: &mut KHeap, cache: &mut VnodeCache, what: &Change) -> Answer
    requires { KeepsNodes heap.old.vnodes cache.old }
    ensures { KeepsNodes heap.new.vnodes cache.new }
{
    match what {
        Change::Set(number, size) => {
            assert!(rt; cache.has(*number as u32));
            cache.set(heap, *number as u32, file(*size as u32));
            Answer::Done
        }
        Change::Evict => Answer::Is(evict(rt, heap, cache)),
        Change::Renew(_, _) | Change::Forget(_) => Answer::Nothing,
    }
}

fn take(
    rt: &impl Abort,
    heap: &mut KHeap,
    paid: &mut Purse,
    cache: &mut VnodeCache,
    step: &Step,
) -> Answer
    requires keeps { KeepsNodes heap.old.vnodes cache.old }
    requires pays { CanPay heap.old paid.old }
    requires fills { HasNodeFills heap.old paid.old }
    requires few { paid.old.need.vnode ≤ 4 }
    ensures keeps { KeepsNodes heap.new.vnodes cache.new }
    ensures pays { CanPay heap.new paid.new }
    ensures fills { HasNodeFills heap.new paid.new }
    ensures few { paid.new.need.vnode ≤ 4 }
{
    match step {
        Step::Begin(count) => {
            assert!(rt; *count <= 4);
            *paid = purse(rt, heap, *count);
            Answer::Done
        }
        Step::Fill(number) => {
            fill(rt, heap, paid, cache, *number as u32);
            Answer::Done
        }
        Step::LetGo(number) => {
            let_go(rt, heap, paid, cache, *number as u32);
            Answer::Done
        }
        Step::DropFills => {
            drop_fills(rt, heap, paid, cache);
            let left = paid.left(Class::Vnode);
            *paid = purse(rt, heap, 0);
            Answer::Count(left)
        }
        Step::Left => Answer::Count(paid.left(Class::Vnode)),
        Step::See(what) => look(rt, heap, cache, what),
        Step::Do(what) => {
            let answer = change(rt, heap, cache, what);
            *paid = purse(rt, heap, 0);
            answer
        }
        Step::Pin(number) => {
            pin(rt, heap, paid, cache, *number as u32);
            Answer::Done
        }
        Step::Unpin(number) => {
            unpin(rt, heap, paid, cache, *number as u32);
            Answer::Done
        }
    }
}

fn check_rows(rt: &impl Abort, heap: &mut KHeap, cache: &mut VnodeCache, rows: &[Row])
    requires { KeepsNodes heap.old.vnodes cache.old }
{
    let mut paid = purse(rt, heap, 0);
    for (k, (step, answer, live)) in rows.iter().enumerate() {
        let told = take(rt, heap, &mut paid, cache, step);
        assert!(rt; told == *answer && heap.live() == *live, "row {k}");
    }
}

// All of it with a new cache of so many places.
fn check(rt: &impl Abort, alloc: Global, capacity: u32, rows: &[Row]) -> Result<(), Memory> {
    let (mut heap, mut cache) = booted(alloc, capacity)?;
    check_rows(rt, &mut heap, &mut cache, rows);
    drop(heap);
    drop(cache);
    Ok(())
}

// Each that is filled takes the place of the one that was filled before the last.
const FIVE: &[Row] = &[
    (Step::Begin(2), Answer::Done, 0),
    (Step::Fill(10), Answer::Done, 128),
    (Step::See(Look::Get(10)), Answer::Found(Some(10)), 128),
    (Step::See(Look::Get(11)), NONE, 128),
    (Step::Fill(11), Answer::Done, 256),
    (Step::See(Look::Get(11)), Answer::Found(Some(11)), 256),
    (Step::Fill(12), Answer::Done, 256),
    (Step::See(Look::Get(12)), Answer::Found(Some(12)), 256),
    (Step::See(Look::Get(10)), NONE, 256),
    (Step::Fill(13), Answer::Done, 256),
    (Step::See(Look::Get(13)), Answer::Found(Some(13)), 256),
    (Step::See(Look::Get(11)), NONE, 256),
    (Step::Fill(14), Answer::Done, 256),
    (Step::See(Look::Get(14)), Answer::Found(Some(14)), 256),
    (Step::See(Look::Get(12)), NONE, 256),
    (Step::See(Look::High), Answer::Bytes(256), 256),
];

const ONE_PLACE: &[Row] = &[
    (Step::Begin(1), Answer::Done, 0),
    (Step::Fill(5), Answer::Done, 128),
    (Step::See(Look::Get(5)), Answer::Found(Some(5)), 128),
    (Step::Fill(6), Answer::Done, 128),
    (Step::See(Look::Get(6)), Answer::Found(Some(6)), 128),
    (Step::See(Look::Get(5)), NONE, 128),
    (Step::Fill(7), Answer::Done, 128),
    (Step::See(Look::Has(6)), NO, 128),
    (Step::See(Look::IsFull), YES, 128),
    (Step::See(Look::High), Answer::Bytes(128), 128),
];

// Of three files the first is held: the second goes before it, and then the third, that is held too, stays. Once the first is
// let go of, it goes.
const HELD: &[Row] = &[
    (Step::Begin(3), Answer::Done, 0),
    (Step::Fill(1), Answer::Done, 128),
    (Step::Fill(2), Answer::Done, 256),
    (Step::Fill(3), Answer::Done, 384),
    (Step::See(Look::High), Answer::Bytes(384), 384),
    (Step::See(Look::IsFull), YES, 384),
    (Step::Pin(1), Answer::Done, 384),
    (Step::Do(Change::Evict), YES, 256),
    (Step::See(Look::Has(1)), YES, 256),
    (Step::See(Look::Has(2)), NO, 256),
    (Step::See(Look::Has(3)), YES, 256),
    (Step::Pin(3), Answer::Done, 256),
    (Step::Pin(3), Answer::Done, 256),
    (Step::Do(Change::Evict), NO, 256),
    (Step::Unpin(3), Answer::Done, 256),
    (Step::Do(Change::Evict), NO, 256),
    (Step::Unpin(1), Answer::Done, 256),
    (Step::Do(Change::Evict), YES, 128),
    (Step::See(Look::Has(1)), NO, 128),
    (Step::See(Look::Has(3)), YES, 128),
    (Step::Do(Change::Evict), NO, 128),
    (Step::See(Look::High), Answer::Bytes(384), 128),
];

// What is written is read, and leaves held who is held. To read makes a file the warmest.
const WRITTEN: &[Row] = &[
    (Step::See(Look::Get(1)), NONE, 0),
    (Step::See(Look::IsEvictable), NO, 0),
    (Step::Begin(2), Answer::Done, 0),
    (Step::Fill(1), Answer::Done, 128),
    (Step::Fill(2), Answer::Done, 256),
    (Step::See(Look::Get(1)), Answer::Found(Some(1)), 256),
    (Step::Do(Change::Set(2, 70)), Answer::Done, 256),
    (Step::Do(Change::Evict), YES, 128),
    (Step::See(Look::Has(2)), NO, 128),
    (Step::Pin(1), Answer::Done, 128),
    (Step::Do(Change::Set(1, 71)), Answer::Done, 128),
    (Step::See(Look::Pins(1)), Answer::Count(1), 128),
    (Step::See(Look::Get(1)), Answer::Found(Some(71)), 128),
];

// Of two files that were filled the first is held, so the second goes before a third. What was filled is let go of one by one,
// and then all of it; what was filled before stays.
const PASSED_OVER: &[Row] = &[
    (Step::Begin(1), Answer::Done, 0),
    (Step::Fill(9), Answer::Done, 128),
    (Step::Begin(2), Answer::Done, 128),
    (Step::Fill(1), Answer::Done, 256),
    (Step::Fill(2), Answer::Done, 384),
    (Step::Pin(1), Answer::Done, 384),
    (Step::Fill(3), Answer::Done, 384),
    (Step::See(Look::Has(1)), YES, 384),
    (Step::See(Look::Has(2)), NO, 384),
    (Step::See(Look::Has(3)), YES, 384),
    (Step::Unpin(1), Answer::Done, 384),
    (Step::LetGo(3), Answer::Done, 256),
    (Step::See(Look::Has(3)), NO, 256),
    (Step::Left, Answer::Count(1), 256),
    (Step::Fill(4), Answer::Done, 384),
    (Step::See(Look::Has(1)), YES, 384),
    (Step::See(Look::Has(4)), YES, 384),
    (Step::DropFills, Answer::Count(2), 128),
    (Step::See(Look::Has(1)), NO, 128),
    (Step::See(Look::Has(4)), NO, 128),
    (Step::See(Look::Has(9)), YES, 128),
    (Step::See(Look::High), Answer::Bytes(384), 128),
];

/// How many places a cache has, and what is done with it.
const CACHES: &[(u32, &[Row])] = &[
    (4, FIVE),
    (1, ONE_PLACE),
    (3, HELD),
    (2, WRITTEN),
    (4, PASSED_OVER),
];

#[test]
fn nodes_are_kept_and_go(rt: HostRuntime) -> Result<(), Fail> {
    for (capacity, rows) in CACHES {
        check(&rt, rt.alloc(), *capacity, rows)?;
    }
    Ok(())
}
