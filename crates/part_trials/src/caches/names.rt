//! Names, of 64 bytes in the heap.
ghost use Rattle.std.specs.Prelude.{◌≡◌, ◌≤◌, IfOk};
ghost use Rattle.kheap_slabs.specs.Paid.{CanPay};
ghost use Rattle.name_cache.specs.Names.{IsNameKey, KeepsNames, HasNameFills};

use crate::caches::steps::{Answer, Change, Look, NO, NONE, Row, Step, YES};
use kabi_types::{Class, Memory, Name27, Need};
use kheap_slabs::{KHeap, Purse};
use lru_index::NameKey;
use name_cache::NameCache;
use std::alloc::Global;
use std::process::Abort;
use std::test::Fail;

// An empty heap and an empty cache.
fn booted(alloc: Global, capacity: u32) -> Result<(KHeap, NameCache), Memory>
    ensures { IfOk result (λ made. KeepsNames made.0.names made.1) }
{
    let cache = NameCache::boot(alloc, capacity)?;
    let heap = KHeap::boot(alloc, 65536)?;
    Ok((heap, cache))
}

// A purse of so many Names.
fn purse(rt: &impl Abort, heap: &KHeap, name: u32) -> Purse
    requires { name ≤ 4 }
    ensures pays { CanPay heap.now result }
    ensures fills { HasNameFills heap.now result }
    ensures few { result.need.name ≤ 4 }
{
    assert!(rt; heap.heap() >= 256 && heap.live() <= heap.heap() - 256);
    Purse::of(Need {
        name,
        ..Need::default()
    })
}

// The key of a name of one byte in the directory 1.
fn key(rt: &impl Abort, byte: u8) -> NameKey
    ensures { IsNameKey result }
{
    let name = Name27::of(&[byte]).expect(rt, "at most 27 bytes");
    NameKey::of(1, &name)
}

// Fills a name of one byte, whose node is the byte.
fn fill(rt: &impl Abort, heap: &mut KHeap, purse: &mut Purse, cache: &mut NameCache, byte: u8)
    requires keeps { KeepsNames heap.old.names cache.old }
    requires pays { CanPay heap.old purse.old }
    requires fills { HasNameFills heap.old purse.old }
    requires few { purse.old.need.name ≤ 4 }
    ensures keeps { KeepsNames heap.new.names cache.new }
    ensures pays { CanPay heap.new purse.new }
    ensures fills { HasNameFills heap.new purse.new }
    ensures few { purse.new.need.name ≤ 4 }
{
    let key = key(rt, byte);
    assert!(rt; !cache.has(key));
    if purse.left(Class::Name) == 0 {
        assert!(rt; !purse.fills(Class::Name).is_empty());
    } else {
        assert!(rt; !cache.is_full());
    }
    cache.fill(heap, purse, key, byte as u32);
}

// Lets a name go.
fn let_go(rt: &impl Abort, heap: &mut KHeap, paid: &mut Purse, cache: &mut NameCache, byte: u8)
    requires keeps { KeepsNames heap.old.names cache.old }
    requires pays { CanPay heap.old paid.old }
    requires fills { HasNameFills heap.old paid.old }
    requires few { paid.old.need.name ≤ 4 }
    ensures keeps { KeepsNames heap.new.names cache.new }
    ensures pays { CanPay heap.new paid.new }
    ensures fills { HasNameFills heap.new paid.new }
    ensures few { paid.new.need.name ≤ 4 }
{
    let key = key(rt, byte);
    assert!(rt; cache.has(key));
    cache.let_go(heap, paid, key);
}

fn look(rt: &impl Abort, heap: &KHeap, cache: &mut NameCache, what: &Look) -> Answer
    requires { KeepsNames heap.now.names cache.old }
    ensures { KeepsNames heap.now.names cache.new }
{
    match what {
        Look::Get(byte) => Answer::Found(cache.get(heap, key(rt, *byte))),
        Look::Has(byte) => Answer::Is(cache.has(key(rt, *byte))),
        Look::IsFull => Answer::Is(cache.is_full()),
        Look::IsEvictable => Answer::Is(cache.evictable(heap)),
        Look::High => Answer::Bytes(heap.high()),
        Look::Touch(_) | Look::Slot(_) | Look::Pins(_) => Answer::Nothing,
    }
}

fn change(rt: &impl Abort, heap: &mut KHeap, cache: &mut NameCache, what: &Change) -> Answer
    requires { KeepsNames heap.old.names cache.old }
    ensures { KeepsNames heap.new.names cache.new }
{
    match what {
        Change::Set(byte, node) => {
            let key = key(rt, *byte);
            assert!(rt; cache.has(key));
            cache.set(heap, key, *node as u32);
            Answer::Done
        }
        Change::Forget(byte) => {
            cache.forget(heap, key(rt, *byte));
            Answer::Done
        }
        Change::Evict => Answer::Is(cache.evict_coldest(heap).is_some()),
        Change::Renew(_, _) => Answer::Nothing,
    }
}

fn take(
    rt: &impl Abort,
    heap: &mut KHeap,
    paid: &mut Purse,
    cache: &mut NameCache,
    step: &Step,
) -> Answer
    requires keeps { KeepsNames heap.old.names cache.old }
    requires pays { CanPay heap.old paid.old }
    requires fills { HasNameFills heap.old paid.old }
    requires few { paid.old.need.name ≤ 4 }
    ensures keeps { KeepsNames heap.new.names cache.new }
    ensures pays { CanPay heap.new paid.new }
    ensures fills { HasNameFills heap.new paid.new }
    ensures few { paid.new.need.name ≤ 4 }
{
    match step {
        Step::Begin(count) => {
            assert!(rt; *count <= 4);
            *paid = purse(rt, heap, *count);
            Answer::Done
        }
        Step::Fill(number) => {
            fill(rt, heap, paid, cache, *number);
            Answer::Done
        }
        Step::LetGo(number) => {
            let_go(rt, heap, paid, cache, *number);
            Answer::Done
        }
        Step::DropFills => {
            cache.drop_fills(heap, paid);
            let left = paid.left(Class::Name);
            *paid = purse(rt, heap, 0);
            Answer::Count(left)
        }
        Step::Left => Answer::Count(paid.left(Class::Name)),
        Step::See(what) => look(rt, heap, cache, what),
        Step::Do(what) => {
            let answer = change(rt, heap, cache, what);
            *paid = purse(rt, heap, 0);
            answer
        }
        Step::Pin(_) | Step::Unpin(_) => Answer::Nothing,
    }
}

fn check_rows(rt: &impl Abort, heap: &mut KHeap, cache: &mut NameCache, rows: &[Row])
    requires { KeepsNames heap.old.names cache.old }
{
    let mut paid = purse(rt, heap, 0);
    for (k, (step, answer, live)) in rows.iter().enumerate() {
        let told = take(rt, heap, &mut paid, cache, step);
        assert!(rt; told == *answer && heap.live() == *live, "row {k}");
    }
}

// All of it with a new cache of so many places.
fn check(rt: &impl Abort, alloc: Global, capacity: u32, rows: &[Row]) -> Result<(), Memory> {
    let (mut heap, mut cache) = booted(alloc, capacity)?;
    check_rows(rt, &mut heap, &mut cache, rows);
    drop(heap);
    drop(cache);
    Ok(())
}

// Each that is filled takes the place of the one that was filled before the last.
const FIVE: &[Row] = &[
    (Step::Begin(2), Answer::Done, 0),
    (Step::Fill(10), Answer::Done, 64),
    (Step::See(Look::Get(10)), Answer::Found(Some(10)), 64),
    (Step::See(Look::Get(11)), NONE, 64),
    (Step::Fill(11), Answer::Done, 128),
    (Step::See(Look::Get(11)), Answer::Found(Some(11)), 128),
    (Step::Fill(12), Answer::Done, 128),
    (Step::See(Look::Get(12)), Answer::Found(Some(12)), 128),
    (Step::See(Look::Get(10)), NONE, 128),
    (Step::Fill(13), Answer::Done, 128),
    (Step::See(Look::Get(13)), Answer::Found(Some(13)), 128),
    (Step::See(Look::Get(11)), NONE, 128),
    (Step::Fill(14), Answer::Done, 128),
    (Step::See(Look::Get(14)), Answer::Found(Some(14)), 128),
    (Step::See(Look::Get(12)), NONE, 128),
    (Step::See(Look::High), Answer::Bytes(128), 128),
];

const ONE_PLACE: &[Row] = &[
    (Step::Begin(1), Answer::Done, 0),
    (Step::Fill(5), Answer::Done, 64),
    (Step::See(Look::Get(5)), Answer::Found(Some(5)), 64),
    (Step::Fill(6), Answer::Done, 64),
    (Step::See(Look::Get(6)), Answer::Found(Some(6)), 64),
    (Step::See(Look::Get(5)), NONE, 64),
    (Step::Fill(7), Answer::Done, 64),
    (Step::See(Look::Has(6)), NO, 64),
    (Step::See(Look::IsFull), YES, 64),
    (Step::See(Look::High), Answer::Bytes(64), 64),
];

// Three names, of which the first is found and told of another node, the second too, and each goes in its turn.
const IN_TURN: &[Row] = &[
    (Step::See(Look::Get(0)), NONE, 0),
    (Step::See(Look::IsEvictable), NO, 0),
    (Step::Begin(3), Answer::Done, 0),
    (Step::Fill(1), Answer::Done, 64),
    (Step::Fill(2), Answer::Done, 128),
    (Step::See(Look::IsFull), NO, 128),
    (Step::Fill(3), Answer::Done, 192),
    (Step::See(Look::IsFull), YES, 192),
    (Step::Do(Change::Set(1, 7)), Answer::Done, 192),
    (Step::See(Look::Get(1)), Answer::Found(Some(7)), 192),
    (Step::Do(Change::Set(2, 9)), Answer::Done, 192),
    (Step::See(Look::Has(4)), NO, 192),
    (Step::See(Look::Get(3)), Answer::Found(Some(3)), 192),
    (Step::Do(Change::Evict), YES, 128),
    (Step::See(Look::Has(2)), NO, 128),
    (Step::Do(Change::Forget(1)), Answer::Done, 64),
    (Step::Do(Change::Forget(2)), Answer::Done, 64),
    (Step::See(Look::Has(1)), NO, 64),
    (Step::See(Look::Has(3)), YES, 64),
    (Step::See(Look::IsEvictable), YES, 64),
    (Step::Do(Change::Evict), YES, 0),
    (Step::See(Look::IsEvictable), NO, 0),
    (Step::Do(Change::Evict), NO, 0),
];

// What was filled is let go of one by one, and then all of it; what was filled before stays.
const DROPPED: &[Row] = &[
    (Step::Begin(1), Answer::Done, 0),
    (Step::Fill(9), Answer::Done, 64),
    (Step::Begin(2), Answer::Done, 64),
    (Step::Fill(1), Answer::Done, 128),
    (Step::Fill(2), Answer::Done, 192),
    (Step::LetGo(1), Answer::Done, 128),
    (Step::See(Look::Has(1)), NO, 128),
    (Step::See(Look::Has(2)), YES, 128),
    (Step::Left, Answer::Count(1), 128),
    (Step::Fill(3), Answer::Done, 192),
    (Step::See(Look::Has(2)), YES, 192),
    (Step::DropFills, Answer::Count(2), 64),
    (Step::See(Look::Has(2)), NO, 64),
    (Step::See(Look::Has(3)), NO, 64),
    (Step::See(Look::Has(9)), YES, 64),
    (Step::See(Look::High), Answer::Bytes(192), 64),
];

/// How many places a cache has, and what is done with it.
const CACHES: &[(u32, &[Row])] = &[(4, FIVE), (1, ONE_PLACE), (3, IN_TURN), (4, DROPPED)];

#[test]
fn names_are_kept_and_go(rt: HostRuntime) -> Result<(), Fail> {
    for (capacity, rows) in CACHES {
        check(&rt, rt.alloc(), *capacity, rows)?;
    }
    Ok(())
}
