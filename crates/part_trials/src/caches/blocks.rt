//! Blocks, of 1088 bytes in the heap.
ghost use Rattle.std.specs.Prelude.{◌≡◌, ◌≤◌, IfOk};
ghost use Rattle.kheap_slabs.specs.Paid.{CanPay};
ghost use Rattle.block_cache.specs.Blocks.{KeepsBlocks, HasBlockFills};

use crate::caches::steps::{Answer, Change, Look, NO, NONE, Row, Step, YES};
use block_cache::BlockCache;
use kabi_types::{Class, Memory, Need};
use kheap_slabs::{KHeap, Purse};
use std::alloc::Global;
use std::process::Abort;
use std::test::Fail;

// An empty heap and an empty cache.
fn booted(alloc: Global, capacity: u32) -> Result<(KHeap, BlockCache), Memory>
    ensures { IfOk result (λ made. KeepsBlocks made.0.blocks made.1) }
{
    let cache = BlockCache::boot(alloc, capacity)?;
    let heap = KHeap::boot(alloc, 65536)?;
    Ok((heap, cache))
}

// A purse of so many Blocks.
fn purse(rt: &impl Abort, heap: &KHeap, block: u32) -> Purse
    requires { block ≤ 4 }
    ensures pays { CanPay heap.now result }
    ensures fills { HasBlockFills heap.now result }
    ensures few { result.need.block ≤ 4 }
{
    assert!(rt; heap.heap() >= 4352 && heap.live() <= heap.heap() - 4352);
    Purse::of(Need {
        block,
        ..Need::default()
    })
}

// Fills a block whose bytes all are its number.
fn fill(rt: &impl Abort, heap: &mut KHeap, purse: &mut Purse, cache: &mut BlockCache, number: u8)
    requires keeps { KeepsBlocks heap.old.blocks cache.old }
    requires pays { CanPay heap.old purse.old }
    requires fills { HasBlockFills heap.old purse.old }
    requires few { purse.old.need.block ≤ 4 }
    ensures keeps { KeepsBlocks heap.new.blocks cache.new }
    ensures pays { CanPay heap.new purse.new }
    ensures fills { HasBlockFills heap.new purse.new }
    ensures few { purse.new.need.block ≤ 4 }
{
    assert!(rt; !cache.has(number as u32));
    if purse.left(Class::Block) == 0 {
        assert!(rt; !purse.fills(Class::Block).is_empty());
    } else {
        assert!(rt; !cache.is_full());
    }
    cache.fill(heap, purse, number as u32, &[number; 1024]);
}

// Lets a block go.
fn let_go(rt: &impl Abort, heap: &mut KHeap, paid: &mut Purse, cache: &mut BlockCache, number: u8)
    requires keeps { KeepsBlocks heap.old.blocks cache.old }
    requires pays { CanPay heap.old paid.old }
    requires fills { HasBlockFills heap.old paid.old }
    requires few { paid.old.need.block ≤ 4 }
    ensures keeps { KeepsBlocks heap.new.blocks cache.new }
    ensures pays { CanPay heap.new paid.new }
    ensures fills { HasBlockFills heap.new paid.new }
    ensures few { paid.new.need.block ≤ 4 }
{
    assert!(rt; cache.has(number as u32));
    cache.let_go(heap, paid, number as u32);
}

// The first byte of a block that is cached.
fn first_byte(heap: &KHeap, cache: &mut BlockCache, number: u8) -> Option<u32>
    requires { KeepsBlocks heap.now.blocks cache.old }
    ensures { KeepsBlocks heap.now.blocks cache.new }
{
    match cache.get(heap, number as u32) {
        Some(bytes) => Some(bytes[0] as u32),
        None => None,
    }
}

fn look(heap: &KHeap, cache: &mut BlockCache, what: &Look) -> Answer
    requires { KeepsBlocks heap.now.blocks cache.old }
    ensures { KeepsBlocks heap.now.blocks cache.new }
{
    match what {
        Look::Get(number) => Answer::Found(first_byte(heap, cache, *number)),
        Look::Has(number) => Answer::Is(cache.has(*number as u32)),
        Look::Touch(number) => Answer::Is(cache.touch(heap, *number as u32).is_some()),
        Look::Slot(number) => Answer::Is(cache.slot(*number as u32).is_some()),
        Look::IsFull => Answer::Is(cache.is_full()),
        Look::IsEvictable => Answer::Is(cache.evictable(heap)),
        Look::High => Answer::Bytes(heap.high()),
        Look::Pins(_) => Answer::Nothing,
    }
}

fn change(rt: &impl Abort, heap: &mut KHeap, cache: &mut BlockCache, what: &Change) -> Answer
    requires { KeepsBlocks heap.old.blocks cache.old }
    ensures { KeepsBlocks heap.new.blocks cache.new }
{
    match what {
        Change::Set(number, byte) => {
            assert!(rt; cache.has(*number as u32));
            cache.set(heap, *number as u32, &[*byte; 1024]);
            Answer::Done
        }
        Change::Renew(number, byte) => {
            cache.renew(heap, *number as u32, &[*byte; 1024]);
            Answer::Done
        }
        Change::Forget(number) => {
            cache.forget(heap, *number as u32);
            Answer::Done
        }
        Change::Evict => Answer::Is(cache.evict_coldest(heap).is_some()),
    }
}

fn take(
    rt: &impl Abort,
    heap: &mut KHeap,
    paid: &mut Purse,
    cache: &mut BlockCache,
    step: &Step,
) -> Answer
    requires keeps { KeepsBlocks heap.old.blocks cache.old }
    requires pays { CanPay heap.old paid.old }
    requires fills { HasBlockFills heap.old paid.old }
    requires few { paid.old.need.block ≤ 4 }
    ensures keeps { KeepsBlocks heap.new.blocks cache.new }
    ensures pays { CanPay heap.new paid.new }
    ensures fills { HasBlockFills heap.new paid.new }
    ensures few { paid.new.need.block ≤ 4 }
{
    match step {
        Step::Begin(count) => {
            assert!(rt; *count <= 4);
            *paid = purse(rt, heap, *count);
            Answer::Done
        }
        Step::Fill(number) => {
            fill(rt, heap, paid, cache, *number);
            Answer::Done
        }
        Step::LetGo(number) => {
            let_go(rt, heap, paid, cache, *number);
            Answer::Done
        }
        Step::DropFills => {
            cache.drop_fills(heap, paid);
            let left = paid.left(Class::Block);
            *paid = purse(rt, heap, 0);
            Answer::Count(left)
        }
        Step::Left => Answer::Count(paid.left(Class::Block)),
        Step::See(what) => look(heap, cache, what),
        Step::Do(what) => {
            let answer = change(rt, heap, cache, what);
            *paid = purse(rt, heap, 0);
            answer
        }
        Step::Pin(_) | Step::Unpin(_) => Answer::Nothing,
    }
}

fn check_rows(rt: &impl Abort, heap: &mut KHeap, cache: &mut BlockCache, rows: &[Row])
    requires { KeepsBlocks heap.old.blocks cache.old }
{
    let mut paid = purse(rt, heap, 0);
    for (k, (step, answer, live)) in rows.iter().enumerate() {
        let told = take(rt, heap, &mut paid, cache, step);
        assert!(rt; told == *answer && heap.live() == *live, "row {k}");
    }
}

// All of it with a new cache of so many places.
fn check(rt: &impl Abort, alloc: Global, capacity: u32, rows: &[Row]) -> Result<(), Memory> {
    let (mut heap, mut cache) = booted(alloc, capacity)?;
    check_rows(rt, &mut heap, &mut cache, rows);
    drop(heap);
    drop(cache);
    Ok(())
}

// Each that is filled takes the place of the one that was filled before the last.
const FIVE: &[Row] = &[
    (Step::Begin(2), Answer::Done, 0),
    (Step::Fill(10), Answer::Done, 1088),
    (Step::See(Look::Get(10)), Answer::Found(Some(10)), 1088),
    (Step::See(Look::Get(11)), NONE, 1088),
    (Step::Fill(11), Answer::Done, 2176),
    (Step::See(Look::Get(11)), Answer::Found(Some(11)), 2176),
    (Step::Fill(12), Answer::Done, 2176),
    (Step::See(Look::Get(12)), Answer::Found(Some(12)), 2176),
    (Step::See(Look::Get(10)), NONE, 2176),
    (Step::Fill(13), Answer::Done, 2176),
    (Step::See(Look::Get(13)), Answer::Found(Some(13)), 2176),
    (Step::See(Look::Get(11)), NONE, 2176),
    (Step::Fill(14), Answer::Done, 2176),
    (Step::See(Look::Get(14)), Answer::Found(Some(14)), 2176),
    (Step::See(Look::Get(12)), NONE, 2176),
    (Step::See(Look::High), Answer::Bytes(2176), 2176),
];

const ONE_PLACE: &[Row] = &[
    (Step::Begin(1), Answer::Done, 0),
    (Step::Fill(5), Answer::Done, 1088),
    (Step::See(Look::Get(5)), Answer::Found(Some(5)), 1088),
    (Step::Fill(6), Answer::Done, 1088),
    (Step::See(Look::Get(6)), Answer::Found(Some(6)), 1088),
    (Step::See(Look::Get(5)), NONE, 1088),
    (Step::Fill(7), Answer::Done, 1088),
    (Step::See(Look::Has(6)), NO, 1088),
    (Step::See(Look::IsFull), YES, 1088),
    (Step::See(Look::High), Answer::Bytes(1088), 1088),
];

// Three blocks, of which the first is read and written, the second written, and each goes in its turn.
const IN_TURN: &[Row] = &[
    (Step::See(Look::Get(0)), NONE, 0),
    (Step::See(Look::IsEvictable), NO, 0),
    (Step::Begin(3), Answer::Done, 0),
    (Step::Fill(1), Answer::Done, 1088),
    (Step::Fill(2), Answer::Done, 2176),
    (Step::See(Look::IsFull), NO, 2176),
    (Step::Fill(3), Answer::Done, 3264),
    (Step::See(Look::IsFull), YES, 3264),
    (Step::Do(Change::Set(1, 7)), Answer::Done, 3264),
    (Step::See(Look::Get(1)), Answer::Found(Some(7)), 3264),
    (Step::Do(Change::Set(2, 9)), Answer::Done, 3264),
    (Step::Do(Change::Renew(3, 8)), Answer::Done, 3264),
    (Step::Do(Change::Renew(4, 8)), Answer::Done, 3264),
    (Step::See(Look::Has(4)), NO, 3264),
    (Step::See(Look::Slot(4)), NO, 3264),
    (Step::See(Look::Slot(3)), YES, 3264),
    (Step::See(Look::Touch(4)), NO, 3264),
    (Step::See(Look::Touch(3)), YES, 3264),
    (Step::See(Look::Get(3)), Answer::Found(Some(8)), 3264),
    (Step::Do(Change::Evict), YES, 2176),
    (Step::See(Look::Has(2)), NO, 2176),
    (Step::Do(Change::Forget(1)), Answer::Done, 1088),
    (Step::Do(Change::Forget(2)), Answer::Done, 1088),
    (Step::See(Look::Has(1)), NO, 1088),
    (Step::See(Look::Has(3)), YES, 1088),
    (Step::See(Look::IsEvictable), YES, 1088),
    (Step::Do(Change::Evict), YES, 0),
    (Step::See(Look::IsEvictable), NO, 0),
    (Step::Do(Change::Evict), NO, 0),
];

// What was filled is let go of one by one, and then all of it; what was filled before stays.
const DROPPED: &[Row] = &[
    (Step::Begin(1), Answer::Done, 0),
    (Step::Fill(9), Answer::Done, 1088),
    (Step::Begin(2), Answer::Done, 1088),
    (Step::Fill(1), Answer::Done, 2176),
    (Step::Fill(2), Answer::Done, 3264),
    (Step::LetGo(1), Answer::Done, 2176),
    (Step::See(Look::Has(1)), NO, 2176),
    (Step::See(Look::Has(2)), YES, 2176),
    (Step::Left, Answer::Count(1), 2176),
    (Step::Fill(3), Answer::Done, 3264),
    (Step::See(Look::Has(2)), YES, 3264),
    (Step::DropFills, Answer::Count(2), 1088),
    (Step::See(Look::Has(2)), NO, 1088),
    (Step::See(Look::Has(3)), NO, 1088),
    (Step::See(Look::Has(9)), YES, 1088),
    (Step::See(Look::High), Answer::Bytes(3264), 1088),
];

/// How many places a cache has, and what is done with it.
const CACHES: &[(u32, &[Row])] = &[(4, FIVE), (1, ONE_PLACE), (3, IN_TURN), (4, DROPPED)];

#[test]
fn blocks_are_kept_and_go(rt: HostRuntime) -> Result<(), Fail> {
    for (capacity, rows) in CACHES {
        check(&rt, rt.alloc(), *capacity, rows)?;
    }
    Ok(())
}
