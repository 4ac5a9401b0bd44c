//! `BlockCache` and its calls. A clause sees a cache as its order of use: the pairs of a block's
//! number and the key of its Block in the heap, the coldest first, and the capacity.
ghost use Rattle.std.specs.Prelude.{◌≡◌, ◌↔◌, ℕ, ◌<◌, ◌≤◌, [], None, Some, IfNone, IfOk, IsSome, IsTrue, MatchOption, cond, length, nat_eq, slice_index_or};
ghost use Rattle.std.specs.Bool.{MatchBool};
ghost use Rattle.kheap_slabs.specs.Objects.{put};
ghost use Rattle.kheap_slabs.specs.Paid.{CanPay, IsPaid, TakesNothing};
ghost use Rattle.lru_index.specs.Order.{order, touched};
ghost use Rattle.block_cache.specs.Blocks.{block, block_slot, cached_block, KeepsBlocks, HasBlockFills, MayFill, FillDropped, AllDropped, RoomMade, BlockAdded, BlockFilled, BlockGone, ColdestGone, Unchanged, TakenBack};

use cache_laws::place_of;
use kabi_types::{Class, Memory};
use kheap_slabs::{Block, KHeap, Purse};
use lru_index::Index;
use std::alloc::Global;
use std::marker::Model;

/// The Blocks of the heap by their numbers, in the order of their last use.
#[derive(Drop)]
pub struct BlockCache {
    slots: Index<u64>,
}

impl Model for BlockCache {
    ghost use Rattle.std.specs.Prelude.{ℕ};
    ghost use Rattle.lru_index.specs.Order.{Order};

    ghost Value = { Order ℕ };

    ghost view = { λ cache. cache.slots };
}

impl BlockCache {
    /// A cache with nothing in it, and room for `capacity` blocks. No later call takes memory.
    pub fn boot(alloc: Global, capacity: u32) -> Result<BlockCache, Memory>
        ensures empty { IfOk result (λ made. made ≡ order [] capacity) }
    {
        Ok(BlockCache {
            slots: Index::boot(alloc, capacity)?,
        })
    }

    /// Whether a block is cached.
    pub fn has(&self, number: u32) -> bool
        ensures { IsTrue result ↔ IsSome (block_slot self.now number) }
    {
        self.slots.find(number as u64).is_some()
    }

    /// Whether there is no room for one more block.
    pub fn is_full(&self) -> bool
        ensures { MatchBool result (self.now.capacity ≡ length self.now.pairs)
            (length self.now.pairs < self.now.capacity) }
    {
        self.slots.is_full()
    }

    /// The bytes of a block, which is the warmest from then on; None where it isn't cached.
    pub fn get(&mut self, heap: &KHeap, number: u32) -> Option<[u8; 1024]>
        requires keeps { KeepsBlocks heap.now.blocks self.old }
        ensures value { result ≡ cached_block heap.now.blocks self.old number }
        ensures used { self.new
            ≡ order (touched (nat_eq number) self.old.pairs) self.old.capacity }
        ensures same { (other : ℕ) → block_slot self.new other ≡ block_slot self.old other }
        ensures keeps { KeepsBlocks heap.now.blocks self.new }
    {
        match self.touch(heap, number) {
            Some(slot) => Some(heap.get_block(slot).bytes),
            None => None,
        }
    }

    /// The key of a block's Block in the heap, which is the warmest from then on; None where it isn't cached.
    ///
    /// Its bytes can so be copied out of the heap once, to where they are wanted.
    pub fn touch(&mut self, heap: &KHeap, number: u32) -> Option<u32>
        requires { KeepsBlocks heap.now.blocks self.old }
        ensures slot { result ≡ block_slot self.old number }
        ensures used { self.new
            ≡ order (touched (nat_eq number) self.old.pairs) self.old.capacity }
        ensures same { (other : ℕ) → block_slot self.new other ≡ block_slot self.old other }
        ensures absent { IfNone result (self.new ≡ self.old) }
        ensures keeps { KeepsBlocks heap.now.blocks self.new }
    {
        self.slots.used(number as u64)
    }

    /// The key of a block's Block in the heap; None where it isn't cached. The order of use stays.
    pub fn slot(&self, number: u32) -> Option<u32>
        ensures { result ≡ block_slot self.now number }
    {
        self.slots.find(number as u64)
    }

    /// Gives a cached block other bytes. Its place in the order of use stays.
    pub fn set(&mut self, heap: &mut KHeap, number: u32, bytes: &[u8; 1024])
        requires keeps { KeepsBlocks heap.old.blocks self.old }
        requires there { IsSome (block_slot self.old number) }
        ensures stored { (slot : ℕ) → block_slot self.old number ≡ Some slot
            → heap.new
            ≡ record heap.old { blocks = put heap.old.blocks slot (block number bytes.now) } }
        ensures value { cached_block heap.new.blocks self.new number ≡ Some bytes.now }
        ensures same { self.new ≡ self.old }
        ensures keeps { KeepsBlocks heap.new.blocks self.new }
        ensures takes { TakesNothing heap.old heap.new }
    {
        self.renew(heap, number, bytes);
    }

    /// Gives a block other bytes where it is cached. Its place in the order of use stays.
    pub fn renew(&self, heap: &mut KHeap, number: u32, bytes: &[u8; 1024])
        requires { KeepsBlocks heap.old.blocks self.now }
        ensures stored { MatchOption (block_slot self.now number) (heap.new ≡ heap.old)
            (λ slot. heap.new
            ≡ record heap.old { blocks = put heap.old.blocks slot (block number bytes.now) }) }
        ensures keeps { KeepsBlocks heap.new.blocks self.now }
        ensures takes { TakesNothing heap.old heap.new }
    {
        let Some(slot) = self.slots.find(number as u64) else {
            return;
        };
        heap.write_block(slot, number, bytes);
    }

    /// Fills a block that isn't cached. Where the purse has no Block left, the one that was filled
    /// through it first goes before.
    pub fn fill(&mut self, heap: &mut KHeap, purse: &mut Purse, number: u32, bytes: &[u8; 1024])
        requires keeps { KeepsBlocks heap.old.blocks self.old }
        requires absent { block_slot self.old number ≡ None }
        requires pays { CanPay heap.old purse.old }
        requires fills { HasBlockFills heap.old purse.old }
        requires few { purse.old.need.block ≤ 4 }
        requires may { MayFill self.old purse.old }
        ensures filled { BlockFilled (block number bytes.now) heap.old heap.new purse.old purse.new self.old self.new }
        ensures value { cached_block heap.new.blocks self.new number ≡ Some bytes.now }
        ensures keeps { KeepsBlocks heap.new.blocks self.new }
        ensures fills { HasBlockFills heap.new purse.new }
        ensures paid { IsPaid heap.old purse.old heap.new purse.new }
    {
        self.make_room(heap, purse);
        self.add(heap, purse, number, bytes);
    }

    // Where the purse has no Block left, the one that was filled first goes.
    fn make_room(&mut self, heap: &mut KHeap, purse: &mut Purse)
        requires keeps { KeepsBlocks heap.old.blocks self.old }
        requires fills { HasBlockFills heap.old purse.old }
        requires may { MayFill self.old purse.old }
        ensures made { RoomMade heap.old heap.new purse.old purse.new self.old self.new }
        ensures absent { (other : ℕ) → block_slot self.old other ≡ None
            → block_slot self.new other ≡ None }
        ensures room { length self.new.pairs < self.new.capacity }
        ensures left { 0 < purse.new.left.block }
        ensures keeps { KeepsBlocks heap.new.blocks self.new }
        ensures fills { HasBlockFills heap.new purse.new }
        ensures paid { IsPaid heap.old purse.old heap.new purse.new }
    {
        if purse.left(Class::Block) != 0 {
            return;
        }
        let _gone = self.drop_at(heap, purse, 0);
    }

    // The Block that was filled at a place goes. Answers its slot.
    fn drop_at(&mut self, heap: &mut KHeap, purse: &mut Purse, at: u32) -> u32
        requires keeps { KeepsBlocks heap.old.blocks self.old }
        requires fills { HasBlockFills heap.old purse.old }
        requires at { at < length purse.old.blocks }
        ensures slot { result ≡ slice_index_or purse.old.blocks at 0 }
        ensures dropped { FillDropped at heap.old heap.new purse.old purse.new self.old self.new }
        ensures slots { (number : ℕ) → block_slot self.old number ≡ Some result → (other : ℕ)
            → block_slot self.new other ≡ cond (nat_eq number other) None (block_slot self.old other) }
        ensures absent { (other : ℕ) → block_slot self.old other ≡ None
            → block_slot self.new other ≡ None }
        ensures room { length self.new.pairs < self.new.capacity }
        ensures keeps { KeepsBlocks heap.new.blocks self.new }
        ensures fills { HasBlockFills heap.new purse.new }
        ensures paid { IsPaid heap.old purse.old heap.new purse.new }
    {
        let slot = purse.drop_fill(Class::Block, at);
        let gone = heap.free_block(slot);
        purse.give(Class::Block);
        self.slots.drop_key(gone.number as u64)
    }

    // Makes a Block, of which the purse has one left, as the warmest.
    fn add(&mut self, heap: &mut KHeap, purse: &mut Purse, number: u32, bytes: &[u8; 1024])
        requires keeps { KeepsBlocks heap.old.blocks self.old }
        requires absent { block_slot self.old number ≡ None }
        requires room { length self.old.pairs < self.old.capacity }
        requires pays { CanPay heap.old purse.old }
        requires left { 0 < purse.old.left.block }
        requires few { length purse.old.blocks < 4 }
        requires fills { HasBlockFills heap.old purse.old }
        ensures added { (slot : ℕ) × BlockAdded (block number bytes.now) heap.old heap.new purse.old purse.new self.old self.new slot }
        ensures value { cached_block heap.new.blocks self.new number ≡ Some bytes.now }
        ensures keeps { KeepsBlocks heap.new.blocks self.new }
        ensures fills { HasBlockFills heap.new purse.new }
        ensures paid { IsPaid heap.old purse.old heap.new purse.new }
    {
        purse.spend(Class::Block);
        let slot = heap.insert_block(Block {
            number,
            bytes: *bytes,
        });
        purse.add_fill(Class::Block, slot);
        self.slots.put(number as u64, slot);
    }

    /// Lets a block go, where it is cached.
    pub fn forget(&mut self, heap: &mut KHeap, number: u32)
        requires keeps { KeepsBlocks heap.old.blocks self.old }
        ensures gone { MatchOption (block_slot self.old number)
            (Unchanged heap.old heap.new self.old self.new)
            (λ slot. BlockGone number slot heap.old heap.new self.old self.new) }
        ensures slots { (other : ℕ) → block_slot self.new other
            ≡ cond (nat_eq number other) None (block_slot self.old other) }
        ensures keeps { KeepsBlocks heap.new.blocks self.new }
        ensures takes { TakesNothing heap.old heap.new }
    {
        let Some(_) = self.slots.find(number as u64) else {
            return;
        };
        let slot = self.slots.drop_key(number as u64);
        let _ = heap.free_block(slot);
    }

    /// Lets a block go, where it is cached. Where the call filled it, its purse takes it back.
    pub fn let_go(&mut self, heap: &mut KHeap, purse: &mut Purse, number: u32)
        requires keeps { KeepsBlocks heap.old.blocks self.old }
        requires fills { HasBlockFills heap.old purse.old }
        requires few { purse.old.need.block ≤ 4 }
        ensures gone { MatchOption (block_slot self.old number)
            (Unchanged heap.old heap.new self.old self.new × (purse.new ≡ purse.old))
            (λ slot. BlockGone number slot heap.old heap.new self.old self.new
            × TakenBack slot purse.old purse.new) }
        ensures slots { (other : ℕ) → block_slot self.new other
            ≡ cond (nat_eq number other) None (block_slot self.old other) }
        ensures keeps { KeepsBlocks heap.new.blocks self.new }
        ensures fills { HasBlockFills heap.new purse.new }
        ensures paid { IsPaid heap.old purse.old heap.new purse.new }
    {
        let Some(slot) = self.slots.find(number as u64) else {
            return;
        };
        let Some(at) = place_of(purse.fills(Class::Block), slot) else {
            self.forget(heap, number);
            return;
        };
        let _slot = self.drop_at(heap, purse, at);
    }

    /// Lets all blocks go that the call filled. Its purse takes them back.
    pub fn drop_fills(&mut self, heap: &mut KHeap, purse: &mut Purse)
        requires keeps { KeepsBlocks heap.old.blocks self.old }
        requires fills { HasBlockFills heap.old purse.old }
        ensures dropped { AllDropped heap.old heap.new purse.old purse.new self.old self.new }
        ensures keeps { KeepsBlocks heap.new.blocks self.new }
        ensures fills { HasBlockFills heap.new purse.new }
        ensures paid { IsPaid heap.old purse.old heap.new purse.new }
    {
        while !purse.fills(Class::Block).is_empty() {
            let _slot = self.drop_at(heap, purse, 0);
        }
    }

    /// Whether there is a block that may go: each may.
    pub fn evictable(&self, _heap: &KHeap) -> bool
        ensures { IsTrue result ↔ (self.now.pairs ≡ [] → ⊥) }
    {
        self.slots.coldest(None).is_some()
    }

    /// Lets the block go that was used longest ago, and answers the key of its Block; None where
    /// nothing is cached.
    pub fn evict_coldest(&mut self, heap: &mut KHeap) -> Option<u32>
        requires keeps { KeepsBlocks heap.old.blocks self.old }
        ensures coldest { MatchOption result
            (Unchanged heap.old heap.new self.old self.new × (self.old.pairs ≡ []))
            (λ slot. ColdestGone slot heap.old heap.new self.old self.new) }
        ensures keeps { KeepsBlocks heap.new.blocks self.new }
        ensures takes { TakesNothing heap.old heap.new }
    {
        let Some(number) = self.slots.coldest(None) else {
            return None;
        };
        let slot = self.slots.drop_key(number);
        let _ = heap.free_block(slot);
        Some(slot)
    }
}
