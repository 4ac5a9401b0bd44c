//! `VnodeCache` and its calls. A clause sees a cache as its order of use, the pairs of a node's
//! number and the key of its Vnode in the heap, the coldest first, with the capacity; and as the
//! number of Vnodes without pins.
ghost use Rattle.std.specs.Prelude.{◌≡◌, ◌↔◌, ℕ, ◌+◌, ◌-◌, ◌<◌, ◌≤◌, [], None, Some, IfOk, IsSome, IsTrue, MatchOption, cond, length, nat_eq, slice_index_or, true};
ghost use Rattle.std.specs.Bool.{MatchBool};
ghost use Rattle.std.specs.List.{Contains};
ghost use Rattle.kheap_slabs.specs.Objects.{InUse, count};
ghost use Rattle.kheap_slabs.specs.Paid.{CanPay, IsPaid, TakesNothing};
ghost use Rattle.lru_index.specs.Order.{touched};
ghost use Rattle.vnode_cache.specs.Nodes.{nodes, node_slot, cached_inode, cached_pins, KeepsNodes, loose_count, node_is_loose, IsLoose, AreLoose, SomeLoose, IsFirstLoose, IsColdestLoose, StaysHeld, StaysBut};
ghost use Rattle.vnode_cache.specs.Calls.{new_vnode, HasNodeFills, MayFill, FillDropped, AllDropped, RoomMade, NodeAdded, NodeFilled, NodeGone, NodeSet, ColdestGone, Unchanged, TakenBack};

use cache_laws::place_of;
use kabi_types::{Class, Inode, Memory};
use kheap_slabs::{KHeap, Purse, Vnode};
use lru_index::Index;
use std::alloc::Global;
use std::marker::Model;

/// The Vnodes of the heap by their nodes' numbers, in the order of their last use.
#[derive(Drop)]
pub struct VnodeCache {
    slots: Index<u64>,
    // How many have no pin.
    loose: u32,
}

impl Model for VnodeCache {
    ghost use Rattle.vnode_cache.specs.Nodes.{Nodes};

    ghost Value = { Nodes };

    ghost view = { λ cache. record { order = cache.slots; loose = cache.loose } };
}

// One more has no pin. There are fewer such than Vnodes.
fn one_more(heap: &KHeap, loose: u32) -> u32
    requires { loose < count heap.now.vnodes }
    ensures { result ≡ loose + 1 }
{
    let _most = heap.heap();
    loose + 1
}

// How many have no pin after one, that had so many, got one.
fn after_pin(loose: u32, pins: u32) -> u32
    requires { pins ≡ 0 → 1 ≤ loose }
    ensures { result + cond (nat_eq pins 0) 1 0 ≡ loose }
{
    if pins == 0 { loose - 1 } else { loose }
}

// How many have no pin after one, that had so many, lost one.
fn after_unpin(heap: &KHeap, loose: u32, pins: u32) -> u32
    requires { pins ≡ 1 → loose < count heap.now.vnodes }
    ensures { result ≡ loose + cond (nat_eq pins 1) 1 0 }
{
    if pins == 1 {
        one_more(heap, loose)
    } else {
        loose
    }
}

// Where the first of these stands whose Vnode has no pin.
fn first_loose(heap: &KHeap, fills: &[u32]) -> u32
    requires short { length fills.now ≤ 4 }
    requires used { (slot : ℕ) → Contains fills.now slot → InUse heap.now.vnodes slot }
    requires some { SomeLoose heap.now.vnodes fills.now }
    ensures { IsFirstLoose heap.now.vnodes fills.now result }
{
    for at in 0..fills.len() as u32 {
        if heap.get_vnode(fills[at as usize]).pins == 0 {
            return at;
        }
    }
    unreachable!()
}

impl VnodeCache {
    /// A cache with nothing in it, and room for `capacity` inodes. No later call takes memory.
    pub fn boot(alloc: Global, capacity: u32) -> Result<VnodeCache, Memory>
        ensures empty { IfOk result (λ made. made ≡ nodes [] capacity 0) }
    {
        Ok(VnodeCache {
            slots: Index::boot(alloc, capacity)?,
            loose: 0,
        })
    }

    /// Whether a node is cached.
    pub fn has(&self, number: u32) -> bool
        ensures { IsTrue result ↔ IsSome (node_slot self.now number) }
    {
        self.slots.find(number as u64).is_some()
    }

    /// Whether there is no room for one more inode.
    pub fn is_full(&self) -> bool
        ensures { MatchBool result (self.now.order.capacity ≡ length self.now.order.pairs)
            (length self.now.order.pairs < self.now.order.capacity) }
    {
        self.slots.is_full()
    }

    /// The inode of a node, which is the warmest from then on; None where it isn't cached.
    pub fn get(&mut self, heap: &KHeap, number: u32) -> Option<Inode>
        requires keeps { KeepsNodes heap.now.vnodes self.old }
        ensures value { result ≡ cached_inode heap.now.vnodes self.old number }
        ensures used { self.new
            ≡ nodes (touched (nat_eq number) self.old.order.pairs) self.old.order.capacity self.old.loose }
        ensures same { (other : ℕ) → node_slot self.new other ≡ node_slot self.old other }
        ensures keeps { KeepsNodes heap.now.vnodes self.new }
    {
        match self.slots.used(number as u64) {
            Some(slot) => Some(heap.get_vnode(slot).inode),
            None => None,
        }
    }

    /// How many hold a cached node.
    pub fn pins(&self, heap: &KHeap, number: u32) -> u32
        requires keeps { KeepsNodes heap.now.vnodes self.now }
        requires there { IsSome (node_slot self.now number) }
        ensures { cached_pins heap.now.vnodes self.now number ≡ Some result }
    {
        let slot = self.slot_of(number as u64);
        heap.get_vnode(slot).pins
    }

    /// Gives a cached node another inode. Its pins and its place in the order of use stay.
    pub fn set(&mut self, heap: &mut KHeap, number: u32, inode: Inode)
        requires keeps { KeepsNodes heap.old.vnodes self.old }
        requires there { IsSome (node_slot self.old number) }
        ensures stored { NodeSet number (λ was. record was { inode = inode }) heap.old heap.new self.old self.new }
        ensures value { cached_inode heap.new.vnodes self.new number ≡ Some inode }
        ensures same { self.new ≡ self.old }
        ensures held { (other : ℕ) → StaysHeld other heap.old.vnodes heap.new.vnodes }
        ensures keeps { KeepsNodes heap.new.vnodes self.new }
        ensures takes { TakesNothing heap.old heap.new }
    {
        let slot = self.slot_of(number as u64);
        let was = *heap.get_vnode(slot);
        heap.set_vnode(slot, Vnode { inode, ..was });
    }

    /// Holds a cached node once more.
    pub fn pin(&mut self, heap: &mut KHeap, number: u32)
        requires keeps { KeepsNodes heap.old.vnodes self.old }
        requires there { IsSome (node_slot self.old number) }
        requires few { (pins : ℕ) → cached_pins heap.old.vnodes self.old number ≡ Some pins
            → pins < 4294967295 }
        ensures stored { NodeSet number (λ was. record was { pins = was.pins + 1 }) heap.old heap.new self.old self.new }
        ensures same { self.new.order ≡ self.old.order }
        ensures held { (other : ℕ) → StaysHeld other heap.old.vnodes heap.new.vnodes }
        ensures keeps { KeepsNodes heap.new.vnodes self.new }
        ensures takes { TakesNothing heap.old heap.new }
    {
        let slot = self.slot_of(number as u64);
        let was = *heap.get_vnode(slot);
        let pins = was.pins + 1;
        heap.set_vnode(slot, Vnode { pins, ..was });
        self.loose = after_pin(self.loose, was.pins);
    }

    /// Holds a cached node, that is held, once less.
    pub fn unpin(&mut self, heap: &mut KHeap, number: u32)
        requires keeps { KeepsNodes heap.old.vnodes self.old }
        requires there { IsSome (node_slot self.old number) }
        requires pinned { (pins : ℕ) → cached_pins heap.old.vnodes self.old number ≡ Some pins
            → 0 < pins }
        ensures stored { NodeSet number (λ was. record was { pins = was.pins - 1 }) heap.old heap.new self.old self.new }
        ensures same { self.new.order ≡ self.old.order }
        ensures held { (other : ℕ) → (other ≡ number → ⊥)
            → StaysHeld other heap.old.vnodes heap.new.vnodes }
        ensures less { StaysBut 1 number heap.old.vnodes heap.new.vnodes }
        ensures keeps { KeepsNodes heap.new.vnodes self.new }
        ensures takes { TakesNothing heap.old heap.new }
    {
        let slot = self.slot_of(number as u64);
        let was = *heap.get_vnode(slot);
        let pins = was.pins - 1;
        heap.set_vnode(slot, Vnode { pins, ..was });
        self.loose = after_unpin(heap, self.loose, was.pins);
    }

    /// Fills an inode that isn't cached, with no pin. Where the purse has no Vnode left, of those
    /// that were filled through it the first without pins goes before.
    #[cold]
    pub fn fill(&mut self, heap: &mut KHeap, purse: &mut Purse, number: u32, inode: Inode)
        requires keeps { KeepsNodes heap.old.vnodes self.old }
        requires absent { node_slot self.old number ≡ None }
        requires pays { CanPay heap.old purse.old }
        requires fills { HasNodeFills heap.old purse.old }
        requires few { purse.old.need.vnode ≤ 4 }
        requires may { MayFill heap.old self.old purse.old }
        ensures filled { NodeFilled (new_vnode number inode) heap.old heap.new purse.old purse.new self.old self.new }
        ensures value { cached_inode heap.new.vnodes self.new number ≡ Some inode }
        ensures held { (other : ℕ) → StaysHeld other heap.old.vnodes heap.new.vnodes }
        ensures keeps { KeepsNodes heap.new.vnodes self.new }
        ensures fills { HasNodeFills heap.new purse.new }
        ensures paid { IsPaid heap.old purse.old heap.new purse.new }
    {
        self.make_room(heap, purse);
        self.add(heap, purse, number, inode);
    }

    // Where the purse has no Vnode left, the first that was filled and has no pin goes.
    fn make_room(&mut self, heap: &mut KHeap, purse: &mut Purse)
        requires keeps { KeepsNodes heap.old.vnodes self.old }
        requires fills { HasNodeFills heap.old purse.old }
        requires few { purse.old.need.vnode ≤ 4 }
        requires may { MayFill heap.old self.old purse.old }
        ensures made { RoomMade heap.old heap.new purse.old purse.new self.old self.new }
        ensures absent { (other : ℕ) → node_slot self.old other ≡ None
            → node_slot self.new other ≡ None }
        ensures room { length self.new.order.pairs < self.new.order.capacity }
        ensures left { 0 < purse.new.left.vnode }
        ensures held { (other : ℕ) → StaysHeld other heap.old.vnodes heap.new.vnodes }
        ensures keeps { KeepsNodes heap.new.vnodes self.new }
        ensures fills { HasNodeFills heap.new purse.new }
        ensures paid { IsPaid heap.old purse.old heap.new purse.new }
    {
        if purse.left(Class::Vnode) != 0 {
            return;
        }
        let at = first_loose(heap, purse.fills(Class::Vnode));
        let _slot = self.drop_at(heap, purse, at);
    }

    // The Vnode that was filled at a place, and that no one holds, goes. Answers its slot.
    fn drop_at(&mut self, heap: &mut KHeap, purse: &mut Purse, at: u32) -> u32
        requires keeps { KeepsNodes heap.old.vnodes self.old }
        requires fills { HasNodeFills heap.old purse.old }
        requires at { at < length purse.old.vnodes }
        requires loose { IsLoose heap.old.vnodes (slice_index_or purse.old.vnodes at 0) }
        ensures slot { result ≡ slice_index_or purse.old.vnodes at 0 }
        ensures dropped { FillDropped at heap.old heap.new purse.old purse.new self.old self.new }
        ensures slots { (number : ℕ) → node_slot self.old number ≡ Some result → (other : ℕ)
            → node_slot self.new other ≡ cond (nat_eq number other) None (node_slot self.old other) }
        ensures absent { (other : ℕ) → node_slot self.old other ≡ None
            → node_slot self.new other ≡ None }
        ensures room { length self.new.order.pairs < self.new.order.capacity }
        ensures held { (other : ℕ) → StaysHeld other heap.old.vnodes heap.new.vnodes }
        ensures keeps { KeepsNodes heap.new.vnodes self.new }
        ensures fills { HasNodeFills heap.new purse.new }
        ensures paid { IsPaid heap.old purse.old heap.new purse.new }
    {
        let slot = purse.drop_fill(Class::Vnode, at);
        let gone = heap.free_vnode(slot);
        purse.give(Class::Vnode);
        self.loose -= 1;
        self.slots.drop_key(gone.number as u64)
    }

    // Makes a Vnode, of which the purse has one left, as the warmest.
    fn add(&mut self, heap: &mut KHeap, purse: &mut Purse, number: u32, inode: Inode)
        requires keeps { KeepsNodes heap.old.vnodes self.old }
        requires absent { node_slot self.old number ≡ None }
        requires room { length self.old.order.pairs < self.old.order.capacity }
        requires pays { CanPay heap.old purse.old }
        requires left { 0 < purse.old.left.vnode }
        requires few { length purse.old.vnodes < 4 }
        requires fills { HasNodeFills heap.old purse.old }
        ensures added { (slot : ℕ) × NodeAdded (new_vnode number inode) heap.old heap.new purse.old purse.new self.old self.new slot }
        ensures value { cached_inode heap.new.vnodes self.new number ≡ Some inode }
        ensures held { (other : ℕ) → StaysHeld other heap.old.vnodes heap.new.vnodes }
        ensures keeps { KeepsNodes heap.new.vnodes self.new }
        ensures fills { HasNodeFills heap.new purse.new }
        ensures paid { IsPaid heap.old purse.old heap.new purse.new }
    {
        purse.spend(Class::Vnode);
        let slot = heap.insert_vnode(Vnode {
            number,
            inode,
            pins: 0,
        });
        purse.add_fill(Class::Vnode, slot);
        self.slots.put(number as u64, slot);
        self.loose = one_more(heap, self.loose);
    }

    /// Lets a node go that no one holds, where it is cached.
    pub fn forget(&mut self, heap: &mut KHeap, number: u32)
        requires keeps { KeepsNodes heap.old.vnodes self.old }
        requires unpinned { (pins : ℕ) → cached_pins heap.old.vnodes self.old number ≡ Some pins
            → pins ≡ 0 }
        ensures gone { MatchOption (node_slot self.old number)
            (Unchanged heap.old heap.new self.old self.new)
            (λ slot. NodeGone number slot heap.old heap.new self.old self.new) }
        ensures slots { (other : ℕ) → node_slot self.new other
            ≡ cond (nat_eq number other) None (node_slot self.old other) }
        ensures held { (other : ℕ) → StaysHeld other heap.old.vnodes heap.new.vnodes }
        ensures keeps { KeepsNodes heap.new.vnodes self.new }
        ensures takes { TakesNothing heap.old heap.new }
    {
        let Some(_) = self.slots.find(number as u64) else {
            return;
        };
        let _slot = self.remove(heap, number as u64);
    }

    // Lets a cached node go that no one holds. Answers its slot.
    fn remove(&mut self, heap: &mut KHeap, number: u64) -> u32
        requires keeps { KeepsNodes heap.old.vnodes self.old }
        requires there { IsSome (node_slot self.old number) }
        requires loose { node_is_loose heap.old.vnodes self.old.order number ≡ true }
        ensures gone { NodeGone number result heap.old heap.new self.old self.new }
        ensures slots { (other : ℕ) → node_slot self.new other
            ≡ cond (nat_eq number other) None (node_slot self.old other) }
        ensures held { (other : ℕ) → StaysHeld other heap.old.vnodes heap.new.vnodes }
        ensures keeps { KeepsNodes heap.new.vnodes self.new }
        ensures takes { TakesNothing heap.old heap.new }
    {
        let slot = self.slots.drop_key(number);
        let _ = heap.free_vnode(slot);
        self.loose -= 1;
        slot
    }

    /// Lets a node go that no one holds, where it is cached. Where the call filled it, its purse
    /// takes it back.
    pub fn let_go(&mut self, heap: &mut KHeap, purse: &mut Purse, number: u32)
        requires keeps { KeepsNodes heap.old.vnodes self.old }
        requires unpinned { (pins : ℕ) → cached_pins heap.old.vnodes self.old number ≡ Some pins
            → pins ≡ 0 }
        requires fills { HasNodeFills heap.old purse.old }
        requires few { purse.old.need.vnode ≤ 4 }
        ensures gone { MatchOption (node_slot self.old number)
            (Unchanged heap.old heap.new self.old self.new × (purse.new ≡ purse.old))
            (λ slot. NodeGone number slot heap.old heap.new self.old self.new
            × TakenBack slot purse.old purse.new) }
        ensures slots { (other : ℕ) → node_slot self.new other
            ≡ cond (nat_eq number other) None (node_slot self.old other) }
        ensures held { (other : ℕ) → StaysHeld other heap.old.vnodes heap.new.vnodes }
        ensures keeps { KeepsNodes heap.new.vnodes self.new }
        ensures fills { HasNodeFills heap.new purse.new }
        ensures paid { IsPaid heap.old purse.old heap.new purse.new }
    {
        let Some(slot) = self.slots.find(number as u64) else {
            return;
        };
        let Some(at) = place_of(purse.fills(Class::Vnode), slot) else {
            let _slot = self.remove(heap, number as u64);
            return;
        };
        let _slot = self.drop_at(heap, purse, at);
    }

    /// Lets all nodes go that the call filled, none of which is held. Its purse takes them back.
    pub fn drop_fills(&mut self, heap: &mut KHeap, purse: &mut Purse)
        requires keeps { KeepsNodes heap.old.vnodes self.old }
        requires fills { HasNodeFills heap.old purse.old }
        requires unpinned { AreLoose heap.old.vnodes purse.old.vnodes }
        ensures dropped { AllDropped heap.old heap.new purse.old purse.new self.old self.new }
        ensures held { (other : ℕ) → StaysHeld other heap.old.vnodes heap.new.vnodes }
        ensures keeps { KeepsNodes heap.new.vnodes self.new }
        ensures fills { HasNodeFills heap.new purse.new }
        ensures paid { IsPaid heap.old purse.old heap.new purse.new }
    {
        while !purse.fills(Class::Vnode).is_empty() {
            let _slot = self.drop_at(heap, purse, 0);
        }
    }

    /// Whether there is a node that no one holds, so that it may go.
    pub fn evictable(&self, heap: &KHeap) -> bool
        requires { KeepsNodes heap.now.vnodes self.now }
        ensures { IsTrue result ↔ (0 < loose_count heap.now.vnodes) }
    {
        self.loose != 0
    }

    /// Of the nodes that no one holds lets the one go that was used longest ago, and answers the
    /// key of its Vnode; None where each is held.
    pub fn evict_coldest(&mut self, heap: &mut KHeap) -> Option<u32>
        requires keeps { KeepsNodes heap.old.vnodes self.old }
        ensures coldest { MatchOption result
            (Unchanged heap.old heap.new self.old self.new × (loose_count heap.old.vnodes ≡ 0))
            (λ slot. ColdestGone slot heap.old heap.new self.old self.new) }
        ensures held { (other : ℕ) → StaysHeld other heap.old.vnodes heap.new.vnodes }
        ensures keeps { KeepsNodes heap.new.vnodes self.new }
        ensures takes { TakesNothing heap.old heap.new }
    {
        let Some(number) = self.coldest_loose(heap) else {
            return None;
        };
        Some(self.remove(heap, number))
    }

    // The node that was used longest ago of those that no one holds; None where each is held.
    fn coldest_loose(&self, heap: &KHeap) -> Option<u64>
        requires { KeepsNodes heap.now.vnodes self.now }
        ensures coldest { MatchOption result (loose_count heap.now.vnodes ≡ 0)
            (λ number. IsColdestLoose heap.now.vnodes self.now.order number
            × IsSome (node_slot self.now number)) }
    {
        let mut next = self.slots.coldest(None);
        while let Some(number) = next {
            if self.is_loose(heap, number) {
                return Some(number);
            }
            let warmer = self.slots.coldest(Some(number));
            next = warmer;
        }
        None
    }

    // The slot of a cached node.
    fn slot_of(&self, number: u64) -> u32
        requires { IsSome (node_slot self.now number) }
        ensures { node_slot self.now number ≡ Some result }
    {
        let Some(slot) = self.slots.find(number) else {
            unreachable!()
        };
        slot
    }

    // Whether no one holds a cached node.
    fn is_loose(&self, heap: &KHeap, number: u64) -> bool
        requires keeps { KeepsNodes heap.now.vnodes self.now }
        requires there { IsSome (node_slot self.now number) }
        ensures { result ≡ node_is_loose heap.now.vnodes self.now.order number }
    {
        let slot = self.slot_of(number);
        heap.get_vnode(slot).pins == 0
    }
}
