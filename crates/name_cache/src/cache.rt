//! `NameCache` and its calls. A clause sees a cache as its order of use: the pairs of a name's key
//! and the key of its Name in the heap, the coldest first, and the capacity.
ghost use Rattle.std.specs.Prelude.{◌≡◌, ◌↔◌, ℕ, ◌<◌, ◌≤◌, [], None, Some, IfOk, IsSome, IsTrue, MatchOption, cond, length, slice_index_or, take};
ghost use Rattle.std.specs.Bool.{MatchBool};
ghost use Rattle.kheap_slabs.specs.Objects.{object, put};
ghost use Rattle.kheap_slabs.specs.declared.objects.Name.{Name as NameOf};
ghost use Rattle.kheap_slabs.specs.Paid.{CanPay, IsPaid, TakesNothing};
ghost use Rattle.lru_index.specs.Order.{order, touched};
ghost use Rattle.lru_index.specs.declared.keys.NameKey.{NameKey as KeyOf};
ghost use Rattle.name_cache.specs.Names.{same_key, name_of, IsNameKey, name_slot, cached_node, KeepsNames, HasNameFills, MayFill, FillDropped, AllDropped, RoomMade, NameAdded, NameFilled, NameGone, ColdestGone, Unchanged, TakenBack};

use cache_laws::place_of;
use kabi_types::{Class, Memory, Name27};
use kheap_slabs::{KHeap, Name, Purse};
use lru_index::{Index, NameKey};
use std::alloc::Global;
use std::marker::Model;

/// The Names of the heap by directory and name, in the order of their last use.
#[derive(Drop)]
pub struct NameCache {
    slots: Index<NameKey>,
}

impl Model for NameCache {
    ghost use Rattle.lru_index.specs.Order.{Order};
    ghost use Rattle.lru_index.specs.declared.keys.NameKey.{NameKey};

    ghost Value = { Order NameKey };

    ghost view = { λ cache. cache.slots };
}

// The name of a key.
fn name_in(key: &NameKey) -> Name27
    requires { IsNameKey key.now }
    ensures { result ≡ take key.now.len key.now.name }
{
    let Some(name) = Name27::of(&key.name[..key.len as usize]) else {
        unreachable!()
    };
    name
}

impl NameCache {
    /// A cache with nothing in it, and room for `capacity` names. No later call takes memory.
    pub fn boot(alloc: Global, capacity: u32) -> Result<NameCache, Memory>
        ensures empty { IfOk result (λ made. made ≡ order [] capacity) }
    {
        Ok(NameCache {
            slots: Index::boot(alloc, capacity)?,
        })
    }

    /// Whether a name is cached.
    pub fn has(&self, key: NameKey) -> bool
        ensures { IsTrue result ↔ IsSome (name_slot self.now key) }
    {
        self.slots.find(key).is_some()
    }

    /// Whether there is no room for one more name.
    pub fn is_full(&self) -> bool
        ensures { MatchBool result (self.now.capacity ≡ length self.now.pairs)
            (length self.now.pairs < self.now.capacity) }
    {
        self.slots.is_full()
    }

    /// The node of a name, which is the warmest from then on; None where it isn't cached.
    pub fn get(&mut self, heap: &KHeap, key: NameKey) -> Option<u32>
        requires keeps { KeepsNames heap.now.names self.old }
        ensures value { result ≡ cached_node heap.now.names self.old key }
        ensures used { self.new
            ≡ order (touched (same_key key) self.old.pairs) self.old.capacity }
        ensures same { (other : KeyOf) → name_slot self.new other ≡ name_slot self.old other }
        ensures keeps { KeepsNames heap.now.names self.new }
    {
        match self.slots.used(key) {
            Some(slot) => Some(heap.get_name(slot).node),
            None => None,
        }
    }

    /// Gives a cached name another node. Its place in the order of use stays.
    pub fn set(&mut self, heap: &mut KHeap, key: NameKey, node: u32)
        requires keeps { KeepsNames heap.old.names self.old }
        requires there { IsSome (name_slot self.old key) }
        ensures stored { (slot : ℕ) (was : NameOf) → name_slot self.old key ≡ Some slot
            → object heap.old.names slot ≡ Some was
            → heap.new
            ≡ record heap.old { names = put heap.old.names slot (record was { node = node }) } }
        ensures value { cached_node heap.new.names self.new key ≡ Some node }
        ensures same { self.new ≡ self.old }
        ensures keeps { KeepsNames heap.new.names self.new }
        ensures takes { TakesNothing heap.old heap.new }
    {
        let Some(slot) = self.slots.find(key) else {
            unreachable!()
        };
        let was = heap.get_name(slot);
        let now = Name {
            dir: was.dir,
            name: was.name.copy(),
            node,
        };
        heap.set_name(slot, now);
    }

    /// Fills a name that isn't cached. Where the purse has no Name left, the one that was filled
    /// through it first goes before.
    pub fn fill(&mut self, heap: &mut KHeap, purse: &mut Purse, key: NameKey, node: u32)
        requires keeps { KeepsNames heap.old.names self.old }
        requires named { IsNameKey key }
        requires absent { name_slot self.old key ≡ None }
        requires pays { CanPay heap.old purse.old }
        requires fills { HasNameFills heap.old purse.old }
        requires few { purse.old.need.name ≤ 4 }
        requires may { MayFill self.old purse.old }
        ensures filled { NameFilled (name_of key node) heap.old heap.new purse.old purse.new self.old self.new }
        ensures value { cached_node heap.new.names self.new key ≡ Some node }
        ensures keeps { KeepsNames heap.new.names self.new }
        ensures fills { HasNameFills heap.new purse.new }
        ensures paid { IsPaid heap.old purse.old heap.new purse.new }
    {
        self.make_room(heap, purse);
        self.add(heap, purse, key, node);
    }

    // Where the purse has no Name left, the one that was filled first goes.
    fn make_room(&mut self, heap: &mut KHeap, purse: &mut Purse)
        requires keeps { KeepsNames heap.old.names self.old }
        requires fills { HasNameFills heap.old purse.old }
        requires may { MayFill self.old purse.old }
        ensures made { RoomMade heap.old heap.new purse.old purse.new self.old self.new }
        ensures absent { (other : KeyOf) → name_slot self.old other ≡ None
            → name_slot self.new other ≡ None }
        ensures room { length self.new.pairs < self.new.capacity }
        ensures left { 0 < purse.new.left.name }
        ensures keeps { KeepsNames heap.new.names self.new }
        ensures fills { HasNameFills heap.new purse.new }
        ensures paid { IsPaid heap.old purse.old heap.new purse.new }
    {
        if purse.left(Class::Name) != 0 {
            return;
        }
        let _gone = self.drop_at(heap, purse, 0);
    }

    // The Name that was filled at a place goes. Answers its slot.
    fn drop_at(&mut self, heap: &mut KHeap, purse: &mut Purse, at: u32) -> u32
        requires keeps { KeepsNames heap.old.names self.old }
        requires fills { HasNameFills heap.old purse.old }
        requires at { at < length purse.old.names }
        ensures slot { result ≡ slice_index_or purse.old.names at 0 }
        ensures dropped { FillDropped at heap.old heap.new purse.old purse.new self.old self.new }
        ensures slots { (key : KeyOf) → name_slot self.old key ≡ Some result → (other : KeyOf)
            → name_slot self.new other ≡ cond (same_key key other) None (name_slot self.old other) }
        ensures absent { (other : KeyOf) → name_slot self.old other ≡ None
            → name_slot self.new other ≡ None }
        ensures room { length self.new.pairs < self.new.capacity }
        ensures keeps { KeepsNames heap.new.names self.new }
        ensures fills { HasNameFills heap.new purse.new }
        ensures paid { IsPaid heap.old purse.old heap.new purse.new }
    {
        let slot = purse.drop_fill(Class::Name, at);
        let gone = heap.free_name(slot);
        purse.give(Class::Name);
        let key = NameKey::of(gone.dir, &gone.name);
        self.slots.drop_key(key)
    }

    // Makes a Name, of which the purse has one left, as the warmest.
    fn add(&mut self, heap: &mut KHeap, purse: &mut Purse, key: NameKey, node: u32)
        requires keeps { KeepsNames heap.old.names self.old }
        requires named { IsNameKey key }
        requires absent { name_slot self.old key ≡ None }
        requires room { length self.old.pairs < self.old.capacity }
        requires pays { CanPay heap.old purse.old }
        requires left { 0 < purse.old.left.name }
        requires few { length purse.old.names < 4 }
        requires fills { HasNameFills heap.old purse.old }
        ensures added { (slot : ℕ) × NameAdded (name_of key node) heap.old heap.new purse.old purse.new self.old self.new slot }
        ensures value { cached_node heap.new.names self.new key ≡ Some node }
        ensures keeps { KeepsNames heap.new.names self.new }
        ensures fills { HasNameFills heap.new purse.new }
        ensures paid { IsPaid heap.old purse.old heap.new purse.new }
    {
        purse.spend(Class::Name);
        let slot = heap.insert_name(Name {
            dir: key.dir,
            name: name_in(&key),
            node,
        });
        purse.add_fill(Class::Name, slot);
        self.slots.put(key, slot);
    }

    /// Lets a name go, where it is cached.
    pub fn forget(&mut self, heap: &mut KHeap, key: NameKey)
        requires keeps { KeepsNames heap.old.names self.old }
        ensures gone { MatchOption (name_slot self.old key)
            (Unchanged heap.old heap.new self.old self.new)
            (λ slot. NameGone key slot heap.old heap.new self.old self.new) }
        ensures slots { (other : KeyOf) → name_slot self.new other
            ≡ cond (same_key key other) None (name_slot self.old other) }
        ensures keeps { KeepsNames heap.new.names self.new }
        ensures takes { TakesNothing heap.old heap.new }
    {
        let Some(_) = self.slots.find(key) else {
            return;
        };
        let slot = self.slots.drop_key(key);
        let _ = heap.free_name(slot);
    }

    /// Lets a name go, where it is cached. Where the call filled it, its purse takes it back.
    pub fn let_go(&mut self, heap: &mut KHeap, purse: &mut Purse, key: NameKey)
        requires keeps { KeepsNames heap.old.names self.old }
        requires fills { HasNameFills heap.old purse.old }
        requires few { purse.old.need.name ≤ 4 }
        ensures gone { MatchOption (name_slot self.old key)
            (Unchanged heap.old heap.new self.old self.new × (purse.new ≡ purse.old))
            (λ slot. NameGone key slot heap.old heap.new self.old self.new
            × TakenBack slot purse.old purse.new) }
        ensures slots { (other : KeyOf) → name_slot self.new other
            ≡ cond (same_key key other) None (name_slot self.old other) }
        ensures keeps { KeepsNames heap.new.names self.new }
        ensures fills { HasNameFills heap.new purse.new }
        ensures paid { IsPaid heap.old purse.old heap.new purse.new }
    {
        let Some(slot) = self.slots.find(key) else {
            return;
        };
        let Some(at) = place_of(purse.fills(Class::Name), slot) else {
            self.forget(heap, key);
            return;
        };
        let _slot = self.drop_at(heap, purse, at);
    }

    /// Lets all names go that the call filled. Its purse takes them back.
    pub fn drop_fills(&mut self, heap: &mut KHeap, purse: &mut Purse)
        requires keeps { KeepsNames heap.old.names self.old }
        requires fills { HasNameFills heap.old purse.old }
        ensures dropped { AllDropped heap.old heap.new purse.old purse.new self.old self.new }
        ensures keeps { KeepsNames heap.new.names self.new }
        ensures fills { HasNameFills heap.new purse.new }
        ensures paid { IsPaid heap.old purse.old heap.new purse.new }
    {
        while !purse.fills(Class::Name).is_empty() {
            let _slot = self.drop_at(heap, purse, 0);
        }
    }

    /// Whether there is a name that may go: each may.
    pub fn evictable(&self, _heap: &KHeap) -> bool
        ensures { IsTrue result ↔ (self.now.pairs ≡ [] → ⊥) }
    {
        self.slots.coldest(None).is_some()
    }

    /// Lets the name go that was used longest ago, and answers the key of its Name; None where
    /// nothing is cached.
    pub fn evict_coldest(&mut self, heap: &mut KHeap) -> Option<u32>
        requires keeps { KeepsNames heap.old.names self.old }
        ensures coldest { MatchOption result
            (Unchanged heap.old heap.new self.old self.new × (self.old.pairs ≡ []))
            (λ slot. ColdestGone slot heap.old heap.new self.old self.new) }
        ensures keeps { KeepsNames heap.new.names self.new }
        ensures takes { TakesNothing heap.old heap.new }
    {
        let Some(key) = self.slots.coldest(None) else {
            return None;
        };
        let slot = self.slots.drop_key(key);
        let _ = heap.free_name(slot);
        Some(slot)
    }
}
