//! `Index` and its calls. A clause sees an index as its `pairs`, the coldest first, and its
//! `capacity`.
ghost use Rattle.std.specs.Prelude.{◌≡◌, ◌+◌, ◌<◌, ◌≤◌, [], ◌∷◌, ◌++◌, length, Some, None, IfOk, IfSome, IsSome, cond, vec_len, vec_capacity};
ghost use Rattle.std.specs.Bool.{MatchBool};
ghost use Rattle.std.specs.Option.{ForSome, option_map};
ghost use Rattle.std.specs.Map.{lookup, remove_entry};
ghost use Rattle.lru_index.specs.Chain.{items_of};
ghost use Rattle.lru_index.specs.Index.{IsIndex, HasPlace};
ghost use Rattle.lru_index.specs.Order.{order, IsOrder, IsWarmest, touched, coldest_of};

use crate::Key;
use crate::buckets::Buckets;
use crate::chain::Chain;
use kabi_types::Memory;
use std::alloc::Global;
use std::marker::Model;

/// Keys with their slots, in the order of their last use.
pub struct Index<K: Key> {
    // The place of each key in the chain.
    places: Buckets<K>,
    chain: Chain<(K, u32)>,
    // The places of the chain that were used and are free. The table of keys and the chain get a new one where there is none.
    free: Vec<u32>,
    // How many pairs there is room for. Nothing is allocated later.
    capacity: u32,
}

impl<K: Key> Model for Index<K> {
    ghost use Rattle.std.specs.Prelude.{vec_capacity};
    ghost use Rattle.lru_index.specs.Order.{Order, order};

    ghost Value = { Order K };

    ghost use Rattle.lru_index.specs.Chain.{items_of};
    ghost use Rattle.lru_index.specs.Index.{IsIndex, pairs_in};

    ghost view = { λ index.
        order (pairs_in (items_of index.chain index.capacity)) index.capacity };

    ghost invariant = { λ index.
        IsIndex K.eq K.scatter index.places index.chain index.free.items (vec_capacity index.free) index.capacity };
}

// By hand, so that a caller sees one call and not the trees.
impl<K: Key> Drop for Index<K> {
    fn drop(self) {
        let Index {
            places: _,
            chain: _,
            free: _,
            capacity: _,
        } = self;
    }
}

impl<K: Key> Index<K> {
    /// An index with no pair, and room for `capacity` pairs. No later call takes memory.
    pub fn boot(alloc: Global, capacity: u32) -> Result<Index<K>, Memory>
        ensures empty { IfOk result (λ index. index ≡ order [] capacity) }
    {
        let chain = Chain::boot(alloc, capacity)?;
        let places = Buckets::boot(alloc, capacity)?;
        let free = Vec::with_capacity(alloc, capacity as usize)?;
        Ok(Index {
            places,
            chain,
            free,
            capacity,
        })
    }

    /// Whether there is no room for one more pair.
    pub fn is_full(&self) -> bool
        ensures { MatchBool result (self.now.capacity ≡ length self.now.pairs)
            (length self.now.pairs < self.now.capacity) }
    {
        none_left(self.chain.places(), &self.free, self.capacity)
    }

    /// The slot of a key, or None where it is absent.
    pub fn find(&self, key: K) -> Option<u32>
        ensures slot { result ≡ lookup (K.eq key) self.now.pairs }
        ensures valid { IsOrder K.eq self.now }
    {
        match self.warmest_slot(&key) {
            Some(slot) => Some(slot),
            None => self.sought(key),
        }
    }

    // The same of any key: its bucket is gone through.
    fn sought(&self, key: K) -> Option<u32>
        ensures slot { result ≡ lookup (K.eq key) self.now.pairs }
        ensures valid { IsOrder K.eq self.now }
    {
        match self.places.get(&key) {
            Some(place) => slot_in(self.chain.item(place)),
            None => None,
        }
    }

    // The slot of a key that is the warmest, as one that was just used is, without a look into its bucket.
    fn warmest_slot(&self, key: &K) -> Option<u32>
        ensures warmest { IfSome result (λ slot. IsWarmest self.now.pairs key.now slot) }
        ensures valid { IsOrder K.eq self.now }
    {
        slot_for(self.chain.warmest(), key)
    }

    /// The slot of a key, which is the warmest from then on; None where it is absent. The same as
    /// `find` and then `touch`, at the cost of one of them.
    pub fn used(&mut self, key: K) -> Option<u32>
        ensures slot { result ≡ lookup (K.eq key) self.old.pairs }
        ensures pairs { self.new ≡ order (touched (K.eq key) self.old.pairs) self.old.capacity }
        ensures finds { (other : K)
            → lookup (K.eq other) self.new.pairs ≡ lookup (K.eq other) self.old.pairs }
        ensures valid { IsOrder K.eq self.new }
    {
        match self.warmest_slot(&key) {
            Some(slot) => Some(slot),
            None => self.warmed(key),
        }
    }

    // The same of any key, which is taken out of the order and put back.
    fn warmed(&mut self, key: K) -> Option<u32>
        ensures slot { result ≡ lookup (K.eq key) self.old.pairs }
        ensures pairs { self.new ≡ order (touched (K.eq key) self.old.pairs) self.old.capacity }
        ensures finds { (other : K)
            → lookup (K.eq other) self.new.pairs ≡ lookup (K.eq other) self.old.pairs }
        ensures valid { IsOrder K.eq self.new }
    {
        match self.places.get(&key) {
            Some(place) => Some(self.chain.warm(place).1),
            None => None,
        }
    }

    /// Makes a key that is there the warmest.
    pub fn touch(&mut self, key: K)
        requires there { IsSome (lookup (K.eq key) self.old.pairs) }
        ensures pairs { self.new ≡ order (touched (K.eq key) self.old.pairs) self.old.capacity }
        ensures finds { (other : K)
            → lookup (K.eq other) self.new.pairs ≡ lookup (K.eq other) self.old.pairs }
        ensures valid { IsOrder K.eq self.new }
    {
        let _slot = self.used(key);
    }

    /// Takes a key that is there out, and answers its slot.
    pub fn drop_key(&mut self, key: K) -> u32
        requires there { IsSome (lookup (K.eq key) self.old.pairs) }
        ensures slot { lookup (K.eq key) self.old.pairs ≡ Some result }
        ensures pairs { self.new
            ≡ order (remove_entry (K.eq key) self.old.pairs) self.old.capacity }
        ensures finds { (other : K)
            → lookup (K.eq other) self.new.pairs
            ≡ cond (K.eq key other) None (lookup (K.eq other) self.old.pairs) }
        ensures room { length self.new.pairs < self.new.capacity }
        ensures valid { IsOrder K.eq self.new }
    {
        let Some(place) = self.places.take(&key) else {
            unreachable!()
        };
        let pair = self.chain.remove(place);
        self.free.push_reserved(place);
        pair.1
    }

    /// Adds an absent key with its slot as the warmest. There is room for it.
    pub fn put(&mut self, key: K, slot: u32)
        requires absent { lookup (K.eq key) self.old.pairs ≡ None }
        requires room { length self.old.pairs < self.old.capacity }
        ensures pairs { self.new ≡ order (self.old.pairs ++ (key, slot) ∷ []) self.old.capacity }
        ensures finds { (other : K)
            → lookup (K.eq other) self.new.pairs ≡ cond (K.eq key other) (Some slot)
            (lookup (K.eq other) self.old.pairs) }
        ensures valid { IsOrder K.eq self.new }
    {
        let place = free_place(
            &mut self.places,
            &mut self.chain,
            &mut self.free,
            self.capacity,
        );
        self.places.put(place, key);
        self.chain.add(place, (key, slot));
    }

    /// The coldest key, or the coldest of those warmer than a key that is there; None where there
    /// is none.
    pub fn coldest(&self, after: Option<K>) -> Option<K>
        requires there { ForSome after (λ key. IsSome (lookup (K.eq key) self.now.pairs)) }
        ensures key { result ≡ coldest_of K.eq after self.now.pairs }
        ensures is_there { IfSome result (λ key. IsSome (lookup (K.eq key) self.now.pairs)) }
        ensures valid { IsOrder K.eq self.now }
    {
        match after {
            None => key_in(self.chain.coldest()),
            Some(key) => match self.places.get(&key) {
                Some(place) => key_in(self.chain.warmer(place)),
                None => None,
            },
        }
    }
}

/// Whether none is free of so many places that are made, and no more may be made.
fn none_left(made: usize, free: &Vec<u32>, most: u32) -> bool
    requires { made ≤ most }
    ensures { MatchBool result ((vec_len free.now ≡ 0) × (made ≡ most)) (made < most + vec_len free.now) }
{
    free.is_empty() && made == most as usize
}

/// A place of the table of keys and of the chain that is free: one that was used before, or where there is none a new one of both.
fn free_place<K: Key>(
    places: &mut Buckets<K>,
    chain: &mut Chain<(K, u32)>,
    free: &mut Vec<u32>,
    capacity: u32,
) -> u32
    requires index { IsIndex K.eq K.scatter places.old chain.old free.old.items (vec_capacity free.old) capacity }
    requires room { length (items_of chain.old capacity) < capacity }
    ensures { HasPlace K.eq K.scatter places.new chain.new free.new.items (vec_capacity free.new) capacity result
        (items_of chain.old capacity) }
{
    match free.pop() {
        Some(place) => place,
        None => {
            let place = chain.places() as u32;
            chain.grow();
            places.grow();
            place
        }
    }
}

/// The key of a pair that may be there.
fn key_in<K: Key>(pair: Option<(K, u32)>) -> Option<K>
    ensures { result ≡ option_map (λ pair. pair.0) pair }
{
    match pair {
        Some(pair) => Some(pair.0),
        None => None,
    }
}

/// The slot of a pair that may be there and may have this key.
fn slot_for<K: Key>(pair: Option<(K, u32)>, key: &K) -> Option<u32>
    ensures { IfSome result (λ slot. pair ≡ Some (key.now, slot)) }
{
    let Some(pair) = pair else {
        return None;
    };
    if pair.0 == *key {
        return Some(pair.1);
    }
    None
}

/// The slot of a pair that may be there.
fn slot_in<K: Key>(pair: Option<(K, u32)>) -> Option<u32>
    ensures { result ≡ option_map (λ pair. pair.1) pair }
{
    match pair {
        Some(pair) => Some(pair.1),
        None => None,
    }
}
