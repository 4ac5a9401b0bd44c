//! Keys in buckets: a table that has, at the place of each key's pair, the key and the place of the next key in its
//! bucket.
//!
//! A key is in the bucket that its scattered number names, so a call looks at the keys of one bucket. All others of its
//! places are as they were.
ghost use Rattle.std.specs.Prelude.{◌≡◌, ℕ, ◌+◌, ◌/◌, ◌%◌, ◌<◌, ◌≤◌, false, List, None, Some, IfOk, IsSome, is_some, cond, nat_eq, replicate, slice_index_or, slice_set, vec_len, vec_capacity};
ghost use Rattle.std.specs.Option.{option_map};
ghost use Rattle.lru_index.specs.Chain.{hits};
ghost use Rattle.lru_index.specs.Buckets.{AreFiled, IsSought, all_keys, in_bucket, no_chains, node_at, place_of, put_first, taken_out, with_next};

use crate::Key;
use kabi_types::Memory;
use std::alloc::Global;

/// How many keys share a bucket where all places are in use.
const SHARE: u32 = 8;

/// The first place of each bucket, and the nodes by their places.
#[derive(Drop)]
pub struct Buckets<K: Key> {
    firsts: Vec<Option<u32>>,
    nodes: Vec<Option<Node<K>>>,
}

/// A key, with the place of the next one in its bucket.
#[derive(Clone, Copy)]
pub struct Node<K: Key> {
    key: K,
    next: Option<u32>,
}

/// Where a key was sought in its bucket: the place before its own, if there is one, and its own, if it is there.
#[derive(Clone, Copy)]
pub struct Found {
    before: Option<u32>,
    place: Option<u32>,
}

impl<K: Key> Buckets<K> {
    /// No keys, and room for so many places. There is none yet.
    pub fn boot(alloc: Global, places: u32) -> Result<Buckets<K>, Memory>
        ensures filed { IfOk result (λ made. AreFiled K.eq K.scatter made
            (no_chains (places / 8 + 1))) }
        ensures places { IfOk result (λ made. vec_len made.nodes ≡ 0) }
        ensures room { IfOk result (λ made. places ≤ vec_capacity made.nodes) }
    {
        let firsts = no_places(alloc, (places / SHARE) as usize + 1)?;
        let nodes = Vec::with_capacity(alloc, places as usize)?;
        Ok(Buckets { firsts, nodes })
    }

    /// One place more, at which nothing stands.
    pub fn grow(&mut self)
        requires { vec_len self.old.nodes < vec_capacity self.old.nodes }
        ensures kept { (chains : List (List (K × ℕ))) → AreFiled K.eq K.scatter self.old chains
            → AreFiled K.eq K.scatter self.new chains }
        ensures same { (place : ℕ) → node_at self.new.nodes.items place
            ≡ node_at self.old.nodes.items place }
        ensures places { vec_len self.new.nodes ≡ vec_len self.old.nodes + 1 }
        ensures capacity { vec_capacity self.new.nodes ≡ vec_capacity self.old.nodes }
    {
        self.nodes.push_reserved(None);
    }

    /// The place of a key.
    pub fn get(&self, key: &K) -> Option<u32>
        requires { 0 < vec_len self.now.firsts }
        ensures { (chains : List (List (K × ℕ))) → AreFiled K.eq K.scatter self.now chains
            → result ≡ place_of K.eq K.scatter chains key.now }
    {
        self.seek(self.bucket(key), key).place
    }

    /// Adds an absent key at a place at which nothing stands.
    pub fn put(&mut self, place: u32, key: K)
        requires buckets { 0 < vec_len self.old.firsts }
        requires within { place < vec_len self.old.nodes }
        ensures put { (chains : List (List (K × ℕ))) → AreFiled K.eq K.scatter self.old chains
            → node_at self.old.nodes.items place ≡ None
            → place_of K.eq K.scatter chains key ≡ None → all_keys chains < vec_len self.old.nodes
            → AreFiled K.eq K.scatter self.new (put_first K.eq K.scatter chains key place) }
        ensures others { (other : ℕ) → nat_eq place other ≡ false
            → node_at self.new.nodes.items other ≡ node_at self.old.nodes.items other }
        ensures places { vec_len self.new.nodes ≡ vec_len self.old.nodes }
        ensures capacity { vec_capacity self.new.nodes ≡ vec_capacity self.old.nodes }
    {
        let bucket = self.bucket(&key);
        let next = self.first(bucket);
        self.set_node(place, Some(Node { key, next }));
        self.set_first(bucket, Some(place));
    }

    /// Takes a key that is there out, and answers its place, at which nothing stands then.
    pub fn take(&mut self, key: &K) -> Option<u32>
        requires { 0 < vec_len self.old.firsts }
        ensures place { (chains : List (List (K × ℕ))) → AreFiled K.eq K.scatter self.old chains
            → result ≡ place_of K.eq K.scatter chains key.now }
        ensures taken { (chains : List (List (K × ℕ))) → AreFiled K.eq K.scatter self.old chains
            → IsSome (place_of K.eq K.scatter chains key.now)
            → AreFiled K.eq K.scatter self.new (taken_out K.eq K.scatter chains key.now) }
        ensures still_none { (other : ℕ) → node_at self.old.nodes.items other ≡ None
            → node_at self.new.nodes.items other ≡ None }
        ensures freed { (place : ℕ) → result ≡ Some place
            → node_at self.new.nodes.items place ≡ None }
        ensures places { vec_len self.new.nodes ≡ vec_len self.old.nodes }
        ensures capacity { vec_capacity self.new.nodes ≡ vec_capacity self.old.nodes }
    {
        let bucket = self.bucket(key);
        let found = self.seek(bucket, key);
        let Some(place) = found.place else {
            return None;
        };
        let Some(node) = self.node(place) else {
            return None;
        };
        self.link(bucket, found.before, node.next);
        self.set_node(place, None);
        Some(place)
    }

    /// The bucket of a key.
    fn bucket(&self, key: &K) -> usize
        requires { 0 < vec_len self.now.firsts }
        ensures bucket { result ≡ K.scatter key.now % vec_len self.now.firsts }
        ensures within { result < vec_len self.now.firsts }
    {
        (key.scattered() % self.firsts.len() as u64) as usize
    }

    /// Seeks a key in its bucket.
    fn seek(&self, bucket: usize, key: &K) -> Found
        requires { bucket < vec_len self.now.firsts }
        ensures { (chains : List (List (K × ℕ))) → AreFiled K.eq K.scatter self.now chains
            → IsSought K.eq (in_bucket chains bucket) key.now result }
    {
        let mut before = None;
        let mut at = self.first(bucket);
        for _ in 0..self.nodes.len() {
            let Some(place) = at else {
                return Found {
                    before,
                    place: None,
                };
            };
            let Some(node) = self.node(place) else {
                return Found {
                    before,
                    place: None,
                };
            };
            if node.key.cmp(key).is_eq() {
                return Found { before, place: at };
            }
            before = at;
            at = node.next;
        }
        Found { before, place: at }
    }

    /// Lets what comes behind a place of a bucket, or comes first in it, be another place.
    fn link(&mut self, bucket: usize, before: Option<u32>, next: Option<u32>)
        requires { bucket < vec_len self.old.firsts }
        ensures firsts { self.new.firsts.items ≡ cond (is_some before) self.old.firsts.items
            (slice_set self.old.firsts.items bucket next) }
        ensures buckets { vec_len self.new.firsts ≡ vec_len self.old.firsts }
        ensures nodes { (other : ℕ) → node_at self.new.nodes.items other
            ≡ cond (hits before other)
            (option_map (with_next next) (node_at self.old.nodes.items other))
            (node_at self.old.nodes.items other) }
        ensures places { vec_len self.new.nodes ≡ vec_len self.old.nodes }
        ensures capacity { vec_capacity self.new.nodes ≡ vec_capacity self.old.nodes }
    {
        match before {
            None => self.set_first(bucket, next),
            Some(place) => self.set_next(place, next),
        }
    }

    /// Lets another place come behind a place, where a node stands there.
    fn set_next(&mut self, place: u32, next: Option<u32>)
        ensures firsts { self.new.firsts ≡ self.old.firsts }
        ensures nodes { (other : ℕ) → node_at self.new.nodes.items other
            ≡ cond (nat_eq place other)
            (option_map (with_next next) (node_at self.old.nodes.items other))
            (node_at self.old.nodes.items other) }
        ensures places { vec_len self.new.nodes ≡ vec_len self.old.nodes }
        ensures capacity { vec_capacity self.new.nodes ≡ vec_capacity self.old.nodes }
    {
        if let Some(mut node) = self.node(place) {
            node.next = next;
            self.set_node(place, Some(node));
        }
    }

    /// The first place of a bucket.
    fn first(&self, bucket: usize) -> Option<u32>
        requires { bucket < vec_len self.now.firsts }
        ensures { result ≡ slice_index_or self.now.firsts.items bucket None }
    {
        self.firsts[bucket]
    }

    fn set_first(&mut self, bucket: usize, first: Option<u32>)
        requires { bucket < vec_len self.old.firsts }
        ensures firsts { self.new.firsts.items ≡ slice_set self.old.firsts.items bucket first }
        ensures buckets { vec_len self.new.firsts ≡ vec_len self.old.firsts }
        ensures nodes { self.new.nodes ≡ self.old.nodes }
    {
        self.firsts[bucket] = first;
    }

    /// What stands at a place.
    fn node(&self, place: u32) -> Option<Node<K>>
        ensures value { result ≡ node_at self.now.nodes.items place }
        ensures within { IsSome result → place < vec_len self.now.nodes }
    {
        match self.nodes.get(place as usize) {
            Some(node) => *node,
            None => None,
        }
    }

    fn set_node(&mut self, place: u32, node: Option<Node<K>>)
        requires { place < vec_len self.old.nodes }
        ensures nodes { (other : ℕ) → node_at self.new.nodes.items other
            ≡ cond (nat_eq place other) node (node_at self.old.nodes.items other) }
        ensures firsts { self.new.firsts ≡ self.old.firsts }
        ensures places { vec_len self.new.nodes ≡ vec_len self.old.nodes }
        ensures capacity { vec_capacity self.new.nodes ≡ vec_capacity self.old.nodes }
    {
        self.nodes[place as usize] = node;
    }
}

/// So many buckets, of which none has a first place.
fn no_places(alloc: Global, count: usize) -> Result<Vec<Option<u32>>, Memory>
    ensures { IfOk result (λ firsts. firsts.items ≡ replicate count None) }
{
    Ok(vec![in alloc; None; count]?)
}
