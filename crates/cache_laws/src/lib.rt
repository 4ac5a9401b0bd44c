//! What holds of every cache over the heap, whatever its class and its keys: laws, each the contract
//! of a function that does nothing, and the place of a slot among those that a call filled.
#![tactic(auto)]

ghost use Rattle.std.specs.Prelude.{◌≡◌, ℕ, ◌+◌, ◌<◌, ◌≤◌, List, Option, None, Some, MatchOption, cond, length};
ghost use Rattle.kheap_slabs.specs.Objects.{object, put, without};
ghost use Rattle.lru_index.specs.Order.{Order, order, touched};
ghost use Rattle.cache_laws.specs.Caches.{slot_of, Keeps, IsAt};

use lru_index::Key;

/// A cache goes on keeping just the objects of its class where a key becomes the warmest, where an
/// object gets another value, where one is made and put, and where one is taken out and freed.
pub fn a_cache_keeps_its_objects<K: Key, T>()
    ensures touched { (key : T → K) (objects : List (Option T)) (old : Order K) (new : Order K)
        (k : K)
        → Keeps K.eq key objects old
        → ((q : K) → slot_of K.eq new q ≡ slot_of K.eq old q)
        → new ≡ order (touched (K.eq k) old.pairs) old.capacity → Keeps K.eq key objects new }
    ensures set { (key : T → K) (objects : List (Option T)) (cache : Order K) (k : K) (slot : ℕ)
        (x : T)
        → Keeps K.eq key objects cache → slot_of K.eq cache k ≡ Some slot → key x ≡ k
        → Keeps K.eq key (put objects slot x) cache }
    ensures put { (key : T → K) (objects : List (Option T)) (old : Order K) (new : Order K) (k : K)
        (slot : ℕ) (x : T)
        → Keeps K.eq key objects old → slot_of K.eq old k ≡ None → object objects slot ≡ None
        → slot < length objects → key x ≡ k
        → ((q : K) → slot_of K.eq new q ≡ cond (K.eq k q) (Some slot) (slot_of K.eq old q))
        → length new.pairs ≡ length old.pairs + 1 → Keeps K.eq key (put objects slot x) new }
    ensures dropped { (key : T → K) (objects : List (Option T)) (old : Order K) (new : Order K)
        (k : K) (slot : ℕ)
        → Keeps K.eq key objects old → slot_of K.eq old k ≡ Some slot
        → ((q : K) → slot_of K.eq new q ≡ cond (K.eq k q) None (slot_of K.eq old q))
        → length new.pairs + 1 ≡ length old.pairs → Keeps K.eq key (without objects slot) new }
{}

/// Two keys that are cached at one slot are the same.
pub fn a_slot_has_one_key<K: Key, T>()
    ensures { (key : T → K) (objects : List (Option T)) (cache : Order K) (k : K) (q : K)
        (slot : ℕ)
        → Keeps K.eq key objects cache → slot_of K.eq cache k ≡ Some slot
        → slot_of K.eq cache q ≡ Some slot → k ≡ q }
{}

/// Where a slot stands among those that a call filled; None where the call didn't fill it.
pub fn place_of(fills: &[u32], slot: u32) -> Option<u32>
    requires { length fills.now ≤ 4 }
    ensures { MatchOption result ((at : ℕ) → IsAt fills.now slot at → ⊥)
        (λ at. IsAt fills.now slot at) }
{
    for at in 0..fills.len() as u32 {
        if fills[at as usize] == slot {
            return Some(at);
        }
    }
    None
}
