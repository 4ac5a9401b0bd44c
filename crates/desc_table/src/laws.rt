//! Laws of descriptors that come and go. Each is the contract of a function that does nothing.

ghost use Rattle.std.specs.Prelude.{◌≡◌, ◌+◌, ◌<◌, ◌↔◌, ℕ, List, [], None};
ghost use Rattle.kheap_slabs.specs.Objects.{object, InUse};
ghost use Rattle.kheap_slabs.specs.Heap.{Heap};
ghost use Rattle.open_laws.specs.Owned.{HasItsOwners, all_namings, desc_count_at};
ghost use Rattle.desc_table.specs.Going.{Goes, times};

/// Whatever list of dups, forks and closes there was, each description counts the descriptors that name it and is there just
/// while one does, and every end of a pipe and every socket is a description's. Once none is left, nothing that was opened is.
pub fn descriptions_count_their_descriptors()
    ensures counts { (old : Heap) (new : Heap) (had : List ℕ) (hand : List ℕ) → HasItsOwners old had → Goes old had new hand
        → (key : ℕ) → desc_count_at new.descs key ≡ all_namings new key + times key hand }
    ensures there { (old : Heap) (new : Heap) (had : List ℕ) (hand : List ℕ) → HasItsOwners old had → Goes old had new hand
        → (key : ℕ) → InUse new.descs key ↔ (0 < all_namings new key + times key hand) }
    ensures owners { (old : Heap) (new : Heap) (had : List ℕ) (hand : List ℕ) → HasItsOwners old had → Goes old had new hand
        → HasItsOwners new hand }
    ensures none { (old : Heap) (new : Heap) (had : List ℕ) → HasItsOwners old had → Goes old had new []
        → ((key : ℕ) → all_namings new key ≡ 0) → (key : ℕ)
        → (object new.descs key ≡ None) × (object new.pipes key ≡ None)
        × (object new.socks key ≡ None) × (object new.chunks key ≡ None) }
{}
