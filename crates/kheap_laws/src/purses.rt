ghost use Rattle.std.specs.Prelude.{◌≡◌, ℕ, ◌+◌, ◌-◌, ◌<◌, ◌≤◌, ◌++◌, List, [], ◌∷◌, Option, None, length, remove, slice_index_or};
ghost use Rattle.kabi_types.specs.declared.classes.Class.{Class};
ghost use Rattle.kabi_types.specs.Counts.{counted, with_count};
ghost use Rattle.kheap_slabs.specs.Objects.{object, put, without};
ghost use Rattle.kheap_slabs.specs.Purse.{Purse, left_bytes};
ghost use Rattle.kheap_slabs.specs.declared.objects.Block.{Block};
ghost use Rattle.kheap_slabs.specs.Heap.{Heap, counts_of, live_bytes, Makes, Frees};
ghost use Rattle.kheap_slabs.specs.Outside.{Keys, both_keys, SameOutside};
ghost use Rattle.kheap_slabs.specs.Paid.{CanPay, IsPaid, TakesNothing, AreFills};
ghost use Rattle.kheap_laws.specs.Marks.{AreSteps, last_heap, greatest_live};

/// Two changes in a row leave all objects as they were outside the keys of both.
pub fn changes_compose()
    ensures { (one : Keys) (two : Keys) (first : Heap) (second : Heap) (third : Heap)
        → SameOutside one first second → SameOutside two second third
        → SameOutside (both_keys one two) first third }
{}

/// Two calls in a row that pay from one purse are together a call that pays from it.
pub fn paid_calls_compose()
    ensures { (first : Heap) (p : Purse) (second : Heap) (q : Purse) (third : Heap) (r : Purse)
        → IsPaid first p second q → IsPaid second q third r → IsPaid first p third r }
{}

/// In bytes, what is taken and what the purse has left are together no more than they were, so a
/// heap that had room for all of it has room for the rest.
pub fn paid_calls_have_room()
    ensures bytes { (old : Heap) (before : Purse) (new : Heap) (after : Purse)
        → IsPaid old before new after
        → live_bytes new + left_bytes after ≤ live_bytes old + left_bytes before }
    ensures room { (old : Heap) (before : Purse) (new : Heap) (after : Purse)
        → IsPaid old before new after → CanPay old before → CanPay new after }
{}

/// Each step of a call that pays: an object is made and spent, freed and taken back, or nothing is
/// taken.
pub fn steps_are_paid()
    ensures spend { (of : Class) (old : Heap) (before : Purse) (new : Heap) (after : Purse)
        → Makes of old new → 0 < counted before.left of
        → after.left ≡ with_count before.left of (counted before.left of - 1)
        → after.need ≡ before.need → IsPaid old before new after }
    ensures give { (of : Class) (old : Heap) (before : Purse) (new : Heap) (after : Purse)
        → Frees of old new → after.left ≡ with_count before.left of (counted before.left of + 1)
        → after.need ≡ before.need → IsPaid old before new after }
    ensures nothing { (old : Heap) (before : Purse) (new : Heap) (after : Purse)
        → TakesNothing old new → after.left ≡ before.left → after.need ≡ before.need
        → IsPaid old before new after }
{}

/// Two calls in a row without a purse take nothing together, nor does one that frees or changes
/// objects.
pub fn calls_without_a_purse_compose()
    ensures two { (first : Heap) (second : Heap) (third : Heap)
        → TakesNothing first second → TakesNothing second third → TakesNothing first third }
    ensures freed { (of : Class) (old : Heap) (new : Heap)
        → Frees of old new → TakesNothing old new }
    ensures changed { (old : Heap) (new : Heap)
        → counts_of new ≡ counts_of old → new.high ≡ old.high → new.heap ≡ old.heap
        → new.marks ≡ old.marks → TakesNothing old new }
    ensures bytes { (old : Heap) (new : Heap)
        → TakesNothing old new → live_bytes new ≤ live_bytes old }
{}

/// What a purse keeps as filled stays in use, distinct and spent where an object is made, spent and
/// added, and where one is forgotten, freed and taken back. For blocks; names and vnodes go the
/// same way.
pub fn fills_are_kept()
    ensures add { (blocks : List (Option Block)) (keys : List ℕ) (left : ℕ) (need : ℕ) (key : ℕ)
        (value : Block)
        → 0 < left → object blocks key ≡ None → object (put blocks key value) key ≡ Some value
        → AreFills blocks keys left need
        → AreFills (put blocks key value) (keys ++ key ∷ []) (left - 1) need }
    ensures drop { (blocks : List (Option Block)) (keys : List ℕ) (left : ℕ) (need : ℕ) (at : ℕ)
        → at < length keys → AreFills blocks keys left need
        → AreFills (without blocks (slice_index_or keys at 0)) (remove keys at) (left + 1) need }
{}

/// After a mark, `high` is the greatest live of all moments between calls since then.
pub fn high_is_the_greatest_live()
    ensures { (marked : Heap) (later : List Heap)
        → marked.high ≡ live_bytes marked → AreSteps marked later
        → (last_heap marked later).high ≡ greatest_live marked later }
{}
