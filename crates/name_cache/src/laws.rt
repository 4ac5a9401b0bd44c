//! Laws of the cache of names, each the contract of a function that does nothing.
ghost use Rattle.std.specs.Prelude.{◌≡◌, ℕ, ◌+◌, ◌≤◌, List, [], Option, None, Some, replicate, take};
ghost use Rattle.kheap_slabs.specs.Objects.{object, count, put};
ghost use Rattle.kheap_slabs.specs.Purse.{Purse};
ghost use Rattle.kheap_slabs.specs.declared.objects.Name.{Name};
ghost use Rattle.kheap_slabs.specs.Heap.{Heap};
ghost use Rattle.kheap_slabs.specs.Paid.{IsPaid};
ghost use Rattle.lru_index.specs.NameKeys.{name_key};
ghost use Rattle.lru_index.specs.Order.{Order, order};
ghost use Rattle.lru_index.specs.declared.keys.NameKey.{NameKey};
ghost use Rattle.name_cache.specs.Names.{key_of, IsNameKey, name_slot, cached_node, KeepsNames, TrueNames, AgreesElsewhere, NameFilled};

/// The key that is made of a name may be filled.
pub fn a_name_has_a_key()
    ensures { (dir : ℕ) (name : List ℕ) → IsNameKey (name_key dir name) }
{}

/// A cache that was just booted answers None, whatever it has room for, and keeps just the Names of
/// a heap that was.
pub fn nothing_is_cached_at_boot()
    ensures none { (objects : List (Option Name)) (capacity : ℕ) (key : NameKey)
        → cached_node objects (order [] capacity) key ≡ None }
    ensures keeps { (limit : ℕ) (capacity : ℕ)
        → KeepsNames (replicate limit None) (order [] capacity) }
{}

/// To find a name that is cached is to find it in its directory.
pub fn finding_a_cached_name_is_finding_it()
    ensures { (found : ℕ → List ℕ → Option ℕ) (objects : List (Option Name))
        (cache : Order NameKey) (key : NameKey) (node : ℕ)
        → TrueNames found objects → KeepsNames objects cache
        → cached_node objects cache key ≡ Some node
        → found key.dir (take key.len key.name) ≡ Some node }
{}

/// A cache stays true where a name is filled that is found in its directory; and where one name is
/// found to be another node, or none, from now on, and the cache is told, or has it not.
pub fn a_cache_stays_true()
    ensures filled { (found : ℕ → List ℕ → Option ℕ) (made : Name) (old : Heap) (new : Heap)
        (before : Purse) (after : Purse) (had : Order NameKey) (has : Order NameKey)
        → TrueNames found old.names → found made.dir made.name ≡ Some made.node
        → NameFilled made old new before after had has → TrueNames found new.names }
    ensures told { (found : ℕ → List ℕ → Option ℕ) (next : ℕ → List ℕ → Option ℕ)
        (objects : List (Option Name)) (cache : Order NameKey) (key : NameKey) (slot : ℕ)
        (was : Name) (node : ℕ)
        → TrueNames found objects → KeepsNames objects cache → AgreesElsewhere key found next
        → name_slot cache key ≡ Some slot → object objects slot ≡ Some was
        → next was.dir was.name ≡ Some node
        → TrueNames next (put objects slot (record was { node = node })) }
    ensures absent { (found : ℕ → List ℕ → Option ℕ) (next : ℕ → List ℕ → Option ℕ)
        (objects : List (Option Name)) (cache : Order NameKey) (key : NameKey)
        → TrueNames found objects → KeepsNames objects cache → AgreesElsewhere key found next
        → name_slot cache key ≡ None → TrueNames next objects }
{}

/// A fill adds at most one Name, and none where the purse has none left.
pub fn a_fill_adds_at_most_one()
    ensures one { (made : Name) (old : Heap) (new : Heap) (before : Purse) (after : Purse)
        (had : Order NameKey) (has : Order NameKey)
        → NameFilled made old new before after had has → IsPaid old before new after
        → count new.names ≤ count old.names + 1 }
    ensures none { (made : Name) (old : Heap) (new : Heap) (before : Purse) (after : Purse)
        (had : Order NameKey) (has : Order NameKey)
        → NameFilled made old new before after had has → IsPaid old before new after
        → before.left.name ≡ 0 → count new.names ≤ count old.names }
{}
