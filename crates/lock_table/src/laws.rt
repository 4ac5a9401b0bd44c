//! Laws of the locks that a table stands for. Each is the contract of a function that does nothing.

ghost use Rattle.std.specs.Prelude.{◌≡◌, ◌↔◌, ℕ, List, Option, None, [], length, replicate};
ghost use Rattle.kheap_slabs.specs.Objects.{count};
ghost use Rattle.kheap_slabs.specs.declared.objects.Lock.{Lock as HeldLock};
ghost use Rattle.posix_defs.specs.Locks.{Locks};
ghost use Rattle.lock_table.specs.Chain.{HoldsLocks};

/// There are as many locks as Locks of the heap.
pub fn each_lock_is_one_of_the_heap()
    ensures { (objects : List (Option HeldLock)) (first : Option ℕ) (locks : Locks) → HoldsLocks objects first locks → count objects ≡ length locks }
{}

/// A new table has none in a heap that has none, and it has none exactly where it has no first.
pub fn an_empty_table_has_no_lock()
    ensures begins { (limit : ℕ) → HoldsLocks (replicate limit None) None [] }
    ensures none { (objects : List (Option HeldLock)) (first : Option ℕ) (locks : Locks) → HoldsLocks objects first locks → first ≡ None ↔ locks ≡ [] }
{}
