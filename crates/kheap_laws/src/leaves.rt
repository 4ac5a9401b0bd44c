//! Laws of the numbers that stand in a Proc and in Leaves, and of who owns these.

ghost use Rattle.std.specs.Prelude.{◌≡◌, ◌≢◌, ◌<◌, ◌≤◌, ℕ, List, [], ◌∷◌, Option, None, Some, length, replicate, slice_index_or, slice_set};
ghost use Rattle.std.specs.List.{Contains};
ghost use Rattle.kheap_slabs.specs.Keys.{Apart, Splits};
ghost use Rattle.kheap_slabs.specs.Leaves.{HoldLeaves, LeavesChange, OwnsLeaves, group_of, no_row, numbers_by, place_of, row_at};
ghost use Rattle.kheap_slabs.specs.Objects.{object};
ghost use Rattle.kheap_slabs.specs.Outside.{KeepsOutside};
ghost use Rattle.kheap_slabs.specs.Spaces.{keys_in};
ghost use Rattle.kheap_slabs.specs.declared.objects.Descriptor.{Descriptor};
ghost use Rattle.kheap_slabs.specs.declared.objects.Leaf.{Leaf};
ghost use Rattle.kheap_slabs.specs.declared.objects.Proc.{Proc};

/// Where Leaves change that a process doesn't name, it has open what it had.
pub fn numbers_stay_where_their_leaves_do()
    ensures { (old : List (Option Leaf)) (new : List (Option Leaf)) (changed : List ℕ) (first : List (Option Descriptor)) (keys : List (Option ℕ))
        → KeepsOutside changed old new → Apart changed (keys_in keys)
        → numbers_by new first keys ≡ numbers_by old first keys }
{}

/// A process has 128 numbers: the first 32 are those of its Proc, and each 32 behind them those of a Leaf, of which none is open where
/// that isn't there.
pub fn numbers_stand_in_rows()
    ensures many { (leaves : List (Option Leaf)) (first : List (Option Descriptor)) (keys : List (Option ℕ))
        → ((key : ℕ) (leaf : Leaf) → object leaves key ≡ Some leaf → length leaf.descriptors ≡ 32) → length first ≡ 32 → length keys ≡ 3
        → length (numbers_by leaves first keys) ≡ 128 }
    ensures front { (leaves : List (Option Leaf)) (first : List (Option Descriptor)) (keys : List (Option ℕ)) (fd : ℕ)
        → length first ≡ 32 → fd < 32 → slice_index_or (numbers_by leaves first keys) fd None ≡ slice_index_or first fd None }
    ensures behind { (leaves : List (Option Leaf)) (first : List (Option Descriptor)) (keys : List (Option ℕ)) (fd : ℕ)
        → ((key : ℕ) (leaf : Leaf) → object leaves key ≡ Some leaf → length leaf.descriptors ≡ 32) → length first ≡ 32 → length keys ≡ 3
        → 32 ≤ fd → fd < 128
        → slice_index_or (numbers_by leaves first keys) fd None ≡ slice_index_or (row_at leaves (slice_index_or keys (group_of fd) None)) (place_of fd) None }
    ensures none { (leaves : List (Option Leaf)) → numbers_by leaves no_row (None ∷ None ∷ None ∷ []) ≡ replicate 128 None }
{}

/// One number of a process is another: one of the first in its Proc, one behind them in the row of its Leaf.
pub fn one_number_changes()
    ensures front { (leaves : List (Option Leaf)) (first : List (Option Descriptor)) (keys : List (Option ℕ)) (fd : ℕ) (x : Option Descriptor)
        → length first ≡ 32 → fd < 32 → numbers_by leaves (slice_set first fd x) keys ≡ slice_set (numbers_by leaves first keys) fd x }
    ensures behind { (old : List (Option Leaf)) (new : List (Option Leaf)) (first : List (Option Descriptor)) (keys : List (Option ℕ)) (now : List (Option ℕ)) (fd : ℕ) (x : Option Descriptor)
        → ((key : ℕ) (leaf : Leaf) → object old key ≡ Some leaf → length leaf.descriptors ≡ 32) → length first ≡ 32 → length keys ≡ 3 → length now ≡ 3
        → 32 ≤ fd → fd < 128
        → row_at new (slice_index_or now (group_of fd) None) ≡ slice_set (row_at old (slice_index_or keys (group_of fd) None)) (place_of fd) x
        → ((i : ℕ) → i ≢ group_of fd → row_at new (slice_index_or now i None) ≡ row_at old (slice_index_or keys i None))
        → numbers_by new first now ≡ slice_set (numbers_by old first keys) fd x }
{}

/// Where the Leaves of all are held by processes, each owns its own; where one changes its Leaves, all others have open what they had,
/// and all hold theirs again.
pub fn each_process_owns_its_leaves()
    ensures owns { (leaves : List (Option Leaf)) (procs : List Proc) (one : Proc) → HoldLeaves leaves procs → Contains procs one
        → OwnsLeaves leaves one.leaves }
    ensures others { (old : List (Option Leaf)) (new : List (Option Leaf)) (was : Proc) (now : Proc) (whole : List Proc) (rest : List Proc)
        → Splits whole was rest → HoldLeaves old whole → LeavesChange old new was.leaves now.leaves
        → (other : Proc) → Contains rest other → (first : List (Option Descriptor)) → numbers_by new first other.leaves ≡ numbers_by old first other.leaves }
    ensures hold { (old : List (Option Leaf)) (new : List (Option Leaf)) (was : Proc) (now : Proc) (whole : List Proc) (rest : List Proc)
        → Splits whole was rest → HoldLeaves old whole → LeavesChange old new was.leaves now.leaves
        → (after : List Proc) → Splits after now rest → HoldLeaves new after }
{}
