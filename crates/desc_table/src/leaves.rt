//! The descriptors of a process once more, for one that is being made.

ghost use Rattle.std.specs.Prelude.{◌≡◌, ◌+◌, ◌≤◌, ℕ, List, IfSome, count_by, length};
ghost use Rattle.kheap_slabs.specs.Leaves.{LeavesChange, OwnsLeaves, numbers_by, row_at};
ghost use Rattle.kheap_slabs.specs.Objects.{InUse};
ghost use Rattle.kheap_slabs.specs.Paid.{CanPay, IsPaid};
ghost use Rattle.open_laws.specs.Described.{CountedList};
ghost use Rattle.open_laws.specs.Open.{AreOpen};
ghost use Rattle.open_laws.specs.Owned.{HasItsOwners, leaf_namings_of, names_desc};
ghost use Rattle.open_laws.specs.Placed.{Numbers};
ghost use Rattle.open_laws.specs.Sharing.{CanShare, after_shares, hand_with, share_all};
ghost use Rattle.posix_defs.specs.Files.State.{Files};
ghost use Rattle.desc_table.specs.Copying.{CopiesLeaf, no_leaves, spends_leaves};

use crate::descriptions::share_descs;
use kabi_types::Class;
use kheap_slabs::{Descriptor, KHeap, Purse};

/// Each descriptor of a process is there once more, for a process that is being made: those of its first 32 numbers are in hand then,
/// and those of its Leaves stand in copies of them. The keys of these copies.
pub fn copy_numbers(
    heap: &mut KHeap,
    purse: &mut Purse,
    places: &[Option<Descriptor>; 32],
    leaves: &[Option<u32>; 3],
) -> [Option<u32>; 3]
    requires owns { OwnsLeaves heap.old.leaves leaves.now }
    requires can { CanShare heap.old.descs (numbers_by heap.old.leaves places.now leaves.now) }
    requires pays { CanPay heap.old purse.old }
    requires left { 3 ≤ purse.old.left.leaf }
    ensures numbers { numbers_by heap.new.leaves places.now result ≡ numbers_by heap.old.leaves places.now leaves.now }
    ensures leaves { LeavesChange heap.old.leaves heap.new.leaves no_leaves result }
    ensures long { length result ≡ 3 }
    ensures namings { (key : ℕ) → leaf_namings_of heap.new.leaves key + count_by (names_desc key) places.now
        ≡ leaf_namings_of heap.old.leaves key + count_by (names_desc key) (numbers_by heap.old.leaves places.now leaves.now) }
    ensures descs { heap.new.descs ≡ share_all heap.old.descs (numbers_by heap.old.leaves places.now leaves.now) }
    ensures opened { (numbers : Numbers) (list : CountedList) (files : Files) → AreOpen numbers heap.old list files
        → AreOpen numbers heap.new (after_shares numbers.descs list (numbers_by heap.old.leaves places.now leaves.now)) files }
    ensures owners { (hand : List ℕ) → HasItsOwners heap.old hand → HasItsOwners heap.new (hand_with places.now hand) }
    ensures kept { heap.new
        ≡ record heap.old { descs = heap.new.descs; leaves = heap.new.leaves; high = heap.new.high } }
    ensures paid { IsPaid heap.old purse.old heap.new purse.new }
    ensures pays { CanPay heap.new purse.new }
    ensures spent { purse.new ≡ spends_leaves purse.old purse.new }
{
    share_descs(heap, places);
    [
        copy_leaf(heap, purse, leaves[0]),
        copy_leaf(heap, purse, leaves[1]),
        copy_leaf(heap, purse, leaves[2]),
    ]
}

// A Leaf once more, if there is one, and each of its descriptors. The key of the copy.
fn copy_leaf(heap: &mut KHeap, purse: &mut Purse, leaf: Option<u32>) -> Option<u32>
    requires used { IfSome leaf (InUse heap.old.leaves) }
    requires can { CanShare heap.old.descs (row_at heap.old.leaves leaf) }
    requires pays { CanPay heap.old purse.old }
    requires left { 1 ≤ purse.old.left.leaf }
    ensures copies { CopiesLeaf heap.old.leaves heap.new.leaves leaf result }
    ensures descs { heap.new.descs ≡ share_all heap.old.descs (row_at heap.old.leaves leaf) }
    ensures opened { (numbers : Numbers) (list : CountedList) (files : Files) → AreOpen numbers heap.old list files
        → AreOpen numbers heap.new (after_shares numbers.descs list (row_at heap.old.leaves leaf)) files }
    ensures owners { (hand : List ℕ) → HasItsOwners heap.old hand → HasItsOwners heap.new hand }
    ensures kept { heap.new
        ≡ record heap.old { descs = heap.new.descs; leaves = heap.new.leaves; high = heap.new.high } }
    ensures paid { IsPaid heap.old purse.old heap.new purse.new }
    ensures pays { CanPay heap.new purse.new }
    ensures spent { purse.new ≡ spends_leaves purse.old purse.new }
    ensures one { purse.old.left.leaf ≤ purse.new.left.leaf + 1 }
{
    let key = leaf?;
    let found = *heap.get_leaf(key);
    share_descs(heap, &found.descriptors);
    purse.spend(Class::Leaf);
    Some(heap.insert_leaf(found))
}
