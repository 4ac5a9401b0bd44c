//! Laws of the cache of blocks, each the contract of a function that does nothing.
ghost use Rattle.std.specs.Prelude.{◌≡◌, ℕ, ◌+◌, ◌<◌, ◌≤◌, List, [], Option, None, Some, length, replicate, slice_get, slice_set};
ghost use Rattle.kheap_slabs.specs.Objects.{count, put};
ghost use Rattle.kheap_slabs.specs.Purse.{Purse};
ghost use Rattle.kheap_slabs.specs.declared.objects.Block.{Block};
ghost use Rattle.kheap_slabs.specs.Heap.{Heap};
ghost use Rattle.kheap_slabs.specs.Paid.{IsPaid};
ghost use Rattle.lru_index.specs.Order.{Order, order};
ghost use Rattle.block_cache.specs.Blocks.{block, block_slot, cached_block, KeepsBlocks, TrueToDisk, BlockFilled};

/// A cache that was just booted answers None, whatever it has room for, and keeps just the Blocks of
/// a heap that was.
pub fn nothing_is_cached_at_boot()
    ensures none { (objects : List (Option Block)) (capacity : ℕ) (number : ℕ)
        → cached_block objects (order [] capacity) number ≡ None }
    ensures keeps { (limit : ℕ) (capacity : ℕ)
        → KeepsBlocks (replicate limit None) (order [] capacity) }
{}

/// To read a block that is cached is to read it from the disk.
pub fn reading_a_cache_is_reading_the_disk()
    ensures { (disk : List (List ℕ)) (objects : List (Option Block)) (cache : Order ℕ) (number : ℕ)
        (bytes : List ℕ)
        → TrueToDisk disk objects → KeepsBlocks objects cache
        → cached_block objects cache number ≡ Some bytes → slice_get disk number ≡ Some bytes }
{}

/// A cache stays true to the disk where a block of the disk is filled, and where one is written to
/// the disk and, where it is cached, to the cache.
pub fn a_cache_stays_true()
    ensures filled { (disk : List (List ℕ)) (made : Block) (old : Heap) (new : Heap)
        (before : Purse) (after : Purse) (had : Order ℕ) (has : Order ℕ)
        → TrueToDisk disk old.blocks → slice_get disk made.number ≡ Some made.bytes
        → BlockFilled made old new before after had has → TrueToDisk disk new.blocks }
    ensures written { (disk : List (List ℕ)) (objects : List (Option Block)) (cache : Order ℕ)
        (number : ℕ) (bytes : List ℕ) (slot : ℕ)
        → TrueToDisk disk objects → KeepsBlocks objects cache → number < length disk
        → block_slot cache number ≡ Some slot
        → TrueToDisk (slice_set disk number bytes) (put objects slot (block number bytes)) }
    ensures absent { (disk : List (List ℕ)) (objects : List (Option Block)) (cache : Order ℕ)
        (number : ℕ) (bytes : List ℕ)
        → TrueToDisk disk objects → KeepsBlocks objects cache → block_slot cache number ≡ None
        → TrueToDisk (slice_set disk number bytes) objects }
{}

/// A fill adds at most one Block, and none where the purse has none left.
pub fn a_fill_adds_at_most_one()
    ensures one { (made : Block) (old : Heap) (new : Heap) (before : Purse) (after : Purse)
        (had : Order ℕ) (has : Order ℕ)
        → BlockFilled made old new before after had has → IsPaid old before new after
        → count new.blocks ≤ count old.blocks + 1 }
    ensures none { (made : Block) (old : Heap) (new : Heap) (before : Purse) (after : Purse)
        (had : Order ℕ) (has : Order ℕ)
        → BlockFilled made old new before after had has → IsPaid old before new after
        → before.left.block ≡ 0 → count new.blocks ≤ count old.blocks }
{}
