//! Free blocks, found in a map and marked there.

ghost use Rattle.std.specs.Prelude.{◌≡◌, ◌≢◌, ℕ, ◌+◌, ◌*◌, ◌<◌, ◌≤◌, ◌⊎◌, min, length, slice_index};
ghost use Rattle.posix_defs.specs.DiskFormat.{block_size};
ghost use Rattle.posix_defs.specs.SoundDisk.{bit_of};
ghost use Rattle.blk_map.specs.Found.{free_below};

use disk_layout::{mark, next_free, unmark};

/// Blocks that a node drops.
#[derive(Clone, Copy)]
pub struct Found {
    pub blocks: [u32; 267],
    pub count: usize,
}

impl Found {
    /// Puts one more block behind the others.
    pub fn push(&mut self, block: u32)
        requires { self.old.count < 267 }
        ensures count { self.new.count ≡ self.old.count + 1 }
        ensures here { slice_index self.new.blocks self.old.count ≡ block }
        ensures kept { (k : ℕ) → k < self.old.count → slice_index self.new.blocks k ≡ slice_index self.old.blocks k }
    {
        self.blocks[self.count] = block;
        self.count += 1;
    }
}

/// Finds the lowest free blocks of a map of so many blocks, up to as many as are wanted, and answers how many.
pub fn lowest_free(map: &[u8; 1024], blocks: u32, wanted: usize, found: &mut [u32; 267]) -> usize
    requires few { blocks ≤ 8 * block_size }
    requires room { wanted ≤ 267 }
    ensures many { result ≡ min wanted (free_below map.now blocks) }
    ensures each { (k : ℕ) → k < result → (slice_index found.new k < blocks) × (bit_of map.now (slice_index found.new k) ≢ 1) }
    ensures apart { (j k : ℕ) → j < result → k < result → slice_index found.new j ≡ slice_index found.new k → j ≡ k }
    ensures lowest { (block : ℕ) → block < blocks → bit_of map.now block ≢ 1
        → ((k : ℕ) × (k < result) × (slice_index found.new k ≡ block)) ⊎ ((k : ℕ) → k < result → slice_index found.new k < block) }
{
    let mut count = 0;
    let mut number = 0;
    while count < wanted {
        let free = next_free(map, number, blocks);
        if free == blocks {
            return count;
        }
        found[count] = free;
        count += 1;
        number = free + 1;
    }
    count
}

/// How many blocks a map has as free, of so many; it is counted up to what is wanted.
pub fn free_up_to(map: &[u8; 1024], blocks: u32, wanted: u32) -> u32
    requires { blocks ≤ 8 * block_size }
    ensures { result ≡ min wanted (free_below map.now blocks) }
{
    let mut count = 0;
    let mut number = 0;
    while count < wanted {
        let free = next_free(map, number, blocks);
        if free == blocks {
            return count;
        }
        count += 1;
        number = free + 1;
    }
    count
}

/// Has these blocks in use, and leaves all others.
pub fn mark_all(map: &mut [u8; 1024], blocks: &[u32])
    requires { (k : ℕ) → k < length blocks.now → slice_index blocks.now k < 8 * block_size }
    ensures these { (k : ℕ) → k < length blocks.now → bit_of map.new (slice_index blocks.now k) ≡ 1 }
    ensures others { (block : ℕ) → ((k : ℕ) → k < length blocks.now → slice_index blocks.now k ≢ block) → bit_of map.new block ≡ bit_of map.old block }
    ensures stays { (block : ℕ) → bit_of map.old block ≡ 1 → bit_of map.new block ≡ 1 }
    ensures only { (block : ℕ) → bit_of map.new block ≡ 1 → (bit_of map.old block ≡ 1) ⊎ ((k : ℕ) × (k < length blocks.now) × (slice_index blocks.now k ≡ block)) }
{
    for block in blocks {
        mark(map, *block);
    }
}

/// Has the first of these blocks free, and leaves all others.
pub fn unmark_all(map: &mut [u8; 1024], blocks: &[u32], count: usize)
    requires few { count ≤ length blocks.now }
    requires within { (k : ℕ) → k < count → slice_index blocks.now k < 8 * block_size }
    ensures these { (k : ℕ) → k < count → bit_of map.new (slice_index blocks.now k) ≡ 0 }
    ensures others { (block : ℕ) → ((k : ℕ) → k < count → slice_index blocks.now k ≢ block) → bit_of map.new block ≡ bit_of map.old block }
    ensures only { (block : ℕ) → bit_of map.new block ≡ 1 → bit_of map.old block ≡ 1 }
{
    for k in 0..count {
        unmark(map, blocks[k]);
    }
}
