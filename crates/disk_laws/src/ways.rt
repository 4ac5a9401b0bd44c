//! Laws on the pointers of a node, and on the blocks that they lead to. Each is the contract of a function that does nothing.

ghost use Rattle.std.specs.Prelude.{◌≡◌, ◌≢◌, ℕ, ◌+◌, ◌-◌, ◌/◌, ◌<◌, ◌↔◌, nat_lt, if◌then◌else◌, MatchOption, Some};
ghost use Rattle.posix_defs.specs.DiskFormat.{block_pointers, direct_pointers, near_blocks, leads_to, pointers_beside};
ghost use Rattle.posix_defs.specs.SoundDisk.{way_to};

/// A block of bytes is named by the inode itself, or one pointer of one block of pointers leads there; and each pointer of
/// these, but for those of the double block, leads to a block of bytes. So two blocks of bytes never have one way.
pub fn every_block_of_bytes_has_its_own_way()
    ensures led { (index : ℕ) → MatchOption (way_to index) (index < direct_pointers)
        (λ way. (way.block ≢ 1) × (way.at < block_pointers) × (leads_to way.block way.at ≡ index)) }
    ensures back { (block at : ℕ) → block ≢ 1 → at < block_pointers → way_to (leads_to block at) ≡ Some (record { block = block; at = at }) }
{}

/// A node has a block of pointers exactly where it has the first block of bytes that this one leads to; and a pointer of the
/// double block leads where the block leads that it names. So blocks of bytes take one where there are more than ten, and
/// where there are more than 266 the double block and one for each 256 of these, the last for what is left.
pub fn a_node_has_the_blocks_of_pointers_that_it_needs()
    ensures needed { (blocks block : ℕ) → (block < pointers_beside blocks) ↔ (leads_to block 0 < blocks) }
    ensures many { (blocks : ℕ) → pointers_beside blocks ≡ (if nat_lt direct_pointers blocks then 1 else 0)
        + (if nat_lt near_blocks blocks then 1 + (blocks - near_blocks + (block_pointers - 1)) / block_pointers else 0) }
    ensures double { (at : ℕ) → leads_to 1 at ≡ leads_to (at + 2) 0 }
{}
