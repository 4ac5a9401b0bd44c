ghost use Rattle.std.specs.Prelude.{◌≡◌, ℕ, ◌-◌, ◌<◌, ◌≤◌, ◌⊎◌, ◌↔◌, Err, IfErr, OnOk, length, min, slice_index};
ghost use Rattle.kabi_types.specs.declared.errnos.Errno.TheVariants.{EFBIG, ENOSPC};
ghost use Rattle.posix_defs.specs.DiskFormat.{data_blocks, blocks_of, most_blocks};
ghost use Rattle.posix_defs.specs.SoundDisk.{block_bytes, HasNode, IsFreeBlock, Sound, free_in_map, run_of};
ghost use Rattle.posix_defs.specs.NodeChange.{Grows};
ghost use Rattle.blk_map.specs.Growing.{GrowsBut};
ghost use Rattle.blk_map.specs.Named.{FreesNone, MayHaveSize};
ghost use Rattle.blk_map.specs.Runs.{run_end};

use crate::counts::{MOST_BLOCKS, block_count, data_count, run_of, size_in_run};
use crate::found::{free_up_to, lowest_free, mark_all};
use crate::naming::{behind_of, name_all};
use crate::pointing::name_pointers;
use crate::settling::{put_in_table, settle, zero_range};
use kabi_types::{Errno, Inode};
use posix_defs::Blocks;

/// Gives a node another size, not below the one that it has; its new blocks are zeros, and the lowest of those that are
/// free. No block is freed.
///
/// EFBIG exactly where the size takes more than 65802 blocks of bytes, else ENOSPC exactly where fewer blocks are free than
/// it takes more; nothing is written then.
pub fn grow<B: Blocks>(b: &mut B, number: u32, inode: &mut Inode, size: u32) -> Result<(), Errno>
    requires sound { Sound (B.blocks b.old) }
    requires node { HasNode (B.blocks b.old) number inode.old }
    requires kind { MayHaveSize inode.old.kind size }
    requires size { inode.old.size ≤ size }
    ensures ok { OnOk result (Grows number (B.blocks b.old) inode.old size (B.blocks b.new) inode.new) }
    ensures frees_none { FreesNone (B.blocks b.old) (B.blocks b.new) }
    ensures err { IfErr result (λ fault. ((fault ≡ EFBIG) ⊎ (fault ≡ ENOSPC)) × (B.blocks b.new ≡ B.blocks b.old) × (inode.new ≡ inode.old)) }
    ensures big { (result ≡ Err EFBIG) ↔ (most_blocks < data_blocks size) }
    ensures full { data_blocks size ≤ most_blocks → (result ≡ Err ENOSPC) ↔ (free_in_map (B.blocks b.old) < blocks_of size - blocks_of inode.old.size) }
    ensures follows { B.follows b.old b.new }
{
    grow_but(b, number, inode, size, 0, 0)
}

/// The same, but that of its new blocks of bytes those from `from` blocks on up to `to` are not written: they have any
/// bytes until the caller writes all of them.
pub fn grow_but<B: Blocks>(
    b: &mut B,
    number: u32,
    inode: &mut Inode,
    size: u32,
    from: u32,
    to: u32,
) -> Result<(), Errno>
    requires sound { Sound (B.blocks b.old) }
    requires node { HasNode (B.blocks b.old) number inode.old }
    requires kind { MayHaveSize inode.old.kind size }
    requires size { inode.old.size ≤ size }
    ensures ok { OnOk result (GrowsBut from to number (B.blocks b.old) inode.old size (B.blocks b.new) inode.new) }
    ensures frees_none { FreesNone (B.blocks b.old) (B.blocks b.new) }
    ensures err { IfErr result (λ fault. ((fault ≡ EFBIG) ⊎ (fault ≡ ENOSPC)) × (B.blocks b.new ≡ B.blocks b.old) × (inode.new ≡ inode.old)) }
    ensures big { (result ≡ Err EFBIG) ↔ (most_blocks < data_blocks size) }
    ensures full { data_blocks size ≤ most_blocks → (result ≡ Err ENOSPC) ↔ (free_in_map (B.blocks b.old) < blocks_of size - blocks_of inode.old.size) }
    ensures follows { B.follows b.old b.new }
{
    if data_count(size) > MOST_BLOCKS {
        return Err(Errno::EFBIG);
    }
    if size <= size_in_run(data_count(inode.size)) {
        return grow_in_run(b, number, inode, size, from, to);
    }
    grow_far(b, number, inode, size, from, to)
}

/// The same through several runs of pointers. What is free is counted first; within a run it is done at once, and what each
/// such step leaves is a node that has grown so far.
#[inline(never)]
fn grow_far<B: Blocks>(
    b: &mut B,
    number: u32,
    inode: &mut Inode,
    size: u32,
    from: u32,
    to: u32,
) -> Result<(), Errno>
    requires sound { Sound (B.blocks b.old) }
    requires node { HasNode (B.blocks b.old) number inode.old }
    requires kind { MayHaveSize inode.old.kind size }
    requires size { inode.old.size ≤ size }
    requires most { data_blocks size ≤ most_blocks }
    ensures ok { OnOk result (GrowsBut from to number (B.blocks b.old) inode.old size (B.blocks b.new) inode.new) }
    ensures frees_none { FreesNone (B.blocks b.old) (B.blocks b.new) }
    ensures err { IfErr result (λ fault. (fault ≡ ENOSPC) × (B.blocks b.new ≡ B.blocks b.old) × (inode.new ≡ inode.old)) }
    ensures full { (result ≡ Err ENOSPC) ↔ (free_in_map (B.blocks b.old) < blocks_of size - blocks_of inode.old.size) }
    ensures follows { B.follows b.old b.new }
{
    let need = block_count(size) - block_count(inode.size);
    let map = b.get(0);
    if free_up_to(&map, b.count(), need) < need {
        return Err(Errno::ENOSPC);
    }
    while inode.size < size {
        let next = size_in_run(data_count(inode.size)).min(size);
        grow_in_run(b, number, inode, next, from, to).unwrap();
    }
    Ok(())
}

/// The same within the run of pointers that the node's next block of bytes has its own in.
fn grow_in_run<B: Blocks>(
    b: &mut B,
    number: u32,
    inode: &mut Inode,
    size: u32,
    from: u32,
    to: u32,
) -> Result<(), Errno>
    requires sound { Sound (B.blocks b.old) }
    requires node { HasNode (B.blocks b.old) number inode.old }
    requires kind { MayHaveSize inode.old.kind size }
    requires size { inode.old.size ≤ size }
    requires most { data_blocks size ≤ most_blocks }
    requires run { data_blocks size ≤ run_end (run_of (data_blocks inode.old.size)) }
    ensures ok { OnOk result (GrowsBut from to number (B.blocks b.old) inode.old size (B.blocks b.new) inode.new) }
    ensures frees_none { FreesNone (B.blocks b.old) (B.blocks b.new) }
    ensures err { IfErr result (λ fault. (fault ≡ ENOSPC) × (B.blocks b.new ≡ B.blocks b.old) × (inode.new ≡ inode.old)) }
    ensures full { (result ≡ Err ENOSPC) ↔ (free_in_map (B.blocks b.old) < blocks_of size - blocks_of inode.old.size) }
    ensures follows { B.follows b.old b.new }
{
    let need = block_count(size) - block_count(inode.size);
    if need == 0 {
        inode.size = size;
        put_in_table(b, number, inode);
        return Ok(());
    }
    let mut map = b.get(0);
    let mut found = [0; 267];
    let count = lowest_free(&map, b.count(), need as usize, &mut found);
    if count < need as usize {
        return Err(Errno::ENOSPC);
    }
    let taken = &found[..need as usize];
    take_blocks(b, number, inode, size, &mut map, taken, from, to);
    Ok(())
}

/// Where the block from `index` blocks on stands among the `more` new ones of a node that had so many.
fn place_among(index: u32, had: usize, more: usize) -> usize
    ensures { result ≡ min more (index - had) }
{
    (index as usize).saturating_sub(had).min(more)
}

/// Gives a node these free blocks, as many as it takes more within a run: the first of them for bytes, the others for
/// pointers.
fn take_blocks<B: Blocks>(
    b: &mut B,
    number: u32,
    inode: &mut Inode,
    size: u32,
    map: &mut [u8; 1024],
    blocks: &[u32],
    from: u32,
    to: u32,
)
    requires sound { Sound (B.blocks b.old) }
    requires node { HasNode (B.blocks b.old) number inode.old }
    requires kind { MayHaveSize inode.old.kind size }
    requires size { data_blocks inode.old.size < data_blocks size }
    requires most { data_blocks size ≤ most_blocks }
    requires run { data_blocks size ≤ run_end (run_of (data_blocks inode.old.size)) }
    requires map { map.old ≡ block_bytes (B.blocks b.old) 0 }
    requires many { length blocks.now ≡ blocks_of size - blocks_of inode.old.size }
    requires free { (k : ℕ) → k < length blocks.now → IsFreeBlock (B.blocks b.old) (slice_index blocks.now k) }
    requires apart { (j k : ℕ) → j < length blocks.now → k < length blocks.now → slice_index blocks.now j ≡ slice_index blocks.now k → j ≡ k }
    requires lowest { (block : ℕ) → IsFreeBlock (B.blocks b.old) block
        → ((k : ℕ) × (k < length blocks.now) × (slice_index blocks.now k ≡ block)) ⊎ ((k : ℕ) → k < length blocks.now → slice_index blocks.now k < block) }
    ensures grows { GrowsBut from to number (B.blocks b.old) inode.old size (B.blocks b.new) inode.new }
    ensures frees_none { FreesNone (B.blocks b.old) (B.blocks b.new) }
    ensures follows { B.follows b.old b.new }
{
    let data = data_count(inode.size);
    let had = data as usize;
    let more = data_count(size) as usize - had;
    let run = run_of(data);
    let pointers = name_pointers(b, number, inode, size, run, &blocks[more..]);
    mark_all(map, blocks);
    b.set(0, map);
    let mut behind = [0; 256];
    behind_of(b, pointers, data, run, &mut behind);
    name_all(&mut inode.direct, &mut behind, had, blocks, more);
    inode.size = size;
    let first = place_among(from, had, more);
    let last = place_among(to, had, more).max(first);
    zero_range(b, blocks, 0, first);
    zero_range(b, blocks, last, more);
    settle(b, number, inode, pointers, run, &behind);
}
