//! `CachedBlocks`, and what it does to what was lent.
ghost use Rattle.std.specs.Prelude.{◌≡◌, ℕ, ◌<◌, ◌≤◌, length, slice_get, slice_set, None, Some};
ghost use Rattle.kheap_slabs.specs.Objects.{InUse};
ghost use Rattle.kheap_slabs.specs.Paid.{TakesNothing};
ghost use Rattle.block_cache.specs.Blocks.{block_slot, KeepsBlocks, TrueToDisk};
ghost use Rattle.kabi_types.specs.declared.inodes.DirEntry.{DirEntry};
ghost use Rattle.posix_defs.specs.SoundDisk.{block_bytes};
ghost use Rattle.memfs_dir.specs.Slots.{Spells, entries_in_block};
ghost use Rattle.memfs_dir.specs.Looking.{FoundIn};
ghost use Rattle.cached_disk.specs.Lent.{parts, AreLent, GoesOn, Asked, HasBytes};

use block_cache::BlockCache;
use disk_layout::RamDisk;
use kheap_slabs::{KHeap, Purse};
use memfs_dir::{FoundEntry, LookedBlocks, look_in};
use posix_defs::Blocks;

/// The blocks of a disk behind a cache, made of what a call lends.
#[derive(Drop)]
pub struct CachedBlocks<'a> {
    pub heap: &'a mut KHeap,
    pub purse: &'a mut Purse,
    pub cache: &'a mut BlockCache,
    pub disk: &'a mut RamDisk,
    pub ghost lent: { AreLent heap.now purse.now cache.now disk.now },
}

impl Blocks for CachedBlocks<'_> {
    ghost blocks = { λ b. b.disk.now.blocks };

    // The same four are lent, and go on.
    ghost follows = { λ a b. (b.heap.ghost_name ≡ a.heap.ghost_name)
        × (b.purse.ghost_name ≡ a.purse.ghost_name)
        × (b.cache.ghost_name ≡ a.cache.ghost_name)
        × (b.disk.ghost_name ≡ a.disk.ghost_name)
        × GoesOn (parts a.heap.now a.purse.now a.cache.now a.disk.now)
        (parts b.heap.now b.purse.now b.cache.now b.disk.now) };

    ghost asked = { λ a number b. Asked (parts a.heap.now a.purse.now a.cache.now a.disk.now) number
        (parts b.heap.now b.purse.now b.cache.now b.disk.now) };

    ghost use Rattle.std.specs.Prelude.{refl};
    ghost use Rattle.std.proofs.Common.{◌∙◌};
    ghost use Rattle.cached_disk.specs.GoingOn.{GoesOn-refl, GoesOn-trans};

    ghost follows_refl = { λ a. (refl, refl, refl, refl, GoesOn-refl (parts a.heap.now a.purse.now a.cache.now a.disk.now)) };

    ghost follows_trans = { λ a b c one other. (
      other.0 ∙ one.0,
      other.1 ∙ one.1,
      other.2 ∙ one.2,
      other.3 ∙ one.3,
      GoesOn-trans (parts a.heap.now a.purse.now a.cache.now a.disk.now)
          (parts b.heap.now b.purse.now b.cache.now b.disk.now)
          (parts c.heap.now c.purse.now c.cache.now c.disk.now) one.4 other.4,
    ) };

    fn count(&self) -> u32 {
        self.disk.count()
    }

    // In its caller's place its bytes are copied once, to where they are wanted.
    #[inline(always)]
    fn get(&mut self, number: u32) -> [u8; 1024] {
        fetch(self.heap, self.purse, self.cache, self.disk, number)
    }

    fn set(&mut self, number: u32, bytes: &[u8; 1024]) {
        store(self.heap, self.cache, self.disk, number, bytes);
    }
}

impl LookedBlocks for CachedBlocks<'_> {
    fn look(&mut self, block: u32, count: u32, name: &[u8]) -> Option<FoundEntry> {
        look_cached(
            self.heap, self.purse, self.cache, self.disk, block, count, name,
        )
    }
}

/// A block's bytes: as they are cached, else as they are read, and then they are cached.
#[inline(always)]
fn fetch(
    heap: &mut KHeap,
    purse: &mut Purse,
    cache: &mut BlockCache,
    disk: &mut RamDisk,
    number: u32,
) -> [u8; 1024]
    requires lent { AreLent heap.old purse.old cache.old disk.old }
    requires number { number < length disk.old.blocks }
    ensures value { slice_get disk.old.blocks number ≡ Some result }
    ensures kept { disk.new.blocks ≡ disk.old.blocks }
    ensures asked { Asked (parts heap.old purse.old cache.old disk.old) number
        (parts heap.new purse.new cache.new disk.new) }
    ensures goes_on { GoesOn (parts heap.old purse.old cache.old disk.old)
        (parts heap.new purse.new cache.new disk.new) }
    ensures lent { AreLent heap.new purse.new cache.new disk.new }
{
    let slot = cached(heap, purse, cache, disk, number);
    heap.get_block(slot).bytes
}

/// A look through a block of a directory where it lies in the heap.
fn look_cached(
    heap: &mut KHeap,
    purse: &mut Purse,
    cache: &mut BlockCache,
    disk: &mut RamDisk,
    number: u32,
    count: u32,
    name: &[u8],
) -> Option<FoundEntry>
    requires lent { AreLent heap.old purse.old cache.old disk.old }
    requires number { number < length disk.old.blocks }
    requires count { count ≤ entries_in_block }
    requires spelled { (slot : ℕ) → slot < count → (entry : DirEntry)
        × Spells (block_bytes disk.old.blocks number) slot entry }
    ensures value { FoundIn (block_bytes disk.old.blocks number) count name.now result }
    ensures kept { disk.new.blocks ≡ disk.old.blocks }
    ensures asked { Asked (parts heap.old purse.old cache.old disk.old) number
        (parts heap.new purse.new cache.new disk.new) }
    ensures goes_on { GoesOn (parts heap.old purse.old cache.old disk.old)
        (parts heap.new purse.new cache.new disk.new) }
    ensures lent { AreLent heap.new purse.new cache.new disk.new }
{
    let slot = cached(heap, purse, cache, disk, number);
    look_in(&heap.get_block(slot).bytes, count, name)
}

/// The key in the heap of a block's Block, which was read and filled where it wasn't cached.
fn cached(
    heap: &mut KHeap,
    purse: &mut Purse,
    cache: &mut BlockCache,
    disk: &mut RamDisk,
    number: u32,
) -> u32
    requires lent { AreLent heap.old purse.old cache.old disk.old }
    requires number { number < length disk.old.blocks }
    ensures value { HasBytes heap.new.blocks result disk.old.blocks number }
    ensures kept { disk.new.blocks ≡ disk.old.blocks }
    ensures asked { Asked (parts heap.old purse.old cache.old disk.old) number
        (parts heap.new purse.new cache.new disk.new) }
    ensures goes_on { GoesOn (parts heap.old purse.old cache.old disk.old)
        (parts heap.new purse.new cache.new disk.new) }
    ensures lent { AreLent heap.new purse.new cache.new disk.new }
{
    match cache.touch(heap, number) {
        Some(slot) => slot,
        None => filled(heap, purse, cache, disk, number),
    }
}

/// The same of a block that isn't cached.
#[cold]
fn filled(
    heap: &mut KHeap,
    purse: &mut Purse,
    cache: &mut BlockCache,
    disk: &mut RamDisk,
    number: u32,
) -> u32
    requires lent { AreLent heap.old purse.old cache.old disk.old }
    requires number { number < length disk.old.blocks }
    requires absent { block_slot cache.old number ≡ None }
    ensures value { HasBytes heap.new.blocks result disk.old.blocks number }
    ensures kept { disk.new.blocks ≡ disk.old.blocks }
    ensures asked { Asked (parts heap.old purse.old cache.old disk.old) number
        (parts heap.new purse.new cache.new disk.new) }
    ensures goes_on { GoesOn (parts heap.old purse.old cache.old disk.old)
        (parts heap.new purse.new cache.new disk.new) }
    ensures lent { AreLent heap.new purse.new cache.new disk.new }
{
    let bytes = disk.read(number);
    cache.fill(heap, purse, number, &bytes);
    let Some(slot) = cache.slot(number) else {
        unreachable!()
    };
    slot
}

/// Writes a block to the disk, and to the cache where it is cached.
fn store(
    heap: &mut KHeap,
    cache: &mut BlockCache,
    disk: &mut RamDisk,
    number: u32,
    bytes: &[u8; 1024],
)
    requires keeps { KeepsBlocks heap.old.blocks cache.old }
    requires true_blocks { TrueToDisk disk.old.blocks heap.old.blocks }
    requires number { number < length disk.old.blocks }
    ensures after { disk.new.blocks ≡ slice_set disk.old.blocks number bytes.now }
    ensures reads { disk.new.reads ≡ disk.old.reads }
    ensures heap { heap.new ≡ record heap.old { blocks = heap.new.blocks } }
    ensures same { cache.new ≡ cache.old }
    ensures used { (slot : ℕ) → InUse heap.old.blocks slot → InUse heap.new.blocks slot }
    ensures keeps { KeepsBlocks heap.new.blocks cache.new }
    ensures true_blocks { TrueToDisk disk.new.blocks heap.new.blocks }
    ensures takes { TakesNothing heap.old heap.new }
{
    disk.write(number, bytes);
    cache.renew(heap, number, bytes);
}
