//! Bytes of a node that is held: those of a file, and the entries of a directory.
ghost use Rattle.std.specs.Prelude.{◌≡◌, ℕ, ◌+◌, ◌-◌, ◌*◌, ◌/◌, ◌%◌, ◌<◌, ◌≤◌, ◌++◌, true, length, min, take, drop};
ghost use Rattle.std.specs.List.{AllByRecursion};
ghost use Rattle.kabi_types.specs.declared.inodes.Inode.{Inode as InodeOf};
ghost use Rattle.posix_defs.specs.DiskFormat.{block_size};
ghost use Rattle.posix_defs.specs.DiskContents.{data_block, node_bytes};
ghost use Rattle.posix_defs.specs.PathCalls as calls;
ghost use Rattle.posix_defs.specs.SoundDisk.{HasNode};
ghost use Rattle.posix_defs.specs.Tree.{Tree, is_directory as directory_in};
ghost use Rattle.memfs_file.specs.FileChange.{IsInUse};
ghost use Rattle.memfs_file.specs.Ranges.{asked_to_read};
ghost use Rattle.cached_disk.specs.Lent.{IsCached};
ghost use Rattle.memfs_ops.specs.FileTree.{Stands};
ghost use Rattle.memfs_ops.specs.Fetching.{MayFetch, Fetches, IsFile};

use crate::FileTree;
use cached_disk::read_through;
use kabi_types::Inode;
use kheap_slabs::{KHeap, Purse};

/// The bytes of an entry.
const ENTRY_SIZE: usize = 32;

impl FileTree {
    /// Reads the bytes of a file that is held, from `at` on, as many as are there and have room, and answers how many.
    ///
    /// Nothing is read of the disk where all blocks that it asks for are cached. The block of the last byte is cached
    /// afterwards. See [read](https://pubs.opengroup.org/onlinepubs/9699919799/functions/read.html).
    pub fn read_node(
        &mut self,
        heap: &mut KHeap,
        purse: &mut Purse,
        node: u32,
        at: u64,
        out: &mut [u8],
    ) -> u32
        requires stands { (tree : Tree) × (pins : ℕ → ℕ) × Stands heap.old self.old tree pins
            × (0 < pins node) × IsFile tree node }
        requires may { MayFetch heap.old purse.old }
        ensures count { (tree : Tree) (pins : ℕ → ℕ) → Stands heap.old self.old tree pins
            → result ≡ length (calls.read_node tree node at (length out.old)) }
        ensures bytes { (tree : Tree) (pins : ℕ → ℕ) → Stands heap.old self.old tree pins
            → out.new ≡ calls.read_node tree node at (length out.old) ++ drop result out.old }
        ensures fetches { Fetches heap.old heap.new purse.old purse.new self.old self.new }
        ensures saved { (inode : InodeOf) → HasNode self.old.disk.blocks node inode
            → AllByRecursion (IsCached self.old.blocks) (asked_to_read self.old.disk.blocks inode at result)
            → self.new.disk ≡ self.old.disk }
        ensures last { (inode : InodeOf) → HasNode self.old.disk.blocks node inode → 0 < result
            → IsCached self.new.blocks (data_block self.old.disk.blocks inode ((at + result - 1) / block_size)) }
    {
        let inode = self.held_inode(heap, node);
        self.read_bytes(heap, purse, &inode, place_of(at), out)
    }

    /// Reads the entries of a directory that is held, `.` and `..` first, from byte `at` on, each of 32 bytes, as many whole
    /// ones as are there and have room, and answers how many bytes.
    ///
    /// Nothing is read of the disk where all blocks that it asks for are cached. The block of the last byte is cached
    /// afterwards. See [readdir](https://pubs.opengroup.org/onlinepubs/9699919799/functions/readdir.html).
    pub fn list_node(
        &mut self,
        heap: &mut KHeap,
        purse: &mut Purse,
        node: u32,
        at: u64,
        out: &mut [u8],
    ) -> u32
        requires stands { (tree : Tree) × (pins : ℕ → ℕ) × Stands heap.old self.old tree pins
            × (0 < pins node) × (directory_in tree node ≡ true) }
        requires whole { at % 32 ≡ 0 }
        requires may { MayFetch heap.old purse.old }
        ensures count { (tree : Tree) (pins : ℕ → ℕ) → Stands heap.old self.old tree pins
            → result ≡ length (calls.list_node tree node at (length out.old)) }
        ensures bytes { (tree : Tree) (pins : ℕ → ℕ) → Stands heap.old self.old tree pins
            → out.new ≡ calls.list_node tree node at (length out.old) ++ drop result out.old }
        ensures fetches { Fetches heap.old heap.new purse.old purse.new self.old self.new }
        ensures saved { (inode : InodeOf) → HasNode self.old.disk.blocks node inode
            → AllByRecursion (IsCached self.old.blocks) (asked_to_read self.old.disk.blocks inode at result)
            → self.new.disk ≡ self.old.disk }
        ensures last { (inode : InodeOf) → HasNode self.old.disk.blocks node inode → 0 < result
            → IsCached self.new.blocks (data_block self.old.disk.blocks inode ((at + result - 1) / block_size)) }
    {
        let inode = self.held_inode(heap, node);
        let whole = out.len() / ENTRY_SIZE * ENTRY_SIZE;
        self.read_bytes(heap, purse, &inode, place_of(at), &mut out[..whole])
    }

    // The bytes of a node, by its inode.
    pub(crate) fn read_bytes(
        &mut self,
        heap: &mut KHeap,
        purse: &mut Purse,
        inode: &Inode,
        at: u32,
        out: &mut [u8],
    ) -> u32
        requires stands { (tree : Tree) × (pins : ℕ → ℕ) × Stands heap.old self.old tree pins }
        requires node { IsInUse self.old.disk.blocks inode.now }
        requires may { MayFetch heap.old purse.old }
        ensures count { result ≡ min (length out.old) (inode.now.size - at) }
        ensures bytes { out.new
            ≡ take result (drop at (node_bytes self.old.disk.blocks inode.now)) ++ drop result out.old }
        ensures nodes { self.new.vnodes ≡ self.old.vnodes }
        ensures fetches { Fetches heap.old heap.new purse.old purse.new self.old self.new }
        ensures saved { AllByRecursion (IsCached self.old.blocks)
            (asked_to_read self.old.disk.blocks inode.now at result)
            → self.new.disk ≡ self.old.disk }
        ensures last { 0 < result → IsCached self.new.blocks
            (data_block self.old.disk.blocks inode.now ((at + result - 1) / block_size)) }
    {
        read_through(
            heap,
            purse,
            &mut self.blocks,
            &mut self.disk,
            inode,
            at,
            out,
        )
    }
}

/// A place in a node; behind the last one that it may have all places are alike.
pub(crate) fn place_of(at: u64) -> u32
    ensures { result ≡ min at 4294967295 }
{
    at.min(u32::MAX as u64) as u32
}
