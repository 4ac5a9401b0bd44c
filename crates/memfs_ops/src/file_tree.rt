//! `FileTree` at boot.
ghost use Rattle.std.specs.Prelude.{◌≡◌, ℕ, ◌+◌, ◌/◌, ◌<◌, ◌≤◌, [], None, min, replicate, IfOk, OnErr};
ghost use Rattle.kabi_types.specs.Class.{size};
ghost use Rattle.kabi_types.specs.declared.classes.Class.TheVariants as class;
ghost use Rattle.kheap_slabs.specs.Heap.{live_bytes};
ghost use Rattle.posix_defs.specs.DiskContents.{new_root};
ghost use Rattle.posix_defs.specs.Tree.{new_tree};
ghost use Rattle.vnode_cache.specs.Nodes.{nodes, KeepsNodes};
ghost use Rattle.memfs_ops.specs.FileTree.{Stands, HasNoFiles, root_alone, KeepsRoot};

use block_cache::BlockCache;
use disk_layout::RamDisk;
use kabi_types::{Class, Inode, Memory, Need};
use kheap_slabs::{KHeap, Purse};
use name_cache::NameCache;
use posix_defs::blank_inode;
use std::alloc::Global;
use std::marker::Model;
use vnode_cache::VnodeCache;

/// A tree of files: its disk, and what of it is cached in the heap.
#[derive(Drop)]
pub struct FileTree {
    pub(crate) names: NameCache,
    pub(crate) vnodes: VnodeCache,
    pub(crate) blocks: BlockCache,
    pub(crate) disk: RamDisk,
}

impl Model for FileTree {
    ghost use Rattle.memfs_ops.specs.FileTree.{TreeView};

    ghost Value = { TreeView };

    ghost view = { λ fs. record { names = fs.names; vnodes = fs.vnodes; blocks = fs.blocks; disk = fs.disk } };
}

impl FileTree {
    /// The new tree, of a disk of 16 to 4096 blocks: an empty root, which is held once. The heap gets its Vnode and nothing
    /// else; nothing was read. Memory where the host has none; the heap is then as it was.
    pub fn boot(alloc: Global, blocks: u32, heap: &mut KHeap) -> Result<FileTree, Memory>
        requires blocks { (16 ≤ blocks) × (blocks ≤ 4096) }
        requires empty { HasNoFiles heap.old }
        requires room { live_bytes heap.old + size class.Vnode ≤ heap.old.heap }
        ensures stands { IfOk result (λ fs. Stands heap.new fs (new_tree blocks) root_alone) }
        ensures unread { IfOk result (λ fs. fs.disk.reads ≡ 0) }
        ensures root { IfOk result (λ fs. KeepsRoot (new_root blocks) heap.old heap.new) }
        ensures failed { OnErr result (heap.new ≡ heap.old) }
    {
        let name_count = room_for(heap, Class::Name, u32::MAX);
        let node_count = room_for(heap, Class::Vnode, 16 * (blocks / 16));
        let block_count = room_for(heap, Class::Block, blocks);
        let disk = RamDisk::boot(alloc, blocks)?;
        let names = NameCache::boot(alloc, name_count)?;
        let mut vnodes = VnodeCache::boot(alloc, node_count)?;
        let cache = BlockCache::boot(alloc, block_count)?;
        let root = root_of(blocks);
        hold_root(heap, &mut vnodes, root);
        Ok(FileTree {
            names,
            vnodes,
            blocks: cache,
            disk,
        })
    }

    /// How often a block of the disk was read.
    pub fn reads(&self) -> u64
        ensures { result ≡ self.now.disk.reads }
    {
        self.disk.reads()
    }
}

/// How many objects of a class there may be, of as many as the disk has.
fn room_for(heap: &KHeap, class: Class, most: u32) -> u32
    ensures count { result ≡ min (heap.now.heap / size class) most }
    ensures limit { heap.now.heap ≤ 8388608 }
{
    (heap.heap() / class.bytes()).min(most as u64) as u32
}

/// The inode of a new root: its entries stand in the first block behind the table.
fn root_of(blocks: u32) -> Inode
    requires { blocks ≤ 4096 }
    ensures { result ≡ new_root blocks }
{
    let mut direct = [0; 10];
    direct[0] = blocks / 16 + 1;
    Inode {
        kind: 2,
        nlink: 1,
        size: 64,
        direct,
        ..blank_inode()
    }
}

/// The root's inode is cached, by a cache that has nothing yet, and held once.
fn hold_root(heap: &mut KHeap, vnodes: &mut VnodeCache, inode: Inode)
    requires empty { heap.old.vnodes ≡ replicate (heap.old.heap / size class.Vnode) None }
    requires none { (capacity : ℕ) × (0 < capacity) × (vnodes.old ≡ nodes [] capacity 0) }
    requires room { live_bytes heap.old + size class.Vnode ≤ heap.old.heap }
    ensures root { KeepsRoot inode heap.old heap.new }
    ensures keeps { KeepsNodes heap.new.vnodes vnodes.new }
    ensures capacity { vnodes.new.order.capacity ≡ vnodes.old.order.capacity }
{
    let mut purse = Purse::of(Need {
        vnode: 1,
        ..Need::default()
    });
    vnodes.fill(heap, &mut purse, 1, inode);
    vnodes.pin(heap, 1);
}
