//! `CachedDirs`, and what it does to what was lent.
ghost use Rattle.std.specs.Prelude.{◌≡◌, ◌≢◌, ◌⊎◌, ℕ, ◌<◌, ◌≤◌, true, length, IfNone, IfSome, IsSome, None};
ghost use Rattle.lru_index.specs.Order.{Order};
ghost use Rattle.lru_index.specs.NameKeys.{name_key};
ghost use Rattle.lru_index.specs.declared.keys.NameKey.{NameKey as KeyOf};
ghost use Rattle.posix_defs.specs.DiskContents.{own_name, parent_name};
ghost use Rattle.posix_defs.specs.SoundDisk.{HasNode};
ghost use Rattle.posix_defs.specs.Tree.{Tree, found, is_directory, is_in_use, parent_at};
ghost use Rattle.name_cache.specs.Names.{name_slot};
ghost use Rattle.vnode_cache.specs.Nodes.{node_slot};
ghost use Rattle.cached_disk.specs.TreeLent.{tree_parts, AllLent, StandsThrough, TreeGoesOn, NodeAsked, NameAsked, Answered};

use crate::through::{inode_through, name_through, parent_through};
use block_cache::BlockCache;
use disk_layout::RamDisk;
use kabi_types::Inode;
use kheap_slabs::{KHeap, Purse};
use lru_index::NameKey;
use name_cache::NameCache;
use posix_defs::Dirs;
use vnode_cache::VnodeCache;

/// The directories of a disk behind three caches, made of what a call lends.
#[derive(Drop)]
pub struct CachedDirs<'a> {
    pub heap: &'a mut KHeap,
    pub purse: &'a mut Purse,
    pub names: &'a mut NameCache,
    pub vnodes: &'a mut VnodeCache,
    pub blocks: &'a mut BlockCache,
    pub disk: &'a mut RamDisk,
    pub ghost lent: { AllLent heap.now purse.now names.now vnodes.now blocks.now disk.now },
}

impl Dirs for CachedDirs<'_> {
    ghost use Rattle.std.specs.Prelude.{refl};
    ghost use Rattle.std.proofs.Common.{◌∙◌};
    ghost use Rattle.cached_disk.specs.TreeGoing.{TreeGoesOn-refl, TreeGoesOn-trans};

    ghost stands = { λ d tree. StandsThrough (tree_parts d.heap.now d.purse.now d.names.now d.vnodes.now d.blocks.now d.disk.now) tree };

    // The same six are lent, and go on.
    ghost follows = { λ a b. (b.heap.ghost_name ≡ a.heap.ghost_name)
        × (b.purse.ghost_name ≡ a.purse.ghost_name)
        × (b.names.ghost_name ≡ a.names.ghost_name)
        × (b.vnodes.ghost_name ≡ a.vnodes.ghost_name)
        × (b.blocks.ghost_name ≡ a.blocks.ghost_name)
        × (b.disk.ghost_name ≡ a.disk.ghost_name)
        × TreeGoesOn (tree_parts a.heap.now a.purse.now a.names.now a.vnodes.now a.blocks.now a.disk.now)
        (tree_parts b.heap.now b.purse.now b.names.now b.vnodes.now b.blocks.now b.disk.now) };

    ghost asked = { λ a question b.
        Answered (tree_parts a.heap.now a.purse.now a.names.now a.vnodes.now a.blocks.now a.disk.now) question
        (tree_parts b.heap.now b.purse.now b.names.now b.vnodes.now b.blocks.now b.disk.now) };

    ghost stands_tree = { λ _ _ stands. stands.is_tree };

    ghost follows_refl = { λ a. (
      refl,
      refl,
      refl,
      refl,
      refl,
      refl,
      TreeGoesOn-refl (tree_parts a.heap.now a.purse.now a.names.now a.vnodes.now a.blocks.now a.disk.now),
    ) };

    ghost follows_trans = { λ a b c one other. (
      other.0 ∙ one.0,
      other.1 ∙ one.1,
      other.2 ∙ one.2,
      other.3 ∙ one.3,
      other.4 ∙ one.4,
      other.5 ∙ one.5,
      TreeGoesOn-trans (tree_parts a.heap.now a.purse.now a.names.now a.vnodes.now a.blocks.now a.disk.now)
          (tree_parts b.heap.now b.purse.now b.names.now b.vnodes.now b.blocks.now b.disk.now)
          (tree_parts c.heap.now c.purse.now c.names.now c.vnodes.now c.blocks.now c.disk.now) one.6 other.6,
    ) };

    #[inline(always)]
    fn node(&mut self, number: u32) -> Inode {
        find_inode(
            self.heap,
            self.purse,
            self.vnodes,
            self.blocks,
            self.disk,
            number,
        )
    }

    fn look(&mut self, dir: u32, name: &[u8]) -> Option<u32> {
        find_name(
            self.heap,
            self.purse,
            self.names,
            self.vnodes,
            self.blocks,
            self.disk,
            dir,
            name,
        )
    }

    fn parent(&mut self, dir: u32) -> u32 {
        find_parent(
            self.heap,
            self.purse,
            self.vnodes,
            self.blocks,
            self.disk,
            dir,
        )
    }
}

/// The inode of a node in use: as it is cached, else as the table has it, and then it is cached.
// What its caller doesn't look at isn't copied.
#[inline(always)]
pub fn find_inode(
    heap: &mut KHeap,
    purse: &mut Purse,
    vnodes: &mut VnodeCache,
    blocks: &mut BlockCache,
    disk: &mut RamDisk,
    number: u32,
) -> Inode
    requires lent { (names : Order KeyOf)
        × AllLent heap.old purse.old names vnodes.old blocks.old disk.old }
    requires stands { (names : Order KeyOf) × (tree : Tree)
        × StandsThrough (tree_parts heap.old purse.old names vnodes.old blocks.old disk.old) tree
        × (is_in_use tree number ≡ true) }
    ensures has { HasNode disk.old.blocks number result }
    ensures lent { (names : Order KeyOf)
        → AllLent heap.old purse.old names vnodes.old blocks.old disk.old
        → AllLent heap.new purse.new names vnodes.new blocks.new disk.new }
    ensures stands { (names : Order KeyOf) (tree : Tree)
        → StandsThrough (tree_parts heap.old purse.old names vnodes.old blocks.old disk.old) tree
        → StandsThrough (tree_parts heap.new purse.new names vnodes.new blocks.new disk.new) tree }
    ensures goes_on { (names : Order KeyOf)
        → TreeGoesOn (tree_parts heap.old purse.old names vnodes.old blocks.old disk.old)
        (tree_parts heap.new purse.new names vnodes.new blocks.new disk.new) }
    ensures asked { (names : Order KeyOf)
        → NodeAsked number (tree_parts heap.old purse.old names vnodes.old blocks.old disk.old)
        (tree_parts heap.new purse.new names vnodes.new blocks.new disk.new) }
{
    match vnodes.get(heap, number) {
        Some(inode) => inode,
        None => read_inode(heap, purse, vnodes, blocks, disk, number),
    }
}

/// The same of a node that isn't cached.
#[cold]
fn read_inode(
    heap: &mut KHeap,
    purse: &mut Purse,
    vnodes: &mut VnodeCache,
    blocks: &mut BlockCache,
    disk: &mut RamDisk,
    number: u32,
) -> Inode
    requires lent { (names : Order KeyOf)
        × AllLent heap.old purse.old names vnodes.old blocks.old disk.old }
    requires stands { (names : Order KeyOf) × (tree : Tree)
        × StandsThrough (tree_parts heap.old purse.old names vnodes.old blocks.old disk.old) tree
        × (is_in_use tree number ≡ true) }
    requires absent { node_slot vnodes.old number ≡ None }
    ensures has { HasNode disk.old.blocks number result }
    ensures lent { (names : Order KeyOf)
        → AllLent heap.old purse.old names vnodes.old blocks.old disk.old
        → AllLent heap.new purse.new names vnodes.new blocks.new disk.new }
    ensures stands { (names : Order KeyOf) (tree : Tree)
        → StandsThrough (tree_parts heap.old purse.old names vnodes.old blocks.old disk.old) tree
        → StandsThrough (tree_parts heap.new purse.new names vnodes.new blocks.new disk.new) tree }
    ensures goes_on { (names : Order KeyOf)
        → TreeGoesOn (tree_parts heap.old purse.old names vnodes.old blocks.old disk.old)
        (tree_parts heap.new purse.new names vnodes.new blocks.new disk.new) }
    ensures asked { (names : Order KeyOf)
        → NodeAsked number (tree_parts heap.old purse.old names vnodes.old blocks.old disk.old)
        (tree_parts heap.new purse.new names vnodes.new blocks.new disk.new) }
{
    let inode = inode_through(heap, purse, blocks, disk, number);
    vnodes.fill(heap, purse, number, inode);
    inode
}

/// The key of a name that an entry may have: 27 bytes at most, and neither `.` nor `..`.
fn entry_key(dir: u32, name: &[u8]) -> Option<NameKey>
    ensures none { IfNone result
        ((name.now ≡ own_name) ⊎ ((name.now ≡ parent_name) ⊎ (27 < length name.now))) }
    ensures some { IfSome result
        (λ key. (key ≡ name_key dir name.now) × (length name.now ≤ 27)
        × (name.now ≢ own_name) × (name.now ≢ parent_name)) }
{
    if matches!(name, b"." | b"..") || name.len() > 27 {
        return None;
    }
    Some(NameKey::of_bytes(dir, name))
}

/// The node under a name of a directory: as it is cached, else as the directory has it, and then it is cached. None exactly
/// where the name isn't there; one that no entry may have is answered at once.
pub fn find_name(
    heap: &mut KHeap,
    purse: &mut Purse,
    names: &mut NameCache,
    vnodes: &mut VnodeCache,
    blocks: &mut BlockCache,
    disk: &mut RamDisk,
    dir: u32,
    name: &[u8],
) -> Option<u32>
    requires lent { AllLent heap.old purse.old names.old vnodes.old blocks.old disk.old }
    requires stands { (tree : Tree)
        × StandsThrough (tree_parts heap.old purse.old names.old vnodes.old blocks.old disk.old) tree
        × (is_directory tree dir ≡ true) }
    ensures value { (tree : Tree)
        → StandsThrough (tree_parts heap.old purse.old names.old vnodes.old blocks.old disk.old) tree
        → result ≡ found tree dir name.now }
    ensures lent { AllLent heap.new purse.new names.new vnodes.new blocks.new disk.new }
    ensures stands { (tree : Tree)
        → StandsThrough (tree_parts heap.old purse.old names.old vnodes.old blocks.old disk.old) tree
        → StandsThrough (tree_parts heap.new purse.new names.new vnodes.new blocks.new disk.new) tree }
    ensures goes_on { TreeGoesOn (tree_parts heap.old purse.old names.old vnodes.old blocks.old disk.old)
        (tree_parts heap.new purse.new names.new vnodes.new blocks.new disk.new) }
    ensures asked { NameAsked dir name.now
        (tree_parts heap.old purse.old names.old vnodes.old blocks.old disk.old)
        (tree_parts heap.new purse.new names.new vnodes.new blocks.new disk.new) }
{
    let Some(key) = entry_key(dir, name) else {
        return None;
    };
    match names.get(heap, key) {
        Some(node) => Some(node),
        None => find_beyond(heap, purse, names, vnodes, blocks, disk, dir, name),
    }
}

/// The same of a name that isn't cached.
#[cold]
fn find_beyond(
    heap: &mut KHeap,
    purse: &mut Purse,
    names: &mut NameCache,
    vnodes: &mut VnodeCache,
    blocks: &mut BlockCache,
    disk: &mut RamDisk,
    dir: u32,
    name: &[u8],
) -> Option<u32>
    requires lent { AllLent heap.old purse.old names.old vnodes.old blocks.old disk.old }
    requires stands { (tree : Tree)
        × StandsThrough (tree_parts heap.old purse.old names.old vnodes.old blocks.old disk.old) tree
        × (is_directory tree dir ≡ true) }
    requires name { (length name.now ≤ 27) × (name.now ≢ own_name) × (name.now ≢ parent_name) }
    requires absent { name_slot names.old (name_key dir name.now) ≡ None }
    ensures value { (tree : Tree)
        → StandsThrough (tree_parts heap.old purse.old names.old vnodes.old blocks.old disk.old) tree
        → result ≡ found tree dir name.now }
    ensures lent { AllLent heap.new purse.new names.new vnodes.new blocks.new disk.new }
    ensures stands { (tree : Tree)
        → StandsThrough (tree_parts heap.old purse.old names.old vnodes.old blocks.old disk.old) tree
        → StandsThrough (tree_parts heap.new purse.new names.new vnodes.new blocks.new disk.new) tree }
    ensures goes_on { TreeGoesOn (tree_parts heap.old purse.old names.old vnodes.old blocks.old disk.old)
        (tree_parts heap.new purse.new names.new vnodes.new blocks.new disk.new) }
    ensures kept { IfSome result (λ _. IsSome (name_slot names.new (name_key dir name.now))) }
{
    let inode = find_inode(heap, purse, vnodes, blocks, disk, dir);
    let Some(found) = name_through(heap, purse, blocks, disk, &inode, name) else {
        return None;
    };
    names.fill(heap, purse, NameKey::of_bytes(dir, name), found);
    Some(found)
}

/// The directory that `..` of a directory names.
pub fn find_parent(
    heap: &mut KHeap,
    purse: &mut Purse,
    vnodes: &mut VnodeCache,
    blocks: &mut BlockCache,
    disk: &mut RamDisk,
    dir: u32,
) -> u32
    requires lent { (names : Order KeyOf)
        × AllLent heap.old purse.old names vnodes.old blocks.old disk.old }
    requires stands { (names : Order KeyOf) × (tree : Tree)
        × StandsThrough (tree_parts heap.old purse.old names vnodes.old blocks.old disk.old) tree
        × (is_directory tree dir ≡ true) }
    ensures value { (names : Order KeyOf) (tree : Tree)
        → StandsThrough (tree_parts heap.old purse.old names vnodes.old blocks.old disk.old) tree
        → result ≡ parent_at tree dir }
    ensures lent { (names : Order KeyOf)
        → AllLent heap.old purse.old names vnodes.old blocks.old disk.old
        → AllLent heap.new purse.new names vnodes.new blocks.new disk.new }
    ensures stands { (names : Order KeyOf) (tree : Tree)
        → StandsThrough (tree_parts heap.old purse.old names vnodes.old blocks.old disk.old) tree
        → StandsThrough (tree_parts heap.new purse.new names vnodes.new blocks.new disk.new) tree }
    ensures goes_on { (names : Order KeyOf)
        → TreeGoesOn (tree_parts heap.old purse.old names vnodes.old blocks.old disk.old)
        (tree_parts heap.new purse.new names vnodes.new blocks.new disk.new) }
{
    let inode = find_inode(heap, purse, vnodes, blocks, disk, dir);
    parent_through(heap, purse, blocks, disk, &inode)
}
