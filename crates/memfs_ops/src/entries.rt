//! One entry of a directory changes, on a disk and in the tree that it stands for.
ghost use Rattle.std.specs.Prelude.{◌≡◌, ◌≢◌, ℕ, ◌<◌, ◌≤◌, true, length};
ghost use Rattle.posix_defs.specs.DiskContents.{own_name, parent_name, entry_for};
ghost use Rattle.posix_defs.specs.DiskFormat.{IsName};
ghost use Rattle.posix_defs.specs.DiskTree.{StandsFor, ChangesNode};
ghost use Rattle.posix_defs.specs.SoundDisk.{HasNode};
ghost use Rattle.posix_defs.specs.Tree.{Tree, is_directory as directory_in};
ghost use Rattle.posix_defs.specs.TreeChanges.{with_entries, entry_put, entry_taken, entry_renamed, hung};
ghost use Rattle.memfs_dir.specs.Listed.{IsFull};
ghost use Rattle.blk_map.specs.Named.{FreesNone, TakesLowest, TakesNone};
ghost use Rattle.memfs_ops.specs.Entries.{edited, HasEntry, MayEdit, TakesFor};

use kabi_types::{DirEntry, Inode, Name27};
use memfs_dir::{LookedBlocks, dir_add, dir_look, dir_remove, dir_rename};
use posix_defs::Blocks;

/// What becomes of one entry of a directory.
#[derive(Drop)]
pub(crate) enum EntryEdit {
    /// A new one stands last.
    Put { name: Name27, node: u32 },
    /// It goes, and the last one moves to its place.
    Take { name: Name27 },
    /// It gets a name and a node, in its place.
    Set { from: Name27, to: Name27, node: u32 },
    /// The entry `..` names another directory.
    Hang { parent: u32 },
}

/// Changes an entry of a directory.
pub(crate) fn edit_entry<B: LookedBlocks>(b: &mut B, dir: u32, inode: &mut Inode, edit: &EntryEdit)
    requires stands { (tree : Tree) × StandsFor (B.blocks b.old) tree × (directory_in tree dir ≡ true)
        × MayEdit edit.now (B.blocks b.old) tree dir inode.old }
    requires node { HasNode (B.blocks b.old) dir inode.old }
    ensures stands { (tree : Tree) → StandsFor (B.blocks b.old) tree
        → StandsFor (B.blocks b.new) (edited edit.now tree dir) }
    ensures node { HasNode (B.blocks b.new) dir inode.new }
    ensures changes { ChangesNode (B.blocks b.old) (B.blocks b.new) dir }
    ensures takes { TakesFor edit.now (B.blocks b.old) (B.blocks b.new) }
    ensures follows { B.follows b.old b.new }
{
    match edit {
        EntryEdit::Put { name, node } => put_last(b, dir, inode, name, *node),
        EntryEdit::Take { name } => take_out(b, dir, inode, name),
        EntryEdit::Set { from, to, node } => set_named(b, dir, inode, from, to, *node),
        EntryEdit::Hang { parent } => hang_below(b, dir, inode, *parent),
    }
}

// A new entry stands last.
fn put_last<B: Blocks>(b: &mut B, dir: u32, inode: &mut Inode, name: &Name27, node: u32)
    requires stands { (tree : Tree) × StandsFor (B.blocks b.old) tree × (directory_in tree dir ≡ true) }
    requires node { HasNode (B.blocks b.old) dir inode.old }
    requires name { IsName name.now }
    requires number { 0 < node }
    requires room { ¬ (IsFull (B.blocks b.old) inode.old) }
    ensures stands { (tree : Tree) → StandsFor (B.blocks b.old) tree
        → StandsFor (B.blocks b.new) (with_entries tree dir (entry_put name.now node)) }
    ensures node { HasNode (B.blocks b.new) dir inode.new }
    ensures changes { ChangesNode (B.blocks b.old) (B.blocks b.new) dir }
    ensures lowest { TakesLowest (B.blocks b.old) (B.blocks b.new) }
    ensures follows { B.follows b.old b.new }
{
    let entry = DirEntry {
        node,
        name: name.copy(),
    };
    dir_add(b, dir, inode, &entry).unwrap();
}

// An entry goes, and the last one moves to its place.
fn take_out<B: LookedBlocks>(b: &mut B, dir: u32, inode: &mut Inode, name: &Name27)
    requires stands { (tree : Tree) × StandsFor (B.blocks b.old) tree × (directory_in tree dir ≡ true)
        × HasEntry tree dir name.now }
    requires node { HasNode (B.blocks b.old) dir inode.old }
    ensures stands { (tree : Tree) → StandsFor (B.blocks b.old) tree
        → StandsFor (B.blocks b.new) (with_entries tree dir (entry_taken name.now)) }
    ensures node { HasNode (B.blocks b.new) dir inode.new }
    ensures changes { ChangesNode (B.blocks b.old) (B.blocks b.new) dir }
    ensures takes_none { TakesNone (B.blocks b.old) (B.blocks b.new) }
    ensures follows { B.follows b.old b.new }
{
    let Some(found) = dir_look(b, inode, name.items()) else {
        unreachable!()
    };
    let _node = dir_remove(b, dir, inode, found.place);
}

// An entry gets a name and a node, in its place.
fn set_named<B: LookedBlocks>(
    b: &mut B,
    dir: u32,
    inode: &Inode,
    from: &Name27,
    to: &Name27,
    node: u32,
)
    requires stands { (tree : Tree) × StandsFor (B.blocks b.old) tree × (directory_in tree dir ≡ true)
        × HasEntry tree dir from.now }
    requires node { HasNode (B.blocks b.old) dir inode.now }
    requires name { IsName to.now }
    requires number { 0 < node }
    ensures stands { (tree : Tree) → StandsFor (B.blocks b.old) tree
        → StandsFor (B.blocks b.new) (with_entries tree dir (entry_renamed from.now to.now node)) }
    ensures node { HasNode (B.blocks b.new) dir inode.now }
    ensures changes { ChangesNode (B.blocks b.old) (B.blocks b.new) dir }
    ensures takes_none { TakesNone (B.blocks b.old) (B.blocks b.new) }
    ensures frees_none { FreesNone (B.blocks b.old) (B.blocks b.new) }
    ensures follows { B.follows b.old b.new }
{
    let Some(found) = dir_look(b, inode, from.items()) else {
        unreachable!()
    };
    let entry = DirEntry {
        node,
        name: to.copy(),
    };
    dir_rename(b, inode, found.place, &entry);
}

// The entry `..` names another directory.
fn hang_below<B: Blocks>(b: &mut B, dir: u32, inode: &Inode, parent: u32)
    requires stands { (tree : Tree) × StandsFor (B.blocks b.old) tree × (directory_in tree dir ≡ true) }
    requires node { HasNode (B.blocks b.old) dir inode.now }
    requires number { 0 < parent }
    ensures stands { (tree : Tree) → StandsFor (B.blocks b.old) tree
        → StandsFor (B.blocks b.new) (hung tree dir parent) }
    ensures node { HasNode (B.blocks b.new) dir inode.now }
    ensures changes { ChangesNode (B.blocks b.old) (B.blocks b.new) dir }
    ensures takes_none { TakesNone (B.blocks b.old) (B.blocks b.new) }
    ensures frees_none { FreesNone (B.blocks b.old) (B.blocks b.new) }
    ensures follows { B.follows b.old b.new }
{
    dir_rename(b, inode, 1, &parent_entry(parent));
}

/// The entry `..` of a directory below this one.
fn parent_entry(parent: u32) -> DirEntry
    ensures is { result ≡ entry_for parent parent_name }
    ensures name { IsName parent_name }
{
    let Some(name) = Name27::of(b"..") else {
        unreachable!()
    };
    DirEntry { node: parent, name }
}
