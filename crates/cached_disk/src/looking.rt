//! What the blocks of a directory, whose inode is in hand, say of a name and of its parent.
ghost use Rattle.std.specs.Prelude.{◌≡◌, ◌≢◌, ℕ, true};
ghost use Rattle.posix_defs.specs.SoundDisk.{HasNode};
ghost use Rattle.posix_defs.specs.DiskContents.{own_name, parent_name};
ghost use Rattle.posix_defs.specs.DiskTree.{StandsFor};
ghost use Rattle.posix_defs.specs.Tree.{Tree, found, is_directory, parent_at};

use kabi_types::Inode;
use memfs_dir::{LookedBlocks, dir_look, dir_node};
use posix_defs::Blocks;

/// The node under a name of a directory, other than `.` and `..`; None exactly where the name isn't there.
pub fn node_named<B: LookedBlocks>(b: &mut B, dir: &Inode, name: &[u8]) -> Option<u32>
    requires stands { (tree : Tree) × (number : ℕ) × StandsFor (B.blocks b.old) tree
        × (is_directory tree number ≡ true) × HasNode (B.blocks b.old) number dir.now }
    requires name { (name.now ≢ own_name) × (name.now ≢ parent_name) }
    ensures value { (tree : Tree) (number : ℕ) → StandsFor (B.blocks b.old) tree
        → is_directory tree number ≡ true → HasNode (B.blocks b.old) number dir.now
        → result ≡ found tree number name.now }
    ensures kept { B.blocks b.new ≡ B.blocks b.old }
    ensures follows { B.follows b.old b.new }
{
    match dir_look(b, dir, name) {
        Some(entry) => Some(entry.node),
        None => None,
    }
}

/// The directory that `..` of a directory names.
pub fn parent_of<B: Blocks>(b: &mut B, dir: &Inode) -> u32
    requires { (tree : Tree) × (number : ℕ) × StandsFor (B.blocks b.old) tree
        × (is_directory tree number ≡ true) × HasNode (B.blocks b.old) number dir.now }
    ensures value { (tree : Tree) (number : ℕ) → StandsFor (B.blocks b.old) tree
        → is_directory tree number ≡ true → HasNode (B.blocks b.old) number dir.now
        → result ≡ parent_at tree number }
    ensures kept { B.blocks b.new ≡ B.blocks b.old }
    ensures follows { B.follows b.old b.new }
{
    dir_node(b, dir, 1)
}
