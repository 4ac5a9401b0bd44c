ghost use Rattle.std.specs.Prelude.{◌≡◌, true};
ghost use Rattle.posix_defs.specs.Tree.{Tree, IsInodeAt, found, is_directory, is_in_use, parent_at};
ghost use Rattle.posix_defs.specs.IsTree.{IsTree};
ghost use Rattle.posix_defs.specs.Queries.{Query, AskName, AskNode, AskParent};

use kabi_types::Inode;

/// The nodes of a tree of directories, wherever they lie. Numbers count from 1, which is the root's. No call changes the
/// tree.
///
/// An implementation may be made of lent parts, as a cache and the disk below it. `follows` says that one value goes on
/// from another and holds the same loans, so that a caller knows after a call what it lent. `asked` says what one call led
/// to, so that a caller learns what many of them, one after another, left.
pub trait Dirs {
    /// The nodes are those of this tree.
    ghost stands: { Self → Tree → Type 0 };

    /// The second value goes on from the first.
    ghost follows: { Self → Self → Type 0 };

    /// One question led from the first value to the second.
    ghost asked: { Self → Query → Self → Type 0 };

    /// The inode of a node in use.
    fn node(&mut self, number: u32) -> Inode
        requires { (tree : Tree) × stands self.old tree × (is_in_use tree number ≡ true) }
        ensures value { (tree : Tree) → stands self.old tree → IsInodeAt tree number result }
        ensures stands { (tree : Tree) → stands self.old tree → stands self.new tree }
        ensures follows { follows self.old self.new }
        ensures asked { asked self.old (AskNode number) self.new };

    /// The node under a name of a directory, which is in use; None exactly where the name isn't there.
    fn look(&mut self, dir: u32, name: &[u8]) -> Option<u32>
        requires { (tree : Tree) × stands self.old tree × (is_directory tree dir ≡ true) }
        ensures value { (tree : Tree) → stands self.old tree → result ≡ found tree dir name.now }
        ensures stands { (tree : Tree) → stands self.old tree → stands self.new tree }
        ensures follows { follows self.old self.new }
        ensures asked { asked self.old (AskName dir name.now) self.new };

    /// The directory that `..` of a directory names; the root's is the root.
    fn parent(&mut self, dir: u32) -> u32
        requires { (tree : Tree) × stands self.old tree × (is_directory tree dir ≡ true) }
        ensures value { (tree : Tree) → stands self.old tree → result ≡ parent_at tree dir }
        ensures stands { (tree : Tree) → stands self.old tree → stands self.new tree }
        ensures follows { follows self.old self.new }
        ensures asked { asked self.old (AskParent dir) self.new };

    /// What it stands for is a tree: its root is a directory, what an entry names is in use, and a directory's parent is
    /// a directory.
    ghost stands_tree: { (a : Self) (tree : Tree) → stands a tree → IsTree tree };

    ghost follows_refl: { (a : Self) → follows a a };

    ghost follows_trans: { (a b c : Self) → follows a b → follows b c → follows a c };
}
