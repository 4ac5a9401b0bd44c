//! What the calls come to for the tree of files. Each law is the contract of a function that does nothing.

ghost use Rattle.std.specs.Prelude.{◌≡◌, ◌≢◌, ℕ, ◌+◌, ◌==◌, ◌&&◌, List, Bool, Some, None, not};
ghost use Rattle.kabi_types.specs.declared.inodes.Inode.{Inode};
ghost use Rattle.posix_defs.specs.SoundDisk.{HasNode};
ghost use Rattle.posix_defs.specs.DiskTree.{StandsFor};
ghost use Rattle.posix_defs.specs.Tree.{Content, Tree, with_node};
ghost use Rattle.posix_defs.specs.TreeChanges.{closed, link_added, link_dropped};
ghost use Rattle.memfs_node.specs.NodeOnDisk.{DropsLink, Frees, Makes, Retags, new_node};

/// Where a node was made, the disk stands for the tree that has it under that number; where one was freed, for the tree
/// that has none there.
pub fn a_made_node_is_that_of_the_tree()
    ensures made { (before after : List (List ℕ)) (tree : Tree) (number : ℕ) (content : Content) (inode : Inode) → StandsFor before tree
        → Makes number before content after inode → StandsFor after (with_node tree number (Some (new_node content))) }
    ensures freed { (before after : List (List ℕ)) (tree : Tree) (number : ℕ) (old : Inode) → StandsFor before tree
        → Frees number before old after → StandsFor after (with_node tree number None) }
{}

/// Where a node in use has one link more or less, or is gone with its last one, the disk stands for the tree in which that
/// is so. A node whose last description is closed is gone exactly where it has no link.
pub fn links_are_those_of_the_tree()
    ensures added { (before after : List (List ℕ)) (tree : Tree) (number : ℕ) (old new : Inode) → StandsFor before tree → HasNode before number old
        → Retags number before old old.kind (old.nlink + 1) after new → StandsFor after (link_added tree number) }
    ensures dropped { (before after : List (List ℕ)) (tree : Tree) (number : ℕ) (old new : Inode) (opened freed : Bool) → StandsFor before tree → HasNode before number old
        → freed ≡ (old.nlink == 1 && not opened) → DropsLink freed number before old after new → StandsFor after (link_dropped tree number opened) }
    ensures closed { (before after : List (List ℕ)) (tree : Tree) (number : ℕ) (old : Inode) → StandsFor before tree → HasNode before number old
        → old.nlink ≡ 0 → Frees number before old after → StandsFor after (closed tree number) }
    ensures linked { (disk : List (List ℕ)) (tree : Tree) (number : ℕ) (old : Inode) → StandsFor disk tree → HasNode disk number old
        → old.nlink ≢ 0 → closed tree number ≡ tree }
{}
