//! Laws of disks that stand for a tree. Each is the contract of a function that does nothing.

ghost use Rattle.std.specs.Prelude.{◌≡◌, ◌≢◌, ℕ, ◌<◌, ◌≤◌, ◌↔◌, List, Option, Some, None};
ghost use Rattle.kabi_types.specs.declared.inodes.Inode.{Inode};
ghost use Rattle.posix_defs.specs.DiskFormat.{table_nodes};
ghost use Rattle.posix_defs.specs.SoundDisk.{HasNode, IsFreeNode, IsLowestFreeNode, free_in_map};
ghost use Rattle.posix_defs.specs.DiskContents.{IsFormatted, own_name, parent_name};
ghost use Rattle.disk_laws.specs.NodesInUse.{HasNodeIn, IsNodeIn};
ghost use Rattle.disk_laws.specs.TrueCaches.{HasName};
ghost use Rattle.posix_defs.specs.Tree.{Node, Tree, found, free_blocks, free_node, new_tree, node_at, with_node};
ghost use Rattle.posix_defs.specs.DiskTree.{HasThere, StandsFor, ChangesNode};

/// A new disk stands for the new tree.
pub fn a_new_disk_stands_for_the_new_tree()
    ensures { (blocks : ℕ) (disk : List (List ℕ)) → 16 ≤ blocks → blocks ≤ 4096 → IsFormatted blocks disk → StandsFor disk (new_tree blocks) }
{}

/// A disk that changed at one node alone stands for the tree that did.
pub fn a_change_of_one_node_stands_for_the_changed_tree()
    ensures { (old new : List (List ℕ)) (tree : Tree) (number : ℕ) (there : Option Node) → StandsFor old tree → ChangesNode old new number
        → 0 < number → number ≤ table_nodes tree.blocks → HasThere new number there → StandsFor new (with_node tree number there) }
{}

/// The map of a disk has as many blocks as free as the tree leaves.
pub fn free_blocks_of_the_disk_are_those_of_the_tree()
    ensures { (disk : List (List ℕ)) (tree : Tree) → StandsFor disk tree → free_in_map disk ≡ free_blocks tree }
{}

/// What is found under a name of the tree is what a look on its disk finds; `.` and `..` have entries on the disk alone.
pub fn names_of_the_disk_are_those_of_the_tree()
    ensures { (disk : List (List ℕ)) (tree : Tree) (dir : ℕ) (name : List ℕ) (node : ℕ) → StandsFor disk tree → name ≢ own_name → name ≢ parent_name
        → (found tree dir name ≡ Some node) ↔ HasName disk dir name node }
{}

/// The node that the tree makes next is the free one of the disk with the lowest number, and the other way round; it makes
/// none exactly where none is free.
pub fn free_nodes_of_the_disk_are_those_of_the_tree()
    ensures lowest { (disk : List (List ℕ)) (tree : Tree) (number : ℕ) → StandsFor disk tree → free_node tree ≡ Some number → IsLowestFreeNode disk number }
    ensures none { (disk : List (List ℕ)) (tree : Tree) (number : ℕ) → StandsFor disk tree → free_node tree ≡ None → ¬ (IsFreeNode disk number) }
    ensures next { (disk : List (List ℕ)) (tree : Tree) (number : ℕ) → StandsFor disk tree → IsLowestFreeNode disk number → free_node tree ≡ Some number }
    ensures full { (disk : List (List ℕ)) (tree : Tree) → StandsFor disk tree → ((number : ℕ) → ¬ (IsFreeNode disk number)) → free_node tree ≡ None }
    ensures free { (disk : List (List ℕ)) (tree : Tree) (number : ℕ) → StandsFor disk tree → IsFreeNode disk number → node_at tree number ≡ None }
    ensures there { (disk : List (List ℕ)) (tree : Tree) (number : ℕ) → StandsFor disk tree → 0 < number → number ≤ table_nodes tree.blocks → node_at tree number ≡ None
        → IsFreeNode disk number }
{}

/// A node in use has an inode on the disk, which says of it what the tree says; and an inode in use is that of the tree's
/// node.
pub fn nodes_of_the_disk_are_those_of_the_tree()
    ensures inode { (disk : List (List ℕ)) (tree : Tree) (number : ℕ) (node : Node) → StandsFor disk tree → node_at tree number ≡ Some node → HasNodeIn disk number node }
    ensures node { (disk : List (List ℕ)) (tree : Tree) (number : ℕ) (inode : Inode) → StandsFor disk tree → HasNode disk number inode
        → IsNodeIn disk number inode (node_at tree number) }
{}

/// A disk stands for one tree at most.
pub fn a_disk_stands_for_one_tree()
    ensures { (disk : List (List ℕ)) (one other : Tree) → StandsFor disk one → StandsFor disk other → one ≡ other }
{}
