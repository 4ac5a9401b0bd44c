//! What growing and shrinking come to, one after the other.

ghost use Rattle.std.specs.Prelude.{◌≡◌, ℕ, ◌≤◌, List};
ghost use Rattle.kabi_types.specs.declared.inodes.Inode.{Inode};
ghost use Rattle.posix_defs.specs.SoundDisk.{free_in_map};
ghost use Rattle.posix_defs.specs.DiskContents.{node_bytes};
ghost use Rattle.posix_defs.specs.DiskTree.{ChangesNode};
ghost use Rattle.posix_defs.specs.NodeChange.{Grows, Resizes};

/// A node that grows and then shrinks to the size that it had has the bytes that it had, every other node is as it was,
/// and as many blocks are free as before.
pub fn growing_and_shrinking_back_changes_nothing()
    ensures bytes { (number size : ℕ) (first second third : List (List ℕ)) (old grown new : Inode) → old.size ≤ size → Grows number first old size second grown
        → Resizes number second grown old.size third new → node_bytes third new ≡ node_bytes first old }
    ensures others { (number size : ℕ) (first second third : List (List ℕ)) (old grown new : Inode) → Grows number first old size second grown
        → Resizes number second grown old.size third new → ChangesNode first third number }
    ensures free { (number size : ℕ) (first second third : List (List ℕ)) (old grown new : Inode) → Grows number first old size second grown
        → Resizes number second grown old.size third new → free_in_map third ≡ free_in_map first }
{}
