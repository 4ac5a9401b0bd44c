//! What the format says of disks that were written before an inode had a pointer to a double block.

ghost use Rattle.std.specs.Prelude.{◌≡◌, ℕ};
ghost use Rattle.posix_defs.specs.DiskFormat.{IsInode, inode_bytes};
ghost use Rattle.disk_layout.specs.OldInode.{OldInode, IsOldInode, old_inode_bytes, renewed};

/// What was an inode by the old rule is one, in the same bytes, with the same kind, links, size and pointers, and without a
/// pointer to a double block. So `inode_of` answers it where these bytes stand.
///
/// It is said of what the old rule accepts. Of what it refuses, one thing reads otherwise: a byte among 52 to 55 that isn't
/// 0 belonged to a bad kind, and belongs to a pointer now, and a size above the old greatest one was a bad kind.
pub fn an_old_inode_is_one_without_a_double_block()
    ensures { (blocks : ℕ) (old : OldInode) → IsOldInode blocks old → IsInode blocks (renewed old) × (inode_bytes (renewed old) ≡ old_inode_bytes old) }
{}
