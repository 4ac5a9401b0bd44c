//! What the calls come to, for who reads the file and for the tree of files. Each law is the contract of a function that
//! does nothing.

ghost use Rattle.std.specs.Prelude.{◌≡◌, ℕ, ◌+◌, ◌<◌, ◌≤◌, ◌⊎◌, List, Some, Ok, Err, length, slice_index, take, drop};
ghost use Rattle.kabi_types.specs.declared.errnos.Errno.TheVariants.{EFBIG, ENOSPC};
ghost use Rattle.kabi_types.specs.declared.inodes.Inode.{Inode};
ghost use Rattle.posix_defs.specs.DiskFormat.{greatest_size, blocks_of};
ghost use Rattle.posix_defs.specs.FileBytes.{fitting, overwritten, resized};
ghost use Rattle.posix_defs.specs.SoundDisk.{HasInode};
ghost use Rattle.posix_defs.specs.DiskContents.{node_bytes};
ghost use Rattle.posix_defs.specs.DiskTree.{StandsFor};
ghost use Rattle.posix_defs.specs.Tree.{File, Tree, node_at};
ghost use Rattle.posix_defs.specs.TreeChanges.{resize, write};
ghost use Rattle.memfs_file.specs.FileChange.{blocks_for, Rewrites};

/// What was written is read back, every other byte is as it was, and a gap reads as zeros.
pub fn what_was_written_is_read_back()
    ensures back { (disk after : List (List ℕ)) (number at : ℕ) (bytes : List ℕ) (old new : Inode) → Rewrites number disk old (overwritten at bytes (node_bytes disk old)) after new
        → take (length bytes) (drop at (node_bytes after new)) ≡ bytes }
    ensures others { (disk after : List (List ℕ)) (number at place : ℕ) (bytes : List ℕ) (old new : Inode) → Rewrites number disk old (overwritten at bytes (node_bytes disk old)) after new
        → (place < at) ⊎ (at + length bytes ≤ place) → slice_index (node_bytes after new) place ≡ slice_index (node_bytes disk old) place }
    ensures gap { (disk after : List (List ℕ)) (number at place : ℕ) (bytes : List ℕ) (old new : Inode) → Rewrites number disk old (overwritten at bytes (node_bytes disk old)) after new
        → old.size ≤ place → place < at → slice_index (node_bytes after new) place ≡ 0 }
{}

/// A file that gets another size keeps the bytes within it, and has zeros behind them: what was cut off doesn't come back.
pub fn another_size_keeps_the_bytes_within_it()
    ensures kept { (disk after : List (List ℕ)) (number size place : ℕ) (old new : Inode) → Rewrites number disk old (resized size (node_bytes disk old)) after new
        → place < size → slice_index (node_bytes after new) place ≡ slice_index (node_bytes disk old) place }
    ensures zeros { (disk after : List (List ℕ)) (number size place : ℕ) (old new : Inode) → Rewrites number disk old (resized size (node_bytes disk old)) after new
        → old.size ≤ place → place < size → slice_index (node_bytes after new) place ≡ 0 }
{}

/// A write is as long as there is room: its bytes fit, and more of those that are wanted would take more blocks than the
/// file has and could have.
pub fn a_short_write_has_all_the_room()
    ensures fits { (disk : List (List ℕ)) (inode : Inode) (at wanted count : ℕ) → count ≡ fitting (blocks_for disk inode) at wanted → 0 < count
        → (count ≤ wanted) × (at + count ≤ greatest_size) × (blocks_of (at + count) ≤ blocks_for disk inode) }
    ensures full { (disk : List (List ℕ)) (inode : Inode) (at wanted count more : ℕ) → count ≡ fitting (blocks_for disk inode) at wanted
        → count < more → more ≤ wanted → at + more ≤ greatest_size → blocks_for disk inode < blocks_of (at + more) }
{}

/// The bytes of a file on a disk are those that it has in the tree.
pub fn bytes_of_the_disk_are_those_of_the_tree()
    ensures { (disk : List (List ℕ)) (tree : Tree) (number links : ℕ) (bytes : List ℕ) (inode : Inode) → StandsFor disk tree
        → node_at tree number ≡ Some (record { links = links; content = File bytes }) → HasInode disk number inode → node_bytes disk inode ≡ bytes }
{}

/// Where a file is written as far as there is room, the disk stands for the tree in which it is written, and as many bytes
/// are answered there. Where the disk has no room for it or the place is behind the greatest size, the tree answers so.
pub fn a_write_is_that_of_the_tree()
    ensures written { (disk after : List (List ℕ)) (tree : Tree) (number links at count : ℕ) (was bytes : List ℕ) (old new : Inode) → StandsFor disk tree
        → node_at tree number ≡ Some (record { links = links; content = File was }) → HasInode disk number old
        → at < greatest_size → count ≡ fitting (blocks_for disk old) at (length bytes) → 0 < count
        → Rewrites number disk old (overwritten at (take count bytes) (node_bytes disk old)) after new
        → (written : Tree) × (write tree number at bytes ≡ Ok (count, written)) × StandsFor after written }
    ensures full { (disk : List (List ℕ)) (tree : Tree) (number links at : ℕ) (was bytes : List ℕ) (old : Inode) → StandsFor disk tree
        → node_at tree number ≡ Some (record { links = links; content = File was }) → HasInode disk number old
        → at < greatest_size → fitting (blocks_for disk old) at (length bytes) ≡ 0 → write tree number at bytes ≡ Err ENOSPC }
    ensures big { (tree : Tree) (number at : ℕ) (bytes : List ℕ) → greatest_size ≤ at → write tree number at bytes ≡ Err EFBIG }
{}

/// Where a file gets another size, the disk stands for the tree in which it has that size. Where the disk has no room for
/// it or it is above the greatest size, the tree answers so.
pub fn another_size_is_that_of_the_tree()
    ensures sized { (disk after : List (List ℕ)) (tree : Tree) (number links size : ℕ) (was : List ℕ) (old new : Inode) → StandsFor disk tree
        → node_at tree number ≡ Some (record { links = links; content = File was }) → HasInode disk number old
        → size ≤ greatest_size → blocks_of size ≤ blocks_for disk old → Rewrites number disk old (resized size (node_bytes disk old)) after new
        → (sized : Tree) × (resize tree number size ≡ Ok sized) × StandsFor after sized }
    ensures full { (disk : List (List ℕ)) (tree : Tree) (number links size : ℕ) (was : List ℕ) (old : Inode) → StandsFor disk tree
        → node_at tree number ≡ Some (record { links = links; content = File was }) → HasInode disk number old
        → size ≤ greatest_size → blocks_for disk old < blocks_of size → resize tree number size ≡ Err ENOSPC }
    ensures big { (tree : Tree) (number size : ℕ) → greatest_size < size → resize tree number size ≡ Err EFBIG }
{}
