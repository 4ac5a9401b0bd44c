//! Laws of a disk's format. Each is the contract of a function that does nothing.

ghost use Rattle.std.specs.Prelude.{◌≡◌, ℕ, ◌+◌, ◌*◌, ◌<◌, ◌≤◌, ◌↔◌, List, [], length, slice_set};
ghost use Rattle.kabi_types.specs.declared.inodes.DirEntry.{DirEntry};
ghost use Rattle.kabi_types.specs.declared.inodes.Inode.{Inode};
ghost use Rattle.posix_defs.specs.DiskFormat.{IsForFiles, IsEntry, blocks_of, data_blocks, entry_bytes};
ghost use Rattle.posix_defs.specs.SoundDisk.{HasInode, IsNamed, Sound, IsTable, IsFreeBlock, IsFreeNode, free_in_map, free_blocks, free_inodes};
ghost use Rattle.disk_laws.specs.TrueCaches.{HasName};
ghost use Rattle.posix_defs.specs.NodeChange.{Replaces, WritesBlock};
ghost use Rattle.posix_defs.specs.DiskTree.{ChangesNode};
ghost use Rattle.posix_defs.specs.DiskContents.{HasEntries, IsDirectoryOf, IsFormatted, data_block};

/// A new disk is sound, and its root is a directory without entries but `.` and `..`, which both name the root.
pub fn a_formatted_disk_is_sound()
    ensures sound { (blocks : ℕ) (disk : List (List ℕ)) → 16 ≤ blocks → blocks ≤ 4096 → IsFormatted blocks disk → Sound disk }
    ensures root { (blocks : ℕ) (disk : List (List ℕ)) → 16 ≤ blocks → blocks ≤ 4096 → IsFormatted blocks disk → IsDirectoryOf disk 1 1 [] }
{}

/// A node has one inode, an entry is spelled in one way, and a directory has one list of entries.
pub fn bytes_of_a_disk_say_one_thing()
    ensures inodes { (disk : List (List ℕ)) (node : ℕ) (one other : Inode) → HasInode disk node one → HasInode disk node other → one ≡ other }
    ensures entries { (one other : DirEntry) → IsEntry one → IsEntry other → entry_bytes one ≡ entry_bytes other → one ≡ other }
    ensures lists { (disk : List (List ℕ)) (inode : Inode) (one other : List DirEntry) → HasEntries disk inode one → HasEntries disk inode other → one ≡ other }
{}

/// A directory's size is 32 times its entries, `.` and `..` among them.
pub fn a_directory_has_32_bytes_for_each_entry()
    ensures { (disk : List (List ℕ)) (inode : Inode) (entries : List DirEntry) → HasEntries disk inode entries → inode.size ≡ 32 * length entries }
{}

/// A name of a directory leads to one node, so what a cache of names has is what a look finds.
pub fn a_name_leads_to_one_node()
    ensures { (disk : List (List ℕ)) (dir : ℕ) (name : List ℕ) (one other : ℕ) → HasName disk dir name one → HasName disk dir name other → one ≡ other }
{}

/// The inodes of a sound disk are a list, which has one for each node.
pub fn a_sound_disk_has_a_table()
    ensures { (disk : List (List ℕ)) → Sound disk → (inodes : List Inode) × IsTable disk inodes }
{}

/// What a node names is a block for files. Such a block is free exactly where no node names it, and the free blocks are
/// as many as are left when each node has taken those of its size.
pub fn free_blocks_are_those_that_no_node_names()
    ensures named { (disk : List (List ℕ)) (number : ℕ) → Sound disk → IsNamed disk number → IsForFiles (length disk) number }
    ensures each { (disk : List (List ℕ)) (number : ℕ) → Sound disk → IsForFiles (length disk) number → IsFreeBlock disk number ↔ ¬ (IsNamed disk number) }
    ensures only { (disk : List (List ℕ)) (number : ℕ) → Sound disk → IsFreeBlock disk number → IsForFiles (length disk) number }
    ensures many { (disk : List (List ℕ)) (inodes : List Inode) → Sound disk → IsTable disk inodes → free_in_map disk ≡ free_blocks (length disk) inodes }
{}

/// A block is free exactly where the count of free blocks isn't 0, and the same of a node.
pub fn what_is_free_is_counted()
    ensures blocks { (disk : List (List ℕ)) → (0 < free_in_map disk) ↔ ((number : ℕ) × IsFreeBlock disk number) }
    ensures nodes { (disk : List (List ℕ)) (inodes : List Inode) → IsTable disk inodes → (0 < free_inodes inodes) ↔ ((node : ℕ) × IsFreeNode disk node) }
{}

/// Where one node was replaced, by the facts that say so, the disk is sound, the node has its new inode, every other node
/// has the inode and the bytes that it had, and so many blocks are free as the two sizes leave.
pub fn one_node_is_replaced()
    ensures has { (number : ℕ) (before : List (List ℕ)) (old : Inode) (after : List (List ℕ)) (new : Inode) → Replaces number before old after new → HasInode after number new }
    ensures changes { (number : ℕ) (before : List (List ℕ)) (old : Inode) (after : List (List ℕ)) (new : Inode) → Sound before → Replaces number before old after new → ChangesNode before after number }
    ensures free { (number : ℕ) (before : List (List ℕ)) (old : Inode) (after : List (List ℕ)) (new : Inode) → Sound before → Replaces number before old after new
        → free_in_map after + blocks_of new.size ≡ free_in_map before + blocks_of old.size }
{}

/// Where a block of a node's bytes is written, nothing else of the disk changes: not the node's inode nor the blocks that
/// it names, no other block of its bytes, no other node, and not how many blocks are free.
pub fn a_block_of_a_node_is_written()
    ensures { (disk : List (List ℕ)) (number : ℕ) (inode : Inode) (index : ℕ) (bytes : List ℕ) → Sound disk → HasInode disk number inode → index < data_blocks inode.size
        → WritesBlock number disk inode index bytes (slice_set disk (data_block disk inode index) bytes) }
{}
