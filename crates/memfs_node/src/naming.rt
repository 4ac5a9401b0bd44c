//! A new node under a new name of a directory.

ghost use Rattle.std.specs.Prelude.{◌≡◌, ◌≤◌, true, length};
ghost use Rattle.posix_defs.specs.DiskFormat.{IsName, table_end};
ghost use Rattle.posix_defs.specs.SoundDisk.{HasNode, Sound};
ghost use Rattle.posix_defs.specs.DiskTree.{StandsFor};
ghost use Rattle.posix_defs.specs.Tree.{Tree, is_directory};
ghost use Rattle.posix_defs.specs.TreeChanges.{make};
ghost use Rattle.disk_layout.specs.Vacant.{NoneFreeIn};
ghost use Rattle.blk_map.specs.Named.{TakesLowest};
ghost use Rattle.memfs_dir.specs.Listed.{IsDirectory};
ghost use Rattle.memfs_node.specs.NodeOnDisk.{AnswersAs, HasParent, KeepsOthers, content_of};

use crate::inodes::lowest_node;
use crate::making::{NewNode, make_node};
use crate::room::has_room_for_entry;
use kabi_types::{DirEntry, Errno, Inode, Name27};
use memfs_dir::dir_add;
use posix_defs::Blocks;

/// Makes a node under a name that a directory has not, as the free node of the lowest number, and answers that number.
///
/// ENOSPC exactly where no node is free, the directory has the greatest size, or fewer blocks are free than the node and
/// the growth of the directory take; nothing is written then. The blocks that it takes are the lowest of those that are free.
///
/// The table isn't looked at where its first blocks are known to have no free node.
pub fn make_named<B: Blocks>(
    b: &mut B,
    parent: u32,
    dir: &mut Inode,
    name: Name27,
    new: NewNode,
    full: u32,
) -> Result<u32, Errno>
    requires sound { Sound (B.blocks b.old) }
    requires node { HasNode (B.blocks b.old) parent dir.old }
    requires entries { IsDirectory (B.blocks b.old) dir.old }
    requires name { IsName name }
    requires parent { HasParent new }
    requires within { full ≤ table_end (length (B.blocks b.old)) }
    requires full { NoneFreeIn (B.blocks b.old) full }
    ensures answer { (tree : Tree) → StandsFor (B.blocks b.old) tree → is_directory tree parent ≡ true
        → AnswersAs (B.blocks b.old) (B.blocks b.new) (make tree parent name (content_of new)) result }
    ensures node { HasNode (B.blocks b.new) parent dir.new }
    ensures others { KeepsOthers parent (B.blocks b.old) (B.blocks b.new) }
    ensures lowest { TakesLowest (B.blocks b.old) (B.blocks b.new) }
    ensures follows { B.follows b.old b.new }
{
    if !has_room_for_entry(b, dir, new.blocks()) {
        return Err(Errno::ENOSPC);
    }
    let Some(number) = lowest_node(b, full) else {
        return Err(Errno::ENOSPC);
    };
    make_node(b, number, new);
    dir_add(b, parent, dir, &DirEntry { node: number, name }).unwrap();
    Ok(number)
}
