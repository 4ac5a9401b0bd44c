//! The links of a node, which count the entries that name it.

ghost use Rattle.std.specs.Prelude.{◌≡◌, ◌+◌, ◌-◌, ◌<◌, ◌≤◌, ◌&&◌, ◌==◌, not};
ghost use Rattle.posix_defs.specs.SoundDisk.{HasNode, Sound};
ghost use Rattle.posix_defs.specs.TreeChanges.{most_links};
ghost use Rattle.blk_map.specs.Named.{TakesNone};
ghost use Rattle.memfs_node.specs.NodeOnDisk.{DropsLink, Retags};

use crate::freeing::free_node;
use crate::retagging::retag;
use kabi_types::Inode;
use posix_defs::Blocks;

/// Gives a node in use so many links, at most 127.
pub fn set_links<B: Blocks>(b: &mut B, number: u32, inode: &mut Inode, links: u16)
    requires sound { Sound (B.blocks b.old) }
    requires node { HasNode (B.blocks b.old) number inode.old }
    requires most { links ≤ most_links }
    ensures links { Retags number (B.blocks b.old) inode.old inode.old.kind links (B.blocks b.new) inode.new }
    ensures follows { B.follows b.old b.new }
{
    let kind = inode.kind;
    retag(b, number, inode, kind, links);
}

/// Counts one link more of a node in use that has fewer than 127.
pub fn add_link<B: Blocks>(b: &mut B, number: u32, inode: &mut Inode)
    requires sound { Sound (B.blocks b.old) }
    requires node { HasNode (B.blocks b.old) number inode.old }
    requires most { inode.old.nlink < most_links }
    ensures links { Retags number (B.blocks b.old) inode.old inode.old.kind (inode.old.nlink + 1) (B.blocks b.new) inode.new }
    ensures follows { B.follows b.old b.new }
{
    let links = inode.nlink + 1;
    set_links(b, number, inode, links);
}

/// Counts one link less of a node that has some. With its last link it is freed, unless it is `opened`; the answer is
/// whether it was freed. No block is taken.
pub fn drop_link<B: Blocks>(b: &mut B, number: u32, inode: &mut Inode, opened: bool) -> bool
    requires sound { Sound (B.blocks b.old) }
    requires node { HasNode (B.blocks b.old) number inode.old }
    requires some { 0 < inode.old.nlink }
    ensures freed { result ≡ (inode.old.nlink == 1 && not opened) }
    ensures drops { DropsLink result number (B.blocks b.old) inode.old (B.blocks b.new) inode.new }
    ensures takes_none { TakesNone (B.blocks b.old) (B.blocks b.new) }
    ensures follows { B.follows b.old b.new }
{
    if inode.nlink == 1 && !opened {
        free_node(b, number, inode);
        return true;
    }
    let links = inode.nlink - 1;
    set_links(b, number, inode, links);
    false
}
