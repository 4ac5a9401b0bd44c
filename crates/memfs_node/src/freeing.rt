ghost use Rattle.posix_defs.specs.SoundDisk.{HasNode, Sound};
ghost use Rattle.blk_map.specs.Named.{TakesNone};
ghost use Rattle.memfs_node.specs.NodeOnDisk.{Empties, Frees};

use crate::retagging::retag;
use blk_map::shrink;
use kabi_types::Inode;
use posix_defs::Blocks;

/// Frees a node: its blocks, where it has some, and its slot of the table. It takes none.
pub fn free_node<B: Blocks>(b: &mut B, number: u32, inode: &Inode)
    requires sound { Sound (B.blocks b.old) }
    requires node { HasNode (B.blocks b.old) number inode.now }
    ensures frees { Frees number (B.blocks b.old) inode.now (B.blocks b.new) }
    ensures takes_none { TakesNone (B.blocks b.old) (B.blocks b.new) }
    ensures follows { B.follows b.old b.new }
{
    let mut left = *inode;
    empty(b, number, &mut left);
    retag(b, number, &mut left, 0, 0);
}

/// Takes all blocks from a node. The name of a socket has none.
fn empty<B: Blocks>(b: &mut B, number: u32, inode: &mut Inode)
    requires sound { Sound (B.blocks b.old) }
    requires node { HasNode (B.blocks b.old) number inode.old }
    ensures empties { Empties number (B.blocks b.old) inode.old (B.blocks b.new) inode.new }
    ensures takes_none { TakesNone (B.blocks b.old) (B.blocks b.new) }
    ensures follows { B.follows b.old b.new }
{
    if inode.size == 0 {
        return;
    }
    shrink(b, number, inode, 0);
}
