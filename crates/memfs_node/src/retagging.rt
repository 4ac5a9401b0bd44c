ghost use Rattle.std.specs.Prelude.{◌≡◌};
ghost use Rattle.posix_defs.specs.DiskFormat.{IsOfKind};
ghost use Rattle.posix_defs.specs.SoundDisk.{HasInode, Sound};
ghost use Rattle.memfs_node.specs.NodeOnDisk.{Retags};

use blk_map::put_in_table;
use kabi_types::Inode;
use posix_defs::Blocks;

/// Gives a node another kind and other links, which go with the size that it has; its size and its blocks stay.
pub fn retag<B: Blocks>(b: &mut B, number: u32, inode: &mut Inode, kind: u8, links: u16)
    requires sound { Sound (B.blocks b.old) }
    requires node { HasInode (B.blocks b.old) number inode.old }
    requires kind { IsOfKind (record inode.old { kind = kind; nlink = links }) }
    ensures retags { Retags number (B.blocks b.old) inode.old kind links (B.blocks b.new) inode.new }
    ensures follows { B.follows b.old b.new }
{
    inode.kind = kind;
    inode.nlink = links;
    put_in_table(b, number, inode);
}
