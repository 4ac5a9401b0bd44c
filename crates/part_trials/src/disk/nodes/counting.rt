//! A disk that counts what is read and written, and a new file on it.

ghost use Rattle.std.specs.Prelude.{◌≡◌};
ghost use Rattle.posix_defs.specs.DiskTree.{ChangesNode};
ghost use Rattle.posix_defs.specs.SoundDisk.{HasNode, Sound};

use disk_layout::RamDisk;
use kabi_types::Inode;
use memfs_node::{NewNode, lowest_node, make_node};
use posix_defs::Blocks;
use std::process::Abort;

/// A disk that counts its reads, and here its writes too.
#[derive(Drop)]
pub(crate) struct Counting {
    pub(crate) disk: RamDisk,
    pub(crate) sets: u64,
}

impl Blocks for Counting {
    ghost blocks = { λ counting. counting.disk.blocks };

    ghost follows = { λ _ _. Unit {0} };

    ghost asked = { λ before _ after. after.disk.blocks ≡ before.disk.blocks };

    ghost follows_refl = { λ _. tt };

    ghost follows_trans = { λ _ _ _ _ _. tt };

    fn count(&self) -> u32 {
        self.disk.count()
    }

    fn get(&mut self, number: u32) -> [u8; 1024] {
        self.disk.read(number)
    }

    fn set(&mut self, number: u32, bytes: &[u8; 1024]) {
        self.sets = self.sets.saturating_add(1);
        self.disk.write(number, bytes);
    }
}

/// The lowest free node, which is to be this one, is a file without bytes from now on.
pub(crate) fn new_file(rt: &impl Abort, b: &mut Counting, number: u32) -> Inode
    requires { Sound b.old.disk.blocks }
    ensures changes { ChangesNode b.old.disk.blocks b.new.disk.blocks number }
    ensures sound { Sound b.new.disk.blocks }
    ensures node { HasNode b.new.disk.blocks number result }
    ensures kind { result.kind ≡ 1 }
    ensures size { result.size ≡ 0 }
{
    let full = b.disk.full_blocks();
    assert!(rt;
        lowest_node(b, full) == Some(number),
        "node {number} is free"
    );
    make_node(b, number, NewNode::File)
}
