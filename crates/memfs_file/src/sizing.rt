//! Another size of a file.

ghost use Rattle.std.specs.Prelude.{◌≡◌, ◌<◌, ◌⊎◌, ◌↔◌, ◌≤◌, Err, IfErr, OnOk};
ghost use Rattle.kabi_types.specs.declared.errnos.Errno.TheVariants.{EFBIG, ENOSPC};
ghost use Rattle.posix_defs.specs.DiskFormat.{greatest_size, blocks_of};
ghost use Rattle.posix_defs.specs.FileBytes.{resized};
ghost use Rattle.posix_defs.specs.SoundDisk.{HasNode, Sound};
ghost use Rattle.posix_defs.specs.DiskContents.{node_bytes};
ghost use Rattle.blk_map.specs.Named.{TakesLowest, file};
ghost use Rattle.memfs_file.specs.FileChange.{blocks_for, Rewrites};

use crate::room::zero_gap;
use blk_map::{grow, shrink};
use kabi_types::{Errno, Inode};
use posix_defs::Blocks;

/// Gives a file another size: it is cut there, or has zeros behind the bytes that it had. The
/// blocks that it takes are the lowest of those that are free.
///
/// EFBIG exactly where that is above the greatest size, else ENOSPC exactly where the file has and could have fewer blocks
/// than that takes; nothing is written then. See
/// [ftruncate](https://pubs.opengroup.org/onlinepubs/9699919799/functions/ftruncate.html).
pub fn set_size<B: Blocks>(
    b: &mut B,
    number: u32,
    inode: &mut Inode,
    size: u32,
) -> Result<(), Errno>
    requires sound { Sound (B.blocks b.old) }
    requires node { HasNode (B.blocks b.old) number inode.old }
    requires kind { inode.old.kind ≡ file }
    ensures ok { OnOk result (Rewrites number (B.blocks b.old) inode.old
        (resized size (node_bytes (B.blocks b.old) inode.old)) (B.blocks b.new) inode.new) }
    ensures lowest { OnOk result (TakesLowest (B.blocks b.old) (B.blocks b.new)) }
    ensures err { IfErr result (λ fault. ((fault ≡ EFBIG) ⊎ (fault ≡ ENOSPC)) × (B.blocks b.new ≡ B.blocks b.old) × (inode.new ≡ inode.old)) }
    ensures big { (result ≡ Err EFBIG) ↔ (greatest_size < size) }
    ensures full { size ≤ greatest_size → (result ≡ Err ENOSPC) ↔ (blocks_for (B.blocks b.old) inode.old < blocks_of size) }
    ensures follows { B.follows b.old b.new }
{
    let old = inode.size;
    if size <= old {
        shrink(b, number, inode, size);
        return Ok(());
    }
    grow(b, number, inode, size)?;
    zero_gap(b, inode, old, size);
    Ok(())
}
