//! Bytes of a file that are written.

ghost use Rattle.std.specs.Prelude.{◌≡◌, ◌<◌, ◌≤◌, ◌⊎◌, ◌↔◌, Err, IfErr, IfOk, length, take};
ghost use Rattle.kabi_types.specs.declared.errnos.Errno.TheVariants.{EFBIG, ENOSPC};
ghost use Rattle.posix_defs.specs.DiskFormat.{greatest_size};
ghost use Rattle.posix_defs.specs.FileBytes.{fitting, overwritten};
ghost use Rattle.posix_defs.specs.SoundDisk.{HasNode, Sound};
ghost use Rattle.posix_defs.specs.DiskContents.{node_bytes};
ghost use Rattle.blk_map.specs.Named.{TakesLowest, file};
ghost use Rattle.memfs_file.specs.FileChange.{blocks_for, Rewrites};

use crate::putting::put_bytes;
use crate::room::{make_room, zero_gap};
use disk_layout::GREATEST_SIZE;
use kabi_types::{Errno, Inode};
use posix_defs::Blocks;

/// Writes bytes into a file from `at` on, as many as there is room for, and answers how many; a gap before `at` is zeros. The
/// blocks that it takes are the lowest of those that are free.
///
/// EFBIG exactly where the place is at or behind the greatest size, else ENOSPC exactly where there is no room for the gap
/// and one byte; nothing is written then. See
/// [write](https://pubs.opengroup.org/onlinepubs/9699919799/functions/write.html).
pub fn write_at<B: Blocks>(
    b: &mut B,
    number: u32,
    inode: &mut Inode,
    at: u32,
    bytes: &[u8],
) -> Result<u32, Errno>
    requires sound { Sound (B.blocks b.old) }
    requires node { HasNode (B.blocks b.old) number inode.old }
    requires kind { inode.old.kind ≡ file }
    requires some { 0 < length bytes.now }
    ensures count { IfOk result (λ count. count ≡ fitting (blocks_for (B.blocks b.old) inode.old) at (length bytes.now)) }
    ensures ok { IfOk result (λ count. Rewrites number (B.blocks b.old) inode.old
        (overwritten at (take count bytes.now) (node_bytes (B.blocks b.old) inode.old)) (B.blocks b.new) inode.new) }
    ensures lowest { IfOk result (λ _. TakesLowest (B.blocks b.old) (B.blocks b.new)) }
    ensures err { IfErr result (λ fault. ((fault ≡ EFBIG) ⊎ (fault ≡ ENOSPC)) × (B.blocks b.new ≡ B.blocks b.old) × (inode.new ≡ inode.old)) }
    ensures big { (result ≡ Err EFBIG) ↔ (greatest_size ≤ at) }
    ensures full { at < greatest_size → (result ≡ Err ENOSPC) ↔ (fitting (blocks_for (B.blocks b.old) inode.old) at (length bytes.now) ≡ 0) }
    ensures follows { B.follows b.old b.new }
{
    if at >= GREATEST_SIZE {
        return Err(Errno::EFBIG);
    }
    let wanted = bytes.len().min((GREATEST_SIZE - at) as usize) as u32;
    let size = inode.size;
    let count = make_room(b, number, inode, at, wanted)?;
    zero_gap(b, inode, size, at);
    put_bytes(b, inode, at, &bytes[..count as usize]);
    Ok(count)
}
