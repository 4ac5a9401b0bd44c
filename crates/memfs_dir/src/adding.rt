ghost use Rattle.std.specs.Prelude.{◌≡◌, ℕ, ◌+◌, ◌*◌, ◌↔◌, [], ◌∷◌, ◌++◌, Err, IfErr, OnOk, OnErr};
ghost use Rattle.kabi_types.specs.declared.errnos.Errno.TheVariants.{ENOSPC};
ghost use Rattle.posix_defs.specs.DiskFormat.{IsEntry};
ghost use Rattle.posix_defs.specs.SoundDisk.{HasNode, Sound};
ghost use Rattle.memfs_dir.specs.Slots.{entry_size};
ghost use Rattle.blk_map.specs.Named.{FreesNone, TakesLowest};
ghost use Rattle.memfs_dir.specs.Listed.{IsDirectory, IsFull, IsInUse, PutsEntry, Relists};

use crate::slots::{ENTRIES_IN_BLOCK, ENTRY_SIZE, put_entry};
use blk_map::{block_at, grow};
use kabi_types::{DirEntry, Errno, Inode};
use posix_defs::Blocks;

/// Puts an entry behind all others of a directory. The blocks that it takes are the lowest of those that are free, and it
/// frees none.
///
/// ENOSPC exactly where the directory has the greatest size, or fewer blocks are free than it grows by, its blocks of
/// pointers among them; nothing is written then.
pub fn dir_add<B: Blocks>(
    b: &mut B,
    number: u32,
    dir: &mut Inode,
    entry: &DirEntry,
) -> Result<(), Errno>
    requires sound { Sound (B.blocks b.old) }
    requires node { HasNode (B.blocks b.old) number dir.old }
    requires entries { IsDirectory (B.blocks b.old) dir.old }
    requires entry { IsEntry entry.now }
    ensures ok { OnOk result (Relists number (B.blocks b.old) dir.old (λ entries. entries ++ entry.now ∷ []) (B.blocks b.new) dir.new) }
    ensures lowest { OnOk result (TakesLowest (B.blocks b.old) (B.blocks b.new)) }
    ensures frees_none { FreesNone (B.blocks b.old) (B.blocks b.new) }
    ensures full { (result ≡ Err ENOSPC) ↔ IsFull (B.blocks b.old) dir.old }
    ensures only { IfErr result (λ fault. fault ≡ ENOSPC) }
    ensures err { OnErr result ((B.blocks b.new ≡ B.blocks b.old) × (dir.new ≡ dir.old)) }
    ensures follows { B.follows b.old b.new }
{
    let place = dir.size / ENTRY_SIZE;
    let size = dir.size + ENTRY_SIZE;
    if grow(b, number, dir, size).is_err() {
        return Err(Errno::ENOSPC);
    }
    put_last(b, dir, place, entry);
    Ok(())
}

/// Writes an entry at the last place of a directory. A block that has no other is written whole.
fn put_last<B: Blocks>(b: &mut B, dir: &Inode, place: u32, entry: &DirEntry)
    requires sound { Sound (B.blocks b.old) }
    requires node { IsInUse (B.blocks b.old) dir.now }
    requires last { entry_size * place + entry_size ≡ dir.now.size }
    requires entry { IsEntry entry.now }
    ensures puts { (number : ℕ) → HasNode (B.blocks b.old) number dir.now → PutsEntry number (B.blocks b.old) dir.now place entry.now (B.blocks b.new) }
    ensures follows { B.follows b.old b.new }
{
    let number = block_at(b, dir, place / ENTRIES_IN_BLOCK);
    let slot = place % ENTRIES_IN_BLOCK;
    let mut block = if slot == 0 { [0; 1024] } else { b.get(number) };
    put_entry(&mut block, slot, entry);
    b.set(number, &block);
}
