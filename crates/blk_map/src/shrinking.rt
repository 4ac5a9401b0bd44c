ghost use Rattle.std.specs.Prelude.{◌≤◌, ◌<◌, ◌-◌};
ghost use Rattle.posix_defs.specs.DiskFormat.{data_blocks};
ghost use Rattle.posix_defs.specs.SoundDisk.{HasNode, Sound, run_of};
ghost use Rattle.posix_defs.specs.NodeChange.{Resizes};
ghost use Rattle.blk_map.specs.Named.{MayHaveSize, TakesNone};
ghost use Rattle.blk_map.specs.Runs.{run_first};

use crate::counts::{block_count, data_count, run_of, size_below_run};
use crate::found::unmark_all;
use crate::locating::pointers_at;
use crate::naming::{behind_of, forget_all};
use crate::pointing::forget_pointers;
use crate::settling::{put_in_table, settle};
use kabi_types::Inode;
use posix_defs::Blocks;

/// Gives a node another size, not above the one that it has; the blocks that it no longer takes are free, and
/// it takes no other.
///
/// Within a run of pointers it is done at once, from the last run on, and what each step leaves is a node that has shrunk so
/// far.
pub fn shrink<B: Blocks>(b: &mut B, number: u32, inode: &mut Inode, size: u32)
    requires sound { Sound (B.blocks b.old) }
    requires node { HasNode (B.blocks b.old) number inode.old }
    requires kind { MayHaveSize inode.old.kind size }
    requires size { size ≤ inode.old.size }
    ensures resizes { Resizes number (B.blocks b.old) inode.old size (B.blocks b.new) inode.new }
    ensures takes_none { TakesNone (B.blocks b.old) (B.blocks b.new) }
    ensures follows { B.follows b.old b.new }
{
    let mut floor = size_below_run(data_count(inode.size));
    while size < floor {
        shrink_in_run(b, number, inode, floor);
        floor = size_below_run(data_count(inode.size));
    }
    shrink_in_run(b, number, inode, size);
}

/// The same within the run of pointers that the node's last block of bytes has its own in.
fn shrink_in_run<B: Blocks>(b: &mut B, number: u32, inode: &mut Inode, size: u32)
    requires sound { Sound (B.blocks b.old) }
    requires node { HasNode (B.blocks b.old) number inode.old }
    requires kind { MayHaveSize inode.old.kind size }
    requires size { size ≤ inode.old.size }
    requires run { run_first (run_of (data_blocks inode.old.size - 1)) ≤ data_blocks size }
    ensures resizes { Resizes number (B.blocks b.old) inode.old size (B.blocks b.new) inode.new }
    ensures takes_none { TakesNone (B.blocks b.old) (B.blocks b.new) }
    ensures follows { B.follows b.old b.new }
{
    if block_count(size) == block_count(inode.size) {
        inode.size = size;
        put_in_table(b, number, inode);
        return;
    }
    give_blocks(b, number, inode, size);
}

/// Takes from a node the blocks that it no longer needs, some and all of them in a run.
fn give_blocks<B: Blocks>(b: &mut B, number: u32, inode: &mut Inode, size: u32)
    requires sound { Sound (B.blocks b.old) }
    requires node { HasNode (B.blocks b.old) number inode.old }
    requires kind { MayHaveSize inode.old.kind size }
    requires size { data_blocks size < data_blocks inode.old.size }
    requires run { run_first (run_of (data_blocks inode.old.size - 1)) ≤ data_blocks size }
    ensures resizes { Resizes number (B.blocks b.old) inode.old size (B.blocks b.new) inode.new }
    ensures takes_none { TakesNone (B.blocks b.old) (B.blocks b.new) }
    ensures follows { B.follows b.old b.new }
{
    let had = data_count(inode.size);
    let left = data_count(size);
    let run = run_of(had - 1);
    let pointers = pointers_at(b, inode, run);
    let mut behind = [0; 256];
    behind_of(b, pointers, had, run, &mut behind);
    let mut dropped = forget_pointers(b, number, inode, size, run, pointers);
    forget_all(
        &mut inode.direct,
        &mut behind,
        run,
        left as usize,
        had as usize,
        &mut dropped,
    );
    inode.size = size;
    let mut map = b.get(0);
    unmark_all(&mut map, &dropped.blocks, dropped.count);
    b.set(0, &map);
    settle(b, number, inode, pointers, run, &behind);
}
