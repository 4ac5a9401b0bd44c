//! A tree of files in a heap, with a path of directories.
ghost use Rattle.std.specs.Prelude.{◌≡◌, ◌≤◌, ◌<◌, ◌^◌, None, IsTrue, IfOk, IfSome};
ghost use Rattle.std.specs.List.{All};
ghost use Rattle.kabi_types.specs.Arguments.{path_fault};
ghost use Rattle.memfs_ops.specs.FileTree.{MayWalk};
ghost use Rattle.stat_cost.specs.Standing.{StandsForSome};

use crate::words::Plan;
use kabi_types::{Call, Memory, Need, Path};
use kheap_slabs::{KHeap, Purse};
use memfs_ops::FileTree;
use std::alloc::Global;

/// The path of the last of sixteen directories, each in the one before.
const PATH: &[u8] = b"/a/b/c/d/e/f/g/h/i/j/k/l/m/n/o/p";

/// The root, whose number it is.
const ROOT: u32 = 1;

/// What a walk may fill, in bytes: two Vnodes, two Names and two Blocks.
const FILLS: u64 = 2560;

/// A heap, and the tree of files in it.
#[derive(Drop)]
struct World {
    heap: KHeap,
    files: FileTree,
}

/// How often a plan's rounds read a block of the disk; None where memory or room is missing.
pub fn reads_of(alloc: Global, plan: &Plan) -> Option<u64>
    requires { (65536 ≤ plan.now.heap) × (plan.now.heap ≤ 8388608) }
{
    let Ok(mut world) = booted(alloc, plan.heap) else {
        return None;
    };
    let reads = reads_in(&mut world, plan.components as usize, plan.rounds);
    drop(world);
    reads
}

/// The same in a world that was booted.
fn reads_in(world: &mut World, components: usize, rounds: u32) -> Option<u64>
    requires { StandsForSome world.old.heap world.old.files }
{
    for count in 0..components {
        make(world, path_of(count.min(16) + 1))?;
    }
    let path = path_of(components);
    ask(world, path, 1)?;
    let before = world.files.reads();
    ask(world, path, rounds)?;
    world.files.reads().checked_sub(before)
}

/// The path of so many components, 16 at most.
fn path_of(components: usize) -> &'static [u8] {
    &PATH[..2 * components.min(16)]
}

/// The new tree, in a new heap.
fn booted(alloc: Global, heap: u64) -> Result<World, Memory>
    requires { (65536 ≤ heap) × (heap ≤ 8388608) }
    ensures { IfOk result (λ world. StandsForSome world.heap world.files) }
{
    let mut heap = KHeap::boot(alloc, heap)?;
    let files = match FileTree::boot(alloc, 4096, &mut heap) {
        Ok(files) => files,
        Err(wanting) => {
            drop(heap);
            return Err(wanting);
        }
    };
    Ok(World { heap, files })
}

/// The purse of a walk; None where the heap has no room for what it may fill.
fn purse_of(heap: &KHeap) -> Option<Purse>
    ensures { IfSome result (λ purse. MayWalk heap.now purse) }
{
    if heap.heap() < FILLS || heap.live() > heap.heap() - FILLS {
        return None;
    }
    Some(Purse::of(Need {
        vnode: 2,
        name: 2,
        block: 2,
        ..Need::default()
    }))
}

/// Whether a path may be asked about, and has no zero byte.
fn passes(path: &[u8]) -> bool
    ensures { IsTrue result → (path_fault path.now ≡ None) × All (λ byte. (0 < byte) × (byte < 2 ^ 8)) path.now }
{
    let checked = match Path::of(path) {
        Some(path) => Call::Stat { path }.checked().is_ok(),
        None => false,
    };
    checked && !path.contains(&0)
}

/// A directory more, under a free name; None where it was not made.
fn make(world: &mut World, path: &[u8]) -> Option<()>
    requires { StandsForSome world.old.heap world.old.files }
    ensures { StandsForSome world.new.heap world.new.files }
{
    if !passes(path) {
        return None;
    }
    let mut purse = purse_of(&world.heap)?;
    world
        .files
        .make_dir(&mut world.heap, &mut purse, ROOT, path)
        .ok()
}

/// Asks so often what a path leads to; None where it leads nowhere.
fn ask(world: &mut World, path: &[u8], rounds: u32) -> Option<()>
    requires { StandsForSome world.old.heap world.old.files }
    ensures { StandsForSome world.new.heap world.new.files }
{
    if !passes(path) {
        return None;
    }
    let mut purse = purse_of(&world.heap)?;
    for _ in 0..rounds {
        if world
            .files
            .stat_path(&mut world.heap, &mut purse, ROOT, path)
            .is_err()
        {
            return None;
        }
    }
    Some(())
}
