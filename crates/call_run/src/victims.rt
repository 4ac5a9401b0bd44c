//! Who is killed where heap has to be freed.

ghost use Rattle.std.specs.Prelude.{◌≡◌, ◌≤◌, count_by, length};
ghost use Rattle.std.specs.List.{All};
ghost use Rattle.kabi_types.specs.declared.scripts.Script.{Script};
ghost use Rattle.kheap_slabs.specs.Heap.{IsWellFormed};
ghost use Rattle.kheap_slabs.specs.Leaves.{OwnsLeaves};
ghost use Rattle.kheap_slabs.specs.Spaces.{OwnsNodes};
ghost use Rattle.desc_table.specs.Numbered.{IsLong};
ghost use Rattle.posix_defs.specs.Victim.{victim_of};
ghost use Rattle.posix_defs.specs.World.{World};
ghost use Rattle.victim_core.specs.Victims.{IsInRange};
ghost use Rattle.store_objects.specs.Objects.{AreKept, procs_of};
ghost use Rattle.store_objects.specs.Standing.{StandsFor};
ghost use Rattle.call_run.specs.Weights.{has_frame, weight_in, weights_in};

use arrayvec::ArrayVec;
use desc_table::open_count;
use kabi_types::{Policy, Weight};
use kheap_slabs::{KHeap, Node, PageEntry, Proc};
use store_objects::Objects;
use victim_core::{Score, Scorer};

/// How many processes may be there, alive or ended and not waited for.
const MOST: usize = 64;

/// Whether a page has a frame.
fn has_frame(entry: PageEntry) -> bool
    ensures { result ≡ has_frame entry }
{
    matches!(entry, PageEntry::Frame(_))
}

/// How many of 64 pages have a frame.
fn frames_in(node: &Node) -> u32
    requires { length node.now.entries ≡ 64 }
    ensures frames { result ≡ count_by has_frame node.now.entries }
    ensures few { result ≤ 64 }
{
    let mut frames = 0;
    for entry in &node.entries {
        if has_frame(*entry) {
            frames += 1;
        }
    }
    frames
}

/// The number of a process: what a call answers is known to be in its type's range.
fn pid_of(proc: &Proc) -> u32
    ensures { result ≡ proc.now.pid }
{
    proc.pid
}

/// What a process weighs: beside itself its memory, and the descriptors that it has open.
fn weight_of(heap: &KHeap, proc: &Proc) -> Weight
    requires whole { IsWellFormed heap.now }
    requires owns { OwnsNodes heap.now.nodes proc.now.nodes }
    requires groups { length proc.now.nodes ≡ 4 }
    requires own { OwnsLeaves heap.now.leaves proc.now.leaves }
    requires rows { IsLong proc.now }
    ensures weight { result ≡ weight_in heap.now proc.now }
    ensures in_range { IsInRange result }
{
    let mut frames = 0;
    let mut nodes = 0;
    for group in &proc.nodes {
        if let Some(key) = group {
            nodes += 1;
            frames += frames_in(heap.get_node(*key));
        }
    }
    Weight {
        pid: pid_of(proc),
        frames,
        nodes,
        descs: open_count(heap, proc),
    }
}

/// The weights of the processes that are alive.
fn weights_of(objects: &Objects) -> ArrayVec<Weight, MOST>
    requires whole { IsWellFormed objects.now.heap }
    requires kept { (script : Script) × AreKept script objects.now }
    ensures weights { result.items ≡ weights_in objects.now.heap (procs_of objects.now) }
    ensures in_range { All IsInRange result.items }
{
    let mut weights = ArrayVec::new();
    for place in objects.procs.listed() {
        let proc = objects.heap.get_proc(place.key);
        if proc.status.is_none() {
            weights.push(weight_of(&objects.heap, proc));
        }
    }
    weights
}

/// The process that is killed under this policy; None exactly where none but the first is alive.
pub fn victim<F: Scorer, G: Scorer>(
    score: &Score<F, G>,
    policy: Policy,
    objects: &Objects,
) -> Option<u32>
    requires kept { (script : Script) × AreKept script objects.now }
    ensures { (script : Script) (world : World) → StandsFor script objects.now world → result ≡ victim_of policy world.plain world.account }
{
    objects.heap_is_well_formed();
    score.choose(policy, weights_of(objects).as_slice())
}
