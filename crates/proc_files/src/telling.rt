//! `fstat`.

ghost use Rattle.std.specs.Prelude.{◌≡◌, ℕ, [], None};
ghost use Rattle.kabi_types.specs.declared.scripts.Script.{Script};
ghost use Rattle.kheap_slabs.specs.declared.objects.Target.TheVariants as target;
ghost use Rattle.memfs_ops.specs.FileTree.{IsUsed, Stands};
ghost use Rattle.open_laws.specs.Described.{node_in, target_in};
ghost use Rattle.open_laws.specs.Owned.{HasItsOwners};
ghost use Rattle.open_laws.specs.Piped.{ArePiped};
ghost use Rattle.open_laws.specs.Placed.{Numbers};
ghost use Rattle.posix_defs.specs.Calls.OnFiles.{end_info, fstat, info_of, without_node};
ghost use Rattle.posix_defs.specs.Files.Descriptions.{OnPipe};
ghost use Rattle.posix_defs.specs.Files.State.{Files, node_of};
ghost use Rattle.posix_defs.specs.Plain.{Plain};
ghost use Rattle.posix_defs.specs.Tree.{Tree};
ghost use Rattle.proc_table.specs.Table.{IsPlaced};
ghost use Rattle.proc_numbers.specs.Found.{IsOpened};
ghost use Rattle.proc_numbers.specs.Having.{AreListed};
ghost use Rattle.proc_numbers.specs.Answering.{stat_of};
ghost use Rattle.proc_files.specs.Answering.{AnswersHolding, StaysOffNodes};
ghost use Rattle.proc_files.specs.Holding.{HoldFiles, HoldSome, IsHeldIn};

use kabi_types::{Errno, NodeKind, StatInfo};
use kheap_slabs::{KHeap, Target};
use memfs_ops::FileTree;
use pipe_ends::pipe_fifo;
use proc_numbers::Named;
use proc_table::{Place, ProcTable};

/// What a number of a process is open on: all of a file or a directory, and of a pipe or a socket only that it is one.
///
/// EBADF where the number isn't open.
///
/// <https://pubs.opengroup.org/onlinepubs/9699919799/functions/fstat.html>
pub fn stat_number(
    heap: &KHeap,
    procs: &ProcTable,
    tree: &mut FileTree,
    place: Place,
    on: &Named,
) -> Result<StatInfo, Errno>
    requires listed { AreListed heap.now procs.now }
    requires owners { HasItsOwners heap.now [] }
    requires there { IsPlaced procs.now place }
    requires opened { IsOpened heap.now procs.now place.pid on.now }
    requires hold { HoldSome heap.now procs.now tree.old }
    ensures answers { (numbers : Numbers) (others : ℕ → ℕ) (script : Script) (plain : Plain)
        → HoldFiles numbers others heap.now procs.now tree.old plain.files
        → AnswersHolding numbers others heap.now procs.now tree.new script plain place.pid (fstat script plain place.pid on.now.fd) (stat_of result) }
    ensures hold { HoldSome heap.now procs.now tree.new }
    ensures used { IsUsed tree.old tree.new }
    ensures stays { StaysOffNodes heap.now procs.now place.pid on.now.fd tree.old tree.new }
{
    let Some(found) = on.found else {
        return Err(Errno::EBADF);
    };
    Ok(info_of(heap, tree, found.desc.target))
}

// What is told of a target.
fn info_of(heap: &KHeap, tree: &mut FileTree, target: Target) -> StatInfo
    requires held { IsHeldIn heap.now tree.old target }
    ensures value { (numbers : Numbers) (files : Files) (pins : ℕ → ℕ) → ArePiped numbers heap.now files.pipes → Stands heap.now tree.old files.tree pins
        → info_of files (target_in numbers target) ≡ result }
    ensures stands { (plain : Tree) (pins : ℕ → ℕ) → Stands heap.now tree.old plain pins → Stands heap.now tree.new plain pins }
    ensures used { IsUsed tree.old tree.new }
    ensures stays { node_in heap.now.pipes target ≡ None → tree.new ≡ tree.old }
{
    match target {
        Target::Inode(node) => tree.stat_node(heap, node),
        Target::Pipe(key) => end_info(heap, tree, key),
        Target::Sock(_) => without_node(NodeKind::Sock),
    }
}

// What is told of an end of a pipe: all of the FIFO's node, and of a pipe that `pipe` made only that it is one.
fn end_info(heap: &KHeap, tree: &mut FileTree, key: u32) -> StatInfo
    requires held { IsHeldIn heap.now tree.old (target.Pipe key) }
    ensures value { (numbers : Numbers) (files : Files) (pins : ℕ → ℕ) → ArePiped numbers heap.now files.pipes → Stands heap.now tree.old files.tree pins
        → end_info files.tree (node_of files (OnPipe (numbers.pipes key))) ≡ result }
    ensures stands { (plain : Tree) (pins : ℕ → ℕ) → Stands heap.now tree.old plain pins → Stands heap.now tree.new plain pins }
    ensures used { IsUsed tree.old tree.new }
    ensures stays { node_in heap.now.pipes (target.Pipe key) ≡ None → tree.new ≡ tree.old }
{
    match pipe_fifo(heap, key) {
        Some(node) => tree.stat_node(heap, node),
        None => without_node(NodeKind::Pipe),
    }
}

// No number, no links and no size.
fn without_node(kind: NodeKind) -> StatInfo
    ensures { result ≡ without_node kind }
{
    StatInfo {
        kind,
        number: 0,
        nlink: 0,
        size: 0,
    }
}
