//! `exec`: which program a process starts.

ghost use Rattle.std.specs.Prelude.{◌≡◌, ℕ, None, Ok, Some};
ghost use Rattle.kabi_types.specs.Arguments.{path_fault};
ghost use Rattle.kheap_slabs.specs.declared.objects.Proc.{Proc};
ghost use Rattle.memfs_ops.specs.FileTree.{KeepsLed, KnowsWay, MayWalk, Pays, Stands, in_call};
ghost use Rattle.memfs_ops.specs.Starting.{ArePrograms, KeepsLine, KnowsLine};
ghost use Rattle.open_laws.specs.Placed.{Numbers};
ghost use Rattle.posix_defs.specs.Files.State.{Files};
ghost use Rattle.posix_defs.specs.PathCalls.{exec_path, node_led};
ghost use Rattle.posix_defs.specs.Paths.{resolve};
ghost use Rattle.posix_defs.specs.Plain.{Plain};
ghost use Rattle.posix_defs.specs.Process.{directory_of};
ghost use Rattle.posix_defs.specs.Tree.{Tree};
ghost use Rattle.proc_table.specs.Procs.{proc_of};
ghost use Rattle.proc_table.specs.Standing.{IsTable};
ghost use Rattle.proc_table.specs.Table.{IsPlaced, processes};
ghost use Rattle.proc_numbers.specs.Having.{AreListed};
ghost use Rattle.proc_files.specs.Holding.{HoldFiles, HoldSome};
ghost use Rattle.proc_files.specs.Opening.{WorksSomewhere};

use crate::opening::directory_of;
use kabi_types::{Errno, Script};
use kheap_slabs::{KHeap, Purse};
use memfs_ops::FileTree;
use proc_table::{Place, ProcTable};

/// The program that the file names to which a path leads from a process's working directory, by its place in the script: the file
/// begins with `#!`, its name and a newline. EACCES where the path leads to a directory or a socket's name, ENOEXEC where the file
/// names no program, else the faults of the walk.
///
/// What the caches keep may be other afterwards, and nothing else. Where all that is asked for on the way is cached, and what the
/// line is reached by, nothing is read. What was found is cached afterwards, and so is its first block.
///
/// <https://pubs.opengroup.org/onlinepubs/9699919799/functions/exec.html>
pub fn program_for(
    heap: &mut KHeap,
    purse: &mut Purse,
    procs: &ProcTable,
    tree: &mut FileTree,
    place: Place,
    path: &[u8],
    script: &Script,
) -> Result<u32, Errno>
    requires listed { AreListed heap.old procs.now }
    requires there { IsPlaced procs.now place }
    requires works { WorksSomewhere heap.old procs.now tree.old place.pid }
    requires path { path_fault path.now ≡ None }
    requires programs { ArePrograms script.now.programs }
    requires may { MayWalk heap.old purse.old }
    ensures value { (numbers : Numbers) (others : ℕ → ℕ) (plain : Plain) → IsTable heap.old procs.now plain.table
        → HoldFiles numbers others heap.old procs.now tree.old plain.files
        → result ≡ exec_path plain.files.tree (directory_of plain.table place.pid) path.now script.now.programs }
    ensures holds { (numbers : Numbers) (others : ℕ → ℕ) (files : Files)
        → HoldFiles numbers others heap.old procs.now tree.old files → HoldFiles numbers others heap.new procs.now tree.new files }
    ensures hold { HoldSome heap.new procs.now tree.new }
    ensures pays { Pays heap.old heap.new purse.old purse.new tree.old tree.new }
    ensures saved { (proc : Proc) (plain : Tree) (pins : ℕ → ℕ) → proc_of (processes heap.old procs.now) place.pid ≡ Some proc
        → Stands heap.old tree.old plain pins → KnowsWay (in_call heap.old purse.old tree.old) plain proc.cwd path.now
        → ((number : ℕ) → node_led (resolve plain proc.cwd path.now) ≡ Ok number → KnowsLine tree.old number)
        → tree.new.disk ≡ tree.old.disk }
    ensures kept { (proc : Proc) (plain : Tree) (pins : ℕ → ℕ) → proc_of (processes heap.old procs.now) place.pid ≡ Some proc
        → Stands heap.old tree.old plain pins → KeepsLed tree.new (resolve plain proc.cwd path.now) }
    ensures line { (proc : Proc) (plain : Tree) (pins : ℕ → ℕ) (number : ℕ) → proc_of (processes heap.old procs.now) place.pid ≡ Some proc
        → Stands heap.old tree.old plain pins → node_led (resolve plain proc.cwd path.now) ≡ Ok number
        → KeepsLine tree.old tree.new number }
{
    let cwd = directory_of(heap, procs, place);
    tree.program_of(heap, purse, cwd, path, script)
}
