//! The law of stores and open files. It is the contract of a function that does nothing.

ghost use Rattle.std.specs.Prelude.{ℕ};
ghost use Rattle.kabi_types.specs.declared.scripts.Script.{Script};
ghost use Rattle.kheap_slabs.specs.Heap.{IsWellFormed};
ghost use Rattle.posix_defs.specs.World.{World};
ghost use Rattle.proc_files.specs.Opening.{WorksSomewhere};
ghost use Rattle.proc_files.specs.NameHolding.{HoldNames, WorksInSome};
ghost use Rattle.proc_table.specs.Procs.{IsAlive};
ghost use Rattle.store_objects.specs.Objects.{procs_of};
ghost use Rattle.store_objects.specs.Standing.{IsSound, StandsFor};
ghost use Rattle.store_objects.specs.Trees.{others_in};
ghost use Rattle.store_objects.specs.declared.objects.Objects.{Objects};

/// For each world that a store stands for, and that has what machines that are reached have, its heap, table, tree of files and table
/// of names stand for the world's files, by the numbering that makes what is open the world's: its nodes are held by descriptions,
/// the root by itself, and each working directory but the root by who works in it. Who runs works in a directory of that tree.
pub fn a_store_holds_its_files()
    ensures holds { (script : Script) (objects : Objects) (world : World) → (stands : StandsFor script objects world) → IsSound world.plain
        → IsWellFormed objects.heap
        → HoldNames stands.files.numbers (others_in world.plain) objects.heap objects.procs objects.tree objects.names world.plain.files }
    ensures works { (script : Script) (objects : Objects) (world : World) (pid : ℕ) → StandsFor script objects world → IsSound world.plain
        → IsWellFormed objects.heap → IsAlive (procs_of objects) pid
        → WorksSomewhere objects.heap objects.procs objects.tree pid × WorksInSome objects.heap objects.procs objects.tree objects.names pid }
{}
