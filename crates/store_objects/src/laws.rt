//! Laws of stores. Each is the contract of a function that does nothing.

ghost use Rattle.std.specs.Prelude.{◌≡◌, ◌<◌, ℕ, Option, sum_by};
ghost use Rattle.std.specs.Option.{option_map};
ghost use Rattle.kabi_types.specs.declared.scripts.Control.{Control};
ghost use Rattle.kabi_types.specs.declared.scripts.Script.{Script};
ghost use Rattle.kheap_slabs.specs.Heap.{IsWellFormed, live_bytes};
ghost use Rattle.kheap_slabs.specs.Spaces.{count_at};
ghost use Rattle.kheap_slabs.specs.declared.objects.HalfOpen.{HalfOpen};
ghost use Rattle.page_space.specs.Sequences.{entries_naming};
ghost use Rattle.posix_defs.specs.World.{World, live_of};
ghost use Rattle.proc_table.specs.Opening.{half_in};
ghost use Rattle.store_objects.specs.Objects.{AreKept, Runs, WaitsIn, procs_of};
ghost use Rattle.store_objects.specs.Standing.{StandsFor, waiting_in};
ghost use Rattle.store_objects.specs.Trees.{pins_in};
ghost use Rattle.store_objects.specs.declared.objects.Objects.{Objects};

/// What a store's heap has in use is what the world that it stands for takes: 512 bytes for each process that is there and for
/// each group of 64 pages with a mapped one, 4096 for each frame that a page names, 64 for each lock, and what is open and what is
/// kept.
pub fn the_heap_is_the_worlds()
    ensures { (script : Script) (objects : Objects) (world : World) → StandsFor script objects world → IsWellFormed objects.heap
        → live_bytes objects.heap ≡ live_of world }
{}

/// In each world that a run leads to, the count of every page is the number of entries of all processes that name it.
pub fn each_page_is_named_as_often_as_it_counts()
    ensures { (script : Script) (objects : Objects) (world : World) (key : ℕ) → StandsFor script objects world → IsWellFormed objects.heap
        → count_at objects.heap.pages key ≡ sum_by (λ proc. entries_naming objects.heap.nodes key proc.nodes) (procs_of objects) }
{}

/// Whatever is open, and whoever works where, one more may hold each node of the tree of files.
pub fn one_more_may_hold_each_node()
    ensures { (script : Script) (objects : Objects) (world : World) (number : ℕ) → StandsFor script objects world → IsWellFormed objects.heap
        → pins_in world.plain number < 4294967295 }
{}

/// Where a process that runs sleeps in another open of a FIFO, or in none any more, the objects of a store are kept, it runs where it
/// stood, and they stand for the world in which it does so.
pub fn a_store_goes_on_with_who_waits()
    ensures kept { (script : Script) (old : Objects) (new : Objects) (pid : ℕ) (control : Control) (opening : Option HalfOpen)
        → AreKept script old → Runs old pid control → WaitsIn old pid opening new → AreKept script new }
    ensures runs { (script : Script) (old : Objects) (new : Objects) (pid : ℕ) (control : Control) (opening : Option HalfOpen)
        → AreKept script old → Runs old pid control → WaitsIn old pid opening new → Runs new pid control }
    ensures stands { (script : Script) (old : Objects) (new : Objects) (pid : ℕ) (control : Control) (opening : Option HalfOpen) (world : World)
        → StandsFor script old world → Runs old pid control → WaitsIn old pid opening new
        → StandsFor script new (waiting_in world pid (option_map half_in opening)) }
{}
