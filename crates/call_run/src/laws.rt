//! Laws of stores. Each is the contract of a function that does nothing.

ghost use Rattle.std.specs.Prelude.{◌≡◌, ◌<◌, ℕ, Some};
ghost use Rattle.kabi_types.specs.declared.scripts.Script.{Script};
ghost use Rattle.kheap_slabs.specs.Objects.{InUse, object};
ghost use Rattle.kheap_slabs.specs.declared.objects.Desc.{Desc};
ghost use Rattle.kheap_slabs.specs.declared.objects.Target.TheVariants as target;
ghost use Rattle.open_laws.specs.Owned.{all_namings};
ghost use Rattle.store_objects.specs.Objects.{AreKept};
ghost use Rattle.posix_defs.specs.Files.Whole.{IsWhole};
ghost use Rattle.posix_defs.specs.World.{World};
ghost use Rattle.store_objects.specs.Standing.{IsSound};
ghost use Rattle.store_objects.specs.declared.objects.Objects.{Objects};
ghost use Rattle.call_run.specs.Stores.{IsStoreOf};

/// A pipe is in the heap only while some process has a number open on one of its ends: it goes with the last of them, and with
/// it its bytes.
pub fn a_pipe_is_there_while_an_end_of_it_is_open()
    ensures { (script : Script) (objects : Objects) (pipe : ℕ) → AreKept script objects → InUse objects.heap.pipes pipe
        → (key : ℕ) × (desc : Desc) × (object objects.heap.descs key ≡ Some desc) × (desc.target ≡ target.Pipe pipe)
        × (0 < all_namings objects.heap key) }
{}

/// Whatever world a store stands for, its machine is whole, and sound in what calls on files and names make use of.
pub fn what_a_store_stands_for_is_sound()
    ensures whole { (script : Script) (objects : Objects) (world : World) → IsStoreOf script objects world → IsWhole script world.plain }
    ensures sound { (script : Script) (objects : Objects) (world : World) → IsStoreOf script objects world → IsSound world.plain }
{}
