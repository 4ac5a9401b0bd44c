//! Who works in a directory holds it.

ghost use Rattle.std.specs.Prelude.{◌≡◌, ◌≢◌, ◌<◌, ℕ, Some};
ghost use Rattle.kheap_slabs.specs.declared.objects.Proc.{Proc};
ghost use Rattle.kheap_slabs.specs.Paid.{TakesNothing};
ghost use Rattle.kabi_types.specs.declared.scripts.Control.{Control};
ghost use Rattle.kabi_types.specs.declared.scripts.Script.{Script};
ghost use Rattle.memfs_ops.specs.Closing.{one_less};
ghost use Rattle.memfs_ops.specs.FileTree.{Stands, one_more};
ghost use Rattle.posix_defs.specs.Plain.{root};
ghost use Rattle.posix_defs.specs.Tree.{Tree};
ghost use Rattle.posix_defs.specs.World.{World};
ghost use Rattle.proc_table.specs.Procs.{IsAlive, proc_of};
ghost use Rattle.proc_table.specs.Table.{AreStored, IsPlaced};
ghost use Rattle.store_objects.specs.Objects.{Runs, procs_of};
ghost use Rattle.store_objects.specs.Standing.{HasEntered, StandsFor, working_in};
ghost use Rattle.store_objects.specs.Working.{OnlyPins, entered_pins, left_pins};

use crate::objects::Objects;
use proc_table::Place;

/// The root's number. It is held by itself: who works in it holds it no more often.
const ROOT: u32 = 1;

/// The working directory of a process.
pub fn directory_of(objects: &Objects, place: Place) -> u32
    requires stored { AreStored objects.now.heap.procs objects.now.procs.listed }
    requires there { IsPlaced objects.now.procs place }
    ensures { (proc : Proc) → proc_of (procs_of objects.now) place.pid ≡ Some proc → result ≡ proc.cwd }
{
    objects.procs.at(&objects.heap, place).cwd
}

/// One more works in a directory that is held.
pub fn hold_directory(objects: &mut Objects, directory: u32)
    requires held { directory ≢ root → (tree : Tree) × (pins : ℕ → ℕ) × Stands objects.old.heap objects.old.tree tree pins
        × (0 < pins directory) × (pins directory < 4294967295) }
    ensures only { OnlyPins objects.old objects.new }
    ensures stands { (tree : Tree) (pins : ℕ → ℕ) → Stands objects.old.heap objects.old.tree tree pins
        → Stands objects.new.heap objects.new.tree tree (entered_pins pins directory) }
    ensures takes { TakesNothing objects.old.heap objects.new.heap }
{
    if directory != ROOT {
        objects.tree.pin_node(&mut objects.heap, directory);
    }
}

/// Who worked in a directory lets it go. It has a name, since nobody removes a directory that is worked in, and so it stays.
pub fn let_go(objects: &mut Objects, directory: u32)
    requires held { directory ≢ root → (tree : Tree) × (pins : ℕ → ℕ) × Stands objects.old.heap objects.old.tree tree pins
        × (0 < pins directory) × (0 < one_less pins directory root) }
    ensures only { OnlyPins objects.old objects.new }
    ensures stands { (tree : Tree) (pins : ℕ → ℕ) → Stands objects.old.heap objects.old.tree tree pins
        → Stands objects.new.heap objects.new.tree tree (left_pins pins directory) }
    ensures takes { TakesNothing objects.old.heap objects.new.heap }
{
    if directory != ROOT {
        objects.tree.release(&mut objects.heap, directory);
    }
}

/// Who has entered a directory holds it once. For the root that is one too many, and so that one goes.
fn hold_once(objects: &mut Objects, directory: u32)
    requires held { (tree : Tree) × (pins : ℕ → ℕ) × Stands objects.old.heap objects.old.tree tree (one_more pins directory)
        × (0 < pins root) }
    ensures only { OnlyPins objects.old objects.new }
    ensures stands { (tree : Tree) (pins : ℕ → ℕ) → Stands objects.old.heap objects.old.tree tree (one_more pins directory)
        → Stands objects.new.heap objects.new.tree tree (entered_pins pins directory) }
    ensures takes { TakesNothing objects.old.heap objects.new.heap }
{
    if directory == ROOT {
        objects.tree.release(&mut objects.heap, directory);
    }
}

/// Has a process that runs work in a directory that it has entered, so that one more holds it, and lets the one go in which it
/// worked.
pub fn work_in(objects: &mut Objects, place: Place, directory: u32)
    requires alive { IsAlive (procs_of objects.old) place.pid }
    requires there { IsPlaced objects.old.procs place }
    requires entered { (script : Script) × (world : World) × HasEntered script objects.old world directory }
    ensures runs { (control : Control) → Runs objects.old place.pid control → Runs objects.new place.pid control }
    ensures procs { objects.new.procs ≡ objects.old.procs }
    ensures stands { (script : Script) (world : World) → HasEntered script objects.old world directory
        → StandsFor script objects.new (working_in world place.pid directory) }
    ensures takes { TakesNothing objects.old.heap objects.new.heap }
{
    let left = directory_of(objects, place);
    hold_once(objects, directory);
    objects.work_elsewhere(place, directory);
    let_go(objects, left);
}
