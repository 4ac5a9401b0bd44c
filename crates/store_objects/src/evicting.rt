//! What of the caches may go, and what goes.

ghost use Rattle.std.specs.Prelude.{◌≡◌, true, false};
ghost use Rattle.kabi_types.specs.declared.scripts.Script.{Script};
ghost use Rattle.kheap_slabs.specs.Paid.{TakesNothing};
ghost use Rattle.posix_defs.specs.Relief.{Evicts};
ghost use Rattle.posix_defs.specs.World.{World, can_evict};
ghost use Rattle.store_objects.specs.Objects.{AreKept};
ghost use Rattle.store_objects.specs.Standing.{StandsFor};
ghost use Rattle.store_objects.specs.Trees.{KeepsTree};

use crate::objects::Objects;
use kabi_types::Cached;

/// Whether a cache keeps something that isn't pinned.
pub fn evictable(objects: &Objects, what: Cached) -> bool
    requires { KeepsTree objects.now.heap objects.now.tree }
    ensures { (script : Script) (world : World) → StandsFor script objects.now world → result ≡ can_evict world.plain world.kept what }
{
    objects.tree.evictable(&objects.heap, what)
}

/// Of what a cache keeps and isn't pinned an object goes, and it isn't said which; where there is none nothing changes.
pub fn evict(objects: &mut Objects, what: Cached)
    requires { KeepsTree objects.old.heap objects.old.tree }
    ensures kept { (script : Script) → AreKept script objects.old → AreKept script objects.new }
    ensures evicted { (script : Script) (world : World) → StandsFor script objects.old world → can_evict world.plain world.kept what ≡ true
        → (after : World) × StandsFor script objects.new after × Evicts world what after }
    ensures same { (script : Script) (world : World) → StandsFor script objects.old world → can_evict world.plain world.kept what ≡ false
        → StandsFor script objects.new world }
    ensures takes { TakesNothing objects.old.heap objects.new.heap }
{
    if objects.tree.evictable(&objects.heap, what) {
        objects.tree.evict(&mut objects.heap, what);
    }
}
