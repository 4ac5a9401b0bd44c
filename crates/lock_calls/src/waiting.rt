//! Whether a `setlkw` would sleep.

ghost use Rattle.std.specs.Prelude.{◌≡◌};
ghost use Rattle.kabi_types.specs.declared.calls.Call.{Call};
ghost use Rattle.posix_defs.specs.Calls.OnLocks.{circles};
ghost use Rattle.posix_defs.specs.Machine.{blocks, machine};
ghost use Rattle.posix_defs.specs.World.{World};
ghost use Rattle.proc_table.specs.Table.{IsPlaced};
ghost use Rattle.store_objects.specs.Objects.{AreKept};
ghost use Rattle.store_objects.specs.Standing.{IsSound, StandsFor};
ghost use Rattle.lock_calls.specs.Waiting.{AreCircling, AreKnown};

use crate::requests::right_range;
use crate::waits::{Waits, is_held_up};
use kabi_types::Script;
use proc_numbers::opened;
use proc_table::Place;
use store_objects::Objects;

/// Whether a `setlkw` with these operands of a live process, which stands at it, would sleep: a lock of another is in its way, and no
/// chain of waits leads from it to itself. Who waits for whom is found where it isn't known yet, and kept.
#[inline(never)]
pub fn lock_would_block(
    script: &Script,
    objects: &Objects,
    waits: &mut Option<Waits>,
    place: Place,
    fd: i64,
    kind: i64,
    start: i64,
    length: i64,
) -> bool
    requires kept { AreKept script.now objects.now }
    requires there { IsPlaced objects.now.procs place }
    requires known { AreKnown script.now objects.now waits.old }
    ensures known { AreKnown script.now objects.now waits.new }
    ensures blocks { (world : World) → StandsFor script.now objects.now world → IsSound world.plain
        → result ≡ blocks (machine script.now world.plain place.pid (Call.Setlkw fd kind start length)) }
{
    let Some(range) = right_range(fd, kind, start, length) else {
        return false;
    };
    let on = opened(&objects.heap, &objects.procs, place, fd);
    if is_held_up(objects, place, &on, &range) {
        !circles(script, objects, waits, place)
    } else {
        false
    }
}

/// Whether a chain of waits leads from a process back to itself.
fn circles(script: &Script, objects: &Objects, waits: &mut Option<Waits>, place: Place) -> bool
    requires kept { AreKept script.now objects.now }
    requires there { IsPlaced objects.now.procs place }
    requires known { AreKnown script.now objects.now waits.old }
    ensures known { AreKnown script.now objects.now waits.new }
    ensures circles { (world : World) → StandsFor script.now objects.now world → IsSound world.plain → result ≡ circles script.now world.plain place.pid }
{
    let known = known_or_found(script, objects, *waits);
    *waits = Some(known);
    known.circle(objects, place.pid)
}

/// Who waits for whom: what is known already, or what is found now.
fn known_or_found(script: &Script, objects: &Objects, waits: Option<Waits>) -> Waits
    requires kept { AreKept script.now objects.now }
    requires known { AreKnown script.now objects.now waits }
    ensures { AreCircling script.now objects.now result.circling }
{
    match waits {
        Some(known) => known,
        None => Waits::of(script, objects),
    }
}
