//! What a process's call waits for, beside what a number of another is open on.

ghost use Rattle.std.specs.Prelude.{◌≡◌, None, Some, [], true, false};
ghost use Rattle.kabi_types.specs.declared.scripts.Script.{Script};
ghost use Rattle.open_laws.specs.Described.{target_in};
ghost use Rattle.open_laws.specs.Owned.{HasItsOwners};
ghost use Rattle.open_laws.specs.Placed.{Numbers};
ghost use Rattle.posix_defs.specs.Files.State.{Files};
ghost use Rattle.posix_defs.specs.Process.{is_alive};
ghost use Rattle.posix_defs.specs.World.{World};
ghost use Rattle.proc_numbers.specs.Having.{AreListed, HaveOpen};
ghost use Rattle.proc_table.specs.Table.{IsPlaced};
ghost use Rattle.store_objects.specs.Standing.{StandsFor};
ghost use Rattle.waking_laws.specs.Waking.{is_apart, meet, target_at};
ghost use Rattle.call_run.specs.Touching.{IsOpenOn, MeetsNone, meet_in};

use crate::turns::waits_for;
use kabi_types::{PollEntry, Script};
use kheap_slabs::Target;
use proc_numbers::opened;
use proc_table::Place;
use prog_ctl::Awaited;
use store_objects::Objects;

/// Whether to move bytes of the one may change what is told of the other: both are the same pipe, or they are sockets.
fn meet(one: Target, other: Target) -> bool
    ensures { result ≡ meet_in one other }
{
    match (one, other) {
        (Target::Pipe(key), Target::Pipe(pipe)) => key == pipe,
        (Target::Sock(_), Target::Sock(_)) => true,
        _ => false,
    }
}

/// Whether a number of a process is open on what to move bytes of this may change.
fn is_near(objects: &Objects, target: Target, who: Place, fd: i64) -> bool
    requires listed { AreListed objects.now.heap objects.now.procs }
    requires owners { HasItsOwners objects.now.heap [] }
    requires there { IsPlaced objects.now.procs who }
    requires held { IsOpenOn objects.now.heap target }
    ensures { (numbers : Numbers) (files : Files) → HaveOpen numbers objects.now.heap objects.now.procs files → result ≡ false
        → meet (Some (target_in numbers target)) (target_at files who.pid fd) ≡ false }
{
    match opened(&objects.heap, &objects.procs, who, fd).found {
        Some(found) => meet(target, found.desc.target),
        None => false,
    }
}

/// Whether one of these entries is of such a number.
fn some_near(objects: &Objects, target: Target, who: Place, entries: &[PollEntry]) -> bool
    requires listed { AreListed objects.now.heap objects.now.procs }
    requires owners { HasItsOwners objects.now.heap [] }
    requires there { IsPlaced objects.now.procs who }
    requires held { IsOpenOn objects.now.heap target }
    ensures { (numbers : Numbers) (files : Files) → HaveOpen numbers objects.now.heap objects.now.procs files → result ≡ false
        → MeetsNone files who.pid (Some (target_in numbers target)) entries.now }
{
    for entry in entries {
        if is_near(objects, target, who, entry.fd) {
            return true;
        }
    }
    false
}

/// Where a process stands that is there.
fn place_there(objects: &Objects, pid: u32) -> Place
    requires { (world : World) × (script : Script) × StandsFor script objects.now world × (is_alive world.plain.table pid ≡ true) }
    ensures pid { result.pid ≡ pid }
    ensures placed { IsPlaced objects.now.procs result }
{
    let key = objects.key_there(pid);
    Place { pid, key }
}

/// Whether a process's next call waits for nothing that has to do with what a number of another is open on. Where it answers false it may
/// wait for that, or for another socket.
pub fn is_apart(script: &Script, objects: &Objects, who: u32, pid: u32, fd: i64) -> bool
    requires { (world : World) × StandsFor script.now objects.now world × (is_alive world.plain.table who ≡ true) × (is_alive world.plain.table pid ≡ true) }
    ensures { (world : World) → StandsFor script.now objects.now world → is_alive world.plain.table who ≡ true → result ≡ true
        → is_apart script.now world.plain who pid fd ≡ true }
{
    let moved = opened(&objects.heap, &objects.procs, place_there(objects, pid), fd);
    let Some(found) = moved.found else {
        return true;
    };
    let target = found.desc.target;
    let at = place_there(objects, who);
    match waits_for(script, objects, who) {
        Some(Awaited::Bytes { fd, .. }) => !is_near(objects, target, at, fd),
        Some(Awaited::Room { fd, .. }) => !is_near(objects, target, at, fd),
        Some(Awaited::Peer { fd }) => !is_near(objects, target, at, fd),
        Some(Awaited::Events { entries, .. }) => {
            !some_near(objects, target, at, entries.items())
        }
        Some(Awaited::Child { .. } | Awaited::OtherSide | Awaited::Lock { .. }) | None => true,
    }
}
