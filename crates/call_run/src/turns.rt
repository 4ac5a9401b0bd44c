//! Turns over a script and its objects, as the core asks for them.

ghost use Rattle.std.specs.Prelude.{◌≡◌, ◌≢◌, ◌+◌, ◌%◌, ◌^◌, ◌≤◌, option_copied, true, false};
ghost use Rattle.file_calls.specs.Bytes.{ReadsCached};
ghost use Rattle.kabi_types.specs.declared.scripts.Script.{Script};
ghost use Rattle.posix_defs.specs.Needs.{bound, need_of, slack};
ghost use Rattle.posix_defs.specs.Plain.{call_of};
ghost use Rattle.posix_defs.specs.Process.{is_alive};
ghost use Rattle.posix_defs.specs.Relief.{Evicts, Kills, refused_in};
ghost use Rattle.posix_defs.specs.Sizes.{reserve};
ghost use Rattle.posix_defs.specs.Turn.{TurnsTo};
ghost use Rattle.posix_defs.specs.World.{World, can_evict, live_of};
ghost use Rattle.prog_ctl.specs.Waits.{asked_for, wait_of};
ghost use Rattle.proc_table.specs.Procs.{proc_of};
ghost use Rattle.proc_table.specs.Table.{AreStored};
ghost use Rattle.store_objects.specs.Objects.{AreKept, procs_of};
ghost use Rattle.store_objects.specs.Standing.{StandsFor};
ghost use Rattle.store_objects.specs.Uses.{UsesAtMost};
ghost use Rattle.call_run.specs.Stores.{IsAtRest, IsStoreOf};

use crate::calls::{self, Buffers};
use kabi_types::{Cached, Call, Errno, Need, Reply, Script};
use kheap_slabs::Proc;
use posix_defs::{Asked, Turned};
use proc_table::Place;
use process_calls::{INIT, SIGKILL, end};
use prog_ctl::Awaited;
use store_objects::{Objects, go_on};

/// The process of that pid; None exactly where none is there. It stands by itself: so who makes a process's call is small enough to be one
/// function with who has it run, where the call stays in one place.
#[inline(never)]
fn proc_at(objects: &Objects, pid: u32) -> Option<&Proc>
    requires { AreStored objects.now.heap.procs objects.now.procs.listed }
    ensures { option_copied result ≡ proc_of (procs_of objects.now) pid }
{
    objects.proc(pid)
}

/// The call that a live process makes next.
pub fn next(script: &Script, objects: &Objects, pid: u32) -> Call
    requires { (world : World) × StandsFor script.now objects.now world × (is_alive world.plain.table pid ≡ true) }
    ensures { (world : World) → StandsFor script.now objects.now world → is_alive world.plain.table pid ≡ true
        → result ≡ call_of script.now world.plain pid }
{
    let Some(proc) = proc_at(objects, pid) else {
        unreachable!();
    };
    prog_ctl::call_here(script, &proc.control)
}

/// What a live process asks for with its next call.
pub fn asks(script: &Script, objects: &Objects, pid: u32) -> Asked
    requires { (world : World) × StandsFor script.now objects.now world × (is_alive world.plain.table pid ≡ true) }
    ensures { (world : World) → StandsFor script.now objects.now world → is_alive world.plain.table pid ≡ true
        → result ≡ asked_for (call_of script.now world.plain pid) }
{
    let Some(proc) = objects.proc(pid) else {
        unreachable!();
    };
    prog_ctl::asked_here(script, &proc.control)
}

/// What a live process's next call waits for; None where that call never blocks.
pub fn waits_for(script: &Script, objects: &Objects, pid: u32) -> Option<Awaited>
    requires { (world : World) × StandsFor script.now objects.now world × (is_alive world.plain.table pid ≡ true) }
    ensures { (world : World) → StandsFor script.now objects.now world → is_alive world.plain.table pid ≡ true
        → result ≡ wait_of (call_of script.now world.plain pid) }
{
    let Some(proc) = objects.proc(pid) else {
        unreachable!();
    };
    prog_ctl::wait_here(script, &proc.control)
}

/// A turn of a process's own next call, where it is alive; `Gone` where it has ended. The heap is marked behind it, so what
/// it keeps of before the mark is the most of the whole call.
pub fn turn(
    script: &Script,
    objects: &mut Objects,
    buffers: &mut Buffers,
    pid: u32,
    call: &Call,
    need: Need,
) -> Turned
    requires needed { need ≡ need_of call.now }
    requires may { (world : World) × IsStoreOf script.now objects.old world
        × (is_alive world.plain.table pid ≡ true → call.now ≡ call_of script.now world.plain pid)
        × (live_of world + bound call.now + reserve ≤ script.now.heap) }
    requires rests { IsAtRest objects.old }
    ensures kept { AreKept script.now objects.new }
    ensures turned { (world : World) → IsStoreOf script.now objects.old world
        → (after : World) × IsStoreOf script.now objects.new after × TurnsTo script.now world pid call.now result after }
    ensures cached { ReadsCached objects.old pid call.now result objects.new }
    ensures marked { objects.new.heap.marks ≡ (objects.old.heap.marks + 1) % 2 ^ 64 }
    ensures since { (world : World) → IsStoreOf script.now objects.old world → live_of world ≤ objects.new.heap.last_high }
    ensures high { (world : World) → IsStoreOf script.now objects.old world → objects.new.heap.last_high ≤ live_of world + bound call.now + slack call.now }
    ensures rests { IsAtRest objects.new }
{
    objects.heap_is_well_formed();
    let turned = run_own(script, objects, buffers, pid, call, need);
    objects.heap.mark();
    turned
}

/// The same without a mark.
fn run_own(
    script: &Script,
    objects: &mut Objects,
    buffers: &mut Buffers,
    pid: u32,
    call: &Call,
    need: Need,
) -> Turned
    requires needed { need ≡ need_of call.now }
    requires may { (world : World) × IsStoreOf script.now objects.old world
        × (is_alive world.plain.table pid ≡ true → call.now ≡ call_of script.now world.plain pid)
        × (live_of world + bound call.now + reserve ≤ script.now.heap) }
    ensures kept { AreKept script.now objects.new }
    ensures turned { (world : World) → IsStoreOf script.now objects.old world
        → (after : World) × IsStoreOf script.now objects.new after × TurnsTo script.now world pid call.now result after }
    ensures cached { ReadsCached objects.old pid call.now result objects.new }
    ensures uses { UsesAtMost objects.old.heap objects.new.heap (bound call.now) (slack call.now) }
{
    objects.heap_is_well_formed();
    let Some(caller) = objects.caller(pid) else {
        return Turned::Gone;
    };
    let turned = calls::run(script, objects, buffers, &caller, call, need);
    objects.heap_is_well_formed();
    turned
}

/// Answers a live process's next call ENOMEM.
pub fn refuse(script: &Script, objects: &mut Objects, pid: u32)
    requires alive { (world : World) × IsStoreOf script.now objects.old world × (is_alive world.plain.table pid ≡ true) }
    requires rests { IsAtRest objects.old }
    ensures kept { AreKept script.now objects.new }
    ensures refused { (world : World) → IsStoreOf script.now objects.old world → is_alive world.plain.table pid ≡ true
        → IsStoreOf script.now objects.new (refused_in script.now world pid) }
    ensures marked { objects.new.heap.marks ≡ (objects.old.heap.marks + 1) % 2 ^ 64 }
    ensures since { (world : World) → IsStoreOf script.now objects.old world → live_of world ≤ objects.new.heap.last_high }
    ensures high { (world : World) → IsStoreOf script.now objects.old world → objects.new.heap.last_high ≤ live_of world }
    ensures rests { IsAtRest objects.new }
{
    objects.heap_is_well_formed();
    let Some(caller) = objects.caller(pid) else {
        unreachable!();
    };
    let reply = Reply::Fail(Errno::ENOMEM);
    let _ = go_on(script, objects, &caller, reply);
    objects.heap.mark();
}

/// Ends a live process other than the first; where that isn't one, nothing changes.
pub fn kill(objects: &mut Objects, pid: u32)
    requires stands { (script : Script) × (world : World) × IsStoreOf script objects.old world }
    requires rests { IsAtRest objects.old }
    ensures kept { (script : Script) (world : World) → IsStoreOf script objects.old world → AreKept script objects.new }
    ensures killed { (script : Script) (world : World) → IsStoreOf script objects.old world → is_alive world.plain.table pid ≡ true → pid ≢ 1
        → (after : World) × IsStoreOf script objects.new after × Kills world pid after }
    ensures gone { (script : Script) (world : World) → IsStoreOf script objects.old world → is_alive world.plain.table pid ≡ false
        → IsStoreOf script objects.new world }
    ensures first { (script : Script) (world : World) → IsStoreOf script objects.old world → pid ≡ 1 → IsStoreOf script objects.new world }
    ensures marked { objects.new.heap.marks ≡ (objects.old.heap.marks + 1) % 2 ^ 64 }
    ensures since { (script : Script) (world : World) → IsStoreOf script objects.old world → live_of world ≤ objects.new.heap.last_high }
    ensures high { (script : Script) (world : World) → IsStoreOf script objects.old world → objects.new.heap.last_high ≤ live_of world + reserve }
    ensures rests { IsAtRest objects.new }
{
    objects.heap_is_well_formed();
    end_other(objects, pid);
    objects.heap.mark();
}

/// The same without a mark.
fn end_other(objects: &mut Objects, pid: u32)
    requires { (script : Script) × (world : World) × IsStoreOf script objects.old world }
    ensures kept { (script : Script) (world : World) → IsStoreOf script objects.old world → AreKept script objects.new }
    ensures killed { (script : Script) (world : World) → IsStoreOf script objects.old world → is_alive world.plain.table pid ≡ true → pid ≢ 1
        → (after : World) × IsStoreOf script objects.new after × Kills world pid after }
    ensures gone { (script : Script) (world : World) → IsStoreOf script objects.old world → is_alive world.plain.table pid ≡ false
        → IsStoreOf script objects.new world }
    ensures first { (script : Script) (world : World) → IsStoreOf script objects.old world → pid ≡ 1 → IsStoreOf script objects.new world }
    ensures uses { UsesAtMost objects.old.heap objects.new.heap 0 reserve }
{
    objects.heap_is_well_formed();
    if pid == INIT || !objects.runs(pid) {
        return;
    }
    let key = objects.key_there(pid);
    let place = Place { pid, key };
    end(objects, place, SIGKILL);
    objects.heap_is_well_formed();
}

/// Of what a cache keeps and isn't pinned the object that was used longest ago goes; where there is none nothing changes.
pub fn evict(objects: &mut Objects, what: Cached)
    requires stands { (script : Script) × (world : World) × IsStoreOf script objects.old world }
    requires rests { IsAtRest objects.old }
    ensures kept { (script : Script) → AreKept script objects.old → AreKept script objects.new }
    ensures evicted { (script : Script) (world : World) → IsStoreOf script objects.old world → can_evict world.plain world.kept what ≡ true
        → (after : World) × IsStoreOf script objects.new after × Evicts world what after }
    ensures same { (script : Script) (world : World) → IsStoreOf script objects.old world → can_evict world.plain world.kept what ≡ false
        → IsStoreOf script objects.new world }
    ensures marked { objects.new.heap.marks ≡ (objects.old.heap.marks + 1) % 2 ^ 64 }
    ensures since { (script : Script) (world : World) → IsStoreOf script objects.old world → live_of world ≤ objects.new.heap.last_high }
    ensures high { (script : Script) (world : World) → IsStoreOf script objects.old world → objects.new.heap.last_high ≤ live_of world }
    ensures rests { IsAtRest objects.new }
{
    objects.heap_is_well_formed();
    store_objects::evict(objects, what);
    objects.heap_is_well_formed();
    objects.heap.mark();
}
