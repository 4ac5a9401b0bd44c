//! A process starts a program from a file: `exec`.

ghost use Rattle.std.specs.Prelude.{◌≡◌, ◌+◌, ◌<◌, ◌≤◌, None, length, pos};
ghost use Rattle.kabi_types.specs.Arguments.{argument_fault};
ghost use Rattle.kabi_types.specs.declared.calls.Call.{Call};
ghost use Rattle.kabi_types.specs.declared.scripts.Control.{Control};
ghost use Rattle.kabi_types.specs.declared.scripts.Script.{Script};
ghost use Rattle.kabi_types.specs.declared.replies.Reply.TheVariants as reply;
ghost use Rattle.kheap_slabs.specs.Heap.{live_bytes};
ghost use Rattle.kheap_slabs.specs.Paid.{TakesNothing};
ghost use Rattle.memfs_ops.specs.FileTree.{MayWalk};
ghost use Rattle.posix_defs.specs.Calls.Starting.{exec};
ghost use Rattle.posix_defs.specs.Needs.{bound, need_of};
ghost use Rattle.posix_defs.specs.Sizes.{reserve};
ghost use Rattle.posix_defs.specs.ValidScript.{IsValid};
ghost use Rattle.posix_defs.specs.World.{World};
ghost use Rattle.posix_defs.specs.declared.turner.Turned.TheVariants as turned;
ghost use Rattle.proc_table.specs.Procs.{IsAlive};
ghost use Rattle.proc_table.specs.Table.{IsPlaced};
ghost use Rattle.store_objects.specs.Objects.{AreKept, Runs, procs_of};
ghost use Rattle.store_objects.specs.Standing.{IsSound, StandsFor};
ghost use Rattle.store_objects.specs.Uses.{UsesAtMost};
ghost use Rattle.store_objects.specs.Walking.{Serves};
ghost use Rattle.file_calls.specs.Starting.{CachesShed, begun_in, forgotten_in, shed_in, started_in};

use kabi_types::{Reply, Script};
use kheap_slabs::Purse;
use posix_defs::Turned;
use proc_files::{close_at_exec, program_for};
use proc_table::Place;
use store_objects::{Caller, Objects, go_on, kept_back};

/// Has the caller start the program whose line (`#!`, its name and a newline) the file begins with to which a path leads: from then on
/// it has nothing in memory, and has closed what an exec closes (FD_CLOEXEC); the other descriptors and its registers stay, and the
/// program gets no reply.
///
/// EACCES where the path leads to a directory or a socket's name, ENOEXEC where the file names no program, else the faults of the
/// walk; the old program goes on then, and has what it had.
///
/// What the closings ask for of the heap meanwhile is kept back for them, and is given back.
///
/// <https://pubs.opengroup.org/onlinepubs/9699919799/functions/exec.html>
#[inline(never)]
pub fn exec(
    script: &Script,
    objects: &mut Objects,
    purse: &mut Purse,
    caller: &Caller,
    path: &[u8],
) -> Turned
    requires stands { (world : World) × StandsFor script.now objects.old world × IsSound world.plain }
    requires runs { Runs objects.old caller.now.place.pid caller.now.control }
    requires placed { IsPlaced objects.old.procs caller.now.place }
    requires right { argument_fault (Call.Exec path.now) ≡ None }
    requires may { MayWalk objects.old.heap purse.old }
    requires needed { purse.old.left ≡ need_of (Call.Exec path.now) }
    requires room { live_bytes objects.old.heap + bound (Call.Exec path.now) + reserve ≤ objects.old.heap.heap }
    ensures kept { AreKept script.now objects.new }
    ensures uses { UsesAtMost objects.old.heap objects.new.heap (bound (Call.Exec path.now)) reserve }
    ensures does { Serves script.now objects.old caller.now.place.pid (Call.Exec path.now) (λ plain. exec script.now plain caller.now.place.pid path.now) result objects.new }
{
    objects.heap_is_well_formed();
    let found = program_for(
        &mut objects.heap,
        purse,
        &objects.procs,
        &mut objects.tree,
        caller.place,
        path,
        script,
    );
    match found {
        Ok(program) => start(script, objects, caller, program),
        Err(errno) => go_on(script, objects, caller, Reply::Fail(errno)),
    }
}

// A process that stands at this control starts a program.
fn start(script: &Script, objects: &mut Objects, caller: &Caller, program: u32) -> Turned
    requires stands { (world : World) × StandsFor script.now objects.old world × IsSound world.plain }
    requires runs { Runs objects.old caller.now.place.pid caller.now.control }
    requires placed { IsPlaced objects.old.procs caller.now.place }
    requires room { live_bytes objects.old.heap + reserve ≤ objects.old.heap.heap }
    requires there { program < length script.now.programs }
    ensures kept { AreKept script.now objects.new }
    ensures uses { UsesAtMost objects.old.heap objects.new.heap 0 reserve }
    ensures told { result ≡ turned.Done (reply.Val (pos 0)) }
    ensures shed { CachesShed objects.old objects.new }
    ensures starts { (world : World) → StandsFor script.now objects.old world → IsSound world.plain
        → StandsFor script.now objects.new (started_in script.now objects.new.tree world caller.now.place.pid program) }
{
    forget_memory(objects, caller.place.pid);
    shed(script, objects, caller.place);
    begin(script, objects, caller, program)
}

// A process has nothing in memory any more.
fn forget_memory(objects: &mut Objects, pid: u32)
    requires kept { (script : Script) × AreKept script objects.old }
    requires alive { IsAlive (procs_of objects.old) pid }
    ensures kept { (script : Script) → AreKept script objects.old → AreKept script objects.new }
    ensures runs { (control : Control) → Runs objects.old pid control → Runs objects.new pid control }
    ensures procs { objects.new.procs ≡ objects.old.procs }
    ensures forgotten { (script : Script) (world : World) → StandsFor script objects.old world → StandsFor script objects.new (forgotten_in world pid) }
    ensures tree { objects.new.tree ≡ objects.old.tree }
    ensures takes { TakesNothing objects.old.heap objects.new.heap }
{
    objects.procs.clear_memory(&mut objects.heap, pid);
}

// A process closes what an exec closes.
fn shed(script: &Script, objects: &mut Objects, place: Place)
    requires stands { (world : World) × StandsFor script.now objects.old world × IsSound world.plain }
    requires alive { IsAlive (procs_of objects.old) place.pid }
    requires placed { IsPlaced objects.old.procs place }
    requires room { live_bytes objects.old.heap + reserve ≤ objects.old.heap.heap }
    ensures kept { AreKept script.now objects.new }
    ensures runs { (control : Control) → Runs objects.old place.pid control → Runs objects.new place.pid control }
    ensures procs { objects.new.procs ≡ objects.old.procs }
    ensures uses { UsesAtMost objects.old.heap objects.new.heap 0 reserve }
    ensures shed { CachesShed objects.old objects.new }
    ensures closed { (world : World) → StandsFor script.now objects.old world → IsSound world.plain
        → StandsFor script.now objects.new (shed_in objects.new.tree world place.pid) }
{
    objects.heap_is_well_formed();
    let mut purse = kept_back();
    close_at_exec(
        &mut objects.heap,
        &mut purse,
        &objects.procs,
        &mut objects.tree,
        &mut objects.names,
        &mut objects.fifos,
        &mut objects.locks,
        place,
    );
}

// A process that stood at this control is at the beginning of a program.
fn begin(script: &Script, objects: &mut Objects, caller: &Caller, program: u32) -> Turned
    requires kept { AreKept script.now objects.old }
    requires valid { IsValid script.now }
    requires runs { Runs objects.old caller.now.place.pid caller.now.control }
    requires placed { IsPlaced objects.old.procs caller.now.place }
    requires there { program < length script.now.programs }
    ensures kept { AreKept script.now objects.new }
    ensures told { result ≡ turned.Done (reply.Val (pos 0)) }
    ensures takes { TakesNothing objects.old.heap objects.new.heap }
    ensures tree { objects.new.tree ≡ objects.old.tree }
    ensures begins { (world : World) → StandsFor script.now objects.old world → StandsFor script.now objects.new (begun_in script.now world caller.now.place.pid program) }
{
    let mut beginning = caller.control;
    prog_ctl::restart(&mut beginning, program);
    prog_ctl::go_to_call(script, &mut beginning);
    objects.move_on(caller.place, beginning);
    Turned::Done(Reply::Val(0))
}
