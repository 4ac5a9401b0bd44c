//! A case for each call. A turn of each stands to the plain machine's definition of its call.

ghost use Rattle.std.specs.Prelude.{◌≡◌, ◌+◌, ◌≤◌, None, false, pos, true};
ghost use Rattle.std.specs.Result.{result_err};
ghost use Rattle.file_calls.specs.Bytes.{ReadsCached};
ghost use Rattle.kabi_types.specs.Arguments.{argument_fault};
ghost use Rattle.kabi_types.specs.declared.calls.Call.{Call};
ghost use Rattle.kabi_types.specs.declared.replies.Reply.TheVariants.{Val};
ghost use Rattle.kheap_slabs.specs.Heap.{live_bytes};
ghost use Rattle.kheap_slabs.specs.Paid.{TakesNothing};
ghost use Rattle.lock_calls.specs.Waiting.{AreKnown};
ghost use Rattle.posix_defs.specs.Machine.{answer_to, blocks, machine};
ghost use Rattle.posix_defs.specs.Needs.{bound, need_of, slack};
ghost use Rattle.posix_defs.specs.Process.{is_alive};
ghost use Rattle.posix_defs.specs.Sizes.{reserve};
ghost use Rattle.posix_defs.specs.World.{World};
ghost use Rattle.posix_defs.specs.declared.turner.Turned.TheVariants as turned;
ghost use Rattle.prog_ctl.specs.Waits.{wait_of};
ghost use Rattle.proc_table.specs.Table.{IsPlaced};
ghost use Rattle.store_objects.specs.Objects.{AreKept, IsCaller, Runs};
ghost use Rattle.store_objects.specs.Standing.{IsSound, StandsFor, answered_in};
ghost use Rattle.store_objects.specs.Uses.{UsesAtMost};
ghost use Rattle.store_objects.specs.Walking.{Serves};
ghost use Rattle.store_objects.specs.declared.purses.Target.TheVariants.{File, Queue};
ghost use Rattle.call_run.specs.Families.{HasDone, HasHalf, HasPaths};

use crate::closing::{close, dup2};
use crate::numbers::{named_by, target_of};
use file_calls::{
    bind, connect, exec, fstat, ftruncate, lseek, open, open_would_block, pread, pwrite,
    read as read_file, readdir, write as write_file,
};
use kabi_types::{Call, Errno, Memory, Need, Reply, Script, may_wait};
use lock_calls::{Waits, getlk, lock_would_block, setlk, setlkw};
use path_calls::{chdir, link, mkdir, mkfifo, rename, rmdir, stat, unlink};
use posix_defs::Turned;
use proc_files::{FileBuffer, MOST_MOVED};
use proc_table::Place;
use process_calls::{
    break_off, exit, fork, load, mmap, munmap, signal, signal_process, store, wait, would_sleep,
};
use prog_ctl::Awaited;
use queue_calls::{
    Buffer, CAPACITY, accept, accept_would_block, dup, fcntl, listen, pipe, poll, poll_would_block,
    read as read_queue, read_would_block, shutdown, socket, socketpair, write as write_queue,
    write_breaks, write_would_block,
};
use std::alloc::Global;
use store_objects::{Caller, Objects, Target, go_on, purse_for};

/// What calls move their bytes through.
#[derive(Drop)]
pub struct Buffers {
    queue: Box<Buffer>,
    file: Box<FileBuffer>,
}

impl Buffers {
    /// Room for the bytes of a pipe or a socket, and for those of a file, that one call moves. `Memory` comes where the host has no
    /// memory left, and nothing else.
    pub fn new(alloc: Global) -> Result<Buffers, Memory> {
        let file = Box::new(alloc, [0; MOST_MOVED])?;
        let queue = Box::new(alloc, [0; CAPACITY])?;
        Ok(Buffers { queue, file })
    }
}

/// Tells the caller a number.
fn tell(script: &Script, objects: &mut Objects, caller: &Caller, value: u32) -> Turned
    requires kept { AreKept script.now objects.old }
    requires runs { Runs objects.old caller.now.place.pid caller.now.control }
    requires placed { IsPlaced objects.old.procs caller.now.place }
    ensures kept { AreKept script.now objects.new }
    ensures told { result ≡ turned.Done (Val (pos value)) }
    ensures takes { TakesNothing objects.old.heap objects.new.heap }
    ensures goes { (world : World) → StandsFor script.now objects.old world
        → StandsFor script.now objects.new (answered_in script.now world caller.now.place.pid (Val (pos value))) }
{
    go_on(script, objects, caller, Reply::Val(i64::from(value)))
}

/// Runs a call whose operands are right: the table of calls, a case for each, in their order. What the call makes and caches is paid
/// from one purse; a call with which descriptions may go has besides what is kept back for closings.
fn run_right(
    script: &Script,
    objects: &mut Objects,
    buffers: &mut Buffers,
    caller: &Caller,
    call: &Call,
    need: Need,
) -> Turned
    requires kept { AreKept script.now objects.old }
    requires stands { (world : World) × StandsFor script.now objects.old world × IsSound world.plain }
    requires half { (world : World) × StandsFor script.now objects.old world × HasHalf world.plain.files caller.now.place.pid call.now caller.now.control.done }
    requires caller { IsCaller objects.old caller.now.place.pid caller.now }
    requires runs { Runs objects.old caller.now.place.pid caller.now.control }
    requires placed { IsPlaced objects.old.procs caller.now.place }
    requires right { argument_fault call.now ≡ None }
    requires paths { HasPaths call.now }
    requires so_far { HasDone call.now caller.now.control.done }
    requires needed { need ≡ need_of call.now }
    requires room { live_bytes objects.old.heap + bound call.now + reserve ≤ objects.old.heap.heap }
    ensures kept { AreKept script.now objects.new }
    ensures uses { UsesAtMost objects.old.heap objects.new.heap (bound call.now) (slack call.now) }
    ensures does { Serves script.now objects.old caller.now.place.pid call.now (λ plain. answer_to script.now plain caller.now.place.pid call.now) result objects.new }
    ensures cached { ReadsCached objects.old caller.now.place.pid call.now result objects.new }
{
    let named = named_by(objects, caller.place, call);
    let on = &named;
    let target = target_of(call, on);
    let mut paid = purse_for(need, target);
    let purse = &mut paid;
    let file = &mut buffers.file;
    match call {
        Call::Getpid => tell(script, objects, caller, caller.place.pid),
        Call::Getppid => tell(script, objects, caller, caller.parent),
        Call::SchedYield => tell(script, objects, caller, 0),
        Call::Fork => fork(script, objects, purse, caller),
        Call::Exec { path } => exec(script, objects, purse, caller, path.items()),
        Call::Exit { status } => exit(objects, caller.place, *status),
        Call::Waitpid { pid, options } => wait(script, objects, caller, *pid, *options),
        Call::Kill { pid, signal } => signal_process(script, objects, caller, *pid, *signal),
        Call::Mmap { length } => mmap(script, objects, purse, caller, *length),
        Call::Munmap { addr, length } => munmap(script, objects, caller, *addr, *length),
        Call::Store { addr, bytes } => store(script, objects, purse, caller, *addr, bytes),
        Call::Load { addr, n } => load(script, objects, caller, *addr, *n),
        Call::OpenFile { path, flags } => open(
            script,
            objects,
            purse,
            caller,
            path.items(),
            *flags,
        ),
        Call::Close { .. } => close(script, objects, caller, on),
        Call::Dup { .. } => dup(script, objects, purse, caller, on),
        Call::Dup2 { to, .. } => dup2(script, objects, purse, caller, on, *to),
        Call::Fcntl { cmd, arg, .. } => fcntl(script, objects, purse, caller, on, *cmd, *arg),
        Call::Read { addr, n, .. } => match target {
            Target::File => read_file(script, objects, purse, file, caller, on, *addr, *n),
            Target::Queue => {
                let queue = &mut buffers.queue;
                read_queue(script, objects, purse, queue, caller, on, *addr, *n)
            }
        },
        Call::Write { addr, n, done, .. } => match target {
            Target::File => write_file(script, objects, purse, file, caller, on, *addr, *n),
            Target::Queue => {
                if write_breaks(objects, caller, on, *addr, *n, *done) {
                    return break_off(objects, caller.place);
                }
                let queue = &mut buffers.queue;
                write_queue(script, objects, purse, queue, caller, on, *addr, *n, *done)
            }
        },
        Call::Pread { addr, n, at, .. } => pread(
            script, objects, purse, file, caller, on, *addr, *n, *at,
        ),
        Call::Pwrite { addr, n, at, .. } => pwrite(
            script, objects, purse, file, caller, on, *addr, *n, *at,
        ),
        Call::Lseek { offset, whence, .. } => lseek(script, objects, caller, on, *offset, *whence),
        Call::Readdir { addr, n, .. } => readdir(
            script, objects, purse, file, caller, on, *addr, *n,
        ),
        Call::Ftruncate { length, .. } => ftruncate(script, objects, purse, caller, on, *length),
        Call::Fstat { .. } => fstat(script, objects, caller, on),
        Call::Stat { path } => stat(script, objects, purse, caller, path.items()),
        Call::Chdir { path } => chdir(script, objects, purse, caller, path.items()),
        Call::Mkdir { path } => mkdir(script, objects, purse, caller, path.items()),
        Call::Rmdir { path } => rmdir(script, objects, purse, caller, path.items()),
        Call::Unlink { path } => unlink(script, objects, purse, caller, path.items()),
        Call::Link { old, new } => link(script, objects, purse, caller, old.items(), new.items()),
        Call::Rename { old, new } => rename(
            script,
            objects,
            purse,
            caller,
            old.items(),
            new.items(),
        ),
        Call::Pipe => pipe(script, objects, purse, caller),
        Call::Socket => socket(script, objects, purse, caller),
        Call::Socketpair => socketpair(script, objects, purse, caller),
        Call::Bind { path, .. } => bind(script, objects, purse, caller, on, path.items()),
        Call::Listen { .. } => listen(script, objects, caller, on),
        Call::Connect { path, .. } => connect(script, objects, purse, caller, on, path.items()),
        Call::Accept { .. } => accept(script, objects, purse, caller, on),
        Call::Shutdown { how, .. } => shutdown(script, objects, caller, on, *how),
        Call::Poll { timeout, entries } => poll(script, objects, caller, *timeout, entries),
        Call::Signal {
            signal: which,
            disposition,
        } => signal(script, objects, caller, *which, *disposition),
        Call::Mkfifo { path } => mkfifo(script, objects, purse, caller, path.items()),
        Call::Setlk {
            kind,
            start,
            length,
            ..
        } => setlk(script, objects, purse, caller, on, *kind, *start, *length),
        Call::Setlkw {
            kind,
            start,
            length,
            ..
        } => setlkw(script, objects, purse, caller, on, *kind, *start, *length),
        Call::Getlk {
            kind,
            start,
            length,
            ..
        } => getlk(script, objects, caller, on, *kind, *start, *length),
    }
}

/// What is wrong with a call, if anything is: a call that may fill names has its operands right, as its need tells, and isn't checked
/// once more.
fn checked(call: &Call, need: &Need) -> Result<(), Errno>
    requires { need.now ≡ need_of call.now }
    ensures { result_err result ≡ argument_fault call.now }
{
    if need.name != 0 {
        return Ok(());
    }
    call.checked()
}

/// Runs a call of a process that is alive, at which that process stands. A wrong operand is told before anything else is looked at.
pub fn run(
    script: &Script,
    objects: &mut Objects,
    buffers: &mut Buffers,
    caller: &Caller,
    call: &Call,
    need: Need,
) -> Turned
    requires stands { (world : World) × StandsFor script.now objects.old world × IsSound world.plain × HasHalf world.plain.files caller.now.place.pid call.now caller.now.control.done }
    requires caller { IsCaller objects.old caller.now.place.pid caller.now }
    requires paths { HasPaths call.now }
    requires so_far { HasDone call.now caller.now.control.done }
    requires needed { need ≡ need_of call.now }
    requires room { live_bytes objects.old.heap + bound call.now + reserve ≤ objects.old.heap.heap }
    ensures kept { AreKept script.now objects.new }
    ensures uses { UsesAtMost objects.old.heap objects.new.heap (bound call.now) (slack call.now) }
    ensures does { Serves script.now objects.old caller.now.place.pid call.now (λ plain. machine script.now plain caller.now.place.pid call.now) result objects.new }
    ensures cached { ReadsCached objects.old caller.now.place.pid call.now result objects.new }
{
    match checked(call, &need) {
        Ok(()) => run_right(script, objects, buffers, caller, call, need),
        Err(errno) => go_on(script, objects, caller, Reply::Fail(errno)),
    }
}

/// Whether a live process's next call would block now. Of the call it asks only for what that waits for: a call that waits for nothing
/// never blocks. Who waits for whom is found where that is asked and isn't known yet, and kept.
pub fn would_block(
    script: &Script,
    objects: &Objects,
    waits: &mut Option<Waits>,
    pid: u32,
    wait: Option<Awaited>,
) -> bool
    requires stands { (world : World) × StandsFor script.now objects.now world × (is_alive world.plain.table pid ≡ true) }
    requires known { AreKnown script.now objects.now waits.old }
    ensures known { AreKnown script.now objects.now waits.new }
    ensures blocks { (world : World) → StandsFor script.now objects.now world → IsSound world.plain
        → (call : Call) → wait ≡ wait_of call → result ≡ blocks (machine script.now world.plain pid call) }
{
    let Some(wait) = wait else {
        return false;
    };
    let key = objects.key_there(pid);
    let place = Place { pid, key };
    match wait {
        Awaited::Child {
            pid: child,
            options,
        } => may_wait(child, options) && would_sleep(objects, pid, child, options),
        Awaited::Bytes { fd, addr, n } => read_would_block(objects, place, fd, addr, n),
        Awaited::Room { fd, addr, n, done } => {
            write_would_block(objects, place, fd, addr, n, done)
        }
        Awaited::Peer { fd } => accept_would_block(objects, place, fd),
        Awaited::Events { timeout, entries } => {
            poll_would_block(objects, place, timeout, &entries)
        }
        Awaited::OtherSide => open_would_block(objects, place),
        Awaited::Lock {
            fd,
            kind,
            start,
            length,
        } => lock_would_block(script, objects, waits, place, fd, kind, start, length),
    }
}
