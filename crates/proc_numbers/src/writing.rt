//! `write` to a pipe and to a socket.

ghost use Rattle.std.specs.Prelude.{◌≡◌, ◌+◌, ◌-◌, ◌<◌, ◌≤◌, None};
ghost use Rattle.kabi_types.specs.Arguments.{argument_fault, count_of, moved_fault};
ghost use Rattle.kabi_types.specs.declared.calls.Call.{Call};
ghost use Rattle.kabi_types.specs.declared.scripts.Script.{Script};
ghost use Rattle.kheap_slabs.specs.Owners.{OwnsItsObjects};
ghost use Rattle.kheap_slabs.specs.Paid.{CanPay, IsPaid};
ghost use Rattle.chunk_queue.specs.Chained.{PaysChunks};
ghost use Rattle.chunk_queue.specs.Moving.{moving_of};
ghost use Rattle.page_space.specs.Contents.{IsOwnedWith, StandsFor as IsMemory};
ghost use Rattle.page_space.specs.Entries.{IsMappedRange};
ghost use Rattle.open_laws.specs.Placed.{Numbers};
ghost use Rattle.pipe_ends.specs.Links.{KeepsLinks};
ghost use Rattle.posix_defs.specs.Account.{Account};
ghost use Rattle.posix_defs.specs.Calls.Opened.{opened_at};
ghost use Rattle.posix_defs.specs.Calls.Writing.{is_broken, write_ignoring};
ghost use Rattle.posix_defs.specs.Machine.{blocks};
ghost use Rattle.posix_defs.specs.Memory.{Memory, loaded};
ghost use Rattle.posix_defs.specs.Needs.{chunks_for};
ghost use Rattle.posix_defs.specs.Plain.{Plain};
ghost use Rattle.proc_table.specs.Procs.{IsAlive};
ghost use Rattle.proc_table.specs.Table.{IsPlaced, processes};
ghost use Rattle.proc_numbers.specs.Found.{IsOffNodes, IsOpened};
ghost use Rattle.proc_numbers.specs.PipeMoving.{UnlessMoves, moved_in, told_write};
ghost use Rattle.proc_numbers.specs.QueueEnds.{Behind, IsEndIn, LeavesBut, PutsIn, StandsBehind, write_of};
ghost use Rattle.proc_numbers.specs.Standing.{IsKept, Leads, StandsFor};

use crate::buffer::{Buffer, CAPACITY};
use crate::ends::QueueEnd;
use crate::lookups::Named;
use crate::spaces::{fetch, space_of, start_of};
use chunk_queue::Moved;
use kabi_types::{Errno, Reply};
use kheap_slabs::{KHeap, Purse};
use page_space::Space;
use posix_defs::Turned;
use proc_table::{Place, ProcTable};

/// The bytes of a write, from an address on, of which some were moved before.
#[derive(Clone, Copy)]
pub(crate) struct Written {
    /// Where they begin.
    pub start: u32,
    /// How many they are.
    pub n: u32,
    /// How many of them were moved before.
    pub done: u32,
}

impl Written {
    // How many are left.
    fn left(&self) -> u32
        ensures { result ≡ self.now.n - self.now.done }
    {
        self.n.saturating_sub(self.done)
    }

    // Where those that are left begin; none begin at 0.
    fn rest(&self) -> u32
        requires within { self.now.start + self.now.n ≤ 1048576 }
        ensures within { result + (self.now.n - self.now.done) ≤ 1048576 }
        ensures rest { self.now.done < self.now.n → result ≡ self.now.start + self.now.done }
    {
        if self.done < self.n {
            self.start + self.done
        } else {
            0
        }
    }
}

/// Writes n bytes of a process's memory to the pipe or the socket that a number is open on, of which so many were moved before. Up to
/// 512 go into a pipe whole or not at all; of more, and to a socket always, as many as there is room for, and the rest later: those
/// are a part.
///
/// EBADF where the number isn't open for writing, EFAULT where a page of the bytes isn't mapped, ENOTCONN of a socket that isn't
/// connected; EPIPE where nobody can read and EAGAIN where there is no room and the writer doesn't wait; a writer of whose bytes some
/// were moved is told their number in the place of these two (POSIX write).
pub fn write(
    heap: &mut KHeap,
    purse: &mut Purse,
    procs: &ProcTable,
    buffer: &mut Buffer,
    place: Place,
    on: &Named,
    addr: i64,
    n: i64,
    done: u32,
) -> Turned
    requires kept { IsKept heap.old procs.now }
    requires alive { IsAlive (processes heap.old procs.now) place.pid }
    requires there { IsPlaced procs.now place }
    requires opened { IsOpened heap.old procs.now place.pid on.now }
    requires off { IsOffNodes heap.old procs.now place.pid on.now.fd }
    requires right { argument_fault (Call.Write on.now.fd addr n done) ≡ None }
    requires room { CanPay heap.old purse.old }
    requires left { chunks_for (count_of n - done) ≤ purse.old.left.chunk }
    ensures leads { (script : Script) (numbers : Numbers) (plain : Plain) (account : Account)
        → StandsFor numbers heap.old procs.now plain account
        → Leads script numbers heap.new procs.now plain account place.pid (Call.Write on.now.fd addr n done)
        (write_ignoring script plain place.pid on.now.fd addr n done) result }
    ensures kept { IsKept heap.new procs.now }
    ensures beside { heap.new ≡ record heap.old {
      pipes = heap.new.pipes;
      chunks = heap.new.chunks;
      socks = heap.new.socks;
      high = heap.new.high;
    } }
    ensures links { KeepsLinks heap.old heap.new }
    ensures paid { IsPaid heap.old purse.old heap.new purse.new }
    ensures purse { PaysChunks purse.old purse.new }
{
    let Some(found) = on.writable() else {
        return Turned::Done(Reply::Fail(Errno::EBADF));
    };
    let Some(queue) = QueueEnd::of(found.desc.target) else {
        unreachable!();
    };
    let n = n.cast_unsigned() as u32;
    let start = start_of(addr, n);
    let space = space_of(heap, procs, place);
    if !space.mapped(heap, start, n) {
        return Turned::Done(Reply::Fail(Errno::EFAULT));
    }
    if n == 0 {
        return Turned::Done(Reply::Val(0));
    }
    if !queue.is_linked(heap) {
        return Turned::Done(Reply::Fail(Errno::ENOTCONN));
    }
    let written = Written { start, n, done };
    let nonblock = found.desc.flags.nonblock;
    put_from(heap, purse, &space, buffer, queue, nonblock, &written)
}

/// Whether a `write` would sleep, whatever its number is open on; one of a file never does.
pub fn write_waits(
    heap: &KHeap,
    procs: &ProcTable,
    place: Place,
    on: &Named,
    addr: i64,
    n: i64,
    done: u32,
) -> bool
    requires kept { IsKept heap.now procs.now }
    requires alive { IsAlive (processes heap.now procs.now) place.pid }
    requires there { IsPlaced procs.now place }
    requires opened { IsOpened heap.now procs.now place.pid on.now }
    requires right { argument_fault (Call.Write on.now.fd addr n done) ≡ None }
    ensures { (script : Script) (numbers : Numbers) (plain : Plain) (account : Account)
        → StandsFor numbers heap.now procs.now plain account
        → result ≡ blocks (write_ignoring script plain place.pid on.now.fd addr n done) }
{
    let Some(found) = on.writable() else {
        return false;
    };
    let Some(queue) = QueueEnd::of(found.desc.target) else {
        return false;
    };
    let n = n.cast_unsigned() as u32;
    let left = n.saturating_sub(done);
    // the queue mostly tells it, which is the cheaper question
    if !queue.put_waits(heap, found.desc.flags.nonblock, n, left) {
        return false;
    }
    let start = start_of(addr, n);
    let space = space_of(heap, procs, place);
    if !space.mapped(heap, start, n) {
        return false;
    }
    n != 0
}

/// Whether a `write` has nothing else to be told than that nobody reads it, whatever its number is open on; one of a file always has.
/// Its bytes are there, and the number is open for writing.
pub fn write_breaks(
    heap: &KHeap,
    procs: &ProcTable,
    place: Place,
    on: &Named,
    addr: i64,
    n: i64,
) -> bool
    requires kept { IsKept heap.now procs.now }
    requires alive { IsAlive (processes heap.now procs.now) place.pid }
    requires there { IsPlaced procs.now place }
    requires opened { IsOpened heap.now procs.now place.pid on.now }
    requires right { moved_fault 0 addr n ≡ None }
    ensures { (script : Script) (numbers : Numbers) (plain : Plain) (account : Account)
        → StandsFor numbers heap.now procs.now plain account
        → result ≡ is_broken plain place.pid addr n (opened_at plain.files place.pid on.now.fd) }
{
    let Some(found) = on.writable() else {
        return false;
    };
    let Some(queue) = QueueEnd::of(found.desc.target) else {
        return false;
    };
    // the queue mostly tells it, which is the cheaper question
    if !queue.is_unread(heap) {
        return false;
    }
    let n = n.cast_unsigned() as u32;
    let start = start_of(addr, n);
    let space = space_of(heap, procs, place);
    if !space.mapped(heap, start, n) {
        return false;
    }
    n != 0
}

// Puts what is left of a write in a queue, as far as it goes now.
fn put_from(
    heap: &mut KHeap,
    purse: &mut Purse,
    space: &Space,
    buffer: &mut Buffer,
    queue: QueueEnd,
    nonblock: bool,
    written: &Written,
) -> Turned
    requires owned { OwnsItsObjects heap.old }
    requires there { IsEndIn heap.old queue }
    requires space { IsOwnedWith heap.old space.now }
    requires within { written.now.start + written.now.n ≤ 1048576 }
    requires mapped { IsMappedRange heap.old.nodes space.now written.now.start written.now.n }
    requires pays { CanPay heap.old purse.old }
    requires enough { chunks_for (written.now.n - written.now.done) ≤ purse.old.left.chunk }
    ensures told { (behind : Behind queue) → StandsBehind heap.old queue behind
        → result ≡ told_write nonblock written.now.n written.now.done
        (write_of queue behind nonblock written.now.n (written.now.n - written.now.done)) }
    ensures puts { (behind : Behind queue) (memory : Memory) → StandsBehind heap.old queue behind → IsMemory heap.old space.now memory
        → PutsIn heap.old heap.new queue behind
        (loaded memory (written.now.start + written.now.done) (written.now.n - written.now.done))
        (moved_in (write_of queue behind nonblock written.now.n (written.now.n - written.now.done))) }
    ensures leaves { LeavesBut heap.old heap.new queue }
    ensures links { KeepsLinks heap.old heap.new }
    ensures paid { IsPaid heap.old purse.old heap.new purse.new }
    ensures purse { PaysChunks purse.old purse.new }
    ensures refused { (behind : Behind queue) → StandsBehind heap.old queue behind
        → UnlessMoves (write_of queue behind nonblock written.now.n (written.now.n - written.now.done)) (heap.new ≡ heap.old) }
{
    let bytes = &mut buffer[..(written.left() as usize).min(CAPACITY)];
    fetch(space, heap, written.rest(), bytes);
    let moved = queue.put(heap, purse, nonblock, written.n, bytes);
    told(moved, nonblock, written)
}

// What a write is told whose bytes moved so.
fn told(moved: Moved, nonblock: bool, written: &Written) -> Turned
    ensures { result ≡ told_write nonblock written.now.n written.now.done (moving_of moved) }
{
    match moved {
        Moved::Bytes(count) if count == written.left() => Turned::Done(Reply::Val(i64::from(
            written.n,
        ))),
        Moved::Bytes(count) if nonblock => {
            Turned::Done(Reply::Val(i64::from(written.done) + i64::from(count)))
        }
        Moved::Bytes(count) => Turned::Part(count),
        Moved::Blocked => Turned::Sleep,
        Moved::Fault(errno) if written.done == 0 => Turned::Done(Reply::Fail(errno)),
        Moved::Fault(_) => Turned::Done(Reply::Val(i64::from(written.done))),
    }
}
