//! `read` of a pipe and of a socket.

ghost use Rattle.std.specs.Prelude.{◌≡◌, ◌+◌, ◌<◌, ◌≤◌, ℕ, None};
ghost use Rattle.kabi_types.specs.Arguments.{argument_fault, count_of};
ghost use Rattle.kabi_types.specs.declared.calls.Call.{Call};
ghost use Rattle.kabi_types.specs.declared.scripts.Script.{Script};
ghost use Rattle.kheap_slabs.specs.Owners.{OwnsItsObjects};
ghost use Rattle.kheap_slabs.specs.Paid.{CanPay, IsPaid};
ghost use Rattle.page_space.specs.Contents.{IsOwnedWith};
ghost use Rattle.page_space.specs.Entries.{IsMappedRange};
ghost use Rattle.open_laws.specs.Placed.{Numbers};
ghost use Rattle.pipe_ends.specs.Links.{KeepsLinks};
ghost use Rattle.posix_defs.specs.Account.{Account};
ghost use Rattle.posix_defs.specs.Calls.Reading.{read};
ghost use Rattle.posix_defs.specs.Machine.{blocks};
ghost use Rattle.posix_defs.specs.Needs.{pages_touched};
ghost use Rattle.posix_defs.specs.Pipe.{Moves};
ghost use Rattle.posix_defs.specs.Plain.{Plain};
ghost use Rattle.proc_table.specs.Procs.{IsAlive};
ghost use Rattle.proc_table.specs.Table.{IsPlaced, processes};
ghost use Rattle.proc_numbers.specs.Found.{IsOffNodes, IsOpened};
ghost use Rattle.proc_numbers.specs.PipeMoving.{UnlessMoves, told_read};
ghost use Rattle.proc_numbers.specs.QueueEnds.{Behind, IsEndIn, ReadsEnd, StandsBehind, read_of};
ghost use Rattle.proc_numbers.specs.Standing.{IsKept, Leads, StandsFor};

use crate::buffer::{Buffer, CAPACITY};
use crate::ends::QueueEnd;
use crate::lookups::Named;
use crate::spaces::{space_of, start_of};
use chunk_queue::Moved;
use kabi_types::{Errno, Reply};
use kheap_slabs::{KHeap, Purse};
use page_space::Space;
use posix_defs::Turned;
use proc_table::{Place, ProcTable};

/// Reads at most n bytes from the pipe or the socket that a number is open on into a process's memory, as many as are there. None are
/// the end of the file: nobody can write any more, or the socket was shut for reading.
///
/// EBADF where the number isn't open for reading, EFAULT where a page that n bytes would touch isn't mapped, ENOTCONN of a socket that
/// isn't connected, EAGAIN where nothing is there, something can come, and the reader doesn't wait (POSIX read).
pub fn read(
    heap: &mut KHeap,
    purse: &mut Purse,
    procs: &ProcTable,
    buffer: &mut Buffer,
    place: Place,
    on: &Named,
    addr: i64,
    n: i64,
) -> Turned
    requires kept { IsKept heap.old procs.now }
    requires alive { IsAlive (processes heap.old procs.now) place.pid }
    requires there { IsPlaced procs.now place }
    requires opened { IsOpened heap.old procs.now place.pid on.now }
    requires off { IsOffNodes heap.old procs.now place.pid on.now.fd }
    requires right { argument_fault (Call.Read on.now.fd addr n) ≡ None }
    requires room { CanPay heap.old purse.old }
    requires left { pages_touched (count_of addr) (count_of n) ≤ purse.old.left.page }
    ensures leads { (script : Script) (numbers : Numbers) (plain : Plain) (account : Account)
        → StandsFor numbers heap.old procs.now plain account
        → Leads script numbers heap.new procs.now plain account place.pid (Call.Read on.now.fd addr n)
        (read script plain place.pid on.now.fd addr n) result }
    ensures kept { IsKept heap.new procs.now }
    ensures beside { heap.new ≡ record heap.old {
      nodes = heap.new.nodes;
      pages = heap.new.pages;
      pipes = heap.new.pipes;
      chunks = heap.new.chunks;
      socks = heap.new.socks;
      high = heap.new.high;
    } }
    ensures links { KeepsLinks heap.old heap.new }
    ensures paid { IsPaid heap.old purse.old heap.new purse.new }
{
    let Some(found) = on.readable() else {
        return Turned::Done(Reply::Fail(Errno::EBADF));
    };
    let Some(queue) = QueueEnd::of(found.desc.target) else {
        unreachable!();
    };
    let n = n.cast_unsigned() as u32;
    let start = start_of(addr, n);
    let mut space = space_of(heap, procs, place);
    if !space.mapped(heap, start, n) {
        return Turned::Done(Reply::Fail(Errno::EFAULT));
    }
    if n == 0 {
        return Turned::Done(Reply::Val(0));
    }
    let nonblock = found.desc.flags.nonblock;
    take_in(heap, purse, &mut space, buffer, queue, nonblock, start, n)
}

/// Whether a `read` would sleep, whatever its number is open on; one of a file or a directory never does.
pub fn read_waits(
    heap: &KHeap,
    procs: &ProcTable,
    place: Place,
    on: &Named,
    addr: i64,
    n: i64,
) -> bool
    requires kept { IsKept heap.now procs.now }
    requires alive { IsAlive (processes heap.now procs.now) place.pid }
    requires there { IsPlaced procs.now place }
    requires opened { IsOpened heap.now procs.now place.pid on.now }
    requires right { argument_fault (Call.Read on.now.fd addr n) ≡ None }
    ensures { (script : Script) (numbers : Numbers) (plain : Plain) (account : Account)
        → StandsFor numbers heap.now procs.now plain account
        → result ≡ blocks (read script plain place.pid on.now.fd addr n) }
{
    let Some(found) = on.readable() else {
        return false;
    };
    let Some(queue) = QueueEnd::of(found.desc.target) else {
        return false;
    };
    // the queue mostly tells it, which is the cheaper question
    if !queue.take_waits(heap, found.desc.flags.nonblock) {
        return false;
    }
    let n = n.cast_unsigned() as u32;
    let start = start_of(addr, n);
    let space = space_of(heap, procs, place);
    if !space.mapped(heap, start, n) {
        return false;
    }
    n != 0
}

// Takes bytes out of a queue, at most n, and puts them in memory.
fn take_in(
    heap: &mut KHeap,
    purse: &mut Purse,
    space: &mut Space,
    buffer: &mut Buffer,
    queue: QueueEnd,
    nonblock: bool,
    start: u32,
    n: u32,
) -> Turned
    requires owned { OwnsItsObjects heap.old }
    requires there { IsEndIn heap.old queue }
    requires space { IsOwnedWith heap.old space.old }
    requires some { 0 < n }
    requires within { start + n ≤ 1048576 }
    requires mapped { IsMappedRange heap.old.nodes space.old start n }
    requires room { CanPay heap.old purse.old }
    requires left { pages_touched start n ≤ purse.old.left.page }
    ensures told { (behind : Behind queue) → StandsBehind heap.old queue behind → result ≡ told_read (read_of queue behind nonblock n) }
    ensures reads { (behind : Behind queue) (k : ℕ) → StandsBehind heap.old queue behind → read_of queue behind nonblock n ≡ Moves k
        → ReadsEnd heap.old purse.old heap.new purse.new space.old queue start behind k }
    ensures refused { (behind : Behind queue) → StandsBehind heap.old queue behind
        → UnlessMoves (read_of queue behind nonblock n) (heap.new ≡ heap.old) }
    ensures beside { heap.new ≡ record heap.old {
      nodes = heap.new.nodes;
      pages = heap.new.pages;
      pipes = heap.new.pipes;
      chunks = heap.new.chunks;
      socks = heap.new.socks;
      high = heap.new.high;
    } }
    ensures links { KeepsLinks heap.old heap.new }
    ensures paid { IsPaid heap.old purse.old heap.new purse.new }
{
    let out = &mut buffer[..(n as usize).min(CAPACITY)];
    match queue.take(heap, nonblock, out) {
        Moved::Bytes(count) => {
            space.copy_in(heap, purse, start, &out[..count as usize]);
            told_bytes(count)
        }
        Moved::Blocked => Turned::Sleep,
        Moved::Fault(errno) => Turned::Done(Reply::Fail(errno)),
    }
}

// What a read of so many bytes is told.
fn told_bytes(count: u32) -> Turned
    ensures { result ≡ told_read (Moves count) }
{
    Turned::Done(Reply::Val(i64::from(count)))
}
