ghost use Rattle.std.specs.Prelude.{◌≡◌, ℕ, ◌+◌, ◌<◌, ◌≤◌, Some, ◌++◌, length, take, drop, min};
ghost use Rattle.kheap_slabs.specs.Objects.{object};
ghost use Rattle.kheap_slabs.specs.declared.objects.Pipe.{Pipe as HeldPipe};
ghost use Rattle.kheap_slabs.specs.Owners.{OwnsItsObjects};
ghost use Rattle.kheap_slabs.specs.Paid.{TakesNothing};
ghost use Rattle.posix_defs.specs.Pipe.{Pipe as PlainPipe, pipe_read as read_answer, after_read};
ghost use Rattle.posix_defs.specs.QueuePlace.{after_take};
ghost use Rattle.chunk_queue.specs.Chained.{place_of, TakesOut};
ghost use Rattle.chunk_queue.specs.Moving.{moving_of, moved_by, UnlessMoved, would_wait};
ghost use Rattle.pipe_ends.specs.Links.{KeepsLinks};
ghost use Rattle.pipe_ends.specs.Standing.{StandsFor, IsPipeAt, account, LeavesOthers, Turned};

use chunk_queue::{Moved, Queue};
use kheap_slabs::{KHeap, Pipe};

/// Reads bytes from a pipe, as many as are there and fit. None are the end of the file: nobody can write any more.
///
/// EAGAIN where nothing is there, somebody can write, and the reader doesn't wait (POSIX read).
pub fn pipe_read(heap: &mut KHeap, key: u32, nonblock: bool, out: &mut [u8]) -> Moved
    requires owned { OwnsItsObjects heap.old }
    requires there { IsPipeAt heap.old key }
    requires some { 0 < length out.old }
    ensures answer { (pipe : PlainPipe) (at : ℕ) → StandsFor heap.old key pipe at
        → moving_of result ≡ read_answer pipe nonblock (length out.old) }
    ensures out { (pipe : PlainPipe) (at : ℕ) → StandsFor heap.old key pipe at
        → out.new ≡ take (moved_by result) pipe.bytes ++ drop (moved_by result) out.old }
    ensures stands { (pipe : PlainPipe) (at : ℕ) → StandsFor heap.old key pipe at
        → StandsFor heap.new key (after_read pipe (moved_by result))
        (after_take (account pipe at) (moved_by result)).place }
    ensures owned { OwnsItsObjects heap.new }
    ensures there { IsPipeAt heap.new key }
    ensures others { LeavesOthers heap.old heap.new key }
    ensures takes { TakesNothing heap.old heap.new }
    ensures links { KeepsLinks heap.old heap.new }
    ensures refused { UnlessMoved result ((heap.new ≡ heap.old) × (out.new ≡ out.old)) }
{
    let pipe = *heap.get_pipe(key);
    if pipe.queue.len > 0 {
        return Moved::Bytes(take_out(heap, key, pipe, out));
    }
    if pipe.writers == 0 {
        Moved::Bytes(0)
    } else {
        Moved::not_now(nonblock)
    }
}

/// Whether a read of a pipe would have to wait: nothing is there, somebody can write, and the reader waits.
pub fn pipe_read_waits(heap: &KHeap, key: u32, nonblock: bool) -> bool
    requires { IsPipeAt heap.now key }
    ensures { (pipe : PlainPipe) (at : ℕ) (n : ℕ) → StandsFor heap.now key pipe at
        → result ≡ would_wait (read_answer pipe nonblock n) }
{
    let pipe = heap.get_pipe(key);
    pipe.queue.len == 0 && pipe.writers > 0 && !nonblock
}

// Takes bytes out of the queue of a pipe. How many they are.
fn take_out(heap: &mut KHeap, key: u32, pipe: Pipe, out: &mut [u8]) -> u32
    requires owned { OwnsItsObjects heap.old }
    requires there { object heap.old.pipes key ≡ Some pipe }
    ensures count { result ≡ min (length out.old) pipe.queue.len }
    ensures out { TakesOut heap.old pipe.queue out.old out.new 0 result }
    ensures turned { Turned heap.old heap.new key pipe (drop result) (after_take (place_of pipe.queue) result)
        pipe.readers pipe.writers }
    ensures takes { TakesNothing heap.old heap.new }
{
    let mut queue = Queue::of(pipe.queue);
    let count = queue.take(heap, out);
    heap.set_pipe(
        key,
        Pipe {
            queue: queue.parts(),
            ..pipe
        },
    );
    count
}
