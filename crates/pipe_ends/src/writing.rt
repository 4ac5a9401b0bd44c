ghost use Rattle.std.specs.Prelude.{◌≡◌, ◌==◌, ℕ, ◌+◌, ◌/◌, ◌<◌, ◌≤◌, Bool, Some, ◌++◌, length, min, IfSome, MatchOption};
ghost use Rattle.kheap_slabs.specs.Objects.{object};
ghost use Rattle.kheap_slabs.specs.Owners.{OwnsItsObjects};
ghost use Rattle.kheap_slabs.specs.Paid.{CanPay, IsPaid};
ghost use Rattle.posix_defs.specs.Pipe.{Pipe as PlainPipe, capacity, Moves, free_in, not_now as waiting, pipe_write as write_answer, after_write};
ghost use Rattle.posix_defs.specs.QueuePlace.{chunks_of, after_put};
ghost use Rattle.chunk_queue.specs.Chained.{place_of, PaysChunks};
ghost use Rattle.chunk_queue.specs.Moving.{moving_of, moved_by, UnlessMoved, would_wait};
ghost use Rattle.pipe_ends.specs.Links.{KeepsLinks};
ghost use Rattle.pipe_ends.specs.Standing.{StandsFor, IsPipeAt, account, LeavesOthers, Turned};

use crate::WHOLE;
use chunk_queue::{Moved, Queue, fitting, room_in};
use kabi_types::Errno;
use kheap_slabs::{KHeap, Pipe, Purse};

/// Writes bytes into a pipe, those that are left of a write of n. How many went.
///
/// A write of at most 512 bytes goes whole or not at all. EPIPE where nobody can read; EAGAIN where there is no room for
/// it and the writer doesn't wait (POSIX write).
pub fn pipe_write(
    heap: &mut KHeap,
    purse: &mut Purse,
    key: u32,
    nonblock: bool,
    n: u32,
    bytes: &[u8],
) -> Moved
    requires owned { OwnsItsObjects heap.old }
    requires there { IsPipeAt heap.old key }
    requires part { length bytes.now ≤ n }
    requires pays { CanPay heap.old purse.old }
    requires enough { (min (length bytes.now) capacity + 511) / 512 ≤ purse.old.left.chunk }
    ensures answer { (pipe : PlainPipe) (at : ℕ) → StandsFor heap.old key pipe at
        → moving_of result ≡ write_answer pipe nonblock n (length bytes.now) }
    ensures stands { (pipe : PlainPipe) (at : ℕ) → StandsFor heap.old key pipe at
        → StandsFor heap.new key (after_write pipe bytes.now (moved_by result)) at }
    ensures owned { OwnsItsObjects heap.new }
    ensures there { IsPipeAt heap.new key }
    ensures others { LeavesOthers heap.old heap.new key }
    ensures paid { IsPaid heap.old purse.old heap.new purse.new }
    ensures pays { CanPay heap.new purse.new }
    ensures purse { PaysChunks purse.old purse.new }
    ensures spent { (pipe : PlainPipe) (at : ℕ) → StandsFor heap.old key pipe at
        → purse.new.left.chunk + chunks_of (account (after_write pipe bytes.now (moved_by result)) at)
        ≡ purse.old.left.chunk + chunks_of (account pipe at) }
    ensures links { KeepsLinks heap.old heap.new }
    ensures refused { UnlessMoved result ((heap.new ≡ heap.old) × (purse.new ≡ purse.old)) }
{
    let pipe = *heap.get_pipe(key);
    if pipe.readers == 0 {
        return Moved::Fault(Errno::EPIPE);
    }
    match going(n, bytes.len() as u32, room_in(&pipe.queue)) {
        Some(count) => {
            put_in(heap, purse, key, pipe, &bytes[..count as usize]);
            Moved::Bytes(count)
        }
        None => Moved::not_now(nonblock),
    }
}

/// Whether a write of n bytes to a pipe, of which so many are left, would have to wait: somebody can read, there is no room
/// for it, and the writer waits.
pub fn pipe_write_waits(heap: &KHeap, key: u32, nonblock: bool, n: u32, left: u32) -> bool
    requires there { IsPipeAt heap.now key }
    requires part { left ≤ n }
    ensures { (pipe : PlainPipe) (at : ℕ) → StandsFor heap.now key pipe at
        → result ≡ would_wait (write_answer pipe nonblock n left) }
{
    let pipe = heap.get_pipe(key);
    pipe.readers > 0 && going(n, left, room_in(&pipe.queue)).is_none() && !nonblock
}

/// Whether nobody can read what is written to a pipe.
pub fn pipe_is_unread(heap: &KHeap, key: u32) -> bool
    requires { IsPipeAt heap.now key }
    ensures { (pipe : PlainPipe) (at : ℕ) → StandsFor heap.now key pipe at → result ≡ (pipe.readers == 0) }
{
    heap.get_pipe(key).readers == 0
}

// How many of the bytes that are left of a write of n go into this room; None where none can go yet.
fn going(n: u32, left: u32, free: u32) -> Option<u32>
    requires { left ≤ n }
    ensures answer { (pipe : PlainPipe) (nonblock : Bool) → 0 < pipe.readers → free_in pipe ≡ free
        → MatchOption result (write_answer pipe nonblock n left ≡ waiting nonblock)
        (λ count. write_answer pipe nonblock n left ≡ Moves count) }
    ensures within { IfSome result (λ count. (count ≤ left) × (count ≤ free)) }
{
    if n > WHOLE {
        fitting(left as usize, free)
    } else if n <= free {
        Some(left)
    } else {
        None
    }
}

// Puts bytes into the queue of a pipe, which has room for them.
fn put_in(heap: &mut KHeap, purse: &mut Purse, key: u32, pipe: Pipe, bytes: &[u8])
    requires owned { OwnsItsObjects heap.old }
    requires there { object heap.old.pipes key ≡ Some pipe }
    requires room { pipe.queue.len + length bytes.now ≤ 4096 }
    requires pays { CanPay heap.old purse.old }
    requires enough { (length bytes.now + 511) / 512 ≤ purse.old.left.chunk }
    ensures turned { Turned heap.old heap.new key pipe (λ old. old ++ bytes.now)
        (after_put (place_of pipe.queue) (length bytes.now)) pipe.readers pipe.writers }
    ensures paid { IsPaid heap.old purse.old heap.new purse.new }
    ensures purse { PaysChunks purse.old purse.new }
    ensures spent { purse.new.left.chunk + chunks_of (after_put (place_of pipe.queue) (length bytes.now))
        ≡ purse.old.left.chunk + chunks_of (place_of pipe.queue) }
{
    let mut queue = Queue::of(pipe.queue);
    queue.put(heap, purse, bytes);
    heap.set_pipe(
        key,
        Pipe {
            queue: queue.parts(),
            ..pipe
        },
    );
}
