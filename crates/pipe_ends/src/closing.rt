ghost use Rattle.std.specs.Prelude.{◌≡◌, ℕ, Some, None, []};
ghost use Rattle.pipe_ends.specs.Links.{ClosesLink};
ghost use Rattle.kheap_slabs.specs.Objects.{object};
ghost use Rattle.kheap_slabs.specs.Owners.{OwnsItsObjects};
ghost use Rattle.kheap_slabs.specs.Paid.{TakesNothing};
ghost use Rattle.posix_defs.specs.Pipe.{Pipe as PlainPipe, after_close};
ghost use Rattle.posix_defs.specs.QueuePlace.{at_front};
ghost use Rattle.pipe_ends.specs.Standing.{StandsFor, HasEndAt, place_with, LeavesOthers, Turned};

use chunk_queue::Queue;
use kheap_slabs::{KHeap, Pipe};

/// Closes one end of a pipe: a description that had it is gone.
///
/// The bytes of a pipe that nobody can read any more are dropped. With its last end the pipe goes.
pub fn close_end(heap: &mut KHeap, key: u32, writing: bool)
    requires owned { OwnsItsObjects heap.old }
    requires end { HasEndAt heap.old key writing }
    ensures gone { (pipe : PlainPipe) (at : ℕ) → StandsFor heap.old key pipe at
        → after_close pipe writing ≡ None → object heap.new.pipes key ≡ None }
    ensures stands { (pipe : PlainPipe) (at : ℕ) (left : PlainPipe) → StandsFor heap.old key pipe at
        → after_close pipe writing ≡ Some left → StandsFor heap.new key left (place_with left.bytes at) }
    ensures owned { OwnsItsObjects heap.new }
    ensures others { LeavesOthers heap.old heap.new key }
    ensures link { ClosesLink heap.old heap.new key writing }
    ensures takes { TakesNothing heap.old heap.new }
{
    let pipe = *heap.get_pipe(key);
    let readers = if writing {
        pipe.readers
    } else {
        pipe.readers - 1
    };
    let writers = if writing {
        pipe.writers - 1
    } else {
        pipe.writers
    };
    if readers == 0 && writers == 0 {
        remove(heap, key, pipe);
    } else if readers == 0 && !writing {
        drop_bytes(heap, key, pipe, writers);
    } else {
        heap.set_pipe(
            key,
            Pipe {
                readers,
                writers,
                ..pipe
            },
        );
    }
}

// Takes a pipe and its chunks out of the heap.
fn remove(heap: &mut KHeap, key: u32, pipe: Pipe)
    requires owned { OwnsItsObjects heap.old }
    requires there { object heap.old.pipes key ≡ Some pipe }
    ensures gone { object heap.new.pipes key ≡ None }
    ensures owned { OwnsItsObjects heap.new }
    ensures others { LeavesOthers heap.old heap.new key }
    ensures takes { TakesNothing heap.old heap.new }
{
    let mut unread = Queue::of(pipe.queue);
    unread.clear(heap);
    let _gone = heap.free_pipe(key);
}

// Drops the bytes of a pipe that has no reader any more.
fn drop_bytes(heap: &mut KHeap, key: u32, pipe: Pipe, writers: u32)
    requires owned { OwnsItsObjects heap.old }
    requires there { object heap.old.pipes key ≡ Some pipe }
    ensures turned { Turned heap.old heap.new key pipe (λ old. []) at_front 0 writers }
    ensures takes { TakesNothing heap.old heap.new }
{
    let mut queue = Queue::of(pipe.queue);
    queue.clear(heap);
    heap.set_pipe(
        key,
        Pipe {
            queue: queue.parts(),
            readers: 0,
            writers,
            ..pipe
        },
    );
}
