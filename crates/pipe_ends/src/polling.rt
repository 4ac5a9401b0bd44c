ghost use Rattle.std.specs.Prelude.{◌≡◌, ℕ, ◌<◌, length, if◌then◌else◌};
ghost use Rattle.posix_defs.specs.Pipe.{Pipe as PlainPipe, free_in, polled_to_read as read_end_polled, polled_to_write as write_end_polled};
ghost use Rattle.pipe_ends.specs.Standing.{StandsFor, IsPipeAt};

use crate::WHOLE;
use chunk_queue::{POLLERR, POLLHUP, POLLIN, POLLOUT, event_if, room_in};
use kheap_slabs::KHeap;

/// What `poll` tells of one end of a pipe that it is asked for these events (POSIX poll).
///
/// The read end: POLLIN where it is asked for and bytes are there, and POLLHUP where nobody can write. The write end:
/// POLLERR where nobody can read, else POLLOUT where it is asked for and a write of 512 bytes would go.
pub fn pipe_polled(heap: &KHeap, key: u32, writing: bool, events: i64) -> u8
    requires { IsPipeAt heap.now key }
    ensures { (pipe : PlainPipe) (at : ℕ) → StandsFor heap.now key pipe at
        → result ≡ (if writing then write_end_polled pipe events else read_end_polled pipe events) }
{
    let pipe = heap.get_pipe(key);
    if writing {
        polled_to_write(pipe.readers, room_in(&pipe.queue), events)
    } else {
        polled_to_read(pipe.queue.len, pipe.writers, events)
    }
}

// What is told of a read end with so many bytes unread.
fn polled_to_read(unread: u32, writers: u32, events: i64) -> u8
    ensures { (pipe : PlainPipe) → length pipe.bytes ≡ unread → pipe.writers ≡ writers
        → result ≡ read_end_polled pipe events }
{
    let ended = if writers == 0 { POLLHUP } else { 0 };
    event_if(POLLIN, events, unread > 0) + ended
}

// What is told of a write end of a pipe that has so much room.
fn polled_to_write(readers: u32, free: u32, events: i64) -> u8
    ensures { (pipe : PlainPipe) → pipe.readers ≡ readers → free_in pipe ≡ free
        → result ≡ write_end_polled pipe events }
{
    if readers == 0 {
        POLLERR
    } else {
        event_if(POLLOUT, events, free >= WHOLE)
    }
}
