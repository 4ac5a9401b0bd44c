//! How much the queue of a pipe or of a socket takes.

ghost use Rattle.std.specs.Prelude.{◌≡◌, ◌-◌, ◌≤◌, Bool, IfSome, MatchOption};
ghost use Rattle.posix_defs.specs.Pipe.{capacity, Moves, not_now as waiting};
ghost use Rattle.posix_defs.specs.Sockets.{write_within};

use kheap_slabs::QueueParts;

/// How many bytes the queue of a pipe or of a socket holds at most.
const CAPACITY: u32 = 4096;

/// How many bytes more a queue takes.
pub fn room_in(queue: &QueueParts) -> u32
    requires { queue.now.len ≤ capacity }
    ensures { result ≡ capacity - queue.now.len }
{
    CAPACITY - queue.len
}

/// How many of the bytes that are left of a write go into this room: all, or as many as there is room for. None where
/// none can go yet.
pub fn fitting(left: usize, free: u32) -> Option<u32>
    ensures answer { (nonblock : Bool) → MatchOption result (write_within free nonblock left ≡ waiting nonblock)
        (λ count. write_within free nonblock left ≡ Moves count) }
    ensures within { IfSome result (λ count. (count ≤ left) × (count ≤ free)) }
{
    if left <= free as usize {
        Some(left as u32)
    } else if free == 0 {
        None
    } else {
        Some(free)
    }
}
