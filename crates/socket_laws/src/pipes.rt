//! Laws of pipes and of the queues in them. Each is the contract of a function that does nothing.

ghost use Rattle.std.specs.Prelude.{◌≡◌, ℕ, ◌+◌, ◌/◌, ◌<◌, ◌≤◌, Bool, List, [], ◌++◌, length, min, take};
ghost use Rattle.posix_defs.specs.Pipe.{Pipe, Moves, capacity, pipe_read, pipe_write, after_write};
ghost use Rattle.posix_defs.specs.QueuePlace.{QueuePlace, IsPlace, at_front, chunks_of, after_put, after_take};
ghost use Rattle.socket_laws.specs.QueueRuns.{QueueStep, left_after, put_in, taken_out};

/// Bytes come out of a queue in the order in which they went in, each once, and what didn't come out is there still.
pub fn bytes_keep_their_order()
    ensures { (bytes : List ℕ) (steps : List QueueStep)
        → bytes ++ put_in steps ≡ taken_out bytes steps ++ left_after bytes steps }
{}

/// A write to a pipe of at most 512 bytes goes whole or not at all, and no write fills a pipe beyond 4096 bytes.
pub fn writes_keep_to_their_room()
    ensures whole { (pipe : Pipe) (nonblock : Bool) (n : ℕ) (m : ℕ) (k : ℕ)
        → n ≤ 512 → pipe_write pipe nonblock n m ≡ Moves k → k ≡ m }
    ensures room { (pipe : Pipe) (nonblock : Bool) (n : ℕ) (bytes : List ℕ) (k : ℕ)
        → length bytes ≤ n → length pipe.bytes ≤ capacity
        → pipe_write pipe nonblock n (length bytes) ≡ Moves k
        → (k ≤ length bytes) × (length (after_write pipe bytes k).bytes ≤ capacity) }
{}

/// Of a write of more than 512 bytes, and of a read, only the first 4096 bytes matter: a call with just these is answered
/// the same and leaves the same pipe.
pub fn a_pipe_moves_no_more_than_it_holds()
    ensures write { (pipe : Pipe) (nonblock : Bool) (n : ℕ) (m : ℕ)
        → 512 < n → pipe_write pipe nonblock n m ≡ pipe_write pipe nonblock (min n capacity) (min m capacity) }
    ensures written { (pipe : Pipe) (nonblock : Bool) (n : ℕ) (bytes : List ℕ) (k : ℕ)
        → 512 < n → pipe_write pipe nonblock n (length bytes) ≡ Moves k
        → after_write pipe bytes k ≡ after_write pipe (take capacity bytes) k }
    ensures read { (pipe : Pipe) (nonblock : Bool) (n : ℕ)
        → length pipe.bytes ≤ capacity → pipe_read pipe nonblock n ≡ pipe_read pipe nonblock (min n capacity) }
{}

/// A put of n bytes makes at most as many chunks as n bytes begin, a take makes none, and a queue of which all was taken
/// has none.
pub fn chunks_follow_the_bytes()
    ensures put { (queue : QueuePlace) (n : ℕ)
        → IsPlace queue → chunks_of (after_put queue n) ≤ chunks_of queue + (n + 511) / 512 }
    ensures take { (queue : QueuePlace) (n : ℕ)
        → IsPlace queue → chunks_of (after_take queue n) ≤ chunks_of queue }
    ensures all { (queue : QueuePlace) (n : ℕ)
        → queue.len ≤ n → (after_take queue n ≡ at_front) × (chunks_of (after_take queue n) ≡ 0) }
    ensures place { (queue : QueuePlace) (n : ℕ)
        → IsPlace queue → IsPlace (after_take queue n) }
{}
