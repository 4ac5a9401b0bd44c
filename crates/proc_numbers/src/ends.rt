//! The ends of queues of bytes: an end of a pipe, and a socket. What reading and writing have for each of its own stands here.

ghost use Rattle.std.specs.Prelude.{◌≡◌, ◌+◌, ◌/◌, ◌<◌, ◌≤◌, ◌++◌, ℕ, drop, length, min, take};
ghost use Rattle.chunk_queue.specs.Chained.{PaysChunks};
ghost use Rattle.chunk_queue.specs.Moving.{UnlessMoved, moved_by, moving_of, would_wait};
ghost use Rattle.kheap_slabs.specs.Owners.{OwnsItsObjects};
ghost use Rattle.kheap_slabs.specs.Paid.{CanPay, IsPaid, TakesNothing};
ghost use Rattle.pipe_ends.specs.Links.{KeepsLinks};
ghost use Rattle.posix_defs.specs.Pipe.{capacity};
ghost use Rattle.posix_defs.specs.Socket.{is_connected};
ghost use Rattle.posix_defs.specs.Sockets.{Sockets, stage_at};
ghost use Rattle.proc_numbers.specs.QueueEnds.{Behind, IsEndIn, LeavesBut, PutsIn, StandsBehind, TakesOut, end_of, is_linked, is_unread_behind, read_of, unread, write_of};
ghost use Rattle.usock_core.specs.Standing.{IsSocketIn, StandsFor as SocketsStandFor};

use chunk_queue::Moved;
use kheap_slabs::{KHeap, Purse, SockState, Target};
use pipe_ends::{pipe_is_unread, pipe_read, pipe_read_waits, pipe_write, pipe_write_waits};
use usock_core::{sock_is_unread, sock_read, sock_read_waits, sock_write, sock_write_waits};

/// An end of a queue of bytes, on which a description is open.
#[derive(Clone, Copy)]
pub enum QueueEnd {
    /// An end of the pipe of this key.
    Pipe(u32),
    /// The socket of this key.
    Sock(u32),
}

impl QueueEnd {
    /// The end that a target is; None of a node.
    pub fn of(target: Target) -> Option<QueueEnd>
        ensures { result ≡ end_of target }
    {
        match target {
            Target::Inode(_) => None,
            Target::Pipe(key) => Some(QueueEnd::Pipe(key)),
            Target::Sock(key) => Some(QueueEnd::Sock(key)),
        }
    }

    /// Takes bytes out, as many as are there and fit. None are the end of the file.
    pub(crate) fn take(self, heap: &mut KHeap, nonblock: bool, out: &mut [u8]) -> Moved
        requires owned { OwnsItsObjects heap.old }
        requires there { IsEndIn heap.old self }
        requires some { 0 < length out.old }
        ensures answer { (behind : Behind self) → StandsBehind heap.old self behind → moving_of result ≡ read_of self behind nonblock (length out.old) }
        ensures out { (behind : Behind self) → StandsBehind heap.old self behind
            → out.new ≡ take (moved_by result) (unread self behind) ++ drop (moved_by result) out.old }
        ensures taken { (behind : Behind self) → StandsBehind heap.old self behind → TakesOut heap.old heap.new self behind (moved_by result) }
        ensures leaves { LeavesBut heap.old heap.new self }
        ensures links { KeepsLinks heap.old heap.new }
        ensures takes { TakesNothing heap.old heap.new }
        ensures refused { UnlessMoved result ((heap.new ≡ heap.old) × (out.new ≡ out.old)) }
    {
        match self {
            QueueEnd::Pipe(key) => pipe_read(heap, key, nonblock, out),
            QueueEnd::Sock(key) => sock_read(heap, key, nonblock, out),
        }
    }

    /// Whether bytes would have to be waited for.
    pub(crate) fn take_waits(self, heap: &KHeap, nonblock: bool) -> bool
        requires { IsEndIn heap.now self }
        ensures { (behind : Behind self) (n : ℕ) → StandsBehind heap.now self behind → result ≡ would_wait (read_of self behind nonblock n) }
    {
        match self {
            QueueEnd::Pipe(key) => pipe_read_waits(heap, key, nonblock),
            QueueEnd::Sock(key) => sock_read_waits(heap, key, nonblock),
        }
    }

    /// Puts bytes in that are left of a write of n, as many as there is room for. A pipe takes those of a write of at most 512 whole or
    /// not at all.
    pub(crate) fn put(
        self,
        heap: &mut KHeap,
        purse: &mut Purse,
        nonblock: bool,
        n: u32,
        bytes: &[u8],
    ) -> Moved
        requires owned { OwnsItsObjects heap.old }
        requires there { IsEndIn heap.old self }
        requires part { length bytes.now ≤ n }
        requires pays { CanPay heap.old purse.old }
        requires enough { (min (length bytes.now) capacity + 511) / 512 ≤ purse.old.left.chunk }
        ensures answer { (behind : Behind self) → StandsBehind heap.old self behind
            → moving_of result ≡ write_of self behind nonblock n (length bytes.now) }
        ensures puts { (behind : Behind self) → StandsBehind heap.old self behind → PutsIn heap.old heap.new self behind bytes.now (moved_by result) }
        ensures leaves { LeavesBut heap.old heap.new self }
        ensures links { KeepsLinks heap.old heap.new }
        ensures paid { IsPaid heap.old purse.old heap.new purse.new }
        ensures purse { PaysChunks purse.old purse.new }
        ensures refused { UnlessMoved result ((heap.new ≡ heap.old) × (purse.new ≡ purse.old)) }
    {
        match self {
            QueueEnd::Pipe(key) => pipe_write(heap, purse, key, nonblock, n, bytes),
            QueueEnd::Sock(key) => sock_write(heap, purse, key, nonblock, bytes),
        }
    }

    /// Whether room would have to be waited for by a write of n bytes, of which so many are left.
    pub(crate) fn put_waits(self, heap: &KHeap, nonblock: bool, n: u32, left: u32) -> bool
        requires there { IsEndIn heap.now self }
        requires part { left ≤ n }
        ensures { (behind : Behind self) → StandsBehind heap.now self behind → result ≡ would_wait (write_of self behind nonblock n left) }
    {
        match self {
            QueueEnd::Pipe(key) => pipe_write_waits(heap, key, nonblock, n, left),
            QueueEnd::Sock(key) => sock_write_waits(heap, key, nonblock, left),
        }
    }

    /// Whether nobody can read what is put in: a pipe without a reader, or a socket that is connected and was shut for writing, or whose
    /// peer takes nothing more.
    pub(crate) fn is_unread(self, heap: &KHeap) -> bool
        requires { IsEndIn heap.now self }
        ensures { (behind : Behind self) → StandsBehind heap.now self behind → result ≡ is_unread_behind self behind }
    {
        match self {
            QueueEnd::Pipe(key) => pipe_is_unread(heap, key),
            QueueEnd::Sock(key) => sock_is_unread(heap, key),
        }
    }

    /// Whether a write finds somebody at the other end: a socket that isn't connected has nobody there, whatever was written before.
    pub(crate) fn is_linked(self, heap: &KHeap) -> bool
        requires { IsEndIn heap.now self }
        ensures { (behind : Behind self) → StandsBehind heap.now self behind → result ≡ is_linked self behind }
    {
        match self {
            QueueEnd::Pipe(_) => true,
            QueueEnd::Sock(key) => is_connected(heap, key),
        }
    }
}

// Whether a socket is connected.
fn is_connected(heap: &KHeap, key: u32) -> bool
    requires { IsSocketIn heap.now key }
    ensures { (sockets : Sockets) → SocketsStandFor heap.now sockets → result ≡ is_connected (stage_at sockets key) }
{
    match heap.get_sock(key).state {
        SockState::Connected { .. } => true,
        SockState::Idle | SockState::Listening => false,
    }
}
