ghost use Rattle.std.specs.Prelude.{ℕ, List, ◌≡◌, ◌<◌, ◌++◌, length, take, drop};
ghost use Rattle.std.specs.Option.{ForSome};
ghost use Rattle.kheap_slabs.specs.Objects.{InUse};
ghost use Rattle.kheap_slabs.specs.Owners.{OwnsItsObjects};
ghost use Rattle.kheap_slabs.specs.Paid.{TakesNothing};
ghost use Rattle.posix_defs.specs.QueuePlace.{after_take};
ghost use Rattle.posix_defs.specs.Sockets.{Sockets, socket_at, sock_read as plain_read, writes_no_more as plain_no_more, after_read};
ghost use Rattle.chunk_queue.specs.Moving.{moving_of, moved_by, UnlessMoved, would_wait};
ghost use Rattle.usock_core.specs.Standing.{IsHeldIn, IsTable, StandsFor, IsSocketIn, queue_at, OtherQueuesStay, LeavesOthers};

use crate::steps::take_out;
use chunk_queue::Moved;
use kabi_types::Errno;
use kheap_slabs::{KHeap, SockState};

/// Reads bytes from a socket, as many as are there and fit. None are the end: it was shut for reading, or its peer has
/// closed or was shut for writing (POSIX read).
///
/// ENOTCONN where it isn't connected; EAGAIN where nothing is there yet and the reader doesn't wait.
pub fn sock_read(heap: &mut KHeap, key: u32, nonblock: bool, out: &mut [u8]) -> Moved
    requires owned { OwnsItsObjects heap.old }
    requires there { IsSocketIn heap.old key }
    requires some { 0 < length out.old }
    ensures answer { (sockets : Sockets) → StandsFor heap.old sockets
        → moving_of result ≡ plain_read sockets key nonblock (length out.old) }
    ensures out { (sockets : Sockets) → StandsFor heap.old sockets
        → out.new ≡ take (moved_by result) (socket_at sockets key).bytes ++ drop (moved_by result) out.old }
    ensures stands { (sockets : Sockets) → StandsFor heap.old sockets
        → StandsFor heap.new (after_read sockets key (moved_by result)) }
    ensures place { queue_at heap.new key ≡ after_take (queue_at heap.old key) (moved_by result) }
    ensures queues { OtherQueuesStay heap.old heap.new key }
    ensures held { (named : List ℕ) → IsHeldIn heap.old named → IsHeldIn heap.new named }
    ensures owned { OwnsItsObjects heap.new }
    ensures others { LeavesOthers heap.old heap.new }
    ensures takes { TakesNothing heap.old heap.new }
    ensures refused { UnlessMoved result ((heap.new ≡ heap.old) × (out.new ≡ out.old)) }
{
    let sock = *heap.get_sock(key);
    let SockState::Connected { shut_read, .. } = sock.state else {
        return Moved::Fault(Errno::ENOTCONN);
    };
    if shut_read {
        return Moved::Bytes(0);
    }
    if sock.queue.len > 0 {
        return Moved::Bytes(take_out(heap, key, sock, out));
    }
    if writes_no_more(heap, sock.peer) {
        Moved::Bytes(0)
    } else {
        Moved::not_now(nonblock)
    }
}

/// Whether a read of a socket would have to wait: it reads still, nothing is there, something can come, and the reader waits.
pub fn sock_read_waits(heap: &KHeap, key: u32, nonblock: bool) -> bool
    requires { IsSocketIn heap.now key }
    ensures { (sockets : Sockets) (n : ℕ) → StandsFor heap.now sockets
        → result ≡ would_wait (plain_read sockets key nonblock n) }
{
    let sock = heap.get_sock(key);
    match sock.state {
        SockState::Connected { shut_read, .. } => {
            !shut_read && sock.queue.len == 0 && !writes_no_more(heap, sock.peer) && !nonblock
        }
        SockState::Idle | SockState::Listening => false,
    }
}

// Whether nothing more can come from a peer: it has closed, or was shut for writing.
fn writes_no_more(heap: &KHeap, peer: Option<u32>) -> bool
    requires { ForSome peer (InUse heap.now.socks) }
    ensures { (sockets : Sockets) → IsTable heap.now sockets → result ≡ plain_no_more sockets peer }
{
    match peer {
        Some(peer) => match heap.get_sock(peer).state {
            SockState::Connected { shut_write, .. } => shut_write,
            SockState::Idle | SockState::Listening => false,
        },
        None => true,
    }
}
