ghost use Rattle.std.specs.Prelude.{List, ◌≡◌, ℕ, ◌+◌, ◌/◌, ◌<◌, ◌≤◌, ◌++◌, Some, length, min, take};
ghost use Rattle.kheap_slabs.specs.Objects.{object, InUse};
ghost use Rattle.kheap_slabs.specs.Owners.{OwnsItsObjects};
ghost use Rattle.kheap_slabs.specs.Paid.{CanPay, IsPaid};
ghost use Rattle.posix_defs.specs.Calls.Writing.{is_unread_in};
ghost use Rattle.posix_defs.specs.Pipe.{capacity};
ghost use Rattle.posix_defs.specs.QueuePlace.{chunks_of, after_put};
ghost use Rattle.posix_defs.specs.Socket.{Socket, peer_of, is_shut_read};
ghost use Rattle.posix_defs.specs.Sockets.{Sockets, socket_at, stage_at, sock_write as plain_write, write_to as plain_write_to, after_write, sent_to};
ghost use Rattle.chunk_queue.specs.Chained.{PaysChunks};
ghost use Rattle.chunk_queue.specs.Moving.{moving_of, moved_by, UnlessMoved, would_wait};
ghost use Rattle.usock_core.specs.Standing.{IsHeldIn, IsShape, IsTable, StandsFor, IsSocketIn, queue_at, OtherQueuesStay, LeavesOthers};
ghost use Rattle.usock_core.specs.Steps.{Sends};

use crate::steps::put_in;
use chunk_queue::{Moved, fitting, room_in};
use kabi_types::Errno;
use kheap_slabs::{KHeap, Purse, Sock, SockState};

/// Writes bytes to the peer of a socket, as many as it has room for (POSIX write).
///
/// ENOTCONN where the socket isn't connected; EPIPE where it was shut for writing, or its peer has closed or was shut for
/// reading; EAGAIN where there is no room yet and the writer doesn't wait.
pub fn sock_write(
    heap: &mut KHeap,
    purse: &mut Purse,
    key: u32,
    nonblock: bool,
    bytes: &[u8],
) -> Moved
    requires owned { OwnsItsObjects heap.old }
    requires there { IsSocketIn heap.old key }
    requires pays { CanPay heap.old purse.old }
    requires enough { (min (length bytes.now) capacity + 511) / 512 ≤ purse.old.left.chunk }
    ensures answer { (sockets : Sockets) → StandsFor heap.old sockets
        → moving_of result ≡ plain_write sockets key nonblock (length bytes.now) }
    ensures stands { (sockets : Sockets) → StandsFor heap.old sockets
        → StandsFor heap.new (after_write sockets key bytes.now (moved_by result)) }
    ensures sends { (sockets : Sockets) → StandsFor heap.old sockets
        → Sends heap.old purse.old heap.new purse.new (peer_of (stage_at sockets key)) (moved_by result) }
    ensures held { (named : List ℕ) → IsHeldIn heap.old named → IsHeldIn heap.new named }
    ensures owned { OwnsItsObjects heap.new }
    ensures others { LeavesOthers heap.old heap.new }
    ensures paid { IsPaid heap.old purse.old heap.new purse.new }
    ensures pays { CanPay heap.new purse.new }
    ensures purse { PaysChunks purse.old purse.new }
    ensures refused { UnlessMoved result ((heap.new ≡ heap.old) × (purse.new ≡ purse.old)) }
{
    let sock = *heap.get_sock(key);
    let SockState::Connected { shut_write, .. } = sock.state else {
        return Moved::Fault(Errno::ENOTCONN);
    };
    match sock.peer {
        Some(peer) if !shut_write => write_to(heap, purse, peer, nonblock, bytes),
        _ => Moved::Fault(Errno::EPIPE),
    }
}

/// Whether a write to a socket, of which so many bytes are left, would have to wait: it writes still, its peer is there and
/// reads still but has no room, and the writer waits.
pub fn sock_write_waits(heap: &KHeap, key: u32, nonblock: bool, left: u32) -> bool
    requires { IsSocketIn heap.now key }
    ensures { (sockets : Sockets) → StandsFor heap.now sockets
        → result ≡ would_wait (plain_write sockets key nonblock left) }
{
    let sock = heap.get_sock(key);
    match (sock.state, sock.peer) {
        (SockState::Connected { shut_write, .. }, Some(peer)) => {
            !shut_write && peer_waits(heap.get_sock(peer), nonblock, left)
        }
        _ => false,
    }
}

/// Whether nobody can read what is written to a socket that is connected: it was shut for writing, or its peer has closed or was shut
/// for reading.
pub fn sock_is_unread(heap: &KHeap, key: u32) -> bool
    requires { IsSocketIn heap.now key }
    ensures { (sockets : Sockets) → StandsFor heap.now sockets → result ≡ is_unread_in sockets (stage_at sockets key) }
{
    let sock = heap.get_sock(key);
    match (sock.state, sock.peer) {
        (SockState::Connected { shut_write, .. }, Some(peer)) => {
            shut_write || reads_no_more(heap.get_sock(peer))
        }
        (SockState::Connected { .. }, None) => true,
        _ => false,
    }
}

// Whether a write of so many bytes to this peer would have to wait.
fn peer_waits(peer: &Sock, nonblock: bool, left: u32) -> bool
    requires { peer.now.queue.len ≤ capacity }
    ensures { (sockets : Sockets) (key : ℕ) → IsShape peer.now (socket_at sockets key)
        → peer.now.queue.len ≡ length (socket_at sockets key).bytes
        → result ≡ would_wait (plain_write_to sockets (Some key) nonblock left) }
{
    !reads_no_more(peer) && fitting(left as usize, room_in(&peer.queue)).is_none() && !nonblock
}

// Writes bytes to a peer that is there.
fn write_to(heap: &mut KHeap, purse: &mut Purse, peer: u32, nonblock: bool, bytes: &[u8]) -> Moved
    requires owned { OwnsItsObjects heap.old }
    requires there { IsSocketIn heap.old peer }
    requires pays { CanPay heap.old purse.old }
    requires enough { (min (length bytes.now) capacity + 511) / 512 ≤ purse.old.left.chunk }
    ensures answer { (sockets : Sockets) → StandsFor heap.old sockets
        → moving_of result ≡ plain_write_to sockets (Some peer) nonblock (length bytes.now) }
    ensures table { (sockets : Sockets) → StandsFor heap.old sockets
        → IsTable heap.new (sent_to sockets (Some peer) (take (moved_by result) bytes.now)) }
    ensures sends { Sends heap.old purse.old heap.new purse.new (Some peer) (moved_by result) }
    ensures owned { OwnsItsObjects heap.new }
    ensures others { LeavesOthers heap.old heap.new }
    ensures paid { IsPaid heap.old purse.old heap.new purse.new }
    ensures pays { CanPay heap.new purse.new }
    ensures purse { PaysChunks purse.old purse.new }
    ensures refused { UnlessMoved result ((heap.new ≡ heap.old) × (purse.new ≡ purse.old)) }
{
    let receiver = *heap.get_sock(peer);
    if reads_no_more(&receiver) {
        return Moved::Fault(Errno::EPIPE);
    }
    match fitting(bytes.len(), room_in(&receiver.queue)) {
        Some(count) => {
            put_in(heap, purse, peer, receiver, &bytes[..count as usize]);
            Moved::Bytes(count)
        }
        None => Moved::not_now(nonblock),
    }
}

// Whether a socket was shut for reading.
fn reads_no_more(sock: &Sock) -> bool
    ensures { (socket : Socket) → IsShape sock.now socket → result ≡ is_shut_read socket.stage }
{
    match sock.state {
        SockState::Connected { shut_read, .. } => shut_read,
        SockState::Idle | SockState::Listening => false,
    }
}
