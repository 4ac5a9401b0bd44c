ghost use Rattle.std.specs.Prelude.{◌≡◌, ℕ, ◌≤◌, List, Some, length};
ghost use Rattle.posix_defs.specs.Pipe.{capacity};
ghost use Rattle.posix_defs.specs.Sockets.{Sockets, socket_at, sock_polled as plain_polled, polled_connected as plain_polled_connected};
ghost use Rattle.usock_core.specs.Standing.{IsShape, StandsFor, IsSocketIn};

use chunk_queue::{POLLHUP, POLLIN, POLLOUT, event_if, room_in};
use kheap_slabs::{KHeap, Sock, SockState};

/// What `poll` tells of a socket that is asked for these events (POSIX poll).
///
/// A listening one: POLLIN where one waits to be accepted. A connected one: POLLIN where bytes are there or the peer has
/// closed or was shut for writing; POLLHUP where the peer has closed, else POLLOUT where it takes a byte. Any other one:
/// POLLHUP.
pub fn sock_polled(heap: &KHeap, key: u32, events: i64) -> u8
    requires { IsSocketIn heap.now key }
    ensures { (sockets : Sockets) → StandsFor heap.now sockets → result ≡ plain_polled sockets key events }
{
    let sock = heap.get_sock(key);
    match sock.state {
        SockState::Idle => POLLHUP,
        SockState::Listening => event_if(POLLIN, events, sock.waiting[0].is_some()),
        SockState::Connected { .. } => match sock.peer {
            Some(peer) => polled_connected(sock.queue.len, heap.get_sock(peer), events),
            None => event_if(POLLIN, events, true) + POLLHUP,
        },
    }
}

// What is told of a connected socket with so many bytes unread, whose peer is there.
fn polled_connected(unread: u32, peer: &Sock, events: i64) -> u8
    requires { peer.now.queue.len ≤ capacity }
    ensures { (sockets : Sockets) (key : ℕ) (bytes : List ℕ) → IsShape peer.now (socket_at sockets key)
        → peer.now.queue.len ≡ length (socket_at sockets key).bytes → length bytes ≡ unread
        → length (socket_at sockets key).bytes ≤ capacity
        → result ≡ plain_polled_connected sockets bytes (Some key) events }
{
    let ended = match peer.state {
        SockState::Connected { shut_write, .. } => shut_write,
        SockState::Idle | SockState::Listening => false,
    };
    event_if(POLLIN, events, unread > 0 || ended)
        + event_if(POLLOUT, events, room_in(&peer.queue) > 0)
}
