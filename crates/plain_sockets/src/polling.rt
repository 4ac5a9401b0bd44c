ghost use Rattle.std.specs.Prelude.{◌≡◌, ◌<◌, ◌≤◌, Some, length, true};
ghost use Rattle.plain_sockets.specs.Held.{HasSocket, sockets_in};
ghost use Rattle.posix_defs.specs.Socket.{peer_of};
ghost use Rattle.posix_defs.specs.Sockets.{is_refused, polled_connected, sock_polled, socket_at, stage_at};

use crate::sockets::Sockets;
use plain_bytes::{POLLHUP, POLLIN, POLLOUT, event_if};

/// How many may wait for a listening socket.
const BACKLOG: usize = 8;

impl Sockets {
    /// Whether as many wait for a listening socket as may.
    pub fn is_refused(&self, listener: u32) -> bool
        requires { HasSocket self.now listener }
        ensures { result ≡ is_refused (sockets_in self.now) (Some listener) }
    {
        self.at(listener).waiting().len() >= BACKLOG
    }

    /// What `poll` tells of a socket.
    #[tactic(auto, using(crate::proofs::StageLemmas::polled_joined, crate::proofs::StageLemmas::polled_listening, crate::proofs::StageLemmas::polled_idle))]
    pub fn polled(&self, place: u32, events: i64) -> u8
        requires { HasSocket self.now place }
        ensures { result ≡ sock_polled (sockets_in self.now) place events }
    {
        let socket = self.at(place);
        if socket.is_connected() {
            self.polled_connected(place, events)
        } else if socket.listens() {
            event_if(POLLIN, events, !socket.waiting().is_empty())
        } else {
            POLLHUP
        }
    }

    // Of one that is connected.
    fn polled_connected(&self, place: u32, events: i64) -> u8
        requires { HasSocket self.now place }
        ensures { result ≡ polled_connected (sockets_in self.now) (socket_at (sockets_in self.now) place).bytes
            (peer_of (stage_at (sockets_in self.now) place)) events }
    {
        let socket = self.at(place);
        let Some(peer) = socket.peer() else {
            return event_if(POLLIN, events, true) + POLLHUP;
        };
        let ready = socket.unread() > 0 || self.writes_no_more(Some(peer));
        event_if(POLLIN, events, ready) + event_if(POLLOUT, events, self.free_at(peer) > 0)
    }
}
