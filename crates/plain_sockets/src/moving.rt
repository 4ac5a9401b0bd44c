//! What a read and a write of a socket come to.

ghost use Rattle.std.specs.Prelude.{◌≡◌, Option};
ghost use Rattle.plain_bytes.specs.Moving.{meant};
ghost use Rattle.plain_sockets.specs.Held.{HasSocket, sockets_in};
ghost use Rattle.posix_defs.specs.Calls.Writing.{is_unread_in};
ghost use Rattle.posix_defs.specs.Sockets.{free_at, reads_no_more, sock_read, sock_write, stage_at, write_to, writes_no_more};

use crate::socket::Socket;
use crate::sockets::Sockets;
use kabi_types::Errno;
use plain_bytes::Moving;

impl Sockets {
    /// What a read of at most so many bytes comes to.
    #[tactic(auto, using(crate::proofs::StageLemmas::read_apart, crate::proofs::StageLemmas::read_joined))]
    pub fn reads(&self, place: u32, nonblock: bool, count: u32) -> Moving
        requires { HasSocket self.now place }
        ensures { meant result ≡ sock_read (sockets_in self.now) place nonblock count }
    {
        let socket = self.at(place);
        if !socket.is_connected() {
            return Moving::Fails(Errno::ENOTCONN);
        }
        let unread = socket.unread();
        if socket.is_shut_read() {
            Moving::Moves(0)
        } else if unread > 0 {
            Moving::Moves(count.min(unread))
        } else if self.writes_no_more(socket.peer()) {
            Moving::Moves(0)
        } else {
            Moving::not_now(nonblock)
        }
    }

    /// What a write comes to of which so many bytes are left.
    #[tactic(auto, using(crate::proofs::StageLemmas::write_apart, crate::proofs::StageLemmas::write_joined))]
    pub fn writes(&self, place: u32, nonblock: bool, left: u32) -> Moving
        requires { HasSocket self.now place }
        ensures { meant result ≡ sock_write (sockets_in self.now) place nonblock left }
    {
        let socket = self.at(place);
        if !socket.is_connected() {
            return Moving::Fails(Errno::ENOTCONN);
        }
        if socket.is_shut_write() {
            return Moving::Fails(Errno::EPIPE);
        }
        self.writes_to(socket.peer(), nonblock, left)
    }

    /// Whether nobody reads what is written to a socket.
    #[tactic(auto, using(crate::proofs::StageLemmas::unread_is))]
    pub fn is_unread(&self, place: u32) -> bool
        requires { HasSocket self.now place }
        ensures { result ≡ is_unread_in (sockets_in self.now) (stage_at (sockets_in self.now) place) }
    {
        let socket = self.at(place);
        socket.is_connected() && (socket.is_shut_write() || self.reads_no_more(socket.peer()))
    }

    // Whether nothing more comes from a peer.
    pub(crate) fn writes_no_more(&self, peer: Option<u32>) -> bool
        ensures { result ≡ writes_no_more (sockets_in self.now) peer }
    {
        let Some(peer) = peer else {
            return true;
        };
        match self.find(peer) {
            Some(socket) => socket.is_shut_write(),
            None => false,
        }
    }

    // Whether a peer takes nothing more.
    fn reads_no_more(&self, peer: Option<u32>) -> bool
        ensures { result ≡ reads_no_more (sockets_in self.now) peer }
    {
        let Some(peer) = peer else {
            return true;
        };
        match self.find(peer) {
            Some(socket) => socket.is_shut_read(),
            None => false,
        }
    }

    // What a write to a peer comes to.
    fn writes_to(&self, peer: Option<u32>, nonblock: bool, left: u32) -> Moving
        ensures { meant result ≡ write_to (sockets_in self.now) peer nonblock left }
    {
        let Some(peer) = peer else {
            return Moving::Fails(Errno::EPIPE);
        };
        if self.reads_no_more(Some(peer)) {
            return Moving::Fails(Errno::EPIPE);
        }
        let free = self.free_at(peer);
        if left <= free {
            Moving::Moves(left)
        } else if free == 0 {
            Moving::not_now(nonblock)
        } else {
            Moving::Moves(free)
        }
    }

    /// How many bytes more a socket takes.
    pub fn free_at(&self, place: u32) -> u32
        ensures { result ≡ free_at (sockets_in self.now) place }
    {
        match self.find(place) {
            Some(socket) => socket.free(),
            None => 4096,
        }
    }
}
