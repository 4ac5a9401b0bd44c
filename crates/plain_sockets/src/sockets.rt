ghost use Rattle.std.specs.Prelude.{◌≡◌, ◌+◌, ◌-◌, ◌<◌, ◌≤◌, ◌^◌, ◌++◌, [], ◌∷◌, length, take, false, None, Some, is_some, IfOk, OnOk, OnErr};
ghost use Rattle.std.specs.List.{count_by, position_from};
ghost use Rattle.std.specs.Option.{option_copied, option_map};
ghost use Rattle.kept_places.specs.Places.{at};
ghost use Rattle.plain_bytes.specs.Unread.{nothing};
ghost use Rattle.plain_sockets.specs.Held.{FrontsFollow, HasSocket, OnlyFades, first_bound, first_listening, fronts_in, is_bound_to, lengths_in, queue_of, socket_of, sockets_in};
ghost use Rattle.posix_defs.specs.Account.{chunks_taken};
ghost use Rattle.posix_defs.specs.Files.SocketNames.{listener_at};
ghost use Rattle.posix_defs.specs.Socket.{Connected, Listening, waiting_of, without_peer};
ghost use Rattle.posix_defs.specs.Sockets.{after_accept, after_listen, after_read, after_shut, free_at, sock_at, socket_at, stage_at, with_bytes, with_name, with_socket, with_stage};

use crate::socket::Socket;
use kabi_types::Memory;
use kept_places::{Kept, Places};
use std::alloc::Global;
use std::marker::Model;

/// All sockets ever made, by their places, each with the front of what it has to read.
#[derive(Drop)]
pub struct Sockets {
    places: Places<Socket>,
    // The chunks of all of them together.
    chunks: u64,
}

impl Model for Sockets {
    ghost use Rattle.std.specs.Prelude.{List, Option};
    ghost use Rattle.plain_bytes.specs.Many.{AreKept};
    ghost use Rattle.plain_sockets.specs.Held.{Held, queue_of};

    ghost Value = { List (Option Held) };

    ghost view = { λ sockets. sockets.places };

    ghost invariant = { λ sockets. AreKept queue_of sockets.places sockets.chunks };
}

impl Sockets {
    /// No socket was made yet.
    pub fn new(alloc: Global) -> Sockets
        ensures { result ≡ [] }
    {
        Sockets {
            places: Places::new(alloc),
            chunks: 0,
        }
    }

    /// How many were made, those that have gone among them.
    pub fn made(&self) -> u32
        ensures { result ≡ length (sockets_in self.now) }
    {
        self.places.made()
    }

    /// How many there are.
    pub fn count(&self) -> u32
        ensures { result ≡ count_by is_some (sockets_in self.now) }
    {
        self.places.there().len() as u32
    }

    /// How many chunks the bytes of all take.
    pub fn chunks(&self) -> u64
        ensures { result ≡ chunks_taken (lengths_in self.now) (fronts_in self.now) }
    {
        self.chunks
    }

    /// The socket of a place; None where it has gone, and where none was made.
    pub fn find(&self, place: u32) -> Option<&Socket>
        ensures { option_map socket_of (option_copied result) ≡ sock_at (sockets_in self.now) place }
    {
        self.places.get(place)
    }

    /// The socket of a place.
    pub fn at(&self, place: u32) -> &Socket
        requires { HasSocket self.now place }
        ensures socket { result.now.socket ≡ socket_at (sockets_in self.now) place }
        ensures there { at self.now place ≡ Some result.now }
    {
        match self.places.get(place) {
            Some(socket) => socket,
            None => unreachable!(),
        }
    }

    // Where no socket changes no front does.
    pub(crate) fn stays(&self)
        ensures { FrontsFollow self.now self.now }
    {
        let _ = &self.places;
    }

    /// A socket without a byte comes behind the others, and its place is told. Where the host has no memory nothing changes.
    pub(crate) fn add(&mut self, socket: Socket) -> Result<u32, Memory>
        requires room { length (sockets_in self.old) + 1 < 2 ^ 32 }
        requires empty { queue_of socket ≡ nothing }
        ensures place { IfOk result (λ place. place ≡ length (sockets_in self.old)) }
        ensures sockets { OnOk result (sockets_in self.new ≡ with_socket (sockets_in self.old) (length (sockets_in self.old)) (Some socket.socket)) }
        ensures fades { OnOk result (OnlyFades self.old self.new) }
        ensures kept { OnErr result (self.new ≡ self.old) }
    {
        self.places.push(socket)
    }

    /// A socket gets a name, or loses it.
    pub fn set_name(&mut self, place: u32, node: Option<u32>)
        requires { HasSocket self.old place }
        ensures sockets { sockets_in self.new ≡ with_name (sockets_in self.old) place node }
        ensures fronts { FrontsFollow self.old self.new }
    {
        let socket = self.places.get_mut(place);
        socket.set_name(node);
    }

    /// A socket listens from now on; one that listens goes on.
    pub fn listen(&mut self, alloc: Global, place: u32)
        requires { HasSocket self.old place }
        ensures sockets { sockets_in self.new ≡ after_listen (sockets_in self.old) place }
        ensures fronts { FrontsFollow self.old self.new }
    {
        let socket = self.places.get_mut(place);
        socket.listen(alloc);
    }

    /// The first that waits for a socket is accepted.
    pub fn accept(&mut self, place: u32)
        requires { HasSocket self.old place }
        ensures sockets { sockets_in self.new ≡ after_accept (sockets_in self.old) place }
        ensures fronts { FrontsFollow self.old self.new }
    {
        let socket = self.places.get_mut(place);
        socket.let_first_go();
    }

    /// A socket is connected to another one.
    pub(crate) fn connect_to(&mut self, place: u32, peer: u32)
        requires { HasSocket self.old place }
        ensures sockets { sockets_in self.new ≡ with_stage (sockets_in self.old) place (Connected (Some peer) false false) }
        ensures fades { OnlyFades self.old self.new }
    {
        let socket = self.places.get_mut(place);
        socket.connect(peer);
    }

    /// A socket waits behind the others of a listening one.
    pub(crate) fn wait_at(&mut self, alloc: Global, place: u32, waiting: u32) -> Result<(), Memory>
        requires { HasSocket self.old place }
        ensures sockets { OnOk result (sockets_in self.new
            ≡ with_stage (sockets_in self.old) place (Listening (waiting_of (stage_at (sockets_in self.old) place) ++ waiting ∷ []))) }
        ensures fades { OnlyFades self.old self.new }
    {
        let socket = self.places.get_mut(place);
        socket.wait(alloc, waiting)
    }

    /// The peer of a socket has closed.
    pub(crate) fn leave_alone(&mut self, place: u32)
        requires { HasSocket self.old place }
        ensures sockets { sockets_in self.new ≡ with_stage (sockets_in self.old) place (without_peer (stage_at (sockets_in self.old) place)) }
        ensures fades { OnlyFades self.old self.new }
    {
        let socket = self.places.get_mut(place);
        socket.leave_alone();
    }

    /// A socket is shut for reading, for writing or for both.
    pub fn shut(&mut self, place: u32, how: i64)
        requires { HasSocket self.old place }
        ensures sockets { sockets_in self.new ≡ after_shut (sockets_in self.old) place how }
        ensures fronts { FrontsFollow self.old self.new }
    {
        let socket = self.places.get_mut(place);
        let before = socket.chunks();
        socket.shut(how);
        self.chunks = self.chunks - before + socket.chunks();
    }

    /// The first bytes of a socket were read.
    pub fn drop_first(&mut self, place: u32, count: u32)
        requires { HasSocket self.old place }
        ensures sockets { sockets_in self.new ≡ after_read (sockets_in self.old) place count }
        ensures fronts { FrontsFollow self.old self.new }
    {
        let socket = self.places.get_mut(place);
        let before = socket.chunks();
        socket.drop_first(count);
        self.chunks = self.chunks - before + socket.chunks();
    }

    /// Bytes come behind those that a socket has to read. Where the host has no memory nothing changes.
    pub(crate) fn put_at(&mut self, place: u32, bytes: &[u8], count: u32) -> Result<(), Memory>
        requires there { HasSocket self.old place }
        requires some { count ≤ length bytes.now }
        requires fit { count ≤ free_at (sockets_in self.old) place }
        ensures sockets { OnOk result (sockets_in self.new
            ≡ with_bytes (sockets_in self.old) place ((socket_at (sockets_in self.old) place).bytes ++ take count bytes.now)) }
        ensures fronts { OnOk result (FrontsFollow self.old self.new) }
        ensures kept { OnErr result (self.new ≡ self.old) }
    {
        let socket = self.places.get_mut(place);
        let before = socket.chunks();
        socket.put(bytes, count)?;
        self.chunks = self.chunks - before + socket.chunks();
        Ok(())
    }

    /// A socket goes, with the bytes that it was to read, and is handed out.
    pub(crate) fn remove(&mut self, place: u32) -> Socket
        requires { HasSocket self.old place }
        ensures socket { result.socket ≡ socket_at (sockets_in self.old) place }
        ensures sockets { sockets_in self.new ≡ with_socket (sockets_in self.old) place None }
        ensures fades { OnlyFades self.old self.new }
    {
        let Some(socket) = self.places.remove(place) else {
            unreachable!()
        };
        self.chunks -= socket.chunks();
        socket
    }

    /// The place of the socket that listens under the name of a node.
    pub fn listener_at(&self, number: u32) -> Option<u32>
        ensures { result ≡ listener_at (sockets_in self.now) number }
    {
        first_listening(self.places.there(), number)
    }

    /// The place of the first socket that is bound to a node.
    pub(crate) fn bound_to(&self, number: u32) -> Option<u32>
        ensures { result ≡ position_from (is_bound_to number) 0 (sockets_in self.now) }
    {
        first_bound(self.places.there(), number)
    }
}

// The place of the first of these sockets that listens under the name of a node.
fn first_listening(there: &[Kept<Socket>], number: u32) -> Option<u32>
    ensures { result ≡ first_listening number there.now }
{
    for kept in there {
        if kept.what.listens_at(number) {
            return Some(kept.place);
        }
    }
    None
}

// The place of the first of these sockets that is bound to a node.
fn first_bound(there: &[Kept<Socket>], number: u32) -> Option<u32>
    ensures { result ≡ first_bound number there.now }
{
    for kept in there {
        if kept.what.has_name(number) {
            return Some(kept.place);
        }
    }
    None
}
