//! Changes of two sockets or more.

ghost use Rattle.std.specs.Prelude.{◌≡◌, ◌≢◌, ℕ, ◌+◌, ◌<◌, ◌≤◌, ◌^◌, length, Some, IfOk, OnOk, OnErr};
ghost use Rattle.plain_sockets.specs.Held.{FrontsFollow, HasSocket, sockets_in};
ghost use Rattle.posix_defs.specs.Files.SocketNames.{none_bound_to};
ghost use Rattle.posix_defs.specs.Socket.{peer_of};
ghost use Rattle.posix_defs.specs.SocketLinks.{AreNamedOnce};
ghost use Rattle.posix_defs.specs.Sockets.{after_connect, after_write, free_at, stage_at, with_new, with_pair};

use crate::socket::Socket;
use crate::sockets::Sockets;
use kabi_types::Memory;
use std::alloc::Global;

impl Sockets {
    /// Makes a socket, and tells its place. Where the host has no memory none is made.
    pub fn make(&mut self, alloc: Global) -> Result<u32, Memory>
        requires { length (sockets_in self.old) + 1 < 2 ^ 32 }
        ensures place { IfOk result (λ place. place ≡ length (sockets_in self.old)) }
        ensures sockets { OnOk result (sockets_in self.new ≡ with_new (sockets_in self.old) (length (sockets_in self.old))) }
        ensures fronts { OnOk result (FrontsFollow self.old self.new) }
        ensures kept { OnErr result (self.new ≡ self.old) }
    {
        self.add(Socket::new(alloc))
    }

    /// Makes two that are connected to each other, and tells the place of the first; the other has the next.
    pub fn make_pair(&mut self, alloc: Global) -> Result<u32, Memory>
        requires { length (sockets_in self.old) + 2 < 2 ^ 32 }
        ensures place { IfOk result (λ place. place ≡ length (sockets_in self.old)) }
        ensures sockets { OnOk result (sockets_in self.new
            ≡ with_pair (sockets_in self.old) (length (sockets_in self.old)) (length (sockets_in self.old) + 1)) }
        ensures fronts { OnOk result (FrontsFollow self.old self.new) }
    {
        let one = self.made();
        self.add(Socket::connected_to(alloc, one + 1))?;
        self.add(Socket::connected_to(alloc, one))?;
        Ok(one)
    }

    /// A client's peer is made, and waits behind the others for a listener.
    pub fn connect(&mut self, alloc: Global, client: u32, listener: u32) -> Result<(), Memory>
        requires room { length (sockets_in self.old) + 1 < 2 ^ 32 }
        requires client { HasSocket self.old client }
        requires listener { HasSocket self.old listener }
        requires apart { client ≢ listener }
        ensures sockets { OnOk result (sockets_in self.new ≡ after_connect (sockets_in self.old) client listener (length (sockets_in self.old))) }
        ensures fronts { OnOk result (FrontsFollow self.old self.new) }
    {
        let made = self.add(Socket::connected_to(alloc, client))?;
        self.connect_to(client, made);
        self.wait_at(alloc, listener, made)
    }

    /// The first so many of these bytes are written by a socket: its peer has them to read. Where the host has no memory
    /// nothing changes.
    pub fn put(&mut self, place: u32, bytes: &[u8], count: u32) -> Result<(), Memory>
        requires there { HasSocket self.old place }
        requires peer { (peer : ℕ) → peer_of (stage_at (sockets_in self.old) place) ≡ Some peer → HasSocket self.old peer }
        requires some { count ≤ length bytes.now }
        requires fit { (peer : ℕ) → peer_of (stage_at (sockets_in self.old) place) ≡ Some peer → count ≤ free_at (sockets_in self.old) peer }
        ensures sockets { OnOk result (sockets_in self.new ≡ after_write (sockets_in self.old) place bytes.now count) }
        ensures fronts { OnOk result (FrontsFollow self.old self.new) }
        ensures kept { OnErr result (self.new ≡ self.old) }
    {
        match self.at(place).peer() {
            Some(peer) => self.put_at(peer, bytes, count),
            None => {
                self.stays();
                Ok(())
            }
        }
    }

    /// The name of a node has gone: the socket that was bound to it keeps none.
    pub fn forget_name(&mut self, number: u32)
        requires { AreNamedOnce (sockets_in self.old) }
        ensures sockets { sockets_in self.new ≡ none_bound_to (sockets_in self.old) number }
        ensures fronts { FrontsFollow self.old self.new }
    {
        match self.bound_to(number) {
            Some(place) => self.set_name(place, None),
            None => self.stays(),
        }
    }
}
