ghost use Rattle.std.specs.Prelude.{◌≡◌, ◌-◌, ◌≤◌, ◌++◌, [], ◌∷◌, length, take, drop, true, Some, OnOk, OnErr};
ghost use Rattle.plain_bytes.specs.Unread.{IsQueue, taken_by};
ghost use Rattle.plain_sockets.specs.Accepting.{meant};
ghost use Rattle.plain_sockets.specs.Held.{in_stage, named, queue_of, with_unread};
ghost use Rattle.posix_defs.specs.Files.SocketNames.{listens, listens_at};
ghost use Rattle.posix_defs.specs.Files.State.{is_number};
ghost use Rattle.posix_defs.specs.Pipe.{capacity};
ghost use Rattle.posix_defs.specs.Socket.{Connected, Listening, accept, after_shutdown, bind_fault, connect_fault, connected_to, is_connected, is_shut_read, is_shut_write, listen_fault, listening, new_socket, peer_of, shut_further, shutdown_fault, shuts_reading, shuts_writing, waiting_of, without_first, without_peer};
ghost use Rattle.std.specs.Prelude.{false};

use crate::accepting::Accepting;
use crate::stage::Stage;
use kabi_types::{Errno, Memory};
use plain_bytes::Queue;
use std::alloc::Global;
use std::marker::Model;

/// A Unix stream socket. Contracts see the socket of the definitions, and the front of what it has to read.
#[derive(Drop)]
pub struct Socket {
    stage: Stage,
    queue: Queue,
    node: Option<u32>,
}

impl Model for Socket {
    ghost use Rattle.plain_bytes.specs.Unread.{IsQueue};
    ghost use Rattle.plain_sockets.specs.Held.{Held, queue_of};

    ghost Value = { Held };

    ghost use Rattle.plain_sockets.specs.Inside.{held_in};

    ghost view = { held_in };

    ghost invariant = { λ socket. IsQueue (queue_of (held_in socket)) };
}

impl Socket {
    /// What `socket` makes.
    pub(crate) fn new(alloc: Global) -> Socket
        ensures { result ≡ record { socket = new_socket; front = 0 } }
    {
        Socket {
            stage: Stage::Idle,
            queue: Queue::new(alloc),
            node: None,
        }
    }

    /// One that is connected from its beginning.
    pub(crate) fn connected_to(alloc: Global, peer: u32) -> Socket
        ensures { result ≡ record { socket = connected_to peer; front = 0 } }
    {
        Socket {
            stage: Stage::Connected {
                peer: Some(peer),
                shut_read: false,
                shut_write: false,
            },
            queue: Queue::new(alloc),
            node: None,
        }
    }

    /// The bytes that it has still to read, the first one first.
    pub fn bytes(&self) -> &[u8]
        ensures { result.now ≡ self.now.socket.bytes }
    {
        self.queue.bytes()
    }

    /// How many these are.
    pub(crate) fn unread(&self) -> u32
        ensures { result ≡ length self.now.socket.bytes }
    {
        self.queue.len()
    }

    /// How many bytes more it takes.
    pub(crate) fn free(&self) -> u32
        ensures { result ≡ capacity - length self.now.socket.bytes }
    {
        self.queue.free()
    }

    /// How many chunks its bytes take.
    pub(crate) fn chunks(&self) -> u64
        ensures value { result ≡ taken_by (queue_of self.now) }
        ensures few { result ≤ 9 }
        ensures queue { IsQueue (queue_of self.now) }
    {
        self.queue.chunks()
    }

    /// Whether it is connected, also where its peer has closed.
    pub fn is_connected(&self) -> bool
        ensures { result ≡ is_connected self.now.socket.stage }
    {
        self.stage.is_connected()
    }

    /// Whether it listens.
    pub fn listens(&self) -> bool
        ensures { result ≡ listens self.now.socket.stage }
    {
        self.stage.listens()
    }

    /// Its peer while that one is there.
    pub fn peer(&self) -> Option<u32>
        ensures { result ≡ peer_of self.now.socket.stage }
    {
        self.stage.peer()
    }

    pub(crate) fn is_shut_read(&self) -> bool
        ensures { result ≡ is_shut_read self.now.socket.stage }
    {
        self.stage.is_shut_read()
    }

    pub(crate) fn is_shut_write(&self) -> bool
        ensures { result ≡ is_shut_write self.now.socket.stage }
    {
        self.stage.is_shut_write()
    }

    /// Those that wait to be accepted, the first one first.
    pub fn waiting(&self) -> &[u32]
        ensures { result.now ≡ waiting_of self.now.socket.stage }
    {
        self.stage.waiting()
    }

    /// Whether it is bound to this node.
    pub(crate) fn has_name(&self, number: u32) -> bool
        ensures { result ≡ is_number number self.now.socket.node }
    {
        self.node == Some(number)
    }

    /// Whether it listens under the name of this node.
    pub(crate) fn listens_at(&self, number: u32) -> bool
        ensures { result ≡ listens_at number (Some self.now.socket) }
    {
        self.has_name(number) && self.listens()
    }

    /// Why it isn't bound, whatever the path.
    pub fn bind_fault(&self) -> Option<Errno>
        ensures { result ≡ bind_fault self.now.socket }
    {
        if self.node.is_some() {
            Some(Errno::EINVAL)
        } else if self.is_connected() {
            Some(Errno::EISCONN)
        } else {
            None
        }
    }

    /// Why it can't listen.
    pub fn listen_fault(&self) -> Option<Errno>
        ensures { result ≡ listen_fault self.now.socket }
    {
        if self.is_connected() {
            Some(Errno::EINVAL)
        } else if self.node.is_none() {
            Some(Errno::EDESTADDRREQ)
        } else {
            None
        }
    }

    /// Why it isn't connected, whatever the path.
    pub fn connect_fault(&self) -> Option<Errno>
        ensures { result ≡ connect_fault self.now.socket.stage }
    {
        match &self.stage {
            Stage::Idle => None,
            Stage::Listening(_) => Some(Errno::EOPNOTSUPP),
            Stage::Connected { .. } => Some(Errno::EISCONN),
        }
    }

    /// Why it isn't shut.
    pub fn shutdown_fault(&self) -> Option<Errno>
        ensures { result ≡ shutdown_fault self.now.socket.stage }
    {
        if self.is_connected() {
            None
        } else {
            Some(Errno::ENOTCONN)
        }
    }

    /// What an accept comes to, where there is room for one descriptor more or none.
    pub fn accepts(&self, room: bool, nonblock: bool) -> Accepting
        ensures { meant result ≡ accept self.now.socket.stage room nonblock }
    {
        self.stage.accepts(room, nonblock)
    }

    pub(crate) fn set_name(&mut self, node: Option<u32>)
        ensures { self.new ≡ named self.old node }
    {
        self.node = node;
    }

    pub(crate) fn listen(&mut self, alloc: Global)
        ensures { self.new ≡ in_stage self.old (listening self.old.socket.stage) }
    {
        self.stage.listen(alloc);
    }

    pub(crate) fn wait(&mut self, alloc: Global, place: u32) -> Result<(), Memory>
        ensures waits { OnOk result (self.new ≡ in_stage self.old (Listening (waiting_of self.old.socket.stage ++ place ∷ []))) }
        ensures queue { queue_of self.new ≡ queue_of self.old }
    {
        self.stage.wait(alloc, place)
    }

    pub(crate) fn connect(&mut self, peer: u32)
        ensures { self.new ≡ in_stage self.old (Connected (Some peer) false false) }
    {
        self.stage = Stage::Connected {
            peer: Some(peer),
            shut_read: false,
            shut_write: false,
        };
    }

    pub(crate) fn let_first_go(&mut self)
        ensures { self.new ≡ in_stage self.old (without_first self.old.socket.stage) }
    {
        self.stage.let_first_go();
    }

    pub(crate) fn leave_alone(&mut self)
        ensures { self.new ≡ in_stage self.old (without_peer self.old.socket.stage) }
    {
        self.stage.leave_alone();
    }

    /// It is shut. Once it reads no more what is there goes.
    pub(crate) fn shut(&mut self, how: i64)
        ensures shut { self.new.socket ≡ after_shutdown self.old.socket how }
        ensures front { self.new.front ≡ (with_unread self.old (after_shutdown self.old.socket how).bytes).front }
        ensures queue { IsQueue (queue_of self.new) }
    {
        self.stage.shut(shuts_reading(how), shuts_writing(how));
        if shuts_reading(how) {
            self.queue.clear();
        }
    }

    /// Its first bytes were read.
    pub(crate) fn drop_first(&mut self, count: u32)
        ensures read { self.new ≡ with_unread self.old (drop count self.old.socket.bytes) }
        ensures queue { IsQueue (queue_of self.new) }
    {
        self.queue.drop_first(count);
    }

    /// The first so many of these bytes come behind those that it has to read. Where the host has no memory nothing changes.
    pub(crate) fn put(&mut self, bytes: &[u8], count: u32) -> Result<(), Memory>
        requires there { count ≤ length bytes.now }
        requires fit { count ≤ capacity - length self.old.socket.bytes }
        ensures written { OnOk result (self.new ≡ with_unread self.old (self.old.socket.bytes ++ take count bytes.now)) }
        ensures kept { OnErr result (self.new ≡ self.old) }
        ensures queue { IsQueue (queue_of self.new) }
    {
        self.queue.put(&bytes[..count as usize])
    }
}

// SHUT_RD 0, SHUT_WR 1, SHUT_RDWR 2.
fn shuts_reading(how: i64) -> bool
    ensures { result ≡ shuts_reading how }
{
    how == 0 || how == 2
}

fn shuts_writing(how: i64) -> bool
    ensures { result ≡ shuts_writing how }
{
    how == 1 || how == 2
}
