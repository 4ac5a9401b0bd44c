ghost use Rattle.std.specs.Prelude.{◌≡◌, ◌++◌, [], ◌∷◌, pos, OnOk};
ghost use Rattle.plain_sockets.specs.Accepting.{meant};
ghost use Rattle.plain_sockets.specs.Stages.{stage_of};
ghost use Rattle.posix_defs.specs.Files.SocketNames.{listens};
ghost use Rattle.posix_defs.specs.Socket.{Connected, Idle, Listening, accept, is_connected, is_shut_read, is_shut_write, listening, peer_of, shut_further, shuts_reading, shuts_writing, waiting_of, without_first, without_peer};

use crate::accepting::Accepting;
use kabi_types::{Errno, Memory};
use std::alloc::Global;

/// How far a socket has come.
#[derive(Drop)]
pub enum Stage {
    /// Neither listening nor connected.
    Idle,
    /// The places of those that wait to be accepted, the first one first.
    Listening(Vec<u32>),
    /// The place of its peer while that one is there, and what of it was shut.
    Connected {
        peer: Option<u32>,
        shut_read: bool,
        shut_write: bool,
    },
}

impl Stage {
    pub(crate) fn is_connected(&self) -> bool
        ensures { result ≡ is_connected (stage_of self.now) }
    {
        match self {
            Stage::Connected { .. } => true,
            _ => false,
        }
    }

    pub(crate) fn listens(&self) -> bool
        ensures { result ≡ listens (stage_of self.now) }
    {
        match self {
            Stage::Listening(_) => true,
            _ => false,
        }
    }

    pub(crate) fn peer(&self) -> Option<u32>
        ensures { result ≡ peer_of (stage_of self.now) }
    {
        match self {
            Stage::Connected { peer, .. } => *peer,
            _ => None,
        }
    }

    pub(crate) fn is_shut_read(&self) -> bool
        ensures { result ≡ is_shut_read (stage_of self.now) }
    {
        match self {
            Stage::Connected { shut_read, .. } => *shut_read,
            _ => false,
        }
    }

    pub(crate) fn is_shut_write(&self) -> bool
        ensures { result ≡ is_shut_write (stage_of self.now) }
    {
        match self {
            Stage::Connected { shut_write, .. } => *shut_write,
            _ => false,
        }
    }

    /// Those that wait to be accepted, the first one first.
    pub(crate) fn waiting(&self) -> &[u32]
        ensures { result.now ≡ waiting_of (stage_of self.now) }
    {
        match self {
            Stage::Listening(waiting) => waiting.as_slice(),
            _ => &[],
        }
    }

    pub(crate) fn accepts(&self, room: bool, nonblock: bool) -> Accepting
        ensures { meant result ≡ accept (stage_of self.now) room nonblock }
    {
        let Stage::Listening(waiting) = self else {
            return Accepting::Refuses(Errno::EINVAL);
        };
        if !room {
            return Accepting::Refuses(Errno::EMFILE);
        }
        match waiting.first() {
            Some(first) => Accepting::Takes(*first),
            None if nonblock => Accepting::Refuses(Errno::EAGAIN),
            None => Accepting::Waits,
        }
    }

    /// An idle one listens from now on.
    pub(crate) fn listen(&mut self, alloc: Global)
        ensures { stage_of self.new ≡ listening (stage_of self.old) }
    {
        if let Stage::Idle = self {
            *self = Stage::Listening(Vec::new(alloc));
        }
    }

    /// One more waits behind the others.
    pub(crate) fn wait(&mut self, alloc: Global, place: u32) -> Result<(), Memory>
        ensures { OnOk result (stage_of self.new ≡ Listening (waiting_of (stage_of self.old) ++ place ∷ [])) }
    {
        if let Stage::Listening(waiting) = self {
            waiting.push(place)?;
            return Ok(());
        }
        let mut waiting = Vec::new(alloc);
        waiting.push(place)?;
        *self = Stage::Listening(waiting);
        Ok(())
    }

    /// The first waits no more.
    pub(crate) fn let_first_go(&mut self)
        ensures { stage_of self.new ≡ without_first (stage_of self.old) }
    {
        if let Stage::Listening(waiting) = self {
            if !waiting.is_empty() {
                waiting.remove(0);
            }
        }
    }

    /// Its peer has closed.
    pub(crate) fn leave_alone(&mut self)
        ensures { stage_of self.new ≡ without_peer (stage_of self.old) }
    {
        if let Stage::Connected { peer, .. } = self {
            *peer = None;
        }
    }

    /// It is shut for reading, for writing or for both.
    pub(crate) fn shut(&mut self, reading: bool, writing: bool)
        ensures { stage_of self.new ≡ shut_further reading writing (stage_of self.old) }
    {
        if let Stage::Connected {
            shut_read,
            shut_write,
            ..
        } = self
        {
            *shut_read = *shut_read || reading;
            *shut_write = *shut_write || writing;
        }
    }
}
