//! What reading and writing answer.

ghost use Rattle.std.specs.Prelude.{◌≡◌};
ghost use Rattle.chunk_queue.specs.Moving.{moving_of, moved_by};
ghost use Rattle.posix_defs.specs.Pipe.{not_now as waiting};

use kabi_types::Errno;

/// What a read or a write of a pipe or a socket answers.
#[derive(Clone, Copy)]
pub enum Moved {
    /// So many bytes went.
    Bytes(u32),
    /// It would have to wait.
    Blocked,
    Fault(Errno),
}

impl Moved {
    /// What a call that can't go on yet answers: EAGAIN where it doesn't wait (O_NONBLOCK).
    pub fn not_now(nonblock: bool) -> Moved
        ensures answer { moving_of result ≡ waiting nonblock }
        ensures nothing { moved_by result ≡ 0 }
    {
        if nonblock {
            Moved::Fault(Errno::EAGAIN)
        } else {
            Moved::Blocked
        }
    }
}
