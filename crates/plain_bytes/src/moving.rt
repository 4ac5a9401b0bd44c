ghost use Rattle.std.specs.Prelude.{◌≡◌};
ghost use Rattle.plain_bytes.specs.Moving.{meant};
ghost use Rattle.posix_defs.specs.Pipe.{not_now as waits};

use kabi_types::Errno;

/// What a read or a write of a queue comes to, before anything changes.
#[derive(Clone, Copy, PartialEq)]
pub enum Moving {
    /// So many bytes move.
    Moves(u32),
    /// It would block.
    Blocks,
    /// It is refused.
    Fails(Errno),
}

impl Moving {
    /// What a call comes to that can't go on yet: EAGAIN where it doesn't wait (O_NONBLOCK).
    pub fn not_now(nonblock: bool) -> Moving
        ensures { meant result ≡ waits nonblock }
    {
        if nonblock {
            Moving::Fails(Errno::EAGAIN)
        } else {
            Moving::Blocks
        }
    }
}
