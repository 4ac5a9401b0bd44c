//! What a call on names tells its caller.

ghost use Rattle.std.specs.Prelude.{◌≡◌};
ghost use Rattle.path_calls.specs.Replies.{done_reply, freed_node, freed_reply};

use kabi_types::{Errno, Reply};

/// 0, or why nothing was done.
pub(crate) fn done(answer: Result<(), Errno>) -> Reply
    ensures { result ≡ done_reply answer }
{
    match answer {
        Ok(()) => Reply::Val(0),
        Err(errno) => Reply::Fail(errno),
    }
}

/// The same of a call that may have freed a socket's name.
pub(crate) fn gone_reply(answer: Result<Option<u32>, Errno>) -> Reply
    ensures { result ≡ freed_reply answer }
{
    match answer {
        Ok(_) => Reply::Val(0),
        Err(errno) => Reply::Fail(errno),
    }
}

/// The node of the socket's name that was freed, if one was.
pub(crate) fn freed(answer: &Result<Option<u32>, Errno>) -> Option<u32>
    ensures { result ≡ freed_node answer.now }
{
    match answer {
        Ok(freed) => *freed,
        Err(_) => None,
    }
}
