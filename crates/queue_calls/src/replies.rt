//! What a call that makes two descriptors tells its caller.

ghost use Rattle.std.specs.Prelude.{◌≡◌};
ghost use Rattle.proc_numbers.specs.Answering.{pair_of};

use kabi_types::{Errno, Reply};

/// Two numbers, or why there aren't any.
pub(crate) fn pair(made: Result<(u32, u32), Errno>) -> Reply
    ensures { result ≡ pair_of made }
{
    match made {
        Ok((one, other)) => Reply::Pair(one, other),
        Err(errno) => Reply::Fail(errno),
    }
}
