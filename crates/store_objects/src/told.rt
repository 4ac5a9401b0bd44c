//! What most calls tell their caller.

ghost use Rattle.std.specs.Prelude.{◌≡◌};
ghost use Rattle.proc_numbers.specs.Answering.{value_of, zero_of};

use kabi_types::{Errno, Reply};

/// A number, as of a descriptor or of bytes, or why there is none.
pub fn value(told: Result<u32, Errno>) -> Reply
    ensures { result ≡ value_of told }
{
    match told {
        Ok(value) => Reply::Val(i64::from(value)),
        Err(errno) => Reply::Fail(errno),
    }
}

/// 0, or why a call failed.
pub fn zero(done: Result<(), Errno>) -> Reply
    ensures { result ≡ zero_of done }
{
    match done {
        Ok(()) => Reply::Val(0),
        Err(errno) => Reply::Fail(errno),
    }
}
