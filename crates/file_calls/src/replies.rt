//! What a call on files tells its caller, beside what most calls do.

ghost use Rattle.std.specs.Prelude.{◌≡◌, ◌≤◌, IfOk};
ghost use Rattle.posix_defs.specs.Calls.OnFiles.{greatest_offset};
ghost use Rattle.proc_numbers.specs.Answering.{stat_of, value_of};

use kabi_types::{Errno, Reply, StatInfo};

/// An offset, or why there is none.
pub(crate) fn offset(sought: Result<u64, Errno>) -> Reply
    requires { IfOk sought (λ place. place ≤ greatest_offset) }
    ensures { result ≡ value_of sought }
{
    match sought {
        Ok(place) => Reply::Val(place as i64),
        Err(errno) => Reply::Fail(errno),
    }
}

/// What a number is open on, or why that can't be told.
pub(crate) fn stat(told: Result<StatInfo, Errno>) -> Reply
    ensures { result ≡ stat_of told }
{
    match told {
        Ok(info) => Reply::Stat(info),
        Err(errno) => Reply::Fail(errno),
    }
}
