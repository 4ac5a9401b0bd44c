ghost use Rattle.std.specs.Prelude.{◌≡◌, ◌<◌, ◌≤◌, ◌^◌, length};
ghost use Rattle.kabi_types.specs.Packed.{little_endian};

use crate::{Bytes64, Errno, Revents};

/// What a node or an open description is.
#[derive(Clone, Copy)]
pub enum NodeKind {
    File,
    Dir,
    Sock,
    Pipe,
    Fifo,
}

/// What `stat` and `fstat` tell: the node's number, its links and its size in bytes. A pipe or a socket that has no
/// node has 0 in all three.
#[derive(Clone, Copy)]
pub struct StatInfo {
    pub kind: NodeKind,
    pub number: u32,
    pub nlink: u32,
    pub size: u32,
}

/// What `poll` answers: how many of its entries have an event, and the events of each.
#[derive(Drop)]
pub struct PollHits {
    pub hits: u32,
    pub revents: Revents,
}

impl PollHits {
    /// An equal answer.
    pub fn copy(&self) -> Self
        ensures { result ≡ self.now }
    {
        PollHits {
            hits: self.hits,
            revents: self.revents.copy(),
        }
    }
}

/// What a call answers its process.
#[derive(Drop)]
pub enum Reply {
    Val(i64),
    Pair(u32, u32),
    Stat(StatInfo),
    /// A child's pid and its wait status: the exit status in the upper byte, or in the lower the signal that ended it.
    Waited(u32, u16),
    Polled(PollHits),
    Bytes(Bytes64),
    Fail(Errno),
}

/// The number whose bytes these are, the lowest first.
fn packed(bytes: &[u8]) -> u64
    requires { length bytes.now ≤ 8 }
    ensures value { result ≡ little_endian bytes.now }
    ensures bound { result < 256 ^ length bytes.now }
{
    match bytes {
        [] => 0,
        [lowest, rest @ ..] => u64::from(*lowest) + 256 * packed(rest),
    }
}

impl Reply {
    ghost use Rattle.kabi_types.specs.Reply.{first_of, second_of};

    /// The value that goes to the register named first.
    pub fn first(&self) -> i64
        ensures { result ≡ first_of self.now }
    {
        match self {
            Reply::Val(value) => *value,
            Reply::Pair(first, _) => i64::from(*first),
            Reply::Stat(info) => i64::from(info.number),
            Reply::Waited(pid, _) => i64::from(*pid),
            Reply::Polled(polled) => i64::from(polled.hits),
            Reply::Bytes(bytes) => i64::from(bytes.items().first().copied().unwrap_or(0)),
            Reply::Fail(errno) => -i64::from(errno.number()),
        }
    }

    /// The value that goes to the register named second; 0 where the reply has only one.
    pub fn second(&self) -> i64
        ensures { result ≡ second_of self.now }
    {
        match self {
            Reply::Pair(_, second) => i64::from(*second),
            Reply::Stat(info) => i64::from(info.size),
            Reply::Waited(_, status) => i64::from(*status),
            Reply::Polled(polled) => packed(polled.revents.items()).cast_signed(),
            Reply::Val(_) | Reply::Bytes(_) | Reply::Fail(_) => 0,
        }
    }

    /// An equal reply.
    pub fn copy(&self) -> Self
        ensures { result ≡ self.now }
    {
        match self {
            Reply::Val(value) => Reply::Val(*value),
            Reply::Pair(first, second) => Reply::Pair(*first, *second),
            Reply::Stat(info) => Reply::Stat(*info),
            Reply::Waited(pid, status) => Reply::Waited(*pid, *status),
            Reply::Polled(polled) => Reply::Polled(polled.copy()),
            Reply::Bytes(bytes) => Reply::Bytes(bytes.copy()),
            Reply::Fail(errno) => Reply::Fail(*errno),
        }
    }
}
