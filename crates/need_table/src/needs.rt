ghost use Rattle.std.specs.Prelude.{◌≡◌, ◌-◌, ◌<◌, ◌≤◌, ◌^◌, length, None};
ghost use Rattle.kabi_types.specs.Arguments.{argument_fault, range_fault, count_of};
ghost use Rattle.posix_defs.specs.Sizes.{no_need};
ghost use Rattle.posix_defs.specs.Needs.{need_of, objects_of, leaf_need, lock_need, walk_need, two_walks_need, read_need, write_need, stored_bytes, pages_touched, pages_in, nodes_for, chunks_for};

use kabi_types::{Call, Need};

/// In bytes.
const PAGE_SIZE: u64 = 4096;

/// The command of `fcntl` that makes a further descriptor.
const F_DUPFD: i64 = 0;

/// The number of bytes that an operand gives.
fn count_of(number: i64) -> u64
    ensures value { result ≡ count_of number }
    ensures below { result < 2 ^ 63 }
{
    u64::try_from(number).unwrap_or(0)
}

/// How many groups of 64 page entries the pages of so many bytes may lie in.
fn nodes(length: i64) -> u32
    ensures { result ≡ nodes_for (pages_in (count_of length)) }
{
    let pages = (count_of(length) + (PAGE_SIZE - 1)) / PAGE_SIZE;
    ((pages + 62) / 64 + 1).min(4) as u32
}

/// How many pages the bytes from an address on lie in.
fn pages(addr: i64, n: u64) -> u32
    requires { range_fault addr n ≡ None }
    ensures { result ≡ pages_touched (count_of addr) n }
{
    let first = count_of(addr);
    if n == 0 {
        return 0;
    }
    ((first + n - 1) / PAGE_SIZE - first / PAGE_SIZE + 1) as u32
}

/// How many chunks a queue may need for what is left of `n` bytes when `done` were moved.
fn chunks(n: i64, done: u32) -> u32
    ensures { result ≡ chunks_for (count_of n - done) }
{
    let left = count_of(n).saturating_sub(u64::from(done));
    ((left.min(4096) + 511) / 512) as u32
}

/// What walking a path may fill.
fn walk() -> Need
    ensures { result ≡ walk_need }
{
    Need {
        vnode: 2,
        name: 2,
        block: 2,
        ..Need::default()
    }
}

/// What walking two paths may fill.
fn two_walks() -> Need
    ensures { result ≡ two_walks_need }
{
    Need {
        vnode: 4,
        name: 4,
        ..walk()
    }
}

fn read_into(addr: i64, n: i64) -> Need
    requires { range_fault addr (count_of n) ≡ None }
    ensures { result ≡ read_need (pages_touched (count_of addr) (count_of n)) }
{
    Need {
        page: pages(addr, count_of(n)),
        block: 2,
        ..Need::default()
    }
}

fn write_from(n: i64, done: u32) -> Need
    ensures { result ≡ write_need (count_of n - done) }
{
    Need {
        block: 2,
        chunk: chunks(n, done),
        ..Need::default()
    }
}

/// A process, the four nodes of its space and its three Leaves.
fn child() -> Need
    ensures { result ≡ record no_need { proc = 1; node = 4; leaf = 3 } }
{
    Need {
        proc: 1,
        node: 4,
        leaf: 3,
        ..Need::default()
    }
}

/// What a further descriptor may take.
fn leaf() -> Need
    ensures { result ≡ leaf_need }
{
    Need {
        leaf: 1,
        ..Need::default()
    }
}

/// The Locks that a range may take beside those that it goes over.
fn locks() -> Need
    ensures { result ≡ lock_need }
{
    Need {
        lock: 2,
        ..Need::default()
    }
}

/// So many descriptions, pipes and sockets, and what the descriptors take that name them.
fn ends(desc: u32, pipe: u32, sock: u32) -> Need
    ensures { result ≡ record leaf_need { desc = desc; pipe = pipe; sock = sock } }
{
    Need {
        desc,
        pipe,
        sock,
        ..leaf()
    }
}

/// A description and what its descriptor takes, and a pipe where a FIFO is opened.
fn opening() -> Need
    ensures { result ≡ record walk_need { desc = 1; leaf = 1; pipe = 1 } }
{
    Need {
        desc: 1,
        leaf: 1,
        pipe: 1,
        ..walk()
    }
}

/// The nodes of so many bytes of pages.
fn map(length: i64) -> Need
    ensures { result ≡ record no_need { node = nodes_for (pages_in (count_of length)) } }
{
    Need {
        node: nodes(length),
        ..Need::default()
    }
}

/// The pages that so many bytes are put into.
fn store(addr: i64, n: u64) -> Need
    requires { range_fault addr n ≡ None }
    ensures { result ≡ record no_need { page = pages_touched (count_of addr) n } }
{
    Need {
        page: pages(addr, n),
        ..Need::default()
    }
}

/// The objects of a call whose operands are right; many calls make none.
fn objects(call: &Call) -> Need
    requires { argument_fault call.now ≡ None }
    ensures objects { result ≡ objects_of call.now }
    ensures stored { length (stored_bytes call.now) ≤ 64 }
{
    match call {
        Call::Fork => child(),
        Call::Mmap { length } => map(*length),
        Call::Store { addr, bytes } => store(*addr, bytes.items().len() as u64),
        Call::OpenFile { .. } => opening(),
        Call::Dup { .. } | Call::Dup2 { .. } | Call::Fcntl { cmd: F_DUPFD, .. } => leaf(),
        Call::Connect { .. } => Need { sock: 1, ..walk() },
        Call::Exec { .. }
        | Call::Stat { .. }
        | Call::Chdir { .. }
        | Call::Mkdir { .. }
        | Call::Rmdir { .. }
        | Call::Unlink { .. }
        | Call::Bind { .. }
        | Call::Mkfifo { .. } => walk(),
        Call::Link { .. } | Call::Rename { .. } => two_walks(),
        Call::Read { addr, n, .. } | Call::Pread { addr, n, .. } | Call::Readdir { addr, n, .. } =>
            read_into(*addr, *n),
        Call::Write { n, done, .. } => write_from(*n, *done),
        Call::Pwrite { n, .. } => write_from(*n, 0),
        Call::Ftruncate { .. } => Need {
            block: 2,
            ..Need::default()
        },
        Call::Pipe => ends(2, 1, 0),
        Call::Socket => ends(1, 0, 1),
        Call::Socketpair => ends(2, 0, 2),
        Call::Accept { .. } => ends(1, 0, 0),
        Call::Setlk { .. } | Call::Setlkw { .. } => locks(),
        Call::Getpid
        | Call::Getppid
        | Call::SchedYield
        | Call::Exit { .. }
        | Call::Waitpid { .. }
        | Call::Kill { .. }
        | Call::Munmap { .. }
        | Call::Load { .. }
        | Call::Close { .. }
        | Call::Fcntl { .. }
        | Call::Lseek { .. }
        | Call::Fstat { .. }
        | Call::Listen { .. }
        | Call::Shutdown { .. }
        | Call::Poll { .. }
        | Call::Signal { .. }
        | Call::Getlk { .. } => Need::default(),
    }
}

/// The objects that a call may make: none where an operand is wrong. A write may make its two blocks or its chunks, and
/// never both.
pub fn need(call: &Call) -> Need
    ensures objects { result ≡ need_of call.now }
    ensures stored { argument_fault call.now ≡ None → length (stored_bytes call.now) ≤ 64 }
{
    if call.checked().is_err() {
        Need::default()
    } else {
        objects(call)
    }
}
