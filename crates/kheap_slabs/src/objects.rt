use kabi_types::ranges::Range;
use kabi_types::{Control, Inode, Name27};

/// A process. It stays after its end until its parent has waited for it.
#[derive(Clone, Copy)]
pub struct Proc {
    pub pid: u32,
    /// The parent's pid.
    pub parent: u32,
    /// The wait status once it has ended: 256 times the exit status, or a signal's number. None
    /// while it is alive.
    pub status: Option<u16>,
    /// The number of the node that is its working directory.
    pub cwd: u32,
    /// Whether it ignores SIGPIPE: else a write that nobody can read ends it.
    pub ignores_pipe: bool,
    /// Whether it ignores SIGTERM.
    pub ignores_term: bool,
    pub control: Control,
    /// The open of a FIFO in which it sleeps, if it sleeps in one.
    pub opening: Option<HalfOpen>,
    /// The open descriptors of the first 32 numbers.
    pub descriptors: [Option<Descriptor>; 32],
    /// The keys of its Nodes; None where none of those 64 pages is mapped.
    pub nodes: [Option<u32>; 4],
    /// The keys of its Leaves: of the numbers from 32, from 64 and from 96 on; None where none of those 32 is open.
    pub leaves: [Option<u32>; 3],
}

/// An open of a FIFO that has made its end, and waits for the other side.
#[derive(Clone, Copy)]
pub struct HalfOpen {
    /// The descriptor that it will tell.
    pub fd: u32,
    /// How often the other side had been opened by then.
    pub seen: u32,
}

/// An open descriptor of a process.
#[derive(Clone, Copy)]
pub struct Descriptor {
    /// The key of its Desc.
    pub desc: u32,
    /// FD_CLOEXEC: whether `exec` closes it.
    pub close_on_exec: bool,
}

/// The open descriptors of 32 further numbers of a process, of which one is open.
#[derive(Clone, Copy)]
pub struct Leaf {
    pub descriptors: [Option<Descriptor>; 32],
}

/// 64 neighbouring page entries of an address space.
#[derive(Clone, Copy)]
pub struct Node {
    pub entries: [PageEntry; 64],
}

/// What an address space has at a page.
#[derive(Clone, Copy, PartialEq)]
pub enum PageEntry {
    Unmapped,
    /// Mapped, all zero, with no frame yet.
    Zero,
    /// The key of the Page that has its bytes.
    Frame(u32),
}

/// A frame of memory.
#[derive(Clone, Copy)]
pub struct Page {
    pub bytes: [u8; 4096],
    /// How many page entries name it.
    pub count: u32,
}

/// An open file description.
#[derive(Clone, Copy)]
pub struct Desc {
    pub target: Target,
    /// The offset in a file or a directory, in bytes.
    pub offset: u64,
    pub access: Access,
    pub flags: DescFlags,
    /// How many descriptors name it.
    pub count: u32,
}

/// What a description is open on.
#[derive(Clone, Copy)]
pub enum Target {
    /// The number of a file or a directory.
    Inode(u32),
    /// The key of a pipe. The access tells its end.
    Pipe(u32),
    /// The key of a socket.
    Sock(u32),
}

/// What a description is open for.
#[derive(Clone, Copy)]
pub enum Access {
    Read,
    Write,
    Both,
}

/// The status flags of a description.
#[derive(Clone, Copy)]
pub struct DescFlags {
    /// O_APPEND.
    pub append: bool,
    /// O_NONBLOCK.
    pub nonblock: bool,
}

/// A cached inode.
#[derive(Clone, Copy)]
pub struct Vnode {
    /// The number of its node.
    pub number: u32,
    pub inode: Inode,
    /// How many descriptions, working directories and turns hold it.
    pub pins: u32,
}

/// A cached directory entry.
#[derive(Drop)]
pub struct Name {
    /// The number of the directory.
    pub dir: u32,
    pub name: Name27,
    /// The number of the node that it names.
    pub node: u32,
}

/// A cached disk block.
#[derive(Clone, Copy)]
pub struct Block {
    /// Its number on the disk.
    pub number: u32,
    pub bytes: [u8; 1024],
}

/// A range of a file that a process has locked.
#[derive(Clone, Copy)]
pub struct Lock {
    /// The process.
    pub pid: u32,
    /// The number of the file's node.
    pub node: u32,
    pub range: Range,
    /// The key of the next Lock.
    pub next: Option<u32>,
}

/// A pipe.
#[derive(Clone, Copy)]
pub struct Pipe {
    pub queue: QueueParts,
    /// How many descriptions have its read end.
    pub readers: u32,
    /// How many descriptions have its write end.
    pub writers: u32,
    /// The node of the FIFO whose pipe it is; 0 of a pipe that `pipe` made.
    pub node: u32,
    /// How often the FIFO was opened to read so far.
    pub read_opens: u32,
    /// How often it was opened to write so far.
    pub write_opens: u32,
    /// The key of the next FIFO's Pipe.
    pub next: Option<u32>,
}

/// A queue of bytes, as its owner in the heap keeps it. The empty queue is None, None, 0, 0.
#[derive(Clone, Copy, Default)]
pub struct QueueParts {
    /// The key of its first Chunk.
    pub first: Option<u32>,
    /// The key of its last Chunk.
    pub last: Option<u32>,
    /// Where in the first Chunk the first unread byte is.
    pub place: u32,
    /// How many bytes are unread.
    pub len: u32,
}

/// 512 bytes of a queue.
#[derive(Clone, Copy)]
pub struct Chunk {
    pub bytes: [u8; 512],
    /// The key of the next Chunk of the queue.
    pub next: Option<u32>,
}

/// A socket. The bytes in its queue are those that it is to read.
#[derive(Clone, Copy)]
pub struct Sock {
    pub state: SockState,
    pub queue: QueueParts,
    /// The key of the socket that it is connected to, while that one is there.
    pub peer: Option<u32>,
    /// The number of the node that it is bound to.
    pub node: Option<u32>,
    /// The keys of those that wait to be accepted, the first one first, with None behind them.
    pub waiting: [Option<u32>; 8],
}

/// How far a socket has come.
#[derive(Clone, Copy)]
pub enum SockState {
    /// Neither listening nor connected.
    Idle,
    Listening,
    Connected {
        /// It reads no more.
        shut_read: bool,
        /// It writes no more.
        shut_write: bool,
    },
}
