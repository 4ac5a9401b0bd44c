ghost use Rattle.std.specs.Prelude.{◌≡◌};

use crate::{Bytes64, Path, PollList};

/// A system call with its operands, as the process makes it. Addresses, lengths, descriptors and flags are the numbers
/// that the script gave, not checked yet.
#[derive(Drop)]
pub enum Call {
    Getpid,
    Getppid,
    SchedYield,
    Fork,
    Exec {
        path: Path,
    },
    Exit {
        status: i64,
    },
    Waitpid {
        pid: i64,
        options: i64,
    },
    Kill {
        pid: i64,
        signal: i64,
    },
    Mmap {
        length: i64,
    },
    Munmap {
        addr: i64,
        length: i64,
    },
    Store {
        addr: i64,
        bytes: Bytes64,
    },
    Load {
        addr: i64,
        n: i64,
    },
    OpenFile {
        path: Path,
        flags: i64,
    },
    Close {
        fd: i64,
    },
    Dup {
        fd: i64,
    },
    Dup2 {
        fd: i64,
        to: i64,
    },
    Fcntl {
        fd: i64,
        cmd: i64,
        arg: i64,
    },
    Read {
        fd: i64,
        addr: i64,
        n: i64,
    },
    /// `done` is what an earlier part of this write moved, in bytes.
    Write {
        fd: i64,
        addr: i64,
        n: i64,
        done: u32,
    },
    Pread {
        fd: i64,
        addr: i64,
        n: i64,
        at: i64,
    },
    Pwrite {
        fd: i64,
        addr: i64,
        n: i64,
        at: i64,
    },
    Lseek {
        fd: i64,
        offset: i64,
        whence: i64,
    },
    Readdir {
        fd: i64,
        addr: i64,
        n: i64,
    },
    Ftruncate {
        fd: i64,
        length: i64,
    },
    Fstat {
        fd: i64,
    },
    Stat {
        path: Path,
    },
    Chdir {
        path: Path,
    },
    Mkdir {
        path: Path,
    },
    Rmdir {
        path: Path,
    },
    Unlink {
        path: Path,
    },
    Link {
        old: Path,
        new: Path,
    },
    Rename {
        old: Path,
        new: Path,
    },
    Pipe,
    Socket,
    Socketpair,
    Bind {
        fd: i64,
        path: Path,
    },
    Listen {
        fd: i64,
    },
    Connect {
        fd: i64,
        path: Path,
    },
    Accept {
        fd: i64,
    },
    Shutdown {
        fd: i64,
        how: i64,
    },
    Poll {
        timeout: i64,
        entries: PollList,
    },
    Signal {
        signal: i64,
        disposition: i64,
    },
    Mkfifo {
        path: Path,
    },
    /// `fcntl` with F_SETLK, from the file's start.
    Setlk {
        fd: i64,
        kind: i64,
        start: i64,
        length: i64,
    },
    /// `fcntl` with F_SETLKW, from the file's start.
    Setlkw {
        fd: i64,
        kind: i64,
        start: i64,
        length: i64,
    },
    /// `fcntl` with F_GETLK, from the file's start.
    Getlk {
        fd: i64,
        kind: i64,
        start: i64,
        length: i64,
    },
}

/// Which call it is, without its operands.
#[derive(Clone, Copy, PartialEq)]
pub enum CallKind {
    Getpid,
    Getppid,
    SchedYield,
    Fork,
    Exec,
    Exit,
    Waitpid,
    Kill,
    Mmap,
    Munmap,
    Store,
    Load,
    OpenFile,
    Close,
    Dup,
    Dup2,
    Fcntl,
    Read,
    Write,
    Pread,
    Pwrite,
    Lseek,
    Readdir,
    Ftruncate,
    Fstat,
    Stat,
    Chdir,
    Mkdir,
    Rmdir,
    Unlink,
    Link,
    Rename,
    Pipe,
    Socket,
    Socketpair,
    Bind,
    Listen,
    Connect,
    Accept,
    Shutdown,
    Poll,
    Signal,
    Mkfifo,
    Setlk,
    Setlkw,
    Getlk,
}

impl CallKind {
    /// Every call, in the order of `Call`.
    pub const ALL: [CallKind; 46] = [
        CallKind::Getpid,
        CallKind::Getppid,
        CallKind::SchedYield,
        CallKind::Fork,
        CallKind::Exec,
        CallKind::Exit,
        CallKind::Waitpid,
        CallKind::Kill,
        CallKind::Mmap,
        CallKind::Munmap,
        CallKind::Store,
        CallKind::Load,
        CallKind::OpenFile,
        CallKind::Close,
        CallKind::Dup,
        CallKind::Dup2,
        CallKind::Fcntl,
        CallKind::Read,
        CallKind::Write,
        CallKind::Pread,
        CallKind::Pwrite,
        CallKind::Lseek,
        CallKind::Readdir,
        CallKind::Ftruncate,
        CallKind::Fstat,
        CallKind::Stat,
        CallKind::Chdir,
        CallKind::Mkdir,
        CallKind::Rmdir,
        CallKind::Unlink,
        CallKind::Link,
        CallKind::Rename,
        CallKind::Pipe,
        CallKind::Socket,
        CallKind::Socketpair,
        CallKind::Bind,
        CallKind::Listen,
        CallKind::Connect,
        CallKind::Accept,
        CallKind::Shutdown,
        CallKind::Poll,
        CallKind::Signal,
        CallKind::Mkfifo,
        CallKind::Setlk,
        CallKind::Setlkw,
        CallKind::Getlk,
    ];
}

impl Call {
    ghost use Rattle.kabi_types.specs.Call.{kind_of};

    /// Which call it is.
    pub fn kind(&self) -> CallKind
        ensures { result ≡ kind_of self.now }
    {
        match self {
            Call::Getpid => CallKind::Getpid,
            Call::Getppid => CallKind::Getppid,
            Call::SchedYield => CallKind::SchedYield,
            Call::Fork => CallKind::Fork,
            Call::Exec { .. } => CallKind::Exec,
            Call::Exit { .. } => CallKind::Exit,
            Call::Waitpid { .. } => CallKind::Waitpid,
            Call::Kill { .. } => CallKind::Kill,
            Call::Mmap { .. } => CallKind::Mmap,
            Call::Munmap { .. } => CallKind::Munmap,
            Call::Store { .. } => CallKind::Store,
            Call::Load { .. } => CallKind::Load,
            Call::OpenFile { .. } => CallKind::OpenFile,
            Call::Close { .. } => CallKind::Close,
            Call::Dup { .. } => CallKind::Dup,
            Call::Dup2 { .. } => CallKind::Dup2,
            Call::Fcntl { .. } => CallKind::Fcntl,
            Call::Read { .. } => CallKind::Read,
            Call::Write { .. } => CallKind::Write,
            Call::Pread { .. } => CallKind::Pread,
            Call::Pwrite { .. } => CallKind::Pwrite,
            Call::Lseek { .. } => CallKind::Lseek,
            Call::Readdir { .. } => CallKind::Readdir,
            Call::Ftruncate { .. } => CallKind::Ftruncate,
            Call::Fstat { .. } => CallKind::Fstat,
            Call::Stat { .. } => CallKind::Stat,
            Call::Chdir { .. } => CallKind::Chdir,
            Call::Mkdir { .. } => CallKind::Mkdir,
            Call::Rmdir { .. } => CallKind::Rmdir,
            Call::Unlink { .. } => CallKind::Unlink,
            Call::Link { .. } => CallKind::Link,
            Call::Rename { .. } => CallKind::Rename,
            Call::Pipe => CallKind::Pipe,
            Call::Socket => CallKind::Socket,
            Call::Socketpair => CallKind::Socketpair,
            Call::Bind { .. } => CallKind::Bind,
            Call::Listen { .. } => CallKind::Listen,
            Call::Connect { .. } => CallKind::Connect,
            Call::Accept { .. } => CallKind::Accept,
            Call::Shutdown { .. } => CallKind::Shutdown,
            Call::Poll { .. } => CallKind::Poll,
            Call::Signal { .. } => CallKind::Signal,
            Call::Mkfifo { .. } => CallKind::Mkfifo,
            Call::Setlk { .. } => CallKind::Setlk,
            Call::Setlkw { .. } => CallKind::Setlkw,
            Call::Getlk { .. } => CallKind::Getlk,
        }
    }
}
