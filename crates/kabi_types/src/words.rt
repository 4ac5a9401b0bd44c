ghost use Rattle.std.specs.Prelude.{◌≡◌};
ghost use Rattle.kabi_types.specs.Words.{word_of};

use crate::CallKind;

impl CallKind {
    /// The call's word in scripts and reports: its name in POSIX, but `exit` for `_exit`.
    pub fn word(self) -> &'static str
        ensures { result.now ≡ word_of self }
    {
        match self {
            CallKind::Getpid => "getpid",
            CallKind::Getppid => "getppid",
            CallKind::SchedYield => "sched_yield",
            CallKind::Fork => "fork",
            CallKind::Exec => "exec",
            CallKind::Exit => "exit",
            CallKind::Waitpid => "waitpid",
            CallKind::Kill => "kill",
            CallKind::Mmap => "mmap",
            CallKind::Munmap => "munmap",
            CallKind::Store => "store",
            CallKind::Load => "load",
            CallKind::OpenFile => "open",
            CallKind::Close => "close",
            CallKind::Dup => "dup",
            CallKind::Dup2 => "dup2",
            CallKind::Fcntl => "fcntl",
            CallKind::Read => "read",
            CallKind::Write => "write",
            CallKind::Pread => "pread",
            CallKind::Pwrite => "pwrite",
            CallKind::Lseek => "lseek",
            CallKind::Readdir => "readdir",
            CallKind::Ftruncate => "ftruncate",
            CallKind::Fstat => "fstat",
            CallKind::Stat => "stat",
            CallKind::Chdir => "chdir",
            CallKind::Mkdir => "mkdir",
            CallKind::Rmdir => "rmdir",
            CallKind::Unlink => "unlink",
            CallKind::Link => "link",
            CallKind::Rename => "rename",
            CallKind::Pipe => "pipe",
            CallKind::Socket => "socket",
            CallKind::Socketpair => "socketpair",
            CallKind::Bind => "bind",
            CallKind::Listen => "listen",
            CallKind::Connect => "connect",
            CallKind::Accept => "accept",
            CallKind::Shutdown => "shutdown",
            CallKind::Poll => "poll",
            CallKind::Signal => "signal",
            CallKind::Mkfifo => "mkfifo",
            CallKind::Setlk => "setlk",
            CallKind::Setlkw => "setlkw",
            CallKind::Getlk => "getlk",
        }
    }
}
