ghost use Rattle.std.specs.Prelude.{◌≡◌};
ghost use Rattle.kabi_types.specs.Errno.{number_of, name_of};

use thiserror::Error;

/// Why a call failed, under the names of POSIX's errno.h. The numbers are this kernel's own.
#[derive(Clone, Copy, Debug, PartialEq, Error)]
pub enum Errno {
    #[error("operation not permitted")]
    EPERM,
    #[error("no such file or directory")]
    ENOENT,
    #[error("no such process")]
    ESRCH,
    #[error("no such device or address")]
    ENXIO,
    #[error("executable file format error")]
    ENOEXEC,
    #[error("bad file descriptor")]
    EBADF,
    #[error("no child processes")]
    ECHILD,
    #[error("resource unavailable, try again")]
    EAGAIN,
    #[error("not enough space")]
    ENOMEM,
    #[error("permission denied")]
    EACCES,
    #[error("bad address")]
    EFAULT,
    #[error("resource busy")]
    EBUSY,
    #[error("file exists")]
    EEXIST,
    #[error("not a directory")]
    ENOTDIR,
    #[error("is a directory")]
    EISDIR,
    #[error("invalid argument")]
    EINVAL,
    #[error("too many open files")]
    EMFILE,
    #[error("file too large")]
    EFBIG,
    #[error("no space left on device")]
    ENOSPC,
    #[error("invalid seek")]
    ESPIPE,
    #[error("too many links")]
    EMLINK,
    #[error("broken pipe")]
    EPIPE,
    #[error("resource deadlock avoided")]
    EDEADLK,
    #[error("file name too long")]
    ENAMETOOLONG,
    #[error("directory not empty")]
    ENOTEMPTY,
    #[error("value too large")]
    EOVERFLOW,
    #[error("not a socket")]
    ENOTSOCK,
    #[error("destination address required")]
    EDESTADDRREQ,
    #[error("operation not supported on socket")]
    EOPNOTSUPP,
    #[error("address in use")]
    EADDRINUSE,
    #[error("socket is connected")]
    EISCONN,
    #[error("socket is not connected")]
    ENOTCONN,
    #[error("connection refused")]
    ECONNREFUSED,
}

impl Errno {
    /// The number that a script sees, negated, as the first value of a failed call.
    pub fn number(self) -> u8
        ensures { result ≡ number_of self }
    {
        match self {
            Errno::EPERM => 1,
            Errno::ENOENT => 2,
            Errno::ESRCH => 3,
            Errno::ENXIO => 6,
            Errno::ENOEXEC => 8,
            Errno::EBADF => 9,
            Errno::ECHILD => 10,
            Errno::EAGAIN => 11,
            Errno::ENOMEM => 12,
            Errno::EACCES => 13,
            Errno::EFAULT => 14,
            Errno::EBUSY => 16,
            Errno::EEXIST => 17,
            Errno::ENOTDIR => 20,
            Errno::EISDIR => 21,
            Errno::EINVAL => 22,
            Errno::EMFILE => 24,
            Errno::EFBIG => 27,
            Errno::ENOSPC => 28,
            Errno::ESPIPE => 29,
            Errno::EMLINK => 31,
            Errno::EPIPE => 32,
            Errno::EDEADLK => 35,
            Errno::ENAMETOOLONG => 36,
            Errno::ENOTEMPTY => 39,
            Errno::EOVERFLOW => 75,
            Errno::ENOTSOCK => 88,
            Errno::EDESTADDRREQ => 89,
            Errno::EOPNOTSUPP => 95,
            Errno::EADDRINUSE => 98,
            Errno::EISCONN => 106,
            Errno::ENOTCONN => 107,
            Errno::ECONNREFUSED => 111,
        }
    }

    /// The errno's name in reports, as errno.h spells it.
    pub fn name(self) -> &'static str
        ensures { result.now ≡ name_of self }
    {
        match self {
            Errno::EPERM => "EPERM",
            Errno::ENOENT => "ENOENT",
            Errno::ESRCH => "ESRCH",
            Errno::ENXIO => "ENXIO",
            Errno::ENOEXEC => "ENOEXEC",
            Errno::EBADF => "EBADF",
            Errno::ECHILD => "ECHILD",
            Errno::EAGAIN => "EAGAIN",
            Errno::ENOMEM => "ENOMEM",
            Errno::EACCES => "EACCES",
            Errno::EFAULT => "EFAULT",
            Errno::EBUSY => "EBUSY",
            Errno::EEXIST => "EEXIST",
            Errno::ENOTDIR => "ENOTDIR",
            Errno::EISDIR => "EISDIR",
            Errno::EINVAL => "EINVAL",
            Errno::EMFILE => "EMFILE",
            Errno::EFBIG => "EFBIG",
            Errno::ENOSPC => "ENOSPC",
            Errno::ESPIPE => "ESPIPE",
            Errno::EMLINK => "EMLINK",
            Errno::EPIPE => "EPIPE",
            Errno::EDEADLK => "EDEADLK",
            Errno::ENAMETOOLONG => "ENAMETOOLONG",
            Errno::ENOTEMPTY => "ENOTEMPTY",
            Errno::EOVERFLOW => "EOVERFLOW",
            Errno::ENOTSOCK => "ENOTSOCK",
            Errno::EDESTADDRREQ => "EDESTADDRREQ",
            Errno::EOPNOTSUPP => "EOPNOTSUPP",
            Errno::EADDRINUSE => "EADDRINUSE",
            Errno::EISCONN => "EISCONN",
            Errno::ENOTCONN => "ENOTCONN",
            Errno::ECONNREFUSED => "ECONNREFUSED",
        }
    }
}
