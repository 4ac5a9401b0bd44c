//! The argument check: what is wrong with the operands of a call, before anything else is looked at.

ghost use Rattle.std.specs.Prelude.{◌≡◌, ◌<◌, ◌^◌, ◌&&◌, ◌||◌, not, is_none};
ghost use Rattle.std.specs.Result.{result_err};
ghost use Rattle.kabi_types.specs.Arguments.{
  argument_fault,
  is_from,
  is_number,
  is_minus_one,
  is_within,
  may_be_descriptor,
  lie_in_space,
  is_page_range,
  truncates_unwritten,
  may_be_ignored,
  is_sendable,
  count_of,
  invalid_unless,
  range_fault,
  moved_fault,
  placed_fault,
  loaded_fault,
  open_fault,
  last_place,
  locked_fault,
  renamed_fault,
};
ghost use Rattle.kabi_types.specs.OpenFlags.{are_open_flags};
ghost use Rattle.kabi_types.specs.declared.calls.Call.{Call};

use crate::paths::{check_path, check_paths, ends_in_dots};
use crate::{Call, Errno, OpenFlags, Path};

/// In bytes.
const PAGE_SIZE: u64 = 4096;

/// The size of an address space, in bytes.
const SPACE_SIZE: u64 = 1048576;

/// The most bytes that a call may be asked to move.
const SSIZE_MAX: u32 = 32767;

/// How many descriptors a process has, OPEN_MAX: their numbers are those below it.
pub const MOST_DESCRIPTORS: u32 = 128;

/// The greatest place of a file that a process may hold.
const GREATEST_PLACE: u64 = 9223372036854775807;

/// The flag O_TRUNC of `open`, and the bits of its access mode, which is 0 where the file is only read.
const TRUNC: u64 = 512;

const ACCESS: u64 = 3;

fn is_from(low: u32, number: i64) -> bool
    ensures { result ≡ is_from low number }
{
    i64::from(low) <= number
}

fn is_within(low: u32, high: u32, number: i64) -> bool
    ensures { result ≡ is_within low high number }
{
    i64::from(low) <= number && number <= i64::from(high)
}

fn may_be_descriptor(number: i64) -> bool
    ensures { result ≡ may_be_descriptor number }
{
    0 <= number && number < i64::from(MOST_DESCRIPTORS)
}

/// The number of bytes that an operand gives, and 0 for one below 0.
fn count_of(number: i64) -> u64
    ensures count { result ≡ count_of number }
    ensures below { result < 2 ^ 63 }
{
    u64::try_from(number).unwrap_or(0)
}

fn lie_in_space(addr: i64, n: u64) -> bool
    ensures { result ≡ lie_in_space addr n }
{
    u64::try_from(addr).is_ok_and(|addr| addr <= SPACE_SIZE && n <= SPACE_SIZE - addr)
}

fn is_page_range(addr: i64, length: i64) -> bool
    ensures { result ≡ is_page_range addr length }
{
    let (Ok(first), Ok(n)) = (u64::try_from(addr), u64::try_from(length)) else {
        return false;
    };
    first % PAGE_SIZE == 0 && first <= SPACE_SIZE && n <= SPACE_SIZE - first
}

/// Whether `waitpid` takes these operands: a pid, or -1 for any child, and no option or WNOHANG. It is what
/// `Call::checked` tells of the call that has them.
pub fn may_wait(pid: i64, options: i64) -> bool
    ensures said { result ≡ ((is_minus_one pid || is_from 1 pid) && is_within 0 1 options) }
    ensures checked { result ≡ is_none (argument_fault (Call.Waitpid pid options)) }
{
    (pid == -1 || is_from(1, pid)) && is_within(0, 1, options)
}

/// Whether `kill` takes them: a pid, and signal 0, SIGKILL, SIGPIPE or SIGTERM.
fn may_kill(pid: i64, signal: i64) -> bool
    ensures { result ≡ (is_from 1 pid && is_sendable signal) }
{
    is_from(1, pid) && matches!(signal, 0 | 9 | 13 | 15)
}

/// Whether `signal` takes them: SIGPIPE or SIGTERM, and SIG_DFL or SIG_IGN.
fn may_dispose(signal: i64, disposition: i64) -> bool
    ensures { result ≡ (may_be_ignored signal && is_within 0 1 disposition) }
{
    matches!(signal, 13 | 15) && is_within(0, 1, disposition)
}

/// Whether `fcntl` has the command, and command 0 a descriptor to begin at.
fn is_command(cmd: i64, arg: i64) -> bool
    ensures { result ≡ (is_within 1 4 cmd || (is_number 0 cmd && may_be_descriptor arg)) }
{
    is_within(1, 4, cmd) || (cmd == 0 && may_be_descriptor(arg))
}

fn invalid_unless(right: bool) -> Result<(), Errno>
    ensures { result_err result ≡ invalid_unless right }
{
    if right { Ok(()) } else { Err(Errno::EINVAL) }
}

fn check_range(addr: i64, n: u64) -> Result<(), Errno>
    ensures { result_err result ≡ range_fault addr n }
{
    if n == 0 || lie_in_space(addr, n) {
        Ok(())
    } else {
        Err(Errno::EFAULT)
    }
}

/// The check of a call that moves from `least` to 32767 bytes.
fn check_moved(least: u32, addr: i64, n: i64) -> Result<(), Errno>
    ensures { result_err result ≡ moved_fault least addr n }
{
    invalid_unless(is_within(least, SSIZE_MAX, n))?;
    check_range(addr, count_of(n))
}

/// The same of a call that names a place in a file.
fn check_placed(addr: i64, n: i64, at: i64) -> Result<(), Errno>
    ensures { result_err result ≡ placed_fault addr n at }
{
    invalid_unless(is_within(0, SSIZE_MAX, n) && is_from(0, at))?;
    check_range(addr, count_of(n))
}

/// The check of `load`, which gives at most 64 bytes.
fn check_loaded(addr: i64, n: i64) -> Result<(), Errno>
    ensures { result_err result ≡ loaded_fault addr n }
{
    invalid_unless(is_within(0, 64, n))?;
    check_range(addr, count_of(n))
}

/// Whether the flags are ones that `open` knows, and O_TRUNC isn't among them where the file is only read.
fn may_open(flags: i64) -> bool
    ensures { result ≡ (are_open_flags flags && not (truncates_unwritten flags)) }
{
    OpenFlags::of(flags).is_some() && !truncates_unwritten(flags)
}

fn truncates_unwritten(flags: i64) -> bool
    ensures { result ≡ truncates_unwritten flags }
{
    u64::try_from(flags).is_ok_and(|bits| bits & TRUNC == TRUNC && bits & ACCESS == 0)
}

/// The last of so many places of a file from a start on; of 0 places the greatest that there is.
pub fn last_place(start: u64, length: u64) -> u64
    requires start { start < 2 ^ 63 }
    requires length { length < 2 ^ 63 }
    ensures { result ≡ last_place start length }
{
    if length == 0 {
        GREATEST_PLACE
    } else {
        start + length - 1
    }
}

/// The check of a call on places of a file that a process holds: the greatest kind that it takes is F_WRLCK or F_UNLCK.
fn check_locked(most: u32, kind: i64, start: i64, length: i64) -> Result<(), Errno>
    ensures { result_err result ≡ locked_fault most kind start length }
{
    invalid_unless(is_within(0, most, kind) && is_from(0, start) && is_from(0, length))?;
    if count_of(start) + count_of(length).saturating_sub(1) > GREATEST_PLACE {
        return Err(Errno::EOVERFLOW);
    }
    Ok(())
}

/// The check of two paths, which `rename` doesn't take where the last component is `.` or `..`.
fn check_renamed(old: &Path, new: &Path) -> Result<(), Errno>
    ensures { result_err result ≡ renamed_fault old.now new.now }
{
    check_paths(old, new)?;
    invalid_unless(!(ends_in_dots(old) || ends_in_dots(new)))
}

fn check_open(path: &Path, flags: i64) -> Result<(), Errno>
    ensures { result_err result ≡ open_fault path.now flags }
{
    invalid_unless(may_open(flags))?;
    check_path(path)
}

impl Call {
    /// The first fault of the operands, told before anything else: a number out of its range, memory outside the address
    /// space, an empty path or one with a name of more than 27 bytes. Whether a descriptor is open, a page is mapped or a
    /// file is there is not asked.
    pub fn checked(&self) -> Result<(), Errno>
        ensures { result_err result ≡ argument_fault self.now }
    {
        match self {
            Call::Waitpid { pid, options } => invalid_unless(may_wait(*pid, *options)),
            Call::Kill { pid, signal } => invalid_unless(may_kill(*pid, *signal)),
            Call::Signal {
                signal,
                disposition,
            } => invalid_unless(may_dispose(*signal, *disposition)),
            Call::Mmap { length } => invalid_unless(is_from(1, *length)),
            Call::Munmap { addr, length } => {
                invalid_unless(is_from(1, *length) && is_page_range(*addr, *length))
            }
            Call::Store { addr, bytes } => check_range(*addr, bytes.items().len() as u64),
            Call::Load { addr, n } => check_loaded(*addr, *n),
            Call::OpenFile { path, flags } => check_open(path, *flags),
            Call::Fcntl { cmd, arg, .. } => invalid_unless(is_command(*cmd, *arg)),
            Call::Read { addr, n, .. } | Call::Write { addr, n, .. } => check_moved(0, *addr, *n),
            Call::Pread { addr, n, at, .. } | Call::Pwrite { addr, n, at, .. } => {
                check_placed(*addr, *n, *at)
            }
            Call::Readdir { addr, n, .. } => check_moved(32, *addr, *n),
            Call::Lseek { whence, .. } => invalid_unless(is_within(0, 2, *whence)),
            Call::Shutdown { how, .. } => invalid_unless(is_within(0, 2, *how)),
            Call::Ftruncate { length, .. } => invalid_unless(is_from(0, *length)),
            Call::Poll { timeout, .. } => invalid_unless(matches!(*timeout, 0 | -1)),
            Call::Setlk {
                kind,
                start,
                length,
                ..
            }
            | Call::Setlkw {
                kind,
                start,
                length,
                ..
            } => check_locked(2, *kind, *start, *length),
            Call::Getlk {
                kind,
                start,
                length,
                ..
            } => check_locked(1, *kind, *start, *length),
            Call::Exec { path }
            | Call::Stat { path }
            | Call::Chdir { path }
            | Call::Mkdir { path }
            | Call::Rmdir { path }
            | Call::Unlink { path }
            | Call::Bind { path, .. }
            | Call::Connect { path, .. }
            | Call::Mkfifo { path } => check_path(path),
            Call::Link { old, new } => check_paths(old, new),
            Call::Rename { old, new } => check_renamed(old, new),
            // The others take any operands.
            _ => Ok(()),
        }
    }
}
