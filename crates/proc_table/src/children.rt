//! What becomes of one process when another ends, and which children a parent asks for.

ghost use Rattle.std.specs.Prelude.{◌≡◌, ◌<◌, slice_set, is_some};
ghost use Rattle.std.specs.Option.{option_and_then, option_copied};
ghost use Rattle.kheap_slabs.specs.Objects.{object, InUse};
ghost use Rattle.kheap_slabs.specs.Paid.{TakesNothing};
ghost use Rattle.kabi_types.specs.Arguments.{count_of};
ghost use Rattle.posix_defs.specs.Signals.{is_ignored, with_disposition};
ghost use Rattle.proc_table.specs.Changes.{is_wanted, left_behind, verdict};
ghost use Rattle.proc_table.specs.Procs.{ignored_by, with_ignored};

use kabi_types::Errno;
use kheap_slabs::{KHeap, Proc};

/// The pid of the process that was not forked.
pub(crate) const INIT: u32 = 1;

/// The signal of a write that nobody can read.
const SIGPIPE: u64 = 13;

/// The signal by which a process is asked to end.
const SIGTERM: u64 = 15;

// Has the process of a key left behind by the one of that pid, which ends. Whether it stays.
pub(crate) fn leave_one(heap: &mut KHeap, key: u32, pid: u32, status: u16) -> bool
    requires { InUse heap.old.procs key }
    ensures left { heap.new ≡ record heap.old {
      procs = slice_set heap.old.procs key (option_and_then (left_behind pid status) (object heap.old.procs key));
    } }
    ensures stays { result ≡ is_some (option_and_then (left_behind pid status) (object heap.old.procs key)) }
    ensures takes { TakesNothing heap.old heap.new }
{
    let proc = heap.get_proc(key);
    let parent = proc.parent;
    if proc.pid == pid {
        heap.set_proc_family(key, parent, Some(status));
        return true;
    }
    if parent != pid {
        return true;
    }
    if proc.status.is_some() {
        let _ = heap.free_proc(key);
        return false;
    }
    heap.set_proc_family(key, INIT, None);
    true
}

// Whether the caller of `waitpid`, which may ask for one pid or by -1 for all its children, asks for this process.
pub(crate) fn is_wanted(proc: &Proc, parent: u32, which: i64) -> bool
    ensures { result ≡ is_wanted parent which proc.now }
{
    proc.parent == parent && (which < 0 || which == i64::from(proc.pid))
}

// Whether a signal ends a process, if it is there.
pub(crate) fn judge(proc: Option<&Proc>, signal: i64) -> Result<bool, Errno>
    ensures { result ≡ verdict signal (option_copied proc.entry) }
{
    match proc {
        None => Err(Errno::ESRCH),
        Some(_) if signal == 0 => Ok(false),
        Some(proc) if proc.pid == INIT => Err(Errno::EPERM),
        Some(proc) => Ok(proc.status.is_none() && !ignores(proc, signal)),
    }
}

// The number of a signal; 0 where it is below that.
fn number_of(signal: i64) -> u64
    ensures { result ≡ count_of signal }
{
    u64::try_from(signal).unwrap_or(0)
}

// Whether a process ignores a signal: no other than these two is ever ignored.
pub(crate) fn ignores(proc: &Proc, signal: i64) -> bool
    ensures { result ≡ is_ignored (ignored_by proc.now) (count_of signal) }
{
    match number_of(signal) {
        SIGPIPE => proc.ignores_pipe,
        SIGTERM => proc.ignores_term,
        _ => false,
    }
}

// The process, but that it ignores a signal or doesn't.
pub(crate) fn disposed(proc: &Proc, signal: i64, ignored: bool) -> Proc
    ensures { result ≡ with_ignored proc.now (with_disposition (ignored_by proc.now) (count_of signal) ignored) }
{
    match number_of(signal) {
        SIGPIPE => Proc {
            ignores_pipe: ignored,
            ..*proc
        },
        SIGTERM => Proc {
            ignores_term: ignored,
            ..*proc
        },
        _ => *proc,
    }
}
