//! What is asked for and told, and what one lock does to either.

ghost use Rattle.std.specs.Prelude.{◌≡◌, ◌==◌, ◌&&◌};
ghost use Rattle.std.specs.Option.{option_map};
ghost use Rattle.lock_ranges.specs.Widening.{reaches};
ghost use Rattle.posix_defs.specs.Calls.OnLocks.{kind_asked, kind_told};
ghost use Rattle.posix_defs.specs.Locks.{comes_first, is_in_way, is_of, meets};
ghost use Rattle.lock_table.specs.Chain.{plain_of};
ghost use Rattle.lock_table.specs.Holding.{asked_by, earlier, info_of};
ghost use Rattle.lock_table.specs.Setting.{kept_by, left_of, over_by, widened_by};

use kabi_types::ranges::{Kind, Range};
use kheap_slabs::Lock;

/// Places of a file, from a start to a last one, that are to be held or let go.
#[derive(Clone, Copy)]
pub struct LockRange {
    /// F_RDLCK, F_WRLCK or F_UNLCK.
    pub kind: u32,
    pub start: u64,
    pub last: u64,
}

/// A lock, as others are told of it.
#[derive(Clone, Copy)]
pub struct LockInfo {
    /// The process that holds it.
    pub pid: u32,
    /// F_RDLCK or F_WRLCK.
    pub kind: u32,
    pub start: u64,
    pub last: u64,
}

impl LockRange {
    /// With which kind the places are to be held; None lets them go.
    pub(crate) fn kind(&self) -> Option<Kind>
        ensures { result ≡ kind_asked self.now.kind }
    {
        match self.kind {
            0 => Some(Kind::Shared),
            1 => Some(Kind::Exclusive),
            _ => None,
        }
    }
}

// The number of a kind.
fn number_of(kind: Kind) -> u32
    ensures { result ≡ kind_told kind }
{
    match kind {
        Kind::Shared => 0,
        Kind::Exclusive => 1,
    }
}

/// What is told of a lock, if there is one.
pub(crate) fn told(lock: Option<Lock>) -> Option<LockInfo>
    ensures { result ≡ option_map (λ held. info_of (plain_of held)) lock }
{
    match lock {
        Some(lock) => Some(LockInfo {
            pid: lock.pid,
            kind: number_of(lock.range.kind),
            start: lock.range.start,
            last: lock.range.last,
        }),
        None => None,
    }
}

// It is this process's, of this file.
fn is_of(lock: &Lock, node: u32, pid: u32) -> bool
    ensures { result ≡ is_of pid node (plain_of lock.now) }
{
    lock.pid == pid && lock.node == node
}

// ---- what is in the way

// They share a place, which two can't hold so.
fn meets(range: &Range, asked: &LockRange) -> bool
    ensures { result ≡ meets range.now (asked_by asked.now) }
{
    match asked.kind() {
        Some(kind) => range.conflicts(&Range {
            kind,
            start: asked.start,
            last: asked.last,
        }),
        None => false,
    }
}

// It is another process's, of the same file, and in the way of what this process asks for.
fn is_in_way(lock: &Lock, node: u32, pid: u32, asked: &LockRange) -> bool
    ensures { result ≡ is_in_way pid node (asked_by asked.now) (plain_of lock.now) }
{
    lock.pid != pid && lock.node == node && meets(&lock.range, asked)
}

/// It is so, and one process's.
pub(crate) fn stands_in_way(lock: &Lock, node: u32, pid: u32, asked: &LockRange, by: u32) -> bool
    ensures { result ≡ (lock.now.pid == by && is_in_way pid node (asked_by asked.now) (plain_of lock.now)) }
{
    lock.pid == by && is_in_way(lock, node, pid, asked)
}

// By start, then by pid.
fn comes_first(lock: &Lock, other: &Lock) -> bool
    ensures { result ≡ comes_first (plain_of lock.now) (plain_of other.now) }
{
    let (start, next) = (lock.range.start, other.range.start);
    start < next || start == next && lock.pid <= other.pid
}

/// The first in the way, of those that were met and one more.
pub(crate) fn earlier(
    first: Option<Lock>,
    lock: &Lock,
    node: u32,
    pid: u32,
    asked: &LockRange,
) -> Option<Lock>
    ensures { option_map plain_of result ≡ earlier pid node (asked_by asked.now) (option_map plain_of first) (plain_of lock.now) }
{
    if !is_in_way(lock, node, pid, asked) {
        return first;
    }
    match first {
        Some(first) => Some(if comes_first(&first, lock) {
            first
        } else {
            *lock
        }),
        None => Some(*lock),
    }
}

// ---- places that are held, and let go

// It has a kind, and shares a place with a range of that kind, or stands right beside it.
fn reaches(asked: &Range, range: &Range) -> bool
    ensures { result ≡ reaches asked.now range.now }
{
    range.kind == asked.kind
        && range.start.saturating_sub(1) <= asked.last
        && asked.start.saturating_sub(1) <= range.last
}

/// The places that are asked for and those that were reached so far, with the lock's if they reach it.
pub(crate) fn widened_by(wide: Range, lock: &Lock, node: u32, pid: u32, asked: &Range) -> Range
    ensures { result ≡ widened_by pid node asked.now wide (plain_of lock.now) }
{
    if is_of(lock, node, pid) && reaches(asked, &lock.range) {
        Range {
            start: wide.start.min(lock.range.start),
            last: wide.last.max(lock.range.last),
            ..wide
        }
    } else {
        wide
    }
}

// Of a range what lies before a start, or else behind a last place.
fn left_of(range: &Range, start: u64, last: u64) -> Option<Range>
    ensures { result ≡ left_of start last range.now }
{
    if range.start < start {
        Some(Range {
            last: range.last.min(start - 1),
            ..*range
        })
    } else if last < range.last {
        Some(Range {
            start: range.start.max(last + 1),
            ..*range
        })
    } else {
        None
    }
}

/// The range that a lock has once a process has let places of a file go, if it stays.
pub(crate) fn kept_by(lock: &Lock, node: u32, pid: u32, start: u64, last: u64) -> Option<Range>
    ensures { result ≡ kept_by pid node start last (plain_of lock.now) }
{
    if is_of(lock, node, pid) {
        left_of(&lock.range, start, last)
    } else {
        Some(lock.range)
    }
}

/// What lies behind these places of a lock that has places before them too; else what was so of another one.
pub(crate) fn over_by(
    over: Option<Range>,
    lock: &Lock,
    node: u32,
    pid: u32,
    start: u64,
    last: u64,
) -> Option<Range>
    ensures { result ≡ over_by pid node start last over (plain_of lock.now) }
{
    let range = lock.range;
    if is_of(lock, node, pid) && range.start < start && last < range.last {
        Some(Range {
            start: range.start.max(last + 1),
            ..range
        })
    } else {
        over
    }
}
