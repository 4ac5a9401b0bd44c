ghost use Rattle.std.specs.Prelude.{◌≡◌};
ghost use Rattle.claim_lines.specs.Claims.{cache_named, claim_by, claim_of, claim_of_pid, deed_named};

use crate::words::{cut, pid_in};
use kabi_types::Cached;
use run_pasts::{Claim, Deed};

/// What a line of a history claims, by the words behind its number; None where it isn't the line of any entry. A line
/// that claims something need not be an entry's line: nothing is read behind what says who did what.
pub fn claim_of(line: &[u8]) -> Option<Claim>
    ensures { result ≡ claim_of line.now }
{
    let (_number, said) = cut(line);
    let (who, more) = cut(said);
    let (what, rest) = cut(more);
    said_by(who, what, rest)
}

// What a cache lost, or what the process of the first word is said to have done.
fn said_by(who: &[u8], what: &[u8], rest: &[u8]) -> Option<Claim>
    ensures { result ≡ claim_by who.now what.now rest.now }
{
    if who == b"evict".as_slice() {
        return Some(Claim::Evicted { what: cache(what)? });
    }
    of_pid(pid_in(who)?, what, rest)
}

// What a process is said to have done, or whom it was killed for.
fn of_pid(pid: u32, what: &[u8], rest: &[u8]) -> Option<Claim>
    ensures { result ≡ claim_of_pid pid what.now rest.now }
{
    if what == b"killed".as_slice() {
        let (_for, more) = cut(rest);
        let (waiter, _need) = cut(more);
        return Some(Claim::Killed {
            pid,
            waiter: pid_in(waiter)?,
        });
    }
    Some(Claim::Did {
        pid,
        deed: deed(what)?,
    })
}

// The deed that a word names.
fn deed(word: &[u8]) -> Option<Deed>
    ensures { result ≡ deed_named word.now }
{
    if word == b"done".as_slice() {
        return Some(Deed::Done);
    }
    if word == b"part".as_slice() {
        return Some(Deed::Part);
    }
    if word == b"refused".as_slice() {
        return Some(Deed::Refused);
    }
    if word == b"sleep".as_slice() {
        return Some(Deed::Slept);
    }
    if word == b"ended".as_slice() {
        return Some(Deed::Ended);
    }
    (word == b"gone".as_slice()).then_some(Deed::Gone)
}

// The cache that a word names, by what it keeps.
fn cache(word: &[u8]) -> Option<Cached>
    ensures { result ≡ cache_named word.now }
{
    if word == b"name".as_slice() {
        return Some(Cached::Name);
    }
    if word == b"block".as_slice() {
        return Some(Cached::Block);
    }
    (word == b"vnode".as_slice()).then_some(Cached::Vnode)
}
