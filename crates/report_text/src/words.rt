ghost use Rattle.std.specs.Prelude.{◌≡◌, ◌++◌, ◌<◌, OnOk, codes, decimal, false, string_bytes};
ghost use Rattle.std.specs.Fmt.{digits};
ghost use Rattle.posix_defs.specs.Lines.{status_text, reply_text, cache_text, entry_text, kind_text, node_text, event_text};

use crate::fields::{push_call, push_field, push_number, push_small, push_value};
use kabi_types::{Cached, CallKind, Entry, Event, NodeKind, Noted, PollHits, Reply, StatInfo};
use std::alloc::AllocError;

/// What an event says that adds nothing to the history.
pub(crate) fn push_plain(out: &mut String, noted: &Noted) -> Result<(), AllocError>
    ensures { OnOk result (string_bytes out.new ≡
        string_bytes out.old ++ event_text noted.now.event (kind_text noted.now.kind) noted.now.bound) }
{
    let word = kind_word(noted.kind);
    match noted.event {
        Event::Ask(pid) => {
            push_call(out, pid, " ask ", word)?;
            push_bound(out, noted.bound)
        }
        Event::Admit(pid) => {
            push_call(out, pid, " admit ", word)?;
            push_bound(out, noted.bound)
        }
        Event::Wake(pid) => {
            push_call(out, pid, " wake ", word)?;
            push_bound(out, noted.bound)
        }
        Event::Abandon(pid) => push_call(out, pid, " abandon ", word),
        // These always add an entry, which is what their lines say.
        Event::Turn(_) | Event::Evict(_) | Event::Kill(_) => Ok(()),
    }
}

/// The bound that a call is asked with.
#[inline(always)]
fn push_bound(out: &mut String, bound: u64) -> Result<(), AllocError>
    ensures { OnOk result (string_bytes out.new ≡ string_bytes out.old ++ codes " bound " ++ decimal bound) }
{
    out.push_str(" bound ")?;
    push_small(out, bound)
}

fn kind_word(kind: Option<CallKind>) -> &'static str
    ensures { result.now ≡ kind_text kind }
{
    match kind {
        Some(kind) => kind.word(),
        None => "",
    }
}

/// What an entry says.
pub(crate) fn push_entry(out: &mut String, entry: &Entry) -> Result<(), AllocError>
    ensures { OnOk result (string_bytes out.new ≡ string_bytes out.old ++ entry_text entry.now) }
{
    match entry {
        Entry::Done { pid, kind, reply } => {
            push_call(out, *pid, " done ", kind.word())?;
            out.push_str(" = ")?;
            push_reply(out, reply)
        }
        Entry::Part { pid, kind, moved } => {
            push_call(out, *pid, " part ", kind.word())?;
            push_field(out, " ", *moved)
        }
        Entry::Refused { pid, kind, bound } => {
            push_call(out, *pid, " refused ", kind.word())?;
            push_field(out, " bound ", *bound)?;
            out.push_str(" = ENOMEM")
        }
        Entry::Slept { pid, kind } => push_call(out, *pid, " sleep ", kind.word()),
        Entry::Ended { pid, status, .. } => {
            push_field(out, "p", *pid)?;
            out.push_str(" ended ")?;
            push_status(out, *status)
        }
        Entry::Gone { pid, kind } => push_call(out, *pid, " gone ", kind.word()),
        Entry::Killed {
            pid,
            waiter,
            need,
            live,
        } => write!(out, "p{pid} killed for p{waiter} need {need} live {live}"),
        Entry::Evicted { what } => write!(out, "evict {}", cache_name(*what)),
    }
}

/// A wait status: the exit status, or the signal that ended the process.
fn push_status(out: &mut String, status: u16) -> Result<(), AllocError>
    ensures { OnOk result (string_bytes out.new ≡ string_bytes out.old ++ status_text status) }
{
    if status % 256 == 0 {
        push_field(out, "exit ", status / 256)
    } else {
        push_field(out, "signal ", status)
    }
}

fn push_reply(out: &mut String, reply: &Reply) -> Result<(), AllocError>
    ensures { OnOk result (string_bytes out.new ≡ string_bytes out.old ++ reply_text reply.now) }
{
    match reply {
        Reply::Val(value) => push_value(out, *value),
        Reply::Pair(first, second) => {
            push_number(out, *first)?;
            push_field(out, " ", *second)
        }
        Reply::Stat(info) => push_stat(out, *info),
        Reply::Waited(pid, status) => {
            push_number(out, *pid)?;
            out.push_str(" ")?;
            push_status(out, *status)
        }
        Reply::Polled(polled) => push_polled(out, polled),
        Reply::Bytes(bytes) => push_bytes(out, bytes.items()),
        Reply::Fail(errno) => out.push_str(errno.name()),
    }
}

fn push_stat(out: &mut String, info: StatInfo) -> Result<(), AllocError>
    ensures { OnOk result (string_bytes out.new ≡ string_bytes out.old ++ reply_text (Reply.Stat info)) }
{
    let StatInfo {
        number,
        nlink,
        size,
        ..
    } = info;
    out.push_str(node_name(info.kind))?;
    push_field(out, " ", number)?;
    push_field(out, " ", nlink)?;
    push_field(out, " ", size)
}

fn node_name(kind: NodeKind) -> &'static str
    ensures { result.now ≡ node_text kind }
{
    match kind {
        NodeKind::File => "file",
        NodeKind::Dir => "dir",
        NodeKind::Sock => "sock",
        NodeKind::Fifo => "fifo",
        NodeKind::Pipe => "pipe",
    }
}

fn push_polled(out: &mut String, polled: &PollHits) -> Result<(), AllocError>
    ensures { OnOk result (string_bytes out.new ≡ string_bytes out.old ++ reply_text (Reply.Polled polled.now)) }
{
    let hits = polled.hits;
    write!(out, "{hits} revents")?;
    for events in polled.revents.items() {
        write!(out, " {events}")?;
    }
    Ok(())
}

fn push_bytes(out: &mut String, bytes: &[u8]) -> Result<(), AllocError>
    ensures { OnOk result (string_bytes out.new ≡ string_bytes out.old ++ reply_text (Reply.Bytes bytes.now)) }
{
    out.push_str("x")?;
    for byte in bytes {
        out.push_str(hex_digit(byte / 16))?;
        out.push_str(hex_digit(byte % 16))?;
    }
    Ok(())
}

/// A number below 16 as one hexadecimal digit.
fn hex_digit(number: u8) -> &'static str
    requires { number < 16 }
    ensures { result.now ≡ digits 16 false number }
{
    match number {
        0 => "0",
        1 => "1",
        2 => "2",
        3 => "3",
        4 => "4",
        5 => "5",
        6 => "6",
        7 => "7",
        8 => "8",
        9 => "9",
        10 => "a",
        11 => "b",
        12 => "c",
        13 => "d",
        14 => "e",
        _ => "f",
    }
}

fn cache_name(what: Cached) -> &'static str
    ensures { result.now ≡ cache_text what }
{
    match what {
        Cached::Name => "name",
        Cached::Block => "block",
        Cached::Vnode => "vnode",
    }
}
