//! Errnos by their numbers and names, and the two values of a reply.

use crate::checking::check;
use kabi_types::{Bytes64, Errno, NodeKind, PollHits, Reply, Revents, StatInfo};
use std::process::Abort;

const NUMBERS: &[(Errno, u8, &str)] = &[
    (Errno::EPERM, 1, "EPERM"),
    (Errno::ENOENT, 2, "ENOENT"),
    (Errno::ESRCH, 3, "ESRCH"),
    (Errno::ENOEXEC, 8, "ENOEXEC"),
    (Errno::EBADF, 9, "EBADF"),
    (Errno::ECHILD, 10, "ECHILD"),
    (Errno::EAGAIN, 11, "EAGAIN"),
    (Errno::ENOMEM, 12, "ENOMEM"),
    (Errno::EACCES, 13, "EACCES"),
    (Errno::EFAULT, 14, "EFAULT"),
    (Errno::EBUSY, 16, "EBUSY"),
    (Errno::EEXIST, 17, "EEXIST"),
    (Errno::ENOTDIR, 20, "ENOTDIR"),
    (Errno::EISDIR, 21, "EISDIR"),
    (Errno::EINVAL, 22, "EINVAL"),
    (Errno::EMFILE, 24, "EMFILE"),
    (Errno::EFBIG, 27, "EFBIG"),
    (Errno::ENOSPC, 28, "ENOSPC"),
    (Errno::ESPIPE, 29, "ESPIPE"),
    (Errno::EMLINK, 31, "EMLINK"),
    (Errno::EPIPE, 32, "EPIPE"),
    (Errno::ENAMETOOLONG, 36, "ENAMETOOLONG"),
    (Errno::ENOTEMPTY, 39, "ENOTEMPTY"),
    (Errno::EOVERFLOW, 75, "EOVERFLOW"),
    (Errno::ENOTSOCK, 88, "ENOTSOCK"),
    (Errno::EDESTADDRREQ, 89, "EDESTADDRREQ"),
    (Errno::EOPNOTSUPP, 95, "EOPNOTSUPP"),
    (Errno::EADDRINUSE, 98, "EADDRINUSE"),
    (Errno::EISCONN, 106, "EISCONN"),
    (Errno::ENOTCONN, 107, "ENOTCONN"),
    (Errno::ECONNREFUSED, 111, "ECONNREFUSED"),
];

#[test]
fn errnos_have_their_numbers_and_names(rt: HostRuntime) {
    for (place, (errno, number, name)) in NUMBERS.iter().enumerate() {
        let told = errno.number() == *number && errno.name() == *name;
        let value = Reply::Fail(*errno).first() == -i64::from(*number);
        check(&rt, place, told && value);
    }
}

const INFO: StatInfo = StatInfo {
    kind: NodeKind::File,
    number: 5,
    nlink: 2,
    size: 272384,
};

fn has_values(reply: &Reply, first: i64, second: i64) -> bool {
    reply.first() == first && reply.second() == second
}

#[test]
fn replies_have_two_values(rt: HostRuntime) {
    let rows = [
        (Reply::Val(-7), -7, 0),
        (Reply::Val(9223372036854775807), 9223372036854775807, 0),
        (Reply::Pair(3, 4294967295), 3, 4294967295),
        (Reply::Stat(INFO), 5, 272384),
        (Reply::Waited(2, 1792), 2, 1792),
        (Reply::Waited(4294967295, 9), 4294967295, 9),
        (Reply::Fail(Errno::EPERM), -1, 0),
        (Reply::Fail(Errno::ECONNREFUSED), -111, 0),
    ];
    for (place, (reply, first, second)) in rows.iter().enumerate() {
        check(&rt, place, has_values(reply, *first, *second));
    }
}

/// Hits of a poll, the events of each entry, and the number that these are.
const POLLED: &[(u32, &[u8], i64)] = &[
    (0, &[], 0),
    (2, &[1, 0, 32], 2097153),
    (8, &[1, 2, 3, 4, 5, 6, 7, 8], 578437695752307201),
    (1, &[0, 0, 0, 0, 0, 0, 0, 128], -9223372036854775808),
    (8, &[255, 255, 255, 255, 255, 255, 255, 255], -1),
];

fn polled(rt: &impl Abort, hits: u32, events: &[u8]) -> Reply {
    let revents = Revents::of(events).expect(rt, "at most 8");
    Reply::Polled(PollHits { hits, revents })
}

#[test]
fn polls_have_two_values(rt: HostRuntime) {
    for (place, (hits, events, second)) in POLLED.iter().enumerate() {
        let reply = polled(&rt, *hits, events);
        check(&rt, place, has_values(&reply, i64::from(*hits), *second));
    }
}

/// Of bytes the first is the value.
#[test]
fn bytes_have_one_value(rt: HostRuntime) {
    let bytes = Bytes64::of(&[200, 1]).expect(&rt, "at most 64");
    check(&rt, 0, has_values(&Reply::Bytes(bytes), 200, 0));
}
