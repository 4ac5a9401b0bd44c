//! What is left of a write needs, when a part of it was moved.

use crate::checking::check;
use kabi_types::Call;
use need_table::bound;

/// Lengths of `write`, and the bounds where 0, 4096, 4999, 5000 and 5001 bytes were moved.
const WRITTEN: &[(i64, [u64; 5])] = &[
    (0, [2176, 2176, 2176, 2176, 2176]),
    (1, [2176, 2176, 2176, 2176, 2176]),
    (512, [2176, 2176, 2176, 2176, 2176]),
    (513, [2176, 2176, 2176, 2176, 2176]),
    (1536, [2176, 2176, 2176, 2176, 2176]),
    (1537, [2304, 2176, 2176, 2176, 2176]),
    (2048, [2304, 2176, 2176, 2176, 2176]),
    (4096, [4608, 2176, 2176, 2176, 2176]),
    (5000, [4608, 2176, 2176, 2176, 2176]),
    (32767, [4608, 4608, 4608, 4608, 4608]),
    (32768, [0, 0, 0, 0, 0]),
];

fn bounds_of(n: i64) -> [u64; 5] {
    let (fd, addr) = (0, 4096);
    let left = |done| bound(&Call::Write { fd, addr, n, done });
    [left(0), left(4096), left(4999), left(5000), left(5001)]
}

#[test]
fn writing_needs_what_is_left(rt: HostRuntime) {
    for (place, (n, bounds)) in WRITTEN.iter().enumerate() {
        check(&rt, place, bounds_of(*n) == *bounds);
    }
}
