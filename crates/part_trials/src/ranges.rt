//! Ranges that are held, cut, joined and let go, and what is in the way of others, by hand.

use kabi_types::Memory;
use kabi_types::ranges::{Kind, Range};
use lock_ranges::Ranges;
use std::alloc::Global;
use std::process::Abort;
use std::test::Fail;

const LAST: u64 = 9223372036854775807;

const GONE: Option<Kind> = None;

const SHARED: Option<Kind> = Some(Kind::Shared);

const EXCLUSIVE: Option<Kind> = Some(Kind::Exclusive);

// What is set, one after the other, and the ranges that are held then.
const ROWS: &[(&[(Option<Kind>, u64, u64)], &[(Kind, u64, u64)])] = &[
    // where nothing is held nothing is let go
    (&[(GONE, 0, LAST)], &[]),
    // one range, and the greatest
    (&[(SHARED, 5, 9)], &[(Kind::Shared, 5, 9)]),
    (&[(EXCLUSIVE, 0, LAST)], &[(Kind::Exclusive, 0, LAST)]),
    // at the first place and at the last
    (
        &[(SHARED, LAST, LAST), (SHARED, 0, 0)],
        &[(Kind::Shared, 0, 0), (Kind::Shared, LAST, LAST)],
    ),
    (
        &[(EXCLUSIVE, 0, LAST), (GONE, 0, 0), (GONE, LAST, LAST)],
        &[(Kind::Exclusive, 1, LAST - 1)],
    ),
    // a cut in the middle, by nothing and by the other kind
    (
        &[(EXCLUSIVE, 0, 9), (GONE, 4, 5)],
        &[(Kind::Exclusive, 0, 3), (Kind::Exclusive, 6, 9)],
    ),
    (
        &[(EXCLUSIVE, 0, 9), (SHARED, 4, 5)],
        &[
            (Kind::Exclusive, 0, 3),
            (Kind::Shared, 4, 5),
            (Kind::Exclusive, 6, 9),
        ],
    ),
    // cuts at the start, at the end, and beyond both
    (
        &[(EXCLUSIVE, 5, 9), (GONE, 5, 6)],
        &[(Kind::Exclusive, 7, 9)],
    ),
    (
        &[(EXCLUSIVE, 5, 9), (GONE, 0, 6)],
        &[(Kind::Exclusive, 7, 9)],
    ),
    (
        &[(EXCLUSIVE, 5, 9), (GONE, 8, 9)],
        &[(Kind::Exclusive, 5, 7)],
    ),
    (
        &[(EXCLUSIVE, 5, 9), (GONE, 8, 20)],
        &[(Kind::Exclusive, 5, 7)],
    ),
    (&[(EXCLUSIVE, 5, 9), (GONE, 4, 10)], &[]),
    (
        &[(EXCLUSIVE, 5, 9), (GONE, 0, 4), (GONE, 10, LAST)],
        &[(Kind::Exclusive, 5, 9)],
    ),
    // the same kind inside, and the same range again
    (&[(SHARED, 0, 9), (SHARED, 4, 5)], &[(Kind::Shared, 0, 9)]),
    (&[(SHARED, 4, 5), (SHARED, 4, 5)], &[(Kind::Shared, 4, 5)]),
    (
        &[(SHARED, 0, 9), (EXCLUSIVE, 4, 5), (SHARED, 4, 5)],
        &[(Kind::Shared, 0, 9)],
    ),
    // ranges of one kind that touch before, behind and on both sides
    (&[(SHARED, 0, 4), (SHARED, 5, 9)], &[(Kind::Shared, 0, 9)]),
    (&[(SHARED, 5, 9), (SHARED, 0, 4)], &[(Kind::Shared, 0, 9)]),
    (
        &[(SHARED, 0, 3), (SHARED, 6, 9), (SHARED, 4, 5)],
        &[(Kind::Shared, 0, 9)],
    ),
    // of two kinds, and with a place between them
    (
        &[(SHARED, 0, 4), (EXCLUSIVE, 5, 9)],
        &[(Kind::Shared, 0, 4), (Kind::Exclusive, 5, 9)],
    ),
    (
        &[(SHARED, 5, 9), (SHARED, 0, 3)],
        &[(Kind::Shared, 0, 3), (Kind::Shared, 5, 9)],
    ),
    // the part of a range that is changed joins the one before it alone
    (
        &[
            (SHARED, 0, 3),
            (EXCLUSIVE, 4, 6),
            (EXCLUSIVE, 8, 9),
            (SHARED, 4, 5),
        ],
        &[
            (Kind::Shared, 0, 5),
            (Kind::Exclusive, 6, 6),
            (Kind::Exclusive, 8, 9),
        ],
    ),
    // over three ranges, from inside the first to inside the last, and over all
    (
        &[
            (SHARED, 0, 2),
            (EXCLUSIVE, 4, 6),
            (SHARED, 8, 10),
            (EXCLUSIVE, 1, 9),
        ],
        &[
            (Kind::Shared, 0, 0),
            (Kind::Exclusive, 1, 9),
            (Kind::Shared, 10, 10),
        ],
    ),
    (
        &[
            (SHARED, 0, 2),
            (EXCLUSIVE, 4, 6),
            (SHARED, 8, 10),
            (GONE, 1, 9),
        ],
        &[(Kind::Shared, 0, 0), (Kind::Shared, 10, 10)],
    ),
    (
        &[
            (SHARED, 0, 2),
            (EXCLUSIVE, 4, 6),
            (SHARED, 8, 10),
            (SHARED, 1, 9),
        ],
        &[(Kind::Shared, 0, 10)],
    ),
    (
        &[
            (SHARED, 0, 2),
            (EXCLUSIVE, 4, 6),
            (SHARED, 8, 10),
            (GONE, 0, LAST),
        ],
        &[],
    ),
];

// With which kind a place is held where 2 and 3 are shared and 4 to 6 are held by one alone.
const KINDS: &[(u64, Option<Kind>)] = &[
    (0, GONE),
    (1, GONE),
    (2, SHARED),
    (3, SHARED),
    (4, EXCLUSIVE),
    (6, EXCLUSIVE),
    (7, GONE),
    (LAST, GONE),
];

// What another asks for where 2 and 3, 8 and 9 are shared and 5 and 6 are held by one alone, and where what is first in its way starts.
const CONFLICTS: &[(Kind, u64, u64, Option<u64>)] = &[
    (Kind::Shared, 0, LAST, Some(5)),
    (Kind::Exclusive, 0, LAST, Some(2)),
    (Kind::Shared, 2, 3, None),
    (Kind::Exclusive, 3, 3, Some(2)),
    (Kind::Exclusive, 4, 4, None),
    (Kind::Exclusive, 4, 5, Some(5)),
    (Kind::Shared, 6, 9, Some(5)),
    (Kind::Shared, 7, 9, None),
    (Kind::Exclusive, 7, 20, Some(8)),
    (Kind::Exclusive, 0, 1, None),
    (Kind::Exclusive, 10, LAST, None),
];

/// What is held once all this was set.
fn held(alloc: Global, settings: &[(Option<Kind>, u64, u64)]) -> Result<Ranges, Memory> {
    let mut ranges = Ranges::new(alloc);
    for (kind, start, last) in settings {
        let last = (*last).min(LAST);
        ranges.set(*kind, (*start).min(last), last)?;
    }
    Ok(ranges)
}

/// Whether these are the ranges, in this order.
fn are(ranges: &[Range], wanted: &[(Kind, u64, u64)]) -> bool {
    ranges.len() == wanted.len()
        && ranges.iter().zip(wanted).all(|(range, it)| range.kind == it.0
            && range.start == it.1
            && range.last == it.2)
}

fn is_held(rt: &impl Abort, ranges: &Ranges, wanted: &[(Kind, u64, u64)]) {
    assert!(rt; are(ranges.all(), wanted));
}

#[test]
fn what_is_set_is_cut_and_joined(rt: HostRuntime) -> Result<(), Fail> {
    for (settings, wanted) in ROWS {
        is_held(&rt, &held(rt.alloc(), settings)?, wanted);
    }
    Ok(())
}

#[test]
fn each_place_has_its_kind(rt: HostRuntime) -> Result<(), Fail> {
    let ranges = held(rt.alloc(), &[(SHARED, 2, 5), (EXCLUSIVE, 4, 6)])?;
    for (place, kind) in KINDS {
        assert!(rt; ranges.kind_at(*place) == *kind);
    }
    Ok(())
}

#[test]
fn the_first_that_is_in_the_way_is_told(rt: HostRuntime) -> Result<(), Fail> {
    let ranges = held(
        rt.alloc(),
        &[(SHARED, 8, 9), (EXCLUSIVE, 5, 6), (SHARED, 2, 3)],
    )?;
    for (kind, start, last, wanted) in CONFLICTS {
        let asked = Range {
            kind: *kind,
            start: *start,
            last: *last,
        };
        let found = ranges.first_conflict(&asked).map(|range| range.start);
        assert!(rt; found == *wanted);
    }
    Ok(())
}
