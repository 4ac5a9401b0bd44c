//! Chains of waits that are closed and that aren't, by hand.

use std::process::Abort;
use std::test::Fail;
use wait_graph::circle;

// Who waits for whom, of whom it is asked, and whether a chain leads back there.
const ROWS: &[(&[(usize, u32)], u32, bool)] = &[
    (&[], 0, false),
    // who waits for itself
    (&[(0, 0)], 0, true),
    (&[(63, 63)], 63, true),
    (&[(63, 63)], 62, false),
    // two that wait for each other, and one way alone
    (&[(0, 63), (63, 0)], 0, true),
    (&[(0, 63), (63, 0)], 63, true),
    (&[(0, 63), (63, 0)], 1, false),
    (&[(0, 63)], 0, false),
    (&[(0, 63)], 63, false),
    // a chain that ends, and one into a circle of others
    (&[(1, 2), (2, 3), (3, 4)], 1, false),
    (&[(1, 2), (2, 3), (3, 2)], 1, false),
    (&[(1, 2), (2, 3), (3, 2)], 2, true),
    (&[(1, 2), (2, 3), (3, 2)], 3, true),
    // three, by higher numbers and by lower ones
    (&[(0, 40), (40, 63), (63, 0)], 0, true),
    (&[(63, 5), (5, 0), (0, 63)], 63, true),
    // one of two ways leads back
    (&[(7, 8), (7, 9), (9, 10), (10, 7)], 7, true),
    (&[(7, 8), (7, 9), (9, 10), (10, 7)], 8, false),
];

/// The rows of bits of these waits.
fn edges_of(waits: &[(usize, u32)]) -> [u64; 64] {
    let mut edges = [0; 64];
    for (waiting, holder) in waits {
        edges[*waiting % 64] |= 1 << (*holder % 64);
    }
    edges
}

/// The rows of bits where each of the first so many waits for the next one, and the last of all for the first.
fn ring_of(waiting: usize) -> [u64; 64] {
    let mut edges = [0; 64];
    for index in 0..waiting.min(64) {
        edges[index] = 1 << ((index + 1) % 64);
    }
    edges
}

fn is_told(rt: &impl Abort, edges: &[u64; 64], from: u32, closed: bool) {
    assert!(rt; circle(edges, from % 64) == closed);
}

#[test]
fn chains_that_are_closed_are_told(rt: HostRuntime) -> Result<(), Fail> {
    for (waits, from, closed) in ROWS {
        is_told(&rt, &edges_of(waits), *from, *closed);
    }
    Ok(())
}

#[test]
fn a_ring_of_all_is_one_circle(rt: HostRuntime) -> Result<(), Fail> {
    for from in 0..64 {
        is_told(&rt, &ring_of(64), from, true);
        is_told(&rt, &ring_of(63), from, false);
    }
    Ok(())
}
