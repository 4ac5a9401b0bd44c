//! How a row of a table is looked at.

use std::process::Abort;

/// Stops a test where a row isn't right, and tells its place in the table.
pub fn check(rt: &impl Abort, place: usize, right: bool) {
    assert!(rt; right, "row {place}");
}
