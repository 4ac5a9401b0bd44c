ghost use Rattle.std.specs.Prelude.{◌≡◌, ℕ, ◌≤◌, [], IfSome, IsTrue, OnOk, OnErr, if◌then◌else◌};
ghost use Rattle.std.specs.List.{AllByRecursion};
ghost use Rattle.kabi_types.specs.Ranges.{IsCanonical, conflicts, covers, first_conflict, greatest, kind_at, set};

use crate::pieces::after_setting;
use kabi_types::Memory;
use kabi_types::ranges::{Kind, Range};
use std::alloc::Global;
use std::marker::Model;

/// The ranges of one holder, by rising start. No two of them share a place, and none that touch have one kind.
#[derive(Drop)]
pub struct Ranges {
    ranges: Vec<Range>,
}

impl Model for Ranges {
    ghost use Rattle.std.specs.Prelude.{List};
    ghost use Rattle.kabi_types.specs.Ranges.{IsCanonical};
    ghost use Rattle.kabi_types.specs.declared.ranges.Range.{Range};

    ghost Value = { List Range };

    ghost view = { λ held. held.ranges.items };

    ghost invariant = { λ held. IsCanonical held.ranges.items };
}

impl Ranges {
    /// Nothing is held.
    pub fn new(alloc: Global) -> Ranges
        ensures { result ≡ [] }
    {
        Ranges {
            ranges: Vec::new(alloc),
        }
    }

    /// All ranges, by rising start.
    pub fn all(&self) -> &[Range]
        ensures list { result.now ≡ self.now }
        ensures canonical { IsCanonical self.now }
    {
        self.ranges.as_slice()
    }

    /// With which kind a place is held; None where it isn't.
    pub fn kind_at(&self, place: u64) -> Option<Kind>
        ensures { result ≡ kind_at self.now place }
    {
        for range in &self.ranges {
            if range.covers(place) {
                return Some(range.kind);
            }
        }
        None
    }

    /// The first range that is in the way of another holder's that is asked for.
    pub fn first_conflict(&self, asked: &Range) -> Option<Range>
        ensures first { result ≡ first_conflict self.now asked.now }
        ensures least { IfSome result (λ first. AllByRecursion (λ range. IsTrue (conflicts range asked.now) → first.start ≤ range.start) self.now) }
    {
        for range in &self.ranges {
            if range.conflicts(asked) {
                return Some(*range);
            }
        }
        None
    }

    /// Holds the places from the start to the last one with a kind, or lets them go. Where the host has no memory nothing
    /// changes.
    pub fn set(&mut self, kind: Option<Kind>, start: u64, last: u64) -> Result<(), Memory>
        requires order { start ≤ last }
        requires places { last ≤ greatest }
        ensures list { OnOk result (self.new ≡ set self.old kind start last) }
        ensures meaning { OnOk result ((place : ℕ) → kind_at self.new place ≡ (if covers start last place then kind else kind_at self.old place)) }
        ensures canonical { IsCanonical self.new }
        ensures kept { OnErr result (self.new ≡ self.old) }
    {
        // In a list of its own: the old one stays where memory runs out in between.
        let alloc = *self.ranges.allocator();
        self.ranges = after_setting(alloc, &self.ranges, kind, start, last)?;
        Ok(())
    }
}
