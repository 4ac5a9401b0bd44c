//! A range of places that is held with a kind, as of a file that a process has locked.

ghost use Rattle.std.specs.Prelude.{◌≡◌};
ghost use Rattle.kabi_types.specs.Ranges.{conflicts, covers, touch};

/// How a place is held.
#[derive(Clone, Copy, PartialEq, Eq)]
pub enum Kind {
    /// By any number at once.
    Shared,
    /// By one alone.
    Exclusive,
}

/// The places from the start to the last one, held with one kind.
#[derive(Clone, Copy)]
pub struct Range {
    pub kind: Kind,
    pub start: u64,
    pub last: u64,
}

impl Range {
    /// Whether a place is among them.
    pub fn covers(&self, place: u64) -> bool
        ensures { result ≡ covers self.now.start self.now.last place }
    {
        self.start <= place && place <= self.last
    }

    /// Whether another holder of the range that is asked for would have to wait for this one.
    pub fn conflicts(&self, asked: &Range) -> bool
        ensures { result ≡ conflicts self.now asked.now }
    {
        let share = self.start <= asked.last && asked.start <= self.last;
        share && (self.kind == Kind::Exclusive || asked.kind == Kind::Exclusive)
    }

    /// Whether another range begins right behind this one, with its kind.
    pub fn touches(&self, next: &Range) -> bool
        ensures { result ≡ touch self.now next.now }
    {
        self.kind == next.kind && self.last < next.start && next.start - self.last == 1
    }
}
