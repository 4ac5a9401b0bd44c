ghost use Rattle.std.specs.Prelude.{◌≡◌, ℕ, suc};
ghost use Rattle.posix_defs.specs.Choice.{chosen};
ghost use Rattle.kern_core.specs.Choosing.{given};

use kabi_types::Chooser;
use posix_defs::{choice_of, next_state};

/// Who chooses the events of a run that are still to come.
#[derive(Clone, Copy)]
pub enum Choosing<'a> {
    /// The default event is always taken.
    Default,
    /// These numbers choose, one an event.
    Numbers(&'a [u32]),
    /// The generator in this state chooses.
    Generator(u32),
}

impl<'a> Choosing<'a> {
    /// The chooser of a script, before the first event.
    pub fn of(chooser: &'a Chooser) -> Choosing<'a>
        ensures { (i : ℕ) → given result i ≡ chosen chooser.now (suc i) }
    {
        match chooser {
            Chooser::Plain => Choosing::Default,
            Chooser::Choices(numbers) => Choosing::Numbers(numbers.items()),
            Chooser::Seed(seed) => Choosing::Generator(*seed),
        }
    }

    /// The number that chooses the next event, None where the default is taken, and who chooses the events after it.
    pub fn next(self) -> (Option<u32>, Choosing<'a>)
        ensures number { result.0 ≡ given self.entry 0 }
        ensures rest { (i : ℕ) → given result.1 i ≡ given self.entry (suc i) }
    {
        match self {
            Choosing::Default => (None, Choosing::Default),
            Choosing::Numbers(numbers) => match numbers.split_first() {
                Some((first, rest)) => (Some(*first), Choosing::Numbers(rest)),
                None => (None, Choosing::Default),
            },
            Choosing::Generator(state) => {
                let next = next_state(state);
                (Some(choice_of(next)), Choosing::Generator(next))
            }
        }
    }
}
