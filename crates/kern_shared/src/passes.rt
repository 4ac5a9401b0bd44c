//! A pass, with which one worker uses a shared kernel.
ghost use Rattle.std.specs.Prelude.{◌≡◌};

use crate::{BoxedState, RunName};
use charge_words::ChargeSeat;
use posix_defs::Turner;
use turn_words::TurnSeat;

/// What one worker has of a shared kernel: a charge seat, a turn seat, the process that it was given, if any, and whether its last
/// turn had to be waited for.
///
/// Where a pass is dropped while it holds a process, no other pass is ever given that one.
#[derive(Drop)]
pub struct Pass<T: Turner + Drop, L: RunName> {
    pub(crate) turn: TurnSeat<BoxedState<T, L>>,
    pub(crate) own: ChargeSeat,
    pub(crate) given: Option<u32>,
    pub(crate) waited: bool,
}

impl<T: Turner + Drop, L: RunName> Pass<T, L> {
    /// Whether other passes had turns between the moment when this one asked for its last turn and that turn. It is advice for the
    /// worker: who had to wait stands in the others' way, and does well to rest before it asks again.
    pub fn waited(&self) -> bool
        ensures { result ≡ self.now.waited }
    {
        self.waited
    }
}
