//! The charge word of one run, by the run's names.
ghost use Rattle.std.specs.Prelude.{◌≡◌, ℕ};

use crate::RunName;
use charge_words::Charge;
use std::marker::{Brand, PhantomData};

/// The names are picked where a run begins. Where none are, they name nothing.
impl RunName for Brand {
    ghost use Rattle.kern_shared.specs.Nameless.{no_script, no_word};

    ghost script = { no_script };

    ghost steps = { 0 };

    ghost charge = { no_word };
}

/// The charge word of a run, and the run's heap.
#[derive(Drop)]
pub(crate) struct RunCharge<L: RunName> {
    pub(crate) word: Charge,
    pub(crate) heap: u64,
    pub(crate) run: PhantomData<L>,
    ghost of_run: { word ≡ L.charge },
    ghost of_script: { heap ≡ (L.script).heap },
    ghost same: { word.heap ≡ heap },
}
