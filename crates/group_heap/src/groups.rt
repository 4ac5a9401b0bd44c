//! Groups that are to run.

use charge_words::ChargeSeat;
use kabi_types::{End, Name27, Script, Text};
use kern_core::Core;
use posix_defs::Turner;

/// What has become of a group.
#[derive(Clone, Copy)]
pub enum GroupEnd {
    /// It hasn't run: nothing has, or the host had no memory for its report.
    NotRun,
    /// Its heap, in bytes, is above the whole.
    Refused { heap: u64 },
    /// Its run has ended so.
    Ran(End),
}

/// A group: its script, and the core that runs it, over a store of its own; and what has come of it.
#[derive(Drop)]
pub struct Group<T: Turner + Drop> {
    pub name: Name27,
    pub script: Script,
    pub core: Core<T>,
    /// None but while groups run: then what the group holds of the whole.
    pub seat: Option<ChargeSeat>,
    /// The report, where the group has run.
    pub text: Text,
    pub outcome: GroupEnd,
}
