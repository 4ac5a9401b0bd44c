//! How far a process is with its call.

ghost use Rattle.std.specs.Prelude.{◌≡◌};
ghost use Rattle.posix_defs.specs.CoreState as state;
ghost use Rattle.kern_tasks.specs.Room.{goes_within, has_event, is_asleep, waits_within, waits_without};

use posix_defs::Phase;

/// Whether the call is admitted, whether or not its process lives.
pub fn is_admitted(phase: Phase) -> bool
    ensures { result ≡ state.is_admitted phase }
{
    matches!(phase, Phase::Admitted(_) | Phase::Stranded(_))
}

/// Whether the call waits, and so much room is enough for it.
pub fn waits_within(phase: Phase, room: u64) -> bool
    ensures { result ≡ waits_within room phase }
{
    match phase {
        Phase::Waiting(asked) => asked.bound <= room,
        _ => false,
    }
}

/// Whether the call waits, and so much room isn't enough for it.
pub fn waits_without(phase: Phase, room: u64) -> bool
    ensures { result ≡ waits_without room phase }
{
    match phase {
        Phase::Waiting(asked) => asked.bound > room,
        _ => false,
    }
}

/// Whether the call waits and so much room is enough for it, or it is admitted and holds nothing.
pub fn goes_within(phase: Phase, room: u64) -> bool
    ensures { result ≡ goes_within room phase }
{
    match phase {
        Phase::Waiting(asked) => asked.bound <= room,
        Phase::Admitted(asked) | Phase::Stranded(asked) => asked.bound == 0,
        _ => false,
    }
}

/// Whether the call sleeps.
pub fn is_asleep(phase: Phase) -> bool
    ensures { result ≡ is_asleep phase }
{
    matches!(phase, Phase::Asleep(_))
}

/// Whether a process in this phase has an event, whatever its call would do, where so much room is left.
pub fn has_event(phase: Phase, room: u64) -> bool
    ensures { result ≡ has_event room phase }
{
    match phase {
        Phase::Waiting(asked) => asked.bound <= room,
        Phase::User | Phase::Admitted(_) | Phase::Stranded(_) => true,
        Phase::Asleep(_) | Phase::Dead => false,
    }
}
