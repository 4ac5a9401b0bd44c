//! Laws of shared histories. Each is the contract of a function that does nothing.
ghost use Rattle.kern_shared.specs.Laws.{ControlsStand, EntriesAreARun, GivenUpOnce, HeldAreNotGivenUp, HeldAreUp, HeldWereMade, NoRoomWhereStarved, OverStaysOver, StarvedStands};

/// The entries of a shared history are a legal history of the plain machine, and at most as many as all steps.
pub fn entries_are_a_run()
    ensures { EntriesAreARun }
{}

/// A process that a pass holds is up: its call hasn't blocked ever since it last slept.
pub fn who_is_held_is_up()
    ensures { HeldAreUp }
{}

/// As long as a pass holds a process its control stands, alive or not, whatever other passes do; so its next call does.
pub fn the_control_of_who_is_held_stands()
    ensures made { HeldWereMade }
    ensures stands { ControlsStand }
{}

/// The call of a process is given up at most once, and never before the pass that holds it does.
pub fn a_held_call_is_given_up_once()
    ensures once { GivenUpOnce }
    ensures held { HeldAreNotGivenUp }
{}

/// Where the run is over no item changes that.
pub fn what_is_over_stays_over()
    ensures { OverStaysOver }
{}

/// Where Starved was answered, and as long as no live process's call has a turn behind it, the first process stays alone with
/// a call that doesn't fit with nothing left to evict. So nothing was answered Starved where the bound of a live process's
/// call lies beside all live bytes and the reserve within the heap, as it does at a turn whose call was reserved.
pub fn no_reserved_call_comes_behind_starved()
    ensures stands { StarvedStands }
    ensures room { NoRoomWhereStarved }
{}
