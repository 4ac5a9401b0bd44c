ghost use Rattle.std.specs.Prelude.{◌≡◌, ◌∷◌, [], codes};
ghost use Rattle.machine_traces.specs.Trace.{told_of, played, script_of};
ghost use Rattle.machine_traces.specs.Signals.{dispositions, dispositions_take, dispositions_pin, unread_writes, unread_writes_take, unread_writes_pin};

/// The first process ignores both signals, a child begins as its parent is, and who ignores a signal isn't ended by it.
pub fn dispositions_are_told()
    ensures { played (script_of 64 (codes "init" ∷ [])) dispositions
        ≡ record { told = told_of dispositions; heap = dispositions_take; pinned = dispositions_pin } }
{}

/// A write that nobody reads ends who doesn't ignore SIGPIPE, the first process too, unless it has another fault or has moved a
/// part.
pub fn unread_writes_are_told()
    ensures { played (script_of 64 (codes "init" ∷ [])) unread_writes
        ≡ record { told = told_of unread_writes; heap = unread_writes_take; pinned = unread_writes_pin } }
{}
