ghost use Rattle.std.specs.Prelude.{◌≡◌, ◌∷◌, [], codes};
ghost use Rattle.machine_traces.specs.Trace.{told_of, played, script_of};
ghost use Rattle.machine_traces.specs.Polls.{polled_entries, polled_entries_take, polled_entries_pin, hung_up_ends, hung_up_ends_take, hung_up_ends_pin};

/// What `poll` tells of descriptors that are open, closed, below 0 and past the last.
pub fn polled_entries_are_told()
    ensures { played (script_of 64 (codes "init" ∷ [])) polled_entries
        ≡ record { told = told_of polled_entries; heap = polled_entries_take; pinned = polled_entries_pin } }
{}

/// What it tells of a pipe whose other end goes.
pub fn hung_up_ends_are_told()
    ensures { played (script_of 64 (codes "init" ∷ [])) hung_up_ends
        ≡ record { told = told_of hung_up_ends; heap = hung_up_ends_take; pinned = hung_up_ends_pin } }
{}
