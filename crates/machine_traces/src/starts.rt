ghost use Rattle.std.specs.Prelude.{◌≡◌, ◌∷◌, [], codes};
ghost use Rattle.machine_traces.specs.Trace.{told_of, played, script_of};
ghost use Rattle.machine_traces.specs.Starts.{started_programs, started_programs_take, started_programs_pin, refused_programs, refused_programs_take, refused_programs_pin, freed_by_starts, freed_by_starts_take, freed_by_starts_pin};

/// A file that names a program starts it: memory is gone, descriptors stay.
pub fn started_programs_are_told()
    ensures { played (script_of 64 (codes "init" ∷ codes "other" ∷ [])) started_programs
        ≡ record { told = told_of started_programs; heap = started_programs_take; pinned = started_programs_pin } }
{}

/// What `exec` refuses.
pub fn refused_programs_are_told()
    ensures { played (script_of 64 (codes "init" ∷ codes "abcdefghijklmnopqrstuvwxyz0" ∷ codes "other" ∷ [])) refused_programs
        ≡ record { told = told_of refused_programs; heap = refused_programs_take; pinned = refused_programs_pin } }
{}

/// What `exec` closes is freed.
pub fn freed_by_starts_are_told()
    ensures { played (script_of 16 (codes "init" ∷ codes "next" ∷ [])) freed_by_starts
        ≡ record { told = told_of freed_by_starts; heap = freed_by_starts_take; pinned = freed_by_starts_pin } }
{}
