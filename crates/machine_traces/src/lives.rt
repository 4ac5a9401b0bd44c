ghost use Rattle.std.specs.Prelude.{◌≡◌, ◌∷◌, [], codes};
ghost use Rattle.machine_traces.specs.Trace.{told_of, played, script_of};
ghost use Rattle.machine_traces.specs.Lives.{breaks, breaks_take, breaks_pin, faults_of_processes, faults_of_processes_take, faults_of_processes_pin, orphans, orphans_take, orphans_pin};

/// Pages mapped and unmapped.
pub fn breaks_are_told()
    ensures { played (script_of 64 (codes "init" ∷ [])) breaks
        ≡ record { told = told_of breaks; heap = breaks_take; pinned = breaks_pin } }
{}

/// The faults of calls on processes.
pub fn faults_of_processes_are_told()
    ensures { played (script_of 64 (codes "init" ∷ [])) faults_of_processes
        ≡ record { told = told_of faults_of_processes; heap = faults_of_processes_take; pinned = faults_of_processes_pin } }
{}

/// Who gets the children of a process that ends.
pub fn orphans_are_told()
    ensures { played (script_of 64 (codes "init" ∷ [])) orphans
        ≡ record { told = told_of orphans; heap = orphans_take; pinned = orphans_pin } }
{}
