ghost use Rattle.std.specs.Prelude.{◌≡◌, ◌∷◌, [], codes};
ghost use Rattle.machine_traces.specs.Trace.{told_of, played, script_of};
ghost use Rattle.machine_traces.specs.Fifos.{sleeping_opens, sleeping_opens_take, sleeping_opens_pin, faults_on_fifos, faults_on_fifos_take, faults_on_fifos_pin, other_sides_that_went, other_sides_that_went_take, other_sides_that_went_pin};

/// A reader sleeps in its open until a writer opens the FIFO, and reads what that one wrote; the node stays while it is
/// open.
pub fn sleeping_opens_are_told()
    ensures { played (script_of 64 (codes "init" ∷ [])) sleeping_opens
        ≡ record { told = told_of sleeping_opens; heap = sleeping_opens_take; pinned = sleeping_opens_pin } }
{}

/// What `mkfifo` and an open of a FIFO refuse, and what an end of one does.
pub fn faults_on_fifos_are_told()
    ensures { played (script_of 64 (codes "init" ∷ [])) faults_on_fifos
        ≡ record { told = told_of faults_on_fifos; heap = faults_on_fifos_take; pinned = faults_on_fifos_pin } }
{}

/// An open that sleeps is over once the other side was opened, though it is closed again; one that is killed closes its
/// end.
pub fn other_sides_that_went_are_told()
    ensures { played (script_of 64 (codes "init" ∷ [])) other_sides_that_went
        ≡ record { told = told_of other_sides_that_went; heap = other_sides_that_went_take; pinned = other_sides_that_went_pin } }
{}
