ghost use Rattle.std.specs.Prelude.{◌≡◌, ◌∷◌, [], codes};
ghost use Rattle.machine_traces.specs.Trace.{told_of, played, script_of};
ghost use Rattle.machine_traces.specs.Pipes.{faults_on_pipes, faults_on_pipes_take, faults_on_pipes_pin, writes_at_the_border, writes_at_the_border_take, writes_at_the_border_pin, broken_pipes, broken_pipes_take, broken_pipes_pin, parts_that_end, parts_that_end_take, parts_that_end_pin, last_copies, last_copies_take, last_copies_pin, numbers_of_descriptors, numbers_of_descriptors_take, numbers_of_descriptors_pin};

/// The faults of the calls on descriptors, at a pipe: operands first, then the descriptor, its access, the pages, nothing to do.
pub fn faults_on_pipes_are_told()
    ensures { played (script_of 64 (codes "init" ∷ [])) faults_on_pipes
        ≡ record { told = told_of faults_on_pipes; heap = faults_on_pipes_take; pinned = faults_on_pipes_pin } }
{}

/// Writes without waiting where 512 bytes are free, or 511: one of at most 512 goes whole or not at all, a greater one in part.
pub fn writes_at_the_border_are_told()
    ensures { played (script_of 64 (codes "init" ∷ [])) writes_at_the_border
        ≡ record { told = told_of writes_at_the_border; heap = writes_at_the_border_take; pinned = writes_at_the_border_pin } }
{}

/// Without readers a write fails; without writers what is there is read, and then the end.
pub fn broken_pipes_are_told()
    ensures { played (script_of 64 (codes "init" ∷ [])) broken_pipes
        ≡ record { told = told_of broken_pipes; heap = broken_pipes_take; pinned = broken_pipes_pin } }
{}

/// A write that has moved a part is told it where the readers go, or where it may wait no more.
pub fn parts_that_end_are_told()
    ensures { played (script_of 64 (codes "init" ∷ [])) parts_that_end
        ≡ record { told = told_of parts_that_end; heap = parts_that_end_take; pinned = parts_that_end_pin } }
{}

/// An end of a pipe is closed with the last descriptor of all processes that names it.
pub fn last_copies_are_told()
    ensures { played (script_of 64 (codes "init" ∷ [])) last_copies
        ≡ record { told = told_of last_copies; heap = last_copies_take; pinned = last_copies_pin } }
{}

/// The lowest descriptors that are free, and their flags.
pub fn numbers_of_descriptors_are_told()
    ensures { played (script_of 64 (codes "init" ∷ [])) numbers_of_descriptors
        ≡ record { told = told_of numbers_of_descriptors; heap = numbers_of_descriptors_take; pinned = numbers_of_descriptors_pin } }
{}
