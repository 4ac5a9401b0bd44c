ghost use Rattle.std.specs.Prelude.{◌≡◌, ◌∷◌, [], codes};
ghost use Rattle.machine_traces.specs.Trace.{told_of, played, script_of};
ghost use Rattle.machine_traces.specs.Opens.{faults_on_files, faults_on_files_take, faults_on_files_pin, open_directories, open_directories_take, open_directories_pin, places_in_files, places_in_files_take, places_in_files_pin, flags_of_open, flags_of_open_take, flags_of_open_pin, files_without_names, files_without_names_take, files_without_names_pin, cut_and_grown, cut_and_grown_take, cut_and_grown_pin, full_disks, full_disks_take, full_disks_pin};

/// The faults of the calls on files, in the order in which they are told.
pub fn faults_on_files_are_told()
    ensures { played (script_of 64 (codes "init" ∷ [])) faults_on_files
        ≡ record { told = told_of faults_on_files; heap = faults_on_files_take; pinned = faults_on_files_pin } }
{}

/// What an open directory refuses.
pub fn open_directories_are_told()
    ensures { played (script_of 64 (codes "init" ∷ [])) open_directories
        ≡ record { told = told_of open_directories; heap = open_directories_take; pinned = open_directories_pin } }
{}

/// Offsets from the beginning, from where it stands and from the end.
pub fn places_in_files_are_told()
    ensures { played (script_of 64 (codes "init" ∷ [])) places_in_files
        ≡ record { told = told_of places_in_files; heap = places_in_files_take; pinned = places_in_files_pin } }
{}

/// Which flags of `open` are faults, and what each asks for.
pub fn flags_of_open_are_told()
    ensures { played (script_of 64 (codes "init" ∷ [])) flags_of_open
        ≡ record { told = told_of flags_of_open; heap = flags_of_open_take; pinned = flags_of_open_pin } }
{}

/// A file without a name is there as long as it is open.
pub fn files_without_names_are_told()
    ensures { played (script_of 16 (codes "init" ∷ [])) files_without_names
        ≡ record { told = told_of files_without_names; heap = files_without_names_take; pinned = files_without_names_pin } }
{}

/// Sizes that are set: what is cut is gone, what grows is zero, and offsets stay.
pub fn cut_and_grown_are_told()
    ensures { played (script_of 64 (codes "init" ∷ [])) cut_and_grown
        ≡ record { told = told_of cut_and_grown; heap = cut_and_grown_take; pinned = cut_and_grown_pin } }
{}

/// The least disk: a write is as long as there is room, with the block for pointers.
pub fn full_disks_are_told()
    ensures { played (script_of 16 (codes "init" ∷ [])) full_disks
        ≡ record { told = told_of full_disks; heap = full_disks_take; pinned = full_disks_pin } }
{}
