ghost use Rattle.std.specs.Prelude.{◌≡◌, ◌∷◌, [], codes};
ghost use Rattle.machine_traces.specs.Trace.{told_of, played, script_of};
ghost use Rattle.machine_traces.specs.Paths.{made_and_removed, made_and_removed_take, made_and_removed_pin, refused_walks, refused_walks_take, refused_walks_pin, linked_names, linked_names_take, linked_names_pin, removed_directories, removed_directories_take, removed_directories_pin, removed_names, removed_names_take, removed_names_pin, made_directories, made_directories_take, made_directories_pin, renamed_in_order, renamed_in_order_take, renamed_in_order_pin};

/// Directories made, entered and removed.
pub fn made_and_removed_are_told()
    ensures { played (script_of 64 (codes "init" ∷ [])) made_and_removed
        ≡ record { told = told_of made_and_removed; heap = made_and_removed_take; pinned = made_and_removed_pin } }
{}

/// What a walk refuses: long names, names that are missing, files on the way or before a slash.
pub fn refused_walks_are_told()
    ensures { played (script_of 64 (codes "init" ∷ [])) refused_walks
        ≡ record { told = told_of refused_walks; heap = refused_walks_take; pinned = refused_walks_pin } }
{}

/// Further names of a file, and its count of links.
pub fn linked_names_are_told()
    ensures { played (script_of 64 (codes "init" ∷ [])) linked_names
        ≡ record { told = told_of linked_names; heap = linked_names_take; pinned = linked_names_pin } }
{}

/// Each answer of `rmdir`.
pub fn removed_directories_are_told()
    ensures { played (script_of 64 (codes "init" ∷ [])) removed_directories
        ≡ record { told = told_of removed_directories; heap = removed_directories_take; pinned = removed_directories_pin } }
{}

/// Each answer of `unlink`.
pub fn removed_names_are_told()
    ensures { played (script_of 64 (codes "init" ∷ [])) removed_names
        ≡ record { told = told_of removed_names; heap = removed_names_take; pinned = removed_names_pin } }
{}

/// Each answer of `mkdir`.
pub fn made_directories_are_told()
    ensures { played (script_of 64 (codes "init" ∷ [])) made_directories
        ≡ record { told = told_of made_directories; heap = made_directories_take; pinned = made_directories_pin } }
{}

/// The answers of `rename`, each where an earlier one does not hold.
pub fn renamed_in_order_are_told()
    ensures { played (script_of 64 (codes "init" ∷ [])) renamed_in_order
        ≡ record { told = told_of renamed_in_order; heap = renamed_in_order_take; pinned = renamed_in_order_pin } }
{}
