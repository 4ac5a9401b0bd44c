ghost use Rattle.std.specs.Prelude.{◌≡◌, ◌∷◌, [], codes};
ghost use Rattle.machine_traces.specs.Trace.{told_of, played, script_of};
ghost use Rattle.machine_traces.specs.Sockets.{bound_sockets, bound_sockets_take, bound_sockets_pin, connected_sockets, connected_sockets_take, connected_sockets_pin, accepted_sockets, accepted_sockets_take, accepted_sockets_pin, waiting_sockets, waiting_sockets_take, waiting_sockets_pin, calls_on_sockets, calls_on_sockets_take, calls_on_sockets_pin};

/// Each answer of `bind`.
pub fn bound_sockets_are_told()
    ensures { played (script_of 64 (codes "init" ∷ [])) bound_sockets
        ≡ record { told = told_of bound_sockets; heap = bound_sockets_take; pinned = bound_sockets_pin } }
{}

/// Each answer of `connect`.
pub fn connected_sockets_are_told()
    ensures { played (script_of 64 (codes "init" ∷ [])) connected_sockets
        ≡ record { told = told_of connected_sockets; heap = connected_sockets_take; pinned = connected_sockets_pin } }
{}

/// Each answer of `accept`.
pub fn accepted_sockets_are_told()
    ensures { played (script_of 64 (codes "init" ∷ [])) accepted_sockets
        ≡ record { told = told_of accepted_sockets; heap = accepted_sockets_take; pinned = accepted_sockets_pin } }
{}

/// At most eight wait, and the first is accepted first.
pub fn waiting_sockets_are_told()
    ensures { played (script_of 64 (codes "init" ∷ [])) waiting_sockets
        ≡ record { told = told_of waiting_sockets; heap = waiting_sockets_take; pinned = waiting_sockets_pin } }
{}

/// What other calls answer on sockets.
pub fn calls_on_sockets_are_told()
    ensures { played (script_of 64 (codes "init" ∷ [])) calls_on_sockets
        ≡ record { told = told_of calls_on_sockets; heap = calls_on_sockets_take; pinned = calls_on_sockets_pin } }
{}
