ghost use Rattle.std.specs.Prelude.{◌≡◌, ◌∷◌, [], codes};
ghost use Rattle.machine_traces.specs.Trace.{told_of, played, script_of};
ghost use Rattle.machine_traces.specs.Locks.{script_with, two_clerks, clerks_in_a_circle, clerks_in_a_circle_take, clerks_in_a_circle_pin, three_in_turn, three_in_a_circle, three_in_a_circle_take, three_in_a_circle_pin, locks_that_go, locks_that_go_take, locks_that_go_pin};

/// Two clerks each hold what the other waits for, so the second to wait is refused; it lets some of the middle go, and the other
/// goes on.
pub fn clerks_in_a_circle_are_told()
    ensures { played (script_with two_clerks) clerks_in_a_circle
        ≡ record { told = told_of clerks_in_a_circle; heap = clerks_in_a_circle_take; pinned = clerks_in_a_circle_pin } }
{}

/// Of three in a circle who would close it is refused; once it has ended the others go on.
pub fn three_in_a_circle_are_told()
    ensures { played (script_with three_in_turn) three_in_a_circle
        ≡ record { told = told_of three_in_a_circle; heap = three_in_a_circle_take; pinned = three_in_a_circle_pin } }
{}

/// Reading is held by several at once, writing by one; to close any descriptor of a file lets its places go. What is refused.
pub fn locks_that_go_are_told()
    ensures { played (script_of 64 (codes "init" ∷ [])) locks_that_go
        ≡ record { told = told_of locks_that_go; heap = locks_that_go_take; pinned = locks_that_go_pin } }
{}
