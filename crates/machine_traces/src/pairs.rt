ghost use Rattle.std.specs.Prelude.{◌≡◌, ◌∷◌, [], codes};
ghost use Rattle.machine_traces.specs.Trace.{told_of, played, script_of};
ghost use Rattle.machine_traces.specs.Pairs.{faults_on_pairs, faults_on_pairs_take, faults_on_pairs_pin, shut_reading, shut_reading_take, shut_reading_pin, closed_peers, closed_peers_take, closed_peers_pin};

/// The faults of the calls on sockets, in the order in which they are told.
pub fn faults_on_pairs_are_told()
    ensures { played (script_of 64 (codes "init" ∷ [])) faults_on_pairs
        ≡ record { told = told_of faults_on_pairs; heap = faults_on_pairs_take; pinned = faults_on_pairs_pin } }
{}

/// A socket that is shut for reading, and its peer.
pub fn shut_reading_are_told()
    ensures { played (script_of 64 (codes "init" ∷ [])) shut_reading
        ≡ record { told = told_of shut_reading; heap = shut_reading_take; pinned = shut_reading_pin } }
{}

/// What a socket reads and writes after its peer has closed.
pub fn closed_peers_are_told()
    ensures { played (script_of 64 (codes "init" ∷ [])) closed_peers
        ≡ record { told = told_of closed_peers; heap = closed_peers_take; pinned = closed_peers_pin } }
{}
