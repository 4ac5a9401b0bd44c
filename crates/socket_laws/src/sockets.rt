//! Laws of sockets. Each is the contract of a function that does nothing.

ghost use Rattle.std.specs.Prelude.{◌≡◌, ◌≢◌, ℕ, ℤ, ◌<◌, ◌≤◌, ◌+◌, Bool, true, false, List, [], ◌∷◌, ◌++◌, length, Option, None, Some, IsSome, min, pos, codes};
ghost use Rattle.std.specs.List.{Contains};
ghost use Rattle.posix_defs.specs.Socket.{Socket, Idle, Listening, Takes, Waits, Refuses, accept, listen_fault, bind_fault, connect_fault, connected_to, new_socket, peer_of, waiting_of, is_connected, is_shut_read, shuts_writing};
ghost use Rattle.posix_defs.specs.Sockets.{Sockets, sock_at, socket_at, stage_at, with_socket, with_name, with_new, with_pair, after_listen, after_connect, after_accept, after_read, after_write, after_shut, after_close, is_refused, sock_read, sock_write, sock_polled};
ghost use Rattle.posix_defs.specs.Pipe.{Moves, Blocks, Fails};
ghost use Rattle.socket_laws.specs.QueueRuns.{QueueStep, put_in, taken_out};
ghost use Rattle.socket_laws.specs.SocketRuns.{after_steps};
ghost use Rattle.socket_laws.specs.WorkedSockets.{two_connected, one_shut, one_listens, one_waits, one_accepted, hi_written, client_closed, hi_read, with_clients, left_client};
ghost use Rattle.kabi_types.specs.declared.errnos.Errno.TheVariants.{EINVAL, EAGAIN, EMFILE, EPIPE, EISCONN, ENOTCONN, EDESTADDRREQ, EOPNOTSUPP};
ghost use Rattle.posix_defs.specs.SocketLinks.{AreLinked, AreHeld, WaitsNowhere, NoneTwice};

/// A socket that is made at the next free place stands behind all others, and a change at a place leaves the places of all.
pub fn sockets_stand_where_they_stood()
    ensures last { (sockets : Sockets) (socket : Option Socket)
        → with_socket sockets (length sockets) socket ≡ sockets ++ socket ∷ [] }
    ensures within { (sockets : Sockets) (place : ℕ) (socket : Option Socket)
        → place < length sockets → length (with_socket sockets place socket) ≡ length sockets }
    ensures here { (sockets : Sockets) (place : ℕ) (socket : Option Socket)
        → place ≤ length sockets → sock_at (with_socket sockets place socket) place ≡ socket }
    ensures others { (sockets : Sockets) (place other : ℕ) (socket : Option Socket)
        → place ≤ length sockets → other ≢ place
        → sock_at (with_socket sockets place socket) other ≡ sock_at sockets other }
{}

/// Each call leaves the sockets linked: a socket's peer has that socket as its peer.
pub fn sockets_stay_linked()
    ensures made { (sockets : Sockets) (made : ℕ)
        → AreLinked sockets → sock_at sockets made ≡ None → made ≤ length sockets → AreLinked (with_new sockets made) }
    ensures pair { (sockets : Sockets) (one other : ℕ)
        → AreLinked sockets → one ≢ other → sock_at sockets one ≡ None → sock_at sockets other ≡ None
        → one ≤ length sockets → other ≤ length (with_socket sockets one (Some (connected_to other)))
        → AreLinked (with_pair sockets one other) }
    ensures connected { (sockets : Sockets) (client listener made : ℕ) (waiting : List ℕ)
        → AreLinked sockets → stage_at sockets client ≡ Idle → IsSome (sock_at sockets client)
        → sock_at sockets made ≡ None → made ≤ length sockets
        → stage_at sockets listener ≡ Listening waiting → is_refused sockets (Some listener) ≡ false
        → AreLinked (after_connect sockets client listener made) }
    ensures named { (sockets : Sockets) (place : ℕ) (node : Option ℕ)
        → AreLinked sockets → IsSome (sock_at sockets place) → AreLinked (with_name sockets place node) }
    ensures listening { (sockets : Sockets) (place : ℕ)
        → AreLinked sockets → IsSome (sock_at sockets place) → AreLinked (after_listen sockets place) }
    ensures accepted { (sockets : Sockets) (place : ℕ)
        → AreLinked sockets → IsSome (sock_at sockets place) → AreLinked (after_accept sockets place) }
    ensures read { (sockets : Sockets) (place count : ℕ)
        → AreLinked sockets → IsSome (sock_at sockets place) → AreLinked (after_read sockets place count) }
    ensures written { (sockets : Sockets) (place : ℕ) (bytes : List ℕ) (count : ℕ) (nonblock : Bool)
        → AreLinked sockets → sock_write sockets place nonblock (length bytes) ≡ Moves count
        → AreLinked (after_write sockets place bytes count) }
    ensures shut { (sockets : Sockets) (place : ℕ) (how : ℤ)
        → AreLinked sockets → IsSome (sock_at sockets place) → AreLinked (after_shut sockets place how) }
    ensures closed { (sockets : Sockets) (place : ℕ)
        → AreLinked sockets → IsSome (sock_at sockets place) → WaitsNowhere sockets place
        → AreLinked (after_close sockets place) }
{}

/// Bytes come out of a connection in the order in which they were written, each once, and what wasn't read is there still.
/// A write touches the peer's queue alone, a read the reader's own.
pub fn each_direction_keeps_its_order()
    ensures order { (sockets : Sockets) (writer reader : ℕ) (steps : List QueueStep)
        → AreLinked sockets → peer_of (stage_at sockets writer) ≡ Some reader
        → (socket_at sockets reader).bytes ++ put_in steps
        ≡ taken_out (socket_at sockets reader).bytes steps
        ++ (socket_at (after_steps sockets writer reader steps) reader).bytes }
    ensures written { (sockets : Sockets) (writer reader other : ℕ) (bytes : List ℕ) (count : ℕ)
        → AreLinked sockets → peer_of (stage_at sockets writer) ≡ Some reader → other ≢ reader
        → socket_at (after_write sockets writer bytes count) other ≡ socket_at sockets other }
    ensures read { (sockets : Sockets) (reader other count : ℕ)
        → IsSome (sock_at sockets reader) → other ≢ reader
        → socket_at (after_read sockets reader count) other ≡ socket_at sockets other }
{}

/// After one side shuts writing the other reads what is left and then the end, and nothing more can be written.
pub fn a_shut_side_is_read_to_its_end()
    ensures left { (sockets : Sockets) (writer reader : ℕ) (how : ℤ)
        → AreLinked sockets → peer_of (stage_at sockets writer) ≡ Some reader
        → (socket_at (after_shut sockets writer how) reader).bytes ≡ (socket_at sockets reader).bytes }
    ensures rest { (sockets : Sockets) (reader n : ℕ) (nonblock : Bool)
        → is_connected (stage_at sockets reader) ≡ true → is_shut_read (stage_at sockets reader) ≡ false
        → 0 < length (socket_at sockets reader).bytes
        → sock_read sockets reader nonblock n ≡ Moves (min n (length (socket_at sockets reader).bytes)) }
    ensures end { (sockets : Sockets) (writer reader n : ℕ) (nonblock : Bool) (how : ℤ)
        → AreLinked sockets → peer_of (stage_at sockets writer) ≡ Some reader → shuts_writing how ≡ true
        → (socket_at sockets reader).bytes ≡ []
        → sock_read (after_shut sockets writer how) reader nonblock n ≡ Moves 0 }
    ensures refused { (sockets : Sockets) (writer m : ℕ) (nonblock : Bool) (how : ℤ)
        → is_connected (stage_at sockets writer) ≡ true → shuts_writing how ≡ true
        → sock_write (after_shut sockets writer how) writer nonblock m ≡ Fails EPIPE }
{}

/// A socket whose peer has closed stays connected, keeps the bytes that it is to read, is at the end behind them, and
/// can't write.
pub fn a_socket_stays_connected_after_its_peer()
    ensures stays { (sockets : Sockets) (closed left : ℕ)
        → AreLinked sockets → peer_of (stage_at sockets closed) ≡ Some left
        → is_connected (stage_at (after_close sockets closed) left) ≡ true }
    ensures bytes { (sockets : Sockets) (closed left : ℕ)
        → AreLinked sockets → peer_of (stage_at sockets closed) ≡ Some left
        → (socket_at (after_close sockets closed) left).bytes ≡ (socket_at sockets left).bytes }
    ensures end { (sockets : Sockets) (closed left n : ℕ) (nonblock : Bool)
        → AreLinked sockets → peer_of (stage_at sockets closed) ≡ Some left
        → (socket_at sockets left).bytes ≡ []
        → sock_read (after_close sockets closed) left nonblock n ≡ Moves 0 }
    ensures refused { (sockets : Sockets) (closed left m : ℕ) (nonblock : Bool)
        → AreLinked sockets → peer_of (stage_at sockets closed) ≡ Some left
        → sock_write (after_close sockets closed) left nonblock m ≡ Fails EPIPE }
{}

/// Who waits first is accepted first, a ninth is refused, and one whose client has closed counts among those that wait.
pub fn the_backlog_is_in_order()
    ensures last { (sockets : Sockets) (client listener made : ℕ) (waiting : List ℕ)
        → AreLinked sockets → stage_at sockets client ≡ Idle → IsSome (sock_at sockets client)
        → sock_at sockets made ≡ None → made ≤ length sockets
        → stage_at sockets listener ≡ Listening waiting
        → stage_at (after_connect sockets client listener made) listener ≡ Listening (waiting ++ made ∷ []) }
    ensures first { (sockets : Sockets) (listener first : ℕ) (rest : List ℕ) (nonblock : Bool)
        → IsSome (sock_at sockets listener) → stage_at sockets listener ≡ Listening (first ∷ rest)
        → (accept (stage_at sockets listener) true nonblock ≡ Takes first)
        × (stage_at (after_accept sockets listener) listener ≡ Listening rest) }
    ensures ninth { (sockets : Sockets) (listener : ℕ)
        → length (waiting_of (stage_at sockets listener)) ≡ 8 → is_refused sockets (Some listener) ≡ true }
    ensures eighth { (sockets : Sockets) (listener : ℕ)
        → length (waiting_of (stage_at sockets listener)) < 8 → is_refused sockets (Some listener) ≡ false }
    ensures counted { (sockets : Sockets) (client listener : ℕ)
        → AreLinked sockets → is_connected (stage_at sockets client) ≡ true → client ≢ listener
        → WaitsNowhere sockets client
        → waiting_of (stage_at (after_close sockets client) listener) ≡ waiting_of (stage_at sockets listener) }
{}

/// The worked examples, computed by hand: two that are connected, one of them shut for writing; and a client that is
/// accepted, writes and closes.
pub fn these_sockets_answer_so()
    ensures pair { (sock_write one_shut 0 false 1 ≡ Fails EPIPE) × (sock_read one_shut 1 false 1 ≡ Moves 0)
        × (sock_polled one_shut 0 (pos 5) ≡ 4) × (sock_polled one_shut 1 (pos 5) ≡ 5)
        × (connect_fault (stage_at one_shut 0) ≡ Some EISCONN) × (accept (stage_at one_shut 0) true false ≡ Refuses EINVAL) }
    ensures open { (sock_read two_connected 0 true 1 ≡ Fails EAGAIN) × (sock_read two_connected 0 false 1 ≡ Blocks)
        × (sock_write two_connected 0 false 5000 ≡ Moves 4096) × (sock_polled two_connected 0 (pos 5) ≡ 4) }
    ensures listener { (listen_fault new_socket ≡ Some EDESTADDRREQ) × (bind_fault (socket_at one_listens 0) ≡ Some EINVAL)
        × (accept (stage_at one_listens 0) true true ≡ Refuses EAGAIN) × (accept (stage_at one_listens 0) true false ≡ Waits)
        × (accept (stage_at one_waits 0) false false ≡ Refuses EMFILE) × (accept (stage_at one_waits 0) true false ≡ Takes 2)
        × (sock_polled one_listens 0 (pos 1) ≡ 0) × (sock_polled one_waits 0 (pos 1) ≡ 1)
        × (connect_fault (stage_at one_listens 0) ≡ Some EOPNOTSUPP) × (sock_read one_listens 0 false 1 ≡ Fails ENOTCONN) }
    ensures client { (sock_write one_accepted 1 false 2 ≡ Moves 2) × ((socket_at client_closed 2).bytes ≡ codes "hi")
        × (sock_read client_closed 2 false 8 ≡ Moves 2) × (sock_read hi_read 2 false 8 ≡ Moves 0)
        × (sock_polled hi_read 2 (pos 5) ≡ 17) × (sock_polled client_closed 0 (pos 5) ≡ 0) }
    ensures most { (is_refused (with_clients 7) (Some 0) ≡ false) × (is_refused (with_clients 8) (Some 0) ≡ true)
        × (is_refused (after_close (with_clients 8) 1) (Some 0) ≡ true)
        × (is_refused (after_accept (with_clients 8) 0) (Some 0) ≡ false) }
    ensures closed { after_close (with_clients 2) 0
        ≡ None ∷ Some left_client ∷ None ∷ Some left_client ∷ None ∷ [] }
{}

/// No call leaves a socket that nobody owns: every one that is there is named by a description or waits to be accepted, and
/// none does both. What is made is named, what is accepted is named from then on, and what is closed goes with all that
/// wait for it.
pub fn every_socket_has_its_owner()
    ensures made { (sockets : Sockets) (named : List ℕ) (made : ℕ)
        → AreLinked sockets → sock_at sockets made ≡ None → made ≤ length sockets
        → AreHeld sockets named → AreHeld (with_new sockets made) (made ∷ named) }
    ensures pair { (sockets : Sockets) (named : List ℕ) (one other : ℕ)
        → AreLinked sockets → one ≢ other → sock_at sockets one ≡ None → sock_at sockets other ≡ None
        → one ≤ length sockets → other ≤ length (with_socket sockets one (Some (connected_to other)))
        → AreHeld sockets named → AreHeld (with_pair sockets one other) (other ∷ one ∷ named) }
    ensures connected { (sockets : Sockets) (named : List ℕ) (client listener made : ℕ) (waiting : List ℕ)
        → AreLinked sockets → stage_at sockets client ≡ Idle → IsSome (sock_at sockets client)
        → sock_at sockets made ≡ None → made ≤ length sockets
        → stage_at sockets listener ≡ Listening waiting
        → AreHeld sockets named → AreHeld (after_connect sockets client listener made) named }
    ensures accepted { (sockets : Sockets) (named : List ℕ) (listener first : ℕ) (rest : List ℕ)
        → AreLinked sockets → stage_at sockets listener ≡ Listening (first ∷ rest)
        → AreHeld sockets named → AreHeld (after_accept sockets listener) (first ∷ named) }
    ensures closed { (sockets : Sockets) (named : List ℕ) (place : ℕ)
        → AreLinked sockets → (Contains named place → ⊥)
        → AreHeld sockets (place ∷ named) → AreHeld (after_close sockets place) named }
    ensures bound { (sockets : Sockets) (named : List ℕ) (place : ℕ) (node : Option ℕ)
        → IsSome (sock_at sockets place) → AreHeld sockets named → AreHeld (with_name sockets place node) named }
    ensures listening { (sockets : Sockets) (named : List ℕ) (place : ℕ)
        → IsSome (sock_at sockets place) → AreHeld sockets named → AreHeld (after_listen sockets place) named }
    ensures read { (sockets : Sockets) (named : List ℕ) (place count : ℕ)
        → IsSome (sock_at sockets place) → AreHeld sockets named → AreHeld (after_read sockets place count) named }
    ensures written { (sockets : Sockets) (named : List ℕ) (place : ℕ) (bytes : List ℕ) (count : ℕ)
        → AreLinked sockets → AreHeld sockets named → AreHeld (after_write sockets place bytes count) named }
    ensures shut { (sockets : Sockets) (named : List ℕ) (place : ℕ) (how : ℤ)
        → IsSome (sock_at sockets place) → AreHeld sockets named → AreHeld (after_shut sockets place how) named }
{}
