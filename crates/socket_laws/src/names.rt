//! Laws of the names of sockets, and of how many bytes a call on one moves. Each is the contract of a function that does nothing.

ghost use Rattle.std.specs.Prelude.{◌≡◌, ℕ, ℤ, ◌≤◌, Bool, List, length, min, take, Option, None, Some, IsSome};
ghost use Rattle.posix_defs.specs.Pipe.{Moves, capacity};
ghost use Rattle.posix_defs.specs.Socket.{Listening, connected_to};
ghost use Rattle.posix_defs.specs.Files.SocketNames.{listener_at, none_bound_to};
ghost use Rattle.posix_defs.specs.Sockets.{Sockets, sock_at, socket_at, stage_at, with_socket, with_name, with_new, with_pair, after_listen, after_connect, after_accept, after_read, after_write, after_shut, after_close, sock_read, sock_write};
ghost use Rattle.posix_defs.specs.SocketLinks.{AreLinked, AreNamedOnce, NamesNone, WaitsNowhere};

/// Each call leaves a node the name of one socket at most; `bind` where nobody has the node's name yet.
pub fn a_node_names_one_socket()
    ensures made { (sockets : Sockets) (made : ℕ)
        → made ≤ length sockets → AreNamedOnce sockets → AreNamedOnce (with_new sockets made) }
    ensures pair { (sockets : Sockets) (one other : ℕ)
        → one ≤ length sockets → other ≤ length (with_socket sockets one (Some (connected_to other)))
        → AreNamedOnce sockets → AreNamedOnce (with_pair sockets one other) }
    ensures connected { (sockets : Sockets) (client listener made : ℕ) (waiting : List ℕ)
        → IsSome (sock_at sockets client) → made ≤ length sockets → stage_at sockets listener ≡ Listening waiting
        → AreNamedOnce sockets → AreNamedOnce (after_connect sockets client listener made) }
    ensures named { (sockets : Sockets) (place : ℕ) (node : Option ℕ)
        → IsSome (sock_at sockets place) → ((number : ℕ) → node ≡ Some number → NamesNone sockets number)
        → AreNamedOnce sockets → AreNamedOnce (with_name sockets place node) }
    ensures listening { (sockets : Sockets) (place : ℕ)
        → IsSome (sock_at sockets place) → AreNamedOnce sockets → AreNamedOnce (after_listen sockets place) }
    ensures accepted { (sockets : Sockets) (place : ℕ)
        → IsSome (sock_at sockets place) → AreNamedOnce sockets → AreNamedOnce (after_accept sockets place) }
    ensures read { (sockets : Sockets) (place count : ℕ)
        → IsSome (sock_at sockets place) → AreNamedOnce sockets → AreNamedOnce (after_read sockets place count) }
    ensures written { (sockets : Sockets) (place : ℕ) (bytes : List ℕ) (count : ℕ)
        → AreLinked sockets → AreNamedOnce sockets → AreNamedOnce (after_write sockets place bytes count) }
    ensures shut { (sockets : Sockets) (place : ℕ) (how : ℤ)
        → IsSome (sock_at sockets place) → AreNamedOnce sockets → AreNamedOnce (after_shut sockets place how) }
    ensures closed { (sockets : Sockets) (place : ℕ)
        → AreLinked sockets → IsSome (sock_at sockets place) → WaitsNowhere sockets place
        → AreNamedOnce sockets → AreNamedOnce (after_close sockets place) }
{}

/// Of a write and of a read only the first 4096 bytes matter: a call with just these is answered the same and leaves the
/// same sockets.
pub fn a_socket_moves_no_more_than_it_holds()
    ensures write { (sockets : Sockets) (place : ℕ) (nonblock : Bool) (m : ℕ)
        → sock_write sockets place nonblock m ≡ sock_write sockets place nonblock (min m capacity) }
    ensures written { (sockets : Sockets) (place : ℕ) (nonblock : Bool) (bytes : List ℕ) (k : ℕ)
        → sock_write sockets place nonblock (length bytes) ≡ Moves k
        → after_write sockets place bytes k ≡ after_write sockets place (take capacity bytes) k }
    ensures read { (sockets : Sockets) (place : ℕ) (nonblock : Bool) (n : ℕ)
        → AreLinked sockets → sock_read sockets place nonblock n ≡ sock_read sockets place nonblock (min n capacity) }
{}

/// Who listens under the name of a node is the socket that is bound to it and listens; where a node names at most one socket
/// it is found, and where nobody is bound to the node nobody is.
pub fn who_listens_is_the_one_that_is_bound()
    ensures found { (sockets : Sockets) (place number : ℕ) (waiting : List ℕ)
        → AreNamedOnce sockets → (socket_at sockets place).node ≡ Some number
        → stage_at sockets place ≡ Listening waiting → listener_at sockets number ≡ Some place }
    ensures bound { (sockets : Sockets) (place number : ℕ)
        → listener_at sockets number ≡ Some place → (socket_at sockets place).node ≡ Some number }
    ensures listens { (sockets : Sockets) (place number : ℕ)
        → listener_at sockets number ≡ Some place
        → (waiting : List ℕ) × (stage_at sockets place ≡ Listening waiting) }
    ensures nobody { (sockets : Sockets) (number : ℕ)
        → NamesNone sockets number → listener_at sockets number ≡ None }
{}

/// A name that is freed is taken from the one socket that is bound to it, as if its own name was taken away, and nobody is
/// bound to it any more.
pub fn a_freed_name_is_nobodys()
    ensures one { (sockets : Sockets) (place number : ℕ)
        → AreNamedOnce sockets → (socket_at sockets place).node ≡ Some number
        → none_bound_to sockets number ≡ with_name sockets place None }
    ensures none { (sockets : Sockets) (number : ℕ)
        → NamesNone sockets number → none_bound_to sockets number ≡ sockets }
    ensures freed { (sockets : Sockets) (number : ℕ) → NamesNone (none_bound_to sockets number) number }
    ensures once { (sockets : Sockets) (number : ℕ)
        → AreNamedOnce sockets → AreNamedOnce (none_bound_to sockets number) }
{}
