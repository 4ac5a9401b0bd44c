//! The laws of sockets and of the descriptions that name them. Each is the contract of a function that does nothing.

ghost use Rattle.std.specs.Prelude.{◌≡◌, ℕ, None};
ghost use Rattle.kabi_types.specs.declared.scripts.Script.{Script};
ghost use Rattle.posix_defs.specs.Plain.{Plain};
ghost use Rattle.posix_defs.specs.SocketLinks.{WaitsFor};
ghost use Rattle.posix_defs.specs.Sockets.{socket_at};
ghost use Rattle.machine_laws.specs.Reached.{IsReached};
ghost use Rattle.machine_laws.specs.Joined.{AreJoined};

/// In every machine that is reached sockets are linked: the peer of one has that one as its peer, and who waits waits once.
/// Each socket is named by one description alone, which reads and writes, or waits to be accepted, and none does both.
pub fn each_socket_is_named_once_or_waits()
    ensures { (script : Script) (plain : Plain) → IsReached script plain → AreJoined plain.files.descriptions plain.files.sockets }
{}

/// In every machine that is reached who waits to be accepted has no name of the tree: a `connect` makes it without one, and
/// only a socket that a descriptor names is bound.
pub fn who_waits_has_no_name()
    ensures { (script : Script) (plain : Plain) → IsReached script plain → (listener place : ℕ) → WaitsFor plain.files.sockets listener place
        → (socket_at plain.files.sockets place).node ≡ None }
{}
