ghost use Rattle.std.specs.Prelude.{ℕ, List, ◌≡◌, Option, MatchResult};
ghost use Rattle.kheap_slabs.specs.Owners.{OwnsItsObjects};
ghost use Rattle.kheap_slabs.specs.Paid.{TakesNothing};
ghost use Rattle.posix_defs.specs.Socket.{bind_fault, listen_fault};
ghost use Rattle.posix_defs.specs.Sockets.{Sockets, socket_at, with_name, after_listen};
ghost use Rattle.usock_core.specs.Answers.{Answers};
ghost use Rattle.usock_core.specs.Standing.{IsHeldIn, StandsFor, IsSocketIn, QueuesStay, LeavesOthers};

use crate::steps::replace;
use kabi_types::Errno;
use kheap_slabs::{KHeap, Sock, SockState};

/// Whether a socket can be bound to a name: EINVAL where it is bound already, EISCONN where it is connected (POSIX bind).
pub fn can_bind(heap: &KHeap, key: u32) -> Result<(), Errno>
    requires { IsSocketIn heap.now key }
    ensures { (sockets : Sockets) → StandsFor heap.now sockets → Answers result (bind_fault (socket_at sockets key)) }
{
    let sock = heap.get_sock(key);
    if sock.node.is_some() {
        return Err(Errno::EINVAL);
    }
    match sock.state {
        SockState::Connected { .. } => Err(Errno::EISCONN),
        SockState::Idle | SockState::Listening => Ok(()),
    }
}

/// Sets the number of the node that a socket is bound to, or takes it away.
pub fn name_sock(heap: &mut KHeap, key: u32, node: Option<u32>)
    requires owned { OwnsItsObjects heap.old }
    requires there { IsSocketIn heap.old key }
    ensures stands { (sockets : Sockets) → StandsFor heap.old sockets → StandsFor heap.new (with_name sockets key node) }
    ensures held { (named : List ℕ) → IsHeldIn heap.old named → IsHeldIn heap.new named }
    ensures owned { OwnsItsObjects heap.new }
    ensures others { LeavesOthers heap.old heap.new }
    ensures queues { QueuesStay heap.old heap.new }
    ensures takes { TakesNothing heap.old heap.new }
{
    let sock = *heap.get_sock(key);
    replace(heap, key, Sock { node, ..sock });
}

/// Lets a socket listen from now on; one that listens already goes on (POSIX listen).
///
/// EINVAL where it is connected, EDESTADDRREQ where it has no name.
pub fn listen(heap: &mut KHeap, key: u32) -> Result<(), Errno>
    requires owned { OwnsItsObjects heap.old }
    requires there { IsSocketIn heap.old key }
    ensures answer { (sockets : Sockets) → StandsFor heap.old sockets
        → Answers result (listen_fault (socket_at sockets key)) }
    ensures stands { (sockets : Sockets) → StandsFor heap.old sockets
        → MatchResult result (λ _. StandsFor heap.new (after_listen sockets key)) (λ _. heap.new ≡ heap.old) }
    ensures held { (named : List ℕ) → IsHeldIn heap.old named → IsHeldIn heap.new named }
    ensures owned { OwnsItsObjects heap.new }
    ensures others { LeavesOthers heap.old heap.new }
    ensures queues { QueuesStay heap.old heap.new }
    ensures takes { TakesNothing heap.old heap.new }
{
    let sock = *heap.get_sock(key);
    if let SockState::Connected { .. } = sock.state {
        return Err(Errno::EINVAL);
    }
    if sock.node.is_none() {
        return Err(Errno::EDESTADDRREQ);
    }
    replace(
        heap,
        key,
        Sock {
            state: SockState::Listening,
            ..sock
        },
    );
    Ok(())
}
