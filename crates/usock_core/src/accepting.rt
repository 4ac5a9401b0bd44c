ghost use Rattle.std.specs.Prelude.{ℕ, List, ◌≡◌, ◌++◌, ◌∷◌, [], None, drop};
ghost use Rattle.kheap_slabs.specs.Owners.{OwnsItsObjects};
ghost use Rattle.kheap_slabs.specs.Paid.{TakesNothing};
ghost use Rattle.posix_defs.specs.Socket.{accept as plain_accept};
ghost use Rattle.posix_defs.specs.Sockets.{Sockets, stage_at};
ghost use Rattle.usock_core.specs.Answers.{accepting_of, after_answer, named_after, UnlessTook, accept_would_wait};
ghost use Rattle.usock_core.specs.Standing.{IsHeldIn, StandsFor, IsSocketIn, QueuesStay, LeavesOthers};

use crate::Accepted;
use crate::steps::replace;
use kabi_types::Errno;
use kheap_slabs::{KHeap, Sock, SockState};

/// Takes the socket that waited first for a listening one (POSIX accept). `room` says that a descriptor is free for it.
///
/// EINVAL where it doesn't listen, EMFILE without room, EAGAIN where none waits and the caller doesn't wait.
pub fn accept(heap: &mut KHeap, key: u32, room: bool, nonblock: bool) -> Accepted
    requires owned { OwnsItsObjects heap.old }
    requires there { IsSocketIn heap.old key }
    ensures answer { (sockets : Sockets) → StandsFor heap.old sockets
        → accepting_of result ≡ plain_accept (stage_at sockets key) room nonblock }
    ensures stands { (sockets : Sockets) → StandsFor heap.old sockets
        → StandsFor heap.new (after_answer sockets key result) }
    ensures held { (named : List ℕ) → IsHeldIn heap.old named → IsHeldIn heap.new (named_after result named) }
    ensures owned { OwnsItsObjects heap.new }
    ensures others { LeavesOthers heap.old heap.new }
    ensures queues { QueuesStay heap.old heap.new }
    ensures takes { TakesNothing heap.old heap.new }
    ensures refused { UnlessTook result (heap.new ≡ heap.old) }
{
    let sock = *heap.get_sock(key);
    let SockState::Listening = sock.state else {
        return Accepted::Fault(Errno::EINVAL);
    };
    if !room {
        return Accepted::Fault(Errno::EMFILE);
    }
    match sock.waiting[0] {
        Some(first) => {
            replace(
                heap,
                key,
                Sock {
                    waiting: behind_first(&sock.waiting),
                    ..sock
                },
            );
            Accepted::Took(first)
        }
        None if nonblock => Accepted::Fault(Errno::EAGAIN),
        None => Accepted::Blocked,
    }
}

/// Whether an accept would have to wait: the socket listens, a descriptor is free, none waits, and the caller waits.
pub fn accept_waits(heap: &KHeap, key: u32, room: bool, nonblock: bool) -> bool
    requires { IsSocketIn heap.now key }
    ensures { (sockets : Sockets) → StandsFor heap.now sockets
        → result ≡ accept_would_wait (plain_accept (stage_at sockets key) room nonblock) }
{
    let sock = heap.get_sock(key);
    match sock.state {
        SockState::Listening => room && sock.waiting[0].is_none() && !nonblock,
        SockState::Idle | SockState::Connected { .. } => false,
    }
}

// A backlog without the first that waits: all others move up.
fn behind_first(waiting: &[Option<u32>; 8]) -> [Option<u32>; 8]
    ensures { result ≡ drop 1 waiting.now ++ None ∷ [] }
{
    let mut rest = [None; 8];
    rest[..7].copy_from_slice(&waiting[1..]);
    rest
}
