ghost use Rattle.std.specs.Prelude.{ℕ, List, ◌∷◌, ◌≡◌, ◌||◌, None, Some, MatchResult};
ghost use Rattle.kheap_slabs.specs.declared.objects.SockState.TheVariants as state;
ghost use Rattle.std.specs.List.{Contains};
ghost use Rattle.kheap_slabs.specs.Owners.{OwnsItsObjects};
ghost use Rattle.kheap_slabs.specs.Paid.{TakesNothing};
ghost use Rattle.kheap_slabs.specs.Spaces.{keys_in};
ghost use Rattle.posix_defs.specs.Socket.{shutdown_fault, shuts_reading as plain_shuts_reading, shuts_writing as plain_shuts_writing};
ghost use Rattle.posix_defs.specs.SocketLinks.{AreLoose, WaitsNowhere};
ghost use Rattle.posix_defs.specs.Sockets.{Sockets, stage_at, after_shut, gone, all_gone, after_close};
ghost use Rattle.usock_core.specs.Answers.{Answers};
ghost use Rattle.usock_core.specs.Standing.{IsHeldIn, StandsFor, IsSocketIn, IsClosableIn, AreLooseIn, QueuesStay, LeavesOthers};

use crate::steps::{drop_bytes, remove, replace};
use kabi_types::Errno;
use kheap_slabs::{KHeap, Sock, SockState};

const SHUT_RD: i64 = 0;

const SHUT_WR: i64 = 1;

const SHUT_RDWR: i64 = 2;

/// Shuts a socket for reading (SHUT_RD 0), for writing (SHUT_WR 1) or both (SHUT_RDWR 2). One that is shut for reading
/// drops the bytes that are there (POSIX shutdown). Any other number shuts nothing.
///
/// ENOTCONN where it isn't connected.
pub fn shutdown(heap: &mut KHeap, key: u32, how: i64) -> Result<(), Errno>
    requires owned { OwnsItsObjects heap.old }
    requires there { IsSocketIn heap.old key }
    ensures answer { (sockets : Sockets) → StandsFor heap.old sockets
        → Answers result (shutdown_fault (stage_at sockets key)) }
    ensures stands { (sockets : Sockets) → StandsFor heap.old sockets
        → MatchResult result (λ _. StandsFor heap.new (after_shut sockets key how)) (λ _. heap.new ≡ heap.old) }
    ensures held { (named : List ℕ) → IsHeldIn heap.old named → IsHeldIn heap.new named }
    ensures owned { OwnsItsObjects heap.new }
    ensures others { LeavesOthers heap.old heap.new }
    ensures queues { QueuesStay heap.old heap.new }
    ensures takes { TakesNothing heap.old heap.new }
{
    let sock = *heap.get_sock(key);
    let SockState::Connected {
        shut_read,
        shut_write,
    } = sock.state
    else {
        return Err(Errno::ENOTCONN);
    };
    let now = Sock {
        state: shut_further(shut_read, shut_write, how),
        ..sock
    };
    if shuts_reading(how) {
        drop_bytes(heap, key, now);
    } else {
        replace(heap, key, now);
    }
    Ok(())
}

// Whether reading is shut.
fn shuts_reading(how: i64) -> bool
    ensures { result ≡ plain_shuts_reading how }
{
    how == SHUT_RD || how == SHUT_RDWR
}

// Whether writing is shut.
fn shuts_writing(how: i64) -> bool
    ensures { result ≡ plain_shuts_writing how }
{
    how == SHUT_WR || how == SHUT_RDWR
}

// A connected socket's state, shut further.
fn shut_further(shut_read: bool, shut_write: bool, how: i64) -> SockState
    ensures { result ≡ state.Connected (shut_read || plain_shuts_reading how) (shut_write || plain_shuts_writing how) }
{
    SockState::Connected {
        shut_read: shut_read || shuts_reading(how),
        shut_write: shut_write || shuts_writing(how),
    }
}

/// Closes a socket that waits in no backlog: no description names it any more. It goes with the bytes that it was to read;
/// its peer stays connected, to nobody; and those that wait for it to accept them are closed too (POSIX close).
pub fn close_sock(heap: &mut KHeap, key: u32)
    requires owned { OwnsItsObjects heap.old }
    requires there { IsClosableIn heap.old key }
    ensures stands { (sockets : Sockets) → StandsFor heap.old sockets → StandsFor heap.new (after_close sockets key) }
    ensures held { (named : List ℕ) → IsHeldIn heap.old (key ∷ named) → ¬ Contains named key
        → IsHeldIn heap.new named }
    ensures owned { OwnsItsObjects heap.new }
    ensures others { LeavesOthers heap.old heap.new }
    ensures queues { QueuesStay heap.old heap.new }
    ensures takes { TakesNothing heap.old heap.new }
{
    let waiting = heap.get_sock(key).waiting;
    hang_up(heap, key);
    hang_up_all(heap, &waiting);
}

// Takes a socket out of the heap. Its peer is connected to nobody from then on.
fn hang_up(heap: &mut KHeap, key: u32)
    requires owned { OwnsItsObjects heap.old }
    requires there { IsClosableIn heap.old key }
    ensures stands { (sockets : Sockets) → StandsFor heap.old sockets → WaitsNowhere sockets key
        → StandsFor heap.new (gone sockets key) }
    ensures owned { OwnsItsObjects heap.new }
    ensures others { LeavesOthers heap.old heap.new }
    ensures queues { QueuesStay heap.old heap.new }
    ensures takes { TakesNothing heap.old heap.new }
{
    let sock = *heap.get_sock(key);
    remove(heap, key, sock);
    if let Some(peer) = sock.peer {
        let left = *heap.get_sock(peer);
        replace(heap, peer, Sock { peer: None, ..left });
    }
}

// Takes all of these sockets out of the heap, which wait in no backlog.
fn hang_up_all(heap: &mut KHeap, keys: &[Option<u32>])
    requires owned { OwnsItsObjects heap.old }
    requires there { AreLooseIn heap.old (keys_in keys.now) }
    ensures stands { (sockets : Sockets) → StandsFor heap.old sockets → AreLoose sockets (keys_in keys.now)
        → StandsFor heap.new (all_gone sockets (keys_in keys.now)) }
    ensures owned { OwnsItsObjects heap.new }
    ensures others { LeavesOthers heap.old heap.new }
    ensures queues { QueuesStay heap.old heap.new }
    ensures takes { TakesNothing heap.old heap.new }
{
    for key in keys {
        if let Some(key) = key {
            hang_up(heap, *key);
        }
    }
}
