ghost use Rattle.std.specs.Prelude.{ℕ, List, ◌≡◌, ◌-◌, ◌<◌, Err, is_none, position, MatchOption, MatchResult, MatchBool, IsOk, OnOk};
ghost use Rattle.std.specs.Option.{ForSome};
ghost use Rattle.kabi_types.specs.declared.classes.Class.TheVariants as class;
ghost use Rattle.kabi_types.specs.declared.errnos.Errno.TheVariants as errno;
ghost use Rattle.kabi_types.specs.Counts.{with_count};
ghost use Rattle.kheap_slabs.specs.Owners.{OwnsItsObjects};
ghost use Rattle.kheap_slabs.specs.Paid.{CanPay, IsPaid};
ghost use Rattle.posix_defs.specs.Socket.{connect_fault};
ghost use Rattle.posix_defs.specs.Sockets.{Sockets, stage_at, is_refused, after_connect};
ghost use Rattle.usock_core.specs.Answers.{Answers, IsConnectedBy};
ghost use Rattle.usock_core.specs.Standing.{IsHeldIn, StandsFor, IsSocketIn, IsIdleIn, IsListeningIn, QueuesStay, LeavesOthers};

use crate::making::connected_to;
use crate::steps::{add, replace};
use kabi_types::Errno;
use kheap_slabs::{KHeap, Purse, Sock, SockState};

/// Whether a socket can be connected: EISCONN where it is, EOPNOTSUPP where it listens (POSIX connect).
pub fn can_connect(heap: &KHeap, key: u32) -> Result<(), Errno>
    requires { IsSocketIn heap.now key }
    ensures answer { (sockets : Sockets) → StandsFor heap.now sockets
        → Answers result (connect_fault (stage_at sockets key)) }
    ensures idle { OnOk result (IsIdleIn heap.now key) }
{
    match heap.get_sock(key).state {
        SockState::Idle => Ok(()),
        SockState::Listening => Err(Errno::EOPNOTSUPP),
        SockState::Connected { .. } => Err(Errno::EISCONN),
    }
}

/// Connects a socket to a new one, which waits to be accepted by a listener, behind the others that wait (POSIX connect).
///
/// ECONNREFUSED where there is no listener, or 8 wait.
pub fn connect(
    heap: &mut KHeap,
    purse: &mut Purse,
    key: u32,
    listener: Option<u32>,
) -> Result<(), Errno>
    requires owned { OwnsItsObjects heap.old }
    requires idle { IsIdleIn heap.old key }
    requires listens { ForSome listener (IsListeningIn heap.old) }
    requires pays { CanPay heap.old purse.old }
    requires left { 0 < purse.old.left.sock }
    ensures answer { (sockets : Sockets) → StandsFor heap.old sockets
        → MatchBool (is_refused sockets listener) (result ≡ Err errno.ECONNREFUSED) (IsOk result) }
    ensures connected { MatchResult result (λ _. MatchOption listener ⊥ (IsConnectedBy heap.old heap.new key))
        (λ _. heap.new ≡ heap.old) }
    ensures held { (named : List ℕ) → IsHeldIn heap.old named → IsHeldIn heap.new named }
    ensures owned { OwnsItsObjects heap.new }
    ensures others { LeavesOthers heap.old heap.new }
    ensures queues { QueuesStay heap.old heap.new }
    ensures paid { IsPaid heap.old purse.old heap.new purse.new }
    ensures pays { CanPay heap.new purse.new }
    ensures spent { MatchResult result
        (λ _. purse.new ≡ record purse.old { left = with_count purse.old.left class.Sock (purse.old.left.sock - 1) })
        (λ _. purse.new ≡ purse.old) }
{
    let Some(listener) = listener else {
        return Err(Errno::ECONNREFUSED);
    };
    let waiting = heap.get_sock(listener).waiting;
    let Some(place) = first_free(&waiting) else {
        return Err(Errno::ECONNREFUSED);
    };
    let made = add(heap, purse, connected_to(key));
    let client = *heap.get_sock(key);
    replace(
        heap,
        key,
        Sock {
            queue: client.queue,
            node: client.node,
            ..connected_to(made)
        },
    );
    let mut listening = *heap.get_sock(listener);
    listening.waiting[place] = Some(made);
    replace(heap, listener, listening);
    Ok(())
}

// The first free place of a backlog; None where all are taken.
fn first_free(waiting: &[Option<u32>; 8]) -> Option<usize>
    ensures { result ≡ position is_none waiting.now }
{
    waiting.iter().position(|place| place.is_none())
}
