ghost use Rattle.std.specs.Prelude.{List, ◌∷◌, ◌≡◌, ◌≢◌, ℕ, ◌-◌, ◌<◌, None};
ghost use Rattle.kabi_types.specs.declared.classes.Class.TheVariants as class;
ghost use Rattle.kabi_types.specs.Counts.{with_count};
ghost use Rattle.kheap_slabs.specs.Objects.{object, InUse};
ghost use Rattle.kheap_slabs.specs.Owners.{OwnsItsObjects};
ghost use Rattle.kheap_slabs.specs.Paid.{CanPay, IsPaid};
ghost use Rattle.kheap_slabs.specs.Queues.{empty_queue};
ghost use Rattle.posix_defs.specs.Socket.{new_socket, connected_to as plain_connected_to};
ghost use Rattle.posix_defs.specs.Sockets.{Sockets, with_new, with_pair};
ghost use Rattle.usock_core.specs.Standing.{IsHeldIn, IsShape, StandsFor, QueuesStay, LeavesOthers};

use crate::steps::{add, replace};
use kheap_slabs::{KHeap, Purse, QueueParts, Sock, SockState};

/// A socket that is neither listening nor connected, without bytes.
const NEW: Sock = Sock {
    state: SockState::Idle,
    queue: QueueParts {
        first: None,
        last: None,
        place: 0,
        len: 0,
    },
    peer: None,
    node: None,
    waiting: [None; 8],
};

/// A socket without bytes that is connected to another.
pub(crate) fn connected_to(peer: u32) -> Sock
    ensures shape { IsShape result (plain_connected_to peer) }
    ensures empty { result.queue ≡ empty_queue }
{
    Sock {
        state: SockState::Connected {
            shut_read: false,
            shut_write: false,
        },
        peer: Some(peer),
        ..NEW
    }
}

/// A new socket (POSIX socket). Its key.
pub fn sock_make(heap: &mut KHeap, purse: &mut Purse) -> u32
    requires owned { OwnsItsObjects heap.old }
    requires pays { CanPay heap.old purse.old }
    requires left { 0 < purse.old.left.sock }
    ensures vacant { object heap.old.socks result ≡ None }
    ensures used { InUse heap.new.socks result }
    ensures stands { (sockets : Sockets) → StandsFor heap.old sockets → StandsFor heap.new (with_new sockets result) }
    ensures held { (named : List ℕ) → IsHeldIn heap.old named → IsHeldIn heap.new (result ∷ named) }
    ensures owned { OwnsItsObjects heap.new }
    ensures others { LeavesOthers heap.old heap.new }
    ensures queues { QueuesStay heap.old heap.new }
    ensures paid { IsPaid heap.old purse.old heap.new purse.new }
    ensures pays { CanPay heap.new purse.new }
    ensures spent { purse.new
        ≡ record purse.old { left = with_count purse.old.left class.Sock (purse.old.left.sock - 1) } }
{
    add(heap, purse, NEW)
}

/// Two new sockets that are connected to each other (POSIX socketpair). Their keys.
pub fn sock_pair(heap: &mut KHeap, purse: &mut Purse) -> (u32, u32)
    requires owned { OwnsItsObjects heap.old }
    requires pays { CanPay heap.old purse.old }
    requires left { 1 < purse.old.left.sock }
    ensures vacant { object heap.old.socks result.0 ≡ None }
    ensures vacant_too { object heap.old.socks result.1 ≡ None }
    ensures used { InUse heap.new.socks result.0 × InUse heap.new.socks result.1 }
    ensures differ { result.0 ≢ result.1 }
    ensures stands { (sockets : Sockets) → StandsFor heap.old sockets
        → StandsFor heap.new (with_pair sockets result.0 result.1) }
    ensures held { (named : List ℕ) → IsHeldIn heap.old named
        → IsHeldIn heap.new (result.1 ∷ result.0 ∷ named) }
    ensures owned { OwnsItsObjects heap.new }
    ensures others { LeavesOthers heap.old heap.new }
    ensures queues { QueuesStay heap.old heap.new }
    ensures paid { IsPaid heap.old purse.old heap.new purse.new }
    ensures pays { CanPay heap.new purse.new }
    ensures spent { purse.new
        ≡ record purse.old { left = with_count purse.old.left class.Sock (purse.old.left.sock - 2) } }
{
    let one = add(heap, purse, NEW);
    let other = add(heap, purse, connected_to(one));
    replace(heap, one, connected_to(other));
    (one, other)
}
