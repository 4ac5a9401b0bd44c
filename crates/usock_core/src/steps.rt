//! The steps that the calls are made of: a socket comes, goes, or is another one from now on.
ghost use Rattle.std.specs.Prelude.{◌≡◌, ◌+◌, ◌-◌, ◌/◌, ◌<◌, ◌≤◌, ◌++◌, None, Some, [], length, drop, min};
ghost use Rattle.kabi_types.specs.declared.classes.Class.TheVariants as class;
ghost use Rattle.kabi_types.specs.Counts.{with_count};
ghost use Rattle.kheap_slabs.specs.Objects.{object};
ghost use Rattle.kheap_slabs.specs.Owners.{OwnsItsObjects};
ghost use Rattle.kheap_slabs.specs.Paid.{CanPay, IsPaid, TakesNothing};
ghost use Rattle.kheap_slabs.specs.Queues.{empty_queue};
ghost use Rattle.posix_defs.specs.QueuePlace.{at_front, chunks_of, after_put, after_take};
ghost use Rattle.chunk_queue.specs.Chained.{place_of, PaysChunks, TakesOut};
ghost use Rattle.usock_core.specs.Steps.{KeepsQueue, Becomes, Comes, Goes, Turns};

use chunk_queue::Queue;
use kabi_types::Class;
use kheap_slabs::{KHeap, Purse, Sock};

/// Puts a socket without bytes into the heap. Its key.
pub(crate) fn add(heap: &mut KHeap, purse: &mut Purse, sock: Sock) -> u32
    requires owned { OwnsItsObjects heap.old }
    requires empty { sock.queue ≡ empty_queue }
    requires pays { CanPay heap.old purse.old }
    requires left { 0 < purse.old.left.sock }
    ensures comes { Comes heap.old heap.new result sock }
    ensures paid { IsPaid heap.old purse.old heap.new purse.new }
    ensures pays { CanPay heap.new purse.new }
    ensures spent { purse.new
        ≡ record purse.old { left = with_count purse.old.left class.Sock (purse.old.left.sock - 1) } }
{
    purse.spend(Class::Sock);
    heap.insert_sock(sock)
}

/// Puts another socket with the same queue under a key.
pub(crate) fn replace(heap: &mut KHeap, key: u32, sock: Sock)
    requires owned { OwnsItsObjects heap.old }
    requires same { KeepsQueue heap.old key sock }
    ensures becomes { Becomes heap.old heap.new key sock (λ bytes. bytes) }
    ensures takes { TakesNothing heap.old heap.new }
{
    heap.set_sock(key, sock);
}

/// Takes a socket and its chunks out of the heap.
pub(crate) fn remove(heap: &mut KHeap, key: u32, sock: Sock)
    requires owned { OwnsItsObjects heap.old }
    requires there { object heap.old.socks key ≡ Some sock }
    ensures goes { Goes heap.old heap.new key }
    ensures takes { TakesNothing heap.old heap.new }
{
    let mut queue = Queue::of(sock.queue);
    queue.clear(heap);
    let _gone = heap.free_sock(key);
}

/// Puts another socket under a key, with the same queue, and drops its bytes.
pub(crate) fn drop_bytes(heap: &mut KHeap, key: u32, sock: Sock)
    requires owned { OwnsItsObjects heap.old }
    requires same { KeepsQueue heap.old key sock }
    ensures turns { Turns heap.old heap.new key sock (λ bytes. []) at_front }
    ensures takes { TakesNothing heap.old heap.new }
{
    let mut queue = Queue::of(sock.queue);
    queue.clear(heap);
    heap.set_sock(
        key,
        Sock {
            queue: queue.parts(),
            ..sock
        },
    );
}

/// Takes bytes that a socket is to read, as many as are there and fit. How many they are.
pub(crate) fn take_out(heap: &mut KHeap, key: u32, sock: Sock, out: &mut [u8]) -> u32
    requires owned { OwnsItsObjects heap.old }
    requires there { object heap.old.socks key ≡ Some sock }
    ensures count { result ≡ min (length out.old) sock.queue.len }
    ensures out { TakesOut heap.old sock.queue out.old out.new 0 result }
    ensures turns { Turns heap.old heap.new key sock (drop result) (after_take (place_of sock.queue) result) }
    ensures takes { TakesNothing heap.old heap.new }
{
    let mut queue = Queue::of(sock.queue);
    let count = queue.take(heap, out);
    heap.set_sock(
        key,
        Sock {
            queue: queue.parts(),
            ..sock
        },
    );
    count
}

/// Puts bytes behind those that a socket is to read; there is room for them.
pub(crate) fn put_in(heap: &mut KHeap, purse: &mut Purse, key: u32, sock: Sock, bytes: &[u8])
    requires owned { OwnsItsObjects heap.old }
    requires there { object heap.old.socks key ≡ Some sock }
    requires room { sock.queue.len + length bytes.now ≤ 4096 }
    requires pays { CanPay heap.old purse.old }
    requires enough { (length bytes.now + 511) / 512 ≤ purse.old.left.chunk }
    ensures turns { Turns heap.old heap.new key sock (λ had. had ++ bytes.now)
        (after_put (place_of sock.queue) (length bytes.now)) }
    ensures paid { IsPaid heap.old purse.old heap.new purse.new }
    ensures purse { PaysChunks purse.old purse.new }
    ensures spent { purse.new.left.chunk + chunks_of (after_put (place_of sock.queue) (length bytes.now))
        ≡ purse.old.left.chunk + chunks_of (place_of sock.queue) }
{
    let mut queue = Queue::of(sock.queue);
    queue.put(heap, purse, bytes);
    heap.set_sock(
        key,
        Sock {
            queue: queue.parts(),
            ..sock
        },
    );
}
