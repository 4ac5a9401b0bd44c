//! Laws of sockets in the heap. Each is the contract of a function that does nothing.

ghost use Rattle.std.specs.Prelude.{◌≡◌, ℕ, List, Some, []};
ghost use Rattle.std.specs.List.{Contains};
ghost use Rattle.kheap_slabs.specs.Objects.{object};
ghost use Rattle.kheap_slabs.specs.declared.objects.Sock.{Sock};
ghost use Rattle.kheap_slabs.specs.declared.objects.SockState.TheVariants as state;
ghost use Rattle.kheap_slabs.specs.Heap.{Heap, empty_heap};
ghost use Rattle.posix_defs.specs.Sockets.{Sockets};
ghost use Rattle.chunk_queue.specs.Held.{SockKeepsBytes};
ghost use Rattle.usock_core.specs.Standing.{StandsFor, IsSocketIn, IsListeningIn, IsClosableIn, IsHeldIn};

/// A heap without objects has no sockets, and no description names one.
pub fn a_new_heap_has_no_sockets()
    ensures { (heap : ℕ) → IsHeldIn (empty_heap heap) [] }
{}

/// What descriptions name are sockets, and none of them waits in a backlog; one that is kept as listening listens.
pub fn named_sockets_are_there()
    ensures socket { (h : Heap) (named : List ℕ) (key : ℕ)
        → Contains named key → IsHeldIn h named → IsSocketIn h key }
    ensures closable { (h : Heap) (named : List ℕ) (key : ℕ)
        → Contains named key → IsHeldIn h named → IsClosableIn h key }
    ensures listening { (h : Heap) (key : ℕ) (sock : Sock)
        → object h.socks key ≡ Some sock → sock.state ≡ state.Listening → IsSocketIn h key → IsListeningIn h key }
    ensures order { (h : Heap) (named : List ℕ) (other : List ℕ)
        → ((key : ℕ) → Contains named key → Contains other key)
        → ((key : ℕ) → Contains other key → Contains named key) → IsHeldIn h named → IsHeldIn h other }
{}

/// The sockets of a heap stand for one table of sockets alone.
pub fn sockets_stand_for_one_table()
    ensures { (h : Heap) (first : Sockets) (second : Sockets)
        → StandsFor h first → StandsFor h second → first ≡ second }
{}

/// The sockets of a heap go on in another that has the same sockets and chunks, or has the same sockets whose queues keep
/// their bytes, as calls on pipes leave them.
pub fn sockets_go_on()
    ensures same { (old : Heap) (new : Heap) (sockets : Sockets)
        → new.socks ≡ old.socks → new.chunks ≡ old.chunks → StandsFor old sockets → StandsFor new sockets }
    ensures kept { (old : Heap) (new : Heap) (sockets : Sockets)
        → new.socks ≡ old.socks → ((key : ℕ) → SockKeepsBytes old new key)
        → StandsFor old sockets → StandsFor new sockets }
    ensures held { (old : Heap) (new : Heap) (named : List ℕ)
        → new.socks ≡ old.socks → ((key : ℕ) → SockKeepsBytes old new key)
        → IsHeldIn old named → IsHeldIn new named }
{}
