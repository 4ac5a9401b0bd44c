//! Laws of queues in the heap. Each is the contract of a function that does nothing.

ghost use Rattle.std.specs.Prelude.{◌≡◌, ℕ, ◌+◌, ◌*◌, ◌++◌, List, Some, [], sum_by};
ghost use Rattle.kheap_slabs.specs.Objects.{object, count, put, without};
ghost use Rattle.kheap_slabs.specs.declared.objects.Pipe.{Pipe};
ghost use Rattle.kheap_slabs.specs.declared.objects.QueueParts.{QueueParts};
ghost use Rattle.kheap_slabs.specs.declared.objects.Sock.{Sock};
ghost use Rattle.kheap_slabs.specs.Heap.{Heap, live_bytes};
ghost use Rattle.kheap_slabs.specs.Owners.{Owners, with_queue, IsOwned, OwnsItsObjects, pipe_queues, sock_queues};
ghost use Rattle.kheap_slabs.specs.Queues.{empty_queue};
ghost use Rattle.posix_defs.specs.QueuePlace.{chunks_of};
ghost use Rattle.chunk_queue.specs.Chained.{owned, place_of, IsQueueIn, Turns, OnlyChunks};
ghost use Rattle.chunk_queue.specs.Held.{HasBytes, PipeTurns, SockTurns, PipeGoes, SockGoes};

/// Where all objects of the heap have their owners, the queue of each pipe and of each socket is one that may be put in
/// and taken from.
pub fn owners_have_queues()
    ensures pipes { (h : Heap) (key : ℕ) (pipe : Pipe)
        → object h.pipes key ≡ Some pipe → OwnsItsObjects h → IsQueueIn h pipe.queue }
    ensures sockets { (h : Heap) (key : ℕ) (sock : Sock)
        → object h.socks key ≡ Some sock → OwnsItsObjects h → IsQueueIn h sock.queue }
{}

/// A queue has one list of bytes, and a queue without bytes the empty one.
pub fn a_queue_has_its_bytes()
    ensures some { (h : Heap) (parts : QueueParts) → IsQueueIn h parts → (bytes : List ℕ) × HasBytes h parts bytes }
    ensures one { (h : Heap) (parts : QueueParts) (first : List ℕ) (second : List ℕ)
        → HasBytes h parts first → HasBytes h parts second → first ≡ second }
    ensures none { (h : Heap) → HasBytes h empty_queue [] }
    ensures emptied { (h : Heap) (parts : QueueParts) → IsQueueIn h parts → parts.len ≡ 0 → parts ≡ empty_queue }
{}

/// A call changes the queue of one pipe, and the pipe gets it: all other queues have the bytes that they had.
pub fn a_pipe_turns_alone()
    ensures { (old : Heap) (between : Heap) (new : Heap) (key : ℕ) (pipe : Pipe) (now : Pipe) (next : List ℕ → List ℕ)
        → OwnsItsObjects old → object old.pipes key ≡ Some pipe → OnlyChunks old between
        → Turns old between pipe.queue now.queue next → object new.pipes key ≡ Some now
        → new ≡ record between { pipes = put between.pipes key now }
        → PipeTurns old new key pipe.queue now.queue next }
{}

/// And so does a call that changes the queue of one socket.
pub fn a_socket_turns_alone()
    ensures { (old : Heap) (between : Heap) (new : Heap) (key : ℕ) (sock : Sock) (now : Sock) (next : List ℕ → List ℕ)
        → OwnsItsObjects old → object old.socks key ≡ Some sock → OnlyChunks old between
        → Turns old between sock.queue now.queue next → object new.socks key ≡ Some now
        → new ≡ record between { socks = put between.socks key now }
        → SockTurns old new key sock.queue now.queue next }
{}

/// The queue of a pipe is emptied, or of a socket, and it goes: all other queues have the bytes that they had.
pub fn a_queue_goes_alone()
    ensures pipe { (old : Heap) (between : Heap) (new : Heap) (key : ℕ) (pipe : Pipe) (now : QueueParts) (next : List ℕ → List ℕ)
        → OwnsItsObjects old → object old.pipes key ≡ Some pipe → OnlyChunks old between
        → Turns old between pipe.queue now next → now.len ≡ 0
        → new ≡ record between { pipes = without between.pipes key } → PipeGoes old new key pipe.queue }
    ensures socket { (old : Heap) (between : Heap) (new : Heap) (key : ℕ) (sock : Sock) (now : QueueParts) (next : List ℕ → List ℕ)
        → OwnsItsObjects old → object old.socks key ≡ Some sock → OnlyChunks old between
        → Turns old between sock.queue now next → now.len ≡ 0
        → new ≡ record between { socks = without between.socks key } → SockGoes old new key sock.queue }
{}

/// The bytes that the heap's objects take follow the account: 576 for each chunk that a queue's place and length ask for.
/// So what is put and taken again leaves them as they were.
pub fn live_follows_the_account()
    ensures { (old : Heap) (new : Heap) (keys : List ℕ) (now_keys : List ℕ) (queue : QueueParts) (now : QueueParts)
        (owners : Owners)
        → IsOwned old (with_queue (owned queue keys) owners) → IsOwned new (with_queue (owned now now_keys) owners)
        → OnlyChunks old new
        → live_bytes new + 576 * chunks_of (place_of queue) ≡ live_bytes old + 576 * chunks_of (place_of now) }
{}

/// The chunks of the heap are those of its queues: as many as the places and the lengths of the queues of all pipes and
/// of all sockets ask for, together.
pub fn chunks_are_those_of_all_queues()
    ensures { (h : Heap) → OwnsItsObjects h
        → count h.chunks ≡ sum_by (λ parts. chunks_of (place_of parts)) (pipe_queues h.pipes ++ sock_queues h.socks) }
{}
