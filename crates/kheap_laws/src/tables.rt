ghost use Rattle.std.specs.Prelude.{◌≡◌, ℕ, [], None, Some};
ghost use Rattle.kheap_slabs.specs.Objects.{object, put, without};
ghost use Rattle.kheap_slabs.specs.declared.objects.Pipe.{Pipe};
ghost use Rattle.kheap_slabs.specs.declared.objects.Proc.{Proc};
ghost use Rattle.kheap_slabs.specs.declared.objects.Sock.{Sock};
ghost use Rattle.kheap_slabs.specs.Heap.{Heap};
ghost use Rattle.kheap_slabs.specs.Owners.{Owners, AreOwnersOf, HasSpaceOut, HasQueueOut, OwnsItsObjects, spaces_of, pipe_queues, sock_queues};
ghost use Rattle.kheap_slabs.specs.Queues.{OwnedQueue, empty_queue};
ghost use Rattle.kheap_slabs.specs.Spaces.{keys_in};

/// A process's space is one in hand beside what the others of the heap own, and the other way
/// round.
pub fn a_process_has_its_space()
    ensures out { (h : Heap) (owners : Owners) (key : ℕ) (process : Proc)
        → object h.procs key ≡ Some process → AreOwnersOf h owners
        → (rest : Owners)
        × HasSpaceOut h (record h { procs = without h.procs key }) owners process.nodes rest }
    ensures back { (h : Heap) (rest : Owners) (key : ℕ) (process : Proc)
        → object h.procs key ≡ Some process
        → AreOwnersOf (record h { procs = without h.procs key }) rest
        → (owners : Owners)
        × HasSpaceOut h (record h { procs = without h.procs key }) owners process.nodes rest }
{}

/// A pipe's queue is one in hand beside what the others of the heap own, and the other way round.
pub fn a_pipe_has_its_queue()
    ensures out { (h : Heap) (owners : Owners) (key : ℕ) (pipe : Pipe)
        → object h.pipes key ≡ Some pipe → AreOwnersOf h owners
        → (queue : OwnedQueue) × (rest : Owners) × (queue.parts ≡ pipe.queue)
        × HasQueueOut h (record h { pipes = without h.pipes key }) owners queue rest }
    ensures back { (h : Heap) (rest : Owners) (key : ℕ) (pipe : Pipe) (queue : OwnedQueue)
        → object h.pipes key ≡ Some pipe → queue.parts ≡ pipe.queue
        → AreOwnersOf (record h { pipes = without h.pipes key }) rest
        → (owners : Owners)
        × HasQueueOut h (record h { pipes = without h.pipes key }) owners queue rest }
{}

/// A socket's queue is one in hand beside what the others of the heap own, and the other way round.
pub fn a_socket_has_its_queue()
    ensures out { (h : Heap) (owners : Owners) (key : ℕ) (sock : Sock)
        → object h.socks key ≡ Some sock → AreOwnersOf h owners
        → (queue : OwnedQueue) × (rest : Owners) × (queue.parts ≡ sock.queue)
        × HasQueueOut h (record h { socks = without h.socks key }) owners queue rest }
    ensures back { (h : Heap) (rest : Owners) (key : ℕ) (sock : Sock) (queue : OwnedQueue)
        → object h.socks key ≡ Some sock → queue.parts ≡ sock.queue
        → AreOwnersOf (record h { socks = without h.socks key }) rest
        → (owners : Owners)
        × HasQueueOut h (record h { socks = without h.socks key }) owners queue rest }
{}

/// A process without nodes, a pipe and a socket without bytes come, and everything has its owner
/// still.
pub fn empty_objects_come()
    ensures process { (old : Heap) (new : Heap) (key : ℕ) (process : Proc)
        → object old.procs key ≡ None → object new.procs key ≡ Some process
        → keys_in process.nodes ≡ []
        → new ≡ record old { procs = put old.procs key process; high = new.high }
        → OwnsItsObjects old → OwnsItsObjects new }
    ensures pipe { (old : Heap) (new : Heap) (key : ℕ) (pipe : Pipe)
        → object old.pipes key ≡ None → object new.pipes key ≡ Some pipe → pipe.queue ≡ empty_queue
        → new ≡ record old { pipes = put old.pipes key pipe; high = new.high }
        → OwnsItsObjects old → OwnsItsObjects new }
    ensures socket { (old : Heap) (new : Heap) (key : ℕ) (sock : Sock)
        → object old.socks key ≡ None → object new.socks key ≡ Some sock → sock.queue ≡ empty_queue
        → new ≡ record old { socks = put old.socks key sock; high = new.high }
        → OwnsItsObjects old → OwnsItsObjects new }
{}

/// They go, and everything has its owner still.
pub fn empty_objects_go()
    ensures process { (old : Heap) (new : Heap) (key : ℕ) (process : Proc)
        → object old.procs key ≡ Some process → keys_in process.nodes ≡ []
        → new ≡ record old { procs = without old.procs key }
        → OwnsItsObjects old → OwnsItsObjects new }
    ensures pipe { (old : Heap) (new : Heap) (key : ℕ) (pipe : Pipe)
        → object old.pipes key ≡ Some pipe → pipe.queue.len ≡ 0
        → new ≡ record old { pipes = without old.pipes key }
        → OwnsItsObjects old → OwnsItsObjects new }
    ensures socket { (old : Heap) (new : Heap) (key : ℕ) (sock : Sock)
        → object old.socks key ≡ Some sock → sock.queue.len ≡ 0
        → new ≡ record old { socks = without old.socks key }
        → OwnsItsObjects old → OwnsItsObjects new }
{}

/// Everything has its owner still where the processes have the same nodes, the pipes and sockets the same queues, and
/// nodes, pages and chunks are the same, whatever descriptions there are and whatever the caches keep; and where one
/// process, pipe or socket becomes another that owns the same.
pub fn owned_objects_stay()
    ensures others { (old : Heap) (new : Heap)
        → spaces_of new.procs ≡ spaces_of old.procs → pipe_queues new.pipes ≡ pipe_queues old.pipes
        → sock_queues new.socks ≡ sock_queues old.socks
        → new.nodes ≡ old.nodes → new.pages ≡ old.pages → new.chunks ≡ old.chunks
        → OwnsItsObjects old → OwnsItsObjects new }
    ensures process { (old : Heap) (new : Heap) (key : ℕ) (was : Proc) (now : Proc)
        → object old.procs key ≡ Some was → now.nodes ≡ was.nodes
        → new ≡ record old { procs = put old.procs key now }
        → OwnsItsObjects old → OwnsItsObjects new }
    ensures pipe { (old : Heap) (new : Heap) (key : ℕ) (was : Pipe) (now : Pipe)
        → object old.pipes key ≡ Some was → now.queue ≡ was.queue
        → new ≡ record old { pipes = put old.pipes key now }
        → OwnsItsObjects old → OwnsItsObjects new }
    ensures socket { (old : Heap) (new : Heap) (key : ℕ) (was : Sock) (now : Sock)
        → object old.socks key ≡ Some was → now.queue ≡ was.queue
        → new ≡ record old { socks = put old.socks key now }
        → OwnsItsObjects old → OwnsItsObjects new }
{}
