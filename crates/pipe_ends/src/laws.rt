//! Laws of pipes in the heap. Each is the contract of a function that does nothing.

ghost use Rattle.std.specs.Prelude.{◌≡◌, ◌≢◌, ℕ};
ghost use Rattle.kheap_slabs.specs.Objects.{object};
ghost use Rattle.kheap_slabs.specs.Heap.{Heap};
ghost use Rattle.posix_defs.specs.Pipe.{Pipe};
ghost use Rattle.chunk_queue.specs.Held.{PipeKeepsBytes};
ghost use Rattle.pipe_ends.specs.Standing.{StandsFor, LeavesOthers};

/// The pipe of a key stands for one plain pipe.
pub fn a_pipe_stands_for_one()
    ensures { (h : Heap) (key : ℕ) (first : Pipe) (second : Pipe) (at : ℕ) (other : ℕ)
        → StandsFor h key first at → StandsFor h key second other → (first ≡ second) × (at ≡ other) }
{}

/// A call on one pipe leaves every other one as it was.
pub fn other_pipes_stand()
    ensures { (old : Heap) (new : Heap) (key : ℕ) (other : ℕ) (pipe : Pipe) (at : ℕ)
        → LeavesOthers old new key → other ≢ key → StandsFor old other pipe at → StandsFor new other pipe at }
{}

/// A pipe goes on in another heap that has it and the same chunks, or has it and keeps the bytes of its queue, as calls on
/// sockets leave it.
pub fn a_pipe_goes_on()
    ensures same { (old : Heap) (new : Heap) (key : ℕ) (pipe : Pipe) (at : ℕ)
        → object new.pipes key ≡ object old.pipes key → new.chunks ≡ old.chunks
        → StandsFor old key pipe at → StandsFor new key pipe at }
    ensures kept { (old : Heap) (new : Heap) (key : ℕ) (pipe : Pipe) (at : ℕ)
        → object new.pipes key ≡ object old.pipes key → PipeKeepsBytes old new key
        → StandsFor old key pipe at → StandsFor new key pipe at }
{}
