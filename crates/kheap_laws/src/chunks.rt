ghost use Rattle.std.specs.Prelude.{◌≡◌, ℕ, ◌+◌, ◌/◌, ◌≤◌, List, Option, Some, [], ◌∷◌, ◌++◌, length};
ghost use Rattle.std.specs.List.{Contains};
ghost use Rattle.kheap_slabs.specs.Objects.{object, put};
ghost use Rattle.kheap_slabs.specs.declared.objects.Chunk.{Chunk};
ghost use Rattle.kheap_slabs.specs.declared.objects.QueueParts.{QueueParts};
ghost use Rattle.kheap_slabs.specs.Keys.{Apart};
ghost use Rattle.kheap_slabs.specs.Outside.{KeepsOutside};
ghost use Rattle.kheap_slabs.specs.Queues.{OwnedQueue, OwnsChunks, QueueBegins, QueueGrows, QueueShrinks};

/// A queue keeps its chunks where each of their keys names the chunk that it named, and so where
/// another one's change.
pub fn queues_stay()
    ensures same { (old : List (Option Chunk)) (new : List (Option Chunk)) (queue : OwnedQueue)
        → ((key : ℕ) → Contains queue.chunks key → object new key ≡ object old key)
        → OwnsChunks old queue → OwnsChunks new queue }
    ensures apart { (changed : List ℕ) (old : List (Option Chunk)) (new : List (Option Chunk))
        (queue : OwnedQueue)
        → KeepsOutside changed old new → Apart changed queue.chunks
        → OwnsChunks old queue → OwnsChunks new queue }
    ensures written { (old : List (Option Chunk)) (queue : OwnedQueue) (at : ℕ) (chunk : Chunk)
        (written : Chunk)
        → object old at ≡ Some chunk → written.next ≡ chunk.next
        → OwnsChunks old queue → OwnsChunks (put old at written) queue }
{}

/// An empty queue that gets a chunk owns it.
pub fn queue_begins()
    ensures { (new : List (Option Chunk)) (queue : QueueParts) (key : ℕ)
        → QueueBegins new queue key
        → OwnsChunks new (record { parts = queue; chunks = key ∷ [] }) }
{}

/// A queue whose chunks are full owns one more where its last chunk is linked to one under a key
/// that was free.
pub fn queue_grows()
    ensures { (old : List (Option Chunk)) (new : List (Option Chunk)) (queue : OwnedQueue)
        (grown : QueueParts) (key : ℕ)
        → OwnsChunks old queue → QueueGrows old new queue grown key
        → OwnsChunks new (record { parts = grown; chunks = queue.chunks ++ key ∷ [] }) }
{}

/// A queue that gives its first chunk back owns the others.
pub fn queue_shrinks()
    ensures { (old : List (Option Chunk)) (new : List (Option Chunk)) (queue : QueueParts)
        (shorter : QueueParts)
        (key : ℕ) (rest : List ℕ)
        → OwnsChunks old (record { parts = queue; chunks = key ∷ rest })
        → QueueShrinks old new shorter key rest
        → OwnsChunks new (record { parts = shorter; chunks = rest }) }
{}

/// A queue of n bytes has at most n / 512 + 2 chunks, and one without bytes has none.
pub fn queues_are_short()
    ensures most { (chunks : List (Option Chunk)) (queue : OwnedQueue)
        → OwnsChunks chunks queue → length queue.chunks ≤ queue.parts.len / 512 + 2 }
    ensures none { (chunks : List (Option Chunk)) (queue : OwnedQueue)
        → OwnsChunks chunks queue → queue.parts.len ≡ 0 → queue.chunks ≡ [] }
{}
