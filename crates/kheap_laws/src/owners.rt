ghost use Rattle.std.specs.Prelude.{◌≡◌, ℕ, ◌<◌, List, Option, None, Some, [], ◌∷◌, length, slice_index_or, slice_set};
ghost use Rattle.std.specs.List.{Contains};
ghost use Rattle.kheap_slabs.specs.Objects.{object, put, without};
ghost use Rattle.kheap_slabs.specs.declared.objects.Chunk.{Chunk};
ghost use Rattle.kheap_slabs.specs.declared.objects.Node.{Node};
ghost use Rattle.kheap_slabs.specs.Heap.{Heap, empty_heap};
ghost use Rattle.kheap_slabs.specs.Keys.{Apart, Splits};
ghost use Rattle.kheap_slabs.specs.Owners.{Owners, with_space, with_queue, IsOwned, SameOwners, SpaceChanges, QueueChanges, OwnsItsObjects};
ghost use Rattle.kheap_slabs.specs.Queues.{OwnedQueue, fresh_queue};
ghost use Rattle.kheap_slabs.specs.Spaces.{keys_in, mapped_count, OwnsNodes, IsCounted};

/// The order of the owners doesn't matter: any of them may stand in front.
pub fn owners_move()
    ensures spaces { (owners : Owners) (space : List (Option ℕ)) (rest : List (List (Option ℕ)))
        → Splits owners.spaces space rest
        → SameOwners owners (record owners { spaces = space ∷ rest }) }
    ensures queues { (owners : Owners) (queue : OwnedQueue) (rest : List OwnedQueue)
        → Splits owners.queues queue rest
        → SameOwners owners (record owners { queues = queue ∷ rest }) }
{}

/// A space without nodes and a queue without bytes may join the owners, and leave them.
pub fn empty_owners_come_and_go()
    ensures space_joins { (h : Heap) (owners : Owners) (space : List (Option ℕ))
        → keys_in space ≡ [] → IsOwned h owners → IsOwned h (with_space space owners) }
    ensures space_leaves { (h : Heap) (owners : Owners) (space : List (Option ℕ))
        → keys_in space ≡ [] → IsOwned h (with_space space owners) → IsOwned h owners }
    ensures queue_joins { (h : Heap) (owners : Owners)
        → IsOwned h owners → IsOwned h (with_queue fresh_queue owners) }
    ensures queue_leaves { (h : Heap) (owners : Owners) (queue : OwnedQueue)
        → queue.parts.len ≡ 0 → IsOwned h (with_queue queue owners) → IsOwned h owners }
{}

/// An owner in front owns what it says alone, and shares no node and no chunk with another.
pub fn owners_share_nothing()
    ensures space { (h : Heap) (owners : Owners) (space : List (Option ℕ))
        → IsOwned h (with_space space owners) → OwnsNodes h.nodes space }
    ensures spaces { (h : Heap) (owners : Owners) (space : List (Option ℕ))
        (other : List (Option ℕ))
        → IsOwned h (with_space space owners) → Contains owners.spaces other
        → Apart (keys_in space) (keys_in other) }
    ensures queues { (h : Heap) (owners : Owners) (queue : OwnedQueue) (other : OwnedQueue)
        → IsOwned h (with_queue queue owners) → Contains owners.queues other
        → Apart queue.chunks other.chunks }
{}

/// Where one address space or one queue changes what it owns, all others own what they owned.
pub fn owners_change_alone()
    ensures space { (old : Heap) (new : Heap) (owners : Owners) (space : List (Option ℕ))
        (now : List (Option ℕ))
        → SpaceChanges old new space now
        → IsOwned old (with_space space owners) → IsOwned new (with_space now owners) }
    ensures queue { (old : Heap) (new : Heap) (owners : Owners) (queue : OwnedQueue)
        (now : OwnedQueue)
        → QueueChanges old new queue now
        → IsOwned old (with_queue queue owners) → IsOwned new (with_queue now owners) }
{}

/// How a space changes what it owns: it changes a node, gets one or gives one back.
pub fn spaces_change()
    ensures sets { (old : Heap) (new : Heap) (owners : Owners) (space : List (Option ℕ)) (key : ℕ)
        (node : Node)
        → Contains (keys_in space) key → 0 < mapped_count node
        → new.nodes ≡ put old.nodes key node → new.chunks ≡ old.chunks
        → IsCounted new.nodes new.pages → IsOwned old (with_space space owners)
        → SpaceChanges old new space space }
    ensures comes { (old : Heap) (new : Heap) (owners : Owners) (space : List (Option ℕ))
        (now : List (Option ℕ)) (key : ℕ) (node : Node)
        → Splits (keys_in now) key (keys_in space)
        → object old.nodes key ≡ None → object new.nodes key ≡ Some node → 0 < mapped_count node
        → new.nodes ≡ put old.nodes key node → new.chunks ≡ old.chunks
        → IsCounted new.nodes new.pages → IsOwned old (with_space space owners)
        → SpaceChanges old new space now }
    ensures goes { (old : Heap) (new : Heap) (owners : Owners) (space : List (Option ℕ))
        (now : List (Option ℕ)) (key : ℕ)
        → Splits (keys_in space) key (keys_in now)
        → new.nodes ≡ without old.nodes key → new.chunks ≡ old.chunks
        → IsCounted new.nodes new.pages → IsOwned old (with_space space owners)
        → SpaceChanges old new space now }
{}

/// The keys of a space where a place is filled, and where one is cleared.
pub fn places_of_a_space_change()
    ensures filled { (space : List (Option ℕ)) (place : ℕ) (key : ℕ)
        → place < length space → slice_index_or space place None ≡ None
        → Splits (keys_in (slice_set space place (Some key))) key (keys_in space) }
    ensures cleared { (space : List (Option ℕ)) (place : ℕ) (key : ℕ)
        → slice_index_or space place None ≡ Some key
        → Splits (keys_in space) key (keys_in (slice_set space place None)) }
{}

/// All own what they owned where a chunk gets other bytes and keeps its next, and where nodes,
/// pages and chunks are the same.
pub fn owners_stay()
    ensures written { (old : Heap) (new : Heap) (owners : Owners) (at : ℕ) (chunk : Chunk)
        (written : Chunk)
        → object old.chunks at ≡ Some chunk → written.next ≡ chunk.next
        → new.chunks ≡ put old.chunks at written → new.nodes ≡ old.nodes → new.pages ≡ old.pages
        → IsOwned old owners → IsOwned new owners }
    ensures same { (old : Heap) (new : Heap) (owners : Owners)
        → new.nodes ≡ old.nodes → new.pages ≡ old.pages → new.chunks ≡ old.chunks
        → IsOwned old owners → IsOwned new owners }
{}

/// In a heap without objects everything has its owner.
pub fn an_empty_heap_is_owned()
    ensures { (heap : ℕ) → OwnsItsObjects (empty_heap heap) }
{}
