//! Laws of address spaces, each the contract of a function that does nothing.

ghost use Rattle.std.specs.Prelude.{◌≡◌, ◌≢◌, ◌↔◌, ℕ, ◌+◌, ◌<◌, List, ◌∷◌, Option, length, sum_by};
ghost use Rattle.std.specs.List.{Contains};
ghost use Rattle.kheap_slabs.specs.Objects.{count};
ghost use Rattle.kheap_slabs.specs.Purse.{Purse};
ghost use Rattle.kheap_slabs.specs.declared.objects.PageEntry.TheVariants as entry;
ghost use Rattle.kheap_slabs.specs.Heap.{Heap, IsWellFormed};
ghost use Rattle.kheap_slabs.specs.Owners.{Owners, with_space, node_keys, IsOwned};
ghost use Rattle.kheap_slabs.specs.Spaces.{count_at, keys_in, OwnsNodes};
ghost use Rattle.page_space.specs.Accounts.{AreFrames, IsAccounted, AccountMoves, AccountForks, AccountLeaves};
ghost use Rattle.page_space.specs.Contents.{StandsFor, SpaceMoves, SpaceLeaves, IsForked};
ghost use Rattle.page_space.specs.Entries.{entry_at};
ghost use Rattle.page_space.specs.Putting.{Puts};
ghost use Rattle.page_space.specs.Sequences.{Moment, AreCalls, entries_naming};
ghost use Rattle.page_space.specs.Standing.{HoldsMemory};
ghost use Rattle.posix_defs.specs.Memory.{Memory, Frames, place_at, places_of, stored, after_put, frames_named, nodes_in};
ghost use Rattle.posix_defs.specs.Memory as account;

/// What a call leaves in a space stands for the memory and the account that the call's definition leaves: after a change, as
/// the clauses of `map` and `unmap` say it, after bytes were put, and in the child and the parent of a fork.
pub fn calls_leave_memory()
    ensures changed { (old : Heap) (new : Heap) (space : List (Option ℕ)) (now : List (Option ℕ)) (number : ℕ → ℕ)
        (before : Frames) (after : Frames) (pid : ℕ) (memory : Memory)
        → (moved : AccountMoves old new space now number before after pid) → StandsFor new now memory → length memory ≡ 256
        → HoldsMemory new moved.renumbered after pid now memory }
    ensures put { (old : Heap) (paying : Purse) (new : Heap) (paid : Purse) (space : List (Option ℕ)) (addr : ℕ) (bytes : List ℕ)
        (number : ℕ → ℕ) (frames : Frames) (pid : ℕ) (memory : Memory)
        → (puts : Puts old paying new paid space addr bytes) → (holds : HoldsMemory old number frames pid space memory)
        → (moved : AccountMoves old new space space number frames (after_put frames pid addr (length bytes)) pid)
        × HoldsMemory new moved.renumbered (after_put frames pid addr (length bytes)) pid space (stored memory addr bytes) }
    ensures forked { (old : Heap) (paying : Purse) (new : Heap) (paid : Purse) (of : List (Option ℕ)) (now : List (Option ℕ))
        (number : ℕ → ℕ) (before : Frames) (after : Frames) (parent : ℕ) (memory : Memory) (others : Owners)
        → IsForked old paying new paid of now 256 → (forks : AccountForks old new of now number before after parent)
        → IsOwned old (with_space of others) → HoldsMemory old number before parent of memory
        → HoldsMemory new forks.renumbered after (length before.places + 1) now memory
        × HoldsMemory new forks.renumbered after parent of memory }
{}

/// A space stands for its memory and its account while another one changes, while another one is forked, and while another
/// one goes.
pub fn spaces_stand_still()
    ensures changes { (old : Heap) (new : Heap) (space : List (Option ℕ)) (now : List (Option ℕ)) (number : ℕ → ℕ)
        (before : Frames) (after : Frames) (pid : ℕ)
        (others : Owners) (other : List (Option ℕ)) (its : ℕ) (memory : Memory)
        → SpaceMoves old new space now → (moved : AccountMoves old new space now number before after pid)
        → IsOwned old (with_space space others) → Contains others.spaces other → its ≢ pid
        → HoldsMemory old number before its other memory → HoldsMemory new moved.renumbered after its other memory }
    ensures forks { (old : Heap) (paying : Purse) (new : Heap) (paid : Purse) (of : List (Option ℕ)) (now : List (Option ℕ))
        (number : ℕ → ℕ) (before : Frames) (after : Frames) (parent : ℕ)
        (others : Owners) (other : List (Option ℕ)) (its : ℕ) (memory : Memory)
        → IsForked old paying new paid of now 256 → (forks : AccountForks old new of now number before after parent)
        → IsOwned old (with_space of others) → Contains others.spaces other
        → HoldsMemory old number before its other memory → HoldsMemory new forks.renumbered after its other memory }
    ensures goes { (old : Heap) (new : Heap) (space : List (Option ℕ)) (number : ℕ → ℕ)
        (before : Frames) (after : Frames) (pid : ℕ)
        (others : Owners) (other : List (Option ℕ)) (its : ℕ) (memory : Memory)
        → SpaceLeaves old new space → (left : AccountLeaves old new space number before after pid)
        → IsOwned old (with_space space others) → Contains others.spaces other → its ≢ pid
        → HoldsMemory old number before its other memory → HoldsMemory new left.renumbered after its other memory }
{}

/// Two entries, of one space or of two, name one Page exactly where the account names one frame.
pub fn pages_are_shared_as_frames_are()
    ensures { (h : Heap) (number : ℕ → ℕ) (frames : Frames) (owners : Owners) (pid : ℕ) (its : ℕ)
        (one : List (Option ℕ)) (other : List (Option ℕ)) (memory : Memory) (memory2 : Memory) (page : ℕ) (at : ℕ)
        → IsOwned h owners → HoldsMemory h number frames pid one memory → HoldsMemory h number frames its other memory2
        → page < 256 → at < 256
        → ((key : ℕ) × (entry_at h.nodes one page ≡ entry.Frame key) × (entry_at h.nodes other at ≡ entry.Frame key))
        ↔ ((frame : ℕ) × (place_at (places_of frames pid) page ≡ account.Frame frame)
        × (place_at (places_of frames its) at ≡ account.Frame frame)) }
{}

/// The heap has as many Pages as the account has frames that are named.
pub fn pages_are_the_frames_named()
    ensures { (h : Heap) (number : ℕ → ℕ) (frames : Frames) (owners : Owners)
        → IsOwned h owners → AreFrames number h.pages frames → count h.pages ≡ frames_named frames }
{}

/// A space has as many Nodes as the account counts groups of its process's pages, and the heap as many as all spaces have.
pub fn nodes_are_the_groups_mapped()
    ensures one { (h : Heap) (space : List (Option ℕ)) (number : ℕ → ℕ) (frames : Frames) (pid : ℕ)
        → IsWellFormed h → OwnsNodes h.nodes space → length space ≡ 4 → IsAccounted h number frames pid space
        → nodes_in (places_of frames pid) ≡ length (keys_in space) }
    ensures all { (h : Heap) (owners : Owners) → IsOwned h owners → count h.nodes ≡ length (node_keys owners.spaces) }
{}

/// Where the owners own the heap before a list of calls they do at each moment, and the count of each page is the number
/// of entries of all spaces that name it.
pub fn owners_own_through_all_calls()
    ensures owned { (first : Moment) (rest : List Moment) (moment : Moment)
        → AreCalls first rest → IsOwned first.heap first.owners → Contains (first ∷ rest) moment
        → IsOwned moment.heap moment.owners }
    ensures counted { (first : Moment) (rest : List Moment) (moment : Moment) (key : ℕ)
        → AreCalls first rest → IsOwned first.heap first.owners → Contains (first ∷ rest) moment
        → IsWellFormed moment.heap → ((space : List (Option ℕ)) → Contains moment.owners.spaces space → length space ≡ 4)
        → count_at moment.heap.pages key ≡ sum_by (entries_naming moment.heap.nodes key) moment.owners.spaces }
{}
