//! Laws of what is open in the heap: how its Descs, Pipes and Socks stand for the machine's descriptions, pipes and sockets,
//! and who owns them.

ghost use Rattle.std.specs.Prelude.{◌≡◌, ◌+◌, ◌<◌, ◌≤◌, ℕ, ℤ, List, [], ◌∷◌, Option, None, Some, IsSome, length};
ghost use Rattle.kheap_slabs.specs.Objects.{object};
ghost use Rattle.kheap_slabs.specs.declared.objects.Desc.{Desc};
ghost use Rattle.kheap_slabs.specs.Heap.{Heap, IsWellFormed, empty_heap};
ghost use Rattle.posix_defs.specs.Files.Bare.{IsBare};
ghost use Rattle.posix_defs.specs.Files.Descriptions.{with_description};
ghost use Rattle.posix_defs.specs.Files.State.{Files};
ghost use Rattle.posix_defs.specs.Socket.{Socket};
ghost use Rattle.posix_defs.specs.SocketLinks.{AreLinked, WaitsNowhere};
ghost use Rattle.posix_defs.specs.Sockets.{Sockets, sock_at, sock_polled, with_socket, after_close};
ghost use Rattle.open_laws.specs.Placed.{Numbers};
ghost use Rattle.open_laws.specs.Closing.{IsDroppable};
ghost use Rattle.open_laws.specs.Described.{Counted, CountedList, AreDescribed, descs_left, after_share, after_drop, uncounted};
ghost use Rattle.open_laws.specs.Open.{AreOpen};
ghost use Rattle.open_laws.specs.Owned.{CountsItsNames, HasItsOwners, IsHeldOpen, all_namings, desc_count_at};
ghost use Rattle.open_laws.specs.Polled.{IsTargetIn};
ghost use Rattle.open_laws.specs.Socketed.{AreRenamed, socket_by};

/// To the machine, which has no counts, a further descriptor changes no description, and one fewer takes a description away
/// just where no other names it.
pub fn descriptions_go_with_their_last_count()
    ensures shared { (list : CountedList) (place : ℕ) → uncounted (after_share list place) ≡ uncounted list }
    ensures stays { (list : CountedList) (place : ℕ) (counted : Counted)
        → object list place ≡ Some counted → ¬ (counted.count ≡ 1) → uncounted (after_drop list place) ≡ uncounted list }
    ensures goes { (list : CountedList) (place : ℕ) (counted : Counted)
        → object list place ≡ Some counted → counted.count ≡ 1
        → uncounted (after_drop list place) ≡ with_description (uncounted list) place None }
{}

/// Where a Desc counts one descriptor less, or is gone with the last one, its description does so at its place.
pub fn a_description_is_dropped_at_its_place()
    ensures { (numbers : Numbers) (descs : List (Option Desc)) (list : CountedList) (key : ℕ) (found : Desc)
        → object descs key ≡ Some found → AreDescribed numbers descs list
        → AreDescribed numbers (descs_left descs key found) (after_drop list (numbers.descs key)) }
{}

/// A table of sockets by key goes on being the machine's by place where one socket becomes another, where one is closed with
/// those that wait for it, and in what poll tells.
pub fn sockets_have_places()
    ensures changed { (number : ℕ → ℕ) (keyed : Sockets) (sockets : Sockets) (key : ℕ) (now : Socket)
        → AreRenamed number keyed sockets → IsSome (sock_at keyed key)
        → AreRenamed number (with_socket keyed key (Some now))
        (with_socket sockets (number key) (Some (socket_by number now))) }
    ensures closed { (number : ℕ → ℕ) (keyed : Sockets) (sockets : Sockets) (key : ℕ)
        → AreLinked keyed → IsSome (sock_at keyed key) → WaitsNowhere keyed key → AreRenamed number keyed sockets
        → AreRenamed number (after_close keyed key) (after_close sockets (number key)) }
    ensures polled { (number : ℕ → ℕ) (keyed : Sockets) (sockets : Sockets) (key : ℕ) (events : ℤ)
        → AreLinked keyed → AreRenamed number keyed sockets → IsSome (sock_at keyed key)
        → sock_polled sockets (number key) events ≡ sock_polled keyed key events }
{}

/// What is open goes on where the heap has the same Descs, Pipes, Socks and Chunks, and the machine the same of them, whatever
/// else a call does.
pub fn what_is_open_goes_on()
    ensures opened { (numbers : Numbers) (old : Heap) (new : Heap) (list : CountedList) (files : Files) (now : Files)
        → new.descs ≡ old.descs → new.pipes ≡ old.pipes → new.socks ≡ old.socks → new.chunks ≡ old.chunks
        → now.descriptions ≡ files.descriptions → now.pipes ≡ files.pipes → now.sockets ≡ files.sockets
        → AreOpen numbers old list files → AreOpen numbers new list now }
    ensures held { (old : Heap) (new : Heap)
        → new.descs ≡ old.descs → new.pipes ≡ old.pipes → new.socks ≡ old.socks → new.chunks ≡ old.chunks
        → IsHeldOpen old → IsHeldOpen new }
    ensures named { (old : Heap) (new : Heap) (hand : List ℕ)
        → new.descs ≡ old.descs → ((key : ℕ) → all_namings new key ≡ all_namings old key)
        → CountsItsNames old hand → CountsItsNames new hand }
{}

/// What a descriptor names is there, one in hand can be dropped, and there is room to share any: no more descriptors name a
/// Desc than there are.
pub fn what_is_named_is_there()
    ensures droppable { (h : Heap) (hand : List ℕ) (key : ℕ) → HasItsOwners h (key ∷ hand) → IsDroppable h key }
    ensures there { (h : Heap) (hand : List ℕ) (key : ℕ) → HasItsOwners h hand → 0 < all_namings h key
        → (desc : Desc) × (object h.descs key ≡ Some desc) × IsTargetIn h desc.target }
    ensures few { (h : Heap) (hand : List ℕ) (key : ℕ) → IsWellFormed h → HasItsOwners h hand
        → desc_count_at h.descs key ≤ 1572864 + length hand }
{}

/// Once no descriptor is open any more, no Desc, Pipe, Sock or Chunk is left.
pub fn nothing_is_left_once_all_is_closed()
    ensures { (h : Heap) → HasItsOwners h [] → ((key : ℕ) → all_namings h key ≡ 0) → (key : ℕ)
        → (object h.descs key ≡ None) × (object h.pipes key ≡ None)
        × (object h.socks key ≡ None) × (object h.chunks key ≡ None) }
{}

/// A heap without objects has its owners, and stands for a machine in which nothing was opened.
pub fn a_new_heap_has_nothing_open()
    ensures owners { (heap : ℕ) → HasItsOwners (empty_heap heap) [] }
    ensures opened { (numbers : Numbers) (heap : ℕ) (files : Files) → IsBare files
        → AreOpen numbers (empty_heap heap) [] files }
{}
