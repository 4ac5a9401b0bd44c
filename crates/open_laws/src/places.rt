//! Laws of the numbers that keys of the heap have: how objects of one class go on standing for things of the machine. They are
//! said of lists in which every thing that was made has its place.

ghost use Rattle.std.specs.Prelude.{◌≡◌, ◌≢◌, ◌++◌, ◌<◌, ℕ, List, [], ◌∷◌, Option, None, Some, length, slice_set};
ghost use Rattle.kheap_slabs.specs.Objects.{object, InUse, put, without};
ghost use Rattle.kheap_slabs.specs.declared.objects.Page.{Page};
ghost use Rattle.kheap_slabs.specs.Spaces.{count_at};
ghost use Rattle.posix_defs.specs.Memory.{Places, namings};
ghost use Rattle.open_laws.specs.Placed.{ArePlaced, numbered, frames_there, Counts};

/// Objects and things that don't change go on standing for one another, also where keys that aren't in use get other
/// numbers.
pub fn objects_keep_their_places<X, Y>()
    ensures { (says : ℕ → X → Y) (number : ℕ → ℕ) (now : ℕ → ℕ) (objects : List (Option X)) (things : List (Option Y))
        → ((key : ℕ) → InUse objects key → now key ≡ number key)
        → ArePlaced (λ key x y. y ≡ says key x) number objects (object things)
        → ArePlaced (λ key x y. y ≡ says key x) now objects (object things) }
{}

/// An object becomes another, and its thing what that one says.
pub fn an_object_changes_in_its_place<X, Y>()
    ensures { (says : ℕ → X → Y) (number : ℕ → ℕ) (objects : List (Option X)) (things : List (Option Y)) (key : ℕ) (x : X)
        → InUse objects key
        → ArePlaced (λ key x y. y ≡ says key x) number objects (object things)
        → ArePlaced (λ key x y. y ≡ says key x) number (put objects key x)
        (object (slice_set things (number key) (Some (says key x)))) }
{}

/// An object is made under a key that was free, and its thing at the end of the list: the key has that place from now on.
pub fn an_object_is_made_at_the_end<X, Y>()
    ensures { (says : ℕ → X → Y) (number : ℕ → ℕ) (objects : List (Option X)) (things : List (Option Y)) (key : ℕ) (x : X)
        → object objects key ≡ None → key < length objects
        → ArePlaced (λ key x y. y ≡ says key x) number objects (object things)
        → ArePlaced (λ key x y. y ≡ says key x) (numbered number key (length things)) (put objects key x)
        (object (things ++ Some (says key x) ∷ [])) }
{}

/// An object goes, and its thing leaves its place empty.
pub fn an_object_leaves_its_place<X, Y>()
    ensures { (says : ℕ → X → Y) (number : ℕ → ℕ) (objects : List (Option X)) (things : List (Option Y)) (key : ℕ)
        → InUse objects key
        → ArePlaced (λ key x y. y ≡ says key x) number objects (object things)
        → ArePlaced (λ key x y. y ≡ says key x) number (without objects key) (object (slice_set things (number key) None)) }
{}

/// Pages stand for the frames that page entries name: where each page counts the entries that name its frame, and is named,
/// where no two have one frame, and where every frame that is named has a page.
pub fn pages_have_places_as_frames()
    ensures { (number : ℕ → ℕ) (pages : List (Option Page)) (places : List Places)
        → ((key : ℕ) → InUse pages key → namings places (number key) ≡ count_at pages key)
        → ((key : ℕ) → InUse pages key → 0 < count_at pages key)
        → ((one : ℕ) (other : ℕ) → InUse pages one → InUse pages other → number one ≡ number other → one ≡ other)
        → ((frame : ℕ) → 0 < namings places frame → (key : ℕ) × InUse pages key × (number key ≡ frame))
        → ArePlaced Counts number pages (frames_there places) }
{}
