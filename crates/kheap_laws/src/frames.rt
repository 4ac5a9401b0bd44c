ghost use Rattle.std.specs.Prelude.{◌≡◌, ℕ, ◌+◌, ◌/◌, ◌<◌, ◌≤◌, List, Option, None, Some, if◌then◌else◌, []};
ghost use Rattle.kheap_slabs.specs.Objects.{object, InUse, put, without};
ghost use Rattle.kheap_slabs.specs.declared.objects.Node.{Node};
ghost use Rattle.kheap_slabs.specs.declared.objects.Page.{Page};
ghost use Rattle.kheap_slabs.specs.declared.objects.PageEntry.{PageEntry};
ghost use Rattle.kheap_slabs.specs.declared.objects.PageEntry.TheVariants as entry;
ghost use Rattle.kheap_slabs.specs.Heap.{Heap, IsWellFormed};
ghost use Rattle.kheap_slabs.specs.Keys.{Apart};
ghost use Rattle.kheap_slabs.specs.Outside.{KeepsOutside};
ghost use Rattle.kheap_slabs.specs.Spaces.{is_mapped, mapped_count, keys_in, OwnsNodes, NamesNone, names_in, count_at, IsCounted, EntryChanges, CountRises, CountFalls, KeepsBytes};

/// A change of the nodes of one address space leaves those of every other.
pub fn spaces_stay_apart()
    ensures { (changed : List ℕ) (old : List (Option Node)) (new : List (Option Node))
        (space : List (Option ℕ))
        → KeepsOutside changed old new → Apart changed (keys_in space)
        → OwnsNodes old space → OwnsNodes new space }
{}

/// Pages stay counted where one entry changes and the counts follow it: it names no page as before,
/// it names a page from now on, it drops its page, or it turns to another page, as before a write
/// to a shared one.
pub fn entries_are_counted()
    ensures stays { (old : List (Option Node)) (new : List (Option Node))
        (pages : List (Option Page))
        (was : PageEntry) (now : PageEntry)
        → EntryChanges old new was now → NamesNone was → NamesNone now
        → IsCounted old pages → IsCounted new pages }
    ensures names { (old : List (Option Node)) (new : List (Option Node))
        (pages : List (Option Page))
        (changed : List (Option Page)) (was : PageEntry) (page : ℕ)
        → EntryChanges old new was (entry.Frame page) → NamesNone was
        → CountRises pages changed page
        → IsCounted old pages → IsCounted new changed }
    ensures drops { (old : List (Option Node)) (new : List (Option Node))
        (pages : List (Option Page))
        (changed : List (Option Page)) (page : ℕ) (now : PageEntry)
        → EntryChanges old new (entry.Frame page) now → NamesNone now
        → CountFalls pages changed page
        → IsCounted old pages → IsCounted new changed }
    ensures turns { (old : List (Option Node)) (new : List (Option Node))
        (pages : List (Option Page))
        (between : List (Option Page)) (changed : List (Option Page)) (page : ℕ) (next : ℕ)
        → EntryChanges old new (entry.Frame page) (entry.Frame next)
        → CountRises pages between next → CountFalls between changed page
        → IsCounted old pages → IsCounted new changed }
{}

/// Where an entry changes, one page more or less of its node is mapped.
pub fn mapped_pages_follow_entries()
    ensures { (old : List (Option Node)) (new : List (Option Node)) (was : PageEntry)
        (now : PageEntry)
        (change : EntryChanges old new was now)
        → mapped_count change.changed + (if is_mapped was then 1 else 0)
        ≡ mapped_count change.node + (if is_mapped now then 1 else 0) }
{}

/// Pages stay counted where a whole node comes or goes and the counts follow its entries.
pub fn nodes_are_counted()
    ensures comes { (nodes : List (Option Node)) (pages : List (Option Page))
        (changed : List (Option Page))
        (key : ℕ) (node : Node)
        → object nodes key ≡ None → object (put nodes key node) key ≡ Some node
        → ((page : ℕ) → count_at changed page ≡ count_at pages page + names_in page (Some node))
        → ((page : ℕ) → InUse changed page → 0 < count_at changed page)
        → IsCounted nodes pages → IsCounted (put nodes key node) changed }
    ensures goes { (nodes : List (Option Node)) (pages : List (Option Page))
        (changed : List (Option Page))
        (key : ℕ) (node : Node)
        → object nodes key ≡ Some node
        → ((page : ℕ) → count_at changed page + names_in page (Some node) ≡ count_at pages page)
        → ((page : ℕ) → InUse changed page → 0 < count_at changed page)
        → IsCounted nodes pages → IsCounted (without nodes key) changed }
    ensures replaced { (nodes : List (Option Node)) (pages : List (Option Page))
        (changed : List (Option Page))
        (key : ℕ) (old : Node) (new : Node)
        → object nodes key ≡ Some old
        → ((page : ℕ) → count_at changed page + names_in page (Some old)
        ≡ count_at pages page + names_in page (Some new))
        → ((page : ℕ) → InUse changed page → 0 < count_at changed page)
        → IsCounted nodes pages → IsCounted (put nodes key new) changed }
{}

/// A page's count rises where the page is made or its count set, and falls where it is set or the
/// page freed.
pub fn counts_move()
    ensures made { (pages : List (Option Page)) (key : ℕ) (page : Page)
        → object pages key ≡ None → object (put pages key page) key ≡ Some page → page.count ≡ 1
        → CountRises pages (put pages key page) key }
    ensures raised { (pages : List (Option Page)) (key : ℕ) (page : Page) (written : Page)
        → object pages key ≡ Some page → written.count ≡ page.count + 1
        → CountRises pages (put pages key written) key }
    ensures lowered { (pages : List (Option Page)) (key : ℕ) (page : Page) (written : Page)
        → object pages key ≡ Some page → written.count + 1 ≡ page.count → 1 < page.count
        → CountFalls pages (put pages key written) key }
    ensures freed { (pages : List (Option Page)) (key : ℕ) (page : Page)
        → object pages key ≡ Some page → page.count ≡ 1
        → CountFalls pages (without pages key) key }
{}

/// A page is named by at most an eighth as many entries as the heap has bytes, so one entry more
/// can be counted.
pub fn counts_are_small()
    ensures { (h : Heap) (page : ℕ)
        → IsWellFormed h → IsCounted h.nodes h.pages → count_at h.pages page ≤ h.heap / 8 }
{}

/// Pages keep their bytes where a count moves, and outside the keys that changed.
pub fn pages_keep_their_bytes()
    ensures counted { (pages : List (Option Page)) (at : ℕ) (page : Page) (written : Page)
        → object pages at ≡ Some page → written.bytes ≡ page.bytes
        → KeepsBytes [] pages (put pages at written) }
    ensures outside { (keys : List ℕ) (old : List (Option Page)) (new : List (Option Page))
        → KeepsOutside keys old new → KeepsBytes keys old new }
{}
