ghost use Rattle.std.specs.Prelude.{IfOk, IfSome, OnErr, ok_or, ◌≡◌, ◌≢◌, ℕ, ◌+◌, ◌-◌, ◌/◌, ◌%◌, ◌<◌, ◌≤◌, IsSome, MatchBool, None, Some, length, true, is_some, if◌then◌else◌, slice_set, slice_index_or};
ghost use Rattle.kabi_types.specs.declared.classes.Class.TheVariants as class;
ghost use Rattle.kabi_types.specs.Counts.{counted, with_count};
ghost use Rattle.kheap_slabs.specs.Objects.{count};
ghost use Rattle.kheap_slabs.specs.Paid.{CanPay, IsPaid, PaysExactly, TakesNothing};
ghost use Rattle.kheap_slabs.specs.Spaces.{is_mapped, mapped_count, OwnsNodes};
ghost use Rattle.page_space.specs.Accounts.{turned_at, IsAccounted, AccountFollows, AccountForks};
ghost use Rattle.page_space.specs.Changes.{OwnChanges, OwnForks};
ghost use Rattle.page_space.specs.Entries.{key_of, entry_at, is_mapped_at, PageTurns, IsMappedRange};
ghost use Rattle.page_space.specs.Contents.{content_at, StandsFor, IsOwnedWith, SpaceMoves, IsCleared, SpaceLeaves, IsFilled, IsForked};
ghost use Rattle.posix_defs.specs.Memory.{Memory, is_mapped_range, lowest_free_run, lowest_run, with_pages, without_pages, Frames, after_map, after_unmap, after_fork};
ghost use Rattle.posix_defs.specs.Memory as account;
ghost use Rattle.posix_defs.specs.Needs.{nodes_for};
ghost use Rattle.page_space.specs.Runs.{IsFreeFrom, IsMappedRun, HasUnmapped};
ghost use Rattle.kabi_types.specs.declared.errnos.Errno.TheVariants.{EMFILE};

use crate::frames::{drop_entry, share_entry};
use crate::rows::heap_is_well_formed;
use kabi_types::{Class, Errno};
use kheap_slabs::{KHeap, Node, PageEntry, Purse};
use std::marker::Model;

/// How many pages one Node has entries of.
const GROUP: u32 = 64;

/// How many pages an address space has.
const PAGES: u32 = 256;

/// The address space of one process: 256 pages of 4096 bytes, in four groups of 64.
///
/// A group has a Node in the heap exactly while one of its pages is mapped. A page that is mapped has zeros and no frame
/// until bytes are first put in it. A frame may be named by several pages, of several spaces; it is copied before one of
/// them is written.
#[derive(Drop)]
pub struct Space {
    nodes: [Option<u32>; 4],
}

impl Model for Space {
    ghost use Rattle.std.specs.Prelude.{◌≡◌, ℕ, List, Option, length};

    ghost Value = { List (Option ℕ) };

    ghost view = { λ space. space.nodes };

    ghost invariant = { λ space. length space.nodes ≡ 4 };
}

impl Space {
    /// The space whose Nodes have these keys, None for a group without one. They are those of one process.
    pub fn of(nodes: [Option<u32>; 4]) -> Space
        ensures { result ≡ nodes }
    {
        Space { nodes }
    }

    /// The keys of its Nodes, as its process keeps them.
    pub fn nodes(&self) -> [Option<u32>; 4]
        ensures value { result ≡ self.now }
        ensures groups { length self.now ≡ 4 }
    {
        self.nodes
    }

    // What the space has at a page.
    pub(crate) fn entry(&self, heap: &KHeap, page: u32) -> PageEntry
        requires within { page < 256 }
        requires owns { OwnsNodes heap.now.nodes self.now }
        ensures { result ≡ entry_at heap.now.nodes self.now page }
    {
        match self.nodes[(page / GROUP) as usize] {
            Some(key) => heap.get_node(key).entries[(page % GROUP) as usize],
            None => PageEntry::Unmapped,
        }
    }

    // Gives an unmapped page whose group has no Node an entry, in a Node of its own.
    fn begin_group(&mut self, heap: &mut KHeap, purse: &mut Purse, page: u32, entry: PageEntry)
        requires within { page < 256 }
        requires owns { OwnsNodes heap.old.nodes self.old }
        requires absent { key_of self.old page ≡ None }
        requires mapped { is_mapped entry ≡ true }
        requires room { CanPay heap.old purse.old }
        requires left { 0 < purse.old.left.node }
        ensures turns { PageTurns heap.old.nodes heap.new.nodes self.old self.new page PageEntry.Unmapped entry }
        ensures kept { heap.new ≡ record heap.old { nodes = heap.new.nodes; high = heap.new.high } }
        ensures paid { IsPaid heap.old purse.old heap.new purse.new }
        ensures exact { PaysExactly class.Node heap.old purse.old heap.new purse.new }
        ensures spent { purse.new ≡ record purse.old { left = with_count purse.old.left class.Node (purse.old.left.node - 1) } }
    {
        let mut entries = [PageEntry::Unmapped; 64];
        entries[(page % GROUP) as usize] = entry;
        purse.spend(Class::Node);
        self.nodes[(page / GROUP) as usize] = Some(heap.insert_node(Node { entries }));
    }

    // Gives a page whose group has a Node another entry.
    pub(crate) fn set_entry(&self, heap: &mut KHeap, page: u32, entry: PageEntry)
        requires within { page < 256 }
        requires owns { OwnsNodes heap.old.nodes self.now }
        requires there { IsSome (key_of self.now page) }
        requires mapped { is_mapped entry ≡ true }
        ensures turns { PageTurns heap.old.nodes heap.new.nodes self.now self.now page (entry_at heap.old.nodes self.now page) entry }
        ensures kept { heap.new ≡ record heap.old { nodes = heap.new.nodes } }
        ensures count { count heap.new.nodes ≡ count heap.old.nodes }
        ensures takes { TakesNothing heap.old heap.new }
    {
        match self.nodes[(page / GROUP) as usize] {
            Some(key) => {
                heap_is_well_formed(heap);
                heap.set_node_entry(key, page % GROUP, entry);
            }
            None => unreachable!(),
        }
    }

    // Takes a mapped page's entry away, and its group's Node with the last one.
    fn clear_entry(&mut self, heap: &mut KHeap, page: u32)
        requires within { page < 256 }
        requires owns { OwnsNodes heap.old.nodes self.old }
        requires mapped { is_mapped_at heap.old.nodes self.old page ≡ true }
        ensures turns { PageTurns heap.old.nodes heap.new.nodes self.old self.new page (entry_at heap.old.nodes self.old page) PageEntry.Unmapped }
        ensures kept { heap.new ≡ record heap.old { nodes = heap.new.nodes } }
        ensures takes { TakesNothing heap.old heap.new }
    {
        match self.nodes[(page / GROUP) as usize] {
            Some(key) => {
                heap.set_node_entry(key, page % GROUP, PageEntry::Unmapped);
                heap_is_well_formed(heap);
                if !has_mapped(heap.get_node(key)) {
                    let _ = heap.free_node(key);
                    self.nodes[(page / GROUP) as usize] = None;
                }
            }
            None => unreachable!(),
        }
    }

    // Gives an unmapped page an entry, in a new Node where its group has none.
    fn map_page(&mut self, heap: &mut KHeap, purse: &mut Purse, page: u32, entry: PageEntry)
        requires within { page < 256 }
        requires owns { OwnsNodes heap.old.nodes self.old }
        requires unmapped { entry_at heap.old.nodes self.old page ≡ PageEntry.Unmapped }
        requires mapped { is_mapped entry ≡ true }
        requires room { CanPay heap.old purse.old }
        requires left { key_of self.old page ≡ None → 0 < purse.old.left.node }
        ensures turns { PageTurns heap.old.nodes heap.new.nodes self.old self.new page PageEntry.Unmapped entry }
        ensures kept { heap.new ≡ record heap.old { nodes = heap.new.nodes; high = heap.new.high } }
        ensures paid { IsPaid heap.old purse.old heap.new purse.new }
        ensures exact { PaysExactly class.Node heap.old purse.old heap.new purse.new }
        ensures spent { purse.new ≡ record purse.old {
          left = with_count purse.old.left class.Node
              (purse.old.left.node - (if is_some (key_of self.old page) then 0 else 1));
        } }
    {
        if self.nodes[(page / GROUP) as usize].is_some() {
            self.set_entry(heap, page, entry);
        } else {
            self.begin_group(heap, purse, page, entry);
        }
    }

    // Unmaps a page, if it is mapped.
    fn unmap_page(&mut self, heap: &mut KHeap, page: u32)
        requires within { page < 256 }
        requires owned { IsOwnedWith heap.old self.old }
        ensures gone { entry_at heap.new.nodes self.new page ≡ PageEntry.Unmapped }
        ensures entries { (other : _) → other ≢ page → entry_at heap.new.nodes self.new other ≡ entry_at heap.old.nodes self.old other }
        ensures stays { (other : _) → other ≢ page → content_at heap.new self.new other ≡ content_at heap.old self.old other }
        ensures moves { SpaceMoves heap.old heap.new self.old self.new }
        ensures own { OwnChanges heap.old heap.new self.old self.new }
        ensures account { AccountFollows heap.old heap.new self.old self.new (λ frames pid. turned_at frames pid page account.Unmapped) }
        ensures takes { TakesNothing heap.old heap.new }
    {
        let entry = self.entry(heap, page);
        if is_mapped_entry(entry) {
            self.clear_entry(heap, page);
            drop_entry(heap, entry);
        }
    }

    // Whether a page is mapped.
    fn is_mapped(&self, heap: &KHeap, page: u32) -> bool
        requires within { page < 256 }
        requires owns { OwnsNodes heap.now.nodes self.now }
        ensures { result ≡ is_mapped_at heap.now.nodes self.now page }
    {
        is_mapped_entry(self.entry(heap, page))
    }

    // The first mapped page of a page's group from that page on, and where none is, the first page behind the group.
    fn skip_unmapped(&self, heap: &KHeap, page: u32) -> u32
        requires within { page < 256 }
        requires owns { OwnsNodes heap.now.nodes self.now }
        ensures from { page ≤ result }
        ensures below { result ≤ 256 }
        ensures unmapped { (other : _) → page ≤ other → other < result → entry_at heap.now.nodes self.now other ≡ PageEntry.Unmapped }
        ensures mapped { result ≡ page → is_mapped_at heap.now.nodes self.now page ≡ true }
    {
        let first = page - page % GROUP;
        match self.nodes[(page / GROUP) as usize] {
            Some(key) => {
                heap_is_well_formed(heap);
                first + first_mapped(heap.get_node(key), page % GROUP)
            }
            None => first + GROUP,
        }
    }

    // Whether the pages from one up to below another are mapped.
    fn is_mapped_run(&self, heap: &KHeap, first: u32, end: u32) -> bool
        requires within { end ≤ 256 }
        requires owns { OwnsNodes heap.now.nodes self.now }
        ensures { MatchBool result (IsMappedRun (is_mapped_at heap.now.nodes self.now) first end)
            (HasUnmapped (is_mapped_at heap.now.nodes self.now) first end) }
    {
        for page in first..end {
            if !self.is_mapped(heap, page) {
                return false;
            }
        }
        true
    }

    /// Whether each page that the n bytes from an address touch is mapped. A range without bytes touches none.
    pub fn mapped(&self, heap: &KHeap, addr: u32, n: u32) -> bool
        requires within { addr + n ≤ 1048576 }
        requires owned { IsOwnedWith heap.now self.now }
        ensures memory { (memory : Memory) → StandsFor heap.now self.now memory → result ≡ is_mapped_range memory addr n }
        ensures pages { result ≡ true → IsMappedRange heap.now.nodes self.now addr n }
    {
        n == 0 || self.is_mapped_run(heap, addr / 4096, (addr + n - 1) / 4096 + 1)
    }

    // The first page of the lowest run of so many unmapped pages, page 0 not among them.
    fn lowest_run(&self, heap: &KHeap, pages: u32) -> Option<u32>
        requires some { 0 < pages }
        requires owns { OwnsNodes heap.now.nodes self.now }
        ensures found { result ≡ lowest_free_run (is_mapped_at heap.now.nodes self.now) pages }
        ensures free { IfSome result (IsFreeFrom (is_mapped_at heap.now.nodes self.now) pages) }
    {
        let mut unmapped = 0;
        for page in 1..PAGES {
            if self.is_mapped(heap, page) {
                unmapped = 0;
            } else {
                unmapped += 1;
            }
            if unmapped == pages {
                return Some(page + 1 - pages);
            }
        }
        None
    }

    // Maps the pages from one up to below another, none of which is mapped. They are zero.
    fn map_run(&mut self, heap: &mut KHeap, purse: &mut Purse, first: u32, end: u32)
        requires rises { first < end }
        requires within { end ≤ 256 }
        requires owned { IsOwnedWith heap.old self.old }
        requires free { (page : _) → first ≤ page → page < end → entry_at heap.old.nodes self.old page ≡ PageEntry.Unmapped }
        requires room { CanPay heap.old purse.old }
        requires left { nodes_for (end - first) ≤ purse.old.left.node }
        ensures { IsFilled heap.old purse.old heap.new purse.new self.old self.new first end }
    {
        for page in first..end {
            self.map_page(heap, purse, page, PageEntry::Zero);
        }
    }

    /// Maps the lowest run of so many unmapped pages, and answers the number of its first page. The pages are zero.
    ///
    /// EMFILE where no run is long enough; nothing is changed then. Page 0 is never mapped.
    pub fn map(&mut self, heap: &mut KHeap, purse: &mut Purse, pages: u32) -> Result<u32, Errno>
        requires some { 0 < pages }
        requires owned { IsOwnedWith heap.old self.old }
        requires room { CanPay heap.old purse.old }
        requires left { nodes_for pages ≤ purse.old.left.node }
        ensures found { (memory : Memory) → StandsFor heap.old self.old memory
            → result ≡ ok_or (lowest_run memory pages) EMFILE }
        ensures memory { IfOk result (λ first. (memory : Memory) → length memory ≡ 256 → StandsFor heap.old self.old memory
            → StandsFor heap.new self.new (with_pages memory first pages)) }
        ensures unchanged { OnErr result ((heap.new ≡ heap.old) × (self.new ≡ self.old) × (purse.new ≡ purse.old)) }
        ensures owned { IsOwnedWith heap.new self.new }
        ensures account { IfOk result (λ first. AccountFollows heap.old heap.new self.old self.new (λ frames pid. after_map frames pid first pages)) }
        ensures moves { SpaceMoves heap.old heap.new self.old self.new }
        ensures own { OwnChanges heap.old heap.new self.old self.new }
        ensures paid { IsPaid heap.old purse.old heap.new purse.new }
        ensures exact { PaysExactly class.Node heap.old purse.old heap.new purse.new }
        ensures spent { purse.new ≡ record purse.old { left = with_count purse.old.left class.Node purse.new.left.node } }
    {
        match self.lowest_run(heap, pages) {
            Some(first) => {
                self.map_run(heap, purse, first, first + pages);
                Ok(first)
            }
            None => Err(Errno::EMFILE),
        }
    }

    // Unmaps the pages from one up to below another.
    fn unmap_run(&mut self, heap: &mut KHeap, first: u32, end: u32)
        requires rises { first ≤ end }
        requires within { end ≤ 256 }
        requires owned { IsOwnedWith heap.old self.old }
        ensures { IsCleared heap.old heap.new self.old self.new first end }
    {
        let mut page = first;
        while page < end {
            let next = self.skip_unmapped(heap, page);
            if next == page {
                self.unmap_page(heap, page);
                page += 1;
            } else {
                page = next.min(end);
            }
        }
    }

    /// Unmaps the pages from one on, `count` in all. Those that aren't mapped stay so.
    pub fn unmap(&mut self, heap: &mut KHeap, page: u32, count: u32)
        requires within { page + count ≤ 256 }
        requires owned { IsOwnedWith heap.old self.old }
        ensures memory { (memory : Memory) → length memory ≡ 256 → StandsFor heap.old self.old memory
            → StandsFor heap.new self.new (without_pages memory page count) }
        ensures owned { IsOwnedWith heap.new self.new }
        ensures account { AccountFollows heap.old heap.new self.old self.new (λ frames pid. after_unmap frames pid page count) }
        ensures moves { SpaceMoves heap.old heap.new self.old self.new }
        ensures own { OwnChanges heap.old heap.new self.old self.new }
        ensures takes { TakesNothing heap.old heap.new }
    {
        self.unmap_run(heap, page, page + count);
    }

    /// A second space with the same memory, as a child of a fork has it. No frame is made: both name the same ones.
    pub fn fork_from(heap: &mut KHeap, purse: &mut Purse, of: &Space) -> Space
        requires owned { IsOwnedWith heap.old of.now }
        requires room { CanPay heap.old purse.old }
        requires left { 4 ≤ purse.old.left.node }
        ensures account { (number : ℕ → ℕ) (before : Frames) (parent : ℕ) → IsAccounted heap.old number before parent of.now
            → AccountForks heap.old heap.new of.now result number before (after_fork before parent) parent }
        ensures own { OwnForks heap.old heap.new of.now result }
        ensures forked { IsForked heap.old purse.old heap.new purse.new of.now result 256 }
        ensures child { IsOwnedWith heap.new result }
        ensures parent { IsOwnedWith heap.new of.now }
    {
        let mut space = Space { nodes: [None; 4] };
        let mut page = 0;
        while page < PAGES {
            let next = of.skip_unmapped(heap, page);
            if next == page {
                let entry = of.entry(heap, page);
                heap_is_well_formed(heap);
                share_entry(heap, entry);
                space.map_page(heap, purse, page, entry);
                page += 1;
            } else {
                page = next;
            }
        }
        space
    }

    /// Unmaps all pages. The space is gone then, and its Nodes with it.
    pub fn release(mut self, heap: &mut KHeap)
        requires owned { IsOwnedWith heap.old self }
        ensures leaves { SpaceLeaves heap.old heap.new self }
        ensures takes { TakesNothing heap.old heap.new }
    {
        self.unmap_run(heap, 0, PAGES);
        // no page is mapped in any of the four groups, so none has a Node
        let _ = self.nodes();
        heap_is_well_formed(heap);
    }
}

// Whether the entry's page is mapped.
fn is_mapped_entry(entry: PageEntry) -> bool
    ensures { result ≡ is_mapped entry }
{
    match entry {
        PageEntry::Unmapped => false,
        PageEntry::Zero | PageEntry::Frame(_) => true,
    }
}

// Whether some page of the group is mapped.
fn has_mapped(node: &Node) -> bool
    requires { length node.now.entries ≡ 64 }
    ensures { MatchBool result (0 < mapped_count node.now) (mapped_count node.now ≡ 0) }
{
    for entry in &node.entries {
        if is_mapped_entry(*entry) {
            return true;
        }
    }
    false
}

// The place of a group's first mapped entry from one on, and where none is, the place behind the last.
fn first_mapped(node: &Node, from: u32) -> u32
    requires within { from < 64 }
    requires len { length node.now.entries ≡ 64 }
    ensures from { from ≤ result }
    ensures below { result ≤ 64 }
    ensures unmapped { (at : _) → from ≤ at → at < result → slice_index_or node.now.entries at PageEntry.Unmapped ≡ PageEntry.Unmapped }
    ensures mapped { result < 64 → is_mapped (slice_index_or node.now.entries result PageEntry.Unmapped) ≡ true }
{
    for at in from..GROUP {
        if is_mapped_entry(node.entries[at as usize]) {
            return at;
        }
    }
    GROUP
}
