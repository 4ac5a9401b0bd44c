//! Bytes in the pages of an address space.

ghost use Rattle.std.specs.Prelude.{◌≡◌, ◌≢◌, ◌+◌, ◌-◌, ◌/◌, ◌%◌, ◌<◌, ◌≤◌, ◌++◌, Some, length, min, true, take, drop};
ghost use Rattle.kabi_types.specs.declared.classes.Class.TheVariants as class;
ghost use Rattle.kabi_types.specs.Counts.{with_count};
ghost use Rattle.kheap_slabs.specs.Paid.{CanPay, IsPaid};
ghost use Rattle.kheap_slabs.specs.Spaces.{count_at};
ghost use Rattle.page_space.specs.Accounts.{AccountFollows};
ghost use Rattle.page_space.specs.Changes.{OwnChanges};
ghost use Rattle.page_space.specs.Contents.{content_at, StandsFor, IsOwnedWith, SpaceMoves};
ghost use Rattle.page_space.specs.Entries.{entry_at, is_mapped_at, IsMappedRange};
ghost use Rattle.page_space.specs.Putting.{PaysForFrames, PutsPiece, Puts};
ghost use Rattle.posix_defs.specs.Memory.{Memory, loaded, fresh_at, written_at};
ghost use Rattle.posix_defs.specs.Needs.{pages_touched};

use crate::frames::{drop_entry, make_page};
use crate::rows::heap_is_well_formed;
use crate::spaces::Space;
use kheap_slabs::{KHeap, PageEntry, Purse};

/// How many bytes a page has.
const PAGE: usize = 4096;

impl Space {
    // Gives a mapped page a frame of its own with its bytes, in place of what it had.
    fn give_frame(&self, heap: &mut KHeap, purse: &mut Purse, page: u32, bytes: &[u8; PAGE]) -> u32
        requires within { page < 256 }
        requires owned { IsOwnedWith heap.old self.now }
        requires mapped { is_mapped_at heap.old.nodes self.now page ≡ true }
        requires content { content_at heap.old self.now page ≡ Some bytes.now }
        requires room { CanPay heap.old purse.old }
        requires left { 0 < purse.old.left.page }
        ensures named { entry_at heap.new.nodes self.now page ≡ PageEntry.Frame result }
        ensures alone { count_at heap.new.pages result ≡ 1 }
        ensures stays { (other : _) → content_at heap.new self.now other ≡ content_at heap.old self.now other }
        ensures entries { (other : _) → other ≢ page → entry_at heap.new.nodes self.now other ≡ entry_at heap.old.nodes self.now other }
        ensures moves { SpaceMoves heap.old heap.new self.now self.now }
        ensures own { OwnChanges heap.old heap.new self.now self.now }
        ensures account { AccountFollows heap.old heap.new self.now self.now (λ frames pid. fresh_at frames pid page) }
        ensures paid { IsPaid heap.old purse.old heap.new purse.new }
        ensures spent { purse.new ≡ record purse.old { left = with_count purse.old.left class.Page (purse.old.left.page - 1) } }
    {
        let was = self.entry(heap, page);
        let key = make_page(heap, purse, bytes);
        self.set_entry(heap, page, PageEntry::Frame(key));
        drop_entry(heap, was);
        key
    }

    // Lets a mapped page have a frame that no other page names: a new one where it has none, and a copy of a shared one.
    // Answers the frame's key.
    fn own_frame(&self, heap: &mut KHeap, purse: &mut Purse, page: u32) -> u32
        requires within { page < 256 }
        requires owned { IsOwnedWith heap.old self.now }
        requires mapped { is_mapped_at heap.old.nodes self.now page ≡ true }
        requires room { CanPay heap.old purse.old }
        requires left { 0 < purse.old.left.page }
        ensures named { entry_at heap.new.nodes self.now page ≡ PageEntry.Frame result }
        ensures alone { count_at heap.new.pages result ≡ 1 }
        ensures stays { (other : _) → content_at heap.new self.now other ≡ content_at heap.old self.now other }
        ensures entries { (other : _) → other ≢ page → entry_at heap.new.nodes self.now other ≡ entry_at heap.old.nodes self.now other }
        ensures moves { SpaceMoves heap.old heap.new self.now self.now }
        ensures own { OwnChanges heap.old heap.new self.now self.now }
        ensures account { AccountFollows heap.old heap.new self.now self.now (λ frames pid. written_at frames pid page) }
        ensures paid { IsPaid heap.old purse.old heap.new purse.new }
        ensures pays { PaysForFrames heap.old purse.old purse.new self.now (λ frames pid. written_at frames pid page) }
        ensures at_most { purse.old.left.page ≤ purse.new.left.page + 1 }
    {
        match self.entry(heap, page) {
            PageEntry::Unmapped => unreachable!(),
            PageEntry::Zero => self.give_frame(heap, purse, page, &[0; PAGE]),
            PageEntry::Frame(key) => {
                if heap.get_page(key).count == 1 {
                    return key;
                }
                let bytes = heap.get_page(key).bytes;
                self.give_frame(heap, purse, page, &bytes)
            }
        }
    }

    // Puts as many bytes in memory as the page of the address has room for from there on. Answers how many.
    fn put_piece(&self, heap: &mut KHeap, purse: &mut Purse, addr: u32, bytes: &[u8]) -> usize
        requires some { 0 < length bytes.now }
        requires within { addr < 1048576 }
        requires owned { IsOwnedWith heap.old self.now }
        requires mapped { is_mapped_at heap.old.nodes self.now (addr / 4096) ≡ true }
        requires room { CanPay heap.old purse.old }
        requires left { 0 < purse.old.left.page }
        ensures count { result ≡ min (4096 - addr % 4096) (length bytes.now) }
        ensures puts { PutsPiece heap.old purse.old heap.new purse.new self.now addr (take result bytes.now) }
    {
        let place = addr as usize % PAGE;
        let count = (PAGE - place).min(bytes.len());
        let key = self.own_frame(heap, purse, addr / PAGE as u32);
        heap_is_well_formed(heap);
        heap.write_page(key, place as u32, &bytes[..count]);
        count
    }

    /// Puts bytes in memory from an address on. Each page that they touch is mapped.
    ///
    /// A page without a frame gets one, and a frame that another page names too is copied first; from the purse one Page is
    /// paid for each. Where no other page names the frame it is written in its place.
    pub fn copy_in(&mut self, heap: &mut KHeap, purse: &mut Purse, addr: u32, bytes: &[u8])
        requires within { addr + length bytes.now ≤ 1048576 }
        requires owned { IsOwnedWith heap.old self.old }
        requires mapped { IsMappedRange heap.old.nodes self.old addr (length bytes.now) }
        requires room { CanPay heap.old purse.old }
        requires left { pages_touched addr (length bytes.now) ≤ purse.old.left.page }
        ensures puts { Puts heap.old purse.old heap.new purse.new self.old addr bytes.now }
        ensures same { self.new ≡ self.old }
        ensures owned { IsOwnedWith heap.new self.new }
    {
        let mut done = 0;
        while done < bytes.len() {
            done += self.put_piece(heap, purse, addr + done as u32, &bytes[done..]);
        }
    }

    // Takes as many bytes as the page of the address has from there on and there is room for. Answers how many.
    fn take_piece(&self, heap: &KHeap, addr: u32, out: &mut [u8]) -> usize
        requires some { 0 < length out.old }
        requires within { addr < 1048576 }
        requires owned { IsOwnedWith heap.now self.now }
        requires mapped { is_mapped_at heap.now.nodes self.now (addr / 4096) ≡ true }
        ensures count { result ≡ min (4096 - addr % 4096) (length out.old) }
        ensures taken { (memory : Memory) → StandsFor heap.now self.now memory → out.new ≡ loaded memory addr result ++ drop result out.old }
    {
        heap_is_well_formed(heap);
        let place = addr as usize % PAGE;
        let count = (PAGE - place).min(out.len());
        let piece = &mut out[..count];
        match self.entry(heap, addr / PAGE as u32) {
            PageEntry::Unmapped => unreachable!(),
            PageEntry::Zero => piece.fill(0),
            PageEntry::Frame(key) => piece.copy_from_slice(
                &heap.get_page(key).bytes[place..place + count],
            ),
        }
        count
    }

    /// Takes the bytes of memory from an address on, as many as there is room for. Each page that they touch is mapped.
    pub fn copy_out(&self, heap: &KHeap, addr: u32, out: &mut [u8])
        requires within { addr + length out.old ≤ 1048576 }
        requires owned { IsOwnedWith heap.now self.now }
        requires mapped { IsMappedRange heap.now.nodes self.now addr (length out.old) }
        ensures { (memory : Memory) → StandsFor heap.now self.now memory → out.new ≡ loaded memory addr (length out.old) }
    {
        let mut done = 0;
        while done < out.len() {
            done += self.take_piece(heap, addr + done as u32, &mut out[done..]);
        }
    }
}
