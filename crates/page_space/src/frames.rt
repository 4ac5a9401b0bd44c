//! The frames that page entries name.

ghost use Rattle.std.specs.Prelude.{◌≡◌, ◌+◌, ◌-◌, ◌<◌, ◌≤◌, None, Some};
ghost use Rattle.kabi_types.specs.declared.classes.Class.TheVariants as class;
ghost use Rattle.kabi_types.specs.Counts.{with_count};
ghost use Rattle.kheap_slabs.specs.Objects.{object, InUse, put};
ghost use Rattle.kheap_slabs.specs.Paid.{CanPay, IsPaid, TakesNothing};
ghost use Rattle.kheap_slabs.specs.Spaces.{names_page, count_at, CountRises, CountFalls};
ghost use Rattle.page_space.specs.Frames.{IsNamed, AllNamed, FramesStay};

use kabi_types::Class;
use kheap_slabs::{KHeap, Page, PageEntry, Purse};

// One entry fewer names the page; with the last one it goes.
pub(crate) fn drop_page(heap: &mut KHeap, key: u32)
    requires { 0 < count_at heap.old.pages key }
    ensures falls { CountFalls heap.old.pages heap.new.pages key }
    ensures bytes { FramesStay heap.old.pages heap.new.pages }
    ensures kept { heap.new ≡ record heap.old { pages = heap.new.pages } }
    ensures takes { TakesNothing heap.old heap.new }
{
    let count = heap.get_page(key).count;
    if count == 1 {
        let _ = heap.free_page(key);
    } else {
        heap.set_page_count(key, count - 1);
    }
}

// One entry more names the page.
pub(crate) fn share_page(heap: &mut KHeap, key: u32)
    requires there { 0 < count_at heap.old.pages key }
    requires small { count_at heap.old.pages key < 4294967295 }
    ensures rises { CountRises heap.old.pages heap.new.pages key }
    ensures bytes { FramesStay heap.old.pages heap.new.pages }
    ensures kept { heap.new ≡ record heap.old { pages = heap.new.pages } }
    ensures takes { TakesNothing heap.old heap.new }
{
    let count = heap.get_page(key).count;
    heap.set_page_count(key, count + 1);
}

// A page with these bytes, which one entry is to name.
pub(crate) fn make_page(heap: &mut KHeap, purse: &mut Purse, bytes: &[u8; 4096]) -> u32
    requires room { CanPay heap.old purse.old }
    requires left { 0 < purse.old.left.page }
    ensures vacant { object heap.old.pages result ≡ None }
    ensures stored { object heap.new.pages result ≡ Some (record { bytes = bytes.now; count = 1 }) }
    ensures kept { heap.new ≡ record heap.old { pages = put heap.old.pages result (record { bytes = bytes.now; count = 1 }); high = heap.new.high } }
    ensures paid { IsPaid heap.old purse.old heap.new purse.new }
    ensures spent { purse.new ≡ record purse.old { left = with_count purse.old.left class.Page (purse.old.left.page - 1) } }
{
    purse.spend(Class::Page);
    heap.insert_page(Page {
        bytes: *bytes,
        count: 1,
    })
}

// An entry says this no more.
pub(crate) fn drop_entry(heap: &mut KHeap, entry: PageEntry)
    requires { IsNamed heap.old.pages entry }
    ensures counts { (page : _) → count_at heap.new.pages page + names_page page entry ≡ count_at heap.old.pages page }
    ensures named { AllNamed heap.old.pages → AllNamed heap.new.pages }
    ensures others { (page : _) → names_page page entry ≡ 0 → object heap.new.pages page ≡ object heap.old.pages page }
    ensures bytes { FramesStay heap.old.pages heap.new.pages }
    ensures kept { heap.new ≡ record heap.old { pages = heap.new.pages } }
    ensures takes { TakesNothing heap.old heap.new }
{
    if let PageEntry::Frame(key) = entry {
        drop_page(heap, key);
    }
}

// One entry more says this.
pub(crate) fn share_entry(heap: &mut KHeap, entry: PageEntry)
    requires named { IsNamed heap.old.pages entry }
    requires small { (page : _) → count_at heap.old.pages page < 4294967295 }
    ensures counts { (page : _) → count_at heap.new.pages page ≡ count_at heap.old.pages page + names_page page entry }
    ensures kept_named { AllNamed heap.old.pages → AllNamed heap.new.pages }
    ensures others { (page : _) → names_page page entry ≡ 0 → object heap.new.pages page ≡ object heap.old.pages page }
    ensures bytes { FramesStay heap.old.pages heap.new.pages }
    ensures kept { heap.new ≡ record heap.old { pages = heap.new.pages } }
    ensures takes { TakesNothing heap.old heap.new }
{
    if let PageEntry::Frame(key) = entry {
        share_page(heap, key);
    }
}
