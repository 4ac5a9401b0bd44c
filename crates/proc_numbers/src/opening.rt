//! How a process has a number name something.

ghost use Rattle.std.specs.Prelude.{◌≡◌, ◌<◌, ℕ, List, ◌∷◌, None, Some, false, if◌then◌else◌, true};
ghost use Rattle.kabi_types.specs.Arguments.{count_of, may_be_descriptor, most_descriptors};
ghost use Rattle.kheap_slabs.specs.Paid.{CanPay, IsPaid};
ghost use Rattle.desc_table.specs.Numbered.{leaf_spent};
ghost use Rattle.open_laws.specs.Open.{descriptor_by};
ghost use Rattle.open_laws.specs.Owned.{HasItsOwners};
ghost use Rattle.open_laws.specs.Placed.{Numbers};
ghost use Rattle.posix_defs.specs.Calls.OnDescriptors.{cloexec_set};
ghost use Rattle.posix_defs.specs.Files.Descriptors.{descriptor_at};
ghost use Rattle.posix_defs.specs.Files.State.{Files, descriptors_of, with_open};
ghost use Rattle.proc_table.specs.Table.{IsPlaced};
ghost use Rattle.proc_numbers.specs.Having.{AreListed, HaveOpen};
ghost use Rattle.proc_numbers.specs.Naming.{ChangesNumbers, NamesNumber, has_room, named_at};

use crate::closing::is_well_formed;
use desc_table::Descs;
use kabi_types::MOST_DESCRIPTORS;
use kheap_slabs::{Descriptor, KHeap, Purse};
use proc_table::{Place, ProcTable};

/// Whether a number is one that a descriptor may have.
pub fn may_be_descriptor(number: i64) -> bool
    ensures { result ≡ may_be_descriptor number }
{
    0 <= number && number < i64::from(MOST_DESCRIPTORS)
}

/// A number as a count, 0 for one below 0.
pub fn count_of(number: i64) -> u64
    ensures { result ≡ count_of number }
{
    u64::try_from(number).unwrap_or(0)
}

/// A number of a process that isn't open names an open description from now on, which counts this descriptor already: it was
/// in hand.
///
/// The purse pays for the Leaf of the number, where that isn't there.
pub fn open_one(
    heap: &mut KHeap,
    purse: &mut Purse,
    procs: &ProcTable,
    place: Place,
    fd: u32,
    descriptor: Descriptor,
)
    requires listed { AreListed heap.old procs.now }
    requires there { IsPlaced procs.now place }
    requires pays { CanPay heap.old purse.old }
    requires left { has_room heap.old procs.now place.pid fd ≡ false → 0 < purse.old.left.leaf }
    requires number { fd < most_descriptors }
    requires free { named_at heap.old procs.now place.pid fd ≡ None }
    ensures opened { (numbers : Numbers) (files : Files) → HaveOpen numbers heap.old procs.now files
        → HaveOpen numbers heap.new procs.now (with_open files place.pid fd (Some (descriptor_by numbers.descs descriptor))) }
    ensures listed { AreListed heap.new procs.now }
    ensures owners { (hand : List ℕ) → HasItsOwners heap.old (descriptor.desc ∷ hand) → HasItsOwners heap.new hand }
    ensures names { NamesNumber heap.old heap.new procs.now place.pid fd descriptor }
    ensures paid { IsPaid heap.old purse.old heap.new purse.new }
    ensures pays { CanPay heap.new purse.new }
    ensures spent { purse.new ≡ (if has_room heap.old procs.now place.pid fd then purse.old else leaf_spent purse.old) }
    ensures rooms { (other : ℕ) → has_room heap.old procs.now place.pid other ≡ true → has_room heap.new procs.now place.pid other ≡ true }
    ensures room { has_room heap.new procs.now place.pid fd ≡ true }
{
    put_number(heap, purse, procs, place, fd, descriptor);
}

/// A number of a process that names this is closed by `exec` from now on, or isn't (FD_CLOEXEC). It has its place already, so the
/// purse pays nothing.
pub(crate) fn mark_one(
    heap: &mut KHeap,
    purse: &mut Purse,
    procs: &ProcTable,
    place: Place,
    fd: u32,
    descriptor: Descriptor,
    cloexec: bool,
)
    requires listed { AreListed heap.old procs.now }
    requires there { IsPlaced procs.now place }
    requires pays { CanPay heap.old purse.old }
    requires number { fd < most_descriptors }
    requires names { named_at heap.old procs.now place.pid fd ≡ Some descriptor }
    ensures marked { (numbers : Numbers) (files : Files) → HaveOpen numbers heap.old procs.now files
        → HaveOpen numbers heap.new procs.now
        (with_open files place.pid fd (cloexec_set cloexec (descriptor_at (descriptors_of files place.pid) fd))) }
    ensures listed { AreListed heap.new procs.now }
    ensures owners { (hand : List ℕ) → HasItsOwners heap.old hand → HasItsOwners heap.new hand }
    ensures changes { ChangesNumbers heap.old heap.new procs.now place.pid }
    ensures beside { heap.new
        ≡ record heap.old { procs = heap.new.procs; leaves = heap.new.leaves; high = heap.new.high } }
    ensures paid { IsPaid heap.old purse.old heap.new purse.new }
    ensures spent { purse.new ≡ purse.old }
{
    is_well_formed(heap);
    let marked = Descriptor {
        close_on_exec: cloexec,
        ..descriptor
    };
    put_number(heap, purse, procs, place, fd, marked);
}

// A number of a process has this descriptor from now on, in its Proc or its Leaf, which the purse pays for where it isn't there.
fn put_number(
    heap: &mut KHeap,
    purse: &mut Purse,
    procs: &ProcTable,
    place: Place,
    fd: u32,
    descriptor: Descriptor,
)
    requires listed { AreListed heap.old procs.now }
    requires there { IsPlaced procs.now place }
    requires pays { CanPay heap.old purse.old }
    requires left { has_room heap.old procs.now place.pid fd ≡ false → 0 < purse.old.left.leaf }
    requires number { fd < most_descriptors }
    ensures names { NamesNumber heap.old heap.new procs.now place.pid fd descriptor }
    ensures paid { IsPaid heap.old purse.old heap.new purse.new }
    ensures pays { CanPay heap.new purse.new }
    ensures spent { purse.new ≡ (if has_room heap.old procs.now place.pid fd then purse.old else leaf_spent purse.old) }
    ensures rooms { (other : ℕ) → has_room heap.old procs.now place.pid other ≡ true → has_room heap.new procs.now place.pid other ≡ true }
    ensures room { has_room heap.new procs.now place.pid fd ≡ true }
{
    is_well_formed(heap);
    let proc = procs.at(heap, place);
    let mut descs = Descs::of(proc.descriptors, proc.leaves);
    descs.set(heap, purse, fd, descriptor.desc, descriptor.close_on_exec);
    heap.set_proc_numbers(place.key, descs.places(), descs.leaves());
}
