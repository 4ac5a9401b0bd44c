//! `dup`, and a number that names what another names.

ghost use Rattle.std.specs.Prelude.{◌≡◌, ◌<◌, ◌≤◌, ℕ, [], IfSome, OnErr, None, Some, false, length};
ghost use Rattle.kabi_types.specs.declared.scripts.Script.{Script};
ghost use Rattle.kheap_slabs.specs.Objects.{InUse};
ghost use Rattle.kheap_slabs.specs.Heap.{IsWellFormed};
ghost use Rattle.kheap_slabs.specs.Paid.{CanPay, IsPaid};
ghost use Rattle.desc_table.specs.Copying.{spends_leaves};
ghost use Rattle.open_laws.specs.Owned.{HasItsOwners};
ghost use Rattle.open_laws.specs.Placed.{Numbers};
ghost use Rattle.posix_defs.specs.Calls.OnDescriptors.{dup, duplicated};
ghost use Rattle.posix_defs.specs.Files.Descriptions.{Description};
ghost use Rattle.posix_defs.specs.Files.Descriptors.{Descriptors, lowest_free_from};
ghost use Rattle.posix_defs.specs.Files.State.{Files, descriptors_of, with_open};
ghost use Rattle.posix_defs.specs.Plain.{Plain};
ghost use Rattle.kabi_types.specs.Arguments.{most_descriptors};
ghost use Rattle.proc_table.specs.Table.{IsPlaced};
ghost use Rattle.proc_numbers.specs.Found.{IsOpened};
ghost use Rattle.proc_numbers.specs.Having.{AreListed, HaveOpen, OpensNoNode};
ghost use Rattle.proc_numbers.specs.Naming.{ChangesNumbers, named_at};
ghost use Rattle.proc_numbers.specs.Answering.{Answers, value_of};

use crate::finding;
use crate::lookups::Named;
use crate::opening::open_one;
use desc_table::share_desc;
use kabi_types::{Errno, MOST_DESCRIPTORS};
use kheap_slabs::{Descriptor, KHeap, Purse};
use proc_table::{Place, ProcTable};

/// The lowest number of a process that is free names the same description as another. That number.
///
/// The purse pays for the Leaf of that number, where that isn't there. EBADF where the other isn't open, EMFILE where no number is free;
/// nothing is changed then.
///
/// <https://pubs.opengroup.org/onlinepubs/9699919799/functions/dup.html>
pub fn dup_one(
    heap: &mut KHeap,
    purse: &mut Purse,
    procs: &ProcTable,
    place: Place,
    on: &Named,
) -> Result<u32, Errno>
    requires listed { AreListed heap.old procs.now }
    requires owners { HasItsOwners heap.old [] }
    requires there { IsPlaced procs.now place }
    requires opened { IsOpened heap.old procs.now place.pid on.now }
    requires pays { CanPay heap.old purse.old }
    requires left { 0 < purse.old.left.leaf }
    ensures answers { (numbers : Numbers) (script : Script) (plain : Plain) → HaveOpen numbers heap.old procs.now plain.files
        → Answers numbers heap.new procs.now script plain place.pid (dup script plain place.pid on.now.fd) (value_of result) }
    ensures nodes { OpensNoNode heap.old.descs → OpensNoNode heap.new.descs }
    ensures listed { AreListed heap.new procs.now }
    ensures owners { HasItsOwners heap.new [] }
    ensures changes { ChangesNumbers heap.old heap.new procs.now place.pid }
    ensures beside { heap.new ≡ record heap.old {
      procs = heap.new.procs;
      leaves = heap.new.leaves;
      descs = heap.new.descs;
      high = heap.new.high;
    } }
    ensures unchanged { OnErr result ((heap.new ≡ heap.old) × (purse.new ≡ purse.old)) }
    ensures paid { IsPaid heap.old purse.old heap.new purse.new }
    ensures spent { purse.new ≡ spends_leaves purse.old purse.new }
{
    let Some(found) = on.found else {
        return Err(Errno::EBADF);
    };
    share_lowest(heap, purse, procs, place, found.key, 0)
}

// The lowest number at or above one that is free names a description from now on that another number names. EMFILE where all
// from there on are open.
pub(crate) fn share_lowest(
    heap: &mut KHeap,
    purse: &mut Purse,
    procs: &ProcTable,
    place: Place,
    desc: u32,
    from: u64,
) -> Result<u32, Errno>
    requires listed { AreListed heap.old procs.now }
    requires owners { HasItsOwners heap.old [] }
    requires there { IsPlaced procs.now place }
    requires pays { CanPay heap.old purse.old }
    requires left { 0 < purse.old.left.leaf }
    requires used { InUse heap.old.descs desc }
    ensures answers { (numbers : Numbers) (script : Script) (plain : Plain) (is : Description)
        → HaveOpen numbers heap.old procs.now plain.files
        → Answers numbers heap.new procs.now script plain place.pid
        (duplicated script plain place.pid (record { place = numbers.descs desc; is = is })
        (lowest_free_from (descriptors_of plain.files place.pid) from)) (value_of result) }
    ensures nodes { OpensNoNode heap.old.descs → OpensNoNode heap.new.descs }
    ensures listed { AreListed heap.new procs.now }
    ensures owners { HasItsOwners heap.new [] }
    ensures changes { ChangesNumbers heap.old heap.new procs.now place.pid }
    ensures beside { heap.new ≡ record heap.old {
      procs = heap.new.procs;
      leaves = heap.new.leaves;
      descs = heap.new.descs;
      high = heap.new.high;
    } }
    ensures unchanged { OnErr result ((heap.new ≡ heap.old) × (purse.new ≡ purse.old)) }
    ensures paid { IsPaid heap.old purse.old heap.new purse.new }
    ensures spent { purse.new ≡ spends_leaves purse.old purse.new }
{
    let Some(fd) = lowest_from(heap, procs, place, from) else {
        return Err(Errno::EMFILE);
    };
    share_at(heap, purse, procs, place, fd, desc);
    Ok(fd)
}

// The lowest number of a process at or above one that is free.
fn lowest_from(heap: &KHeap, procs: &ProcTable, place: Place, from: u64) -> Option<u32>
    requires listed { AreListed heap.now procs.now }
    requires there { IsPlaced procs.now place }
    ensures lowest { (numbers : Numbers) (files : Files) → HaveOpen numbers heap.now procs.now files
        → lowest_free_from (descriptors_of files place.pid) from ≡ result }
    ensures free { IfSome result (λ fd. (fd < most_descriptors) × (from ≤ fd) × (named_at heap.now procs.now place.pid fd ≡ None)) }
{
    is_well_formed(heap);
    finding::lowest_from(heap, procs, place, first_from(from))
}

// The number at which a search begins: one above all that a descriptor may have where it would begin there.
fn first_from(from: u64) -> u32
    ensures lowest { (descriptors : Descriptors) → length descriptors ≡ most_descriptors
        → lowest_free_from descriptors result ≡ lowest_free_from descriptors from }
    ensures above { (fd : ℕ) → fd < most_descriptors → result ≤ fd → from ≤ fd }
{
    if from < u64::from(MOST_DESCRIPTORS) {
        from as u32
    } else {
        MOST_DESCRIPTORS
    }
}

/// A number of a process that is free names a description from now on that is open.
pub fn share_at(
    heap: &mut KHeap,
    purse: &mut Purse,
    procs: &ProcTable,
    place: Place,
    fd: u32,
    desc: u32,
)
    requires listed { AreListed heap.old procs.now }
    requires owners { HasItsOwners heap.old [] }
    requires there { IsPlaced procs.now place }
    requires pays { CanPay heap.old purse.old }
    requires left { 0 < purse.old.left.leaf }
    requires used { InUse heap.old.descs desc }
    requires number { fd < most_descriptors }
    requires free { named_at heap.old procs.now place.pid fd ≡ None }
    ensures opened { (numbers : Numbers) (files : Files) → HaveOpen numbers heap.old procs.now files
        → HaveOpen numbers heap.new procs.now
        (with_open files place.pid fd (Some (record { description = numbers.descs desc; cloexec = false }))) }
    ensures nodes { OpensNoNode heap.old.descs → OpensNoNode heap.new.descs }
    ensures listed { AreListed heap.new procs.now }
    ensures owners { HasItsOwners heap.new [] }
    ensures changes { ChangesNumbers heap.old heap.new procs.now place.pid }
    ensures beside { heap.new ≡ record heap.old {
      procs = heap.new.procs;
      leaves = heap.new.leaves;
      descs = heap.new.descs;
      high = heap.new.high;
    } }
    ensures paid { IsPaid heap.old purse.old heap.new purse.new }
    ensures spent { purse.new ≡ spends_leaves purse.old purse.new }
{
    is_well_formed(heap);
    share_desc(heap, desc);
    open_one(
        heap,
        purse,
        procs,
        place,
        fd,
        Descriptor {
            desc,
            close_on_exec: false,
        },
    );
}

// The heap is well formed: each row of its objects is as long as it was reserved.
pub(crate) fn is_well_formed(heap: &KHeap)
    ensures { IsWellFormed heap.now }
{
    let _ = heap.heap();
}
