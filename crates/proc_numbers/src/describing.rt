//! A description of a socket, and a number that names it.

ghost use Rattle.std.specs.Prelude.{◌≡◌, ◌-◌, ◌<◌, ℕ, List, [], ◌∷◌, None, false};
ghost use Rattle.kabi_types.specs.declared.classes.Class.TheVariants as class;
ghost use Rattle.kabi_types.specs.Counts.{with_count};
ghost use Rattle.kheap_slabs.specs.Objects.{object, put};
ghost use Rattle.kheap_slabs.specs.Paid.{CanPay, IsPaid};
ghost use Rattle.open_laws.specs.Owned.{CountsItsNames, HasItsOwners};
ghost use Rattle.open_laws.specs.Placed.{Numbers};
ghost use Rattle.posix_defs.specs.Calls.OnSockets.{description_of};
ghost use Rattle.posix_defs.specs.Files.State.{Files, opened_as};
ghost use Rattle.kabi_types.specs.Arguments.{most_descriptors};
ghost use Rattle.proc_table.specs.Table.{IsPlaced, TableView};
ghost use Rattle.proc_numbers.specs.Having.{AreListed, HaveOpen, OpensNoNode};
ghost use Rattle.proc_numbers.specs.Naming.{ChangesNumbers, has_room, named_at};
ghost use Rattle.proc_numbers.specs.Queues.{QueuesStand};
ghost use Rattle.proc_numbers.specs.SocketOpening.{OpensMore, described_more, with_desc};
ghost use Rattle.proc_numbers.specs.Owning.{HasOwnersBut, desc_on};

use crate::opening::open_one;
use kabi_types::Class;
use kheap_slabs::{Access, Desc, DescFlags, Descriptor, KHeap, Purse, Target};
use proc_table::{Place, ProcTable};

// A number of a process that is free names from now on a new description of a socket that none was open on.
pub(crate) fn open_on(
    heap: &mut KHeap,
    purse: &mut Purse,
    procs: &ProcTable,
    place: Place,
    fd: u32,
    sock: u32,
)
    requires listed { AreListed heap.old procs.now }
    requires there { IsPlaced procs.now place }
    requires named { CountsItsNames heap.old [] }
    requires number { fd < most_descriptors }
    requires free { named_at heap.old procs.now place.pid fd ≡ None }
    requires pays { CanPay heap.old purse.old }
    requires left { 0 < purse.old.left.desc }
    requires left_leaf { has_room heap.old procs.now place.pid fd ≡ false → 0 < purse.old.left.leaf }
    ensures opened { (numbers : Numbers) (files : Files) → HaveOpen numbers heap.old procs.now files
        → OpensMore numbers heap.old heap.new procs.now files
        (opened_as files place.pid fd false (description_of (numbers.socks sock))) }
    ensures owners { HasOwnersBut heap.old [] (sock ∷ []) → HasItsOwners heap.new [] }
    ensures nodes { OpensNoNode heap.old.descs → OpensNoNode heap.new.descs }
    ensures listed { AreListed heap.new procs.now }
    ensures changes { ChangesNumbers heap.old heap.new procs.now place.pid }
    ensures socks { heap.new.socks ≡ heap.old.socks }
    ensures queues { QueuesStand heap.old heap.new }
    ensures paid { IsPaid heap.old purse.old heap.new purse.new }
    ensures pays { CanPay heap.new purse.new }
    ensures spent { purse.new
        ≡ record purse.old { left = with_count (with_count purse.old.left class.Desc (purse.old.left.desc - 1)) class.Leaf purse.new.left.leaf } }
{
    let desc = describe(heap, purse, sock);
    open_one(
        heap,
        purse,
        procs,
        place,
        fd,
        Descriptor {
            desc,
            close_on_exec: false,
        },
    );
}

// A new description of a socket that none was open on, and that one descriptor in hand names. Its key.
pub(crate) fn describe(heap: &mut KHeap, purse: &mut Purse, sock: u32) -> u32
    requires pays { CanPay heap.old purse.old }
    requires left { 0 < purse.old.left.desc }
    ensures opened { (numbers : Numbers) (files : Files) (kept : TableView) (hand : List ℕ) → AreListed heap.old kept
        → CountsItsNames heap.old hand → HaveOpen numbers heap.old kept files
        → HaveOpen (with_desc numbers files result) heap.new kept (described_more files (numbers.socks sock)) }
    ensures owners { (hand : List ℕ) (loose : List ℕ) → HasOwnersBut heap.old hand (sock ∷ loose)
        → HasOwnersBut heap.new (result ∷ hand) loose }
    ensures nodes { OpensNoNode heap.old.descs → OpensNoNode heap.new.descs }
    ensures vacant { object heap.old.descs result ≡ None }
    ensures kept { heap.new
        ≡ record heap.old { descs = put heap.old.descs result (desc_on sock); high = heap.new.high } }
    ensures paid { IsPaid heap.old purse.old heap.new purse.new }
    ensures pays { CanPay heap.new purse.new }
    ensures spent { purse.new
        ≡ record purse.old { left = with_count purse.old.left class.Desc (purse.old.left.desc - 1) } }
{
    purse.spend(Class::Desc);
    heap.insert_desc(Desc {
        target: Target::Sock(sock),
        offset: 0,
        access: Access::Both,
        flags: DescFlags {
            append: false,
            nonblock: false,
        },
        count: 1,
    })
}
