ghost use Rattle.std.specs.Prelude.{◌≡◌, ◌-◌, ◌<◌, None};
ghost use Rattle.kabi_types.specs.declared.classes.Class.TheVariants as class;
ghost use Rattle.kabi_types.specs.Counts.{with_count};
ghost use Rattle.kheap_slabs.specs.Objects.{object};
ghost use Rattle.kheap_slabs.specs.Owners.{OwnsItsObjects};
ghost use Rattle.kheap_slabs.specs.Paid.{CanPay, IsPaid};
ghost use Rattle.posix_defs.specs.Pipe.{new_pipe};
ghost use Rattle.pipe_ends.specs.Links.{KeepsLinks};
ghost use Rattle.pipe_ends.specs.Standing.{StandsFor, LeavesOthers};

use kabi_types::Class;
use kheap_slabs::{KHeap, Pipe, Purse, QueueParts};

/// A pipe with both ends and no bytes. Its key.
pub fn pipe_make(heap: &mut KHeap, purse: &mut Purse) -> u32
    requires owned { OwnsItsObjects heap.old }
    requires pays { CanPay heap.old purse.old }
    requires left { 0 < purse.old.left.pipe }
    ensures vacant { object heap.old.pipes result ≡ None }
    ensures stands { StandsFor heap.new result new_pipe 0 }
    ensures owned { OwnsItsObjects heap.new }
    ensures others { LeavesOthers heap.old heap.new result }
    ensures links { KeepsLinks heap.old heap.new }
    ensures chunks { heap.new.chunks ≡ heap.old.chunks }
    ensures paid { IsPaid heap.old purse.old heap.new purse.new }
    ensures pays { CanPay heap.new purse.new }
    ensures spent { purse.new
        ≡ record purse.old { left = with_count purse.old.left class.Pipe (purse.old.left.pipe - 1) } }
{
    purse.spend(Class::Pipe);
    heap.insert_pipe(Pipe {
        queue: QueueParts {
            first: None,
            last: None,
            place: 0,
            len: 0,
        },
        readers: 1,
        writers: 1,
        node: 0,
        read_opens: 0,
        write_opens: 0,
        next: None,
    })
}
