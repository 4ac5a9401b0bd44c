//! `pipe`.

ghost use Rattle.std.specs.Prelude.{◌≡◌, ◌-◌, ◌<◌, ◌≤◌, [], None, OnErr, OnOk, length};
ghost use Rattle.kabi_types.specs.declared.scripts.Script.{Script};
ghost use Rattle.kabi_types.specs.declared.classes.Class.TheVariants as class;
ghost use Rattle.kabi_types.specs.Counts.{with_count};
ghost use Rattle.kheap_slabs.specs.Objects.{object, put};
ghost use Rattle.kheap_slabs.specs.Owners.{OwnsItsObjects};
ghost use Rattle.kheap_slabs.specs.Paid.{CanPay, IsPaid};
ghost use Rattle.open_laws.specs.Owned.{HasItsOwners};
ghost use Rattle.open_laws.specs.Placed.{Numbers};
ghost use Rattle.pipe_ends.specs.Links.{KeepsLinks};
ghost use Rattle.posix_defs.specs.Calls.OnPipes.{pipe};
ghost use Rattle.posix_defs.specs.Plain.{Plain};
ghost use Rattle.proc_table.specs.Table.{IsPlaced};
ghost use Rattle.proc_numbers.specs.Having.{AreListed, HaveOpen, OpensNoNode};
ghost use Rattle.proc_numbers.specs.Naming.{ChangesNumbers};
ghost use Rattle.proc_numbers.specs.Queues.{QueuesStand};
ghost use Rattle.proc_numbers.specs.Answering.{pair_of};
ghost use Rattle.proc_numbers.specs.PipeOpening.{AnswersAnew, PipeOpens, end_of};

use crate::closing::is_well_formed;
use crate::finding::lowest_from;
use crate::opening::open_one;
use kabi_types::{Class, Errno};
use kheap_slabs::{Access, Desc, DescFlags, Descriptor, KHeap, Purse, Target};
use pipe_ends::pipe_make;
use proc_table::{Place, ProcTable};

/// A new pipe: the lowest number of a process that is free names its read end, and the next one its write end. Both numbers.
///
/// EMFILE where fewer than two numbers are free; nothing is changed then.
///
/// <https://pubs.opengroup.org/onlinepubs/9699919799/functions/pipe.html>
pub fn make_pipe(
    heap: &mut KHeap,
    purse: &mut Purse,
    procs: &ProcTable,
    place: Place,
) -> Result<(u32, u32), Errno>
    requires listed { AreListed heap.old procs.now }
    requires owners { HasItsOwners heap.old [] }
    requires there { IsPlaced procs.now place }
    requires pays { CanPay heap.old purse.old }
    requires left_pipe { 0 < purse.old.left.pipe }
    requires left_descs { 2 ≤ purse.old.left.desc }
    requires left_leaf { 0 < purse.old.left.leaf }
    ensures answers { (numbers : Numbers) (script : Script) (plain : Plain) → HaveOpen numbers heap.old procs.now plain.files
        → AnswersAnew numbers heap.old heap.new procs.now script plain place.pid (pipe script plain place.pid) (pair_of result) }
    ensures nodes { OpensNoNode heap.old.descs → OpensNoNode heap.new.descs }
    ensures listed { AreListed heap.new procs.now }
    ensures owners { HasItsOwners heap.new [] }
    ensures changes { ChangesNumbers heap.old heap.new procs.now place.pid }
    ensures queues { QueuesStand heap.old heap.new }
    ensures sockets { heap.new.socks ≡ heap.old.socks }
    ensures unchanged { OnErr result ((heap.new ≡ heap.old) × (purse.new ≡ purse.old)) }
    ensures paid { IsPaid heap.old purse.old heap.new purse.new }
    ensures pays { CanPay heap.new purse.new }
    ensures spent { OnOk result (purse.new ≡ record purse.old {
      left = with_count (with_count (with_count purse.old.left class.Pipe (purse.old.left.pipe - 1)) class.Desc (purse.old.left.desc - 2)) class.Leaf purse.new.left.leaf;
    }) }
{
    let lowest = lowest_from(heap, procs, place, 0);
    let Some(first) = lowest else {
        return Err(Errno::EMFILE);
    };
    let next = lowest_from(heap, procs, place, first + 1);
    let Some(second) = next else {
        return Err(Errno::EMFILE);
    };
    let ends = open_ends(heap, purse);
    is_well_formed(heap);
    let reading = Descriptor {
        desc: ends.reading,
        close_on_exec: false,
    };
    let writing = Descriptor {
        desc: ends.writing,
        close_on_exec: false,
    };
    open_one(heap, purse, procs, place, first, reading);
    open_one(heap, purse, procs, place, second, writing);
    Ok((first, second))
}

// The keys of a pipe and of the descriptions of its ends.
#[derive(Clone, Copy)]
struct Ends {
    pipe: u32,
    reading: u32,
    writing: u32,
}

// A new pipe, and a description of each of its ends, which no descriptor names yet.
fn open_ends(heap: &mut KHeap, purse: &mut Purse) -> Ends
    requires owned { OwnsItsObjects heap.old }
    requires pays { CanPay heap.old purse.old }
    requires left_pipe { 0 < purse.old.left.pipe }
    requires left_descs { 2 ≤ purse.old.left.desc }
    ensures opens { PipeOpens heap.old heap.new result.pipe result.reading result.writing }
    ensures links { KeepsLinks heap.old heap.new }
    ensures paid { IsPaid heap.old purse.old heap.new purse.new }
    ensures pays { CanPay heap.new purse.new }
    ensures spent { purse.new ≡ record purse.old {
      left = with_count (with_count purse.old.left class.Pipe (purse.old.left.pipe - 1)) class.Desc (purse.old.left.desc - 2);
    } }
{
    let pipe = pipe_make(heap, purse);
    let reading = describe(heap, purse, pipe, Access::Read);
    let writing = describe(heap, purse, pipe, Access::Write);
    Ends {
        pipe,
        reading,
        writing,
    }
}

// A new description of an end of a pipe. Its key.
fn describe(heap: &mut KHeap, purse: &mut Purse, pipe: u32, access: Access) -> u32
    requires pays { CanPay heap.old purse.old }
    requires left { 0 < purse.old.left.desc }
    ensures vacant { object heap.old.descs result ≡ None }
    ensures within { result < length heap.old.descs }
    ensures kept { heap.new
        ≡ record heap.old { descs = put heap.old.descs result (end_of pipe access); high = heap.new.high } }
    ensures paid { IsPaid heap.old purse.old heap.new purse.new }
    ensures pays { CanPay heap.new purse.new }
    ensures spent { purse.new
        ≡ record purse.old { left = with_count purse.old.left class.Desc (purse.old.left.desc - 1) } }
{
    purse.spend(Class::Desc);
    heap.insert_desc(Desc {
        target: Target::Pipe(pipe),
        offset: 0,
        access,
        flags: DescFlags {
            append: false,
            nonblock: false,
        },
        count: 1,
    })
}
