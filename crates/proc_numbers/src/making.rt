//! `socket` and `socketpair`.

ghost use Rattle.std.specs.Prelude.{◌≡◌, ◌-◌, ◌<◌, ◌≤◌, [], ◌∷◌, OnErr, OnOk};
ghost use Rattle.kabi_types.specs.declared.scripts.Script.{Script};
ghost use Rattle.kabi_types.specs.declared.classes.Class.TheVariants as class;
ghost use Rattle.kabi_types.specs.Counts.{with_count};
ghost use Rattle.kheap_slabs.specs.Paid.{CanPay, IsPaid};
ghost use Rattle.open_laws.specs.Owned.{HasItsOwners};
ghost use Rattle.open_laws.specs.Placed.{Numbers};
ghost use Rattle.posix_defs.specs.Calls.OnSockets.{socket, socketpair};
ghost use Rattle.posix_defs.specs.Files.State.{Files};
ghost use Rattle.posix_defs.specs.Plain.{Plain};
ghost use Rattle.proc_table.specs.Table.{IsPlaced, TableView};
ghost use Rattle.proc_numbers.specs.Having.{AreListed, HaveOpen, OpensNoNode};
ghost use Rattle.proc_numbers.specs.Naming.{ChangesNumbers};
ghost use Rattle.proc_numbers.specs.Queues.{QueuesStand};
ghost use Rattle.proc_numbers.specs.Answering.{pair_of, value_of};
ghost use Rattle.proc_numbers.specs.PipeOpening.{AnswersAnew};
ghost use Rattle.proc_numbers.specs.SocketOpening.{OpensBoth, StillUsed};

use crate::closing::is_well_formed;
use crate::describing::{describe, open_on};
use crate::finding::lowest_from;
use crate::opening::open_one;
use kabi_types::Errno;
use kheap_slabs::{Descriptor, KHeap, Purse};
use proc_table::{Place, ProcTable};
use usock_core::{sock_make, sock_pair};

/// A new socket, which the lowest number of a process that is free names. That number.
///
/// EMFILE where no number is free; nothing is changed then.
///
/// <https://pubs.opengroup.org/onlinepubs/9699919799/functions/socket.html>
pub fn make_socket(
    heap: &mut KHeap,
    purse: &mut Purse,
    procs: &ProcTable,
    place: Place,
) -> Result<u32, Errno>
    requires listed { AreListed heap.old procs.now }
    requires owners { HasItsOwners heap.old [] }
    requires there { IsPlaced procs.now place }
    requires pays { CanPay heap.old purse.old }
    requires left_sock { 0 < purse.old.left.sock }
    requires left_desc { 0 < purse.old.left.desc }
    requires left_leaf { 0 < purse.old.left.leaf }
    ensures answers { (numbers : Numbers) (script : Script) (plain : Plain) → HaveOpen numbers heap.old procs.now plain.files
        → AnswersAnew numbers heap.old heap.new procs.now script plain place.pid (socket script plain place.pid) (value_of result) }
    ensures nodes { OpensNoNode heap.old.descs → OpensNoNode heap.new.descs }
    ensures listed { AreListed heap.new procs.now }
    ensures owners { HasItsOwners heap.new [] }
    ensures changes { ChangesNumbers heap.old heap.new procs.now place.pid }
    ensures still { StillUsed heap.old heap.new }
    ensures queues { QueuesStand heap.old heap.new }
    ensures unchanged { OnErr result ((heap.new ≡ heap.old) × (purse.new ≡ purse.old)) }
    ensures paid { IsPaid heap.old purse.old heap.new purse.new }
    ensures pays { CanPay heap.new purse.new }
    ensures spent { OnOk result (purse.new ≡ record purse.old {
      left = with_count (with_count (with_count purse.old.left class.Sock (purse.old.left.sock - 1)) class.Desc (purse.old.left.desc - 1)) class.Leaf purse.new.left.leaf;
    }) }
{
    let Some(number) = lowest_from(heap, procs, place, 0) else {
        return Err(Errno::EMFILE);
    };
    let made = sock_make(heap, purse);
    open_on(heap, purse, procs, place, number, made);
    Ok(number)
}

/// Two new sockets that are connected to each other: the lowest number of a process that is free names the one, and the next
/// one the other. Both numbers.
///
/// EMFILE where fewer than two numbers are free; nothing is changed then.
///
/// <https://pubs.opengroup.org/onlinepubs/9699919799/functions/socketpair.html>
pub fn make_pair(
    heap: &mut KHeap,
    purse: &mut Purse,
    procs: &ProcTable,
    place: Place,
) -> Result<(u32, u32), Errno>
    requires listed { AreListed heap.old procs.now }
    requires owners { HasItsOwners heap.old [] }
    requires there { IsPlaced procs.now place }
    requires pays { CanPay heap.old purse.old }
    requires left_socks { 2 ≤ purse.old.left.sock }
    requires left_descs { 2 ≤ purse.old.left.desc }
    requires left_leaf { 0 < purse.old.left.leaf }
    ensures answers { (numbers : Numbers) (script : Script) (plain : Plain) → HaveOpen numbers heap.old procs.now plain.files
        → AnswersAnew numbers heap.old heap.new procs.now script plain place.pid (socketpair script plain place.pid) (pair_of result) }
    ensures nodes { OpensNoNode heap.old.descs → OpensNoNode heap.new.descs }
    ensures listed { AreListed heap.new procs.now }
    ensures owners { HasItsOwners heap.new [] }
    ensures changes { ChangesNumbers heap.old heap.new procs.now place.pid }
    ensures still { StillUsed heap.old heap.new }
    ensures queues { QueuesStand heap.old heap.new }
    ensures unchanged { OnErr result ((heap.new ≡ heap.old) × (purse.new ≡ purse.old)) }
    ensures paid { IsPaid heap.old purse.old heap.new purse.new }
    ensures pays { CanPay heap.new purse.new }
    ensures spent { OnOk result (purse.new ≡ record purse.old {
      left = with_count (with_count (with_count purse.old.left class.Sock (purse.old.left.sock - 2)) class.Desc (purse.old.left.desc - 2)) class.Leaf purse.new.left.leaf;
    }) }
{
    let lowest = lowest_from(heap, procs, place, 0);
    let Some(first) = lowest else {
        return Err(Errno::EMFILE);
    };
    let next = lowest_from(heap, procs, place, first + 1);
    let Some(second) = next else {
        return Err(Errno::EMFILE);
    };
    let ends = open_both(heap, purse);
    is_well_formed(heap);
    let on_one = Descriptor {
        desc: ends.one,
        close_on_exec: false,
    };
    let on_other = Descriptor {
        desc: ends.other,
        close_on_exec: false,
    };
    open_one(heap, purse, procs, place, first, on_one);
    open_one(heap, purse, procs, place, second, on_other);
    Ok((first, second))
}

// The keys of the descriptions of two sockets.
#[derive(Clone, Copy)]
struct Ends {
    one: u32,
    other: u32,
}

// Two new sockets that are connected to each other, and a description of each, which one descriptor in hand names.
fn open_both(heap: &mut KHeap, purse: &mut Purse) -> Ends
    requires owners { HasItsOwners heap.old [] }
    requires pays { CanPay heap.old purse.old }
    requires left_socks { 2 ≤ purse.old.left.sock }
    requires left_descs { 2 ≤ purse.old.left.desc }
    ensures opened { (numbers : Numbers) (files : Files) (kept : TableView) → AreListed heap.old kept
        → HaveOpen numbers heap.old kept files
        → OpensBoth numbers heap.old heap.new kept files result.one result.other }
    ensures owners { HasItsOwners heap.new (result.one ∷ result.other ∷ []) }
    ensures still { StillUsed heap.old heap.new }
    ensures nodes { OpensNoNode heap.old.descs → OpensNoNode heap.new.descs }
    ensures kept { heap.new ≡ record heap.old {
      descs = heap.new.descs;
      chunks = heap.new.chunks;
      socks = heap.new.socks;
      high = heap.new.high;
    } }
    ensures queues { QueuesStand heap.old heap.new }
    ensures paid { IsPaid heap.old purse.old heap.new purse.new }
    ensures pays { CanPay heap.new purse.new }
    ensures spent { purse.new ≡ record purse.old {
      left = with_count (with_count purse.old.left class.Sock (purse.old.left.sock - 2)) class.Desc (purse.old.left.desc - 2);
    } }
{
    let (one, other) = sock_pair(heap, purse);
    let on_one = describe(heap, purse, one);
    let on_other = describe(heap, purse, other);
    Ends {
        one: on_one,
        other: on_other,
    }
}
