//! `dup2`.

ghost use Rattle.std.specs.Prelude.{◌≡◌, ◌<◌, ◌≤◌, ℕ, [], None, OnErr, length};
ghost use Rattle.fifo_nodes.specs.Chain.{IsChain};
ghost use Rattle.kabi_types.specs.declared.scripts.Script.{Script};
ghost use Rattle.kheap_slabs.specs.Paid.{CanPay};
ghost use Rattle.desc_table.specs.Copying.{spends_leaves};
ghost use Rattle.lock_table.specs.Chain.{IsLockTable};
ghost use Rattle.open_laws.specs.Owned.{HasItsOwners};
ghost use Rattle.open_laws.specs.Placed.{Numbers};
ghost use Rattle.posix_defs.specs.Calls.OnDescriptors.{dup2};
ghost use Rattle.posix_defs.specs.Plain.{Plain};
ghost use Rattle.proc_table.specs.Table.{IsPlaced};
ghost use Rattle.proc_numbers.specs.Found.{IsOpened};
ghost use Rattle.proc_numbers.specs.Having.{AreListed};
ghost use Rattle.proc_numbers.specs.Queues.{QueuesStand};
ghost use Rattle.proc_numbers.specs.Answering.{node_replaced, value_of};
ghost use Rattle.proc_files.specs.Closing.{ChangesHolding, MayClose, PaysInTurn};
ghost use Rattle.proc_files.specs.NameAnswering.{AnswersClosing};
ghost use Rattle.proc_files.specs.NameHolding.{HoldNames, HoldSomeNames};

use crate::closing::close_at;
use crate::nodes::is_well_formed;
use bound_table::BoundTable;
use fifo_nodes::FifoTable;
use kabi_types::Errno;
use kheap_slabs::{KHeap, Purse};
use lock_table::LockTable;
use memfs_ops::FileTree;
use proc_numbers::{Named, count_of, may_be_descriptor, share_at};
use proc_table::{Place, ProcTable};

/// A number of a process names the same description as another, and what it named before is closed, whatever that was open on.
/// The number. Where both are the same number nothing is changed.
///
/// The purse pays for the Leaf of the number, where that isn't there, and what is kept back for closings for the blocks that a close
/// asks for, and is then as it was. EBADF where the other isn't open, or where a descriptor can't have the number; nothing is
/// changed then.
///
/// <https://pubs.opengroup.org/onlinepubs/9699919799/functions/dup.html>
pub fn dup_number(
    heap: &mut KHeap,
    purse: &mut Purse,
    back: &mut Purse,
    procs: &ProcTable,
    tree: &mut FileTree,
    names: &mut BoundTable,
    fifos: &mut FifoTable,
    locks: &mut LockTable,
    place: Place,
    on: &Named,
    to: i64,
) -> Result<u32, Errno>
    requires listed { AreListed heap.old procs.now }
    requires owners { HasItsOwners heap.old [] }
    requires chain { IsChain heap.old fifos.old }
    requires locked { IsLockTable heap.old.locks locks.old }
    requires there { IsPlaced procs.now place }
    requires opened { IsOpened heap.old procs.now place.pid on.now }
    requires hold { HoldSomeNames heap.old procs.now tree.old names.old }
    requires pays { CanPay heap.old purse.old }
    requires left { 0 < purse.old.left.leaf }
    requires may { MayClose heap.old back.old }
    ensures answers { (numbers : Numbers) (others : ℕ → ℕ) (script : Script) (plain : Plain)
        → HoldNames numbers others heap.old procs.now tree.old names.old plain.files
        → AnswersClosing numbers others heap.old heap.new locks.old locks.new procs.now tree.new names.new script plain place.pid
        (dup2 script plain place.pid on.now.fd to) (value_of result) }
    ensures listed { AreListed heap.new procs.now }
    ensures owners { HasItsOwners heap.new [] }
    ensures chain { IsChain heap.new fifos.new }
    ensures locked { IsLockTable heap.new.locks locks.new }
    ensures hold { HoldSomeNames heap.new procs.now tree.new names.new }
    ensures changes { ChangesHolding heap.old heap.new procs.now place.pid }
    ensures places { length names.new ≡ length names.old }
    ensures queues { QueuesStand heap.old heap.new }
    ensures unchanged { OnErr result ((heap.new ≡ heap.old) × (tree.new ≡ tree.old) × (names.new ≡ names.old)) }
    ensures spent { purse.new ≡ spends_leaves purse.old purse.new }
    ensures same { back.new ≡ back.old }
    ensures paid { PaysInTurn heap.old back.old purse.old heap.new purse.new }
    ensures reads { tree.old.disk.reads ≤ tree.new.disk.reads }
    ensures stays { node_replaced heap.old procs.now place.pid on.now.fd to ≡ None → tree.new ≡ tree.old }
{
    let Some(found) = on.found else {
        return Err(Errno::EBADF);
    };
    if !may_be_descriptor(to) {
        return Err(Errno::EBADF);
    }
    let number = count_of(to) as u32;
    if found.number == number {
        return Ok(number);
    }
    is_well_formed(heap);
    close_at(heap, back, procs, tree, names, fifos, locks, place, number);
    share_at(heap, purse, procs, place, number, found.key);
    Ok(number)
}
