//! `ftruncate`.

ghost use Rattle.std.specs.Prelude.{ℕ, []};
ghost use Rattle.kabi_types.specs.Arguments.{count_of};
ghost use Rattle.kabi_types.specs.declared.scripts.Script.{Script};
ghost use Rattle.memfs_ops.specs.Fetching.{MayFetch};
ghost use Rattle.memfs_ops.specs.FileTree.{Pays};
ghost use Rattle.open_laws.specs.Owned.{HasItsOwners};
ghost use Rattle.open_laws.specs.Placed.{Numbers};
ghost use Rattle.posix_defs.specs.Calls.OnFiles.{ftruncate};
ghost use Rattle.posix_defs.specs.Plain.{Plain};
ghost use Rattle.proc_table.specs.Table.{IsPlaced};
ghost use Rattle.proc_numbers.specs.Found.{IsOpened};
ghost use Rattle.proc_numbers.specs.Having.{AreListed};
ghost use Rattle.proc_numbers.specs.Answering.{zero_of};
ghost use Rattle.proc_files.specs.Answering.{AnswersHolding, StaysOffNodes};
ghost use Rattle.proc_files.specs.Holding.{HoldFiles, HoldSome};

use crate::nodes::is_directory;
use kabi_types::Errno;
use kheap_slabs::{KHeap, Purse, Target};
use memfs_ops::FileTree;
use proc_numbers::{Named, count_of};
use proc_table::{Place, ProcTable};

/// The file that a number is open on gets another size; what it grows by is zeros.
///
/// EBADF where the number isn't open, EINVAL of all but a file, EBADF where it isn't open for writing, EFBIG of a size above the
/// greatest one, ENOSPC where there is no room; nothing is changed then.
///
/// <https://pubs.opengroup.org/onlinepubs/9699919799/functions/ftruncate.html>
pub fn size_number(
    heap: &mut KHeap,
    purse: &mut Purse,
    procs: &ProcTable,
    tree: &mut FileTree,
    place: Place,
    on: &Named,
    size: i64,
) -> Result<(), Errno>
    requires listed { AreListed heap.old procs.now }
    requires owners { HasItsOwners heap.old [] }
    requires there { IsPlaced procs.now place }
    requires opened { IsOpened heap.old procs.now place.pid on.now }
    requires hold { HoldSome heap.old procs.now tree.old }
    requires may { MayFetch heap.old purse.old }
    ensures answers { (numbers : Numbers) (others : ℕ → ℕ) (script : Script) (plain : Plain)
        → HoldFiles numbers others heap.old procs.now tree.old plain.files
        → AnswersHolding numbers others heap.new procs.now tree.new script plain place.pid (ftruncate script plain place.pid on.now.fd size) (zero_of result) }
    ensures listed { AreListed heap.new procs.now }
    ensures owners { HasItsOwners heap.new [] }
    ensures hold { HoldSome heap.new procs.now tree.new }
    ensures pays { Pays heap.old heap.new purse.old purse.new tree.old tree.new }
    ensures stays { StaysOffNodes heap.old procs.now place.pid on.now.fd tree.old tree.new }
{
    let Some(found) = on.found else {
        return Err(Errno::EBADF);
    };
    let Target::Inode(node) = found.desc.target else {
        return Err(Errno::EINVAL);
    };
    let info = tree.stat_node(heap, node);
    if is_directory(&info) {
        return Err(Errno::EINVAL);
    }
    if !found.is_writable() {
        return Err(Errno::EBADF);
    }
    tree.size_node(heap, purse, node, count_of(size))
}
