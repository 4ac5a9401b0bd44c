//! Where processes work.

ghost use Rattle.std.specs.Prelude.{◌≡◌, ℕ};
ghost use Rattle.proc_table.specs.Table.{IsPlaced};
ghost use Rattle.proc_numbers.specs.Having.{AreListed};
ghost use Rattle.proc_files.specs.NameHolding.{WorksAt};

use kheap_slabs::KHeap;
use proc_table::{Place, ProcTable};

/// The working directory of a process that is there.
pub(crate) fn directory_of(heap: &KHeap, procs: &ProcTable, place: Place) -> u32
    requires listed { AreListed heap.now procs.now }
    requires there { IsPlaced procs.now place }
    ensures { (directory : ℕ) → WorksAt heap.now procs.now place.pid directory → result ≡ directory }
{
    procs.at(heap, place).cwd
}
