//! The address space of a process, and the bytes that a call names in it.

ghost use Rattle.std.specs.Prelude.{◌≡◌, ◌+◌, ◌<◌, ◌≤◌, None, length};
ghost use Rattle.kabi_types.specs.Arguments.{count_of, range_fault};
ghost use Rattle.page_space.specs.Contents.{IsOwnedWith, StandsFor as IsMemory};
ghost use Rattle.page_space.specs.Entries.{IsMappedRange};
ghost use Rattle.posix_defs.specs.Memory.{Memory, loaded};
ghost use Rattle.proc_table.specs.Procs.{IsAlive};
ghost use Rattle.proc_table.specs.Table.{IsPlaced, processes};
ghost use Rattle.proc_numbers.specs.Spaces.{HasSpace};
ghost use Rattle.proc_numbers.specs.Standing.{IsKept};

use kheap_slabs::KHeap;
use page_space::Space;
use proc_table::{Place, ProcTable};

/// How many bytes are taken from memory at a time: where a page was never written they are cleared, and the host clears a longer
/// row a byte a step.
const PIECE: usize = 1024;

/// The address space of a process that runs.
pub(crate) fn space_of(heap: &KHeap, procs: &ProcTable, place: Place) -> Space
    requires kept { IsKept heap.now procs.now }
    requires alive { IsAlive (processes heap.now procs.now) place.pid }
    requires there { IsPlaced procs.now place }
    ensures { HasSpace heap.now procs.now place.pid result }
{
    Space::of(procs.at(heap, place).nodes)
}

/// Where a range of so many bytes begins. No bytes lie anywhere, so a range of none begins at 0.
pub(crate) fn start_of(addr: i64, n: u32) -> u32
    requires { range_fault addr n ≡ None }
    ensures within { result + n ≤ 1048576 }
    ensures start { 0 < n → result ≡ count_of addr }
{
    if n == 0 {
        0
    } else {
        addr.cast_unsigned() as u32
    }
}

/// Takes the bytes of memory from an address on, as many as there is room for. Each page that they touch is mapped.
pub(crate) fn fetch(space: &Space, heap: &KHeap, addr: u32, out: &mut [u8])
    requires within { addr + length out.old ≤ 1048576 }
    requires owned { IsOwnedWith heap.now space.now }
    requires mapped { IsMappedRange heap.now.nodes space.now addr (length out.old) }
    ensures { (memory : Memory) → IsMemory heap.now space.now memory → out.new ≡ loaded memory addr (length out.old) }
{
    let mut done = 0;
    while done < out.len() {
        let end = out.len().min(done + PIECE);
        space.copy_out(heap, addr + done as u32, &mut out[done..end]);
        done = end;
    }
}
