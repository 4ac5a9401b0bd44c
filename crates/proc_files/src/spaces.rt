//! The bytes of a process's memory that a call names.

ghost use Rattle.std.specs.Prelude.{◌≡◌, ◌==◌, ◌+◌, ◌<◌, ◌≤◌, IfSome, None, is_some};
ghost use Rattle.kabi_types.specs.Arguments.{count_of, range_fault};
ghost use Rattle.proc_table.specs.Procs.{IsAlive};
ghost use Rattle.proc_table.specs.Table.{IsPlaced, processes};
ghost use Rattle.proc_numbers.specs.Spaces.{HasSpace};
ghost use Rattle.proc_numbers.specs.Standing.{IsKept};
ghost use Rattle.proc_files.specs.Reading.{HasRange, TellsMapped};

use kheap_slabs::KHeap;
use page_space::Space;
use proc_numbers::count_of;
use proc_table::{Place, ProcTable};

/// The most bytes that one call moves.
pub const MOST_MOVED: usize = 32767;

/// Room for the bytes of a file that one call moves. It is reserved once and lent to each call.
pub type FileBuffer = [u8; MOST_MOVED];

/// Bytes of a process's memory.
#[derive(Drop)]
pub(crate) struct Range {
    /// The address space of the process.
    pub space: Space,
    /// Where the bytes begin.
    pub start: u32,
    /// How many there are.
    pub count: u32,
}

impl Range {
    /// Whether there are none.
    pub fn is_empty(&self) -> bool
        ensures { result ≡ (self.now.count == 0) }
    {
        self.count == 0
    }
}

/// So many bytes of a process's memory from an address on; None, which is EFAULT, where a page that they touch isn't mapped.
pub(crate) fn range_of(
    heap: &KHeap,
    procs: &ProcTable,
    place: Place,
    addr: i64,
    n: i64,
) -> Option<Range>
    requires kept { IsKept heap.now procs.now }
    requires alive { IsAlive (processes heap.now procs.now) place.pid }
    requires there { IsPlaced procs.now place }
    requires right { range_fault addr (count_of n) ≡ None }
    requires few { count_of n ≤ 32767 }
    ensures tells { TellsMapped heap.now procs.now place.pid addr (count_of n) (is_some result) }
    ensures range { IfSome result (λ range. HasRange heap.now procs.now place.pid addr (count_of n) range.space range.start range.count) }
{
    let count = count_of(n) as u32;
    let start = start_of(addr, count);
    let space = space_of(heap, procs, place);
    if space.mapped(heap, start, count) {
        Some(Range {
            space,
            start,
            count,
        })
    } else {
        None
    }
}

// The address space of a process that runs.
fn space_of(heap: &KHeap, procs: &ProcTable, place: Place) -> Space
    requires kept { IsKept heap.now procs.now }
    requires alive { IsAlive (processes heap.now procs.now) place.pid }
    requires there { IsPlaced procs.now place }
    ensures { HasSpace heap.now procs.now place.pid result }
{
    Space::of(procs.at(heap, place).nodes)
}

// Where a range of so many bytes begins. No bytes lie anywhere, so a range of none begins at 0.
fn start_of(addr: i64, n: u32) -> u32
    requires { range_fault addr n ≡ None }
    ensures within { result + n ≤ 1048576 }
    ensures start { 0 < n → result ≡ count_of addr }
{
    if n == 0 {
        0
    } else {
        addr.cast_unsigned() as u32
    }
}
