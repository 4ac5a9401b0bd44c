//! Whether the other side of a FIFO was opened, which an `open` waits for.

ghost use Rattle.std.specs.Prelude.{◌≡◌, ℕ, []};
ghost use Rattle.kheap_slabs.specs.Heap.{Heap};
ghost use Rattle.open_laws.specs.Described.{access_in, counted_in, target_in};
ghost use Rattle.open_laws.specs.Owned.{HasItsOwners};
ghost use Rattle.open_laws.specs.Piped.{ArePiped};
ghost use Rattle.open_laws.specs.Placed.{Numbers};
ghost use Rattle.open_laws.specs.Polled.{IsTargetIn};
ghost use Rattle.posix_defs.specs.Calls.OnFiles.{is_met as plain_is_met, others_opens as plain_others};
ghost use Rattle.posix_defs.specs.Files.Descriptions.{may_write as plain_may_write};
ghost use Rattle.posix_defs.specs.Files.State.{Files};
ghost use Rattle.proc_table.specs.Opening.{half_in};
ghost use Rattle.proc_table.specs.Table.{IsPlaced};
ghost use Rattle.proc_numbers.specs.Having.{AreListed, HaveOpen};

use crate::lookups::opened;
use kheap_slabs::{Access, Desc, HalfOpen, KHeap, Target};
use pipe_ends::pipe_opens;
use proc_table::{Place, ProcTable};

/// Whether the other side of a FIFO was opened since an `open` of a process made its end, whoever is there now.
pub fn is_met(heap: &KHeap, procs: &ProcTable, place: Place, opening: HalfOpen) -> bool
    requires listed { AreListed heap.now procs.now }
    requires owners { HasItsOwners heap.now [] }
    requires there { IsPlaced procs.now place }
    ensures { (numbers : Numbers) (files : Files) → HaveOpen numbers heap.now procs.now files
        → result ≡ plain_is_met files place.pid (half_in opening) }
{
    let on = opened(heap, procs, place, i64::from(opening.fd));
    match on.found {
        Some(found) => opening.seen < others_opens(heap, &found.desc),
        None => false,
    }
}

// How often the other side of the FIFO was opened that a description has an end of.
fn others_opens(heap: &KHeap, desc: &Desc) -> u32
    requires { IsTargetIn heap.now desc.now.target }
    ensures { (numbers : Numbers) (files : Files) → ArePiped numbers heap.now files.pipes
        → result ≡ plain_others files (counted_in numbers desc.now).is (target_in numbers desc.now.target) }
{
    match desc.target {
        Target::Pipe(key) => pipe_opens(heap, key, !may_write(desc.access)),
        Target::Inode(_) | Target::Sock(_) => 0,
    }
}

// Whether what is opened so may be written.
fn may_write(access: Access) -> bool
    ensures { result ≡ plain_may_write (access_in access) }
{
    match access {
        Access::Read => false,
        Access::Write | Access::Both => true,
    }
}
