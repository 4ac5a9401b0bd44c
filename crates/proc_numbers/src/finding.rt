//! The socket that a number is open on, and which number is free.

ghost use Rattle.std.specs.Prelude.{◌≡◌, ◌<◌, ◌≤◌, ℕ, [], IfOk, IfSome, None};
ghost use Rattle.std.specs.List.{Contains};
ghost use Rattle.kabi_types.specs.declared.scripts.Script.{Script};
ghost use Rattle.kheap_slabs.specs.Heap.{Heap};
ghost use Rattle.open_laws.specs.Owned.{socks_named};
ghost use Rattle.open_laws.specs.Placed.{Numbers};
ghost use Rattle.posix_defs.specs.Answer.{Answer};
ghost use Rattle.posix_defs.specs.Calls.Opened.{Opened};
ghost use Rattle.posix_defs.specs.Files.Descriptors.{lowest_free_from};
ghost use Rattle.posix_defs.specs.Files.State.{Files, descriptors_of};
ghost use Rattle.posix_defs.specs.Plain.{Plain};
ghost use Rattle.kabi_types.specs.Arguments.{most_descriptors};
ghost use Rattle.proc_table.specs.Table.{IsPlaced, TableView};
ghost use Rattle.proc_numbers.specs.Found.{IsOpened};
ghost use Rattle.proc_numbers.specs.Having.{AreListed, HaveOpen};
ghost use Rattle.proc_numbers.specs.Naming.{AreOpenBelow, named_at};
ghost use Rattle.proc_numbers.specs.Finding.{FindsSocket};

use crate::closing::is_well_formed;
use crate::lookups::Named;
use desc_table::lowest_of;
use kabi_types::Errno;
use kheap_slabs::{KHeap, Target};
use proc_table::{Place, ProcTable};

/// The socket that a number of a process is open on.
#[derive(Clone, Copy)]
pub struct OpenSocket {
    /// The key of the socket.
    pub key: u32,
    /// Whether a call by this number that would have to wait fails (O_NONBLOCK).
    pub nonblock: bool,
}

impl Named {
    /// The socket that it is open on.
    ///
    /// EBADF where the number isn't open, ENOTSOCK where it is open on something else.
    pub fn socket(&self) -> Result<OpenSocket, Errno>
        ensures found { (h : Heap) (kept : TableView) (pid : ℕ) (numbers : Numbers) (script : Script) (plain : Plain) (answer : Opened → ℕ → Answer)
            → IsOpened h kept pid self.now → HaveOpen numbers h kept plain.files
            → FindsSocket numbers script plain pid self.now.fd answer result }
        ensures there { (h : Heap) (kept : TableView) (pid : ℕ) → IsOpened h kept pid self.now
            → IfOk result (λ found. Contains (socks_named h.descs) found.key) }
    {
        let Some(found) = self.found else {
            return Err(Errno::EBADF);
        };
        let Target::Sock(key) = found.desc.target else {
            return Err(Errno::ENOTSOCK);
        };
        Ok(OpenSocket {
            key,
            nonblock: found.desc.flags.nonblock,
        })
    }
}

/// The lowest number of a process at or above one that is free; None where all from there to 127 are open.
pub fn lowest_from(heap: &KHeap, procs: &ProcTable, place: Place, from: u32) -> Option<u32>
    requires listed { AreListed heap.now procs.now }
    requires there { IsPlaced procs.now place }
    ensures lowest { (numbers : Numbers) (files : Files) → HaveOpen numbers heap.now procs.now files
        → lowest_free_from (descriptors_of files place.pid) from ≡ result }
    ensures free { IfSome result (λ fd. (fd < most_descriptors) × (from ≤ fd) × (named_at heap.now procs.now place.pid fd ≡ None)) }
    ensures least { IfSome result (AreOpenBelow heap.now procs.now place.pid from) }
{
    is_well_formed(heap);
    lowest_of(heap, procs.at(heap, place), from)
}
