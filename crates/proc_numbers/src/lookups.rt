//! What a number of a process names.

ghost use Rattle.std.specs.Prelude.{◌≡◌, ◌<◌, ℕ, [], IfSome, None, Some, false, is_some, pos, true};
ghost use Rattle.std.specs.Option.{option_map};
ghost use Rattle.kabi_types.specs.Arguments.{may_be_descriptor, most_descriptors};
ghost use Rattle.kabi_types.specs.declared.scripts.Script.{Script};
ghost use Rattle.kheap_slabs.specs.Heap.{Heap};
ghost use Rattle.open_laws.specs.Described.{access_in, inode_in};
ghost use Rattle.open_laws.specs.Owned.{HasItsOwners};
ghost use Rattle.open_laws.specs.Placed.{Numbers};
ghost use Rattle.posix_defs.specs.Answer.{Answer};
ghost use Rattle.posix_defs.specs.Calls.Opened.{Opened, answer_on, if_readable, if_writable, on_open, opened_at};
ghost use Rattle.posix_defs.specs.Files.Descriptions.{may_read, may_write};
ghost use Rattle.posix_defs.specs.Files.State.{Files};
ghost use Rattle.posix_defs.specs.Plain.{Plain};
ghost use Rattle.proc_numbers.specs.Having.{AreListed, HaveOpen};
ghost use Rattle.proc_table.specs.Table.{IsPlaced, TableView};
ghost use Rattle.proc_numbers.specs.Found.{IsOffNodes, IsOnNode, IsOpened, held_in, is_in_tree, opened_in};

use crate::closing::is_well_formed;
use desc_table::descriptor_of;
use kabi_types::MOST_DESCRIPTORS;
use kheap_slabs::{Access, Desc, Descriptor, KHeap, Target};
use proc_table::{Place, ProcTable};

/// A number of a process that is open, and what it names.
#[derive(Clone, Copy)]
pub struct Found {
    /// The number.
    pub number: u32,
    /// The key of the Desc.
    pub key: u32,
    /// The Desc.
    pub desc: Desc,
    /// Whether `exec` closes the number (FD_CLOEXEC).
    pub close_on_exec: bool,
}

/// The number that a call has, and what it names: it is found once, before the call looks at anything else.
#[derive(Clone, Copy)]
pub struct Named {
    /// The number, as the call has it.
    pub fd: i64,
    /// What it names; None, which is EBADF, where it isn't open.
    pub found: Option<Found>,
}

/// The number that a call of a process has, and what it names.
pub fn opened(heap: &KHeap, procs: &ProcTable, place: Place, fd: i64) -> Named
    requires listed { AreListed heap.now procs.now }
    requires owners { HasItsOwners heap.now [] }
    requires there { IsPlaced procs.now place }
    ensures number { result.fd ≡ fd }
    ensures opened { IsOpened heap.now procs.now place.pid result }
{
    is_well_formed(heap);
    let proc = procs.at(heap, place);
    let Some(number) = number_of(fd) else {
        return Named { fd, found: None };
    };
    let held = descriptor_of(heap, proc, number);
    let Some(descriptor) = held else {
        return Named { fd, found: None };
    };
    let found = Found {
        number,
        key: descriptor.desc,
        desc: *heap.get_desc(descriptor.desc),
        close_on_exec: descriptor.close_on_exec,
    };
    Named {
        fd,
        found: Some(found),
    }
}

impl Found {
    /// What names it.
    pub(crate) fn descriptor(&self) -> Descriptor
        ensures { result ≡ held_in self.now }
    {
        Descriptor {
            desc: self.key,
            close_on_exec: self.close_on_exec,
        }
    }

    /// Whether it is open for reading.
    pub fn is_readable(&self) -> bool
        ensures { result ≡ may_read (access_in self.now.desc.access) }
    {
        match self.desc.access {
            Access::Read | Access::Both => true,
            Access::Write => false,
        }
    }

    /// Whether it is open for writing.
    pub fn is_writable(&self) -> bool
        ensures { result ≡ may_write (access_in self.now.desc.access) }
    {
        match self.desc.access {
            Access::Read => false,
            Access::Write | Access::Both => true,
        }
    }
}

impl Named {
    /// Whether it is open on a node of the tree of files by its number; pipes, those of FIFOs too, and sockets aren't.
    pub fn is_on_node(&self) -> bool
        ensures tells { (h : Heap) (kept : TableView) (pid : ℕ) (numbers : Numbers) (files : Files) → IsOpened h kept pid self.now
            → HaveOpen numbers h kept files → result ≡ is_in_tree (opened_at files pid self.now.fd) }
        ensures on { (h : Heap) (kept : TableView) (pid : ℕ) → IsOpened h kept pid self.now → result ≡ true → IsOnNode h kept pid self.now.fd }
        ensures off { (h : Heap) (kept : TableView) (pid : ℕ) → IsOpened h kept pid self.now → result ≡ false → IsOffNodes h kept pid self.now.fd }
    {
        match self.found {
            Some(found) => is_node(found.desc.target),
            None => false,
        }
    }

    /// What it names, where that may be read; None, which is EBADF, where it isn't open or isn't open for reading.
    pub(crate) fn readable(&self) -> Option<Found>
        ensures found { (h : Heap) (kept : TableView) (pid : ℕ) (numbers : Numbers) (script : Script) (plain : Plain) (answer : Opened → Answer)
            → IsOpened h kept pid self.now → HaveOpen numbers h kept plain.files
            → on_open script plain pid self.now.fd (λ opened. if_readable script plain pid opened (answer opened))
            ≡ answer_on script plain pid answer (option_map (opened_in numbers) result) }
        ensures same { IfSome result (λ found. self.now.found ≡ Some found) }
    {
        let Some(found) = self.found else {
            return None;
        };
        if found.is_readable() {
            Some(found)
        } else {
            None
        }
    }

    /// What it names, where that may be written; None, which is EBADF, where it isn't open or isn't open for writing.
    pub(crate) fn writable(&self) -> Option<Found>
        ensures found { (h : Heap) (kept : TableView) (pid : ℕ) (numbers : Numbers) (script : Script) (plain : Plain) (answer : Opened → Answer)
            → IsOpened h kept pid self.now → HaveOpen numbers h kept plain.files
            → on_open script plain pid self.now.fd (λ opened. if_writable script plain pid opened (answer opened))
            ≡ answer_on script plain pid answer (option_map (opened_in numbers) result) }
        ensures same { IfSome result (λ found. self.now.found ≡ Some found) }
    {
        let Some(found) = self.found else {
            return None;
        };
        if found.is_writable() {
            Some(found)
        } else {
            None
        }
    }
}

// Whether a target is a node.
fn is_node(target: Target) -> bool
    ensures { result ≡ is_some (inode_in target) }
{
    match target {
        Target::Inode(_) => true,
        Target::Pipe(_) | Target::Sock(_) => false,
    }
}

// The number that a descriptor may have; None of one below 0 or above the last.
fn number_of(fd: i64) -> Option<u32>
    ensures some { IfSome result (λ number. (fd ≡ pos number) × (number < most_descriptors)) }
    ensures none { result ≡ None → may_be_descriptor fd ≡ false }
{
    match u32::try_from(fd) {
        Ok(number) if number < MOST_DESCRIPTORS => Some(number),
        _ => None,
    }
}
