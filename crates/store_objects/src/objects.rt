//! The objects of a store: the heap, the processes that stand in it, the tree of files, and names of sockets in it.

ghost use Rattle.std.specs.Prelude.{◌≡◌, ◌<◌, IfSome, IsSome, None, Some, false};
ghost use Rattle.std.specs.Option.{option_copied};
ghost use Rattle.kheap_slabs.specs.Heap.{IsWellFormed};
ghost use Rattle.proc_table.specs.Procs.{IsAlive, proc_of};
ghost use Rattle.proc_table.specs.Table.{AreStored, IsPlaced, key_of};
ghost use Rattle.store_objects.specs.Objects.{IsCaller, MovesOn, WaitsIn, WorksElsewhere, is_running, procs_of};

use bound_table::BoundTable;
use fifo_nodes::FifoTable;
use kabi_types::Control;
use kheap_slabs::{HalfOpen, KHeap, Proc};
use lock_table::LockTable;
use memfs_ops::FileTree;
use proc_table::{Place, ProcTable};

/// The heap, the table of the processes that stand in it, the tree of files, whose caches stand in it too, the table of the sockets
/// that have names in the tree, and the first of the chains of FIFOs' pipes and of locks.
#[derive(Drop)]
pub struct Objects {
    /// The heap.
    pub heap: KHeap,
    /// Where in the heap each process stands.
    pub procs: ProcTable,
    /// The disk, and what of it is cached in the heap.
    pub tree: FileTree,
    /// Which socket is bound to each node of the tree.
    pub names: BoundTable,
    /// Which FIFOs have a pipe.
    pub fifos: FifoTable,
    /// What processes have locked of files.
    pub locks: LockTable,
}

/// Who makes a call: a process that runs.
#[derive(Clone, Copy)]
pub struct Caller {
    /// Its number, and where it stands in the heap. It stands there as long as nobody ends or is made.
    pub place: Place,
    /// Its parent's pid; 0 for the first process.
    pub parent: u32,
    /// Where it stands in its program: at its call.
    pub control: Control,
}

impl Objects {
    /// The process of that pid; None exactly where none is there.
    pub fn proc(&self, pid: u32) -> Option<&Proc>
        requires { AreStored self.now.heap.procs self.now.procs.listed }
        ensures { option_copied result ≡ proc_of (procs_of self.now) pid }
    {
        match self.procs.key_of(pid) {
            Some(key) => Some(self.heap.get_proc(key)),
            None => None,
        }
    }

    /// Whether the process of that pid is there and has not ended.
    pub fn runs(&self, pid: u32) -> bool
        requires { AreStored self.now.heap.procs self.now.procs.listed }
        ensures { result ≡ is_running (procs_of self.now) pid }
    {
        match self.proc(pid) {
            Some(proc) => proc.status.is_none(),
            None => false,
        }
    }

    /// The process of that pid as it makes its next call; None exactly where none runs.
    pub fn caller(&self, pid: u32) -> Option<Caller>
        requires { AreStored self.now.heap.procs self.now.procs.listed }
        ensures none { result ≡ None → is_running (procs_of self.now) pid ≡ false }
        ensures some { IfSome result (IsCaller self.now pid) }
    {
        let key = self.procs.key_of(pid)?;
        let proc = self.heap.get_proc(key);
        if proc.status.is_some() {
            return None;
        }
        Some(Caller {
            place: Place { pid, key },
            parent: proc.parent,
            control: proc.control,
        })
    }

    /// The heap is well formed: each row of its objects is as long as it was reserved.
    pub fn heap_is_well_formed(&self)
        ensures { IsWellFormed self.now.heap }
    {
        let _ = self.heap.heap();
    }

    /// No pid is above the last, which has 32 bits.
    pub fn pids_have_32_bits(&self)
        ensures { self.now.procs.last < 4294967296 }
    {
        let _ = self.procs.last_pid();
    }

    /// The key of the Proc of a process that is there.
    pub fn key_there(&self, pid: u32) -> u32
        requires stored { AreStored self.now.heap.procs self.now.procs.listed }
        requires there { IsSome (proc_of (procs_of self.now) pid) }
        ensures { key_of self.now.procs.listed pid ≡ Some result }
    {
        let Some(key) = self.procs.key_of(pid) else {
            unreachable!();
        };
        key
    }

    /// Has a process go on at another control.
    pub fn move_on(&mut self, place: Place, control: Control)
        requires stored { AreStored self.old.heap.procs self.old.procs.listed }
        requires there { IsPlaced self.old.procs place }
        ensures { MovesOn self.old place.pid control self.new }
    {
        self.heap.set_proc_control(place.key, control);
    }

    /// Has a process that runs sleep in an open of a FIFO, or in none any more.
    pub fn wait_in(&mut self, place: Place, opening: Option<HalfOpen>)
        requires stored { AreStored self.old.heap.procs self.old.procs.listed }
        requires there { IsPlaced self.old.procs place }
        requires alive { IsAlive (procs_of self.old) place.pid }
        ensures { WaitsIn self.old place.pid opening self.new }
    {
        self.heap.set_proc_opening(place.key, opening);
    }

    /// Has a process work in another directory. Who holds which of them is left to the caller.
    pub(crate) fn work_elsewhere(&mut self, place: Place, directory: u32)
        requires stored { AreStored self.old.heap.procs self.old.procs.listed }
        requires there { IsPlaced self.old.procs place }
        ensures { WorksElsewhere self.old place.pid directory self.new }
    {
        let proc = *self.procs.at(&self.heap, place);
        let moved = Proc {
            cwd: directory,
            ..proc
        };
        self.heap.set_proc(place.key, moved);
    }
}
