ghost use Rattle.std.specs.Prelude.{IfOk, OnErr, OnOk, ◌≡◌, ◌+◌, ◌-◌, ◌==◌, ◌<◌, ◌≤◌, false, [], ◌∷◌, filter, length, map, None, Some};
ghost use Rattle.std.specs.Option.{option_copied};
ghost use Rattle.kabi_types.specs.Arguments.{count_of};
ghost use Rattle.kabi_types.specs.Class.{size};
ghost use Rattle.kabi_types.specs.declared.classes.Class.TheVariants as class;
ghost use Rattle.kabi_types.specs.declared.scripts.Script.{Script};
ghost use Rattle.kabi_types.specs.Counts.{with_count};
ghost use Rattle.kheap_slabs.specs.Objects.{object};
ghost use Rattle.kheap_slabs.specs.declared.objects.Proc.{Proc as HeldProc};
ghost use Rattle.kheap_slabs.specs.Heap.{Heap, live_bytes, Makes};
ghost use Rattle.kheap_slabs.specs.Leaves.{HoldLeaves};
ghost use Rattle.kheap_slabs.specs.Owners.{Owners, IsOwned};
ghost use Rattle.kheap_slabs.specs.Paid.{CanPay, IsPaid, PaysExactly, TakesNothing};
ghost use Rattle.posix_defs.specs.Killing.{kill};
ghost use Rattle.posix_defs.specs.Plain.{Plain, first_process};
ghost use Rattle.posix_defs.specs.Process.{Table};
ghost use Rattle.posix_defs.specs.Memory.{Frames, after_clear, boot_frames};
ghost use Rattle.proc_table.specs.Accounting.{HasAccount, forked_account};
ghost use Rattle.proc_table.specs.Changes.{after_wait, cleared, ended, forked_as, child_proc, is_alone, is_full_at, is_other, is_wanted, left_behind, reaped_of, verdict};
ghost use Rattle.open_laws.specs.Sharing.{CanShare, share_all};
ghost use Rattle.proc_table.specs.Moves.{Disposes, HasCopies, IsAdded, IsForked, MemoryStays, TableMoves, sharing};
ghost use Rattle.proc_table.specs.Procs.{HasClosed, HasEnded, IsAlive, first_proc, numbers_in, proc_of, target_of};
ghost use Rattle.proc_table.specs.Standing.{IsTable, answered_by, cleared_in, ends_in, forked_in, found_in, waited_in};
ghost use Rattle.proc_table.specs.Table.{AreBetween, AreStored, Holds, IsPlaced, key_of, key_of_target, no_table, objects_after, places_kept, processes};

use crate::children::{INIT, disposed, ignores, is_wanted, judge, leave_one};
use crate::places::{MOST, Place, find, find_target, keep_others};
use crate::reaped::Reaped;
use arrayvec::ArrayVec;
use desc_table::copy_numbers;
use kabi_types::{Class, Control, Errno};
use kheap_slabs::{KHeap, Proc, Purse};
use page_space::Space;
use std::marker::Model;

/// The root's node, which is the first working directory.
const ROOT: u32 = 1;

/// The processes that are there, alive or ended and not waited for: at most 64, by rising pid.
///
/// Each is a Proc in the heap. The table has its key, and looks for it from the place that the pid numbers downwards. No pid is
/// given twice.
#[derive(Drop)]
pub struct ProcTable {
    listed: ArrayVec<Place, 64>,
    last: u32,
}

impl Model for ProcTable {
    ghost use Rattle.proc_table.specs.Table.{AreBetween, TableView};

    ghost Value = { TableView };

    ghost view = { λ table. record { listed = table.listed.items; last = table.last } };

    ghost invariant = { λ table. AreBetween 0 table.listed.items table.last };
}

impl ProcTable {
    /// The first process alone, in a Proc that is made: without memory, in the root, at the beginning of a program.
    pub fn boot(heap: &mut KHeap) -> ProcTable
        requires { live_bytes heap.old + size class.Proc ≤ heap.old.heap }
        ensures processes { processes heap.new result ≡ first_proc ∷ [] }
        ensures last { result.last ≡ 1 }
        ensures makes { Makes class.Proc heap.old heap.new }
        ensures moves { (others : Owners) → IsOwned heap.old others → TableMoves heap.old no_table heap.new result }
        ensures table { IsTable heap.new result (Some first_process ∷ []) }
        ensures account { ((key : _) → object heap.old.pages key ≡ None) → HasAccount heap.new result boot_frames }
    {
        let key = heap.insert_proc(Proc {
            pid: INIT,
            parent: 0,
            status: None,
            cwd: ROOT,
            ignores_pipe: true,
            ignores_term: true,
            control: Control {
                program: 0,
                place: 0,
                regs: [0; 16],
                done: 0,
            },
            opening: None,
            descriptors: [None; 32],
            nodes: [None; 4],
            leaves: [None; 3],
        });
        let mut listed = ArrayVec::new();
        listed.push(Place { pid: INIT, key });
        ProcTable { listed, last: INIT }
    }

    /// The last pid that was given.
    pub fn last_pid(&self) -> u32
        ensures { result ≡ self.now.last }
    {
        self.last
    }

    /// The key of the Proc of that pid; None exactly where no such process is in the table.
    pub fn key_of(&self, pid: u32) -> Option<u32>
        ensures { result ≡ key_of self.now.listed pid }
    {
        find(self.listed.as_slice(), pid)
    }

    /// The places of the processes that are there, by rising pid: at most 64.
    pub fn listed(&self) -> &[Place]
        ensures places { result.now ≡ self.now.listed }
        ensures few { length result.now ≤ 64 }
    {
        self.listed.as_slice()
    }

    /// The Proc of a process at its place, which was found before.
    pub fn at<'a>(&self, heap: &'a KHeap, place: Place) -> &'a Proc
        requires stored { AreStored heap.now.procs self.now.listed }
        requires there { IsPlaced self.now place }
        ensures kept { object heap.now.procs place.key ≡ Some result.now }
        ensures found { proc_of (processes heap.now self.now) place.pid ≡ Some result.now }
    {
        heap.get_proc(place.key)
    }

    // The Proc of a process that is there.
    fn proc<'a>(&self, heap: &'a KHeap, pid: u32) -> Option<&'a Proc>
        requires { AreStored heap.now.procs self.now.listed }
        ensures { option_copied result ≡ proc_of (processes heap.now self.now) pid }
    {
        match self.key_of(pid) {
            Some(key) => Some(heap.get_proc(key)),
            None => None,
        }
    }

    // The key of the Proc of a process that a call names.
    fn key_of_target(&self, target: i64) -> Option<u32>
        ensures { result ≡ key_of_target self.now.listed target }
    {
        find_target(self.listed.as_slice(), target)
    }

    // The Proc of a process that a call names, if that is one that is there.
    fn target<'a>(&self, heap: &'a KHeap, target: i64) -> Option<&'a Proc>
        requires { AreStored heap.now.procs self.now.listed }
        ensures { option_copied result ≡ target_of (processes heap.now self.now) target }
    {
        match self.key_of_target(target) {
            Some(key) => Some(heap.get_proc(key)),
            None => None,
        }
    }

    // Whether nobody more can be made: as many are there as may be, or all pids were given.
    fn is_full(&self) -> bool
        ensures full { result ≡ is_full_at (length self.now.listed) self.now.last }
        ensures room { result ≡ false → (length self.now.listed < 64) × (self.now.last < 4294967295) }
    {
        self.listed.len() == MOST || self.last == u32::MAX
    }

    // Puts a child of a process in the heap, with the next pid, this space and these Leaves.
    fn add_child(
        &mut self,
        heap: &mut KHeap,
        purse: &mut Purse,
        parent: &Proc,
        space: &Space,
        leaves: [Option<u32>; 3],
    )
        requires pid { self.old.last < 4294967295 }
        requires few { length self.old.listed < 64 }
        requires room { CanPay heap.old purse.old }
        requires left { 0 < purse.old.left.proc }
        ensures added { IsAdded heap.old purse.old self.old heap.new purse.new self.new (child_proc parent.now (self.old.last + 1) space.now leaves) }
        ensures groups { length space.now ≡ 4 }
    {
        self.last += 1;
        purse.spend(Class::Proc);
        let key = heap.insert_proc(Proc {
            pid: self.last,
            parent: parent.pid,
            opening: None,
            nodes: space.nodes(),
            leaves,
            ..*parent
        });
        self.listed.push(Place {
            pid: self.last,
            key,
        });
    }

    /// Makes a child of a process, and answers its pid, the one behind the last. It is what its parent is, its memory too, and
    /// has the same descriptors open: each description counts those that name it once more, and each of the parent's Leaves has its
    /// copy.
    ///
    /// EAGAIN where 64 processes are there, alive or ended and not waited for, or where the last pid is 4294967295; nothing is
    /// changed then.
    ///
    /// <https://pubs.opengroup.org/onlinepubs/9699919799/functions/fork.html>
    pub fn fork(&mut self, heap: &mut KHeap, purse: &mut Purse, pid: u32) -> Result<u32, Errno>
        requires holds { Holds heap.old self.old }
        requires alive { IsAlive (processes heap.old self.old) pid }
        requires room { CanPay heap.old purse.old }
        requires left_proc { 0 < purse.old.left.proc }
        requires left_nodes { 4 ≤ purse.old.left.node }
        requires left_leaves { 3 ≤ purse.old.left.leaf }
        requires own { HoldLeaves heap.old.leaves (processes heap.old self.old) }
        requires shares { (parent : HeldProc) → proc_of (processes heap.old self.old) pid ≡ Some parent
            → CanShare heap.old.descs (numbers_in heap.old parent) }
        ensures answer { result ≡ forked_as (length self.old.listed) self.old.last }
        ensures child { IfOk result (λ child. IsForked heap.old self.old heap.new self.new pid child) }
        ensures unchanged { OnErr result ((heap.new ≡ heap.old) × (self.new ≡ self.old) × (purse.new ≡ purse.old)) }
        ensures table { (table : Table) → IsTable heap.old self.old table → IsTable heap.new self.new (forked_in table pid result) }
        ensures account { (frames : Frames) → HasAccount heap.old self.old frames → HasAccount heap.new self.new (forked_account frames pid result) }
        ensures moves { TableMoves (sharing heap.old heap.new) self.old heap.new self.new }
        ensures own { HoldLeaves heap.new.leaves (processes heap.new self.new) }
        ensures copies { IfOk result (λ child. (parent : HeldProc) (its : HeldProc) → proc_of (processes heap.old self.old) pid ≡ Some parent
            → proc_of (processes heap.new self.new) child ≡ Some its → HasCopies heap.old heap.new parent its) }
        ensures shared { OnOk result ((parent : HeldProc) → proc_of (processes heap.old self.old) pid ≡ Some parent
            → heap.new.descs ≡ share_all heap.old.descs (numbers_in heap.old parent)) }
        ensures paid { IsPaid heap.old purse.old heap.new purse.new }
        ensures exact { PaysExactly class.Node heap.old purse.old heap.new purse.new }
        ensures spent { OnOk result (purse.new ≡ record purse.old {
          left = with_count (with_count (with_count purse.old.left class.Leaf purse.new.left.leaf) class.Node purse.new.left.node) class.Proc (purse.old.left.proc - 1);
        }) }
    {
        if self.is_full() {
            return Err(Errno::EAGAIN);
        }
        match self.proc(heap, pid) {
            Some(parent) => {
                let parent = *parent;
                let leaves = copy_numbers(heap, purse, &parent.descriptors, &parent.leaves);
                let space = Space::fork_from(heap, purse, &Space::of(parent.nodes));
                self.add_child(heap, purse, &parent, &space, leaves);
                Ok(self.last)
            }
            None => unreachable!(),
        }
    }

    /// Takes all memory of a process away, as `exec` does.
    pub fn clear_memory(&mut self, heap: &mut KHeap, pid: u32)
        requires holds { Holds heap.old self.old }
        requires alive { IsAlive (processes heap.old self.old) pid }
        ensures same { self.new ≡ self.old }
        ensures cleared { processes heap.new self.new ≡ map (cleared pid) (processes heap.old self.old) }
        ensures memory { MemoryStays heap.old heap.new (filter (is_other pid) (processes heap.old self.old)) }
        ensures table { (table : Table) → IsTable heap.old self.old table → IsTable heap.new self.new (cleared_in table pid) }
        ensures account { (frames : Frames) → HasAccount heap.old self.old frames → HasAccount heap.new self.new (after_clear frames pid) }
        ensures moves { TableMoves heap.old self.old heap.new self.new }
        ensures takes { TakesNothing heap.old heap.new }
    {
        match self.key_of(pid) {
            Some(key) => {
                let proc = heap.get_proc(key);
                Space::of(proc.nodes).release(heap);
                heap.set_proc_nodes(key, [None; 4]);
            }
            None => unreachable!(),
        }
    }

    // Whether nobody is there to wait for a process that ends: it is the first, or ends after it.
    fn ends_alone(&self, pid: u32) -> bool
        ensures { (h : Heap) → AreStored h.procs self.now.listed → result ≡ is_alone pid (processes h self.now) }
    {
        pid == INIT || self.key_of(INIT).is_none()
    }

    // Ends a process, which stays: its live children get the first process as parent, and those that have ended go.
    fn leave(&mut self, heap: &mut KHeap, pid: u32, status: u16)
        requires stored { AreStored heap.old.procs self.old.listed }
        requires rising { AreBetween 0 self.old.listed self.old.last }
        ensures procs { heap.new ≡ record heap.old { procs = objects_after (left_behind pid status) heap.old.procs self.old.listed } }
        ensures listed { self.new ≡ record self.old { listed = places_kept (left_behind pid status) heap.old.procs self.old.listed } }
        ensures takes { TakesNothing heap.old heap.new }
    {
        let mut left = ArrayVec::new();
        for place in self.listed.as_slice() {
            if leave_one(heap, place.key, pid, status) {
                left.push(*place);
            }
        }
        self.listed = left;
    }

    // Takes a process that has ended from the table and from the heap.
    fn reap(&mut self, heap: &mut KHeap, pid: u32)
        requires holds { Holds heap.old self.old }
        requires over { HasEnded (processes heap.old self.old) pid }
        ensures last { self.new.last ≡ self.old.last }
        ensures gone { processes heap.new self.new ≡ filter (is_other pid) (processes heap.old self.old) }
        ensures kept { heap.new ≡ record heap.old { procs = heap.new.procs } }
        ensures account { (frames : Frames) → HasAccount heap.old self.old frames → HasAccount heap.new self.new frames }
        ensures moves { TableMoves heap.old self.old heap.new self.new }
        ensures takes { TakesNothing heap.old heap.new }
    {
        match self.key_of(pid) {
            Some(key) => {
                let _ = heap.free_proc(key);
                keep_others(&mut self.listed, pid);
            }
            None => unreachable!(),
        }
    }

    /// Ends a process with a wait status, and takes its memory away. The ended children that it didn't wait for go, and its live
    /// children get the first process as parent. It stays until its parent waits for it; the first process goes at once, and so
    /// does each that ends after it. Its descriptors and its working directory are closed before.
    ///
    /// <https://pubs.opengroup.org/onlinepubs/9699919799/functions/_Exit.html>
    pub fn end(&mut self, heap: &mut KHeap, pid: u32, status: u16)
        requires holds { Holds heap.old self.old }
        requires alive { IsAlive (processes heap.old self.old) pid }
        requires closed { HasClosed (processes heap.old self.old) pid }
        ensures last { self.new.last ≡ self.old.last }
        ensures ended { processes heap.new self.new ≡ ended pid status (processes heap.old self.old) }
        ensures memory { MemoryStays heap.old heap.new (filter (is_other pid) (processes heap.old self.old)) }
        ensures table { (table : Table) → IsTable heap.old self.old table → IsTable heap.new self.new (ends_in table pid status) }
        ensures account { (frames : Frames) → HasAccount heap.old self.old frames → HasAccount heap.new self.new (after_clear frames pid) }
        ensures moves { TableMoves heap.old self.old heap.new self.new }
        ensures takes { TakesNothing heap.old heap.new }
    {
        let alone = self.ends_alone(pid);
        self.clear_memory(heap, pid);
        self.leave(heap, pid, status);
        if alone {
            self.reap(heap, pid);
        }
    }

    /// What a process that waited now would be answered. Nothing is changed.
    pub fn answer(&self, heap: &KHeap, parent: u32, which: i64) -> Reaped
        requires { AreStored heap.now.procs self.now.listed }
        ensures { result ≡ reaped_of parent which (processes heap.now self.now) }
    {
        let mut found = false;
        for place in self.listed.as_slice() {
            let proc = heap.get_proc(place.key);
            if is_wanted(proc, parent, which) {
                if let Some(status) = proc.status {
                    return Reaped::Took {
                        pid: proc.pid,
                        status,
                    };
                }
                found = true;
            }
        }
        if found {
            Reaped::Nobody
        } else {
            Reaped::NoChild
        }
    }

    /// What a process that waits is answered: of its children that it asks for by a pid, or by -1, the one of the lowest pid that
    /// has ended, which is gone then.
    ///
    /// NoChild where none that it asks for is there, and Nobody where one is but none has ended.
    ///
    /// <https://pubs.opengroup.org/onlinepubs/9699919799/functions/wait.html>
    pub fn wait(&mut self, heap: &mut KHeap, pid: u32, which: i64) -> Reaped
        requires holds { Holds heap.old self.old }
        ensures answer { result ≡ reaped_of pid which (processes heap.old self.old) }
        ensures last { self.new.last ≡ self.old.last }
        ensures gone { processes heap.new self.new ≡ after_wait result (processes heap.old self.old) }
        ensures kept { heap.new ≡ record heap.old { procs = heap.new.procs } }
        ensures found { (table : Table) → IsTable heap.old self.old table → result ≡ found_in table pid which }
        ensures table { (table : Table) → IsTable heap.old self.old table → IsTable heap.new self.new (waited_in table result) }
        ensures account { (frames : Frames) → HasAccount heap.old self.old frames → HasAccount heap.new self.new frames }
        ensures moves { TableMoves heap.old self.old heap.new self.new }
        ensures takes { TakesNothing heap.old heap.new }
    {
        let answer = self.answer(heap, pid, which);
        if let Reaped::Took { pid: child, .. } = answer {
            self.reap(heap, child);
        }
        answer
    }

    /// Has a process ignore a signal from now on, or be ended by it, and tells whether it ignored it before. All else of it stays.
    ///
    /// <https://pubs.opengroup.org/onlinepubs/9699919799/functions/signal.html>
    pub fn dispose(&self, heap: &mut KHeap, place: Place, signal: i64, ignored: bool) -> bool
        requires stored { AreStored heap.old.procs self.now.listed }
        requires there { IsPlaced self.now place }
        ensures disposes { Disposes heap.old heap.new self.now place (count_of signal) ignored result }
        ensures takes { TakesNothing heap.old heap.new }
    {
        let proc = self.at(heap, place);
        let before = ignores(proc, signal);
        let now = disposed(proc, signal, ignored);
        heap.set_proc(place.key, now);
        before
    }

    /// Whether a signal ends a process, for the caller of `kill`: so it is where a live one is sent another signal than 0 and doesn't
    /// ignore it.
    ///
    /// ESRCH where no such process is there, alive or ended and not waited for; EPERM where it is the first, and the signal isn't 0.
    ///
    /// <https://pubs.opengroup.org/onlinepubs/9699919799/functions/kill.html>
    pub fn may_kill(&self, heap: &KHeap, _pid: u32, target: i64, signal: i64) -> Result<bool, Errno>
        requires { Holds heap.now self.now }
        ensures verdict { result ≡ verdict signal (target_of (processes heap.now self.now) target) }
        ensures kill { (script : Script) (plain : Plain) → IsTable heap.now self.now plain.table
            → kill script plain _pid target signal ≡ answered_by script plain _pid target signal result }
    {
        judge(self.target(heap, target), signal)
    }
}
