//! Laws of the table for a crate that changes memory, controls or other objects of the same heap. Each is the contract of a
//! function that does nothing.

ghost use Rattle.std.specs.Prelude.{◌≡◌, ◌≢◌, ◌+◌, ◌≤◌, ℕ, ℤ, true, List, [], ◌∷◌, ◌++◌, filter, length, map, Option, None, Some};
ghost use Rattle.kabi_types.specs.declared.scripts.Script.{Script};
ghost use Rattle.kheap_slabs.specs.Objects.{object};
ghost use Rattle.kheap_slabs.specs.declared.objects.Desc.{Desc};
ghost use Rattle.kheap_slabs.specs.declared.objects.Proc.{Proc};
ghost use Rattle.kheap_slabs.specs.Heap.{Heap, empty_heap};
ghost use Rattle.kheap_slabs.specs.Leaves.{HoldLeaves};
ghost use Rattle.kheap_slabs.specs.Owners.{Owners, IsOwned};
ghost use Rattle.page_space.specs.Accounts.{AccountMoves, IsAccounted};
ghost use Rattle.page_space.specs.Contents.{IsOwnedWith, StandsFor};
ghost use Rattle.posix_defs.specs.Ending.{die_in};
ghost use Rattle.posix_defs.specs.Family.{IsFamily};
ghost use Rattle.posix_defs.specs.Files.State.{Files, boot_files, with_heir, with_opening};
ghost use Rattle.posix_defs.specs.Forking.{fork};
ghost use Rattle.posix_defs.specs.Memory.{Frames, Memory};
ghost use Rattle.posix_defs.specs.Plain.{Plain, last_pid};
ghost use Rattle.posix_defs.specs.Process.{Table, is_there, process_at, with_ignores, with_memory};
ghost use Rattle.posix_defs.specs.Waiting.{waitpid};
ghost use Rattle.proc_table.specs.Accounting.{HasAccount};
ghost use Rattle.open_laws.specs.Sharing.{CanShare, share_all};
ghost use Rattle.proc_table.specs.Changes.{after_wait, child_proc, ended, forked_as, is_other, reaped_of, replaced, with_nodes};
ghost use Rattle.proc_table.specs.Moves.{HasCopies, IsForked, MemoryStays, NumbersTurn, ProcTurns, SpaceTurns, TableMoves, sharing};
ghost use Rattle.proc_table.specs.Opening.{HaveOpen, opening_in};
ghost use Rattle.proc_table.specs.Procs.{HasClosed, IsClosed, NoneOpen, first_proc, ignored_by, memory_at, numbers_in, proc_of, process_of};
ghost use Rattle.proc_table.specs.Standing.{IsTable, answered_fork, answered_wait, ends_from, ends_in, found_in};
ghost use Rattle.proc_table.specs.Table.{Holds, TableView, key_of, processes, with_procs};
ghost use Rattle.proc_table.specs.declared.reaped.Reaped.{Reaped};

/// A process that is there is under the key that the table has of it, is the plain machine's of that pid, and its space is one
/// in hand, which stands for its memory; who has no key isn't there.
pub fn a_process_is_in_hand()
    ensures key { (h : Heap) (kept : TableView) (pid : ℕ) (key : ℕ) → Holds h kept → key_of kept.listed pid ≡ Some key
        → (proc : Proc) × (object h.procs key ≡ Some proc) × (proc_of (processes h kept) pid ≡ Some proc) }
    ensures none { (h : Heap) (kept : TableView) (pid : ℕ) → Holds h kept → key_of kept.listed pid ≡ None
        → proc_of (processes h kept) pid ≡ None }
    ensures there { (h : Heap) (kept : TableView) (table : Table) (pid : ℕ) (proc : Proc) → IsTable h kept table
        → proc_of (processes h kept) pid ≡ Some proc → process_at table pid ≡ Some (process_of h proc) }
    ensures gone { (h : Heap) (kept : TableView) (table : Table) (pid : ℕ) → IsTable h kept table
        → proc_of (processes h kept) pid ≡ None → process_at table pid ≡ None }
    ensures space { (h : Heap) (kept : TableView) (pid : ℕ) (proc : Proc) → Holds h kept
        → proc_of (processes h kept) pid ≡ Some proc → IsOwnedWith h proc.nodes }
    ensures stands { (h : Heap) (space : List (Option ℕ)) → StandsFor h space (memory_at h space) }
    ensures whole { (h : Heap) (space : List (Option ℕ)) → length (memory_at h space) ≡ 256 }
    ensures account { (h : Heap) (kept : TableView) (frames : Frames) (pid : ℕ) (proc : Proc) → Holds h kept
        → (has : HasAccount h kept frames) → proc_of (processes h kept) pid ≡ Some proc
        → IsAccounted h has.number frames pid proc.nodes }
{}

/// A live process's space may become another and be put back: the table holds, the process has the new memory, all others have
/// what they had, and the account follows.
pub fn a_space_comes_back()
    ensures procs { (old : Heap) (mid : Heap) (new : Heap) (kept : TableView) (pid : ℕ) (key : ℕ) (proc : Proc) (now : List (Option ℕ))
        → Holds old kept → SpaceTurns old mid new kept pid key proc now
        → processes new kept ≡ map (with_nodes pid now) (processes old kept) }
    ensures moves { (old : Heap) (mid : Heap) (new : Heap) (kept : TableView) (pid : ℕ) (key : ℕ) (proc : Proc) (now : List (Option ℕ))
        → Holds old kept → SpaceTurns old mid new kept pid key proc now → TableMoves old kept new kept }
    ensures others { (old : Heap) (mid : Heap) (new : Heap) (kept : TableView) (pid : ℕ) (key : ℕ) (proc : Proc) (now : List (Option ℕ))
        → Holds old kept → SpaceTurns old mid new kept pid key proc now
        → MemoryStays old new (filter (is_other pid) (processes old kept)) }
    ensures table { (old : Heap) (mid : Heap) (new : Heap) (kept : TableView) (pid : ℕ) (key : ℕ) (proc : Proc) (now : List (Option ℕ))
        (table : Table) (memory : Memory)
        → Holds old kept → SpaceTurns old mid new kept pid key proc now → StandsFor mid now memory → length memory ≡ 256
        → IsTable old kept table → IsTable new kept (with_memory table pid memory) }
    ensures account { (old : Heap) (mid : Heap) (new : Heap) (kept : TableView) (pid : ℕ) (key : ℕ) (proc : Proc) (now : List (Option ℕ))
        (before : Frames) (after : Frames)
        → Holds old kept → SpaceTurns old mid new kept pid key proc now → (has : HasAccount old kept before)
        → AccountMoves old mid proc.nodes now has.number before after pid → HasAccount new kept after }
{}

/// A process's control, its working directory or what it ignores may become another: the table holds, all others are as they were, and
/// memory and account are the same.
pub fn a_process_goes_on()
    ensures procs { (old : Heap) (new : Heap) (kept : TableView) (pid : ℕ) (key : ℕ) (proc : Proc) (now : Proc)
        → Holds old kept → ProcTurns old new kept pid key proc now
        → processes new kept ≡ map (replaced pid now) (processes old kept) }
    ensures moves { (old : Heap) (new : Heap) (kept : TableView) (pid : ℕ) (key : ℕ) (proc : Proc) (now : Proc)
        → Holds old kept → ProcTurns old new kept pid key proc now → TableMoves old kept new kept }
    ensures table { (old : Heap) (new : Heap) (kept : TableView) (pid : ℕ) (key : ℕ) (proc : Proc) (now : Proc) (table : Table)
        → Holds old kept → ProcTurns old new kept pid key proc now → now.cwd ≡ proc.cwd → ignored_by now ≡ ignored_by proc
        → IsTable old kept table → IsTable new kept table }
    ensures disposed { (old : Heap) (new : Heap) (kept : TableView) (pid : ℕ) (key : ℕ) (proc : Proc) (now : Proc) (table : Table)
        → Holds old kept → ProcTurns old new kept pid key proc now → now.cwd ≡ proc.cwd
        → IsTable old kept table → IsTable new kept (with_ignores table pid (ignored_by now)) }
    ensures account { (old : Heap) (new : Heap) (kept : TableView) (pid : ℕ) (key : ℕ) (proc : Proc) (now : Proc) (frames : Frames)
        → Holds old kept → ProcTurns old new kept pid key proc now → HasAccount old kept frames → HasAccount new kept frames }
{}

/// Where the heap changes elsewhere the table is what it was, as long as its spaces own what they owned.
pub fn the_heap_changes_elsewhere()
    ensures holds { (old : Heap) (new : Heap) (kept : TableView) (others : Owners)
        → new.procs ≡ old.procs → IsOwned new (with_procs (processes old kept) others) → Holds old kept → Holds new kept }
    ensures table { (old : Heap) (new : Heap) (kept : TableView) (table : Table)
        → new.procs ≡ old.procs → new.nodes ≡ old.nodes → new.pages ≡ old.pages → IsTable old kept table → IsTable new kept table }
    ensures account { (old : Heap) (new : Heap) (kept : TableView) (frames : Frames)
        → new.procs ≡ old.procs → new.nodes ≡ old.nodes → new.pages ≡ old.pages → HasAccount old kept frames → HasAccount new kept frames }
{}

/// What the table answers is what the plain machine answers. With the first process all others end: where they do so one after
/// another, by rising pid, nobody is left.
pub fn the_table_answers_as_the_machine()
    ensures forked { (script : Script) (plain : Plain) (h : Heap) (kept : TableView) (pid : ℕ)
        → Holds h kept → IsTable h kept plain.table → last_pid plain ≡ kept.last
        → fork script plain pid ≡ answered_fork script plain pid (forked_as (length kept.listed) kept.last) }
    ensures waited { (script : Script) (plain : Plain) (pid : ℕ) (which : ℤ) (options : ℤ)
        → waitpid script plain pid which options ≡ answered_wait script plain pid options (found_in plain.table pid which) }
    ensures ended { (table : Table) (pid : ℕ) (status : ℕ) → pid ≢ 1 → is_there (process_at table 1) ≡ true
        → die_in table pid status ≡ ends_in table pid status }
    ensures all { (table : Table) (status : ℕ) (signal : ℕ) (more : ℕ) → IsFamily table → length table ≤ more + 1
        → ends_from more 2 (ends_in table 1 status) signal ≡ die_in table 1 status }
{}

/// What the processes have open, and in which opens of FIFOs they sleep, goes on being what the machine has: at boot, where a child is
/// made, where one that has nothing open ends, where one is waited for, where memory is another, and where a process goes on. Only a
/// fork makes the machine's descriptors others: the child has those of its parent, and sleeps in no open. Who sleeps in another open, or
/// in none any more, does so in the machine.
pub fn descriptors_go_on()
    ensures booted { (h : Heap) (number : ℕ → ℕ) (blocks : ℕ) → HaveOpen (numbers_in h) (first_proc ∷ []) 1 number (boot_files blocks) }
    ensures forked { (old : Heap) (new : Heap) (was : TableView) (now : TableView) (pid : ℕ) (child : ℕ) (number : ℕ → ℕ) (files : Files)
        → Holds old was → HoldLeaves old.leaves (processes old was) → child ≡ was.last + 1 → (forked : IsForked old was new now pid child)
        → HasCopies old new forked.parent (child_proc forked.parent child forked.nodes forked.leaves)
        → HaveOpen (numbers_in old) (processes old was) was.last number files
        → HaveOpen (numbers_in new) (processes new now) now.last number (with_heir files pid) }
    ensures ended { (h : Heap) (kept : TableView) (pid : ℕ) (status : ℕ) (number : ℕ → ℕ) (files : Files)
        → Holds h kept → HasClosed (processes h kept) pid → HaveOpen (numbers_in h) (processes h kept) kept.last number files
        → HaveOpen (numbers_in h) (ended pid status (processes h kept)) kept.last number files }
    ensures waited { (h : Heap) (kept : TableView) (parent : ℕ) (which : ℤ) (answer : Reaped) (number : ℕ → ℕ) (files : Files)
        → Holds h kept → answer ≡ reaped_of parent which (processes h kept)
        → HaveOpen (numbers_in h) (processes h kept) kept.last number files
        → HaveOpen (numbers_in h) (after_wait answer (processes h kept)) kept.last number files }
    ensures remembers { (h : Heap) (pid : ℕ) (nodes : List (Option ℕ)) (procs : List Proc) (last : ℕ) (number : ℕ → ℕ) (files : Files)
        → HaveOpen (numbers_in h) procs last number files → HaveOpen (numbers_in h) (map (with_nodes pid nodes) procs) last number files }
    ensures turned { (old : Heap) (new : Heap) (kept : TableView) (pid : ℕ) (key : ℕ) (proc : Proc) (now : Proc) (number : ℕ → ℕ) (files : Files)
        → Holds old kept → ProcTurns old new kept pid key proc now → now.opening ≡ proc.opening
        → HaveOpen (numbers_in old) (processes old kept) kept.last number files
        → HaveOpen (numbers_in new) (processes new kept) kept.last number files }
    ensures sleeps { (old : Heap) (new : Heap) (kept : TableView) (pid : ℕ) (key : ℕ) (proc : Proc) (now : Proc) (number : ℕ → ℕ) (files : Files)
        → Holds old kept → ProcTurns old new kept pid key proc now
        → HaveOpen (numbers_in old) (processes old kept) kept.last number files
        → HaveOpen (numbers_in new) (processes new kept) kept.last number (with_opening files pid (opening_in now)) }
{}

/// The Leaves of the processes go on being all that there are, each with one owner and a number open in it: at boot, where the numbers of
/// one process turn, which leaves those of all others what they were, where a child gets its own, where one that has nothing open ends,
/// where one is waited for, where memory is another, and where a process goes on.
pub fn leaves_go_on()
    ensures booted { (heap : ℕ) → HoldLeaves (empty_heap heap).leaves (first_proc ∷ []) }
    ensures turned { (old : Heap) (new : Heap) (kept : TableView) (pid : ℕ) (key : ℕ) (proc : Proc) (now : Proc)
        → Holds old kept → HoldLeaves old.leaves (processes old kept) → NumbersTurn old new kept pid key proc now
        → HoldLeaves new.leaves (processes new kept) }
    ensures others { (old : Heap) (new : Heap) (kept : TableView) (pid : ℕ) (key : ℕ) (proc : Proc) (now : Proc) (q : ℕ) (other : Proc)
        → Holds old kept → HoldLeaves old.leaves (processes old kept) → NumbersTurn old new kept pid key proc now
        → q ≢ pid → proc_of (processes old kept) q ≡ Some other → numbers_in new other ≡ numbers_in old other }
    ensures forked { (old : Heap) (new : Heap) (was : TableView) (now : TableView) (pid : ℕ) (child : ℕ)
        → HoldLeaves old.leaves (processes old was) → (forked : IsForked old was new now pid child)
        → HasCopies old new forked.parent (child_proc forked.parent child forked.nodes forked.leaves)
        → HoldLeaves new.leaves (processes new now) }
    ensures ended { (h : Heap) (kept : TableView) (pid : ℕ) (status : ℕ)
        → Holds h kept → HasClosed (processes h kept) pid → HoldLeaves h.leaves (processes h kept)
        → HoldLeaves h.leaves (ended pid status (processes h kept)) }
    ensures waited { (h : Heap) (kept : TableView) (parent : ℕ) (which : ℤ) (answer : Reaped)
        → Holds h kept → answer ≡ reaped_of parent which (processes h kept) → HoldLeaves h.leaves (processes h kept)
        → HoldLeaves h.leaves (after_wait answer (processes h kept)) }
    ensures remembers { (h : Heap) (pid : ℕ) (nodes : List (Option ℕ)) (procs : List Proc)
        → HoldLeaves h.leaves procs → HoldLeaves h.leaves (map (with_nodes pid nodes) procs) }
    ensures replaced { (old : Heap) (new : Heap) (kept : TableView) (pid : ℕ) (key : ℕ) (proc : Proc) (now : Proc)
        → Holds old kept → ProcTurns old new kept pid key proc now
        → HoldLeaves old.leaves (processes old kept) → HoldLeaves new.leaves (processes new kept) }
{}

/// Where no process has a descriptor open none has one after any call, any may end, and a fork shares nothing.
pub fn nothing_open_stays_nothing_open()
    ensures closed { (pid : ℕ) (procs : List Proc) → NoneOpen procs → HasClosed procs pid }
    ensures shares { (h : Heap) (pid : ℕ) (parent : Proc) (procs : List Proc) (descs : List (Option Desc))
        → proc_of procs pid ≡ Some parent → NoneOpen procs
        → CanShare descs (numbers_in h parent) × (share_all descs (numbers_in h parent) ≡ descs) }
    ensures moves { (old : Heap) (new : Heap) (was : TableView) (now : TableView) (pid : ℕ) (parent : Proc)
        → proc_of (processes old was) pid ≡ Some parent → NoneOpen (processes old was)
        → new.descs ≡ share_all old.descs (numbers_in old parent) → new.leaves ≡ old.leaves
        → TableMoves (sharing old new) was new now → TableMoves old was new now }
    ensures forked { (pid : ℕ) (child : ℕ) (nodes : List (Option ℕ)) (parent : Proc) (procs : List Proc)
        → proc_of procs pid ≡ Some parent → NoneOpen procs → NoneOpen (procs ++ child_proc parent child nodes parent.leaves ∷ []) }
    ensures ended { (pid : ℕ) (status : ℕ) (procs : List Proc) → NoneOpen procs → NoneOpen (ended pid status procs) }
    ensures waited { (answer : Reaped) (procs : List Proc) → NoneOpen procs → NoneOpen (after_wait answer procs) }
    ensures remembers { (pid : ℕ) (nodes : List (Option ℕ)) (procs : List Proc)
        → NoneOpen procs → NoneOpen (map (with_nodes pid nodes) procs) }
    ensures replaced { (pid : ℕ) (now : Proc) (procs : List Proc)
        → IsClosed now → NoneOpen procs → NoneOpen (map (replaced pid now) procs) }
{}
