//! How processes end.

ghost use Rattle.std.specs.Prelude.{◌≡◌, ◌≢◌, ◌+◌, ◌-◌, ◌<◌, ◌≤◌, ℕ, IfSome, None, false, map};
ghost use Rattle.std.specs.List.{range_with_len};
ghost use Rattle.kabi_types.specs.declared.scripts.Control.{Control};
ghost use Rattle.kabi_types.specs.declared.scripts.Script.{Script};
ghost use Rattle.kheap_slabs.specs.Heap.{live_bytes};
ghost use Rattle.kheap_slabs.specs.Paid.{CanPay, IsPaid};
ghost use Rattle.open_laws.specs.Placed.{Numbers};
ghost use Rattle.posix_defs.specs.Files.Closing.{after_end_of, after_ends_of};
ghost use Rattle.posix_defs.specs.Files.State.{Files};
ghost use Rattle.posix_defs.specs.Memory.{Frames, after_clear};
ghost use Rattle.posix_defs.specs.Process.{Table};
ghost use Rattle.posix_defs.specs.Reaching.{ends_node};
ghost use Rattle.posix_defs.specs.Sizes.{reserve};
ghost use Rattle.posix_defs.specs.World.{World};
ghost use Rattle.proc_numbers.specs.Queues.{QueuesStand};
ghost use Rattle.proc_table.specs.Accounting.{HasAccount};
ghost use Rattle.proc_table.specs.Changes.{ended};
ghost use Rattle.proc_table.specs.Procs.{IsAlive};
ghost use Rattle.proc_table.specs.Standing.{IsTable, ends_from, ends_in};
ghost use Rattle.proc_table.specs.Table.{Holds, IsPlaced};
ghost use Rattle.process_calls.specs.Ending.{WorldWithout};
ghost use Rattle.process_calls.specs.Endings.{ClearsSome, HaveLocks, HoldBeside, HoldFilesOf, HoldSomeFiles, IsLowestBehind, shut};
ghost use Rattle.store_objects.specs.Objects.{AreKept, Runs, is_running, procs_of};
ghost use Rattle.store_objects.specs.Purses.{closing_need, unspent};
ghost use Rattle.store_objects.specs.Standing.{IsSound, StandsFor};
ghost use Rattle.store_objects.specs.Trees.{KeptStays};
ghost use Rattle.store_objects.specs.Uses.{UsesAtMost};

use kheap_slabs::Purse;
use proc_files::close_each;
use proc_table::Place;
use store_objects::{Objects, directory_of, kept_back, let_go};

/// The pid of the first process.
pub const INIT: u32 = 1;

/// The signal that ends a process at once.
pub const SIGKILL: u16 = 9;

/// The signal that ends who writes what nobody reads.
pub(crate) const SIGPIPE: u16 = 13;

/// Of the processes that run and have a higher pid than this the lowest.
fn live_behind(objects: &Objects, pid: u32) -> Option<u32>
    requires { Holds objects.now.heap objects.now.procs }
    ensures none { result ≡ None → (q : ℕ) → pid < q → is_running (procs_of objects.now) q ≡ false }
    ensures lowest { IfSome result (IsLowestBehind (procs_of objects.now) pid) }
{
    for place in objects.procs.listed() {
        if place.pid > pid && objects.heap.get_proc(place.key).status.is_none() {
            return Some(place.pid);
        }
    }
    None
}

/// Ends one process that runs: it closes what it has open, and leaves its children. Where it worked is still held.
fn shut_down(objects: &mut Objects, purse: &mut Purse, place: Place, status: u16)
    requires kept { (script : Script) × AreKept script objects.old }
    requires alive { IsAlive (procs_of objects.old) place.pid }
    requires there { IsPlaced objects.old.procs place }
    requires holds { HoldSomeFiles objects.old }
    requires back { purse.old ≡ unspent closing_need }
    requires room { CanPay objects.old.heap purse.old }
    ensures kept { (script : Script) → AreKept script objects.old → AreKept script objects.new }
    ensures last { objects.new.procs.last ≡ objects.old.procs.last }
    ensures ended { procs_of objects.new ≡ ended place.pid status (map (shut place.pid) (procs_of objects.old)) }
    ensures table { (table : Table) → IsTable objects.old.heap objects.old.procs table
        → IsTable objects.new.heap objects.new.procs (ends_in table place.pid status) }
    ensures account { (frames : Frames) → HasAccount objects.old.heap objects.old.procs frames
        → HasAccount objects.new.heap objects.new.procs (after_clear frames place.pid) }
    ensures holds { (numbers : Numbers) (others : ℕ → ℕ) (files : Files) → HoldBeside numbers others objects.old files
        → HoldBeside numbers others objects.new (after_end_of files place.pid) }
    ensures locks { (numbers : Numbers) (others : ℕ → ℕ) (files : Files) → HoldBeside numbers others objects.old files
        → HaveLocks objects.old files → HaveLocks objects.new (after_end_of files place.pid) }
    ensures queues { QueuesStand objects.old.heap objects.new.heap }
    ensures stays { (numbers : Numbers) (others : ℕ → ℕ) (files : Files) → HoldBeside numbers others objects.old files
        → ends_node files (after_end_of files place.pid) ≡ false → objects.new.tree ≡ objects.old.tree }
    ensures reads { objects.old.tree.disk.reads ≤ objects.new.tree.disk.reads }
    ensures same { purse.new ≡ purse.old }
    ensures paid { IsPaid objects.old.heap purse.old objects.new.heap purse.new }
{
    close_each(
        &mut objects.heap,
        purse,
        &objects.procs,
        &mut objects.tree,
        &mut objects.names,
        &mut objects.fifos,
        &mut objects.locks,
        place,
    );
    objects.wait_in(place, None);
    objects.procs.end(&mut objects.heap, place.pid, status);
}

/// Ends one process that runs: it closes what it has open, leaves its children, and lets the directory go that it worked in.
fn end_one(objects: &mut Objects, purse: &mut Purse, place: Place, status: u16)
    requires kept { (script : Script) × AreKept script objects.old }
    requires alive { IsAlive (procs_of objects.old) place.pid }
    requires there { IsPlaced objects.old.procs place }
    requires holds { HoldSomeFiles objects.old }
    requires back { purse.old ≡ unspent closing_need }
    requires room { CanPay objects.old.heap purse.old }
    ensures kept { (script : Script) → AreKept script objects.old → AreKept script objects.new }
    ensures last { objects.new.procs.last ≡ objects.old.procs.last }
    ensures ended { procs_of objects.new ≡ ended place.pid status (map (shut place.pid) (procs_of objects.old)) }
    ensures table { (table : Table) → IsTable objects.old.heap objects.old.procs table
        → IsTable objects.new.heap objects.new.procs (ends_in table place.pid status) }
    ensures account { (frames : Frames) → HasAccount objects.old.heap objects.old.procs frames
        → HasAccount objects.new.heap objects.new.procs (after_clear frames place.pid) }
    ensures holds { (numbers : Numbers) (files : Files) → HoldFilesOf numbers objects.old files
        → HoldFilesOf numbers objects.new (after_end_of files place.pid) }
    ensures locks { (numbers : Numbers) (files : Files) → HoldFilesOf numbers objects.old files
        → HaveLocks objects.old files → HaveLocks objects.new (after_end_of files place.pid) }
    ensures queues { QueuesStand objects.old.heap objects.new.heap }
    ensures stays { (numbers : Numbers) (files : Files) → HoldFilesOf numbers objects.old files
        → ends_node files (after_end_of files place.pid) ≡ false → KeptStays objects.old.tree objects.new.tree }
    ensures reads { objects.old.tree.disk.reads ≤ objects.new.tree.disk.reads }
    ensures same { purse.new ≡ purse.old }
    ensures paid { IsPaid objects.old.heap purse.old objects.new.heap purse.new }
{
    let directory = directory_of(objects, place);
    shut_down(objects, purse, place, status);
    let_go(objects, directory);
}

/// Ends all that run behind the first process, by rising pid.
fn end_others(objects: &mut Objects, purse: &mut Purse)
    requires kept { (script : Script) × AreKept script objects.old }
    requires holds { HoldSomeFiles objects.old }
    requires back { purse.old ≡ unspent closing_need }
    requires room { CanPay objects.old.heap purse.old }
    ensures kept { (script : Script) → AreKept script objects.old → AreKept script objects.new }
    ensures last { objects.new.procs.last ≡ objects.old.procs.last }
    ensures table { (table : Table) → IsTable objects.old.heap objects.old.procs table
        → IsTable objects.new.heap objects.new.procs (ends_from objects.old.procs.last 2 table 9) }
    ensures account { (frames : Frames) → HasAccount objects.old.heap objects.old.procs frames
        → (after : Frames) × HasAccount objects.new.heap objects.new.procs after × ClearsSome frames after }
    ensures holds { (numbers : Numbers) (files : Files) → HoldFilesOf numbers objects.old files
        → HoldFilesOf numbers objects.new (after_ends_of files (range_with_len 2 (objects.old.procs.last - 1))) }
    ensures locks { (numbers : Numbers) (files : Files) → HoldFilesOf numbers objects.old files
        → HaveLocks objects.old files → HaveLocks objects.new (after_ends_of files (range_with_len 2 (objects.old.procs.last - 1))) }
    ensures queues { QueuesStand objects.old.heap objects.new.heap }
    ensures stays { (numbers : Numbers) (files : Files) → HoldFilesOf numbers objects.old files
        → ends_node files (after_ends_of files (range_with_len 2 (objects.old.procs.last - 1))) ≡ false
        → KeptStays objects.old.tree objects.new.tree }
    ensures reads { objects.old.tree.disk.reads ≤ objects.new.tree.disk.reads }
    ensures same { purse.new ≡ purse.old }
    ensures paid { IsPaid objects.old.heap purse.old objects.new.heap purse.new }
{
    let mut pid = INIT;
    while let Some(next) = live_behind(objects, pid) {
        let key = objects.key_there(next);
        let place = Place { pid: next, key };
        end_one(objects, purse, place, SIGKILL);
        pid = next;
    }
}

/// Ends a process that runs with this wait status: it closes what it has open, the lowest number first, leaves its children and lets
/// its working directory go. With the first process all others end, and nobody is left. What the closings ask for is taken of what is
/// kept back for ends, and is free again behind it.
///
/// <https://pubs.opengroup.org/onlinepubs/9699919799/functions/_exit.html>
pub fn end(objects: &mut Objects, place: Place, status: u16)
    requires stands { (script : Script) × (world : World) × StandsFor script objects.old world × IsSound world.plain }
    requires alive { IsAlive (procs_of objects.old) place.pid }
    requires there { IsPlaced objects.old.procs place }
    requires room { live_bytes objects.old.heap + reserve ≤ objects.old.heap.heap }
    ensures kept { (script : Script) → AreKept script objects.old → AreKept script objects.new }
    ensures uses { UsesAtMost objects.old.heap objects.new.heap 0 reserve }
    ensures others { place.pid ≢ 1 → (other : ℕ) (control : Control) → other ≢ place.pid → Runs objects.old other control → Runs objects.new other control }
    ensures dies { (script : Script) (world : World) → StandsFor script objects.old world → IsSound world.plain
        → WorldWithout script objects.new world place.pid status }
{
    objects.heap_is_well_formed();
    let mut purse = kept_back();
    end_one(objects, &mut purse, place, status);
    if place.pid == INIT {
        end_others(objects, &mut purse);
    }
}
