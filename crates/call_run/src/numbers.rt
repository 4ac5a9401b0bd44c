//! The number that a call has, and what it names, found once for each turn; and what a call that moves bytes moves them of.

ghost use Rattle.std.specs.Prelude.{◌≡◌, ℕ, ℤ, Some, false};
ghost use Rattle.kabi_types.specs.declared.scripts.Script.{Script};
ghost use Rattle.kheap_slabs.specs.Heap.{Heap};
ghost use Rattle.posix_defs.specs.World.{World};
ghost use Rattle.proc_numbers.specs.Found.{IsOpened};
ghost use Rattle.proc_table.specs.Table.{IsPlaced, TableView};
ghost use Rattle.store_objects.specs.Objects.{AreKept};
ghost use Rattle.store_objects.specs.Standing.{StandsFor};
ghost use Rattle.store_objects.specs.declared.objects.Objects.{Objects as Standing};
ghost use Rattle.store_objects.specs.declared.purses.Target.TheVariants.{File, Queue};
ghost use Rattle.call_run.specs.Families.{HasHalf, IsFresh, IsOffFiles, IsOnFile, is_moving, number_of};

use kabi_types::Call;
use proc_numbers::{Named, opened};
use proc_table::Place;
use store_objects::{Objects, Target};

/// What stands for the number of a call that has none: one that is never open.
const UNNAMED: Named = Named {
    fd: -1,
    found: None,
};

/// The number of a descriptor that a call has, of `dup2` that of the one that is copied; None of a call that has none.
fn number_of(call: &Call) -> Option<i64>
    ensures { result ≡ number_of call.now }
{
    match call {
        Call::Close { fd } => Some(*fd),
        Call::Dup { fd } => Some(*fd),
        Call::Dup2 { fd, .. } => Some(*fd),
        Call::Fcntl { fd, .. } => Some(*fd),
        Call::Read { fd, .. } => Some(*fd),
        Call::Write { fd, .. } => Some(*fd),
        Call::Pread { fd, .. } => Some(*fd),
        Call::Pwrite { fd, .. } => Some(*fd),
        Call::Lseek { fd, .. } => Some(*fd),
        Call::Readdir { fd, .. } => Some(*fd),
        Call::Ftruncate { fd, .. } => Some(*fd),
        Call::Fstat { fd } => Some(*fd),
        Call::Bind { fd, .. } => Some(*fd),
        Call::Listen { fd } => Some(*fd),
        Call::Connect { fd, .. } => Some(*fd),
        Call::Accept { fd } => Some(*fd),
        Call::Shutdown { fd, .. } => Some(*fd),
        Call::Setlk { fd, .. } => Some(*fd),
        Call::Setlkw { fd, .. } => Some(*fd),
        Call::Getlk { fd, .. } => Some(*fd),
        _ => None,
    }
}

/// The number that a call of a process has, and what it names. A call that has none names nothing.
pub(crate) fn named_by(objects: &Objects, place: Place, call: &Call) -> Named
    requires kept { (script : Script) × AreKept script objects.now }
    requires placed { IsPlaced objects.now.procs place }
    ensures number { (fd : ℤ) → number_of call.now ≡ Some fd → result.fd ≡ fd }
    ensures opened { IsOpened objects.now.heap objects.now.procs place.pid result }
{
    match number_of(call) {
        Some(number) => opened(&objects.heap, &objects.procs, place, number),
        None => UNNAMED,
    }
}

/// Whether a call moves bytes of whatever is open.
fn moves(call: &Call) -> bool
    ensures { result ≡ is_moving call.now }
{
    match call {
        Call::Read { .. } | Call::Write { .. } => true,
        _ => false,
    }
}

/// What a call moves bytes of: a queue where it reads or writes a number that isn't open on a node, and else a file, or nothing. Of a
/// file nobody has written a part, so that a write to one begins anew.
pub(crate) fn target_of(call: &Call, on: &Named) -> Target
    ensures other { is_moving call.now ≡ false → result ≡ File }
    ensures on { (h : Heap) (kept : TableView) (pid : ℕ) → IsOpened h kept pid on.now → number_of call.now ≡ Some on.now.fd
        → result ≡ File → IsOnFile h kept pid call.now }
    ensures off { (h : Heap) (kept : TableView) (pid : ℕ) → IsOpened h kept pid on.now → number_of call.now ≡ Some on.now.fd
        → result ≡ Queue → IsOffFiles h kept pid call.now }
    ensures fresh { (script : Script) (objects : Standing) (world : World) (pid moved : ℕ) → IsOpened objects.heap objects.procs pid on.now
        → number_of call.now ≡ Some on.now.fd → result ≡ File → StandsFor script objects world → HasHalf world.plain.files pid call.now moved
        → IsFresh call.now }
{
    if !moves(call) {
        return Target::File;
    }
    if on.is_on_node() {
        Target::File
    } else {
        Target::Queue
    }
}
