//! What is open on a node, and where, and what the heap keeps.

ghost use Rattle.std.specs.Prelude.{◌≡◌, ℕ, Some};
ghost use Rattle.kheap_slabs.specs.Objects.{object};
ghost use Rattle.kheap_slabs.specs.Heap.{IsWellFormed};
ghost use Rattle.kheap_slabs.specs.Paid.{TakesNothing};
ghost use Rattle.posix_defs.specs.PathCalls.{is_fifo, stat_info};
ghost use Rattle.posix_defs.specs.Tree.{Tree, is_directory};
ghost use Rattle.proc_files.specs.Seeking.{MovesDesc};

use kabi_types::{NodeKind, StatInfo};
use kheap_slabs::{Desc, KHeap};
use proc_numbers::Found;

/// Whether what is told of a node is told of a directory.
pub(crate) fn is_directory(info: &StatInfo) -> bool
    ensures { (tree : Tree) (number : ℕ) → info.now ≡ stat_info tree number → result ≡ is_directory tree number }
{
    match info.kind {
        NodeKind::Dir => true,
        NodeKind::File | NodeKind::Sock | NodeKind::Pipe | NodeKind::Fifo => false,
    }
}

/// Whether what is told of a node is told of a FIFO.
pub(crate) fn is_fifo(info: &StatInfo) -> bool
    ensures { (tree : Tree) (number : ℕ) → info.now ≡ stat_info tree number → result ≡ is_fifo tree number }
{
    match info.kind {
        NodeKind::Fifo => true,
        NodeKind::File | NodeKind::Dir | NodeKind::Sock | NodeKind::Pipe => false,
    }
}

/// The offset that a description is at. It is asked for by a call, since what a call tells is known to fit its type.
pub(crate) fn offset_of(found: &Found) -> u64
    ensures { result ≡ found.now.desc.offset }
{
    found.desc.offset
}

/// A description is at another offset from now on, for all numbers that name it.
pub(crate) fn move_to(heap: &mut KHeap, found: &Found, offset: u64)
    requires { object heap.old.descs found.now.key ≡ Some found.now.desc }
    ensures moved { MovesDesc heap.old heap.new found.now.key found.now.desc offset }
    ensures takes { TakesNothing heap.old heap.new }
{
    heap.set_desc(
        found.key,
        Desc {
            offset,
            ..found.desc
        },
    );
}

/// The heap is well formed: what there is of each class fits in it, and each row of its objects is as long as it was reserved.
pub(crate) fn is_well_formed(heap: &KHeap)
    ensures { IsWellFormed heap.now }
{
    let _ = heap.heap();
}
