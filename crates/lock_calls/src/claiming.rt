//! The file of a request, and who may hold its places.

ghost use Rattle.std.specs.Prelude.{◌≡◌, ℕ, [], Ok};
ghost use Rattle.kheap_slabs.specs.Heap.{Heap};
ghost use Rattle.memfs_ops.specs.FileTree.{IsUsed};
ghost use Rattle.open_laws.specs.Described.{access_in};
ghost use Rattle.open_laws.specs.Owned.{HasItsOwners};
ghost use Rattle.open_laws.specs.Placed.{Numbers};
ghost use Rattle.posix_defs.specs.Calls.OnLocks.{kind_asked, may_hold};
ghost use Rattle.posix_defs.specs.Calls.Opened.{opened_at};
ghost use Rattle.posix_defs.specs.Files.State.{Files};
ghost use Rattle.posix_defs.specs.PathCalls.{stat_info};
ghost use Rattle.posix_defs.specs.Tree.{Tree, is_directory};
ghost use Rattle.proc_files.specs.Answering.{StaysOffNodes};
ghost use Rattle.proc_files.specs.Holding.{HoldFiles, HoldSome};
ghost use Rattle.proc_numbers.specs.Found.{IsOpened};
ghost use Rattle.proc_numbers.specs.Having.{AreListed, HaveOpen};
ghost use Rattle.proc_table.specs.Table.{IsPlaced, TableView};
ghost use Rattle.lock_calls.specs.Claiming.{claimed_by, file_by, node_in};

use crate::requests::{F_RDLCK, F_WRLCK};
use kabi_types::{Errno, NodeKind, StatInfo};
use kheap_slabs::{KHeap, Target};
use memfs_ops::FileTree;
use proc_numbers::{Found, Named};
use proc_table::{Place, ProcTable};

/// The file in which a number asks for places with a kind: EBADF where the number isn't open, EINVAL where it is open on no regular
/// file, EBADF where it isn't open for that.
pub(crate) fn claimed(
    heap: &KHeap,
    procs: &ProcTable,
    tree: &mut FileTree,
    place: Place,
    on: &Named,
    kind: u32,
) -> Result<u32, Errno>
    requires listed { AreListed heap.now procs.now }
    requires owners { HasItsOwners heap.now [] }
    requires there { IsPlaced procs.now place }
    requires opened { IsOpened heap.now procs.now place.pid on.now }
    requires hold { HoldSome heap.now procs.now tree.old }
    ensures file { (numbers : Numbers) (others : ℕ → ℕ) (files : Files) → HoldFiles numbers others heap.now procs.now tree.old files
        → result ≡ claimed_by files (kind_asked kind) (opened_at files place.pid on.now.fd) }
    ensures holds { (numbers : Numbers) (others : ℕ → ℕ) (files : Files) → HoldFiles numbers others heap.now procs.now tree.old files
        → HoldFiles numbers others heap.now procs.now tree.new files }
    ensures hold { HoldSome heap.now procs.now tree.new }
    ensures used { IsUsed tree.old tree.new }
    ensures stays { StaysOffNodes heap.now procs.now place.pid on.now.fd tree.old tree.new }
{
    match file_of(heap, procs, tree, place, on) {
        Ok(file) => claim(on, kind, file),
        Err(errno) => Err(errno),
    }
}

/// The same file, where it is open for that.
fn claim(on: &Named, kind: u32, file: u32) -> Result<u32, Errno>
    ensures { (h : Heap) (kept : TableView) (pid : ℕ) (numbers : Numbers) (files : Files) → IsOpened h kept pid on.now → HaveOpen numbers h kept files
        → Ok file ≡ file_by files (opened_at files pid on.now.fd) → result ≡ claimed_by files (kind_asked kind) (opened_at files pid on.now.fd) }
{
    let Some(found) = on.found else {
        return Err(Errno::EBADF);
    };
    if may_hold(&found, kind) {
        Ok(file)
    } else {
        Err(Errno::EBADF)
    }
}

/// The regular file that a number is open on: EBADF where the number isn't open, EINVAL where it is open on something else.
pub(crate) fn file_of(
    heap: &KHeap,
    procs: &ProcTable,
    tree: &mut FileTree,
    place: Place,
    on: &Named,
) -> Result<u32, Errno>
    requires listed { AreListed heap.now procs.now }
    requires owners { HasItsOwners heap.now [] }
    requires there { IsPlaced procs.now place }
    requires opened { IsOpened heap.now procs.now place.pid on.now }
    requires hold { HoldSome heap.now procs.now tree.old }
    ensures file { (numbers : Numbers) (others : ℕ → ℕ) (files : Files) → HoldFiles numbers others heap.now procs.now tree.old files
        → result ≡ file_by files (opened_at files place.pid on.now.fd) }
    ensures holds { (numbers : Numbers) (others : ℕ → ℕ) (files : Files) → HoldFiles numbers others heap.now procs.now tree.old files
        → HoldFiles numbers others heap.now procs.now tree.new files }
    ensures hold { HoldSome heap.now procs.now tree.new }
    ensures used { IsUsed tree.old tree.new }
    ensures stays { StaysOffNodes heap.now procs.now place.pid on.now.fd tree.old tree.new }
{
    let Some(found) = on.found else {
        return Err(Errno::EBADF);
    };
    let Some(node) = node_of(found.desc.target) else {
        return Err(Errno::EINVAL);
    };
    let info = tree.stat_node(heap, node);
    if is_directory(&info) {
        return Err(Errno::EINVAL);
    }
    Ok(node)
}

/// Whether what is told of a node is told of a directory.
fn is_directory(info: &StatInfo) -> bool
    ensures { (tree : Tree) (number : ℕ) → info.now ≡ stat_info tree number → result ≡ is_directory tree number }
{
    match info.kind {
        NodeKind::Dir => true,
        NodeKind::File | NodeKind::Sock | NodeKind::Pipe | NodeKind::Fifo => false,
    }
}

/// The node that a target is, of a file or a directory.
pub(crate) fn node_of(target: Target) -> Option<u32>
    ensures { result ≡ node_in target }
{
    match target {
        Target::Inode(node) => Some(node),
        Target::Pipe(_) | Target::Sock(_) => None,
    }
}

/// Whether places may be held with a kind through what is open: with others by who may read, alone by who may write. To let go takes
/// neither.
pub(crate) fn may_hold(found: &Found, kind: u32) -> bool
    ensures { result ≡ may_hold (access_in found.now.desc.access) (kind_asked kind) }
{
    match kind {
        F_RDLCK => found.is_readable(),
        F_WRLCK => found.is_writable(),
        _ => true,
    }
}
