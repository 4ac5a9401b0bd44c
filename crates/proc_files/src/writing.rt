//! `write` and `pwrite` of files.

ghost use Rattle.std.specs.Prelude.{◌≡◌, ◌+◌, ◌≤◌, ◌<◌, ℕ, None, if◌then◌else◌};
ghost use Rattle.kabi_types.specs.Arguments.{argument_fault, count_of};
ghost use Rattle.kabi_types.specs.declared.calls.Call.{Call};
ghost use Rattle.kabi_types.specs.declared.scripts.Script.{Script};
ghost use Rattle.kheap_slabs.specs.Paid.{IsPaid};
ghost use Rattle.memfs_ops.specs.Changing.{LedTo};
ghost use Rattle.memfs_ops.specs.Fetching.{MayFetch};
ghost use Rattle.memfs_ops.specs.FileTree.{HeldSome, IsUsed, Pays, Stands};
ghost use Rattle.page_space.specs.Contents.{IsOwnedWith, StandsFor as IsMemory};
ghost use Rattle.page_space.specs.Entries.{IsMappedRange};
ghost use Rattle.open_laws.specs.Placed.{Numbers};
ghost use Rattle.posix_defs.specs.Account.{Account};
ghost use Rattle.posix_defs.specs.Calls.Writing.{pwrite, write_ignoring};
ghost use Rattle.posix_defs.specs.Memory.{Memory, loaded};
ghost use Rattle.posix_defs.specs.Plain.{Plain};
ghost use Rattle.posix_defs.specs.Tree.{Tree, size_at};
ghost use Rattle.posix_defs.specs.TreeChanges.{write as tree_write};
ghost use Rattle.proc_numbers.specs.Answering.{value_of};
ghost use Rattle.proc_table.specs.Procs.{IsAlive};
ghost use Rattle.proc_table.specs.Table.{IsPlaced, processes};
ghost use Rattle.proc_numbers.specs.Standing.{IsKept, StandsFor};
ghost use Rattle.proc_files.specs.Answering.{StaysOffNodes};
ghost use Rattle.proc_files.specs.Holding.{HoldFiles, HoldSome};
ghost use Rattle.proc_numbers.specs.Found.{IsOnNode, IsOpened};
ghost use Rattle.proc_files.specs.Reading.{HoldsFile, LeadsHolding};

use crate::nodes::{is_directory, move_to};
use crate::spaces::{FileBuffer, Range, range_of};
use kabi_types::Errno;
use kheap_slabs::{Desc, KHeap, Purse, Target};
use memfs_ops::FileTree;
use proc_numbers::{Named, count_of};
use proc_table::{Place, ProcTable};

/// Writes n bytes of a process's memory to the file that a number is open on, at the description's offset, or at the file's end where
/// it was opened so (O_APPEND), as many as there is room for; the offset moves behind them. How many.
///
/// EBADF where the number isn't open for writing, EFAULT where a page of the bytes isn't mapped, EFBIG where the place is at or
/// behind the greatest size, ENOSPC where there is no room for one byte; nothing is changed then (POSIX write).
pub fn write_file(
    heap: &mut KHeap,
    purse: &mut Purse,
    procs: &ProcTable,
    tree: &mut FileTree,
    buffer: &mut FileBuffer,
    place: Place,
    on: &Named,
    addr: i64,
    n: i64,
) -> Result<u32, Errno>
    requires kept { IsKept heap.old procs.now }
    requires alive { IsAlive (processes heap.old procs.now) place.pid }
    requires there { IsPlaced procs.now place }
    requires opened { IsOpened heap.old procs.now place.pid on.now }
    requires hold { HoldSome heap.old procs.now tree.old }
    requires on { IsOnNode heap.old procs.now place.pid on.now.fd }
    requires right { argument_fault (Call.Write on.now.fd addr n 0) ≡ None }
    requires may { MayFetch heap.old purse.old }
    ensures leads { (script : Script) (numbers : Numbers) (others : ℕ → ℕ) (plain : Plain) (account : Account)
        → StandsFor numbers heap.old procs.now plain account
        → HoldFiles numbers others heap.old procs.now tree.old plain.files
        → LeadsHolding script numbers others heap.new procs.now tree.new plain account place.pid (Call.Write on.now.fd addr n 0)
        (write_ignoring script plain place.pid on.now.fd addr n 0) (value_of result) }
    ensures kept { IsKept heap.new procs.now }
    ensures beside { heap.new ≡ record heap.old {
      descs = heap.new.descs;
      vnodes = heap.new.vnodes;
      names = heap.new.names;
      blocks = heap.new.blocks;
      high = heap.new.high;
    } }
    ensures paid { IsPaid heap.old purse.old heap.new purse.new }
    ensures reads { tree.old.disk.reads ≤ tree.new.disk.reads }
    ensures stays { StaysOffNodes heap.old procs.now place.pid on.now.fd tree.old tree.new }
{
    let Some(found) = on.found else {
        return Err(Errno::EBADF);
    };
    if !found.is_writable() {
        return Err(Errno::EBADF);
    }
    let Target::Inode(node) = found.desc.target else {
        unreachable!();
    };
    let Some(range) = range_of(heap, procs, place, addr, n) else {
        return Err(Errno::EFAULT);
    };
    if range.is_empty() {
        return Ok(0);
    }
    let at = place_of_write(heap, tree, &found.desc, node);
    match write_from(heap, purse, tree, buffer, &range, node, at) {
        Ok(count) => {
            move_to(heap, &found, at + u64::from(count));
            Ok(count)
        }
        Err(errno) => Err(errno),
    }
}

/// Writes n bytes of a process's memory to the file that a number is open on, at a place of it, whatever O_APPEND says, as many as
/// there is room for; the offset stays. How many.
///
/// EBADF where the number isn't open for writing, ESPIPE of a pipe and a socket, EISDIR of a directory, EFAULT where a page of the
/// bytes isn't mapped, EFBIG where the place is at or behind the greatest size, ENOSPC where there is no room for one byte; nothing
/// is changed then (POSIX pwrite).
pub fn pwrite_file(
    heap: &mut KHeap,
    purse: &mut Purse,
    procs: &ProcTable,
    tree: &mut FileTree,
    buffer: &mut FileBuffer,
    place: Place,
    on: &Named,
    addr: i64,
    n: i64,
    at: i64,
) -> Result<u32, Errno>
    requires kept { IsKept heap.old procs.now }
    requires alive { IsAlive (processes heap.old procs.now) place.pid }
    requires there { IsPlaced procs.now place }
    requires opened { IsOpened heap.old procs.now place.pid on.now }
    requires hold { HoldSome heap.old procs.now tree.old }
    requires right { argument_fault (Call.Pwrite on.now.fd addr n at) ≡ None }
    requires may { MayFetch heap.old purse.old }
    ensures leads { (script : Script) (numbers : Numbers) (others : ℕ → ℕ) (plain : Plain) (account : Account)
        → StandsFor numbers heap.old procs.now plain account
        → HoldFiles numbers others heap.old procs.now tree.old plain.files
        → LeadsHolding script numbers others heap.new procs.now tree.new plain account place.pid (Call.Pwrite on.now.fd addr n at)
        (pwrite script plain place.pid on.now.fd addr n at) (value_of result) }
    ensures kept { IsKept heap.new procs.now }
    ensures beside { heap.new ≡ record heap.old {
      vnodes = heap.new.vnodes;
      names = heap.new.names;
      blocks = heap.new.blocks;
      high = heap.new.high;
    } }
    ensures paid { IsPaid heap.old purse.old heap.new purse.new }
    ensures reads { tree.old.disk.reads ≤ tree.new.disk.reads }
    ensures stays { StaysOffNodes heap.old procs.now place.pid on.now.fd tree.old tree.new }
{
    let Some(found) = on.found else {
        return Err(Errno::EBADF);
    };
    if !found.is_writable() {
        return Err(Errno::EBADF);
    }
    let Target::Inode(node) = found.desc.target else {
        return Err(Errno::ESPIPE);
    };
    let info = tree.stat_node(heap, node);
    if is_directory(&info) {
        return Err(Errno::EISDIR);
    }
    let Some(range) = range_of(heap, procs, place, addr, n) else {
        return Err(Errno::EFAULT);
    };
    if range.is_empty() {
        return Ok(0);
    }
    write_from(heap, purse, tree, buffer, &range, node, count_of(at))
}

// Where a write goes in a file.
fn place_of_write(heap: &KHeap, tree: &mut FileTree, desc: &Desc, node: u32) -> u64
    requires held { HeldSome heap.now tree.old node }
    ensures place { (plain : Tree) (pins : ℕ → ℕ) → Stands heap.now tree.old plain pins
        → result ≡ (if desc.now.flags.append then size_at plain node else desc.now.offset) }
    ensures stands { (plain : Tree) (pins : ℕ → ℕ) → Stands heap.now tree.old plain pins → Stands heap.now tree.new plain pins }
    ensures used { IsUsed tree.old tree.new }
{
    if desc.flags.append {
        u64::from(tree.stat_node(heap, node).size)
    } else {
        desc.offset
    }
}

// Writes bytes of memory to a place of a file, as many as there is room for. How many.
fn write_from(
    heap: &mut KHeap,
    purse: &mut Purse,
    tree: &mut FileTree,
    buffer: &mut FileBuffer,
    range: &Range,
    node: u32,
    at: u64,
) -> Result<u32, Errno>
    requires file { HoldsFile heap.old tree.old node }
    requires may { MayFetch heap.old purse.old }
    requires owned { IsOwnedWith heap.old range.now.space }
    requires mapped { IsMappedRange heap.old.nodes range.now.space range.now.start range.now.count }
    requires within { range.now.start + range.now.count ≤ 1048576 }
    requires some { 0 < range.now.count }
    requires few { range.now.count ≤ 32767 }
    ensures answer { (plain : Tree) (pins : ℕ → ℕ) (memory : Memory) → Stands heap.old tree.old plain pins
        → IsMemory heap.old range.now.space memory
        → LedTo heap.new tree.new plain (tree_write plain node at (loaded memory range.now.start range.now.count)) pins result }
    ensures pays { Pays heap.old heap.new purse.old purse.new tree.old tree.new }
{
    let bytes = &mut buffer[..range.count as usize];
    range.space.copy_out(heap, range.start, bytes);
    tree.write_node(heap, purse, node, at, bytes)
}
