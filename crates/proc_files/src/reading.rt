//! `read` and `pread` of files, and `readdir`.

ghost use Rattle.std.specs.Prelude.{◌≡◌, ◌/◌, ◌-◌, ◌+◌, ◌%◌, ◌≤◌, ◌<◌, ℕ, None, Some, length};
ghost use Rattle.std.specs.List.{AllByRecursion};
ghost use Rattle.kabi_types.specs.Arguments.{argument_fault, count_of};
ghost use Rattle.kabi_types.specs.declared.calls.Call.{Call};
ghost use Rattle.kabi_types.specs.declared.scripts.Script.{Script};
ghost use Rattle.kabi_types.specs.declared.inodes.Inode.{Inode};
ghost use Rattle.kheap_slabs.specs.declared.objects.Desc.{Desc as HeldDesc};
ghost use Rattle.kheap_slabs.specs.Paid.{IsPaid};
ghost use Rattle.memfs_ops.specs.Fetching.{MayFetch};
ghost use Rattle.memfs_ops.specs.FileTree.{Stands};
ghost use Rattle.memfs_file.specs.Ranges.{asked_to_read};
ghost use Rattle.cached_disk.specs.Lent.{IsCached};
ghost use Rattle.page_space.specs.Contents.{IsOwnedWith};
ghost use Rattle.page_space.specs.Entries.{IsMappedRange};
ghost use Rattle.open_laws.specs.Placed.{Numbers};
ghost use Rattle.posix_defs.specs.Account.{Account};
ghost use Rattle.posix_defs.specs.Calls.Reading.{pread, read, readdir};
ghost use Rattle.posix_defs.specs.Needs.{pages_touched};
ghost use Rattle.posix_defs.specs.PathCalls as calls;
ghost use Rattle.posix_defs.specs.Plain.{Plain};
ghost use Rattle.posix_defs.specs.DiskContents.{data_block};
ghost use Rattle.posix_defs.specs.DiskFormat.{block_size};
ghost use Rattle.posix_defs.specs.SoundDisk.{HasNode};
ghost use Rattle.posix_defs.specs.Tree.{Tree};
ghost use Rattle.proc_numbers.specs.Answering.{value_of};
ghost use Rattle.proc_table.specs.Procs.{IsAlive};
ghost use Rattle.proc_table.specs.Table.{IsPlaced, processes};
ghost use Rattle.proc_numbers.specs.Standing.{IsKept, StandsFor};
ghost use Rattle.proc_files.specs.Answering.{StaysOffNodes};
ghost use Rattle.proc_files.specs.Holding.{HoldFiles, HoldSome};
ghost use Rattle.proc_numbers.specs.Found.{IsOnNode, IsOpened};
ghost use Rattle.proc_files.specs.Reading.{HoldsDirectory, HoldsFile, KeepsRead, LeadsHolding, ReadsNode, SavesRead, moved_by};

use crate::nodes::{is_directory, move_to, offset_of};
use crate::spaces::{FileBuffer, Range, range_of};
use kabi_types::Errno;
use kheap_slabs::{KHeap, Purse, Target};
use memfs_ops::FileTree;
use proc_numbers::{Named, count_of};
use proc_table::{Place, ProcTable};

/// Reads at most n bytes of the file that a number is open on into a process's memory, from the description's offset on, as many
/// as are there; the offset moves behind them. How many; none at the file's end.
///
/// EBADF where the number isn't open for reading, EISDIR of a directory, EFAULT where a page that n bytes would touch isn't mapped
/// (POSIX read).
pub fn read_file(
    heap: &mut KHeap,
    purse: &mut Purse,
    procs: &ProcTable,
    tree: &mut FileTree,
    buffer: &mut FileBuffer,
    place: Place,
    on: &Named,
    addr: i64,
    n: i64,
) -> Result<u32, Errno>
    requires kept { IsKept heap.old procs.now }
    requires alive { IsAlive (processes heap.old procs.now) place.pid }
    requires there { IsPlaced procs.now place }
    requires opened { IsOpened heap.old procs.now place.pid on.now }
    requires hold { HoldSome heap.old procs.now tree.old }
    requires on { IsOnNode heap.old procs.now place.pid on.now.fd }
    requires right { argument_fault (Call.Read on.now.fd addr n) ≡ None }
    requires may { MayFetch heap.old purse.old }
    requires left { pages_touched (count_of addr) (count_of n) ≤ purse.old.left.page }
    ensures leads { (script : Script) (numbers : Numbers) (others : ℕ → ℕ) (plain : Plain) (account : Account)
        → StandsFor numbers heap.old procs.now plain account
        → HoldFiles numbers others heap.old procs.now tree.old plain.files
        → LeadsHolding script numbers others heap.new procs.now tree.new plain account place.pid (Call.Read on.now.fd addr n)
        (read script plain place.pid on.now.fd addr n) (value_of result) }
    ensures kept { IsKept heap.new procs.now }
    ensures beside { heap.new ≡ record heap.old {
      nodes = heap.new.nodes;
      pages = heap.new.pages;
      descs = heap.new.descs;
      blocks = heap.new.blocks;
      high = heap.new.high;
    } }
    ensures paid { IsPaid heap.old purse.old heap.new purse.new }
    ensures reads { tree.old.disk.reads ≤ tree.new.disk.reads }
    ensures stays { StaysOffNodes heap.old procs.now place.pid on.now.fd tree.old tree.new }
    ensures saved { SavesRead heap.old procs.now place.pid on.now.fd tree.old tree.new (λ (desc : HeldDesc). desc.offset) (moved_by result) }
    ensures last { KeepsRead heap.old procs.now place.pid on.now.fd tree.old tree.new (λ (desc : HeldDesc). desc.offset) (moved_by result) }
{
    let Some(found) = on.found else {
        return Err(Errno::EBADF);
    };
    if !found.is_readable() {
        return Err(Errno::EBADF);
    }
    let Target::Inode(node) = found.desc.target else {
        unreachable!();
    };
    let info = tree.stat_node(heap, node);
    if is_directory(&info) {
        return Err(Errno::EISDIR);
    }
    let Some(mut range) = range_of(heap, procs, place, addr, n) else {
        return Err(Errno::EFAULT);
    };
    if range.is_empty() {
        return Ok(0);
    }
    let at = offset_of(&found);
    let count = read_into(heap, purse, tree, buffer, &mut range, node, at);
    move_to(heap, &found, at + u64::from(count));
    Ok(count)
}

// Reads bytes of a file from a place on into memory, as many as are there. How many.
fn read_into(
    heap: &mut KHeap,
    purse: &mut Purse,
    tree: &mut FileTree,
    buffer: &mut FileBuffer,
    range: &mut Range,
    node: u32,
    at: u64,
) -> u32
    requires file { HoldsFile heap.old tree.old node }
    requires may { MayFetch heap.old purse.old }
    requires owned { IsOwnedWith heap.old range.old.space }
    requires mapped { IsMappedRange heap.old.nodes range.old.space range.old.start range.old.count }
    requires within { range.old.start + range.old.count ≤ 1048576 }
    requires few { range.old.count ≤ 32767 }
    requires left { pages_touched range.old.start range.old.count ≤ purse.old.left.page }
    ensures reads { (plain : Tree) (pins : ℕ → ℕ) → Stands heap.old tree.old plain pins
        → ReadsNode heap.old purse.old heap.new purse.new tree.old tree.new range.old.space range.old.start
        (calls.read_node plain node at range.old.count) }
    ensures count { (plain : Tree) (pins : ℕ → ℕ) → Stands heap.old tree.old plain pins
        → result ≡ length (calls.read_node plain node at range.old.count) }
    ensures saved { (inode : Inode) → HasNode tree.old.disk.blocks node inode
        → AllByRecursion (IsCached tree.old.blocks) (asked_to_read tree.old.disk.blocks inode at result)
        → tree.new.disk ≡ tree.old.disk }
    ensures last { (inode : Inode) → HasNode tree.old.disk.blocks node inode → 0 < result
        → IsCached tree.new.blocks (data_block tree.old.disk.blocks inode ((at + result - 1) / block_size)) }
{
    let out = &mut buffer[..range.count as usize];
    let count = tree.read_node(heap, purse, node, at, out);
    range
        .space
        .copy_in(heap, purse, range.start, &out[..count as usize]);
    count
}

/// Reads at most n bytes of the file that a number is open on into a process's memory, from a place of the file on, as many as are
/// there; the offset stays. How many; none at the file's end.
///
/// EBADF where the number isn't open for reading, ESPIPE of a pipe and a socket, EISDIR of a directory, EFAULT where a page that n
/// bytes would touch isn't mapped (POSIX pread).
pub fn pread_file(
    heap: &mut KHeap,
    purse: &mut Purse,
    procs: &ProcTable,
    tree: &mut FileTree,
    buffer: &mut FileBuffer,
    place: Place,
    on: &Named,
    addr: i64,
    n: i64,
    at: i64,
) -> Result<u32, Errno>
    requires kept { IsKept heap.old procs.now }
    requires alive { IsAlive (processes heap.old procs.now) place.pid }
    requires there { IsPlaced procs.now place }
    requires opened { IsOpened heap.old procs.now place.pid on.now }
    requires hold { HoldSome heap.old procs.now tree.old }
    requires right { argument_fault (Call.Pread on.now.fd addr n at) ≡ None }
    requires may { MayFetch heap.old purse.old }
    requires left { pages_touched (count_of addr) (count_of n) ≤ purse.old.left.page }
    ensures leads { (script : Script) (numbers : Numbers) (others : ℕ → ℕ) (plain : Plain) (account : Account)
        → StandsFor numbers heap.old procs.now plain account
        → HoldFiles numbers others heap.old procs.now tree.old plain.files
        → LeadsHolding script numbers others heap.new procs.now tree.new plain account place.pid (Call.Pread on.now.fd addr n at)
        (pread script plain place.pid on.now.fd addr n at) (value_of result) }
    ensures kept { IsKept heap.new procs.now }
    ensures beside { heap.new ≡ record heap.old {
      nodes = heap.new.nodes;
      pages = heap.new.pages;
      blocks = heap.new.blocks;
      high = heap.new.high;
    } }
    ensures paid { IsPaid heap.old purse.old heap.new purse.new }
    ensures reads { tree.old.disk.reads ≤ tree.new.disk.reads }
    ensures stays { StaysOffNodes heap.old procs.now place.pid on.now.fd tree.old tree.new }
    ensures saved { SavesRead heap.old procs.now place.pid on.now.fd tree.old tree.new (λ (desc : HeldDesc). count_of at) (moved_by result) }
    ensures last { KeepsRead heap.old procs.now place.pid on.now.fd tree.old tree.new (λ (desc : HeldDesc). count_of at) (moved_by result) }
{
    let Some(found) = on.found else {
        return Err(Errno::EBADF);
    };
    if !found.is_readable() {
        return Err(Errno::EBADF);
    }
    let Target::Inode(node) = found.desc.target else {
        return Err(Errno::ESPIPE);
    };
    let info = tree.stat_node(heap, node);
    if is_directory(&info) {
        return Err(Errno::EISDIR);
    }
    let Some(mut range) = range_of(heap, procs, place, addr, n) else {
        return Err(Errno::EFAULT);
    };
    if range.is_empty() {
        return Ok(0);
    }
    Ok(read_into(heap, purse, tree, buffer, &mut range, node, count_of(at)))
}

/// Reads entries of the directory that a number is open on into a process's memory, of 32 bytes each, from the description's offset
/// on, as many whole ones as n bytes and the end allow; the offset moves behind them. How many bytes; none at the end.
///
/// EBADF where the number isn't open, ENOTDIR of all but a directory, EFAULT where a page that n bytes would touch isn't mapped
/// (POSIX readdir).
pub fn read_entries(
    heap: &mut KHeap,
    purse: &mut Purse,
    procs: &ProcTable,
    tree: &mut FileTree,
    buffer: &mut FileBuffer,
    place: Place,
    on: &Named,
    addr: i64,
    n: i64,
) -> Result<u32, Errno>
    requires kept { IsKept heap.old procs.now }
    requires alive { IsAlive (processes heap.old procs.now) place.pid }
    requires there { IsPlaced procs.now place }
    requires opened { IsOpened heap.old procs.now place.pid on.now }
    requires hold { HoldSome heap.old procs.now tree.old }
    requires right { argument_fault (Call.Readdir on.now.fd addr n) ≡ None }
    requires may { MayFetch heap.old purse.old }
    requires left { pages_touched (count_of addr) (count_of n) ≤ purse.old.left.page }
    ensures leads { (script : Script) (numbers : Numbers) (others : ℕ → ℕ) (plain : Plain) (account : Account)
        → StandsFor numbers heap.old procs.now plain account
        → HoldFiles numbers others heap.old procs.now tree.old plain.files
        → LeadsHolding script numbers others heap.new procs.now tree.new plain account place.pid (Call.Readdir on.now.fd addr n)
        (readdir script plain place.pid on.now.fd addr n) (value_of result) }
    ensures kept { IsKept heap.new procs.now }
    ensures beside { heap.new ≡ record heap.old {
      nodes = heap.new.nodes;
      pages = heap.new.pages;
      descs = heap.new.descs;
      blocks = heap.new.blocks;
      high = heap.new.high;
    } }
    ensures paid { IsPaid heap.old purse.old heap.new purse.new }
    ensures reads { tree.old.disk.reads ≤ tree.new.disk.reads }
    ensures stays { StaysOffNodes heap.old procs.now place.pid on.now.fd tree.old tree.new }
    ensures saved { SavesRead heap.old procs.now place.pid on.now.fd tree.old tree.new (λ (desc : HeldDesc). desc.offset) (moved_by result) }
    ensures last { KeepsRead heap.old procs.now place.pid on.now.fd tree.old tree.new (λ (desc : HeldDesc). desc.offset) (moved_by result) }
{
    let Some(found) = on.found else {
        return Err(Errno::EBADF);
    };
    let Target::Inode(node) = found.desc.target else {
        return Err(Errno::ENOTDIR);
    };
    let info = tree.stat_node(heap, node);
    if !is_directory(&info) {
        return Err(Errno::ENOTDIR);
    }
    let Some(mut range) = range_of(heap, procs, place, addr, n) else {
        return Err(Errno::EFAULT);
    };
    let at = offset_of(&found);
    let count = list_into(heap, purse, tree, buffer, &mut range, node, at);
    move_to(heap, &found, at + u64::from(count));
    Ok(count)
}

// Reads whole entries of a directory from a place on into memory, as many as are there. How many bytes.
fn list_into(
    heap: &mut KHeap,
    purse: &mut Purse,
    tree: &mut FileTree,
    buffer: &mut FileBuffer,
    range: &mut Range,
    node: u32,
    at: u64,
) -> u32
    requires directory { HoldsDirectory heap.old tree.old node }
    requires whole { at % 32 ≡ 0 }
    requires may { MayFetch heap.old purse.old }
    requires owned { IsOwnedWith heap.old range.old.space }
    requires mapped { IsMappedRange heap.old.nodes range.old.space range.old.start range.old.count }
    requires within { range.old.start + range.old.count ≤ 1048576 }
    requires few { range.old.count ≤ 32767 }
    requires left { pages_touched range.old.start range.old.count ≤ purse.old.left.page }
    ensures reads { (plain : Tree) (pins : ℕ → ℕ) → Stands heap.old tree.old plain pins
        → ReadsNode heap.old purse.old heap.new purse.new tree.old tree.new range.old.space range.old.start
        (calls.list_node plain node at range.old.count) }
    ensures count { (plain : Tree) (pins : ℕ → ℕ) → Stands heap.old tree.old plain pins
        → result ≡ length (calls.list_node plain node at range.old.count) }
    ensures saved { (inode : Inode) → HasNode tree.old.disk.blocks node inode
        → AllByRecursion (IsCached tree.old.blocks) (asked_to_read tree.old.disk.blocks inode at result)
        → tree.new.disk ≡ tree.old.disk }
    ensures last { (inode : Inode) → HasNode tree.old.disk.blocks node inode → 0 < result
        → IsCached tree.new.blocks (data_block tree.old.disk.blocks inode ((at + result - 1) / block_size)) }
{
    let out = &mut buffer[..range.count as usize];
    let count = tree.list_node(heap, purse, node, at, out);
    range
        .space
        .copy_in(heap, purse, range.start, &out[..count as usize]);
    count
}
