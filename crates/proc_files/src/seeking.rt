//! `lseek`.

ghost use Rattle.std.specs.Prelude.{◌≡◌, ◌<◌, ℕ, [], IfOk, OnErr, Some, Result, Ok, Err, pos, ◌+ℤ◌, ◌-◌};
ghost use Rattle.kabi_types.specs.declared.scripts.Script.{Script};
ghost use Rattle.kabi_types.specs.Arguments.{count_of};
ghost use Rattle.kabi_types.specs.declared.errnos.Errno.TheVariants.{EINVAL};
ghost use Rattle.kheap_slabs.specs.Objects.{object};
ghost use Rattle.kheap_slabs.specs.Paid.{TakesNothing};
ghost use Rattle.memfs_ops.specs.FileTree.{HeldSome, IsUsed, Stands};
ghost use Rattle.open_laws.specs.Owned.{HasItsOwners};
ghost use Rattle.open_laws.specs.Placed.{Numbers};
ghost use Rattle.posix_defs.specs.Calls.OnFiles.{is_between_entries, lseek};
ghost use Rattle.posix_defs.specs.PathCalls.{stat_info};
ghost use Rattle.posix_defs.specs.Plain.{Plain};
ghost use Rattle.posix_defs.specs.Tree.{Tree, is_directory as plain_is_directory};
ghost use Rattle.proc_table.specs.Table.{IsPlaced};
ghost use Rattle.proc_numbers.specs.Found.{IsOpened};
ghost use Rattle.proc_numbers.specs.Having.{AreListed};
ghost use Rattle.proc_numbers.specs.Answering.{value_of};
ghost use Rattle.proc_files.specs.Answering.{AnswersHolding, StaysOffNodes};
ghost use Rattle.proc_files.specs.Holding.{HoldFiles, HoldSome};
ghost use Rattle.proc_files.specs.Seeking.{MovesDesc, between_entries, offset_at, origin_in, sought};

use crate::nodes::{is_directory, move_to};
use kabi_types::{Errno, StatInfo};
use kheap_slabs::{KHeap, Target};
use memfs_ops::FileTree;
use proc_numbers::{Found, Named, count_of};
use proc_table::{Place, ProcTable};

/// The greatest offset.
const GREATEST: u64 = 9223372036854775807;

/// The bytes of an entry of a directory.
const ENTRY_SIZE: u64 = 32;

/// The description that a number names is at another offset, counted from the beginning, from where it is, or from the end of what
/// it is open on. That offset.
///
/// EBADF where the number isn't open, ESPIPE of a pipe and a socket, EINVAL of an offset before the beginning, EOVERFLOW of one
/// above the greatest, EINVAL of one within an entry of a directory; nothing is changed then.
///
/// <https://pubs.opengroup.org/onlinepubs/9699919799/functions/lseek.html>
pub fn seek_number(
    heap: &mut KHeap,
    procs: &ProcTable,
    tree: &mut FileTree,
    place: Place,
    on: &Named,
    offset: i64,
    whence: i64,
) -> Result<u64, Errno>
    requires listed { AreListed heap.old procs.now }
    requires owners { HasItsOwners heap.old [] }
    requires there { IsPlaced procs.now place }
    requires opened { IsOpened heap.old procs.now place.pid on.now }
    requires hold { HoldSome heap.old procs.now tree.old }
    ensures answers { (numbers : Numbers) (others : ℕ → ℕ) (script : Script) (plain : Plain)
        → HoldFiles numbers others heap.old procs.now tree.old plain.files
        → AnswersHolding numbers others heap.new procs.now tree.new script plain place.pid (lseek script plain place.pid on.now.fd offset whence) (value_of result) }
    ensures listed { AreListed heap.new procs.now }
    ensures owners { HasItsOwners heap.new [] }
    ensures hold { HoldSome heap.new procs.now tree.new }
    ensures beside { heap.new ≡ record heap.old { descs = heap.new.descs } }
    ensures unchanged { OnErr result (heap.new ≡ heap.old) }
    ensures used { IsUsed tree.old tree.new }
    ensures stays { StaysOffNodes heap.old procs.now place.pid on.now.fd tree.old tree.new }
    ensures takes { TakesNothing heap.old heap.new }
{
    let Some(found) = on.found else {
        return Err(Errno::EBADF);
    };
    let Target::Inode(node) = found.desc.target else {
        return Err(Errno::ESPIPE);
    };
    seek_node(heap, tree, &found, node, offset, whence)
}

// The same of a description of a node.
fn seek_node(
    heap: &mut KHeap,
    tree: &mut FileTree,
    found: &Found,
    node: u32,
    offset: i64,
    whence: i64,
) -> Result<u64, Errno>
    requires there { object heap.old.descs found.now.key ≡ Some found.now.desc }
    requires held { HeldSome heap.old tree.old node }
    ensures value { (plain : Tree) (pins : ℕ → ℕ) → Stands heap.old tree.old plain pins
        → result ≡ sought plain node found.now.desc.offset offset whence }
    ensures moved { IfOk result (λ place. MovesDesc heap.old heap.new found.now.key found.now.desc place) }
    ensures unchanged { OnErr result (heap.new ≡ heap.old) }
    ensures stands { (plain : Tree) (pins : ℕ → ℕ) → Stands heap.old tree.old plain pins → Stands heap.old tree.new plain pins }
    ensures used { IsUsed tree.old tree.new }
    ensures takes { TakesNothing heap.old heap.new }
{
    let info = tree.stat_node(heap, node);
    let origin = origin_of(whence, found.desc.offset, info.size);
    match offset_from(origin, offset) {
        Ok(place) => move_between(heap, found, &info, place),
        Err(errno) => Err(errno),
    }
}

// A description is at another offset, which in a directory lies within no entry.
fn move_between(heap: &mut KHeap, found: &Found, info: &StatInfo, place: u64) -> Result<u64, Errno>
    requires there { object heap.old.descs found.now.key ≡ Some found.now.desc }
    ensures value { (plain : Tree) (node : ℕ) → info.now ≡ stat_info plain node
        → result ≡ between_entries (plain_is_directory plain node) (Ok place) }
    ensures moved { IfOk result (λ at. MovesDesc heap.old heap.new found.now.key found.now.desc at) }
    ensures unchanged { OnErr result (heap.new ≡ heap.old) }
    ensures takes { TakesNothing heap.old heap.new }
{
    if is_within_entry(info, place) {
        return Err(Errno::EINVAL);
    }
    move_to(heap, found, place);
    Ok(place)
}

// Whether an offset lies within an entry of a directory.
fn is_within_entry(info: &StatInfo, place: u64) -> bool
    ensures { (tree : Tree) (number : ℕ) → info.now ≡ stat_info tree number → result ≡ is_between_entries tree number place }
{
    is_directory(info) && place % ENTRY_SIZE != 0
}

// The place from which an offset counts.
fn origin_of(whence: i64, offset: u64, size: u32) -> u64
    ensures { result ≡ origin_in (count_of whence) offset size }
{
    match count_of(whence) {
        0 => 0,
        1 => offset,
        _ => u64::from(size),
    }
}

// The offset that lies so far from a place.
fn offset_from(origin: u64, offset: i64) -> Result<u64, Errno>
    ensures { result ≡ offset_at (pos origin +ℤ offset) }
{
    if offset < 0 {
        let back = offset.unsigned_abs();
        if origin < back {
            return Err(Errno::EINVAL);
        }
        return offset_within(origin - back);
    }
    let forth = offset.cast_unsigned();
    if origin > GREATEST - forth {
        return Err(Errno::EOVERFLOW);
    }
    Ok(origin + forth)
}

// An offset that isn't above the greatest one.
fn offset_within(place: u64) -> Result<u64, Errno>
    ensures { result ≡ offset_at (pos place) }
{
    if place > GREATEST {
        Err(Errno::EOVERFLOW)
    } else {
        Ok(place)
    }
}
