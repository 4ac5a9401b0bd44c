//! The calls that map and unmap pages: `mmap` and `munmap`.

ghost use Rattle.std.specs.Prelude.{◌≡◌, ◌+◌, ◌≤◌, length, None};
ghost use Rattle.kabi_types.specs.Arguments.{argument_fault, count_of};
ghost use Rattle.kabi_types.specs.declared.calls.Call.{Call};
ghost use Rattle.kheap_slabs.specs.Paid.{CanPay, IsPaid, TakesNothing};
ghost use Rattle.posix_defs.specs.MemoryCalls.{mmap, munmap};
ghost use Rattle.posix_defs.specs.Needs.{nodes_for, pages_in};
ghost use Rattle.proc_table.specs.Table.{IsPlaced};
ghost use Rattle.store_objects.specs.Objects.{AreKept, Runs};
ghost use Rattle.store_objects.specs.Standing.{Performs};

use crate::spaces::{map, unmap};
use kabi_types::{Reply, Script};
use kheap_slabs::Purse;
use posix_defs::Turned;
use store_objects::{Caller, Objects, go_on};

/// How many bytes a page has.
const PAGE: u32 = 4096;

/// So many bytes of zeros, more than none, in the lowest run of pages that aren't mapped; EMFILE where none is long enough.
#[inline(never)]
pub fn mmap(
    script: &Script,
    objects: &mut Objects,
    purse: &mut Purse,
    caller: &Caller,
    length: i64,
) -> Turned
    requires kept { AreKept script.now objects.old }
    requires runs { Runs objects.old caller.now.place.pid caller.now.control }
    requires placed { IsPlaced objects.old.procs caller.now.place }
    requires right { argument_fault (Call.Mmap length) ≡ None }
    requires room { CanPay objects.old.heap purse.old }
    requires left { nodes_for (pages_in (count_of length)) ≤ purse.old.left.node }
    ensures kept { AreKept script.now objects.new }
    ensures paid { IsPaid objects.old.heap purse.old objects.new.heap purse.new }
    ensures does { Performs script.now objects.old caller.now.place.pid (Call.Mmap length) (λ plain. mmap script.now plain caller.now.place.pid length) result objects.new }
{
    match map(objects, purse, caller.place, length.cast_unsigned()) {
        Ok(addr) => go_on(script, objects, caller, Reply::Val(i64::from(addr))),
        Err(errno) => go_on(script, objects, caller, Reply::Fail(errno)),
    }
}

/// Unmaps each page that the bytes from the address of a page on touch.
#[inline(never)]
pub fn munmap(
    script: &Script,
    objects: &mut Objects,
    caller: &Caller,
    addr: i64,
    length: i64,
) -> Turned
    requires kept { AreKept script.now objects.old }
    requires runs { Runs objects.old caller.now.place.pid caller.now.control }
    requires placed { IsPlaced objects.old.procs caller.now.place }
    requires right { argument_fault (Call.Munmap addr length) ≡ None }
    ensures kept { AreKept script.now objects.new }
    ensures takes { TakesNothing objects.old.heap objects.new.heap }
    ensures does { Performs script.now objects.old caller.now.place.pid (Call.Munmap addr length) (λ plain. munmap script.now plain caller.now.place.pid addr length) result objects.new }
{
    let page = addr.cast_unsigned() as u32 / PAGE;
    let count = (length.cast_unsigned() as u32 + PAGE - 1) / PAGE;
    unmap(objects, caller.place, page, count);
    go_on(script, objects, caller, Reply::Val(0))
}
