//! The calls that move bytes between a program and its memory: `store` and `load`.

ghost use Rattle.std.specs.Prelude.{◌≡◌, ◌+◌, ◌<◌, ◌≤◌, length, None};
ghost use Rattle.kabi_types.specs.Arguments.{argument_fault, count_of, range_fault};
ghost use Rattle.kabi_types.specs.declared.calls.Call.{Call};
ghost use Rattle.kheap_slabs.specs.Paid.{CanPay, IsPaid, TakesNothing};
ghost use Rattle.posix_defs.specs.MemoryCalls.{load, store};
ghost use Rattle.posix_defs.specs.Needs.{pages_touched};
ghost use Rattle.proc_table.specs.Table.{IsPlaced};
ghost use Rattle.store_objects.specs.Objects.{AreKept, Runs};
ghost use Rattle.store_objects.specs.Standing.{Performs};

use crate::spaces::{put, take};
use kabi_types::{Bytes64, Reply, Script};
use kheap_slabs::Purse;
use posix_defs::Turned;
use store_objects::{Caller, Objects, go_on};

/// Where a range of so many bytes begins. No bytes lie anywhere, so a range of none begins at 0.
fn start_of(addr: i64, count: usize) -> u32
    requires { range_fault addr count ≡ None }
    ensures within { result + count ≤ 1048576 }
    ensures start { 0 < count → result ≡ count_of addr }
{
    if count == 0 {
        0
    } else {
        addr.cast_unsigned() as u32
    }
}

/// Puts bytes in memory, and tells their number.
#[inline(never)]
pub fn store(
    script: &Script,
    objects: &mut Objects,
    purse: &mut Purse,
    caller: &Caller,
    addr: i64,
    bytes: &Bytes64,
) -> Turned
    requires kept { AreKept script.now objects.old }
    requires runs { Runs objects.old caller.now.place.pid caller.now.control }
    requires placed { IsPlaced objects.old.procs caller.now.place }
    requires right { argument_fault (Call.Store addr bytes.now) ≡ None }
    requires room { CanPay objects.old.heap purse.old }
    requires left { pages_touched (count_of addr) (length bytes.now) ≤ purse.old.left.page }
    ensures kept { AreKept script.now objects.new }
    ensures paid { IsPaid objects.old.heap purse.old objects.new.heap purse.new }
    ensures does { Performs script.now objects.old caller.now.place.pid (Call.Store addr bytes.now) (λ plain. store script.now plain caller.now.place.pid addr bytes.now) result objects.new }
{
    let bytes = bytes.items();
    let start = start_of(addr, bytes.len());
    match put(objects, purse, caller.place, start, bytes) {
        Ok(()) => go_on(script, objects, caller, Reply::Val(bytes.len() as i64)),
        Err(errno) => go_on(script, objects, caller, Reply::Fail(errno)),
    }
}

/// Tells bytes in memory, at most 64.
#[inline(never)]
pub fn load(
    script: &Script,
    objects: &mut Objects,
    caller: &Caller,
    addr: i64,
    count: i64,
) -> Turned
    requires kept { AreKept script.now objects.old }
    requires runs { Runs objects.old caller.now.place.pid caller.now.control }
    requires placed { IsPlaced objects.old.procs caller.now.place }
    requires right { argument_fault (Call.Load addr count) ≡ None }
    ensures kept { AreKept script.now objects.new }
    ensures takes { TakesNothing objects.old.heap objects.new.heap }
    ensures does { Performs script.now objects.old caller.now.place.pid (Call.Load addr count) (λ plain. load script.now plain caller.now.place.pid addr count) result objects.new }
{
    let count = count.cast_unsigned() as usize;
    let start = start_of(addr, count);
    match take(objects, caller.place, start, count) {
        Ok(bytes) => go_on(script, objects, caller, Reply::Bytes(bytes)),
        Err(errno) => go_on(script, objects, caller, Reply::Fail(errno)),
    }
}
