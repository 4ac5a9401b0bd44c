//! `fcntl`.

ghost use Rattle.std.specs.Prelude.{◌≡◌, ◌<◌, ◌≤◌, ℕ, List, [], OnErr, Some};
ghost use Rattle.kabi_types.specs.declared.scripts.Script.{Script};
ghost use Rattle.kheap_slabs.specs.Objects.{InUse, object};
ghost use Rattle.kheap_slabs.specs.declared.objects.Desc.{Desc as HeldDesc};
ghost use Rattle.kheap_slabs.specs.Paid.{CanPay, IsPaid, TakesNothing};
ghost use Rattle.open_laws.specs.Described.{access_in, counted_in};
ghost use Rattle.desc_table.specs.Copying.{spends_leaves};
ghost use Rattle.kabi_types.specs.Arguments.{count_of};
ghost use Rattle.open_laws.specs.Owned.{HasItsOwners};
ghost use Rattle.open_laws.specs.Placed.{Numbers};
ghost use Rattle.posix_defs.specs.Calls.OnDescriptors.{cloexec_bit, fcntl};
ghost use Rattle.posix_defs.specs.Files.Descriptions.{access_bits, has_flag, o_append, o_nonblock, status_bits};
ghost use Rattle.posix_defs.specs.Files.State.{Files, described_as};
ghost use Rattle.posix_defs.specs.Plain.{Plain};
ghost use Rattle.proc_table.specs.Table.{IsPlaced, TableView};
ghost use Rattle.proc_numbers.specs.Found.{IsOpened};
ghost use Rattle.proc_numbers.specs.Having.{AreListed, HaveOpen, OpensNoNode};
ghost use Rattle.proc_numbers.specs.Naming.{ChangesNumbers};
ghost use Rattle.proc_numbers.specs.Answering.{Answers, value_of, with_flags};

use crate::lookups::Named;
use crate::opening::{count_of, mark_one};
use crate::sharing::share_lowest;
use kabi_types::Errno;
use kheap_slabs::{Access, Desc, DescFlags, KHeap, Purse};
use proc_table::{Place, ProcTable};

/// The commands of `fcntl`: a further number, a number's flags, and a description's flags.
const F_DUPFD: u64 = 0;

const F_GETFD: u64 = 1;

const F_SETFD: u64 = 2;

const F_GETFL: u64 = 3;

const F_SETFL: u64 = 4;

/// The flag of a number that `exec` closes.
const FD_CLOEXEC: u64 = 1;

/// The flags of a description that F_GETFL tells and F_SETFL sets.
const O_APPEND: u32 = 1024;

const O_NONBLOCK: u32 = 2048;

/// A command on a number of a process. With F_DUPFD the lowest number at or above the argument that is free names the same
/// description, and the answer is that number. F_GETFD tells 1 where `exec` closes the number, else 0, and F_SETFD takes that from
/// bit 0 of the argument. F_GETFL tells the access mode, O_APPEND and O_NONBLOCK, and F_SETFL sets the last two as they are in the
/// argument, for all numbers that name the description.
///
/// The purse pays for the Leaf of a number that is named, where that isn't there. EBADF where the number isn't open, EMFILE where no
/// number is free for F_DUPFD, EINVAL where the command isn't one of these; nothing is changed then.
///
/// <https://pubs.opengroup.org/onlinepubs/9699919799/functions/fcntl.html>
pub fn control(
    heap: &mut KHeap,
    purse: &mut Purse,
    procs: &ProcTable,
    place: Place,
    on: &Named,
    cmd: i64,
    arg: i64,
) -> Result<u32, Errno>
    requires listed { AreListed heap.old procs.now }
    requires owners { HasItsOwners heap.old [] }
    requires there { IsPlaced procs.now place }
    requires opened { IsOpened heap.old procs.now place.pid on.now }
    requires pays { CanPay heap.old purse.old }
    requires left { count_of cmd ≡ 0 → 0 < purse.old.left.leaf }
    ensures answers { (numbers : Numbers) (script : Script) (plain : Plain) → HaveOpen numbers heap.old procs.now plain.files
        → Answers numbers heap.new procs.now script plain place.pid (fcntl script plain place.pid on.now.fd cmd arg) (value_of result) }
    ensures nodes { OpensNoNode heap.old.descs → OpensNoNode heap.new.descs }
    ensures listed { AreListed heap.new procs.now }
    ensures owners { HasItsOwners heap.new [] }
    ensures changes { ChangesNumbers heap.old heap.new procs.now place.pid }
    ensures beside { heap.new ≡ record heap.old {
      procs = heap.new.procs;
      leaves = heap.new.leaves;
      descs = heap.new.descs;
      high = heap.new.high;
    } }
    ensures unchanged { OnErr result ((heap.new ≡ heap.old) × (purse.new ≡ purse.old)) }
    ensures paid { IsPaid heap.old purse.old heap.new purse.new }
    ensures spent { purse.new ≡ spends_leaves purse.old purse.new }
{
    let Some(found) = on.found else {
        return Err(Errno::EBADF);
    };
    match count_of(cmd) {
        F_DUPFD => share_lowest(heap, purse, procs, place, found.key, count_of(arg)),
        F_GETFD => Ok(bit(found.close_on_exec)),
        F_SETFD => {
            let cloexec = has_flag(arg, FD_CLOEXEC);
            let held = found.descriptor();
            mark_one(heap, purse, procs, place, found.number, held, cloexec);
            Ok(0)
        }
        F_GETFL => Ok(status_bits(&found.desc)),
        F_SETFL => {
            set_flags(heap, found.key, flags_in(arg));
            Ok(0)
        }
        _ => Err(Errno::EINVAL),
    }
}

// 1 for a flag that is set, else 0.
fn bit(flag: bool) -> u32
    ensures { result ≡ cloexec_bit flag }
{
    if flag { 1 } else { 0 }
}

// Whether a flag, which is a power of 2, is among these bits.
fn has_flag(bits: i64, flag: u64) -> bool
    requires { 0 < flag }
    ensures { result ≡ has_flag bits flag }
{
    bits.cast_unsigned() / flag % 2 == 1
}

// The flags of a description that these bits set.
fn flags_in(bits: i64) -> DescFlags
    ensures append { result.append ≡ has_flag bits o_append }
    ensures nonblock { result.nonblock ≡ has_flag bits o_nonblock }
{
    DescFlags {
        append: has_flag(bits, u64::from(O_APPEND)),
        nonblock: has_flag(bits, u64::from(O_NONBLOCK)),
    }
}

// The bits that F_GETFL tells of a description.
fn status_bits(desc: &Desc) -> u32
    ensures { (numbers : Numbers) → result ≡ status_bits (counted_in numbers desc.now).is }
{
    let append = if desc.flags.append { O_APPEND } else { 0 };
    let nonblock = if desc.flags.nonblock { O_NONBLOCK } else { 0 };
    access_bits(desc.access) + append + nonblock
}

// The bits of an access mode: O_RDONLY 0, O_WRONLY 1, O_RDWR 2.
fn access_bits(access: Access) -> u32
    ensures bits { result ≡ access_bits (access_in access) }
    ensures few { result ≤ 2 }
{
    match access {
        Access::Read => 0,
        Access::Write => 1,
        Access::Both => 2,
    }
}

// A description has other flags.
fn set_flags(heap: &mut KHeap, key: u32, flags: DescFlags)
    requires used { InUse heap.old.descs key }
    ensures flags { (numbers : Numbers) (kept : TableView) (files : Files) (desc : HeldDesc) → object heap.old.descs key ≡ Some desc
        → HaveOpen numbers heap.old kept files
        → HaveOpen numbers heap.new kept
        (described_as files (numbers.descs key) (with_flags (counted_in numbers desc).is flags.append flags.nonblock)) }
    ensures nodes { OpensNoNode heap.old.descs → OpensNoNode heap.new.descs }
    ensures owners { (hand : List ℕ) → HasItsOwners heap.old hand → HasItsOwners heap.new hand }
    ensures beside { heap.new ≡ record heap.old { descs = heap.new.descs } }
    ensures takes { TakesNothing heap.old heap.new }
{
    let desc = *heap.get_desc(key);
    heap.set_desc(key, Desc { flags, ..desc });
}
