//! What calls do to the address space of a process.

ghost use Rattle.std.specs.Prelude.{◌≡◌, ◌+◌, ◌*◌, ◌<◌, ◌≤◌, ℕ, OnErr, OnOk, ok_or, option_map, if◌then◌else◌, length, Ok, Err};
ghost use Rattle.kabi_types.specs.Arguments.{page_size};
ghost use Rattle.kabi_types.specs.declared.errnos.Errno.TheVariants.{EFAULT, EMFILE};
ghost use Rattle.kabi_types.specs.declared.scripts.Control.{Control};
ghost use Rattle.kabi_types.specs.declared.scripts.Script.{Script};
ghost use Rattle.kheap_slabs.specs.Paid.{CanPay, IsPaid, TakesNothing};
ghost use Rattle.page_space.specs.Contents.{IsOwnedWith, StandsFor as IsMemory};
ghost use Rattle.page_space.specs.Entries.{IsMappedRange};
ghost use Rattle.posix_defs.specs.Memory.{Memory, after_map, after_put, after_unmap, is_mapped_range, loaded, lowest_run, stored, with_pages, without_pages};
ghost use Rattle.posix_defs.specs.Needs.{nodes_for, pages_in, pages_touched};
ghost use Rattle.posix_defs.specs.Process.{memory_of};
ghost use Rattle.posix_defs.specs.World.{World};
ghost use Rattle.proc_table.specs.Procs.{IsAlive};
ghost use Rattle.proc_table.specs.Table.{IsPlaced};
ghost use Rattle.store_objects.specs.Objects.{AreKept, Runs, procs_of};
ghost use Rattle.process_calls.specs.Spaces.{HasSpace};
ghost use Rattle.store_objects.specs.Standing.{StandsFor, remembered_in};

use kabi_types::{Bytes64, Errno};
use kheap_slabs::{KHeap, Purse};
use page_space::Space;
use proc_table::Place;
use store_objects::Objects;

/// How many bytes an address space has.
const SPACE: u64 = 1048576;

/// How many bytes a page has.
const PAGE: u32 = 4096;

/// The key of a process that runs, and its address space.
fn space_of(objects: &Objects, place: Place) -> Space
    requires kept { (script : Script) × AreKept script objects.now }
    requires alive { IsAlive (procs_of objects.now) place.pid }
    requires there { IsPlaced objects.now.procs place }
    ensures { HasSpace objects.now place.pid place.key result }
{
    Space::of(objects.procs.at(&objects.heap, place).nodes)
}

/// Maps the lowest run of pages that has room for so many bytes, and answers its address; EMFILE where none has.
pub fn map(
    objects: &mut Objects,
    purse: &mut Purse,
    place: Place,
    length: u64,
) -> Result<u32, Errno>
    requires kept { (script : Script) × AreKept script objects.old }
    requires alive { IsAlive (procs_of objects.old) place.pid }
    requires there { IsPlaced objects.old.procs place }
    requires some { 0 < length }
    requires room { CanPay objects.old.heap purse.old }
    requires left { nodes_for (pages_in length) ≤ purse.old.left.node }
    ensures kept { (script : Script) → AreKept script objects.old → AreKept script objects.new }
    ensures runs { (control : Control) → Runs objects.old place.pid control → Runs objects.new place.pid control }
    ensures procs { objects.new.procs ≡ objects.old.procs }
    ensures paid { IsPaid objects.old.heap purse.old objects.new.heap purse.new }
    ensures found { (script : Script) (world : World) → StandsFor script objects.old world
        → result ≡ ok_or (option_map (λ first. page_size * first) (lowest_run (memory_of world.plain.table place.pid) (pages_in length))) EMFILE }
    ensures mapped { (script : Script) (world : World) (first : ℕ) → StandsFor script objects.old world → result ≡ Ok (page_size * first)
        → StandsFor script objects.new (remembered_in world place.pid (with_pages (memory_of world.plain.table place.pid) first (pages_in length))
        (after_map world.account.frames place.pid first (pages_in length))) }
    ensures unchanged { OnErr result (objects.new ≡ objects.old) }
{
    if length > SPACE {
        return Err(Errno::EMFILE);
    }
    let mut space = space_of(objects, place);
    let first = space.map(&mut objects.heap, purse, (length as u32 + PAGE - 1) / PAGE)?;
    objects.heap.set_proc_nodes(place.key, space.nodes());
    Ok(first * PAGE)
}

/// Unmaps the pages from one on, `count` in all.
pub fn unmap(objects: &mut Objects, place: Place, page: u32, count: u32)
    requires within { page + count ≤ 256 }
    requires kept { (script : Script) × AreKept script objects.old }
    requires alive { IsAlive (procs_of objects.old) place.pid }
    requires there { IsPlaced objects.old.procs place }
    ensures kept { (script : Script) → AreKept script objects.old → AreKept script objects.new }
    ensures runs { (control : Control) → Runs objects.old place.pid control → Runs objects.new place.pid control }
    ensures procs { objects.new.procs ≡ objects.old.procs }
    ensures takes { TakesNothing objects.old.heap objects.new.heap }
    ensures unmapped { (script : Script) (world : World) → StandsFor script objects.old world
        → StandsFor script objects.new (remembered_in world place.pid (without_pages (memory_of world.plain.table place.pid) page count) (after_unmap world.account.frames place.pid page count)) }
{
    let mut space = space_of(objects, place);
    space.unmap(&mut objects.heap, page, count);
    objects.heap.set_proc_nodes(place.key, space.nodes());
}

/// Puts bytes in memory from an address on; EFAULT where a page that they touch isn't mapped, and nothing is put then.
pub fn put(
    objects: &mut Objects,
    purse: &mut Purse,
    place: Place,
    addr: u32,
    bytes: &[u8],
) -> Result<(), Errno>
    requires within { addr + length bytes.now ≤ 1048576 }
    requires kept { (script : Script) × AreKept script objects.old }
    requires alive { IsAlive (procs_of objects.old) place.pid }
    requires there { IsPlaced objects.old.procs place }
    requires room { CanPay objects.old.heap purse.old }
    requires left { pages_touched addr (length bytes.now) ≤ purse.old.left.page }
    ensures kept { (script : Script) → AreKept script objects.old → AreKept script objects.new }
    ensures runs { (control : Control) → Runs objects.old place.pid control → Runs objects.new place.pid control }
    ensures procs { objects.new.procs ≡ objects.old.procs }
    ensures paid { IsPaid objects.old.heap purse.old objects.new.heap purse.new }
    ensures mapped { (script : Script) (world : World) → StandsFor script objects.old world
        → result ≡ (if is_mapped_range (memory_of world.plain.table place.pid) addr (length bytes.now) then Ok tt else Err EFAULT) }
    ensures stored { OnOk result ((script : Script) (world : World) → StandsFor script objects.old world
        → StandsFor script objects.new (remembered_in world place.pid (stored (memory_of world.plain.table place.pid) addr bytes.now)
        (after_put world.account.frames place.pid addr (length bytes.now)))) }
    ensures unchanged { OnErr result (objects.new ≡ objects.old) }
{
    let mut space = space_of(objects, place);
    if !space.mapped(&objects.heap, addr, bytes.len() as u32) {
        return Err(Errno::EFAULT);
    }
    space.copy_in(&mut objects.heap, purse, addr, bytes);
    Ok(())
}

/// The bytes in memory from an address on, as many as there is room for. Each page that they touch is mapped.
fn bytes_at(space: &Space, heap: &KHeap, addr: u32, room: &mut [u8]) -> Bytes64
    requires within { addr + length room.old ≤ 1048576 }
    requires few { length room.old ≤ 64 }
    requires owned { IsOwnedWith heap.now space.now }
    requires mapped { IsMappedRange heap.now.nodes space.now addr (length room.old) }
    ensures { (memory : Memory) → IsMemory heap.now space.now memory → result ≡ loaded memory addr (length room.old) }
{
    space.copy_out(heap, addr, room);
    let Some(bytes) = Bytes64::of(room) else {
        unreachable!();
    };
    bytes
}

/// Takes at most 64 bytes from memory; EFAULT where a page that they touch isn't mapped.
pub fn take(objects: &Objects, place: Place, addr: u32, count: usize) -> Result<Bytes64, Errno>
    requires within { addr + count ≤ 1048576 }
    requires few { count ≤ 64 }
    requires kept { (script : Script) × AreKept script objects.now }
    requires alive { IsAlive (procs_of objects.now) place.pid }
    requires there { IsPlaced objects.now.procs place }
    ensures { (script : Script) (world : World) → StandsFor script objects.now world
        → result ≡ (if is_mapped_range (memory_of world.plain.table place.pid) addr count then Ok (loaded (memory_of world.plain.table place.pid) addr count) else Err EFAULT) }
{
    let space = space_of(objects, place);
    if !space.mapped(&objects.heap, addr, count as u32) {
        return Err(Errno::EFAULT);
    }
    let mut room = [0; 64];
    Ok(bytes_at(&space, &objects.heap, addr, &mut room[..count]))
}
