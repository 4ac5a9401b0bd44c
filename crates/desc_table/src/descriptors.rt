ghost use Rattle.std.specs.Prelude.{◌≡◌, ◌<◌, ◌≤◌, ℕ, IfSome, IsSome, None, Some, count_by, false, if◌then◌else◌, is_some, length, slice_index_or, slice_set, true};
ghost use Rattle.kabi_types.specs.Arguments.{most_descriptors};
ghost use Rattle.kheap_slabs.specs.Heap.{IsWellFormed};
ghost use Rattle.kheap_slabs.specs.Leaves.{LeavesChange, OwnsLeaves, group_of, has_place, no_row, numbers_by, row_at};
ghost use Rattle.kheap_slabs.specs.Objects.{InUse, object, put};
ghost use Rattle.kheap_slabs.specs.Paid.{CanPay, IsPaid, TakesNothing};
ghost use Rattle.kheap_slabs.specs.declared.objects.Descriptor.{Descriptor as HeldDescriptor};
ghost use Rattle.posix_defs.specs.Calls.Polling.{polled_at};
ghost use Rattle.posix_defs.specs.Files.Descriptors.{descriptor_at, descriptor_of, lowest_free_from, open_count};
ghost use Rattle.posix_defs.specs.Files.State.{Files, descriptors_of};
ghost use Rattle.open_laws.specs.Placed.{Numbers};
ghost use Rattle.open_laws.specs.Described.{CountedList, access_in};
ghost use Rattle.open_laws.specs.Open.{AreOpen, renumbered};
ghost use Rattle.open_laws.specs.Polled.{IsOpenIn, IsTargetIn, TellsTarget, TellsOpen};
ghost use Rattle.desc_table.specs.Numbered.{IsLong, Renames, descriptors_in, leaf_spent, number_of, numbers};

use crate::descriptions::may_write;
use chunk_queue::{POLLIN, POLLOUT, event_if};
use kabi_types::{Class, MOST_DESCRIPTORS, PollEntry};
use kheap_slabs::{Desc, Descriptor, KHeap, Leaf, Proc, Purse, Target};
use pipe_ends::pipe_polled;
use std::marker::Model;
use usock_core::sock_polled;

/// How many numbers a Proc has itself, and how many each Leaf.
const ROW: u32 = 32;

/// What `poll` tells of a descriptor that isn't open.
const POLLNVAL: u8 = 32;

/// The descriptors of one process, as its Proc keeps them: those of its first 32 numbers, and the keys of the Leaves that have the
/// others. A clause sees them by number, `numbers heap descs`, with the Leaves that the heap has, and a descriptor's description as
/// the key of its Desc.
///
/// Who takes them out of a Proc puts them back before anybody else asks for them: what `set` and `clear` make of the Leaves is known
/// to these keys alone.
#[derive(Drop)]
pub struct Descs {
    places: [Option<Descriptor>; 32],
    leaves: [Option<u32>; 3],
}

impl Model for Descs {
    ghost use Rattle.std.specs.Prelude.{◌≡◌, length};
    ghost use Rattle.desc_table.specs.Numbered.{InHand};

    ghost Value = { InHand };

    ghost view = { λ descs. record { places = descs.places; leaves = descs.leaves } };

    ghost invariant = { λ descs. (length descs.places ≡ 32) × (length descs.leaves ≡ 3) };
}

impl Descs {
    /// The descriptors as a Proc keeps them.
    pub fn of(places: [Option<Descriptor>; 32], leaves: [Option<u32>; 3]) -> Descs
        ensures { result ≡ record { places = places; leaves = leaves } }
    {
        Descs { places, leaves }
    }

    /// Those of the first 32 numbers, for their Proc.
    pub fn places(&self) -> [Option<Descriptor>; 32]
        ensures value { result ≡ self.now.places }
        ensures all { length result ≡ 32 }
    {
        self.places
    }

    /// The keys of the Leaves, for their Proc.
    pub fn leaves(&self) -> [Option<u32>; 3]
        ensures value { result ≡ self.now.leaves }
        ensures all { length result ≡ 3 }
    {
        self.leaves
    }

    /// A number names the description of a Desc from now on. Where it is the first of its Leaf that is open, the purse pays for the
    /// Leaf.
    pub fn set(&mut self, heap: &mut KHeap, purse: &mut Purse, fd: u32, desc: u32, cloexec: bool)
        requires owns { OwnsLeaves heap.old.leaves self.old.leaves }
        requires number { fd < most_descriptors }
        requires pays { CanPay heap.old purse.old }
        requires left { has_place self.old.leaves fd ≡ false → 0 < purse.old.left.leaf }
        ensures numbers { numbers heap.new self.new
            ≡ slice_set (numbers heap.old self.old) fd (Some (record { desc = desc; close_on_exec = cloexec })) }
        ensures leaves { LeavesChange heap.old.leaves heap.new.leaves self.old.leaves self.new.leaves }
        ensures namings { Renames heap.old self.old heap.new self.new fd (Some (record { desc = desc; close_on_exec = cloexec })) }
        ensures kept { heap.new ≡ record heap.old { leaves = heap.new.leaves; high = heap.new.high } }
        ensures paid { IsPaid heap.old purse.old heap.new purse.new }
        ensures pays { CanPay heap.new purse.new }
        ensures spent { purse.new ≡ (if has_place self.old.leaves fd then purse.old else leaf_spent purse.old) }
        ensures place { has_place self.new.leaves fd ≡ true }
        ensures places { (other : ℕ) → has_place self.old.leaves other ≡ true → has_place self.new.leaves other ≡ true }
    {
        let named = Some(Descriptor {
            desc,
            close_on_exec: cloexec,
        });
        if fd < ROW {
            self.places[fd as usize] = named;
            return;
        }
        is_well_formed(heap);
        let group = group_of(fd);
        match self.leaves[group] {
            Some(key) => heap.set_leaf_descriptor(key, fd % ROW, named),
            None => self.leaves[group] = Some(make_leaf(heap, purse, fd % ROW, named)),
        }
    }

    /// A number names nothing any more; with the last of its numbers a Leaf goes. The key of the Desc that it named.
    pub fn clear(&mut self, heap: &mut KHeap, fd: u32) -> u32
        requires owns { OwnsLeaves heap.old.leaves self.old.leaves }
        requires opened { IsSome (slice_index_or (numbers heap.old self.old) fd None) }
        ensures named { (descriptor : HeldDescriptor) → slice_index_or (numbers heap.old self.old) fd None ≡ Some descriptor
            → result ≡ descriptor.desc }
        ensures numbers { numbers heap.new self.new ≡ slice_set (numbers heap.old self.old) fd None }
        ensures leaves { LeavesChange heap.old.leaves heap.new.leaves self.old.leaves self.new.leaves }
        ensures namings { Renames heap.old self.old heap.new self.new fd None }
        ensures kept { heap.new ≡ record heap.old { leaves = heap.new.leaves } }
        ensures takes { TakesNothing heap.old heap.new }
    {
        let key = self.descriptor(heap, fd).desc;
        if fd < ROW {
            self.places[fd as usize] = None;
            return key;
        }
        is_well_formed(heap);
        let group = group_of(fd);
        let Some(leaf) = self.leaves[group] else {
            unreachable!()
        };
        heap.set_leaf_descriptor(leaf, fd % ROW, None);
        if open_among(&heap.get_leaf(leaf).descriptors) > 0 {
            return key;
        }
        let _ = heap.free_leaf(leaf);
        self.leaves[group] = None;
        key
    }

    /// The lowest number at or above one that isn't open. None where all from there to 127 are.
    pub fn lowest(&self, heap: &KHeap, from: u32) -> Option<u32>
        requires owns { OwnsLeaves heap.now.leaves self.now.leaves }
        ensures { result ≡ lowest_free_from (descriptors_in (numbers heap.now self.now)) from }
    {
        lowest_among(heap, &self.places, &self.leaves, from)
    }

    /// Whether `exec` closes a number that is open (FD_CLOEXEC).
    pub fn flags(&self, heap: &KHeap, fd: u32) -> bool
        requires owns { OwnsLeaves heap.now.leaves self.now.leaves }
        requires opened { IsSome (slice_index_or (numbers heap.now self.now) fd None) }
        ensures { (descriptor : HeldDescriptor) → slice_index_or (numbers heap.now self.now) fd None ≡ Some descriptor
            → result ≡ descriptor.close_on_exec }
    {
        self.descriptor(heap, fd).close_on_exec
    }

    /// What `poll` tells of one entry a process that has these open, as `polled` does of a Proc.
    pub fn polled(&self, heap: &KHeap, entry: &PollEntry) -> u8
        requires owns { OwnsLeaves heap.now.leaves self.now.leaves }
        requires there { IsOpenIn heap.now (descriptor_of (descriptors_in (numbers heap.now self.now)) entry.now.fd) }
        ensures { (plain : Numbers) (list : CountedList) (files : Files) (pid : ℕ) → AreOpen plain heap.now list files
            → descriptors_of files pid ≡ renumbered plain.descs (descriptors_in (numbers heap.now self.now))
            → result ≡ polled_at files pid entry.now.fd entry.now.events }
    {
        match number_of(entry.fd) {
            Some(fd) => polled_at(heap, &self.places, &self.leaves, fd, entry.events),
            None => 0,
        }
    }

    // The open descriptor of a number.
    fn descriptor(&self, heap: &KHeap, fd: u32) -> Descriptor
        requires owns { OwnsLeaves heap.now.leaves self.now.leaves }
        requires opened { IsSome (slice_index_or (numbers heap.now self.now) fd None) }
        ensures { slice_index_or (numbers heap.now self.now) fd None ≡ Some result }
    {
        is_well_formed(heap);
        let Some(descriptor) = at(heap, &self.places, &self.leaves, fd) else {
            unreachable!()
        };
        descriptor
    }
}

/// What a number of a process names.
pub fn descriptor_of(heap: &KHeap, proc: &Proc, fd: u32) -> Option<Descriptor>
    requires rows { IsLong proc.now }
    requires owns { OwnsLeaves heap.now.leaves proc.now.leaves }
    requires number { fd < most_descriptors }
    ensures { result ≡ slice_index_or (numbers_by heap.now.leaves proc.now.descriptors proc.now.leaves) fd None }
{
    at(heap, &proc.descriptors, &proc.leaves, fd)
}

/// The lowest number of a process at or above one that isn't open. None where all from there to 127 are.
pub fn lowest_of(heap: &KHeap, proc: &Proc, from: u32) -> Option<u32>
    requires rows { IsLong proc.now }
    requires owns { OwnsLeaves heap.now.leaves proc.now.leaves }
    ensures { result ≡ lowest_free_from (descriptors_in (numbers_by heap.now.leaves proc.now.descriptors proc.now.leaves)) from }
{
    lowest_among(heap, &proc.descriptors, &proc.leaves, from)
}

/// What `poll` tells a process of one entry, as the machine tells it of one that has these open: nothing of a number below 0, and
/// POLLNVAL of one that isn't open. A file and a directory are always ready for what is asked of POLLIN and POLLOUT; pipes
/// and sockets answer for themselves (POSIX poll).
pub fn polled(heap: &KHeap, proc: &Proc, entry: &PollEntry) -> u8
    requires rows { IsLong proc.now }
    requires owns { OwnsLeaves heap.now.leaves proc.now.leaves }
    requires there { IsOpenIn heap.now
        (descriptor_of (descriptors_in (numbers_by heap.now.leaves proc.now.descriptors proc.now.leaves)) entry.now.fd) }
    ensures { (plain : Numbers) (list : CountedList) (files : Files) (pid : ℕ) → AreOpen plain heap.now list files
        → descriptors_of files pid
        ≡ renumbered plain.descs (descriptors_in (numbers_by heap.now.leaves proc.now.descriptors proc.now.leaves))
        → result ≡ polled_at files pid entry.now.fd entry.now.events }
{
    match number_of(entry.fd) {
        Some(fd) => polled_at(heap, &proc.descriptors, &proc.leaves, fd, entry.events),
        None => 0,
    }
}

/// How many numbers of a process are open.
pub fn open_count(heap: &KHeap, proc: &Proc) -> u32
    requires rows { IsLong proc.now }
    requires owns { OwnsLeaves heap.now.leaves proc.now.leaves }
    ensures count { result
        ≡ open_count (descriptors_in (numbers_by heap.now.leaves proc.now.descriptors proc.now.leaves)) }
    ensures few { result ≤ most_descriptors }
{
    open_among(&proc.descriptors)
        + open_in(heap, proc.leaves[0])
        + open_in(heap, proc.leaves[1])
        + open_in(heap, proc.leaves[2])
}

// What is told of the descriptor of a number.
fn polled_at(
    heap: &KHeap,
    places: &[Option<Descriptor>; 32],
    leaves: &[Option<u32>; 3],
    fd: u64,
    events: i64,
) -> u8
    requires owns { OwnsLeaves heap.now.leaves leaves.now }
    requires there { IsOpenIn heap.now
        (descriptor_at (descriptors_in (numbers_by heap.now.leaves places.now leaves.now)) fd) }
    ensures { TellsOpen heap.now events result
        (descriptor_at (descriptors_in (numbers_by heap.now.leaves places.now leaves.now)) fd) }
{
    is_well_formed(heap);
    if fd >= u64::from(MOST_DESCRIPTORS) {
        return POLLNVAL;
    }
    match at(heap, places, leaves, fd as u32) {
        Some(descriptor) => polled_desc(heap, heap.get_desc(descriptor.desc), events),
        None => POLLNVAL,
    }
}

// What a number names, which stands among the first 32 or in a Leaf.
fn at(
    heap: &KHeap,
    places: &[Option<Descriptor>; 32],
    leaves: &[Option<u32>; 3],
    fd: u32,
) -> Option<Descriptor>
    requires owns { OwnsLeaves heap.now.leaves leaves.now }
    requires number { fd < most_descriptors }
    ensures { result ≡ slice_index_or (numbers_by heap.now.leaves places.now leaves.now) fd None }
{
    if fd < ROW {
        return places[fd as usize];
    }
    is_well_formed(heap);
    match leaves[group_of(fd)] {
        Some(key) => heap.get_leaf(key).descriptors[(fd % ROW) as usize],
        None => None,
    }
}

// The lowest number at or above one that isn't open.
fn lowest_among(
    heap: &KHeap,
    places: &[Option<Descriptor>; 32],
    leaves: &[Option<u32>; 3],
    from: u32,
) -> Option<u32>
    requires { OwnsLeaves heap.now.leaves leaves.now }
    ensures { result ≡ lowest_free_from (descriptors_in (numbers_by heap.now.leaves places.now leaves.now)) from }
{
    is_well_formed(heap);
    for fd in from..MOST_DESCRIPTORS {
        if at(heap, places, leaves, fd).is_none() {
            return Some(fd);
        }
    }
    None
}

// Which Leaf of a process has a number from 32 on.
fn group_of(fd: u32) -> usize
    requires least { 32 ≤ fd }
    requires number { fd < most_descriptors }
    ensures group { result ≡ group_of fd }
    ensures within { result < 3 }
{
    (fd / ROW - 1) as usize
}

// A new Leaf in which one number is open. Its key.
fn make_leaf(heap: &mut KHeap, purse: &mut Purse, place: u32, named: Option<Descriptor>) -> u32
    requires pays { CanPay heap.old purse.old }
    requires left { 0 < purse.old.left.leaf }
    requires within { place < 32 }
    ensures vacant { object heap.old.leaves result ≡ None }
    ensures stored { object heap.new.leaves result ≡ Some (record { descriptors = slice_set no_row place named }) }
    ensures kept { heap.new ≡ record heap.old {
      leaves = put heap.old.leaves result (record { descriptors = slice_set no_row place named });
      high = heap.new.high;
    } }
    ensures paid { IsPaid heap.old purse.old heap.new purse.new }
    ensures pays { CanPay heap.new purse.new }
    ensures spent { purse.new ≡ leaf_spent purse.old }
{
    let mut descriptors = [None; 32];
    descriptors[place as usize] = named;
    purse.spend(Class::Leaf);
    heap.insert_leaf(Leaf { descriptors })
}

// How many numbers of a Leaf are open.
fn open_in(heap: &KHeap, leaf: Option<u32>) -> u32
    requires { IfSome leaf (InUse heap.now.leaves) }
    ensures count { result ≡ count_by is_some (row_at heap.now.leaves leaf) }
    ensures few { result ≤ 32 }
{
    match leaf {
        Some(key) => open_among(&heap.get_leaf(key).descriptors),
        None => 0,
    }
}

// The heap is well formed: each row of its objects is as long as it was reserved.
fn is_well_formed(heap: &KHeap)
    ensures { IsWellFormed heap.now }
{
    let _ = heap.heap();
}

// The number that an entry has; None below 0.
fn number_of(fd: i64) -> Option<u64>
    ensures { result ≡ number_of fd }
{
    u64::try_from(fd).ok()
}

// How many of 32 numbers are open.
fn open_among(places: &[Option<Descriptor>; 32]) -> u32
    ensures count { result ≡ count_by is_some places.now }
    ensures few { result ≤ 32 }
{
    let mut count = 0;
    for place in places {
        if place.is_some() {
            count += 1;
        }
    }
    count
}

// What `poll` tells of a description.
fn polled_desc(heap: &KHeap, desc: &Desc, events: i64) -> u8
    requires { IsTargetIn heap.now desc.now.target }
    ensures { TellsTarget heap.now (access_in desc.now.access) events result desc.now.target }
{
    match desc.target {
        Target::Inode(_) => event_if(POLLIN, events, true) + event_if(POLLOUT, events, true),
        Target::Pipe(key) => pipe_polled(heap, key, may_write(desc.access), events),
        Target::Sock(key) => sock_polled(heap, key, events),
    }
}
