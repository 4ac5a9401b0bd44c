//! `open`.

ghost use Rattle.std.specs.Prelude.{◌≡◌, ◌-◌, ◌<◌, ◌≤◌, ◌^◌, ◌==◌, ◌&&◌, nat_le, ℕ, [], None, Ok, OnOk, Some, false, if◌then◌else◌, not, true};
ghost use Rattle.std.specs.List.{All};
ghost use Rattle.fifo_nodes.specs.Chain.{IsChain};
ghost use Rattle.kabi_types.specs.Arguments.{argument_fault, most_descriptors};
ghost use Rattle.kabi_types.specs.declared.calls.Call.{Call};
ghost use Rattle.kabi_types.specs.declared.scripts.Script.{Script};
ghost use Rattle.kabi_types.specs.OpenFlags.{are_open_flags};
ghost use Rattle.kabi_types.specs.declared.classes.Class.TheVariants as class;
ghost use Rattle.kabi_types.specs.Counts.{with_count};
ghost use Rattle.kheap_slabs.specs.declared.objects.Proc.{Proc};
ghost use Rattle.kheap_slabs.specs.Paid.{CanPay, HasFills, IsPaid};
ghost use Rattle.memfs_ops.specs.FileTree.{KeepsLast, KnowsWay, MayWalk, Stands, in_call};
ghost use Rattle.memfs_ops.specs.Opening.{asks_of};
ghost use Rattle.open_laws.specs.Described.{target_in};
ghost use Rattle.open_laws.specs.Owned.{HasItsOwners};
ghost use Rattle.open_laws.specs.Piped.{ArePiped};
ghost use Rattle.open_laws.specs.Placed.{Numbers};
ghost use Rattle.posix_defs.specs.Calls.OnFiles.{description_on, end_opened, fifo_fault as plain_fault, fifo_pipe, fifo_waits, is_for_both, most_opens, open_by, open_fifo as plain_open, opened_node_as, opening_of};
ghost use Rattle.posix_defs.specs.Files.Descriptions.{access_of, has_flag, may_write, o_cloexec, o_nonblock, o_trunc};
ghost use Rattle.posix_defs.specs.Files.State.{Files, opened_as};
ghost use Rattle.posix_defs.specs.PathCalls.{is_fifo};
ghost use Rattle.posix_defs.specs.Paths.{resolve};
ghost use Rattle.posix_defs.specs.Pipe.{opens_of};
ghost use Rattle.posix_defs.specs.Plain.{Plain};
ghost use Rattle.posix_defs.specs.Process.{Table, directory_of};
ghost use Rattle.posix_defs.specs.Tree.{Tree};
ghost use Rattle.proc_table.specs.Procs.{proc_of};
ghost use Rattle.proc_table.specs.Standing.{IsTable};
ghost use Rattle.proc_table.specs.Table.{IsPlaced, processes};
ghost use Rattle.proc_numbers.specs.Having.{AreListed, HaveOpen};
ghost use Rattle.proc_numbers.specs.Naming.{ChangesNumbers, named_at};
ghost use Rattle.proc_numbers.specs.Queues.{QueuesStand};
ghost use Rattle.proc_files.specs.Closing.{ChangesHolding};
ghost use Rattle.proc_files.specs.Holding.{CachesStay, HoldFiles, HoldSome};
ghost use Rattle.proc_files.specs.Opening.{AnswersOpening, HasLed, HasLedSome, HaveAnew, HaveWanting, MakesDesc, WantsDesc, WorksSomewhere, desc_on, end_came, mode_of};

use crate::nodes::{is_fifo, is_well_formed};
use fifo_nodes::FifoTable;
use kabi_types::{Class, Errno, OpenFlags};
use kheap_slabs::{Access, Desc, DescFlags, Descriptor, HalfOpen, KHeap, Purse, Target};
use memfs_ops::{FileTree, Opening};
use proc_numbers::{lowest_from, open_one};
use proc_table::{Place, ProcTable};

/// The flags of `open` that are the description's and the number's: access modes, O_APPEND, O_NONBLOCK and O_CLOEXEC.
const O_WRONLY: u64 = 1;

const O_RDWR: u64 = 2;

const O_APPEND: u64 = 1024;

const O_NONBLOCK: u64 = 2048;

const O_CLOEXEC: u64 = 524288;

/// What an open came to.
#[derive(Clone, Copy)]
pub enum Opened {
    /// It is over: its number is told.
    Over(u32),
    /// It has made its end of a FIFO, and waits until the other side is opened.
    Waits(HalfOpen),
}

/// The lowest number of a process that is free names a new description of what a path leads to from its working directory, which
/// may be made by the way (O_CREAT). Of a FIFO it is an end: where the other side has none, and without O_NONBLOCK, it waits until the
/// other side is opened; that the process sleeps in it then is left to the caller.
///
/// EMFILE where no number is free, before the path is walked; then EEXIST where something is there that must not be, EISDIR where a
/// directory is to be written, EOPNOTSUPP of the name of a socket, ENOENT and ENOSPC where nothing is there and nothing is made, else
/// the faults of the walk. Of a FIFO EINVAL where it is to be read and written, ENXIO where it is to be written without waiting and
/// nobody has it open to read, EAGAIN where that side was opened 4294967295 times.
///
/// <https://pubs.opengroup.org/onlinepubs/9699919799/functions/open.html>
pub fn open_path(
    heap: &mut KHeap,
    purse: &mut Purse,
    procs: &ProcTable,
    tree: &mut FileTree,
    fifos: &mut FifoTable,
    place: Place,
    path: &[u8],
    flags: i64,
) -> Result<Opened, Errno>
    requires listed { AreListed heap.old procs.now }
    requires owners { HasItsOwners heap.old [] }
    requires chain { IsChain heap.old fifos.old }
    requires there { IsPlaced procs.now place }
    requires works { WorksSomewhere heap.old procs.now tree.old place.pid }
    requires right { argument_fault (Call.OpenFile path.now flags) ≡ None }
    requires bytes { All (λ byte. (0 < byte) × (byte < 2 ^ 8)) path.now }
    requires may { MayWalk heap.old purse.old }
    requires left { 0 < purse.old.left.desc }
    requires left_leaf { 0 < purse.old.left.leaf }
    requires left_pipe { 0 < purse.old.left.pipe }
    ensures answers { (numbers : Numbers) (others : ℕ → ℕ) (script : Script) (plain : Plain)
        → IsTable heap.old procs.now plain.table
        → HoldFiles numbers others heap.old procs.now tree.old plain.files
        → AnswersOpening numbers others heap.old heap.new procs.now tree.new script plain place.pid (open_by script plain place.pid path.now flags None) result }
    ensures listed { AreListed heap.new procs.now }
    ensures owners { HasItsOwners heap.new [] }
    ensures chain { IsChain heap.new fifos.new }
    ensures hold { HoldSome heap.new procs.now tree.new }
    ensures changes { ChangesHolding heap.old heap.new procs.now place.pid }
    ensures queues { QueuesStand heap.old heap.new }
    ensures socks { heap.new.socks ≡ heap.old.socks }
    ensures locks { heap.new.locks ≡ heap.old.locks }
    ensures paid { IsPaid heap.old purse.old heap.new purse.new }
    ensures fills { HasFills heap.new purse.new }
    ensures reads { tree.old.disk.reads ≤ tree.new.disk.reads }
    ensures saved { (proc : Proc) (plain : Tree) (pins : ℕ → ℕ) → proc_of (processes heap.old procs.now) place.pid ≡ Some proc
        → Stands heap.old tree.old plain pins → KnowsWay (in_call heap.old purse.old tree.old) plain proc.cwd path.now
        → has_flag flags o_trunc ≡ false → tree.new.disk ≡ tree.old.disk }
    ensures kept { (proc : Proc) (plain : Tree) (pins : ℕ → ℕ) → proc_of (processes heap.old procs.now) place.pid ≡ Some proc
        → Stands heap.old tree.old plain pins → OnOk result (KeepsLast tree.new (resolve plain proc.cwd path.now)) }
{
    let Some(fd) = lowest_from(heap, procs, place, 0) else {
        return Err(Errno::EMFILE);
    };
    let cwd = directory_of(heap, procs, place);
    let how = asked_by(flags);
    is_well_formed(heap);
    match tree.open_node(heap, purse, cwd, path, how) {
        Ok(node) => open_found(heap, purse, procs, tree, fifos, place, fd, node, flags),
        Err(errno) => Err(errno),
    }
}

// A number of a process that isn't open names a new description of a node, which is held for it already; an end, where that is a FIFO.
fn open_found(
    heap: &mut KHeap,
    purse: &mut Purse,
    procs: &ProcTable,
    tree: &mut FileTree,
    fifos: &mut FifoTable,
    place: Place,
    fd: u32,
    node: u32,
    flags: i64,
) -> Result<Opened, Errno>
    requires listed { AreListed heap.old procs.now }
    requires owners { HasItsOwners heap.old [] }
    requires chain { IsChain heap.old fifos.old }
    requires there { IsPlaced procs.now place }
    requires number { fd < most_descriptors }
    requires free { named_at heap.old procs.now place.pid fd ≡ None }
    requires led { HasLedSome heap.old procs.now tree.old node flags }
    requires pays { CanPay heap.old purse.old }
    requires fills { HasFills heap.old purse.old }
    requires left { 0 < purse.old.left.desc }
    requires left_leaf { 0 < purse.old.left.leaf }
    requires left_pipe { 0 < purse.old.left.pipe }
    ensures answers { (numbers : Numbers) (others : ℕ → ℕ) (script : Script) (plain : Plain) (next : Tree)
        → HasLed numbers others heap.old procs.now tree.old plain.files next node flags
        → AnswersOpening numbers others heap.old heap.new procs.now tree.new script plain place.pid (opened_node_as script plain place.pid flags fd (Ok (node, next))) result }
    ensures listed { AreListed heap.new procs.now }
    ensures owners { HasItsOwners heap.new [] }
    ensures chain { IsChain heap.new fifos.new }
    ensures hold { HoldSome heap.new procs.now tree.new }
    ensures changes { ChangesHolding heap.old heap.new procs.now place.pid }
    ensures queues { QueuesStand heap.old heap.new }
    ensures socks { heap.new.socks ≡ heap.old.socks }
    ensures locks { heap.new.locks ≡ heap.old.locks }
    ensures paid { IsPaid heap.old purse.old heap.new purse.new }
    ensures fills { HasFills heap.new purse.new }
    ensures disk { tree.new.disk ≡ tree.old.disk }
    ensures names { tree.new.names ≡ tree.old.names }
{
    if is_fifo(&tree.stat_node(heap, node)) {
        return open_fifo(heap, purse, procs, tree, fifos, place, fd, node, flags);
    }
    open_new(heap, purse, procs, place, fd, Target::Inode(node), flags);
    Ok(Opened::Over(fd))
}

// The same of a FIFO: where it isn't opened, it is held no more for that.
fn open_fifo(
    heap: &mut KHeap,
    purse: &mut Purse,
    procs: &ProcTable,
    tree: &mut FileTree,
    fifos: &mut FifoTable,
    place: Place,
    fd: u32,
    node: u32,
    flags: i64,
) -> Result<Opened, Errno>
    requires listed { AreListed heap.old procs.now }
    requires owners { HasItsOwners heap.old [] }
    requires chain { IsChain heap.old fifos.old }
    requires there { IsPlaced procs.now place }
    requires number { fd < most_descriptors }
    requires free { named_at heap.old procs.now place.pid fd ≡ None }
    requires led { (led : HasLedSome heap.old procs.now tree.old node flags) × (is_fifo led.next node ≡ true) }
    requires pays { CanPay heap.old purse.old }
    requires fills { HasFills heap.old purse.old }
    requires left { 0 < purse.old.left.desc }
    requires left_leaf { 0 < purse.old.left.leaf }
    requires left_pipe { 0 < purse.old.left.pipe }
    ensures answers { (numbers : Numbers) (others : ℕ → ℕ) (script : Script) (plain : Plain) (next : Tree)
        → HasLed numbers others heap.old procs.now tree.old plain.files next node flags → is_fifo next node ≡ true
        → AnswersOpening numbers others heap.old heap.new procs.now tree.new script plain place.pid (plain_open script plain place.pid flags fd node) result }
    ensures listed { AreListed heap.new procs.now }
    ensures owners { HasItsOwners heap.new [] }
    ensures chain { IsChain heap.new fifos.new }
    ensures hold { HoldSome heap.new procs.now tree.new }
    ensures changes { ChangesHolding heap.old heap.new procs.now place.pid }
    ensures queues { QueuesStand heap.old heap.new }
    ensures socks { heap.new.socks ≡ heap.old.socks }
    ensures locks { heap.new.locks ≡ heap.old.locks }
    ensures paid { IsPaid heap.old purse.old heap.new purse.new }
    ensures fills { HasFills heap.new purse.new }
    ensures disk { tree.new.disk ≡ tree.old.disk }
    ensures names { tree.new.names ≡ tree.old.names }
{
    if let Some(errno) = fifo_fault(heap, fifos, node, flags) {
        tree.close_node(heap, purse, node);
        return Err(errno);
    }
    Ok(open_end(heap, purse, procs, fifos, place, fd, node, flags))
}

// Why a FIFO isn't opened, if it isn't.
fn fifo_fault(heap: &KHeap, fifos: &FifoTable, node: u32, flags: i64) -> Option<Errno>
    requires chain { IsChain heap.now fifos.now }
    requires node { 0 < node }
    ensures { (numbers : Numbers) (files : Files) → ArePiped numbers heap.now files.pipes → result ≡ plain_fault (fifo_pipe files node) flags }
{
    if is_for_both(flags) {
        return Some(Errno::EINVAL);
    }
    if lacks_reader(heap, fifos, node, flags) {
        return Some(Errno::ENXIO);
    }
    if is_most(fifos.begun(heap, node, is_to_write(flags))) {
        return Some(Errno::EAGAIN);
    }
    None
}

// Whether a FIFO is to be written without waiting, and nobody has it open to read.
fn lacks_reader(heap: &KHeap, fifos: &FifoTable, node: u32, flags: i64) -> bool
    requires chain { IsChain heap.now fifos.now }
    requires node { 0 < node }
    ensures { (numbers : Numbers) (files : Files) → ArePiped numbers heap.now files.pipes
        → result ≡ (may_write (access_of flags) && has_flag flags o_nonblock && ((fifo_pipe files node).readers == 0)) }
{
    if !is_to_write(flags) {
        return false;
    }
    if !has_flag(flags, O_NONBLOCK) {
        return false;
    }
    fifos.ends(heap, node, false) == 0
}

// Whether one side of a FIFO was opened as often as may be.
fn is_most(opens: u32) -> bool
    ensures { result ≡ nat_le most_opens opens }
{
    opens == u32::MAX
}

// Whether flags open for reading and for writing.
fn is_for_both(flags: i64) -> bool
    ensures { result ≡ is_for_both (access_of flags) }
{
    match mode_of(flags) {
        Access::Both => true,
        Access::Read | Access::Write => false,
    }
}

// A number of a process that isn't open names a new end of a FIFO. What the open came to.
fn open_end(
    heap: &mut KHeap,
    purse: &mut Purse,
    procs: &ProcTable,
    fifos: &mut FifoTable,
    place: Place,
    fd: u32,
    node: u32,
    flags: i64,
) -> Opened
    requires listed { AreListed heap.old procs.now }
    requires owners { HasItsOwners heap.old [] }
    requires chain { IsChain heap.old fifos.old }
    requires there { IsPlaced procs.now place }
    requires number { fd < most_descriptors }
    requires free { named_at heap.old procs.now place.pid fd ≡ None }
    requires node { 0 < node }
    requires right { (numbers : Numbers) × (files : Files) × HaveOpen numbers heap.old procs.now files × (plain_fault (fifo_pipe files node) flags ≡ None) }
    requires pays { CanPay heap.old purse.old }
    requires fills { HasFills heap.old purse.old }
    requires left { 0 < purse.old.left.desc }
    requires left_leaf { 0 < purse.old.left.leaf }
    requires left_pipe { 0 < purse.old.left.pipe }
    ensures opened { (numbers : Numbers) (files : Files) → HaveOpen numbers heap.old procs.now files
        → HaveAnew numbers heap.old heap.new procs.now (end_opened files place.pid flags fd node) }
    ensures came { (numbers : Numbers) (files : Files) → HaveOpen numbers heap.old procs.now files → result ≡ end_came (fifo_pipe files node) flags fd }
    ensures listed { AreListed heap.new procs.now }
    ensures owners { HasItsOwners heap.new [] }
    ensures chain { IsChain heap.new fifos.new }
    ensures changes { ChangesHolding heap.old heap.new procs.now place.pid }
    ensures stay { CachesStay heap.old heap.new }
    ensures queues { QueuesStand heap.old heap.new }
    ensures socks { heap.new.socks ≡ heap.old.socks }
    ensures locks { heap.new.locks ≡ heap.old.locks }
    ensures paid { IsPaid heap.old purse.old heap.new purse.new }
    ensures fills { HasFills heap.new purse.new }
{
    let awaited = awaited(heap, fifos, node, flags);
    let pipe = fifos.open_end(heap, purse, node, is_to_write(flags));
    open_new(heap, purse, procs, place, fd, Target::Pipe(pipe), flags);
    match awaited {
        Some(seen) => Opened::Waits(HalfOpen { fd, seen }),
        None => Opened::Over(fd),
    }
}

// How often the other side of a FIFO was opened so far, where an open waits for it: where it has no end, but with O_NONBLOCK.
fn awaited(heap: &KHeap, fifos: &FifoTable, node: u32, flags: i64) -> Option<u32>
    requires chain { IsChain heap.now fifos.now }
    requires node { 0 < node }
    ensures { (numbers : Numbers) (files : Files) → ArePiped numbers heap.now files.pipes
        → result ≡ (if fifo_waits (fifo_pipe files node) flags then Some (opens_of (fifo_pipe files node) (not (may_write (access_of flags)))) else None) }
{
    if has_flag(flags, O_NONBLOCK) {
        return None;
    }
    let other = !is_to_write(flags);
    if fifos.ends(heap, node, other) != 0 {
        return None;
    }
    Some(fifos.begun(heap, node, other))
}

// Whether flags open for writing, or for both.
fn is_to_write(flags: i64) -> bool
    ensures { result ≡ may_write (access_of flags) }
{
    match mode_of(flags) {
        Access::Read => false,
        Access::Write | Access::Both => true,
    }
}

// What flags ask of the tree.
fn asked_by(flags: i64) -> Opening
    requires { are_open_flags flags ≡ true }
    ensures { asks_of result ≡ opening_of flags }
{
    let Some(asked) = OpenFlags::of(flags) else {
        unreachable!();
    };
    Opening::of(asked)
}

// A number of a process that isn't open names a new description of a target from now on, at its beginning and as the flags ask: of a
// node that is held for it, or of a FIFO that has an end more than descriptions are open on.
fn open_new(
    heap: &mut KHeap,
    purse: &mut Purse,
    procs: &ProcTable,
    place: Place,
    fd: u32,
    target: Target,
    flags: i64,
)
    requires listed { AreListed heap.old procs.now }
    requires wants { WantsDesc heap.old target flags }
    requires there { IsPlaced procs.now place }
    requires number { fd < most_descriptors }
    requires free { named_at heap.old procs.now place.pid fd ≡ None }
    requires pays { CanPay heap.old purse.old }
    requires fills { HasFills heap.old purse.old }
    requires left { 0 < purse.old.left.desc }
    requires left_leaf { 0 < purse.old.left.leaf }
    ensures opened { (numbers : Numbers) (files : Files) → HaveWanting numbers heap.old procs.now files target flags
        → HaveAnew numbers heap.old heap.new procs.now (opened_as files place.pid fd (has_flag flags o_cloexec) (description_on (target_in numbers target) flags)) }
    ensures listed { AreListed heap.new procs.now }
    ensures owners { HasItsOwners heap.new [] }
    ensures changes { ChangesNumbers heap.old heap.new procs.now place.pid }
    ensures stay { CachesStay heap.old heap.new }
    ensures queues { QueuesStand heap.old heap.new }
    ensures socks { heap.new.socks ≡ heap.old.socks }
    ensures locks { heap.new.locks ≡ heap.old.locks }
    ensures paid { IsPaid heap.old purse.old heap.new purse.new }
    ensures fills { HasFills heap.new purse.new }
{
    let desc = describe(heap, purse, target, flags);
    let descriptor = Descriptor {
        desc,
        close_on_exec: has_flag(flags, O_CLOEXEC),
    };
    open_one(heap, purse, procs, place, fd, descriptor);
}

/// The directory that a process works in.
pub(crate) fn directory_of(heap: &KHeap, procs: &ProcTable, place: Place) -> u32
    requires listed { AreListed heap.now procs.now }
    requires there { IsPlaced procs.now place }
    ensures works { (proc : Proc) → proc_of (processes heap.now procs.now) place.pid ≡ Some proc → result ≡ proc.cwd }
    ensures plain { (table : Table) → IsTable heap.now procs.now table → directory_of table place.pid ≡ result }
{
    procs.at(heap, place).cwd
}

// A new description of a target, as the flags ask, which one descriptor in hand names. Its key.
fn describe(heap: &mut KHeap, purse: &mut Purse, target: Target, flags: i64) -> u32
    requires pays { CanPay heap.old purse.old }
    requires left { 0 < purse.old.left.desc }
    ensures makes { MakesDesc heap.old heap.new result target flags }
    ensures paid { IsPaid heap.old purse.old heap.new purse.new }
    ensures spent { purse.new
        ≡ record purse.old { left = with_count purse.old.left class.Desc (purse.old.left.desc - 1) } }
{
    purse.spend(Class::Desc);
    heap.insert_desc(desc_on(target, flags))
}

// A description of a target at its beginning, as the flags ask.
fn desc_on(target: Target, flags: i64) -> Desc
    ensures { result ≡ desc_on target flags }
{
    Desc {
        target,
        offset: 0,
        access: mode_of(flags),
        flags: DescFlags {
            append: has_flag(flags, O_APPEND),
            nonblock: has_flag(flags, O_NONBLOCK),
        },
        count: 1,
    }
}

// The access mode that flags ask for.
fn mode_of(flags: i64) -> Access
    ensures { result ≡ mode_of flags }
{
    if has_flag(flags, O_RDWR) {
        Access::Both
    } else if has_flag(flags, O_WRONLY) {
        Access::Write
    } else {
        Access::Read
    }
}

// Whether a flag, which is a power of 2, is among these bits.
fn has_flag(bits: i64, flag: u64) -> bool
    requires { 0 < flag }
    ensures { result ≡ has_flag bits flag }
{
    bits.cast_unsigned() / flag % 2 == 1
}
