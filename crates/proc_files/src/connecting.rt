//! `connect`.

ghost use Rattle.std.specs.Prelude.{◌≡◌, ◌<◌, ◌≤◌, ℕ, [], Option, None, IsOk, OnErr, OnOk};
ghost use Rattle.std.specs.Option.{ForSome};
ghost use Rattle.kabi_types.specs.Arguments.{path_fault};
ghost use Rattle.kabi_types.specs.declared.scripts.Script.{Script};
ghost use Rattle.kheap_slabs.specs.Paid.{HasFills, IsPaid};
ghost use Rattle.memfs_ops.specs.FileTree.{KeepsLed, KnowsWay, MayWalk, Stands, in_call};
ghost use Rattle.open_laws.specs.Owned.{HasItsOwners};
ghost use Rattle.open_laws.specs.Placed.{Numbers};
ghost use Rattle.posix_defs.specs.Calls.OnSockets.{connect as plain_connect, listener_under as plain_listener_under};
ghost use Rattle.posix_defs.specs.Files.SocketNames.{listener_at as plain_listener_at};
ghost use Rattle.posix_defs.specs.PathCalls.{node_led};
ghost use Rattle.posix_defs.specs.Paths.{resolve};
ghost use Rattle.posix_defs.specs.Plain.{Plain};
ghost use Rattle.posix_defs.specs.Process.{directory_of as plain_directory};
ghost use Rattle.posix_defs.specs.Sockets.{Sockets};
ghost use Rattle.posix_defs.specs.Tree.{Tree};
ghost use Rattle.proc_table.specs.Table.{IsPlaced};
ghost use Rattle.proc_numbers.specs.Found.{IsOpened};
ghost use Rattle.proc_numbers.specs.Having.{AreListed};
ghost use Rattle.proc_numbers.specs.Queues.{QueuesStand};
ghost use Rattle.proc_numbers.specs.Answering.{zero_of};
ghost use Rattle.usock_core.specs.Standing.{HasSockets, IsListeningIn, StandsFor as SocketsStandFor};
ghost use Rattle.proc_files.specs.NameAnswering.{AnswersConnecting, NamesChange};
ghost use Rattle.proc_files.specs.Names.{AreBound, name_of};
ghost use Rattle.proc_files.specs.NameHolding.{HoldNames, WorksAt, WorksInSome};

use crate::directories::directory_of;
use bound_table::BoundTable;
use kabi_types::Errno;
use kheap_slabs::{KHeap, Purse, SockState};
use memfs_ops::FileTree;
use proc_numbers::Named;
use proc_table::{Place, ProcTable};
use usock_core::{can_connect, connect};

/// The socket that a number of a process is open on is connected to a new one, which waits behind the others for the socket that
/// listens under a path.
///
/// EBADF where the number isn't open, ENOTSOCK where it is open on something else, EISCONN where the socket is connected, EOPNOTSUPP
/// where it listens; then ENOENT where the path's name is free, else the faults of the walk; and ECONNREFUSED where the path leads
/// to no socket's name, nobody listens under it, or 8 wait. No socket is changed then; the caches may be, once the path is walked.
///
/// Where all that is asked for on the way is cached nothing is read. What was found is cached afterwards, by its name and its inode.
///
/// <https://pubs.opengroup.org/onlinepubs/9699919799/functions/connect.html>
pub fn connect_number(
    heap: &mut KHeap,
    purse: &mut Purse,
    procs: &ProcTable,
    tree: &mut FileTree,
    names: &BoundTable,
    place: Place,
    on: &Named,
    path: &[u8],
) -> Result<(), Errno>
    requires listed { AreListed heap.old procs.now }
    requires owners { HasItsOwners heap.old [] }
    requires there { IsPlaced procs.now place }
    requires opened { IsOpened heap.old procs.now place.pid on.now }
    requires hold { WorksInSome heap.old procs.now tree.old names.now place.pid }
    requires path { path_fault path.now ≡ None }
    requires may { MayWalk heap.old purse.old }
    requires left { 0 < purse.old.left.sock }
    ensures answers { (numbers : Numbers) (others : ℕ → ℕ) (script : Script) (plain : Plain)
        → HoldNames numbers others heap.old procs.now tree.old names.now plain.files
        → WorksAt heap.old procs.now place.pid (plain_directory plain.table place.pid)
        → AnswersConnecting numbers others heap.old heap.new procs.now tree.new names.now script plain place.pid
        (plain_connect script plain place.pid on.now.fd path.now) (zero_of result) }
    ensures listed { AreListed heap.new procs.now }
    ensures owners { HasItsOwners heap.new [] }
    ensures changes { NamesChange heap.old heap.new }
    ensures unchanged { OnErr result (heap.new.socks ≡ heap.old.socks) }
    ensures queues { QueuesStand heap.old heap.new }
    ensures paid { IsPaid heap.old purse.old heap.new purse.new }
    ensures fills { HasFills heap.new purse.new }
    ensures reads { tree.old.disk.reads ≤ tree.new.disk.reads }
    ensures bytes { tree.new.disk.blocks ≡ tree.old.disk.blocks }
    ensures saved { (plain : Tree) (pins : ℕ → ℕ) (directory : ℕ) → Stands heap.old tree.old plain pins
        → WorksAt heap.old procs.now place.pid directory
        → KnowsWay (in_call heap.old purse.old tree.old) plain directory path.now
        → tree.new.disk ≡ tree.old.disk }
    ensures kept { (plain : Tree) (pins : ℕ → ℕ) (directory : ℕ) → Stands heap.old tree.old plain pins
        → WorksAt heap.old procs.now place.pid directory
        → OnOk result (KeepsLed tree.new (resolve plain directory path.now)) }
    ensures found { (plain : Tree) (pins : ℕ → ℕ) (directory : ℕ) → Stands heap.old tree.old plain pins
        → WorksAt heap.old procs.now place.pid directory
        → OnOk result (IsOk (node_led (resolve plain directory path.now))) }
{
    let found = on.socket()?;
    can_connect(heap, found.key)?;
    let cwd = directory_of(heap, procs, place);
    let node = tree.find_name(heap, purse, cwd, path)?;
    let listener = listener_under(heap, names, node);
    connect(heap, purse, found.key, listener)
}

// The socket that listens under the name of a node, if there is one.
fn listener_under(heap: &KHeap, names: &BoundTable, node: Option<u32>) -> Option<u32>
    requires stands { HasSockets heap.now }
    requires bound { AreBound (name_of heap.now.socks) names.now }
    ensures listener { (sockets : Sockets) → SocketsStandFor heap.now sockets → result ≡ plain_listener_under sockets node }
    ensures listens { ForSome result (IsListeningIn heap.now) }
{
    match node {
        Some(node) => listener_at(heap, names, node),
        None => None,
    }
}

// The same of a node.
fn listener_at(heap: &KHeap, names: &BoundTable, node: u32) -> Option<u32>
    requires stands { HasSockets heap.now }
    requires bound { AreBound (name_of heap.now.socks) names.now }
    ensures listener { (sockets : Sockets) → SocketsStandFor heap.now sockets → result ≡ plain_listener_at sockets node }
    ensures listens { ForSome result (IsListeningIn heap.now) }
{
    let key = names.bound_at(node)?;
    match heap.get_sock(key).state {
        SockState::Listening => Some(key),
        SockState::Idle | SockState::Connected { .. } => None,
    }
}
