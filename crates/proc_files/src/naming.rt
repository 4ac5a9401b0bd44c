//! A socket gets the name of a node, and loses it.

ghost use Rattle.std.specs.Prelude.{◌≡◌, ◌<◌, ℕ, [], None, Some, length};
ghost use Rattle.kheap_slabs.specs.Objects.{object, put, without};
ghost use Rattle.kheap_slabs.specs.Owners.{OwnsItsObjects};
ghost use Rattle.kheap_slabs.specs.Paid.{TakesNothing};
ghost use Rattle.memfs_ops.specs.FileTree.{TreeView};
ghost use Rattle.open_laws.specs.Owned.{HasItsOwners};
ghost use Rattle.open_laws.specs.Placed.{Numbers};
ghost use Rattle.posix_defs.specs.DiskFormat.{table_nodes};
ghost use Rattle.posix_defs.specs.Files.SocketNames.{after_freeing};
ghost use Rattle.posix_defs.specs.Files.State.{Files, with_sockets};
ghost use Rattle.posix_defs.specs.Sockets.{Sockets, with_name};
ghost use Rattle.proc_table.specs.Table.{TableView};
ghost use Rattle.proc_numbers.specs.Having.{AreListed};
ghost use Rattle.proc_numbers.specs.Queues.{QueuesStand};
ghost use Rattle.proc_files.specs.Holding.{HoldFiles};
ghost use Rattle.usock_core.specs.Standing.{IsSocketIn, QueuesStay, StandsFor as SocketsStandFor};
ghost use Rattle.proc_numbers.specs.Owning.{SocketsChange};
ghost use Rattle.proc_files.specs.Names.{AreBound, freed_from, name_of};
ghost use Rattle.proc_files.specs.NameHolding.{HoldNames};
ghost use Rattle.proc_files.specs.Holders.{HaveNamesBut};

use bound_table::BoundTable;
use kheap_slabs::KHeap;
use usock_core::name_sock;

// A socket without a name is bound to a node from now on, to which none was.
pub(crate) fn give_name(heap: &mut KHeap, names: &mut BoundTable, key: u32, node: u32)
    requires owned { OwnsItsObjects heap.old }
    requires there { IsSocketIn heap.old key }
    requires bound { AreBound (name_of heap.old.socks) names.old }
    requires unnamed { name_of heap.old.socks key ≡ None }
    requires free { object names.old node ≡ None }
    requires place { node < length names.old }
    ensures stands { (sockets : Sockets) → SocketsStandFor heap.old sockets
        → SocketsStandFor heap.new (with_name sockets key (Some node)) }
    ensures change { SocketsChange heap.old heap.new [] }
    ensures bound { AreBound (name_of heap.new.socks) names.new }
    ensures names { names.new ≡ put names.old node key }
    ensures queues { QueuesStay heap.old heap.new }
    ensures takes { TakesNothing heap.old heap.new }
{
    name_sock(heap, key, Some(node));
    names.bind(node, key);
}

// A socket is bound to its node no more.
pub(crate) fn take_name(heap: &mut KHeap, names: &mut BoundTable, key: u32, node: u32)
    requires owned { OwnsItsObjects heap.old }
    requires there { IsSocketIn heap.old key }
    requires bound { AreBound (name_of heap.old.socks) names.old }
    requires named { name_of heap.old.socks key ≡ Some node }
    ensures stands { (sockets : Sockets) → SocketsStandFor heap.old sockets
        → SocketsStandFor heap.new (with_name sockets key None) }
    ensures change { SocketsChange heap.old heap.new [] }
    ensures bound { AreBound (name_of heap.new.socks) names.new }
    ensures names { names.new ≡ without names.old node }
    ensures queues { QueuesStay heap.old heap.new }
    ensures takes { TakesNothing heap.old heap.new }
{
    names.free(node);
    name_sock(heap, key, None);
}

/// A socket's name has gone from the tree: the socket that was bound to its node keeps no name, and the node may be made anew.
/// None where no socket's name has gone, which changes nothing.
///
/// So ends an `unlink`, and a `rename` over a name, once the tree has told which node it freed
/// (<https://pubs.opengroup.org/onlinepubs/9699919799/functions/unlink.html>).
pub fn name_freed(heap: &mut KHeap, names: &mut BoundTable, freed: Option<u32>)
    requires owners { HasItsOwners heap.old [] }
    requires bound { AreBound (name_of heap.old.socks) names.old }
    ensures hold { (numbers : Numbers) (others : ℕ → ℕ) (kept : TableView) (fs : TreeView) (files : Files)
        → HoldFiles numbers others heap.old kept fs files → HaveNamesBut freed files
        → table_nodes files.tree.blocks < length names.old
        → HoldNames numbers others heap.new kept fs names.new (with_sockets files (after_freeing files.sockets freed)) }
    ensures names { names.new ≡ freed_from names.old freed }
    ensures places { length names.new ≡ length names.old }
    ensures listed { (kept : TableView) → AreListed heap.old kept → AreListed heap.new kept }
    ensures owners { HasItsOwners heap.new [] }
    ensures beside { heap.new
        ≡ record heap.old { chunks = heap.new.chunks; socks = heap.new.socks; high = heap.new.high } }
    ensures queues { QueuesStand heap.old heap.new }
    ensures takes { TakesNothing heap.old heap.new }
{
    let Some(node) = freed else {
        return;
    };
    let Some(key) = names.bound_at(node) else {
        return;
    };
    take_name(heap, names, key, node);
}
