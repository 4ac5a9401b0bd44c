ghost use Rattle.std.specs.Prelude.{◌≡◌, ◌+◌, ◌<◌, ℕ, List, ◌∷◌, Some};
ghost use Rattle.kheap_slabs.specs.Objects.{object, InUse, put};
ghost use Rattle.kheap_slabs.specs.declared.objects.Desc.{Desc as HeldDesc};
ghost use Rattle.kheap_slabs.specs.Owners.{OwnsItsObjects};
ghost use Rattle.kheap_slabs.specs.Paid.{TakesNothing};
ghost use Rattle.kheap_slabs.specs.Heap.{Heap};
ghost use Rattle.pipe_ends.specs.Links.{AreRelinked};
ghost use Rattle.fifo_nodes.specs.Chain.{IsChain};
ghost use Rattle.posix_defs.specs.Files.Descriptions.{may_write as plain_may_write};
ghost use Rattle.posix_defs.specs.Files.State.{Files};
ghost use Rattle.open_laws.specs.Placed.{Numbers};
ghost use Rattle.open_laws.specs.Closing.{ClosesLinks, Drops, DropsLinks, DropsRelinked, IsClosable, IsDroppable, QueuesChange, TargetCloses};
ghost use Rattle.open_laws.specs.Described.{CountedList, access_in, counting, after_share, after_drop, node_in, node_left, descs_left};
ghost use Rattle.open_laws.specs.Open.{AreOpen, files_dropped};
ghost use Rattle.open_laws.specs.Owned.{HasItsOwners};
ghost use Rattle.open_laws.specs.Sharing.{CanShare, after_shares, hand_with, share_all};

use fifo_nodes::FifoTable;
use kheap_slabs::{Access, Desc, Descriptor, KHeap, Target};
use pipe_ends::{close_end, pipe_fifo};
use usock_core::close_sock;

/// One descriptor more names an open description.
pub fn share_desc(heap: &mut KHeap, desc: u32)
    requires there { InUse heap.old.descs desc }
    requires small { (found : HeldDesc) → object heap.old.descs desc ≡ Some found → found.count < 4294967295 }
    ensures opened { (numbers : Numbers) (list : CountedList) (files : Files) → AreOpen numbers heap.old list files
        → AreOpen numbers heap.new (after_share list (numbers.descs desc)) files }
    ensures owners { (hand : List ℕ) → HasItsOwners heap.old hand → HasItsOwners heap.new (desc ∷ hand) }
    ensures kept { (found : HeldDesc) → object heap.old.descs desc ≡ Some found
        → heap.new ≡ record heap.old { descs = put heap.old.descs desc (counting found (found.count + 1)) } }
    ensures owned { OwnsItsObjects heap.old → OwnsItsObjects heap.new }
    ensures takes { TakesNothing heap.old heap.new }
{
    let found = *heap.get_desc(desc);
    heap.set_desc(
        desc,
        Desc {
            count: found.count + 1,
            ..found
        },
    );
}

/// Each of these descriptors, which are those of a process, is there once more, in a process that is being made.
pub fn share_descs(heap: &mut KHeap, places: &[Option<Descriptor>])
    requires can { CanShare heap.old.descs places.now }
    ensures kept { heap.new ≡ record heap.old { descs = share_all heap.old.descs places.now } }
    ensures opened { (numbers : Numbers) (list : CountedList) (files : Files) → AreOpen numbers heap.old list files
        → AreOpen numbers heap.new (after_shares numbers.descs list places.now) files }
    ensures owners { (hand : List ℕ) → HasItsOwners heap.old hand → HasItsOwners heap.new (hand_with places.now hand) }
    ensures takes { TakesNothing heap.old heap.new }
{
    for place in places {
        if let Some(descriptor) = place {
            share_desc(heap, descriptor.desc);
        }
    }
}

/// One descriptor fewer names an open description. With the last one it goes, and its end of a pipe or its socket is closed
/// (POSIX close). The chain of FIFOs' pipes is left to the caller: `close_desc` does both.
///
/// The answer is the node whose pin the caller then drops, that of a FIFO too; None where the description stays or is open on no
/// node.
pub fn drop_desc(heap: &mut KHeap, desc: u32) -> Option<u32>
    requires owned { OwnsItsObjects heap.old }
    requires there { IsDroppable heap.old desc }
    ensures node { (found : HeldDesc) → object heap.old.descs desc ≡ Some found → result ≡ node_left heap.old.pipes found }
    ensures drops { (found : HeldDesc) → object heap.old.descs desc ≡ Some found → Drops heap.old heap.new desc found }
    ensures links { (found : HeldDesc) → object heap.old.descs desc ≡ Some found → DropsLinks heap.old heap.new found }
    ensures opened { (numbers : Numbers) (list : CountedList) (files : Files) → AreOpen numbers heap.old list files
        → AreOpen numbers heap.new (after_drop list (numbers.descs desc)) (files_dropped files list (numbers.descs desc)) }
    ensures owners { (hand : List ℕ) → HasItsOwners heap.old (desc ∷ hand) → HasItsOwners heap.new hand }
    ensures owned { OwnsItsObjects heap.new }
    ensures kept { heap.new
        ≡ record heap.old { descs = heap.new.descs; pipes = heap.new.pipes; chunks = heap.new.chunks; socks = heap.new.socks } }
    ensures takes { TakesNothing heap.old heap.new }
{
    let found = *heap.get_desc(desc);
    if found.count > 1 {
        name_less(heap, desc, found);
        return None;
    }
    let _gone = heap.free_desc(desc);
    close_target(heap, found.access, found.target)
}

/// The same, where it may be open on a FIFO: a FIFO's pipe that goes with it leaves the chain.
pub fn close_desc(heap: &mut KHeap, fifos: &mut FifoTable, desc: u32) -> Option<u32>
    requires owned { OwnsItsObjects heap.old }
    requires there { IsDroppable heap.old desc }
    requires chain { IsChain heap.old fifos.old }
    ensures node { (found : HeldDesc) → object heap.old.descs desc ≡ Some found → result ≡ node_left heap.old.pipes found }
    ensures drops { (found : HeldDesc) → object heap.old.descs desc ≡ Some found
        → DropsRelinked heap.old heap.new desc found }
    ensures chain { IsChain heap.new fifos.new }
    ensures opened { (numbers : Numbers) (list : CountedList) (files : Files) → AreOpen numbers heap.old list files
        → AreOpen numbers heap.new (after_drop list (numbers.descs desc)) (files_dropped files list (numbers.descs desc)) }
    ensures owners { (hand : List ℕ) → HasItsOwners heap.old (desc ∷ hand) → HasItsOwners heap.new hand }
    ensures owned { OwnsItsObjects heap.new }
    ensures kept { heap.new
        ≡ record heap.old { descs = heap.new.descs; pipes = heap.new.pipes; chunks = heap.new.chunks; socks = heap.new.socks } }
    ensures takes { TakesNothing heap.old heap.new }
{
    leave_chain(heap, fifos, desc);
    drop_desc(heap, desc)
}

// Readies the chain of FIFOs' pipes for a descriptor fewer of a description.
fn leave_chain(heap: &mut KHeap, fifos: &mut FifoTable, desc: u32)
    requires owned { OwnsItsObjects heap.old }
    requires there { IsDroppable heap.old desc }
    requires chain { IsChain heap.old fifos.old }
    ensures relinked { AreRelinked heap.old heap.new }
    ensures chain { (closed : Heap) (found : HeldDesc) → object heap.old.descs desc ≡ Some found
        → DropsLinks heap.new closed found → IsChain closed fifos.new }
    ensures owned { OwnsItsObjects heap.new }
    ensures takes { TakesNothing heap.old heap.new }
{
    let found = *heap.get_desc(desc);
    if found.count != 1 {
        return;
    }
    match found.target {
        Target::Inode(_) => {}
        Target::Pipe(key) => fifos.leave_end(heap, key, may_write(found.access)),
        Target::Sock(_) => {}
    }
}

// One descriptor fewer names a description that another one names too.
fn name_less(heap: &mut KHeap, key: u32, found: Desc)
    requires there { object heap.old.descs key ≡ Some found }
    requires more { 1 < found.count }
    ensures left { heap.new ≡ record heap.old { descs = descs_left heap.old.descs key found } }
    ensures takes { TakesNothing heap.old heap.new }
{
    heap.set_desc(
        key,
        Desc {
            count: found.count - 1,
            ..found
        },
    );
}

// Closes what a description was open on, which is gone: the end of a pipe, or a socket. The node that the caller closes.
fn close_target(heap: &mut KHeap, access: Access, target: Target) -> Option<u32>
    requires owned { OwnsItsObjects heap.old }
    requires there { IsClosable heap.old access target }
    ensures node { result ≡ node_in heap.old.pipes target }
    ensures closes { TargetCloses heap.old heap.new access target }
    ensures links { ClosesLinks heap.old heap.new access target }
    ensures owned { OwnsItsObjects heap.new }
    ensures descs { heap.new.descs ≡ heap.old.descs }
    ensures kept { QueuesChange heap.old heap.new }
    ensures takes { TakesNothing heap.old heap.new }
{
    match target {
        Target::Inode(number) => Some(number),
        Target::Pipe(key) => {
            let fifo = pipe_fifo(heap, key);
            close_end(heap, key, may_write(access));
            fifo
        }
        Target::Sock(key) => {
            close_sock(heap, key);
            None
        }
    }
}

// Whether what is opened so may be written.
pub(crate) fn may_write(access: Access) -> bool
    ensures { result ≡ plain_may_write (access_in access) }
{
    match access {
        Access::Read => false,
        Access::Write | Access::Both => true,
    }
}
