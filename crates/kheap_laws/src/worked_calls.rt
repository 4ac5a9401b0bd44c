//! Worked calls, as a crate above makes them, proved from the public contracts and the laws alone.

ghost use Rattle.std.specs.Prelude.{◌≡◌, ℕ, ◌<◌, ◌+◌, List, [], ◌∷◌, Option, None, Some, IsSomeAnd, slice_index_or, slice_set};
ghost use Rattle.std.specs.List.{Contains};
ghost use Rattle.kabi_types.specs.declared.classes.Class.TheVariants as class;
ghost use Rattle.kabi_types.specs.Counts.{counted};
ghost use Rattle.kheap_slabs.specs.Objects.{object, InUse};
ghost use Rattle.kheap_slabs.specs.declared.objects.Node.{Node as NodeOf};
ghost use Rattle.kheap_slabs.specs.declared.objects.PageEntry.TheVariants as entry;
ghost use Rattle.kheap_slabs.specs.Owners.{Owners, with_space, IsOwned, OwnsItsObjects};
ghost use Rattle.kheap_slabs.specs.Paid.{CanPay, IsPaid, TakesNothing};
ghost use Rattle.kheap_slabs.specs.Queues.{empty_queue};
ghost use Rattle.kheap_laws.specs.Worked.{three_pages};
ghost use Rattle.kheap_slabs.specs.Spaces.{keys_in, count_at, names_page, KeepsBytes};

use kabi_types::Class;
use kheap_slabs::{KHeap, Node, PageEntry, Pipe, Purse, QueueParts};

// A pipe without bytes.
fn pipe_of(readers: u32) -> Pipe
    ensures queue { result.queue ≡ empty_queue }
    ensures readers { result.readers ≡ readers }
    ensures writers { result.writers ≡ 1 }
{
    let queue = QueueParts {
        first: None,
        last: None,
        place: 0,
        len: 0,
    };
    Pipe {
        queue,
        readers,
        writers: 1,
        node: 0,
        read_opens: 0,
        write_opens: 0,
        next: None,
    }
}

/// An entry that has no frame yet names a page that others name too.
pub fn share(heap: &mut KHeap, key: u32, at: usize, page: u32)
    requires owned { (owners : Owners) × IsOwned heap.old owners }
    requires within { at < 64 }
    requires zero { IsSomeAnd (object heap.old.nodes key)
        (λ node. slice_index_or node.entries at entry.Zero ≡ entry.Zero) }
    requires used { InUse heap.old.pages page }
    ensures node { (node : NodeOf) → object heap.old.nodes key ≡ Some node
        → object heap.new.nodes key
        ≡ Some (record node { entries = slice_set node.entries at (entry.Frame page) }) }
    ensures pages { (other : ℕ) → InUse heap.old.pages other → InUse heap.new.pages other }
    ensures bytes { KeepsBytes [] heap.old.pages heap.new.pages }
    ensures counts { (other : ℕ) → count_at heap.new.pages other
        ≡ count_at heap.old.pages other + names_page other (entry.Frame page) }
    ensures takes { TakesNothing heap.old heap.new }
    ensures owners { (owners : Owners) (space : List (Option ℕ)) → Contains (keys_in space) key
        → IsOwned heap.old (with_space space owners) → IsOwned heap.new (with_space space owners) }
{
    let limit = heap.heap();
    prove!(limit <= 8388608);
    let mut node = *heap.get_node(key);
    node.entries[at] = PageEntry::Frame(page);
    let count = heap.get_page(page).count;
    heap.set_node(key, node);
    heap.set_page_count(page, count + 1);
}

/// A new node with three pages that have no frame yet, in a space of its own.
pub fn begin(heap: &mut KHeap, purse: &mut Purse) -> u32
    requires pays { CanPay heap.old purse.old }
    requires some { 0 < counted purse.old.left class.Node }
    ensures paid { IsPaid heap.old purse.old heap.new purse.new }
    ensures vacant { object heap.old.nodes result ≡ None }
    ensures node { object heap.new.nodes result
        ≡ Some (record { entries = three_pages entry.Zero entry.Zero }) }
    ensures pages { heap.new.pages ≡ heap.old.pages }
    ensures owners { (owners : Owners) → IsOwned heap.old owners
        → IsOwned heap.new (with_space (Some result ∷ []) owners) }
{
    let mut node = Node {
        entries: [PageEntry::Unmapped; 64],
    };
    node.entries[0] = PageEntry::Zero;
    node.entries[1] = PageEntry::Zero;
    node.entries[2] = PageEntry::Zero;
    let key = heap.insert_node(node);
    purse.spend(Class::Node);
    key
}

/// The copy of a space of three entries: one without a frame, and two that name pages of another space.
pub fn fork(heap: &mut KHeap, purse: &mut Purse, one: u32, other: u32) -> u32
    requires owned { (owners : Owners) × IsOwned heap.old owners }
    requires pays { CanPay heap.old purse.old }
    requires some { 0 < counted purse.old.left class.Node }
    requires one_used { InUse heap.old.pages one }
    requires other_used { InUse heap.old.pages other }
    ensures paid { IsPaid heap.old purse.old heap.new purse.new }
    ensures vacant { object heap.old.nodes result ≡ None }
    ensures node { object heap.new.nodes result
        ≡ Some (record { entries = three_pages (entry.Frame one) (entry.Frame other) }) }
    ensures bytes { KeepsBytes [] heap.old.pages heap.new.pages }
    ensures counts { (page : ℕ) → count_at heap.new.pages page
        ≡ count_at heap.old.pages page + names_page page (entry.Frame one) + names_page page (entry.Frame other) }
    ensures owners { (owners : Owners) → IsOwned heap.old owners
        → IsOwned heap.new (with_space (Some result ∷ []) owners) }
{
    let key = begin(heap, purse);
    share(heap, key, 1, one);
    share(heap, key, 2, other);
    key
}

/// A pipe without bytes, among the owners of the heap.
pub fn new_pipe(heap: &mut KHeap, purse: &mut Purse) -> u32
    requires pays { CanPay heap.old purse.old }
    requires some { 0 < counted purse.old.left class.Pipe }
    ensures paid { IsPaid heap.old purse.old heap.new purse.new }
    ensures vacant { object heap.old.pipes result ≡ None }
    ensures pipe { IsSomeAnd (object heap.new.pipes result)
        (λ pipe. (pipe.queue ≡ empty_queue) × (pipe.readers ≡ 1) × (pipe.writers ≡ 1)) }
    ensures owned { OwnsItsObjects heap.old → OwnsItsObjects heap.new }
{
    let key = heap.insert_pipe(pipe_of(1));
    purse.spend(Class::Pipe);
    key
}
