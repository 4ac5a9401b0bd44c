//! What every heap keeps of the rows in its objects.

ghost use Rattle.kheap_slabs.specs.Heap.{IsWellFormed};

use kheap_slabs::KHeap;

/// The heap is well formed: rows in its objects are as long as their types say, and no page is named more often than it can
/// count.
pub(crate) fn heap_is_well_formed(heap: &KHeap)
    ensures { IsWellFormed heap.now }
{
    let _ = heap.heap();
}
