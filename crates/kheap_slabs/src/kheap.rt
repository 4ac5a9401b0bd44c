ghost use Rattle.std.specs.Prelude.{◌≡◌, ◌+◌, ◌/◌, ◌%◌, ◌^◌, ◌≤◌, IfOk, None, replicate};
ghost use Rattle.kabi_types.specs.Class.{size};
ghost use Rattle.kabi_types.specs.declared.classes.Class.TheVariants as class;
ghost use Rattle.kheap_slabs.specs.Heap.{live_bytes, empty_heap, IsWellFormed};

mod files;
mod locks;
mod memory;
mod queues;

use crate::meter::Meter;
use crate::shelf::Shelf;
use crate::{Block, Chunk, Desc, Leaf, Lock, Name, Node, Page, Pipe, Proc, Sock, Vnode};
use kabi_types::{Class, Memory};
use std::alloc::Global;
use std::marker::Model;

/// The kernel's heap. It gives each object a key below the heap's bytes divided by the size of the
/// object's class.
///
/// All memory of the host is taken at boot. An object is lent by `get` and replaced by `set`, and
/// neither touches another.
#[derive(Drop)]
pub struct KHeap {
    memory: MemoryShelves,
    files: FileShelves,
    queues: QueueShelves,
    locks: Shelf<Lock>,
    meter: Meter,
}

impl Model for KHeap {
    ghost use Rattle.kheap_slabs.specs.Heap.{Heap};

    ghost Value = { Heap };

    ghost use Rattle.kheap_slabs.specs.Metered.{IsMetered, heap_of};

    ghost view = { heap_of };

    ghost invariant = { λ k. IsMetered (heap_of k) k.meter.live };
}

// An empty shelf for as many objects of this size as would fill the heap.
fn shelf_of<T: Drop>(alloc: Global, heap: u64, bytes: u64) -> Result<Shelf<T>, Memory>
    requires most { heap ≤ 8388608 }
    requires least { 1 ≤ bytes }
    ensures { IfOk result (λ shelf. shelf ≡ replicate (heap / bytes) None) }
{
    Ok(Shelf::boot(alloc, (heap / bytes) as u32)?)
}

// The shelves for processes, their memory and their further descriptors.
#[derive(Drop)]
struct MemoryShelves {
    procs: Shelf<Proc>,
    nodes: Shelf<Node>,
    pages: Shelf<Page>,
    leaves: Shelf<Leaf>,
}

impl MemoryShelves {
    fn boot(alloc: Global, heap: u64) -> Result<MemoryShelves, Memory>
        requires { heap ≤ 8388608 }
        ensures procs { IfOk result (λ made. made.procs ≡ replicate (heap / size class.Proc) None) }
        ensures nodes { IfOk result (λ made. made.nodes ≡ replicate (heap / size class.Node) None) }
        ensures pages { IfOk result (λ made. made.pages ≡ replicate (heap / size class.Page) None) }
        ensures leaves { IfOk result (λ made. made.leaves
            ≡ replicate (heap / size class.Leaf) None) }
    {
        Ok(MemoryShelves {
            procs: shelf_of(alloc, heap, Class::Proc.bytes())?,
            nodes: shelf_of(alloc, heap, Class::Node.bytes())?,
            pages: shelf_of(alloc, heap, Class::Page.bytes())?,
            leaves: shelf_of(alloc, heap, Class::Leaf.bytes())?,
        })
    }
}

// The shelves for descriptions and the caches.
#[derive(Drop)]
struct FileShelves {
    descs: Shelf<Desc>,
    vnodes: Shelf<Vnode>,
    names: Shelf<Name>,
    blocks: Shelf<Block>,
}

impl FileShelves {
    fn boot(alloc: Global, heap: u64) -> Result<FileShelves, Memory>
        requires { heap ≤ 8388608 }
        ensures descs { IfOk result (λ made. made.descs ≡ replicate (heap / size class.Desc) None) }
        ensures vnodes { IfOk result (λ made. made.vnodes
            ≡ replicate (heap / size class.Vnode) None) }
        ensures names { IfOk result (λ made. made.names ≡ replicate (heap / size class.Name) None) }
        ensures blocks { IfOk result (λ made. made.blocks
            ≡ replicate (heap / size class.Block) None) }
    {
        // The shelf of names is made last: its drop would be the longest at the ways out.
        Ok(FileShelves {
            descs: shelf_of(alloc, heap, Class::Desc.bytes())?,
            vnodes: shelf_of(alloc, heap, Class::Vnode.bytes())?,
            blocks: shelf_of(alloc, heap, Class::Block.bytes())?,
            names: shelf_of(alloc, heap, Class::Name.bytes())?,
        })
    }
}

// The shelves for pipes, sockets and their bytes.
#[derive(Drop)]
struct QueueShelves {
    pipes: Shelf<Pipe>,
    chunks: Shelf<Chunk>,
    socks: Shelf<Sock>,
}

impl QueueShelves {
    fn boot(alloc: Global, heap: u64) -> Result<QueueShelves, Memory>
        requires { heap ≤ 8388608 }
        ensures pipes { IfOk result (λ made. made.pipes ≡ replicate (heap / size class.Pipe) None) }
        ensures chunks { IfOk result (λ made. made.chunks
            ≡ replicate (heap / size class.Chunk) None) }
        ensures socks { IfOk result (λ made. made.socks ≡ replicate (heap / size class.Sock) None) }
    {
        Ok(QueueShelves {
            pipes: shelf_of(alloc, heap, Class::Pipe.bytes())?,
            chunks: shelf_of(alloc, heap, Class::Chunk.bytes())?,
            socks: shelf_of(alloc, heap, Class::Sock.bytes())?,
        })
    }
}

impl KHeap {
    /// A heap of so many bytes without objects. The bytes are within 8192 and 8388608.
    pub fn boot(alloc: Global, heap: u64) -> Result<KHeap, Memory>
        requires least { 8192 ≤ heap }
        requires most { heap ≤ 8388608 }
        ensures empty { IfOk result (λ made. made ≡ empty_heap heap) }
        ensures live { IfOk result (λ made. live_bytes made ≡ 0) }
    {
        let locks = shelf_of(alloc, heap, Class::Lock.bytes())?;
        let memory = MemoryShelves::boot(alloc, heap)?;
        let queues = QueueShelves::boot(alloc, heap)?;
        let files = FileShelves::boot(alloc, heap)?;
        Ok(KHeap {
            memory,
            files,
            queues,
            locks,
            meter: Meter {
                heap,
                live: 0,
                high: 0,
                marks: 0,
                last_high: 0,
            },
        })
    }

    /// How many bytes all objects take.
    pub fn live(&self) -> u64
        ensures value { result ≡ live_bytes self.now }
        ensures below_high { result ≤ self.now.high }
        ensures high_within { self.now.high ≤ self.now.heap }
    {
        self.meter.live
    }

    /// How many bytes the heap has.
    pub fn heap(&self) -> u64
        ensures value { result ≡ self.now.heap }
        ensures limit { result ≤ 8388608 }
        ensures well_formed { IsWellFormed self.now }
    {
        self.meter.heap
    }

    /// The most bytes that were taken at a moment since the last mark, or since boot.
    pub fn high(&self) -> u64
        ensures value { result ≡ self.now.high }
        ensures above_live { live_bytes self.now ≤ result }
        ensures within { result ≤ self.now.heap }
    {
        self.meter.high
    }

    /// Lets `high` begin again, at the bytes that are taken now, and keeps what it was. Marks are
    /// counted, so a call that makes none can say so.
    pub fn mark(&mut self)
        ensures { self.new
            ≡ record self.old {
              high = live_bytes self.old;
              marks = (self.old.marks + 1) % 2 ^ 64;
              last_high = self.old.high;
            } }
    {
        self.meter.last_high = self.meter.high;
        self.meter.high = self.meter.live;
        self.meter.marks = self.meter.marks.wrapping_add(1);
    }
}
