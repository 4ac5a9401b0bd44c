ghost use Rattle.std.specs.Prelude.{◌≡◌, ◌<◌, ℕ, IfSome, IsSome, None, Option, Some, is_none};
ghost use Rattle.kabi_types.specs.Counts.{with_count};
ghost use Rattle.kabi_types.specs.declared.classes.Class.TheVariants as class;
ghost use Rattle.kheap_slabs.specs.Heap.{Heap};
ghost use Rattle.kheap_slabs.specs.Objects.{object};
ghost use Rattle.kheap_slabs.specs.Owners.{OwnsItsObjects};
ghost use Rattle.kheap_slabs.specs.Paid.{CanPay, IsPaid, TakesNothing};
ghost use Rattle.posix_defs.specs.Pipe.{Pipe as PlainPipe, ends_of as plain_ends, opens_of as plain_opens};
ghost use Rattle.pipe_ends.specs.Links.{AreRelinked, ClosesLink, Link, link_at};
ghost use Rattle.pipe_ends.specs.Standing.{HasEndAt, IsPipeAt, StandsFor};
ghost use Rattle.fifo_nodes.specs.Chain.{ClosesEndOf, HasEndOf, HasNoPipe, IsChain, IsFifoAt, OpensEnd, TellsOf};
ghost use Rattle.fifo_nodes.specs.Held.{CanOpen, HasRoom, OpensAt, has_last_end, held_ends, held_opens, held_unopened, held_with_end};
ghost use Rattle.fifo_nodes.specs.Walking.{IsChainBut, StandsBehind};

use kabi_types::Class;
use kheap_slabs::{KHeap, Pipe, Purse, QueueParts};
use pipe_ends::close_end;
use std::marker::Model;

/// Which FIFOs have a pipe: the key of the first of the chain.
#[derive(Drop)]
pub struct FifoTable {
    first: Option<u32>,
}

impl Model for FifoTable {
    ghost use Rattle.std.specs.Prelude.{ℕ, Option};

    ghost Value = { Option ℕ };

    ghost view = { λ table. table.first };
}

impl FifoTable {
    /// No FIFO has one.
    pub fn new() -> FifoTable
        ensures { result ≡ None }
    {
        FifoTable { first: None }
    }

    /// Whether no FIFO has one.
    pub fn is_empty(&self) -> bool
        ensures { result ≡ is_none self.now }
    {
        self.first.is_none()
    }

    /// One side of a FIFO is opened once more, and has one end more. The purse pays for the pipe, where it has none. The pipe's key.
    pub fn open_end(&mut self, heap: &mut KHeap, purse: &mut Purse, node: u32, writing: bool) -> u32
        requires owned { OwnsItsObjects heap.old }
        requires chain { IsChain heap.old self.old }
        requires node { 0 < node }
        requires stand { (key : ℕ) → IsFifoAt heap.old node key → IsPipeAt heap.old key }
        requires few { (key : ℕ) (pipe : PlainPipe) (at : ℕ) → IsFifoAt heap.old node key → StandsFor heap.old key pipe at
            → plain_opens pipe writing < 4294967295 }
        requires pays { CanPay heap.old purse.old }
        requires left { HasNoPipe heap.old node → 0 < purse.old.left.pipe }
        ensures opens { OpensEnd heap.old heap.new node writing result }
        ensures chain { IsChain heap.new self.new }
        ensures owned { OwnsItsObjects heap.new }
        ensures paid { IsPaid heap.old purse.old heap.new purse.new }
        ensures pays { CanPay heap.new purse.new }
        ensures spent { purse.new ≡ record purse.old { left = with_count purse.old.left class.Pipe purse.new.left.pipe } }
    {
        match self.key_of(heap, node) {
            Some(key) => {
                add_end(heap, key, writing);
                key
            }
            None => self.make(heap, purse, node, writing),
        }
    }

    /// How often one side of a FIFO was opened while it had its pipe; 0 where it has none.
    pub fn begun(&self, heap: &KHeap, node: u32, writing: bool) -> u32
        requires { IsChain heap.now self.now }
        ensures { TellsOf heap.now node (λ pipe. plain_opens pipe writing) result }
    {
        match self.key_of(heap, node) {
            Some(key) => opens_of(heap.get_pipe(key), writing),
            None => 0,
        }
    }

    /// How many ends of one side a FIFO has.
    pub fn ends(&self, heap: &KHeap, node: u32, writing: bool) -> u32
        requires { IsChain heap.now self.now }
        ensures { TellsOf heap.now node (λ pipe. plain_ends pipe writing) result }
    {
        match self.key_of(heap, node) {
            Some(key) => ends_of(heap.get_pipe(key), writing),
            None => 0,
        }
    }

    /// Closes one end of a FIFO: a description that had it is gone. With its last end the pipe goes, and its unread bytes go with the
    /// last that could read them.
    pub fn close_end(&mut self, heap: &mut KHeap, node: u32, writing: bool)
        requires owned { OwnsItsObjects heap.old }
        requires chain { IsChain heap.old self.old }
        requires end { HasEndOf heap.old node writing }
        ensures closes { (key : ℕ) → IsFifoAt heap.old node key → ClosesEndOf heap.old heap.new key writing }
        ensures chain { IsChain heap.new self.new }
        ensures owned { OwnsItsObjects heap.new }
        ensures takes { TakesNothing heap.old heap.new }
    {
        let Some(key) = self.key_of(heap, node) else {
            unreachable!();
        };
        self.leave_end(heap, key, writing);
        close_end(heap, key, writing);
    }

    /// Readies the chain for the close of one end of a pipe, of whoever made it: a FIFO's pipe whose last end that is stands in the
    /// chain no more. What else is in the heap is as before.
    pub fn leave_end(&mut self, heap: &mut KHeap, key: u32, writing: bool)
        requires owned { OwnsItsObjects heap.old }
        requires chain { IsChain heap.old self.old }
        requires end { HasEndAt heap.old key writing }
        ensures relinked { AreRelinked heap.old heap.new }
        ensures chain { (closed : Heap) → ClosesLink heap.new closed key writing → IsChain closed self.new }
        ensures owned { OwnsItsObjects heap.new }
        ensures takes { TakesNothing heap.old heap.new }
    {
        let pipe = *heap.get_pipe(key);
        if is_last(&pipe, writing) {
            self.unchain(heap, key, pipe.next);
        }
    }

    // The key of the pipe of a FIFO, if it has one.
    fn key_of(&self, heap: &KHeap, node: u32) -> Option<u32>
        requires { IsChain heap.now self.now }
        ensures some { IfSome result (λ key. IsFifoAt heap.now node key) }
        ensures none { result ≡ None → HasNoPipe heap.now node }
    {
        let mut at = self.first;
        'chain: while let Some(key) = at {
            let pipe = heap.get_pipe(key);
            if pipe.node == node {
                return Some(key);
            }
            at = pipe.next;
        }
        None
    }

    // A FIFO that had no pipe has one with an end of this side.
    fn make(&mut self, heap: &mut KHeap, purse: &mut Purse, node: u32, writing: bool) -> u32
        requires owned { OwnsItsObjects heap.old }
        requires chain { IsChain heap.old self.old }
        requires node { 0 < node }
        requires none { HasNoPipe heap.old node }
        requires pays { CanPay heap.old purse.old }
        requires left { 0 < purse.old.left.pipe }
        ensures opens { OpensEnd heap.old heap.new node writing result }
        ensures chain { IsChain heap.new self.new }
        ensures owned { OwnsItsObjects heap.new }
        ensures paid { IsPaid heap.old purse.old heap.new purse.new }
        ensures pays { CanPay heap.new purse.new }
        ensures spent { purse.new ≡ record purse.old { left = with_count purse.old.left class.Pipe purse.new.left.pipe } }
    {
        purse.spend(Class::Pipe);
        let key = heap.insert_pipe(with_end(unopened(node, self.first), writing));
        self.first = Some(key);
        key
    }

    // A pipe is the chain's no more, before which that one stood that stands behind it then.
    fn unchain(&mut self, heap: &mut KHeap, key: u32, next: Option<u32>)
        requires owned { OwnsItsObjects heap.old }
        requires chain { IsChain heap.old self.old }
        requires there { (link : Link) × (link_at heap.old key ≡ Some link) × (link.next ≡ next) }
        ensures relinked { AreRelinked heap.old heap.new }
        ensures link { link_at heap.new key ≡ link_at heap.old key }
        ensures chain { IsChainBut heap.new self.new key }
        ensures takes { TakesNothing heap.old heap.new }
    {
        match self.before(heap, key) {
            Some(before) => {
                let pipe = *heap.get_pipe(before);
                heap.set_pipe(before, Pipe { next, ..pipe });
            }
            None => self.first = next,
        }
    }

    // The pipe of the chain behind which this one stands; None of the first.
    fn before(&self, heap: &KHeap, key: u32) -> Option<u32>
        requires chain { IsChain heap.now self.now }
        requires there { IsSome (link_at heap.now key) }
        ensures { StandsBehind heap.now self.now key result }
    {
        let mut before = None;
        let mut at = self.first;
        'chain: while let Some(here) = at {
            if here == key {
                return before;
            }
            before = at;
            at = heap.get_pipe(here).next;
        }
        None
    }
}

// A FIFO's pipe has one end more of a side that was opened once more.
fn add_end(heap: &mut KHeap, key: u32, writing: bool)
    requires owned { OwnsItsObjects heap.old }
    requires there { IsPipeAt heap.old key }
    requires few { (pipe : PlainPipe) (at : ℕ) → StandsFor heap.old key pipe at → CanOpen pipe writing }
    ensures opens { OpensAt heap.old heap.new key writing }
    ensures owned { OwnsItsObjects heap.new }
    ensures takes { TakesNothing heap.old heap.new }
{
    let pipe = *heap.get_pipe(key);
    heap.set_pipe(key, with_end(pipe, writing));
}

// The pipe of a FIFO that nobody has open, before this one in the chain.
fn unopened(node: u32, next: Option<u32>) -> Pipe
    ensures { result ≡ held_unopened node next }
{
    Pipe {
        queue: QueueParts {
            first: None,
            last: None,
            place: 0,
            len: 0,
        },
        readers: 0,
        writers: 0,
        node,
        read_opens: 0,
        write_opens: 0,
        next,
    }
}

// One side was opened once more.
fn with_end(pipe: Pipe, writing: bool) -> Pipe
    requires { HasRoom pipe writing }
    ensures { result ≡ held_with_end pipe writing }
{
    if writing {
        Pipe {
            writers: pipe.writers + 1,
            write_opens: pipe.write_opens + 1,
            ..pipe
        }
    } else {
        Pipe {
            readers: pipe.readers + 1,
            read_opens: pipe.read_opens + 1,
            ..pipe
        }
    }
}

// How many descriptions have an end of one side.
fn ends_of(pipe: &Pipe, writing: bool) -> u32
    ensures { result ≡ held_ends pipe.now writing }
{
    if writing { pipe.writers } else { pipe.readers }
}

// Whether it is a FIFO's pipe with one end of this side alone.
fn is_last(pipe: &Pipe, writing: bool) -> bool
    ensures { result ≡ has_last_end pipe.now writing }
{
    pipe.node != 0 && ends_of(pipe, writing) == 1 && ends_of(pipe, !writing) == 0
}

// How often that side was opened.
fn opens_of(pipe: &Pipe, writing: bool) -> u32
    ensures { result ≡ held_opens pipe.now writing }
{
    if writing {
        pipe.write_opens
    } else {
        pipe.read_opens
    }
}
