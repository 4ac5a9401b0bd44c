//! `Queue` and its calls. A clause sees a queue as its parts.
ghost use Rattle.std.specs.Prelude.{◌≡◌, ◌↔◌, IsTrue, ℕ, ◌+◌, ◌-◌, ◌/◌, ◌%◌, ◌<◌, ◌≤◌, ◌++◌, List, None, Some, [], length, take, drop, min};
ghost use Rattle.kabi_types.specs.declared.classes.Class.TheVariants as class;
ghost use Rattle.kabi_types.specs.Counts.{counted, with_count};
ghost use Rattle.kheap_slabs.specs.Objects.{object, InUse, put};
ghost use Rattle.kheap_slabs.specs.declared.objects.Chunk.{Chunk as ChunkOf};
ghost use Rattle.kheap_slabs.specs.Paid.{CanPay, IsPaid, TakesNothing};
ghost use Rattle.posix_defs.specs.QueuePlace.{chunks_of, after_put, after_take};
ghost use Rattle.chunk_queue.specs.Chained.{place_of, IsQueueIn, Turns, OnlyChunks, PaysChunks, TakesOut};

use kabi_types::Class;
use kheap_slabs::{Chunk, KHeap, Purse, QueueParts};
use std::marker::Model;

/// How many bytes a chunk has.
const CHUNK: u32 = 512;

/// The parts of a queue without bytes.
const EMPTY: QueueParts = QueueParts {
    first: None,
    last: None,
    place: 0,
    len: 0,
};

/// A queue of bytes whose chunks are in a heap.
#[derive(Clone, Copy)]
pub struct Queue {
    parts: QueueParts,
}

impl Model for Queue {
    ghost use Rattle.kheap_slabs.specs.declared.objects.QueueParts.{QueueParts as Parts};

    ghost Value = { Parts };

    ghost view = { λ q. q.parts };

    ghost inverse = { λ p. record { parts = p } };
}

impl Queue {
    /// The queue of these parts, as its owner in the heap keeps them.
    pub fn of(parts: QueueParts) -> Queue
        ensures { result ≡ parts }
    {
        Queue { parts }
    }

    /// Its parts, for its owner in the heap.
    pub fn parts(&self) -> QueueParts
        ensures { result ≡ self.now }
    {
        self.parts
    }

    /// How many bytes are unread.
    pub fn len(&self) -> u32
        ensures { result ≡ self.now.len }
    {
        self.parts.len
    }

    /// Whether no byte is unread.
    pub fn is_empty(&self) -> bool
        ensures { IsTrue result ↔ (self.now.len ≡ 0) }
    {
        self.parts.len == 0
    }

    /// Puts bytes behind the others; 4096 fit.
    pub fn put(&mut self, heap: &mut KHeap, purse: &mut Purse, bytes: &[u8])
        requires owned { IsQueueIn heap.old self.old }
        requires room { self.old.len + length bytes.now ≤ 4096 }
        requires pays { CanPay heap.old purse.old }
        requires enough { (length bytes.now + 511) / 512 ≤ counted purse.old.left class.Chunk }
        ensures place { place_of self.new ≡ after_put (place_of self.old) (length bytes.now) }
        ensures len { self.new.len ≡ self.old.len + length bytes.now }
        ensures bytes { Turns heap.old heap.new self.old self.new (λ old. old ++ bytes.now) }
        ensures owned { IsQueueIn heap.new self.new }
        ensures others { OnlyChunks heap.old heap.new }
        ensures paid { IsPaid heap.old purse.old heap.new purse.new }
        ensures purse { PaysChunks purse.old purse.new }
        ensures pays { CanPay heap.new purse.new }
        ensures spent { counted purse.new.left class.Chunk + chunks_of (place_of self.new)
            ≡ counted purse.old.left class.Chunk + chunks_of (place_of self.old) }
    {
        let mut done = self.fill(heap, bytes);
        'pieces: while done < bytes.len() {
            let next = bytes.len().min(done + CHUNK as usize);
            self.add_chunk(heap, purse, &bytes[done..next]);
            done = next;
        }
    }

    // Puts as many bytes as the last chunk has room for. How many they are.
    fn fill(&mut self, heap: &mut KHeap, bytes: &[u8]) -> usize
        requires owned { IsQueueIn heap.old self.old }
        requires room { self.old.len + length bytes.now ≤ 4096 }
        ensures count { result ≤ length bytes.now }
        ensures full { result < length bytes.now → (self.new.place + self.new.len) % 512 ≡ 0 }
        ensures chunks { chunks_of (place_of self.new) ≡ chunks_of (place_of self.old) }
        ensures place { place_of self.new ≡ after_put (place_of self.old) result }
        ensures bytes { Turns heap.old heap.new self.old self.new (λ old. old ++ take result bytes.now) }
        ensures others { OnlyChunks heap.old heap.new }
        ensures takes { TakesNothing heap.old heap.new }
    {
        let behind = (self.parts.place + self.parts.len) % CHUNK;
        match self.parts.last {
            Some(last) if behind > 0 => {
                let count = bytes.len().min((CHUNK - behind) as usize);
                self.fill_last(heap, last, &bytes[..count]);
                count
            }
            _ => 0,
        }
    }

    // Puts bytes into the last chunk, which has room for them.
    fn fill_last(&mut self, heap: &mut KHeap, last: u32, bytes: &[u8])
        requires owned { IsQueueIn heap.old self.old }
        requires last { self.old.last ≡ Some last }
        requires begun { 0 < (self.old.place + self.old.len) % 512 }
        requires within { (self.old.place + self.old.len) % 512 + length bytes.now ≤ 512 }
        requires room { self.old.len + length bytes.now ≤ 4096 }
        ensures place { place_of self.new ≡ after_put (place_of self.old) (length bytes.now) }
        ensures bytes { Turns heap.old heap.new self.old self.new (λ old. old ++ bytes.now) }
        ensures others { OnlyChunks heap.old heap.new }
        ensures takes { TakesNothing heap.old heap.new }
    {
        let limit = heap.heap();
        prove!(limit <= 8388608);
        let at = ((self.parts.place + self.parts.len) % CHUNK) as usize;
        let mut chunk = *heap.get_chunk(last);
        chunk.bytes[at..at + bytes.len()].copy_from_slice(bytes);
        heap.set_chunk(last, chunk);
        self.parts.len += bytes.len() as u32;
    }

    // Puts bytes into the first chunk of a queue that has none.
    fn begin(&mut self, heap: &mut KHeap, purse: &mut Purse, bytes: &[u8])
        requires owned { IsQueueIn heap.old self.old }
        requires last { self.old.last ≡ None }
        requires some { 0 < length bytes.now }
        requires within { length bytes.now ≤ 512 }
        requires room { self.old.len + length bytes.now ≤ 4096 }
        requires pays { CanPay heap.old purse.old }
        requires left { 0 < counted purse.old.left class.Chunk }
        ensures place { place_of self.new ≡ after_put (place_of self.old) (length bytes.now) }
        ensures bytes { Turns heap.old heap.new self.old self.new (λ old. old ++ bytes.now) }
        ensures others { OnlyChunks heap.old heap.new }
        ensures paid { IsPaid heap.old purse.old heap.new purse.new }
        ensures purse { PaysChunks purse.old purse.new }
        ensures spent { counted purse.new.left class.Chunk + 1 ≡ counted purse.old.left class.Chunk }
    {
        let key = heap.insert_chunk(chunk_of(bytes));
        purse.spend(Class::Chunk);
        self.parts.first = Some(key);
        self.parts.last = Some(key);
        self.parts.len += bytes.len() as u32;
    }

    // Puts bytes into a new chunk behind the last one, which is full.
    fn grow(&mut self, heap: &mut KHeap, purse: &mut Purse, last: u32, bytes: &[u8])
        requires owned { IsQueueIn heap.old self.old }
        requires last { self.old.last ≡ Some last }
        requires full { (self.old.place + self.old.len) % 512 ≡ 0 }
        requires some { 0 < length bytes.now }
        requires within { length bytes.now ≤ 512 }
        requires room { self.old.len + length bytes.now ≤ 4096 }
        requires pays { CanPay heap.old purse.old }
        requires left { 0 < counted purse.old.left class.Chunk }
        ensures place { place_of self.new ≡ after_put (place_of self.old) (length bytes.now) }
        ensures bytes { Turns heap.old heap.new self.old self.new (λ old. old ++ bytes.now) }
        ensures others { OnlyChunks heap.old heap.new }
        ensures paid { IsPaid heap.old purse.old heap.new purse.new }
        ensures purse { PaysChunks purse.old purse.new }
        ensures spent { counted purse.new.left class.Chunk + 1 ≡ counted purse.old.left class.Chunk }
    {
        let limit = heap.heap();
        prove!(limit <= 8388608);
        let key = heap.insert_chunk(chunk_of(bytes));
        purse.spend(Class::Chunk);
        link(heap, last, key);
        self.parts.last = Some(key);
        self.parts.len += bytes.len() as u32;
    }

    // Puts bytes into a new chunk, behind chunks that are full.
    fn add_chunk(&mut self, heap: &mut KHeap, purse: &mut Purse, bytes: &[u8])
        requires owned { IsQueueIn heap.old self.old }
        requires full { (self.old.place + self.old.len) % 512 ≡ 0 }
        requires some { 0 < length bytes.now }
        requires within { length bytes.now ≤ 512 }
        requires room { self.old.len + length bytes.now ≤ 4096 }
        requires pays { CanPay heap.old purse.old }
        requires left { 0 < counted purse.old.left class.Chunk }
        ensures place { place_of self.new ≡ after_put (place_of self.old) (length bytes.now) }
        ensures bytes { Turns heap.old heap.new self.old self.new (λ old. old ++ bytes.now) }
        ensures others { OnlyChunks heap.old heap.new }
        ensures paid { IsPaid heap.old purse.old heap.new purse.new }
        ensures purse { PaysChunks purse.old purse.new }
        ensures spent { counted purse.new.left class.Chunk + 1 ≡ counted purse.old.left class.Chunk }
    {
        match self.parts.last {
            Some(last) => self.grow(heap, purse, last, bytes),
            None => self.begin(heap, purse, bytes),
        }
    }

    /// Takes bytes from the front, as many as are there and fit. How many they are.
    pub fn take(&mut self, heap: &mut KHeap, out: &mut [u8]) -> u32
        requires { IsQueueIn heap.old self.old }
        ensures count { result ≡ min (length out.old) self.old.len }
        ensures out { TakesOut heap.old self.old out.old out.new 0 result }
        ensures place { place_of self.new ≡ after_take (place_of self.old) result }
        ensures len { result + self.new.len ≡ self.old.len }
        ensures bytes { Turns heap.old heap.new self.old self.new (drop result) }
        ensures owned { IsQueueIn heap.new self.new }
        ensures others { OnlyChunks heap.old heap.new }
        ensures takes { TakesNothing heap.old heap.new }
    {
        let wanted = out.len().min(self.parts.len as usize);
        let mut done = 0;
        'pieces: while done < wanted {
            done = self.take_front(heap, out, done, wanted);
        }
        wanted as u32
    }

    // Takes bytes from the first chunk, behind those that were taken already. How many there are then.
    fn take_front(&mut self, heap: &mut KHeap, out: &mut [u8], done: usize, wanted: usize) -> usize
        requires owned { IsQueueIn heap.old self.old }
        requires more { done < wanted }
        requires there { wanted ≤ done + self.old.len }
        requires within { wanted ≤ length out.old }
        ensures more { done < result }
        ensures within { result ≤ wanted }
        ensures place { place_of self.new ≡ after_take (place_of self.old) (result - done) }
        ensures bytes { Turns heap.old heap.new self.old self.new (drop (result - done)) }
        ensures out { TakesOut heap.old self.old out.old out.new done result }
        ensures others { OnlyChunks heap.old heap.new }
        ensures takes { TakesNothing heap.old heap.new }
    {
        let Some(first) = self.parts.first else {
            unreachable!()
        };
        let place = self.parts.place;
        prove!(place < 512);
        let from = place as usize;
        let count = (wanted - done).min(CHUNK as usize - from);
        let chunk = heap.get_chunk(first);
        out[done..done + count].copy_from_slice(&chunk.bytes[from..from + count]);
        self.skip(heap, first, count as u32);
        done + count
    }

    // Goes past so many bytes of the first chunk, which goes back where it has no unread byte left.
    fn skip(&mut self, heap: &mut KHeap, first: u32, count: u32)
        requires owned { IsQueueIn heap.old self.old }
        requires first { self.old.first ≡ Some first }
        requires some { 0 < self.old.len }
        requires there { count ≤ self.old.len }
        requires within { self.old.place + count ≤ 512 }
        ensures place { place_of self.new ≡ after_take (place_of self.old) count }
        ensures bytes { Turns heap.old heap.new self.old self.new (drop count) }
        ensures others { OnlyChunks heap.old heap.new }
        ensures takes { TakesNothing heap.old heap.new }
    {
        if count == self.parts.len {
            heap.free_chunk(first);
            self.parts = EMPTY;
            return;
        }
        self.parts.len -= count;
        self.parts.place += count;
        if self.parts.place == CHUNK {
            self.parts.first = heap.free_chunk(first).next;
            self.parts.place = 0;
        }
    }

    /// Forgets all bytes; the chunks go back.
    pub fn clear(&mut self, heap: &mut KHeap)
        requires { IsQueueIn heap.old self.old }
        ensures place { place_of self.new ≡ after_take (place_of self.old) self.old.len }
        ensures bytes { Turns heap.old heap.new self.old self.new (λ old. []) }
        ensures owned { IsQueueIn heap.new self.new }
        ensures others { OnlyChunks heap.old heap.new }
        ensures takes { TakesNothing heap.old heap.new }
    {
        'pieces: while let Some(first) = self.parts.first {
            let place = self.parts.place;
            prove!(place < 512);
            let count = self.parts.len.min(CHUNK - place);
            self.skip(heap, first, count);
        }
    }
}

// A chunk that begins with these bytes.
fn chunk_of(bytes: &[u8]) -> Chunk
    requires { length bytes.now ≤ 512 }
    ensures bytes { take (length bytes.now) result.bytes ≡ bytes.now }
    ensures last { result.next ≡ None }
{
    let mut room = [0; 512];
    room[..bytes.len()].copy_from_slice(bytes);
    Chunk {
        bytes: room,
        next: None,
    }
}

// Tells a chunk which one follows it.
fn link(heap: &mut KHeap, last: u32, next: u32)
    requires { InUse heap.old.chunks last }
    ensures linked { (before : ChunkOf) → object heap.old.chunks last ≡ Some before
        → heap.new ≡ record heap.old { chunks = put heap.old.chunks last (record before { next = Some next }) } }
    ensures takes { TakesNothing heap.old heap.new }
{
    let before = *heap.get_chunk(last);
    heap.set_chunk(
        last,
        Chunk {
            next: Some(next),
            ..before
        },
    );
}
