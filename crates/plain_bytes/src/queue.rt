ghost use Rattle.std.specs.Prelude.{◌≡◌, ◌-◌, ◌≤◌, ◌++◌, [], length, drop, OnOk, OnErr};
ghost use Rattle.plain_bytes.specs.Unread.{IsQueue, becomes, nothing, taken_by};
ghost use Rattle.posix_defs.specs.Pipe.{capacity};

use kabi_types::Memory;
use std::alloc::Global;
use std::marker::Model;

/// How many bytes a queue holds at most.
const CAPACITY: usize = 4096;

/// How many bytes a chunk has.
const CHUNK: u32 = 512;

/// The bytes that are unread, at most 4096, the first one first. Contracts see them, and the place of the first one in its
/// chunk.
#[derive(Drop)]
pub struct Queue {
    bytes: Vec<u8>,
    front: u32,
}

impl Model for Queue {
    ghost use Rattle.plain_bytes.specs.Unread.{IsQueue, Unread};

    ghost Value = { Unread };

    ghost view = { λ queue. record { bytes = queue.bytes.items; front = queue.front } };

    ghost invariant = { λ queue. IsQueue (record { bytes = queue.bytes.items; front = queue.front }) };
}

impl Queue {
    /// Nothing is unread.
    pub fn new(alloc: Global) -> Queue
        ensures value { result ≡ nothing }
        ensures queue { IsQueue result }
    {
        Queue {
            bytes: Vec::new(alloc),
            front: 0,
        }
    }

    /// What is unread.
    pub fn bytes(&self) -> &[u8]
        ensures value { result.now ≡ self.now.bytes }
        ensures queue { IsQueue self.now }
    {
        self.bytes.as_slice()
    }

    /// How many bytes are unread.
    pub fn len(&self) -> u32
        ensures value { result ≡ length self.now.bytes }
        ensures queue { IsQueue self.now }
    {
        self.bytes.len() as u32
    }

    /// How many bytes more there is room for.
    pub fn free(&self) -> u32
        ensures value { result ≡ capacity - length self.now.bytes }
        ensures queue { IsQueue self.now }
    {
        (CAPACITY - self.bytes.len()) as u32
    }

    /// How many chunks the bytes take.
    pub fn chunks(&self) -> u64
        ensures value { result ≡ taken_by self.now }
        ensures few { result ≤ 9 }
        ensures queue { IsQueue self.now }
    {
        if self.bytes.is_empty() {
            return 0;
        }
        (u64::from(self.front) + self.bytes.len() as u64 + u64::from(CHUNK) - 1) / u64::from(CHUNK)
    }

    /// Puts bytes behind those that are unread. Where the host has no memory nothing changes.
    pub fn put(&mut self, bytes: &[u8]) -> Result<(), Memory>
        requires { length bytes.now ≤ capacity - length self.old.bytes }
        ensures put { OnOk result (self.new ≡ becomes self.old (self.old.bytes ++ bytes.now)) }
        ensures kept { OnErr result (self.new ≡ self.old) }
        ensures queue { IsQueue self.new }
    {
        self.bytes.extend_from_slice(bytes)?;
        Ok(())
    }

    /// Drops the first so many bytes, or all where there are fewer.
    pub fn drop_first(&mut self, count: u32)
        ensures dropped { self.new ≡ becomes self.old (drop count self.old.bytes) }
        ensures queue { IsQueue self.new }
    {
        let len = self.bytes.len();
        let count = count as usize;
        if count >= len {
            self.clear();
            return;
        }
        self.bytes.copy_within(count.., 0);
        self.bytes.truncate(len - count);
        self.front = (self.front + count as u32) % CHUNK;
    }

    /// Drops all bytes.
    pub fn clear(&mut self)
        ensures dropped { self.new ≡ becomes self.old [] }
        ensures nothing { self.new ≡ nothing }
        ensures queue { IsQueue self.new }
    {
        self.bytes.clear();
        self.front = 0;
    }
}
