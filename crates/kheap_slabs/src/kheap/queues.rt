//! Pipes, sockets and their bytes.

ghost use Rattle.std.specs.Prelude.{◌≡◌, ◌+◌, ◌/◌, ◌<◌, ◌≤◌, None, Some};
ghost use Rattle.kabi_types.specs.Class.{size};
ghost use Rattle.kabi_types.specs.declared.classes.Class.TheVariants as class;
ghost use Rattle.kheap_slabs.specs.Objects.{object, InUse, put, without};
ghost use Rattle.kheap_slabs.specs.Heap.{live_bytes, Makes, Frees};
ghost use Rattle.kheap_slabs.specs.Paid.{TakesNothing};

use super::KHeap;
use crate::{Chunk, Pipe, Sock};
use kabi_types::Class;

impl KHeap {
    /// Puts a Pipe under a key that was free, and gives the key.
    pub fn insert_pipe(&mut self, value: Pipe) -> u32
        requires { live_bytes self.old + size class.Pipe ≤ self.old.heap }
        ensures in_range { result < self.old.heap / size class.Pipe }
        ensures vacant { object self.old.pipes result ≡ None }
        ensures stored { object self.new.pipes result ≡ Some value }
        ensures kept { self.new
            ≡ record self.old { pipes = put self.old.pipes result value; high = self.new.high } }
        ensures live { live_bytes self.new ≡ live_bytes self.old + size class.Pipe }
        ensures makes { Makes class.Pipe self.old self.new }
    {
        self.meter.grow(Class::Pipe.bytes());
        self.queues.pipes.insert(value)
    }

    /// Takes a Pipe out of the heap; its key is free from then on.
    pub fn free_pipe(&mut self, key: u32) -> Pipe
        requires { InUse self.old.pipes key }
        ensures value { object self.old.pipes key ≡ Some result }
        ensures gone { object self.new.pipes key ≡ None }
        ensures kept { self.new ≡ record self.old { pipes = without self.old.pipes key } }
        ensures live { live_bytes self.new + size class.Pipe ≡ live_bytes self.old }
        ensures frees { Frees class.Pipe self.old self.new }
    {
        let value = self.queues.pipes.free(key);
        self.meter.shrink(Class::Pipe.bytes());
        value
    }

    /// The Pipe of a key.
    pub fn get_pipe(&self, key: u32) -> &Pipe
        requires { InUse self.now.pipes key }
        ensures { object self.now.pipes key ≡ Some result.now }
    {
        self.queues.pipes.get(key)
    }

    /// Puts another Pipe under a key in use.
    pub fn set_pipe(&mut self, key: u32, value: Pipe)
        requires { InUse self.old.pipes key }
        ensures stored { object self.new.pipes key ≡ Some value }
        ensures kept { self.new ≡ record self.old { pipes = put self.old.pipes key value } }
        ensures live { live_bytes self.new ≡ live_bytes self.old }
        ensures takes { TakesNothing self.old self.new }
    {
        self.queues.pipes.set(key, value);
    }

    /// Puts a Chunk under a key that was free, and gives the key.
    pub fn insert_chunk(&mut self, value: Chunk) -> u32
        requires { live_bytes self.old + size class.Chunk ≤ self.old.heap }
        ensures in_range { result < self.old.heap / size class.Chunk }
        ensures vacant { object self.old.chunks result ≡ None }
        ensures stored { object self.new.chunks result ≡ Some value }
        ensures kept { self.new
            ≡ record self.old { chunks = put self.old.chunks result value; high = self.new.high } }
        ensures live { live_bytes self.new ≡ live_bytes self.old + size class.Chunk }
        ensures makes { Makes class.Chunk self.old self.new }
    {
        self.meter.grow(Class::Chunk.bytes());
        self.queues.chunks.insert(value)
    }

    /// Takes a Chunk out of the heap; its key is free from then on.
    pub fn free_chunk(&mut self, key: u32) -> Chunk
        requires { InUse self.old.chunks key }
        ensures value { object self.old.chunks key ≡ Some result }
        ensures gone { object self.new.chunks key ≡ None }
        ensures kept { self.new ≡ record self.old { chunks = without self.old.chunks key } }
        ensures live { live_bytes self.new + size class.Chunk ≡ live_bytes self.old }
        ensures frees { Frees class.Chunk self.old self.new }
    {
        let value = self.queues.chunks.free(key);
        self.meter.shrink(Class::Chunk.bytes());
        value
    }

    /// The Chunk of a key.
    pub fn get_chunk(&self, key: u32) -> &Chunk
        requires { InUse self.now.chunks key }
        ensures { object self.now.chunks key ≡ Some result.now }
    {
        self.queues.chunks.get(key)
    }

    /// Puts another Chunk under a key in use.
    pub fn set_chunk(&mut self, key: u32, value: Chunk)
        requires { InUse self.old.chunks key }
        ensures stored { object self.new.chunks key ≡ Some value }
        ensures kept { self.new ≡ record self.old { chunks = put self.old.chunks key value } }
        ensures live { live_bytes self.new ≡ live_bytes self.old }
        ensures takes { TakesNothing self.old self.new }
    {
        self.queues.chunks.set(key, value);
    }

    /// Puts a Sock under a key that was free, and gives the key.
    pub fn insert_sock(&mut self, value: Sock) -> u32
        requires { live_bytes self.old + size class.Sock ≤ self.old.heap }
        ensures in_range { result < self.old.heap / size class.Sock }
        ensures vacant { object self.old.socks result ≡ None }
        ensures stored { object self.new.socks result ≡ Some value }
        ensures kept { self.new
            ≡ record self.old { socks = put self.old.socks result value; high = self.new.high } }
        ensures live { live_bytes self.new ≡ live_bytes self.old + size class.Sock }
        ensures makes { Makes class.Sock self.old self.new }
    {
        self.meter.grow(Class::Sock.bytes());
        self.queues.socks.insert(value)
    }

    /// Takes a Sock out of the heap; its key is free from then on.
    pub fn free_sock(&mut self, key: u32) -> Sock
        requires { InUse self.old.socks key }
        ensures value { object self.old.socks key ≡ Some result }
        ensures gone { object self.new.socks key ≡ None }
        ensures kept { self.new ≡ record self.old { socks = without self.old.socks key } }
        ensures live { live_bytes self.new + size class.Sock ≡ live_bytes self.old }
        ensures frees { Frees class.Sock self.old self.new }
    {
        let value = self.queues.socks.free(key);
        self.meter.shrink(Class::Sock.bytes());
        value
    }

    /// The Sock of a key.
    pub fn get_sock(&self, key: u32) -> &Sock
        requires { InUse self.now.socks key }
        ensures { object self.now.socks key ≡ Some result.now }
    {
        self.queues.socks.get(key)
    }

    /// Puts another Sock under a key in use.
    pub fn set_sock(&mut self, key: u32, value: Sock)
        requires { InUse self.old.socks key }
        ensures stored { object self.new.socks key ≡ Some value }
        ensures kept { self.new ≡ record self.old { socks = put self.old.socks key value } }
        ensures live { live_bytes self.new ≡ live_bytes self.old }
        ensures takes { TakesNothing self.old self.new }
    {
        self.queues.socks.set(key, value);
    }
}
