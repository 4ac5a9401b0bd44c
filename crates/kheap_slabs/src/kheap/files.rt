//! Open file descriptions and what is cached of the disk.

ghost use Rattle.std.specs.Prelude.{◌≡◌, ◌+◌, ◌/◌, ◌<◌, ◌≤◌, None, Some, length};
ghost use Rattle.kabi_types.specs.Class.{size};
ghost use Rattle.kabi_types.specs.declared.classes.Class.TheVariants as class;
ghost use Rattle.kheap_slabs.specs.Objects.{object, InUse, count as count_of, put, without};
ghost use Rattle.kheap_slabs.specs.Heap.{live_bytes, Makes, Frees};
ghost use Rattle.kheap_slabs.specs.Paid.{TakesNothing};

use super::KHeap;
use crate::shelf::Shelf;
use crate::{Block, Desc, Name, Vnode};
use kabi_types::Class;

impl KHeap {
    /// Puts a Desc under a key that was free, and gives the key.
    pub fn insert_desc(&mut self, value: Desc) -> u32
        requires { live_bytes self.old + size class.Desc ≤ self.old.heap }
        ensures in_range { result < self.old.heap / size class.Desc }
        ensures vacant { object self.old.descs result ≡ None }
        ensures stored { object self.new.descs result ≡ Some value }
        ensures kept { self.new
            ≡ record self.old { descs = put self.old.descs result value; high = self.new.high } }
        ensures live { live_bytes self.new ≡ live_bytes self.old + size class.Desc }
        ensures makes { Makes class.Desc self.old self.new }
    {
        self.meter.grow(Class::Desc.bytes());
        self.files.descs.insert(value)
    }

    /// Takes a Desc out of the heap; its key is free from then on.
    pub fn free_desc(&mut self, key: u32) -> Desc
        requires { InUse self.old.descs key }
        ensures value { object self.old.descs key ≡ Some result }
        ensures gone { object self.new.descs key ≡ None }
        ensures kept { self.new ≡ record self.old { descs = without self.old.descs key } }
        ensures live { live_bytes self.new + size class.Desc ≡ live_bytes self.old }
        ensures frees { Frees class.Desc self.old self.new }
    {
        let value = self.files.descs.free(key);
        self.meter.shrink(Class::Desc.bytes());
        value
    }

    /// The Desc of a key.
    pub fn get_desc(&self, key: u32) -> &Desc
        requires { InUse self.now.descs key }
        ensures { object self.now.descs key ≡ Some result.now }
    {
        self.files.descs.get(key)
    }

    /// Puts another Desc under a key in use.
    pub fn set_desc(&mut self, key: u32, value: Desc)
        requires { InUse self.old.descs key }
        ensures stored { object self.new.descs key ≡ Some value }
        ensures kept { self.new ≡ record self.old { descs = put self.old.descs key value } }
        ensures live { live_bytes self.new ≡ live_bytes self.old }
        ensures takes { TakesNothing self.old self.new }
    {
        self.files.descs.set(key, value);
    }

    /// Puts a Vnode under a key that was free, and gives the key.
    pub fn insert_vnode(&mut self, value: Vnode) -> u32
        requires { live_bytes self.old + size class.Vnode ≤ self.old.heap }
        ensures in_range { result < self.old.heap / size class.Vnode }
        ensures vacant { object self.old.vnodes result ≡ None }
        ensures stored { object self.new.vnodes result ≡ Some value }
        ensures kept { self.new
            ≡ record self.old { vnodes = put self.old.vnodes result value; high = self.new.high } }
        ensures live { live_bytes self.new ≡ live_bytes self.old + size class.Vnode }
        ensures makes { Makes class.Vnode self.old self.new }
    {
        self.meter.grow(Class::Vnode.bytes());
        self.files.vnodes.insert(value)
    }

    /// Takes a Vnode out of the heap; its key is free from then on.
    pub fn free_vnode(&mut self, key: u32) -> Vnode
        requires { InUse self.old.vnodes key }
        ensures value { object self.old.vnodes key ≡ Some result }
        ensures gone { object self.new.vnodes key ≡ None }
        ensures kept { self.new ≡ record self.old { vnodes = without self.old.vnodes key } }
        ensures live { live_bytes self.new + size class.Vnode ≡ live_bytes self.old }
        ensures frees { Frees class.Vnode self.old self.new }
    {
        let value = self.files.vnodes.free(key);
        self.meter.shrink(Class::Vnode.bytes());
        value
    }

    /// The Vnode of a key.
    pub fn get_vnode(&self, key: u32) -> &Vnode
        requires { InUse self.now.vnodes key }
        ensures { object self.now.vnodes key ≡ Some result.now }
    {
        self.files.vnodes.get(key)
    }

    /// Puts another Vnode under a key in use.
    pub fn set_vnode(&mut self, key: u32, value: Vnode)
        requires { InUse self.old.vnodes key }
        ensures stored { object self.new.vnodes key ≡ Some value }
        ensures kept { self.new ≡ record self.old { vnodes = put self.old.vnodes key value } }
        ensures live { live_bytes self.new ≡ live_bytes self.old }
        ensures takes { TakesNothing self.old self.new }
    {
        self.files.vnodes.set(key, value);
    }

    /// Puts a Name under a key that was free, and gives the key.
    pub fn insert_name(&mut self, value: Name) -> u32
        requires { live_bytes self.old + size class.Name ≤ self.old.heap }
        ensures in_range { result < self.old.heap / size class.Name }
        ensures vacant { object self.old.names result ≡ None }
        ensures stored { object self.new.names result ≡ Some value }
        ensures kept { self.new
            ≡ record self.old { names = put self.old.names result value; high = self.new.high } }
        ensures live { live_bytes self.new ≡ live_bytes self.old + size class.Name }
        ensures makes { Makes class.Name self.old self.new }
    {
        self.meter.grow(Class::Name.bytes());
        self.files.names.insert(value)
    }

    /// Takes a Name out of the heap; its key is free from then on.
    pub fn free_name(&mut self, key: u32) -> Name
        requires { InUse self.old.names key }
        ensures value { object self.old.names key ≡ Some result }
        ensures gone { object self.new.names key ≡ None }
        ensures kept { self.new ≡ record self.old { names = without self.old.names key } }
        ensures live { live_bytes self.new + size class.Name ≡ live_bytes self.old }
        ensures frees { Frees class.Name self.old self.new }
    {
        let value = self.files.names.take_out(key);
        self.meter.shrink(Class::Name.bytes());
        value
    }

    /// The Name of a key.
    pub fn get_name(&self, key: u32) -> &Name
        requires { InUse self.now.names key }
        ensures { object self.now.names key ≡ Some result.now }
    {
        self.files.names.get(key)
    }

    /// Puts another Name under a key in use.
    pub fn set_name(&mut self, key: u32, value: Name)
        requires { InUse self.old.names key }
        ensures stored { object self.new.names key ≡ Some value }
        ensures kept { self.new ≡ record self.old { names = put self.old.names key value } }
        ensures live { live_bytes self.new ≡ live_bytes self.old }
        ensures takes { TakesNothing self.old self.new }
    {
        self.files.names.set(key, value);
    }

    /// Puts a Block under a key that was free, and gives the key.
    pub fn insert_block(&mut self, value: Block) -> u32
        requires { live_bytes self.old + size class.Block ≤ self.old.heap }
        ensures in_range { result < self.old.heap / size class.Block }
        ensures vacant { object self.old.blocks result ≡ None }
        ensures stored { object self.new.blocks result ≡ Some value }
        ensures kept { self.new
            ≡ record self.old { blocks = put self.old.blocks result value; high = self.new.high } }
        ensures live { live_bytes self.new ≡ live_bytes self.old + size class.Block }
        ensures makes { Makes class.Block self.old self.new }
    {
        self.meter.grow(Class::Block.bytes());
        self.files.blocks.insert(value)
    }

    /// Takes a Block out of the heap; its key is free from then on.
    pub fn free_block(&mut self, key: u32) -> Block
        requires { InUse self.old.blocks key }
        ensures value { object self.old.blocks key ≡ Some result }
        ensures gone { object self.new.blocks key ≡ None }
        ensures kept { self.new ≡ record self.old { blocks = without self.old.blocks key } }
        ensures live { live_bytes self.new + size class.Block ≡ live_bytes self.old }
        ensures frees { Frees class.Block self.old self.new }
    {
        let value = self.files.blocks.free(key);
        self.meter.shrink(Class::Block.bytes());
        value
    }

    /// The Block of a key.
    pub fn get_block(&self, key: u32) -> &Block
        requires { InUse self.now.blocks key }
        ensures { object self.now.blocks key ≡ Some result.now }
    {
        self.files.blocks.get(key)
    }

    /// Puts another Block under a key in use.
    pub fn set_block(&mut self, key: u32, value: Block)
        requires { InUse self.old.blocks key }
        ensures stored { object self.new.blocks key ≡ Some value }
        ensures kept { self.new ≡ record self.old { blocks = put self.old.blocks key value } }
        ensures live { live_bytes self.new ≡ live_bytes self.old }
        ensures takes { TakesNothing self.old self.new }
    {
        self.files.blocks.set(key, value);
    }

    /// Puts another Block under a key in use, whose bytes are copied once.
    pub fn write_block(&mut self, key: u32, number: u32, bytes: &[u8; 1024])
        requires { InUse self.old.blocks key }
        ensures kept { self.new
            ≡ record self.old { blocks = put self.old.blocks key (record { number = number; bytes = bytes.now }) } }
        ensures live { live_bytes self.new ≡ live_bytes self.old }
        ensures takes { TakesNothing self.old self.new }
    {
        write(&mut self.files.blocks, key, number, bytes);
    }
}

// A Block is changed in its place, since its bytes are much to copy.
fn write(blocks: &mut Shelf<Block>, key: u32, number: u32, bytes: &[u8; 1024])
    requires { InUse blocks.old key }
    ensures kept { blocks.new ≡ put blocks.old key (record { number = number; bytes = bytes.now }) }
    ensures counted { count_of blocks.new ≡ count_of blocks.old }
    ensures len { length blocks.new ≡ length blocks.old }
{
    let block = blocks.get_mut(key);
    block.number = number;
    block.bytes = *bytes;
}
