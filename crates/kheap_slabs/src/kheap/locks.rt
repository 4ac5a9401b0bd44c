//! Locked ranges of files.

ghost use Rattle.std.specs.Prelude.{◌≡◌, ◌+◌, ◌/◌, ◌<◌, ◌≤◌, None, Some};
ghost use Rattle.kabi_types.specs.Class.{size};
ghost use Rattle.kabi_types.specs.declared.classes.Class.TheVariants as class;
ghost use Rattle.kheap_slabs.specs.Objects.{object, InUse, put, without};
ghost use Rattle.kheap_slabs.specs.Heap.{live_bytes, Makes, Frees};
ghost use Rattle.kheap_slabs.specs.Paid.{TakesNothing};

use super::KHeap;
use crate::Lock;
use kabi_types::Class;

impl KHeap {
    /// Puts a Lock under a key that was free, and gives the key.
    pub fn insert_lock(&mut self, value: Lock) -> u32
        requires { live_bytes self.old + size class.Lock ≤ self.old.heap }
        ensures in_range { result < self.old.heap / size class.Lock }
        ensures vacant { object self.old.locks result ≡ None }
        ensures stored { object self.new.locks result ≡ Some value }
        ensures kept { self.new
            ≡ record self.old { locks = put self.old.locks result value; high = self.new.high } }
        ensures live { live_bytes self.new ≡ live_bytes self.old + size class.Lock }
        ensures makes { Makes class.Lock self.old self.new }
    {
        self.meter.grow(Class::Lock.bytes());
        self.locks.insert(value)
    }

    /// Takes a Lock out of the heap; its key is free from then on.
    pub fn free_lock(&mut self, key: u32) -> Lock
        requires { InUse self.old.locks key }
        ensures value { object self.old.locks key ≡ Some result }
        ensures gone { object self.new.locks key ≡ None }
        ensures kept { self.new ≡ record self.old { locks = without self.old.locks key } }
        ensures live { live_bytes self.new + size class.Lock ≡ live_bytes self.old }
        ensures frees { Frees class.Lock self.old self.new }
    {
        let value = self.locks.free(key);
        self.meter.shrink(Class::Lock.bytes());
        value
    }

    /// The Lock of a key.
    pub fn get_lock(&self, key: u32) -> &Lock
        requires { InUse self.now.locks key }
        ensures { object self.now.locks key ≡ Some result.now }
    {
        self.locks.get(key)
    }

    /// Puts another Lock under a key in use.
    pub fn set_lock(&mut self, key: u32, value: Lock)
        requires { InUse self.old.locks key }
        ensures stored { object self.new.locks key ≡ Some value }
        ensures kept { self.new ≡ record self.old { locks = put self.old.locks key value } }
        ensures live { live_bytes self.new ≡ live_bytes self.old }
        ensures takes { TakesNothing self.old self.new }
    {
        self.locks.set(key, value);
    }
}
