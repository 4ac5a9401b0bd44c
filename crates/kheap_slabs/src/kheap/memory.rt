//! Processes, their memory and their further descriptors.

ghost use Rattle.std.specs.Prelude.{◌≡◌, ◌+◌, ◌/◌, ◌<◌, ◌≤◌, None, Some, length, slice_set};
ghost use Rattle.kabi_types.specs.Class.{size};
ghost use Rattle.kabi_types.specs.declared.classes.Class.TheVariants as class;
ghost use Rattle.kheap_slabs.specs.Objects.{object, InUse, put, without};
ghost use Rattle.kheap_slabs.specs.Pages.{with_bytes};
ghost use Rattle.kheap_slabs.specs.declared.objects.Leaf.{Leaf as LeafOf};
ghost use Rattle.kheap_slabs.specs.declared.objects.Node.{Node as NodeOf};
ghost use Rattle.kheap_slabs.specs.declared.objects.Page.{Page as PageOf};
ghost use Rattle.kheap_slabs.specs.declared.objects.Proc.{Proc as ProcOf};
ghost use Rattle.kheap_slabs.specs.Heap.{live_bytes, Makes, Frees};
ghost use Rattle.kheap_slabs.specs.Paid.{TakesNothing};

use super::KHeap;
use crate::{Descriptor, HalfOpen, Leaf, Node, Page, PageEntry, Proc};
use kabi_types::{Class, Control};

impl KHeap {
    /// Puts a Proc under a key that was free, and gives the key.
    pub fn insert_proc(&mut self, value: Proc) -> u32
        requires { live_bytes self.old + size class.Proc ≤ self.old.heap }
        ensures in_range { result < self.old.heap / size class.Proc }
        ensures vacant { object self.old.procs result ≡ None }
        ensures stored { object self.new.procs result ≡ Some value }
        ensures kept { self.new
            ≡ record self.old { procs = put self.old.procs result value; high = self.new.high } }
        ensures live { live_bytes self.new ≡ live_bytes self.old + size class.Proc }
        ensures makes { Makes class.Proc self.old self.new }
    {
        self.meter.grow(Class::Proc.bytes());
        self.memory.procs.insert(value)
    }

    /// Takes a Proc out of the heap; its key is free from then on.
    pub fn free_proc(&mut self, key: u32) -> Proc
        requires { InUse self.old.procs key }
        ensures value { object self.old.procs key ≡ Some result }
        ensures gone { object self.new.procs key ≡ None }
        ensures kept { self.new ≡ record self.old { procs = without self.old.procs key } }
        ensures live { live_bytes self.new + size class.Proc ≡ live_bytes self.old }
        ensures frees { Frees class.Proc self.old self.new }
    {
        let value = self.memory.procs.free(key);
        self.meter.shrink(Class::Proc.bytes());
        value
    }

    /// The Proc of a key.
    pub fn get_proc(&self, key: u32) -> &Proc
        requires { InUse self.now.procs key }
        ensures { object self.now.procs key ≡ Some result.now }
    {
        self.memory.procs.get(key)
    }

    /// Puts another Proc under a key in use.
    pub fn set_proc(&mut self, key: u32, value: Proc)
        requires { InUse self.old.procs key }
        ensures stored { object self.new.procs key ≡ Some value }
        ensures kept { self.new ≡ record self.old { procs = put self.old.procs key value } }
        ensures live { live_bytes self.new ≡ live_bytes self.old }
        ensures takes { TakesNothing self.old self.new }
    {
        self.memory.procs.set(key, value);
    }

    /// Tells where a process has come to in its program. All else of it stays in its place.
    pub fn set_proc_control(&mut self, key: u32, control: Control)
        requires { InUse self.old.procs key }
        ensures kept { (proc : ProcOf) → object self.old.procs key ≡ Some proc
            → self.new
            ≡ record self.old { procs = put self.old.procs key (record proc { control = control }) } }
        ensures stays { InUse self.new.procs key }
        ensures live { live_bytes self.new ≡ live_bytes self.old }
        ensures takes { TakesNothing self.old self.new }
    {
        self.memory.procs.set_control(key, control);
    }

    /// Gives a process other Nodes. All else of it stays in its place.
    pub fn set_proc_nodes(&mut self, key: u32, nodes: [Option<u32>; 4])
        requires { InUse self.old.procs key }
        ensures kept { (proc : ProcOf) → object self.old.procs key ≡ Some proc
            → self.new
            ≡ record self.old { procs = put self.old.procs key (record proc { nodes = nodes }) } }
        ensures stays { InUse self.new.procs key }
        ensures live { live_bytes self.new ≡ live_bytes self.old }
        ensures takes { TakesNothing self.old self.new }
    {
        self.memory.procs.set_nodes(key, nodes);
    }

    /// Gives a process other descriptors: those of its first numbers, and the keys of its Leaves. All else of it stays in its place.
    pub fn set_proc_numbers(
        &mut self,
        key: u32,
        descriptors: [Option<Descriptor>; 32],
        leaves: [Option<u32>; 3],
    )
        requires { InUse self.old.procs key }
        ensures kept { (proc : ProcOf) → object self.old.procs key ≡ Some proc
            → self.new
            ≡ record self.old { procs = put self.old.procs key (record proc { descriptors = descriptors; leaves = leaves }) } }
        ensures stays { InUse self.new.procs key }
        ensures live { live_bytes self.new ≡ live_bytes self.old }
        ensures takes { TakesNothing self.old self.new }
    {
        self.memory.procs.set_numbers(key, descriptors, leaves);
    }

    /// Tells of a process in which open of a FIFO it sleeps, if it sleeps in one. All else of it stays in its place.
    pub fn set_proc_opening(&mut self, key: u32, opening: Option<HalfOpen>)
        requires { InUse self.old.procs key }
        ensures kept { (proc : ProcOf) → object self.old.procs key ≡ Some proc
            → self.new
            ≡ record self.old { procs = put self.old.procs key (record proc { opening = opening }) } }
        ensures stays { InUse self.new.procs key }
        ensures live { live_bytes self.new ≡ live_bytes self.old }
        ensures takes { TakesNothing self.old self.new }
    {
        self.memory.procs.set_opening(key, opening);
    }

    /// Tells of a process who its parent is and how it ended. All else of it stays in its place.
    pub fn set_proc_family(&mut self, key: u32, parent: u32, status: Option<u16>)
        requires { InUse self.old.procs key }
        ensures kept { (proc : ProcOf) → object self.old.procs key ≡ Some proc
            → self.new
            ≡ record self.old { procs = put self.old.procs key (record proc { parent = parent; status = status }) } }
        ensures stays { InUse self.new.procs key }
        ensures live { live_bytes self.new ≡ live_bytes self.old }
        ensures takes { TakesNothing self.old self.new }
    {
        self.memory.procs.set_family(key, parent, status);
    }

    /// Puts a Node under a key that was free, and gives the key.
    pub fn insert_node(&mut self, value: Node) -> u32
        requires { live_bytes self.old + size class.Node ≤ self.old.heap }
        ensures in_range { result < self.old.heap / size class.Node }
        ensures vacant { object self.old.nodes result ≡ None }
        ensures stored { object self.new.nodes result ≡ Some value }
        ensures kept { self.new
            ≡ record self.old { nodes = put self.old.nodes result value; high = self.new.high } }
        ensures live { live_bytes self.new ≡ live_bytes self.old + size class.Node }
        ensures makes { Makes class.Node self.old self.new }
    {
        self.meter.grow(Class::Node.bytes());
        self.memory.nodes.insert(value)
    }

    /// Takes a Node out of the heap; its key is free from then on.
    pub fn free_node(&mut self, key: u32) -> Node
        requires { InUse self.old.nodes key }
        ensures value { object self.old.nodes key ≡ Some result }
        ensures gone { object self.new.nodes key ≡ None }
        ensures kept { self.new ≡ record self.old { nodes = without self.old.nodes key } }
        ensures live { live_bytes self.new + size class.Node ≡ live_bytes self.old }
        ensures frees { Frees class.Node self.old self.new }
    {
        let value = self.memory.nodes.free(key);
        self.meter.shrink(Class::Node.bytes());
        value
    }

    /// The Node of a key.
    pub fn get_node(&self, key: u32) -> &Node
        requires { InUse self.now.nodes key }
        ensures { object self.now.nodes key ≡ Some result.now }
    {
        self.memory.nodes.get(key)
    }

    /// Puts another Node under a key in use.
    pub fn set_node(&mut self, key: u32, value: Node)
        requires { InUse self.old.nodes key }
        ensures stored { object self.new.nodes key ≡ Some value }
        ensures kept { self.new ≡ record self.old { nodes = put self.old.nodes key value } }
        ensures live { live_bytes self.new ≡ live_bytes self.old }
        ensures takes { TakesNothing self.old self.new }
    {
        self.memory.nodes.set(key, value);
    }

    /// Gives one page of a Node another entry. Its other entries stay in their place.
    pub fn set_node_entry(&mut self, key: u32, at: u32, entry: PageEntry)
        requires used { InUse self.old.nodes key }
        requires within { at < 64 }
        ensures kept { (node : NodeOf) → object self.old.nodes key ≡ Some node
            → self.new
            ≡ record self.old { nodes = put self.old.nodes key (record node { entries = slice_set node.entries at entry }) } }
        ensures stays { InUse self.new.nodes key }
        ensures live { live_bytes self.new ≡ live_bytes self.old }
        ensures takes { TakesNothing self.old self.new }
    {
        self.memory.nodes.set_entry(key, at, entry);
    }

    /// Puts a Leaf under a key that was free, and gives the key.
    pub fn insert_leaf(&mut self, value: Leaf) -> u32
        requires { live_bytes self.old + size class.Leaf ≤ self.old.heap }
        ensures in_range { result < self.old.heap / size class.Leaf }
        ensures vacant { object self.old.leaves result ≡ None }
        ensures stored { object self.new.leaves result ≡ Some value }
        ensures kept { self.new
            ≡ record self.old { leaves = put self.old.leaves result value; high = self.new.high } }
        ensures live { live_bytes self.new ≡ live_bytes self.old + size class.Leaf }
        ensures makes { Makes class.Leaf self.old self.new }
    {
        self.meter.grow(Class::Leaf.bytes());
        self.memory.leaves.insert(value)
    }

    /// Takes a Leaf out of the heap; its key is free from then on.
    pub fn free_leaf(&mut self, key: u32) -> Leaf
        requires { InUse self.old.leaves key }
        ensures value { object self.old.leaves key ≡ Some result }
        ensures gone { object self.new.leaves key ≡ None }
        ensures kept { self.new ≡ record self.old { leaves = without self.old.leaves key } }
        ensures live { live_bytes self.new + size class.Leaf ≡ live_bytes self.old }
        ensures frees { Frees class.Leaf self.old self.new }
    {
        let value = self.memory.leaves.free(key);
        self.meter.shrink(Class::Leaf.bytes());
        value
    }

    /// The Leaf of a key.
    pub fn get_leaf(&self, key: u32) -> &Leaf
        requires { InUse self.now.leaves key }
        ensures { object self.now.leaves key ≡ Some result.now }
    {
        self.memory.leaves.get(key)
    }

    /// Puts another Leaf under a key in use.
    pub fn set_leaf(&mut self, key: u32, value: Leaf)
        requires { InUse self.old.leaves key }
        ensures stored { object self.new.leaves key ≡ Some value }
        ensures kept { self.new ≡ record self.old { leaves = put self.old.leaves key value } }
        ensures live { live_bytes self.new ≡ live_bytes self.old }
        ensures takes { TakesNothing self.old self.new }
    {
        self.memory.leaves.set(key, value);
    }

    /// Gives one number of a Leaf another descriptor, or none. Its others stay in their place.
    pub fn set_leaf_descriptor(&mut self, key: u32, at: u32, descriptor: Option<Descriptor>)
        requires used { InUse self.old.leaves key }
        requires within { at < 32 }
        ensures kept { (leaf : LeafOf) → object self.old.leaves key ≡ Some leaf
            → self.new
            ≡ record self.old { leaves = put self.old.leaves key (record leaf { descriptors = slice_set leaf.descriptors at descriptor }) } }
        ensures stays { InUse self.new.leaves key }
        ensures live { live_bytes self.new ≡ live_bytes self.old }
        ensures takes { TakesNothing self.old self.new }
    {
        self.memory.leaves.set_descriptor(key, at, descriptor);
    }

    /// Puts a Page under a key that was free, and gives the key.
    pub fn insert_page(&mut self, value: Page) -> u32
        requires { live_bytes self.old + size class.Page ≤ self.old.heap }
        ensures in_range { result < self.old.heap / size class.Page }
        ensures vacant { object self.old.pages result ≡ None }
        ensures stored { object self.new.pages result ≡ Some value }
        ensures kept { self.new
            ≡ record self.old { pages = put self.old.pages result value; high = self.new.high } }
        ensures live { live_bytes self.new ≡ live_bytes self.old + size class.Page }
        ensures makes { Makes class.Page self.old self.new }
    {
        self.meter.grow(Class::Page.bytes());
        self.memory.pages.insert(value)
    }

    /// Takes a Page out of the heap; its key is free from then on.
    pub fn free_page(&mut self, key: u32) -> Page
        requires { InUse self.old.pages key }
        ensures value { object self.old.pages key ≡ Some result }
        ensures gone { object self.new.pages key ≡ None }
        ensures kept { self.new ≡ record self.old { pages = without self.old.pages key } }
        ensures live { live_bytes self.new + size class.Page ≡ live_bytes self.old }
        ensures frees { Frees class.Page self.old self.new }
    {
        let value = self.memory.pages.free(key);
        self.meter.shrink(Class::Page.bytes());
        value
    }

    /// The Page of a key.
    pub fn get_page(&self, key: u32) -> &Page
        requires { InUse self.now.pages key }
        ensures { object self.now.pages key ≡ Some result.now }
    {
        self.memory.pages.get(key)
    }

    /// Puts another Page under a key in use.
    pub fn set_page(&mut self, key: u32, value: Page)
        requires { InUse self.old.pages key }
        ensures stored { object self.new.pages key ≡ Some value }
        ensures kept { self.new ≡ record self.old { pages = put self.old.pages key value } }
        ensures live { live_bytes self.new ≡ live_bytes self.old }
        ensures takes { TakesNothing self.old self.new }
    {
        self.memory.pages.set(key, value);
    }

    /// Tells of a page how many entries name it. Its bytes stay in their place.
    pub fn set_page_count(&mut self, key: u32, count: u32)
        requires { InUse self.old.pages key }
        ensures kept { (page : PageOf) → object self.old.pages key ≡ Some page
            → self.new
            ≡ record self.old { pages = put self.old.pages key (record page { count = count }) } }
        ensures stays { InUse self.new.pages key }
        ensures live { live_bytes self.new ≡ live_bytes self.old }
        ensures takes { TakesNothing self.old self.new }
    {
        self.memory.pages.set_count(key, count);
    }

    /// Writes bytes into a page from a place on. Its other bytes and its count stay.
    pub fn write_page(&mut self, key: u32, at: u32, bytes: &[u8])
        requires used { InUse self.old.pages key }
        requires within { at + length bytes.now ≤ 4096 }
        ensures kept { (page : PageOf) → object self.old.pages key ≡ Some page
            → self.new
            ≡ record self.old { pages = put self.old.pages key (with_bytes page at bytes.now) } }
        ensures stays { InUse self.new.pages key }
        ensures live { live_bytes self.new ≡ live_bytes self.old }
        ensures takes { TakesNothing self.old self.new }
    {
        self.memory.pages.write(key, at, bytes);
    }
}
