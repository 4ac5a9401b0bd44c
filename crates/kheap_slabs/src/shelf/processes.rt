//! A process, a page's entry and a further descriptor are changed in their place: each of these changes at many events, and they
//! are much to copy.

ghost use Rattle.std.specs.Prelude.{◌≡◌, ◌<◌, Some, length, slice_set};
ghost use Rattle.kheap_slabs.specs.Objects.{object, InUse, count as count_of, put};
ghost use Rattle.kheap_slabs.specs.declared.objects.Leaf.{Leaf as LeafOf};
ghost use Rattle.kheap_slabs.specs.declared.objects.Node.{Node as NodeOf};
ghost use Rattle.kheap_slabs.specs.declared.objects.Proc.{Proc as ProcOf};

use super::Shelf;
use crate::{Descriptor, HalfOpen, Leaf, Node, PageEntry, Proc};
use kabi_types::Control;

impl Shelf<Proc> {
    /// Tells where a process has come to in its program.
    pub fn set_control(&mut self, key: u32, control: Control)
        requires { InUse self.old key }
        ensures kept { (proc : ProcOf) → object self.old key ≡ Some proc
            → self.new ≡ put self.old key (record proc { control = control }) }
        ensures counted { count_of self.new ≡ count_of self.old }
        ensures len { length self.new ≡ length self.old }
    {
        self.get_mut(key).control = control;
    }

    /// Gives a process other Nodes.
    pub fn set_nodes(&mut self, key: u32, nodes: [Option<u32>; 4])
        requires { InUse self.old key }
        ensures kept { (proc : ProcOf) → object self.old key ≡ Some proc
            → self.new ≡ put self.old key (record proc { nodes = nodes }) }
        ensures counted { count_of self.new ≡ count_of self.old }
        ensures len { length self.new ≡ length self.old }
    {
        self.get_mut(key).nodes = nodes;
    }

    /// Gives a process other descriptors: those of its first numbers, and the keys of its Leaves.
    pub fn set_numbers(
        &mut self,
        key: u32,
        descriptors: [Option<Descriptor>; 32],
        leaves: [Option<u32>; 3],
    )
        requires { InUse self.old key }
        ensures kept { (proc : ProcOf) → object self.old key ≡ Some proc
            → self.new ≡ put self.old key (record proc { descriptors = descriptors; leaves = leaves }) }
        ensures counted { count_of self.new ≡ count_of self.old }
        ensures len { length self.new ≡ length self.old }
    {
        let proc = self.get_mut(key);
        proc.descriptors = descriptors;
        proc.leaves = leaves;
    }

    /// Tells of a process in which open of a FIFO it sleeps, if it sleeps in one.
    pub fn set_opening(&mut self, key: u32, opening: Option<HalfOpen>)
        requires { InUse self.old key }
        ensures kept { (proc : ProcOf) → object self.old key ≡ Some proc
            → self.new ≡ put self.old key (record proc { opening = opening }) }
        ensures counted { count_of self.new ≡ count_of self.old }
        ensures len { length self.new ≡ length self.old }
    {
        self.get_mut(key).opening = opening;
    }

    /// Tells of a process who its parent is and how it ended.
    pub fn set_family(&mut self, key: u32, parent: u32, status: Option<u16>)
        requires { InUse self.old key }
        ensures kept { (proc : ProcOf) → object self.old key ≡ Some proc
            → self.new ≡ put self.old key (record proc { parent = parent; status = status }) }
        ensures counted { count_of self.new ≡ count_of self.old }
        ensures len { length self.new ≡ length self.old }
    {
        let proc = self.get_mut(key);
        proc.parent = parent;
        proc.status = status;
    }
}

impl Shelf<Leaf> {
    /// Gives one number of a Leaf another descriptor, or none.
    pub fn set_descriptor(&mut self, key: u32, at: u32, descriptor: Option<Descriptor>)
        requires used { InUse self.old key }
        requires within { at < 32 }
        ensures kept { (leaf : LeafOf) → object self.old key ≡ Some leaf
            → self.new ≡ put self.old key (record leaf { descriptors = slice_set leaf.descriptors at descriptor }) }
        ensures counted { count_of self.new ≡ count_of self.old }
        ensures len { length self.new ≡ length self.old }
    {
        self.get_mut(key).descriptors[at as usize] = descriptor;
    }
}

impl Shelf<Node> {
    /// Gives one page of a Node another entry.
    pub fn set_entry(&mut self, key: u32, at: u32, entry: PageEntry)
        requires used { InUse self.old key }
        requires within { at < 64 }
        ensures kept { (node : NodeOf) → object self.old key ≡ Some node
            → self.new ≡ put self.old key (record node { entries = slice_set node.entries at entry }) }
        ensures counted { count_of self.new ≡ count_of self.old }
        ensures len { length self.new ≡ length self.old }
    {
        self.get_mut(key).entries[at as usize] = entry;
    }
}
