//! What a text of groups says.

ghost use Rattle.std.specs.Prelude.{◌≡◌, ◌<◌, length, Some, slice_get};

use kabi_types::{Name27, Script};
use std::marker::Model;

/// A section of a text of groups: the group's name, and its script.
#[derive(Drop)]
pub struct Section {
    pub name: Name27,
    pub script: Script,
}

/// The groups of a text, in their order, and how many bytes all heaps that run may have together.
#[derive(Drop)]
pub struct GroupList {
    pub(crate) whole: u64,
    pub(crate) sections: Vec<Section>,
}

impl Model for GroupList {
    ghost use Rattle.std.specs.Prelude.{◌≤◌, length};
    ghost use Rattle.group_heap.specs.Texts.{Groups};

    ghost Value = { Groups };

    ghost view = { λ l. record { whole = l.whole; sections = l.sections.items } };

    ghost invariant = { λ l. length l.sections.items ≤ 8 };
}

impl GroupList {
    /// In bytes.
    pub fn whole(&self) -> u64
        ensures { result ≡ self.now.whole }
    {
        self.whole
    }

    /// How many groups there are.
    pub fn len(&self) -> u32
        ensures { result ≡ length self.now.sections }
    {
        self.sections.len() as u32
    }

    /// The name of a group, by its place from 0.
    pub fn name(&self, i: u32) -> Name27
        requires { i < length self.now.sections }
        ensures { (section : _) → slice_get self.now.sections i ≡ Some section → result ≡ section.name }
    {
        self.sections[i as usize].name.copy()
    }

    /// The script of a group, by its place from 0.
    pub fn script(&self, i: u32) -> &Script
        requires { i < length self.now.sections }
        ensures { (section : _) → slice_get self.now.sections i ≡ Some section → result.now ≡ section.script }
    {
        &self.sections[i as usize].script
    }
}
