ghost use Rattle.std.specs.Prelude.{◌≡◌, ◌+◌, ◌^◌, ◌<◌, ◌++◌, [], ◌∷◌, length, Some, IfOk, OnOk, OnErr};
ghost use Rattle.std.specs.Option.{option_copied};
ghost use Rattle.std.specs.Borrow.{sem};
ghost use Rattle.kept_places.specs.Places.{IsThere, at, put, there_from, without};

use crate::search::{Kept, index_of};
use kabi_types::Memory;
use std::alloc::Global;
use std::marker::Model;

/// The things that were ever given a place, each of which is there or gone. Contracts see the list by places: `Some` for what
/// is there, `None` for what is gone.
#[derive(Drop)]
pub struct Places<X> {
    made: u32,
    // By rising place.
    there: Vec<Kept<X>>,
}

impl<X> Model for Places<X> {
    ghost use Rattle.std.specs.Prelude.{List, Option};
    ghost use Rattle.std.specs.Coded.{coded_list, coded_option};

    ghost Value = { List (Option X) };

    ghost coded = { coded_list (coded_option X.code) };

    ghost use Rattle.kept_places.specs.Rising.{AreRising, spread};

    ghost view = { λ places. spread places.made places.there.items };

    ghost invariant = { λ places. AreRising 0 places.made places.there.items };
}

impl<X: Drop> Places<X> {
    ghost use Rattle.kept_places.specs.Lending.{lends_what};

    /// No place was given yet.
    pub fn new(alloc: Global) -> Places<X>
        ensures { result ≡ [] }
    {
        Places {
            made: 0,
            there: Vec::new(alloc),
        }
    }

    /// How many places were given, those whose things have gone among them.
    pub fn made(&self) -> u32
        ensures { result ≡ length self.now }
    {
        self.made
    }

    /// Gives a thing the next place, and tells it. Where the host has no memory the thing goes, and no place was given.
    pub fn push(&mut self, what: X) -> Result<u32, Memory>
        requires { length self.old + 1 < 2 ^ 32 }
        ensures place { IfOk result (λ place. place ≡ length self.old) }
        ensures pushed { OnOk result (self.new ≡ self.old ++ Some what ∷ []) }
        ensures kept { OnErr result (self.new ≡ self.old) }
    {
        let place = self.made;
        self.there.push(Kept { place, what })?;
        self.made += 1;
        Ok(place)
    }

    /// What is at a place; None where it has gone, and behind the last place that was given.
    pub fn get(&self, place: u32) -> Option<&X>
        ensures { option_copied result ≡ at self.now place }
    {
        let index = index_of(&self.there, place)?;
        Some(&self.there[index].what)
    }

    /// Lends what is at a place to be changed.
    pub fn get_mut(&mut self, place: u32) -> &mut X
        requires { IsThere self.old place }
        ensures* writes_back { sem 𝓛 (lends_what X.row self.entry place result) }
        ensures value { at self.old place ≡ Some result.now }
    {
        match index_of(&self.there, place) {
            Some(index) => &mut self.there[index].what,
            None => unreachable!(),
        }
    }

    /// Takes what is at a place, which is empty from then on; None, and nothing changes, where nothing is there.
    pub fn remove(&mut self, place: u32) -> Option<X>
        ensures taken { result ≡ at self.old place }
        ensures left { self.new ≡ without self.old place }
    {
        let index = index_of(&self.there, place)?;
        Some(self.there.remove(index).what)
    }

    /// All that is there, each with its place, the lowest first.
    pub fn there(&self) -> &[Kept<X>]
        ensures { result.now ≡ there_from 0 self.now }
    {
        self.there.as_slice()
    }
}
