ghost use Rattle.std.specs.Prelude.{◌≡◌, ◌+◌, ◌<◌, ◌≤◌, ◌++◌, [], ◌∷◌, length, IfOk, None, Some, replicate, slice_index_or, vec_len, vec_capacity};
ghost use Rattle.std.specs.Borrow.{sem};
ghost use Rattle.kheap_slabs.specs.Objects.{object, InUse, count, put, without};
ghost use Rattle.kheap_slabs.specs.Places.{TakesPlace, TakesKey};
ghost use Rattle.slab.specs.Slab.{ContainsKey, HasRoomFor};

mod pages;
mod processes;

use crate::Name;
use slab::Slab;
use std::alloc::{AllocError, Global};
use std::marker::Model;

/// The objects of one class, under the keys from 0 below a limit that is fixed at boot.
///
/// The slab picks places of its own, which nothing bounds, so a table has the place of each key. The table grows as
/// keys are given out for the first time, the lowest first: boot reserves its memory and writes none of it.
#[derive(Drop)]
pub struct Shelf<T> {
    slab: Slab<T>,
    // Of each key that was ever given out.
    places: Vec<Option<usize>>,
    // The keys that were given out and have no object any more. The last is the next to be given out.
    free: Vec<u32>,
    // Places of the slab whose objects are no key's any more. They are used again first; to remove such an object would clear
    // all its bytes.
    spare: Vec<usize>,
    // How many keys there are, given out or not.
    limit: u32,
}

impl<T> Model for Shelf<T> {
    ghost use Rattle.std.specs.Prelude.{List, Option, vec_capacity};
    ghost use Rattle.std.specs.Coded.{coded_list, coded_option};

    ghost Value = { List (Option T) };

    ghost coded = { coded_list (coded_option T.code) };

    ghost use Rattle.kheap_slabs.specs.Places.{shelved, all_places, IsShelf};

    ghost view = { λ shelf. shelved shelf.slab (all_places shelf.limit shelf.places.items) };

    ghost invariant = { λ shelf.
        IsShelf shelf.slab shelf.limit shelf.places.items (vec_capacity shelf.places) shelf.free.items (vec_capacity shelf.free) shelf.spare.items (vec_capacity shelf.spare) };
}

// The place of a key that has one.
fn place_at(places: &[Option<usize>], key: u32) -> usize
    requires { InUse places.now key }
    ensures { object places.now key ≡ Some result }
{
    match places[key as usize] {
        Some(place) => place,
        None => unreachable!(),
    }
}

// Takes its place from a key that has one; the key is free from then on.
fn let_go(places: &mut Vec<Option<usize>>, free: &mut Vec<u32>, key: u32) -> usize
    requires used { InUse places.old.items key }
    requires room { vec_len free.old < vec_capacity free.old }
    ensures place { object places.old.items key ≡ Some result }
    ensures gone { places.new.items ≡ without places.old.items key }
    ensures freed { free.new.items ≡ free.old.items ++ key ∷ [] }
    ensures capacity { vec_capacity free.new ≡ vec_capacity free.old }
    ensures places_capacity { vec_capacity places.new ≡ vec_capacity places.old }
{
    let place = place_at(places, key);
    places[key as usize] = None;
    free.push_reserved(key);
    place
}

// Puts an object in the last spare place, or in a new one where none is spare.
fn put_in<T: Drop>(slab: &mut Slab<T>, spare: &mut Vec<usize>, value: T) -> usize
    requires left_there { (i : _) → i < vec_len spare.old → ContainsKey slab.old (slice_index_or spare.old.items i 0) }
    requires room { vec_len spare.old ≡ 0 → HasRoomFor slab.old 1 }
    ensures takes { TakesPlace slab.old slab.new spare.old.items spare.new.items result value }
    ensures capacity { slab.new.capacity ≡ slab.old.capacity }
    ensures spare_room { vec_capacity spare.new ≡ vec_capacity spare.old }
{
    match spare.pop() {
        Some(place) => {
            slab[place] = value;
            place
        }
        None => slab.insert_reserved(value),
    }
}

// Gives a key out for an object at this place: one that was given out before, or where none is free the lowest that never was.
fn take_key(places: &mut Vec<Option<usize>>, free: &mut Vec<u32>, place: usize) -> u32
    requires given { (i : _) → i < vec_len free.old → slice_index_or free.old.items i 0 < vec_len places.old }
    requires few { vec_len places.old ≤ 4294967295 }
    requires room { vec_len free.old ≡ 0 → vec_len places.old < vec_capacity places.old }
    ensures takes { TakesKey places.old.items places.new.items free.old.items free.new.items result place }
    ensures capacity { vec_capacity places.new ≡ vec_capacity places.old }
    ensures free_capacity { vec_capacity free.new ≡ vec_capacity free.old }
{
    match free.pop() {
        Some(key) => {
            places[key as usize] = Some(place);
            key
        }
        None => {
            let key = places.len() as u32;
            places.push_reserved(Some(place));
            key
        }
    }
}

impl<T: Drop> Shelf<T> {
    ghost use Rattle.kheap_slabs.specs.Lending.{lends_object};

    /// An empty shelf with room for `limit` objects.
    pub fn boot(alloc: Global, limit: u32) -> Result<Shelf<T>, AllocError>
        ensures empty { IfOk result (λ shelf. shelf ≡ replicate limit None) }
        ensures counted { IfOk result (λ shelf. count shelf ≡ 0) }
        ensures len { IfOk result (λ shelf. length shelf ≡ limit) }
    {
        let slab = Slab::with_capacity(alloc, limit as usize)?;
        let places = Vec::with_capacity(alloc, limit as usize)?;
        let free = Vec::with_capacity(alloc, limit as usize)?;
        let spare = Vec::with_capacity(alloc, limit as usize)?;
        Ok(Shelf {
            slab,
            places,
            free,
            spare,
            limit,
        })
    }

    /// Puts the object under a key that was free.
    pub fn insert(&mut self, value: T) -> u32
        requires { count self.old < length self.old }
        ensures in_range { result < length self.old }
        ensures vacant { object self.old result ≡ None }
        ensures stored { object self.new result ≡ Some value }
        ensures kept { self.new ≡ put self.old result value }
        ensures counted { count self.new ≡ count self.old + 1 }
        ensures len { length self.new ≡ length self.old }
    {
        let place = put_in(&mut self.slab, &mut self.spare, value);
        take_key(&mut self.places, &mut self.free, place)
    }

    /// The object of a key.
    pub fn get(&self, key: u32) -> &T
        requires { InUse self.now key }
        ensures value { object self.now key ≡ Some result.now }
    {
        &self.slab[place_at(&self.places, key)]
    }

    /// Lends the object of a key to be changed.
    pub fn get_mut(&mut self, key: u32) -> &mut T
        requires { InUse self.old key }
        ensures* writes_back { sem 𝓛 (lends_object T.row self.entry key result) }
        ensures value { object self.old key ≡ Some result.now }
    {
        let place = place_at(&self.places, key);
        &mut self.slab[place]
    }

    /// Puts another object under a key in use.
    pub fn set(&mut self, key: u32, value: T)
        requires { InUse self.old key }
        ensures stored { object self.new key ≡ Some value }
        ensures kept { self.new ≡ put self.old key value }
        ensures counted { count self.new ≡ count self.old }
        ensures len { length self.new ≡ length self.old }
    {
        *self.get_mut(key) = value;
    }
}

impl<T: Copy> Shelf<T> {
    /// Takes the object of a key out; the key is free from then on.
    pub fn free(&mut self, key: u32) -> T
        requires { InUse self.old key }
        ensures value { object self.old key ≡ Some result }
        ensures gone { object self.new key ≡ None }
        ensures kept { self.new ≡ without self.old key }
        ensures counted { count self.new + 1 ≡ count self.old }
        ensures len { length self.new ≡ length self.old }
    {
        let place = let_go(&mut self.places, &mut self.free, key);
        self.spare.push_reserved(place);
        self.slab[place]
    }
}

impl Shelf<Name> {
    /// Takes the name of a key out; the key is free from then on. A name isn't copied, so its place in the slab is emptied.
    pub fn take_out(&mut self, key: u32) -> Name
        requires { InUse self.old key }
        ensures value { object self.old key ≡ Some result }
        ensures gone { object self.new key ≡ None }
        ensures kept { self.new ≡ without self.old key }
        ensures counted { count self.new + 1 ≡ count self.old }
        ensures len { length self.new ≡ length self.old }
    {
        let place = let_go(&mut self.places, &mut self.free, key);
        self.slab.remove(place)
    }
}
