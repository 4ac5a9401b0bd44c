ghost use Rattle.std.specs.Prelude.{◌≡◌, ◌+◌, ◌-◌, ◌<◌, [], ◌∷◌, ◌++◌, length, slice_index_or, remove};
ghost use Rattle.kabi_types.specs.Class.{size};
ghost use Rattle.kabi_types.specs.Counts.{counted, with_count, need_bytes};
ghost use Rattle.kheap_slabs.specs.Purse.{fills_of, with_fills, IsCached, left_bytes};

use arrayvec::ArrayVec;
use kabi_types::{Class, Need};
use std::marker::Model;

/// What a call may still make: so many objects of each class. It also keeps the keys of what was
/// filled through it.
#[derive(Drop)]
pub struct Purse {
    need: Need,
    left: Need,
    vnodes: ArrayVec<u32, 4>,
    names: ArrayVec<u32, 4>,
    blocks: ArrayVec<u32, 4>,
}

impl Model for Purse {
    ghost use Rattle.kheap_slabs.specs.Purse.{Purse as Counts};

    ghost Value = { Counts };

    ghost view = { λ p. record {
      need = p.need;
      left = p.left;
      vnodes = p.vnodes.items;
      names = p.names.items;
      blocks = p.blocks.items;
    } };
}

impl Purse {
    /// A purse that has left what the need counts, and has filled nothing.
    pub fn of(need: Need) -> Purse
        ensures value { result
            ≡ record { need = need; left = need; vnodes = []; names = []; blocks = [] } }
        ensures bytes { left_bytes result ≡ need_bytes need }
    {
        Purse {
            need,
            left: need,
            vnodes: ArrayVec::new(),
            names: ArrayVec::new(),
            blocks: ArrayVec::new(),
        }
    }

    /// How many objects of the class may still be made.
    pub fn left(&self, class: Class) -> u32
        ensures { result ≡ counted self.now.left class }
    {
        self.left.count(class)
    }

    /// Counts one object of the class as made.
    pub fn spend(&mut self, class: Class)
        requires { 0 < counted self.old.left class }
        ensures kept { self.new
            ≡ record self.old {
              left = with_count self.old.left class (counted self.old.left class - 1);
            } }
        ensures bytes { left_bytes self.new + size class ≡ left_bytes self.old }
    {
        let left = self.left.count(class);
        self.left = self.left.with_count(class, left - 1);
    }

    /// Takes one object of the class, that was spent, back.
    pub fn give(&mut self, class: Class)
        requires { counted self.old.left class < counted self.old.need class }
        ensures kept { self.new
            ≡ record self.old {
              left = with_count self.old.left class (counted self.old.left class + 1);
            } }
        ensures bytes { left_bytes self.new ≡ left_bytes self.old + size class }
    {
        let left = self.left.count(class);
        let most = self.need.count(class);
        prove!(left < most);
        self.left = self.left.with_count(class, left + 1);
    }

    /// The keys of the class that were filled through the purse, the one that was filled first at
    /// the front. Only names, blocks and vnodes are filled.
    pub fn fills(&self, class: Class) -> &[u32]
        ensures { result.now ≡ fills_of self.now class }
    {
        match class {
            Class::Vnode => self.vnodes.as_slice(),
            Class::Name => self.names.as_slice(),
            Class::Block => self.blocks.as_slice(),
            _ => &[],
        }
    }

    /// Keeps a key that was filled, behind the others. At most 4 of a class are kept.
    pub fn add_fill(&mut self, class: Class, key: u32)
        requires cached { IsCached class }
        requires room { length (fills_of self.old class) < 4 }
        ensures { self.new ≡ with_fills self.old class (fills_of self.old class ++ key ∷ []) }
    {
        match class {
            Class::Vnode => self.vnodes.push(key),
            Class::Name => self.names.push(key),
            Class::Block => self.blocks.push(key),
            _ => unreachable!(),
        }
    }

    /// Forgets the key at a place, which it gives. Those behind it move up by one place.
    pub fn drop_fill(&mut self, class: Class, at: u32) -> u32
        requires { at < length (fills_of self.old class) }
        ensures key { result ≡ slice_index_or (fills_of self.old class) at 0 }
        ensures kept { self.new ≡ with_fills self.old class (remove (fills_of self.old class) at) }
    {
        match class {
            Class::Vnode => self.vnodes.remove(at as usize),
            Class::Name => self.names.remove(at as usize),
            Class::Block => self.blocks.remove(at as usize),
            _ => unreachable!(),
        }
    }
}
