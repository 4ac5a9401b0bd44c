//! A chain of items, the coldest first: a table that has at each place in use an item, with the
//! places that stand beside it in the chain.
//!
//! Each call reads and writes a few places of the table, and never goes along the chain.
ghost use Rattle.std.specs.Prelude.{◌≡◌, ℕ, ◌+◌, ◌<◌, ◌≤◌, List, [], ◌∷◌, ◌++◌, None, Some, Option, IfOk, IsSome, cond, length, nat_eq, slice_set, vec_len, vec_capacity};
ghost use Rattle.std.specs.Option.{option_map, option_and_then};
ghost use Rattle.std.specs.Map.{lookup, remove_entry};
ghost use Rattle.lru_index.specs.Chain.{IsChain, link_at, item_at, first_item, last_item, hits, end_after, with_warmer, with_colder};
ghost use Rattle.lru_index.specs.Order.{touched, warmer};

use kabi_types::Memory;
use std::alloc::Global;

/// An item, and the places of those that were used just before it and just after it.
#[derive(Clone, Copy)]
pub struct Link<T: Copy> {
    pub item: T,
    pub colder: Option<u32>,
    pub warmer: Option<u32>,
}

/// The links by their places, and the places of the two ends of the chain.
#[derive(Drop)]
pub struct Chain<T: Copy> {
    links: Vec<Option<Link<T>>>,
    coldest: Option<u32>,
    warmest: Option<u32>,
}

impl<T: Copy> Chain<T> {
    /// A chain with no item, and room for so many places. It has none yet.
    pub fn boot(alloc: Global, places: u32) -> Result<Chain<T>, Memory>
        ensures empty { IfOk result (λ chain. IsChain chain []) }
        ensures places { IfOk result (λ chain. vec_len chain.links ≡ 0) }
        ensures room { IfOk result (λ chain. places ≤ vec_capacity chain.links) }
    {
        let links = Vec::with_capacity(alloc, places as usize)?;
        Ok(Chain {
            links,
            coldest: None,
            warmest: None,
        })
    }

    /// How many places it has.
    pub fn places(&self) -> usize
        ensures { result ≡ vec_len self.now.links }
    {
        self.links.len()
    }

    /// One place more, which is free.
    pub fn grow(&mut self)
        requires { vec_len self.old.links < vec_capacity self.old.links }
        ensures kept { (items : List (ℕ × T)) → IsChain self.old items → IsChain self.new items }
        ensures places { vec_len self.new.links ≡ vec_len self.old.links + 1 }
        ensures capacity { vec_capacity self.new.links ≡ vec_capacity self.old.links }
        ensures free { link_at self.new.links.items (vec_len self.old.links) ≡ None }
    {
        self.links.push_reserved(None);
    }

    /// The item of a place, or None where it is free.
    pub fn item(&self, place: u32) -> Option<T>
        ensures { (items : List (ℕ × T)) → IsChain self.now items
            → result ≡ lookup (nat_eq place) items }
    {
        match self.link(place) {
            Some(link) => Some(link.item),
            None => None,
        }
    }

    /// The coldest item.
    pub fn coldest(&self) -> Option<T>
        ensures { (items : List (ℕ × T)) → IsChain self.now items → result ≡ first_item items }
    {
        self.item_of(self.coldest)
    }

    /// The warmest item.
    pub fn warmest(&self) -> Option<T>
        ensures { (items : List (ℕ × T)) → IsChain self.now items → result ≡ last_item None items }
    {
        self.item_of(self.warmest)
    }

    /// The item that was used just after that of a place, if there is one.
    pub fn warmer(&self, place: u32) -> Option<T>
        ensures { (items : List (ℕ × T)) → IsChain self.now items
            → result ≡ first_item (warmer (nat_eq place) items) }
    {
        match self.link(place) {
            Some(link) => self.item_of(link.warmer),
            None => None,
        }
    }

    // The item of a place that may be given.
    fn item_of(&self, place: Option<u32>) -> Option<T>
        ensures { result ≡ option_and_then (item_at self.now.links.items) place }
    {
        match place {
            Some(place) => match self.link(place) {
                Some(link) => Some(link.item),
                None => None,
            },
            None => None,
        }
    }

    /// Puts an item at a free place, at the warm end.
    pub fn add(&mut self, place: u32, item: T)
        requires within { place < vec_len self.old.links }
        requires free { link_at self.old.links.items place ≡ None }
        ensures added { (items : List (ℕ × T)) → IsChain self.old items
            → IsChain self.new (items ++ (place, item) ∷ []) }
        ensures places { vec_len self.new.links ≡ vec_len self.old.links }
        ensures capacity { vec_capacity self.new.links ≡ vec_capacity self.old.links }
    {
        let colder = self.warmest;
        self.set_warmer(colder, Some(place));
        let last = Link {
            item,
            colder,
            warmer: None,
        };
        self.set_link(place, Some(last));
        self.warmest = Some(place);
    }

    /// Takes the item of a place in use out; the place is free from then on.
    pub fn remove(&mut self, place: u32) -> T
        requires there { IsSome (link_at self.old.links.items place) }
        ensures item { (items : List (ℕ × T)) → IsChain self.old items
            → lookup (nat_eq place) items ≡ Some result }
        ensures removed { (items : List (ℕ × T)) → IsChain self.old items
            → IsChain self.new (remove_entry (nat_eq place) items) }
        ensures places { vec_len self.new.links ≡ vec_len self.old.links }
        ensures capacity { vec_capacity self.new.links ≡ vec_capacity self.old.links }
        ensures free { link_at self.new.links.items place ≡ None }
    {
        let Some(gone) = self.link(place) else {
            unreachable!()
        };
        self.set_link(place, None);
        self.set_warmer(gone.colder, gone.warmer);
        self.set_colder(gone.warmer, gone.colder);
        gone.item
    }

    /// Moves the item of a place in use to the warm end, and answers it.
    pub fn warm(&mut self, place: u32) -> T
        requires there { IsSome (link_at self.old.links.items place) }
        ensures item { (items : List (ℕ × T)) → IsChain self.old items
            → lookup (nat_eq place) items ≡ Some result }
        ensures warmed { (items : List (ℕ × T)) → IsChain self.old items
            → IsChain self.new (touched (nat_eq place) items) }
        ensures places { vec_len self.new.links ≡ vec_len self.old.links }
        ensures capacity { vec_capacity self.new.links ≡ vec_capacity self.old.links }
    {
        let item = self.remove(place);
        self.add(place, item);
        item
    }

    /// What stands at a place.
    fn link(&self, place: u32) -> Option<Link<T>>
        ensures value { result ≡ link_at self.now.links.items place }
        ensures within { IsSome result → place < vec_len self.now.links }
    {
        match self.links.get(place as usize) {
            Some(link) => *link,
            None => None,
        }
    }

    fn set_link(&mut self, place: u32, link: Option<Link<T>>)
        requires { place < vec_len self.old.links }
        ensures links { self.new.links.items ≡ slice_set self.old.links.items place link }
        ensures places { vec_len self.new.links ≡ vec_len self.old.links }
        ensures capacity { vec_capacity self.new.links ≡ vec_capacity self.old.links }
        ensures coldest { self.new.coldest ≡ self.old.coldest }
        ensures warmest { self.new.warmest ≡ self.old.warmest }
    {
        self.links[place as usize] = link;
    }

    /// Links a place to what is used just after it, or names the coldest where no place is given.
    fn set_warmer(&mut self, of: Option<u32>, to: Option<u32>)
        ensures links { (other : ℕ)
            → link_at self.new.links.items other ≡ cond (hits of other)
            (option_map (with_warmer to) (link_at self.old.links.items other))
            (link_at self.old.links.items other) }
        ensures places { vec_len self.new.links ≡ vec_len self.old.links }
        ensures capacity { vec_capacity self.new.links ≡ vec_capacity self.old.links }
        ensures coldest { self.new.coldest ≡ end_after of to self.old.coldest }
        ensures warmest { self.new.warmest ≡ self.old.warmest }
    {
        let Some(place) = of else {
            self.coldest = to;
            return;
        };
        if let Some(mut linked) = self.link(place) {
            linked.warmer = to;
            self.set_link(place, Some(linked));
        }
    }

    /// Links a place to what is used just before it, or names the warmest where no place is given.
    fn set_colder(&mut self, of: Option<u32>, to: Option<u32>)
        ensures links { (other : ℕ)
            → link_at self.new.links.items other ≡ cond (hits of other)
            (option_map (with_colder to) (link_at self.old.links.items other))
            (link_at self.old.links.items other) }
        ensures places { vec_len self.new.links ≡ vec_len self.old.links }
        ensures capacity { vec_capacity self.new.links ≡ vec_capacity self.old.links }
        ensures coldest { self.new.coldest ≡ self.old.coldest }
        ensures warmest { self.new.warmest ≡ end_after of to self.old.warmest }
    {
        let Some(place) = of else {
            self.warmest = to;
            return;
        };
        if let Some(mut linked) = self.link(place) {
            linked.colder = to;
            self.set_link(place, Some(linked));
        }
    }
}
