//! Places that are given in order, by hand.

use kabi_types::Memory;
use kept_places::{Kept, Places};
use std::alloc::Global;
use std::test::Fail;

/// The places 0 to 3, of which the first and the third have a thing still.
fn two_of_four(alloc: Global) -> Result<Places<u64>, Memory> {
    let mut places = Places::new(alloc);
    places.push(10)?;
    places.push(11)?;
    places.push(12)?;
    places.push(13)?;
    places.remove(1);
    places.remove(3);
    Ok(places)
}

/// Whether a thing stands there under that place.
fn stands(there: &[Kept<u64>], index: usize, place: u32, what: u64) -> bool {
    match there.get(index) {
        Some(kept) => kept.place == place && kept.what == what,
        None => false,
    }
}

#[test]
fn what_went_leaves_its_place_empty(rt: HostRuntime) -> Result<(), Fail> {
    let places = two_of_four(rt.alloc())?;
    assert!(rt; places.made() == 4);
    assert!(rt; places.get(0) == Some(&10));
    assert!(rt; places.get(1) == None);
    assert!(rt; places.get(2) == Some(&12));
    assert!(rt; places.get(3) == None);
    assert!(rt; places.get(4) == None);
    Ok(())
}

#[test]
fn places_are_given_in_order_and_never_again(rt: HostRuntime) -> Result<(), Fail> {
    let mut places = Places::new(rt.alloc());
    assert!(rt; places.push(10u64)? == 0);
    assert!(rt; places.push(11)? == 1);
    assert!(rt; places.remove(1) == Some(11));
    assert!(rt; places.push(12)? == 2);
    assert!(rt; places.remove(2) == Some(12));
    assert!(rt; places.remove(2) == None);
    assert!(rt; places.remove(9) == None);
    assert!(rt; places.made() == 3);
    Ok(())
}

#[test]
fn what_is_there_stands_by_rising_places(rt: HostRuntime) -> Result<(), Fail> {
    let mut places = two_of_four(rt.alloc())?;
    if places.get(2).is_some() {
        *places.get_mut(2) = 20;
    }
    let there = places.there();
    assert!(rt; there.len() == 2);
    assert!(rt; stands(there, 0, 0, 10) && stands(there, 1, 2, 20));
    Ok(())
}
