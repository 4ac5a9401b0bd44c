//! The order of use, by hand.

use kabi_types::Name27;
use lru_index::{Index, NameKey};
use std::test::Fail;

#[test]
fn touched_key_is_the_warmest(rt: HostRuntime) -> Result<(), Fail> {
    let mut index = Index::boot(rt.alloc(), 2)?;
    index.put(5u64, 0);
    index.put(7, 1);
    index.touch(5);
    assert!(rt; index.coldest(None) == Some(7));
    assert!(rt; index.coldest(Some(7)) == Some(5));
    assert!(rt; index.coldest(Some(5)) == None);
    assert!(rt; index.find(7) == Some(1));
    assert!(rt; index.used(7) == Some(1));
    assert!(rt; index.coldest(None) == Some(5));
    assert!(rt; index.used(6) == None);
    index.touch(5);
    assert!(rt; index.drop_key(7) == 1);
    assert!(rt; index.find(7) == None);
    assert!(rt; index.coldest(None) == Some(5));
    drop(index);
    Ok(())
}

#[test]
fn the_only_place_is_used_again(rt: HostRuntime) -> Result<(), Fail> {
    let mut index = Index::boot(rt.alloc(), 1)?;
    assert!(rt; index.coldest(None) == None);
    index.put(5u64, 3);
    assert!(rt; index.is_full());
    assert!(rt; index.coldest(None) == Some(5));
    assert!(rt; index.coldest(Some(5)) == None);
    assert!(rt; index.used(5) == Some(3));
    assert!(rt; index.drop_key(5) == 3);
    assert!(rt; index.find(5) == None);
    index.put(6, 9);
    assert!(rt; index.find(6) == Some(9));
    assert!(rt; index.coldest(None) == Some(6));
    drop(index);
    Ok(())
}

#[test]
fn a_name_and_the_same_with_a_zero_behind_it_have_two_keys(rt: HostRuntime) -> Result<(), Fail> {
    let short = Name27::of(b"ab").ok_or("too long")?;
    let long = Name27::of(b"ab\0").ok_or("too long")?;
    let key = NameKey::of(7, &short);
    assert!(rt; key.dir == 7 && key.len == 2 && key.name[..3] == [97, 98, 0]);
    assert!(rt; key == NameKey::of(7, &short) && key != NameKey::of(8, &short));
    assert!(rt; key != NameKey::of(7, &long));
    Ok(())
}
