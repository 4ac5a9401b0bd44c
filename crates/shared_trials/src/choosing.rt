//! Who chooses among events.

use kabi_types::{Chooser, Numbers};
use kern_core::Choosing;
use std::alloc::{AllocError, Global};
use std::test::Fail;

/// Whether the chooser gives these numbers one after another.
fn gives(chooser: &Chooser, wanted: &[Option<u32>]) -> bool {
    let mut choosing = Choosing::of(chooser);
    for number in wanted {
        let (given, rest) = choosing.next();
        if given != *number {
            return false;
        }
        choosing = rest;
    }
    true
}

/// By hand: 1103515245 * 7 + 12345 is 1282168116 modulo 2147483648, and that is 19564 * 65536 + 21812.
const SEEDS: &[(u32, &[Option<u32>])] = &[
    (7, &[Some(19564)]),
    (1, &[Some(16838), Some(5758), Some(10113), Some(17515)]),
    (0, &[Some(0), Some(21468)]),
];

#[test]
fn a_seed_gives_the_numbers_of_its_generator(rt: HostRuntime) {
    for (seed, wanted) in SEEDS {
        assert!(rt; gives(&Chooser::Seed(*seed), *wanted), "from {seed}");
    }
}

const CHOICES: &[(&[u32], &[Option<u32>])] = &[
    (&[4294967295], &[Some(4294967295), None, None]),
    (&[3, 1, 4], &[Some(3), Some(1), Some(4), None, None]),
];

/// Whether each choice gives its numbers.
fn choices_give(alloc: Global) -> Result<bool, AllocError> {
    for (numbers, wanted) in CHOICES {
        let chooser = Chooser::Choices(Numbers::from_vec(numbers.to_vec(alloc)?));
        if !gives(&chooser, *wanted) {
            return Ok(false);
        }
    }
    Ok(true)
}

#[test]
fn choices_come_in_their_order_and_then_the_default(rt: HostRuntime) -> Result<(), Fail> {
    let given = choices_give(rt.alloc())?;
    assert!(rt; given && gives(&Chooser::Plain, &[None, None]));
    Ok(())
}
