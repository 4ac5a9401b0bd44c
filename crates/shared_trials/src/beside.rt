//! The kernel's value beside a seat that holds a part of the charge word.

ghost use Rattle.std.specs.Prelude.{◌≡◌, ◌≤◌, ◌+◌, List, true, OnOk};
ghost use Rattle.posix_defs.specs.Sizes.{fixed};
ghost use Rattle.shared_trials.specs.Pair.{pair};
ghost use Rattle.turn_words.specs.declared.items.Item.{Item as AnItem};

use crate::pair::{Pair, at_boot};
use charge_words::{Charge, ChargeSeat, Reserved};
use kabi_types::{Call, Memory};
use kern_events::Relief;
use kern_shared::{KernelState, Picked, RunName};
use std::alloc::Global;
use std::marker::Brand;
use std::test::Fail;
use turn_words::{Chronicle, Item};

/// Helps while another seat holds 5000 bytes, and again once it has given them back: what is told each time, and passed on.
fn helps_twice<L: RunName>(
    state: &mut KernelState<Pair, L>,
    word: &Charge,
    own: &mut ChargeSeat,
    other: &mut ChargeSeat,
) -> ((Relief, Item), (Relief, Item))
    requires stands { (items : List AnItem) × ⟦<KernelState<Pair, L> as Chronicle>⟧.stands state.old items }
    requires word { word.now ≡ L.charge }
    requires own { (own.old.charge ≡ L.charge) × (other.old.charge ≡ L.charge) }
    requires holds { 5000 ≤ other.old.known.holds }
{
    let beside = state.relieve_now(word, own);
    word.give_back(other, 5000);
    (beside, state.relieve_now(word, own))
}

/// Whether the first process's call is told what is outstanding, and then that it fits.
fn tells_what_is_outstanding<L: RunName>(
    alloc: Global,
    word: &Charge,
    seat: ChargeSeat,
    own: &mut ChargeSeat,
    other: &mut ChargeSeat,
) -> Result<bool, Memory>
    requires script { L.script ≡ pair 8192 }
    requires steps { L.steps ≡ 10 }
    requires word { (word.now ≡ L.charge) × (word.now.heap ≡ 8192) }
    requires seat { (seat.charge ≡ L.charge) × (seat.known.is_boot ≡ true) × (seat.known.holds ≡ fixed) }
    requires own { (own.old.charge ≡ L.charge) × (other.old.charge ≡ L.charge) }
    requires holds { 5000 ≤ other.old.known.holds }
{
    let mut state = KernelState::<Pair, L>::boot(alloc, at_boot(8192), 10, 8192, seat)?;
    let picked = state.pick_next();
    let (beside, alone) = helps_twice(&mut state, word, own, other);
    drop(state);
    let given = matches!(
        picked,
        Picked::Run {
            pid: 1,
            call: Call::Fork,
        }
    );
    let waits = matches!(
        beside,
        (
            Relief::Outstanding {
                charged: 7816,
                live: 640,
            },
            Item::Live(640),
        )
    );
    Ok(given && waits && matches!(alone, (Relief::Fits(1), Item::Quiet)))
}

/// Reserves where no other thread steps and there is room.
pub(crate) fn reserve(word: &Charge, seat: &mut ChargeSeat, n: u64) -> Result<(), Fail>
    requires { seat.old.charge ≡ word.now }
    ensures charge { seat.new.charge ≡ seat.old.charge }
    ensures holds { OnOk result (seat.new.known.holds ≡ seat.old.known.holds + n) }
{
    match word.try_reserve(seat, n) {
        Reserved::Granted => Ok(()),
        Reserved::Short { .. } => Err("there is no room".into()),
        Reserved::Raced { .. } => Err("another seat stepped".into()),
    }
}

#[test]
fn what_another_seat_holds_is_outstanding(rt: HostRuntime) -> Result<(), Fail> {
    let (word, mut seat) = Charge::boot(rt.alloc(), 8192)?;
    let mut own = word.split(&mut seat);
    let mut other = word.split(&mut seat);
    reserve(&word, &mut other, 5000)?;
    assert!(rt; tells_what_is_outstanding::<Brand>(rt.alloc(), &word, seat, &mut own, &mut other)?);
    Ok(())
}
