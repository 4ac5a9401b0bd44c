//! A worked use of turns: a seat is given a process in one turn, and gives it back in its next one.
ghost use Rattle.std.specs.Prelude.{◌≡◌, true, false, IfOk, IfSome};
ghost use Rattle.turn_words.specs.Items.{holds};

use kabi_types::Memory;
use std::alloc::Global;
use std::test::Fail;
use turn_words::{Chronicle, Item, TurnSeat, Turns};

/// A value that keeps which process is given out.
#[derive(Drop)]
struct Desk {
    given: Option<u32>,
}

impl Chronicle for Desk {
    ghost use Rattle.shared_trials.specs.Desk.{IsDesk};

    ghost stands = { λ desk items. IsDesk desk.given items };
}

/// Gives the process to the seat, where the seat is served at once and nobody has been given one.
fn give(turns: &Turns<Desk>, seat: &mut TurnSeat<Desk>, pid: u32) -> bool
    requires turns { seat.old.turns ≡ turns.now }
    requires free { seat.old.known.has_ticket ≡ false }
    ensures turns { seat.new.turns ≡ seat.old.turns }
    ensures given { result ≡ true → (seat.new.known.has_ticket ≡ false) × (holds pid seat.new.known.mine ≡ true) }
{
    turns.draw(seat);
    if !turns.look(seat) {
        return false;
    }
    let mut desk = turns.take(seat);
    if desk.given.is_some() {
        turns.put(seat, desk);
        turns.pass_on(seat, Item::Quiet);
        return false;
    }
    desk.given = Some(pid);
    turns.put(seat, desk);
    turns.pass_on(seat, Item::Given(pid));
    true
}

/// Gives back the process that the seat holds, and answers which one the desk had given out. None where the seat isn't
/// served at once.
fn give_back(turns: &Turns<Desk>, seat: &mut TurnSeat<Desk>, pid: u32) -> Option<u32>
    requires turns { seat.old.turns ≡ turns.now }
    requires free { seat.old.known.has_ticket ≡ false }
    requires held { holds pid seat.old.known.mine ≡ true }
    ensures turns { seat.new.turns ≡ seat.old.turns }
    ensures found { IfSome result (λ given. (given ≡ pid) × (seat.new.known.has_ticket ≡ false)) }
{
    turns.draw(seat);
    if !turns.look(seat) {
        return None;
    }
    let mut desk = turns.take(seat);
    let given = desk.given;
    desk.given = None;
    turns.put(seat, desk);
    turns.pass_on(seat, Item::Back(pid));
    given
}

/// Two turns of one seat.
fn give_and_give_back(turns: &Turns<Desk>, seat: &mut TurnSeat<Desk>, pid: u32) -> Option<u32>
    requires turns { seat.old.turns ≡ turns.now }
    requires free { seat.old.known.has_ticket ≡ false }
    ensures turns { seat.new.turns ≡ seat.old.turns }
    ensures found { IfSome result (λ given. (given ≡ pid) × (seat.new.known.has_ticket ≡ false)) }
{
    if give(turns, seat, pid) {
        give_back(turns, seat, pid)
    } else {
        None
    }
}

/// What a seat was given is what the value has given out when that seat gives it back, whoever had a turn in between. The
/// answer is that process; None where a ticket wasn't served at once, which doesn't come with one thread.
fn given_and_given_back(alloc: Global, pid: u32) -> Result<Option<u32>, Memory>
    ensures { IfOk result (λ found. IfSome found (λ given. given ≡ pid)) }
{
    let (turns, mut boot) = Turns::boot(alloc, Desk { given: None })?;
    let mut seat = turns.split(&mut boot);
    let Some(found) = give_and_give_back(&turns, &mut seat, pid) else {
        return Ok(None);
    };
    turns.join(seat, &mut boot);
    let _desk = turns.close(boot);
    Ok(Some(found))
}

#[test]
fn what_is_given_is_given_back(rt: HostRuntime) -> Result<(), Fail> {
    assert!(rt; given_and_given_back(rt.alloc(), 7)? == Some(7));
    Ok(())
}
