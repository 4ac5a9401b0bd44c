ghost use Rattle.std.specs.Prelude.{◌≡◌, true, false};

use std::sync::Wait;
use std::test::Fail;
use std::thread;
use std::thread::{Threads, join};
use turn_words::{Chronicle, Item, TurnSeat, Turns};

/// A value that keeps its own items: the numbers that were told, in order.
#[derive(Drop)]
struct Diary {
    page: u64,
    told: Vec<u64>,
}

impl Chronicle for Diary {
    ghost use Rattle.std.specs.Prelude.{◌≡◌, map};
    ghost use Rattle.turn_words.specs.declared.items.Item.TheVariants.{Live};

    ghost stands = { λ diary items. items ≡ map Live diary.told.items };
}

/// Passes the turn on with nothing told.
fn pass_quietly(turns: &Turns<Diary>, seat: &mut TurnSeat<Diary>) -> u64
    requires turns { seat.old.turns ≡ turns.now }
    requires turn { (seat.old.known.has_turn ≡ true) × (seat.old.known.is_out ≡ false) × (seat.old.known.has_put ≡ false) }
    ensures turns { seat.new.turns ≡ seat.old.turns }
    ensures free { seat.new.known.has_ticket ≡ false }
    ensures boot { (seat.new.known.is_boot ≡ seat.old.known.is_boot) × (seat.new.known.others ≡ seat.old.known.others) }
{
    let diary = turns.take(seat);
    let page = diary.page;
    turns.put(seat, diary);
    turns.pass_on(seat, Item::Quiet);
    page
}

#[test]
fn two_seats_have_their_turns_in_order(rt: HostRuntime) -> Result<(), Fail> {
    let diary = Diary {
        page: 77,
        told: Vec::new(rt.alloc()),
    };
    let (turns, mut first) = Turns::boot(rt.alloc(), diary)?;
    let mut second = turns.split(&mut first);
    assert!(rt; turns.draw(&mut first) == 0);
    assert!(rt; turns.draw(&mut second) == 1);
    assert!(rt; !turns.look(&mut second));
    assert!(rt; turns.look(&mut first));
    assert!(rt; pass_quietly(&turns, &mut first) == 77);
    assert!(rt; turns.look(&mut second));
    assert!(rt; pass_quietly(&turns, &mut second) == 77);
    turns.join(second, &mut first);
    assert!(rt; turns.close(first).page == 77);
    Ok(())
}

/// Draws a ticket, and waits until it is served.
fn wait_for_turn<R: Wait>(rt: &R, turns: &Turns<Diary>, seat: &mut TurnSeat<Diary>)
    requires turns { seat.old.turns ≡ turns.now }
    requires free { seat.old.known.has_ticket ≡ false }
    ensures turns { seat.new.turns ≡ seat.old.turns }
    ensures turn { (seat.new.known.has_turn ≡ true) × (seat.new.known.is_out ≡ false) × (seat.new.known.has_put ≡ false) }
{
    turns.draw(seat);
    for _ in rt.forever() {
        if turns.look(seat) {
            return;
        }
        thread::yield_now();
    }
}

/// One turn, in which the number is told, if there is room for it.
fn tell(turns: &Turns<Diary>, seat: &mut TurnSeat<Diary>, number: u64)
    requires turns { seat.old.turns ≡ turns.now }
    requires turn { (seat.old.known.has_turn ≡ true) × (seat.old.known.is_out ≡ false) × (seat.old.known.has_put ≡ false) }
    ensures turns { seat.new.turns ≡ seat.old.turns }
    ensures free { seat.new.known.has_ticket ≡ false }
{
    let mut diary = turns.take(seat);
    if diary.told.push(number).is_ok() {
        turns.put(seat, diary);
        turns.pass_on(seat, Item::Live(number));
    } else {
        turns.put(seat, diary);
        turns.pass_on(seat, Item::Quiet);
    }
}

/// As many turns of one thread.
fn work<R: Wait>(
    rt: &R,
    turns: &Turns<Diary>,
    mut seat: TurnSeat<Diary>,
    rounds: u64,
) -> TurnSeat<Diary>
    requires { (seat.turns ≡ turns.now) × (seat.known.has_ticket ≡ false) }
    ensures { (result.turns ≡ turns.now) × (result.known.has_ticket ≡ false) }
{
    for number in 0..rounds {
        wait_for_turn(rt, turns, &mut seat);
        tell(turns, &mut seat, number);
    }
    seat
}

/// Two threads.
fn work_in_two<R: Threads + Wait + Sync>(
    rt: &R,
    turns: &Turns<Diary>,
    one: TurnSeat<Diary>,
    other: TurnSeat<Diary>,
    rounds: u64,
) -> (TurnSeat<Diary>, TurnSeat<Diary>)
    requires one { (one.turns ≡ turns.now) × (one.known.has_ticket ≡ false) }
    requires other { (other.turns ≡ turns.now) × (other.known.has_ticket ≡ false) }
    ensures one { (result.0.turns ≡ turns.now) × (result.0.known.has_ticket ≡ false) }
    ensures other { (result.1.turns ≡ turns.now) × (result.1.known.has_ticket ≡ false) }
{
    join(
        rt,
        move || -> TurnSeat<Diary>
            requires { (one.turns ≡ turns.now) × (one.known.has_ticket ≡ false) }
            ensures { (result.turns ≡ turns.entry.now) × (result.known.has_ticket ≡ false) }
        { work(rt, turns, one, rounds) },
        move || -> TurnSeat<Diary>
            requires { (other.turns ≡ turns.now) × (other.known.has_ticket ≡ false) }
            ensures { (result.turns ≡ turns.entry.now) × (result.known.has_ticket ≡ false) }
        { work(rt, turns, other, rounds) },
    )
}

/// How many numbers were told, and their sum.
fn counted(diary: &Diary) -> (usize, u64) {
    let mut sum: u64 = 0;
    for number in &diary.told {
        sum = sum.wrapping_add(*number);
    }
    (diary.told.len(), sum)
}

#[test]
fn two_threads_tell_as_many_numbers_as_they_had_turns(rt: HostRuntime) -> Result<(), Fail> {
    let diary = Diary {
        page: 1,
        told: Vec::with_capacity(rt.alloc(), 2000)?,
    };
    let (turns, mut boot) = Turns::boot(rt.alloc(), diary)?;
    let one = turns.split(&mut boot);
    let other = turns.split(&mut boot);
    let (one, other) = work_in_two(&rt, &turns, one, other, 1000);
    turns.join(one, &mut boot);
    turns.join(other, &mut boot);
    let diary = turns.close(boot);
    assert!(rt; counted(&diary) == (2000, 999000));
    Ok(())
}
