//! Tables of who asks what of a kernel, and what is answered: two passes of one thread, over any store.

ghost use Rattle.std.specs.Prelude.{◌≡◌, ◌≤◌, true, None};
ghost use Rattle.posix_defs.specs.Sizes.{fixed};
ghost use Rattle.posix_defs.specs.World.{boot_world};
ghost use Rattle.kern_shared.specs.Passes.{IsAtRest};
ghost use Rattle.shared_trials.specs.Workers.{IsAsMany, Works};

use crate::workers::{Ask, Line, Told, line_of, release, step};
use charge_words::{Charge, ChargeSeat};
use kabi_types::{Call, End, Entry, Memory};
use kern_shared::{Closed, Kernel, Pass, RunName};
use posix_defs::Turner;
use std::alloc::Global;
use std::marker::Brand;
use std::sync::Wait;

/// The heap of a run in bytes, and how many steps it may take.
#[derive(Clone, Copy)]
pub struct Size {
    pub heap: u64,
    pub steps: u32,
}

/// Who asks, the first or the second worker, what, and what that one is answered.
pub type Row = (u32, Ask, Told);

/// What is left of a kernel: its entries, its end, and what is charged.
pub type Left = (&'static [Line], Option<End>, u64);

/// Asks what a row says, and tells whether it was answered so.
fn asks<R: Wait, T: Turner + Drop, L: RunName>(
    rt: &R,
    kernel: &Kernel<T, L>,
    first: &mut Pass<T, L>,
    one: &mut Option<(u32, Call)>,
    second: &mut Pass<T, L>,
    other: &mut Option<(u32, Call)>,
    row: &Row,
) -> bool
    requires first { Works L.script L.steps L.charge kernel.now.turns first.old.turn first.old.own first.old.given one.old }
    requires second { Works L.script L.steps L.charge kernel.now.turns second.old.turn second.old.own second.old.given other.old }
    ensures first { Works L.script L.steps L.charge kernel.now.turns first.new.turn first.new.own first.new.given one.new }
    ensures second { Works L.script L.steps L.charge kernel.now.turns second.new.turn second.new.own second.new.given other.new }
    ensures many { IsAsMany first.old.turn first.new.turn }
{
    let (who, what, wanted) = row;
    let told = if *who == 1 {
        step(rt, kernel, first, one, *what)
    } else {
        step(rt, kernel, second, other, *what)
    };
    told == *wanted
}

/// Asks what all rows say, and tells how many were answered so. What is held then is given back.
fn plays<R: Wait, T: Turner + Drop, L: RunName>(
    rt: &R,
    kernel: &Kernel<T, L>,
    first: &mut Pass<T, L>,
    second: &mut Pass<T, L>,
    rows: &[Row],
) -> usize
    requires first { IsAtRest L.script L.steps L.charge kernel.now.turns first.old.turn first.old.own first.old.given × (first.old.given ≡ None) }
    requires second { IsAtRest L.script L.steps L.charge kernel.now.turns second.old.turn second.old.own second.old.given × (second.old.given ≡ None) }
    ensures first { IsAtRest L.script L.steps L.charge kernel.now.turns first.new.turn first.new.own first.new.given × (first.new.given ≡ None) }
    ensures second { IsAtRest L.script L.steps L.charge kernel.now.turns second.new.turn second.new.own second.new.given × (second.new.given ≡ None) }
    ensures many { IsAsMany first.old.turn first.new.turn }
{
    let mut one = None;
    let mut other = None;
    let mut right: usize = 0;
    for row in rows {
        if asks(rt, kernel, first, &mut one, second, &mut other, row) {
            right = right.saturating_add(1);
        }
    }
    release(rt, kernel, first, &mut one);
    release(rt, kernel, second, &mut other);
    right
}

/// Boots a kernel, asks what the rows say, and closes it: how many rows were answered so, and what is left.
fn run<R: Wait, T: Turner + Drop, L: RunName>(
    rt: &R,
    alloc: Global,
    store: T,
    size: Size,
    charge: Charge,
    seat: ChargeSeat,
    rows: &[Row],
) -> Result<(usize, Closed<T>), Memory>
    requires booted { T.stands store (boot_world (T.script store)) }
    requires script { L.script ≡ T.script store }
    requires steps { L.steps ≡ size.steps }
    requires charge { L.charge ≡ charge }
    requires heap { size.heap ≡ (T.script store).heap }
    requires word { charge.heap ≡ size.heap }
    requires seat { seat.charge ≡ charge }
    requires boot { (seat.known.is_boot ≡ true) × (seat.known.others ≡ 0) × (seat.known.holds ≡ fixed) }
    requires unused { seat.known.reserves ≡ 0 }
{
    let Size { heap, steps } = size;
    let (kernel, mut passes) = Kernel::<T, L>::boot(alloc, store, steps, heap, 2, charge, seat)?;
    let Some(mut first) = passes.pop() else {
        unreachable!()
    };
    let Some(mut second) = passes.pop() else {
        unreachable!()
    };
    let right = plays(rt, &kernel, &mut first, &mut second, rows);
    passes.push_reserved(second);
    passes.push_reserved(first);
    Ok((right, kernel.close(passes)))
}

/// Whether the entries are these.
fn has_entries(entries: &[Entry], wanted: &[Line]) -> bool {
    let mut same = entries.len() == wanted.len();
    for (entry, line) in entries.iter().zip(wanted) {
        same = same && line_of(entry) == *line;
    }
    same
}

/// Whether a run over this store, of so many steps at most, is answered as the rows say, and leaves this.
pub fn goes_so<R: Wait, T: Turner + Drop>(
    rt: &R,
    alloc: Global,
    store: T,
    size: Size,
    rows: &[Row],
    left: &Left,
) -> Result<bool, Memory>
    requires booted { T.stands store (boot_world (T.script store)) }
    requires heap { size.heap ≡ (T.script store).heap }
    requires enough { 2816 ≤ size.heap }
{
    let (charge, seat) = Charge::boot(alloc, size.heap)?;
    let (right, closed) = run::<R, T, Brand>(rt, alloc, store, size, charge, seat, rows)?;
    let same = has_entries(closed.history.items(), left.0);
    let ended = closed.end == left.1 && closed.charged == left.2;
    drop(closed);
    Ok(right == rows.len() && same && ended)
}
