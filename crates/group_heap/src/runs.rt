//! Runs of groups, each behind a reservation of its whole heap.

ghost use Rattle.std.specs.Prelude.{◌≡◌, ◌⊎◌, ◌+◌, ◌≤◌, true, IfOk, IsErr, map};
ghost use Rattle.std.specs.List.{AllByRecursion, list_any};
ghost use Rattle.kabi_types.specs.declared.entries.End.{End};
ghost use Rattle.kern_core.specs.RunOver.{HasEndedOver};
ghost use Rattle.kern_tasks.specs.View.{HasBooted};
ghost use Rattle.posix_defs.specs.ValidScript.{IsValid};
ghost use Rattle.run_report.specs.Reports.{IsReport};
ghost use Rattle.group_heap.specs.Runs.{EachBecomes, IsAtStart, IsDone, TellsRun, has_waited};
ghost use Rattle.group_heap.specs.Seats.{HoldsNothing, IsReady, WasCalled, seated, unseated};

use crate::groups::{Group, GroupEnd};
use charge_words::{Charge, ChargeSeat, Reserved};
use crossbeam_utils::Backoff;
use kabi_types::{End, Memory, Script, Text};
use kern_core::{Core, run_to_end};
use posix_defs::Turner;
use run_report::report;
use std::alloc::Global;
use std::sync::Wait;
use std::thread;
use std::thread::Threads;

/// What a charge word holds beside the heaps of the groups that run.
const BOOT_CHARGE: u64 = 2816;

/// Runs a core at boot to the end of its script, while the seat holds the script's heap, and reports the run: how it ended, and the
/// text. The core is at its end also where the host has no memory for the report.
pub fn run_one<T: Turner + Drop>(
    alloc: Global,
    core: &mut Core<T>,
    script: &Script,
    _seat: &ChargeSeat,
) -> Result<(End, Text), Memory>
    requires valid { IsValid script.now }
    requires booted { HasBooted T.stands (T.script core.old.store) core.old }
    requires script { script.now ≡ T.script core.old.store }
    requires steps { core.old.steps ≡ script.now.steps }
    requires held { script.now.heap ≤ _seat.now.known.holds }
    ensures ended { (end : End) × HasEndedOver T.stands T.marks T.high script.now core.new end }
    ensures tells { IfOk result (λ it. TellsRun T.stands T.marks T.high script.now core.new it.0 it.1) }
    ensures reported { IfOk result (λ it. IsReport T.stands T.marks T.high script.now core.new.store it.0 it.1) }
{
    let end = run_to_end(core, &script.chooser);
    let text = report(
        alloc,
        core.run(),
        end,
        core.charged(),
        core.peak(),
        core.reads(),
    )?;
    Ok((end, Text::from_vec(text.into_bytes())))
}

/// Reserves so many bytes, again and again until there is room for them.
fn reserve<R: Wait>(rt: &R, charge: &Charge, seat: &mut ChargeSeat, heap: u64)
    requires { seat.old.charge ≡ charge.now }
    ensures charge { seat.new.charge ≡ seat.old.charge }
    ensures holds { seat.new.known.holds ≡ seat.old.known.holds + heap }
{
    let backoff = Backoff::new();
    for _ in rt.forever() {
        if charge.try_reserve(seat, heap) == Reserved::Granted {
            return;
        }
        backoff.snooze();
    }
    unreachable!()
}

/// Runs a script once its heap is reserved, and gives the heap back behind the run, also where the host has no memory for the report.
fn run_held<T: Turner + Drop, R: Wait>(
    rt: &R,
    alloc: Global,
    charge: &Charge,
    core: &mut Core<T>,
    script: &Script,
    seat: &mut ChargeSeat,
) -> Result<(End, Text), Memory>
    requires valid { IsValid script.now }
    requires booted { HasBooted T.stands (T.script core.old.store) core.old }
    requires script { script.now ≡ T.script core.old.store }
    requires steps { core.old.steps ≡ script.now.steps }
    requires charge { seat.old.charge ≡ charge.now }
    ensures charge { seat.new.charge ≡ seat.old.charge }
    ensures holds { seat.new.known.holds ≡ seat.old.known.holds }
    ensures ended { (end : End) × HasEndedOver T.stands T.marks T.high script.now core.new end }
    ensures tells { IfOk result (λ it. TellsRun T.stands T.marks T.high script.now core.new it.0 it.1) }
{
    reserve(rt, charge, seat, script.heap);
    let ran = run_one(alloc, core, script, seat);
    charge.give_back(seat, script.heap);
    ran
}

/// Runs a group, or refuses it.
fn run_group<T: Turner + Drop, R: Wait>(
    rt: &R,
    alloc: Global,
    charge: &Charge,
    group: &mut Group<T>,
    whole: u64,
)
    requires { IsReady T.stands T.script charge.now group.old }
    ensures { WasCalled T.stands T.marks T.high whole charge.now group.old group.new }
{
    let heap = group.script.heap;
    if heap > whole {
        group.outcome = GroupEnd::Refused { heap };
        return;
    }
    let Some(seat) = &mut group.seat else {
        unreachable!()
    };
    if let Ok((end, text)) = run_held(rt, alloc, charge, &mut group.core, &group.script, seat) {
        group.text = text;
        group.outcome = GroupEnd::Ran(end);
    }
}

/// Gives each group a seat that holds nothing yet.
fn hand_seats<T: Turner + Drop>(charge: &Charge, boot: &mut ChargeSeat, groups: &mut [Group<T>])
    requires charge { boot.old.charge ≡ charge.now }
    requires boot { boot.old.known.is_boot ≡ true }
    ensures groups { groups.new ≡ map (seated charge.now) groups.old }
    ensures charge { boot.new.charge ≡ boot.old.charge }
    ensures boot { boot.new.known.is_boot ≡ true }
    ensures holds { boot.new.known.holds ≡ boot.old.known.holds }
{
    for group in groups.iter_mut() {
        group.seat = Some(charge.split(boot));
    }
}

/// Takes a group's seat back, which holds nothing.
fn take_seat<T: Turner + Drop>(charge: &Charge, boot: &mut ChargeSeat, group: &mut Group<T>)
    requires charge { boot.old.charge ≡ charge.now }
    requires boot { boot.old.known.is_boot ≡ true }
    requires holds { HoldsNothing charge.now group.old }
    ensures group { group.new ≡ unseated group.old }
    ensures charge { boot.new.charge ≡ boot.old.charge }
    ensures boot { boot.new.known.is_boot ≡ true }
    ensures holds { boot.new.known.holds ≡ boot.old.known.holds }
{
    if let Some(seat) = group.seat.take() {
        charge.join(seat, boot);
    }
}

/// Takes the groups' seats back, which hold nothing.
fn take_seats<T: Turner + Drop>(charge: &Charge, boot: &mut ChargeSeat, groups: &mut [Group<T>])
    requires charge { boot.old.charge ≡ charge.now }
    requires boot { boot.old.known.is_boot ≡ true }
    requires each { AllByRecursion (HoldsNothing charge.now) groups.old }
    ensures groups { groups.new ≡ map unseated groups.old }
    ensures holds { boot.new.known.holds ≡ boot.old.known.holds }
{
    for group in groups.iter_mut() {
        take_seat(charge, boot, group);
    }
}

/// Whether a group hasn't run.
fn has_waited<T: Turner + Drop>(group: &Group<T>) -> bool
    ensures { result ≡ has_waited group.now.outcome }
{
    matches!(group.outcome, GroupEnd::NotRun)
}

/// Whether the host had no memory for one of these groups.
fn is_wanting<T: Turner + Drop>(groups: &[Group<T>]) -> bool
    ensures { result ≡ list_any (λ group. has_waited group.outcome) groups.now }
{
    groups.iter().any(|group| has_waited(group))
}

/// Runs each group whose heap isn't above the whole, in bytes, and refuses the others: one call a group, as many at once as there is
/// room for. `workers` says in how many threads at most, where they can be made. An error is want of memory, before anything has run or
/// for the report of a group that then hasn't run.
pub fn run_groups<T: Turner + Drop + Send, R: Threads + Wait + Sync>(
    rt: &R,
    alloc: Global,
    groups: &mut [Group<T>],
    whole: u64,
    workers: u32,
) -> Result<(), Memory>
    requires least { 8192 ≤ whole }
    requires most { whole ≤ 8388608 }
    requires each { AllByRecursion (IsAtStart T.stands T.script) groups.old }
    ensures each { EachBecomes T.stands T.marks T.high whole groups.old groups.new ⊎ ((groups.new ≡ groups.old) × IsErr result) }
    ensures ran { IfOk result (λ _. AllByRecursion (IsDone T.stands T.marks T.high whole) groups.new) }
{
    let (charge, mut boot) = Charge::boot(alloc, whole + BOOT_CHARGE)?;
    let charge = &charge;
    hand_seats(charge, &mut boot, groups);
    let threads = (workers as usize).max(1);
    thread::for_each_mut(
        rt,
        groups,
        threads,
        &|_place: usize, group: &mut Group<T>|
            requires { IsReady T.stands T.script charge.now group.old }
            ensures { WasCalled T.stands T.marks T.high whole charge.entry.now group.old group.new }
        { run_group(rt, alloc, charge, group, whole) },
    );
    take_seats(charge, &mut boot, groups);
    if is_wanting(groups) {
        Err(Memory)
    } else {
        Ok(())
    }
}
