ghost use Rattle.std.specs.Prelude.{◌≡◌, None, Some, length};
ghost use Rattle.kern_core.specs.RunOver.{HasEndedOver};
ghost use Rattle.kern_tasks.specs.View.{GoesInside, GoesOn, HasBooted, IsAt, MayTake};
ghost use Rattle.posix_defs.specs.Choice.{named_by};
ghost use Rattle.posix_defs.specs.CoreState.{CoreState};
ghost use Rattle.posix_defs.specs.SoundTasks.{IsSound};
ghost use Rattle.posix_defs.specs.Ends.{end_of};

use crate::choosing::Choosing;
use kabi_types::{Chooser, End, Event};
use kern_events::Core;
use posix_defs::Turner;

/// The event that a number names, or the default without a number, where some event may be taken.
pub fn picked<T: Turner + Drop>(core: &Core<T>, number: Option<u32>) -> Event
    requires goes_on { GoesOn T.stands (T.script core.now.store) core.now }
    requires no_end { (s : CoreState) → IsAt T.stands core.now s → IsSound (T.script core.now.store) s → end_of (T.script core.now.store) core.now.steps (length core.now.run) s ≡ None }
    ensures named { (s : CoreState) → IsAt T.stands core.now s → IsSound (T.script core.now.store) s → named_by number (T.script core.now.store) s ≡ Some result }
    ensures may { MayTake T.stands (T.script core.now.store) core.now result }
{
    match number {
        Some(number) => core.named(number).unwrap(),
        None => core.first_choice().unwrap(),
    }
}

/// Takes the events that the chooser of the script picks until the run ends, and answers how.
pub fn run_to_end<T: Turner + Drop>(core: &mut Core<T>, chooser: &Chooser) -> End
    requires booted { HasBooted T.stands (T.script core.old.store) core.old }
    requires chooser { chooser.now ≡ (T.script core.old.store).chooser }
    ensures script { T.script core.new.store ≡ T.script core.old.store }
    ensures steps { core.new.steps ≡ core.old.steps }
    ensures ended { HasEndedOver T.stands T.marks T.high (T.script core.old.store) core.new result }
    ensures inside { GoesInside T.stands T.marks T.high (T.script core.old.store) core.old core.new }
{
    let mut choosing = Choosing::of(chooser);
    loop {
        if let Some(end) = core.ended() {
            return end;
        }
        let (number, rest) = choosing.next();
        let event = picked(core, number);
        core.take(event);
        choosing = rest;
    }
}
