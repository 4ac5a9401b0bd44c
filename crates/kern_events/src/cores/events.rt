//! What each event does.

ghost use Rattle.std.specs.Prelude.{◌≡◌, ℕ, ◌+◌, ◌%◌, ◌^◌, ◌≤◌, ◌<◌, Some, true};
ghost use Rattle.kabi_types.specs.declared.entries.Event.TheVariants.{Ask, Admit, Turn, Wake, Abandon, Kill, Evict};
ghost use Rattle.posix_defs.specs.Minding.{HasNamed};
ghost use Rattle.posix_defs.specs.Needs.{bound, slack};
ghost use Rattle.posix_defs.specs.Plain.{call_of};
ghost use Rattle.posix_defs.specs.Sizes.{reserve, room};
ghost use Rattle.posix_defs.specs.Turn.{TurnsTo};
ghost use Rattle.posix_defs.specs.World.{World, live_of};
ghost use Rattle.posix_defs.specs.Process.{is_alive};
ghost use Rattle.posix_defs.specs.CoreState.{asked_by};
ghost use Rattle.posix_defs.specs.CoreEvent.{phase_after};
ghost use Rattle.posix_defs.specs.declared.turner.Turned.TheVariants.{Sleep};
ghost use Rattle.kern_tasks.specs.View.{IsAskedFor, IsSleep, IsInside, MayTake, StaysInside, Takes, Took};
ghost use Rattle.kern_events.specs.Sleepers.{WaitsForAtMost};

use super::{Core, FIXED, RESERVE};
use crate::evictables::evictables_of;
use kabi_types::{Cached, Entry, Event, Noted};
use kern_tasks::{
    add_born, bury, bury_ended, entry_of, first_waiting, last_noted, leaves_asleep, may_end, note,
    phase_of, remove, set_phase, sort_anew, sort_stirred, sort_turned,
};
use need_table::need;
use posix_defs::{Asked, Phase, Turned, Turner};

impl<T: Turner + Drop> Core<T> {
    /// Takes an event that is enabled, while no end holds, and tells what is noted of it.
    pub fn step(&mut self, event: Event) -> Noted
        requires { MayTake T.stands (T.script self.old.store) self.old event }
        ensures script { T.script self.new.store ≡ T.script self.old.store }
        ensures took { Took T.stands (T.script self.old.store) self.old event result self.new }
        ensures inside { StaysInside T.marks T.high (T.script self.old.store).heap self.old self.new }
    {
        self.take(event);
        last_noted(self.run())
    }

    /// Takes an event that is enabled, while no end holds; what is noted of it is the last of the run.
    pub fn take(&mut self, event: Event)
        requires { MayTake T.stands (T.script self.old.store) self.old event }
        ensures script { T.script self.new.store ≡ T.script self.old.store }
        ensures took { Takes T.stands (T.script self.old.store) self.old event self.new }
        ensures inside { StaysInside T.marks T.high (T.script self.old.store).heap self.old self.new }
    {
        match event {
            Event::Ask(pid) => self.ask(pid),
            Event::Admit(pid) => self.admit(pid),
            Event::Turn(pid) => self.turn(pid),
            Event::Wake(pid) => self.wake(pid),
            Event::Abandon(pid) => self.abandon(pid),
            Event::Kill(pid) => self.kill(pid),
            Event::Evict(what) => self.evict(what),
        }
    }

    fn ask(&mut self, pid: u32)
        requires { MayTake T.stands (T.script self.old.store) self.old (Ask pid) }
        ensures script { T.script self.new.store ≡ T.script self.old.store }
        ensures took { Takes T.stands (T.script self.old.store) self.old (Ask pid) self.new }
        ensures inside { StaysInside T.marks T.high (T.script self.old.store).heap self.old self.new }
    {
        let asked = self.store.asks(pid);
        if asked.bound > self.heap - FIXED {
            self.refuse(pid, asked)
        } else {
            self.wait_for_room(pid, asked)
        }
    }

    /// A process asks for a call whose bound is above what the heap can ever give.
    fn refuse(&mut self, pid: u32, asked: Asked)
        requires may { MayTake T.stands (T.script self.old.store) self.old (Ask pid) }
        requires asked { IsAskedFor T.stands (T.script self.old.store) self.old pid asked }
        requires never { room (T.script self.old.store).heap < asked.bound }
        ensures script { T.script self.new.store ≡ T.script self.old.store }
        ensures took { Takes T.stands (T.script self.old.store) self.old (Ask pid) self.new }
        ensures inside { IsInside T.marks T.high (T.script self.old.store).heap self.old self.new }
    {
        self.store.refuse(pid);
        self.evictables = evictables_of(&self.store);
        set_phase(&mut self.tasks, pid, Phase::User);
        sort_stirred(&self.store, self.tasks.as_slice(), &mut self.runnable);
        let entry = Entry::Refused {
            pid,
            kind: asked.kind,
            bound: asked.bound,
        };
        let noted = noted_of(Event::Ask(pid), asked, Some(entry), self.charged);
        note(&mut self.run, &mut self.peak, noted);
    }

    /// A process asks for its call, and waits for room.
    fn wait_for_room(&mut self, pid: u32, asked: Asked)
        requires may { MayTake T.stands (T.script self.old.store) self.old (Ask pid) }
        requires asked { IsAskedFor T.stands (T.script self.old.store) self.old pid asked }
        requires ever { asked.bound ≤ room (T.script self.old.store).heap }
        ensures script { T.script self.new.store ≡ T.script self.old.store }
        ensures took { Takes T.stands (T.script self.old.store) self.old (Ask pid) self.new }
        ensures same { self.new.store ≡ self.old.store }
    {
        set_phase(&mut self.tasks, pid, Phase::Waiting(asked));
        self.most_asked = self.most_asked.max(asked.bound);
        let noted = noted_of(Event::Ask(pid), asked, None, self.charged);
        note(&mut self.run, &mut self.peak, noted);
    }

    fn admit(&mut self, pid: u32)
        requires { MayTake T.stands (T.script self.old.store) self.old (Admit pid) }
        ensures script { T.script self.new.store ≡ T.script self.old.store }
        ensures took { Takes T.stands (T.script self.old.store) self.old (Admit pid) self.new }
        ensures same { self.new.store ≡ self.old.store }
    {
        let Phase::Waiting(asked) = phase_of(self.tasks.as_slice(), pid) else {
            unreachable!()
        };
        set_phase(&mut self.tasks, pid, Phase::Admitted(asked));
        self.reserved += asked.bound;
        self.charged += asked.bound;
        let noted = noted_of(Event::Admit(pid), asked, None, self.charged);
        note(&mut self.run, &mut self.peak, noted);
    }

    fn turn(&mut self, pid: u32)
        requires { MayTake T.stands (T.script self.old.store) self.old (Turn pid) }
        ensures script { T.script self.new.store ≡ T.script self.old.store }
        ensures took { Takes T.stands (T.script self.old.store) self.old (Turn pid) self.new }
        ensures inside { IsInside T.marks T.high (T.script self.old.store).heap self.old self.new }
    {
        let Phase::Admitted(asked) = phase_of(self.tasks.as_slice(), pid) else {
            unreachable!()
        };
        let before = self.store.last_pid();
        let turned = turn_next(&mut self.store, pid);
        self.evictables = evictables_of(&self.store);
        let phase = phase_after(&self.store, pid, asked, &turned);
        set_phase(&mut self.tasks, pid, phase);
        let ends = may_end(asked.kind, &turned);
        bury_ended(&self.store, &mut self.tasks, ends);
        let last = self.store.last_pid();
        add_born(&mut self.tasks, before, last);
        let sleeps = leaves_asleep(&turned);
        let born = before < last;
        let (tasks, runnable) = (self.tasks.as_slice(), &mut self.runnable);
        let asleep = &mut self.asleep;
        sort_turned(
            &self.store,
            tasks,
            runnable,
            asleep,
            pid,
            sleeps,
            ends,
            born,
        );
        self.reserved -= asked.bound;
        self.charged = self.store.live() + RESERVE + self.reserved;
        let entry = entry_of(pid, asked.kind, turned);
        let noted = noted_of(Event::Turn(pid), asked, Some(entry), self.charged);
        note(&mut self.run, &mut self.peak, noted);
    }

    fn wake(&mut self, pid: u32)
        requires { MayTake T.stands (T.script self.old.store) self.old (Wake pid) }
        ensures script { T.script self.new.store ≡ T.script self.old.store }
        ensures took { Takes T.stands (T.script self.old.store) self.old (Wake pid) self.new }
        ensures same { self.new.store ≡ self.old.store }
    {
        let Phase::Asleep(asked) = phase_of(self.tasks.as_slice(), pid) else {
            unreachable!()
        };
        set_phase(&mut self.tasks, pid, Phase::Waiting(asked));
        self.asleep -= 1;
        self.most_asked = self.most_asked.max(asked.bound);
        let noted = noted_of(Event::Wake(pid), asked, None, self.charged);
        note(&mut self.run, &mut self.peak, noted);
    }

    fn abandon(&mut self, pid: u32)
        requires { MayTake T.stands (T.script self.old.store) self.old (Abandon pid) }
        ensures script { T.script self.new.store ≡ T.script self.old.store }
        ensures took { Takes T.stands (T.script self.old.store) self.old (Abandon pid) self.new }
        ensures same { self.new.store ≡ self.old.store }
    {
        let Phase::Stranded(asked) = phase_of(self.tasks.as_slice(), pid) else {
            unreachable!()
        };
        remove(&mut self.tasks, pid);
        let (runnable, asleep) = (&mut self.runnable, &mut self.asleep);
        sort_anew(&self.store, self.tasks.as_slice(), runnable, asleep);
        let held = asked.bound;
        self.reserved -= held;
        self.charged -= held;
        let noted = noted_of(Event::Abandon(pid), asked, None, self.charged);
        note(&mut self.run, &mut self.peak, noted);
    }

    pub(crate) fn kill(&mut self, pid: u32)
        requires { MayTake T.stands (T.script self.old.store) self.old (Kill pid) }
        ensures script { T.script self.new.store ≡ T.script self.old.store }
        ensures took { Takes T.stands (T.script self.old.store) self.old (Kill pid) self.new }
        ensures inside { IsInside T.marks T.high (T.script self.old.store).heap self.old self.new }
    {
        let Some(first) = first_waiting(self.tasks.as_slice()) else {
            unreachable!()
        };
        let Phase::Waiting(asked) = first.phase else {
            unreachable!()
        };
        let live = self.store.live();
        self.store.kill(pid);
        self.evictables = evictables_of(&self.store);
        bury(&self.store, &mut self.tasks);
        let (runnable, asleep) = (&mut self.runnable, &mut self.asleep);
        sort_anew(&self.store, self.tasks.as_slice(), runnable, asleep);
        self.charged = self.store.live() + RESERVE + self.reserved;
        let noted = Noted {
            event: Event::Kill(pid),
            kind: None,
            entry: Some(Entry::Killed {
                pid,
                waiter: first.pid,
                need: asked.bound,
                live,
            }),
            bound: 0,
            charged: self.charged,
        };
        note(&mut self.run, &mut self.peak, noted);
    }

    pub(crate) fn evict(&mut self, what: Cached)
        requires { MayTake T.stands (T.script self.old.store) self.old (Evict what) }
        ensures script { T.script self.new.store ≡ T.script self.old.store }
        ensures took { Takes T.stands (T.script self.old.store) self.old (Evict what) self.new }
        ensures inside { IsInside T.marks T.high (T.script self.old.store).heap self.old self.new }
    {
        self.store.evict(what);
        self.evictables = evictables_of(&self.store);
        sort_stirred(&self.store, self.tasks.as_slice(), &mut self.runnable);
        self.charged = self.store.live() + RESERVE + self.reserved;
        let noted = Noted {
            event: Event::Evict(what),
            kind: None,
            entry: Some(Entry::Evicted { what }),
            bound: 0,
            charged: self.charged,
        };
        note(&mut self.run, &mut self.peak, noted);
    }
}

/// What is noted of an event of a process.
fn noted_of(event: Event, asked: Asked, entry: Option<Entry>, charged: u64) -> Noted
    ensures { result ≡ record { event = event; kind = Some asked.kind; entry = entry; bound = asked.bound; charged = charged } }
{
    Noted {
        event,
        kind: Some(asked.kind),
        entry,
        bound: asked.bound,
        charged,
    }
}

/// A turn of a process's next call.
fn turn_next<T: Turner>(store: &mut T, pid: u32) -> Turned
    requires { (world : World) × T.stands store.old world × (is_alive world.plain.table pid ≡ true)
        × (live_of world + bound (call_of (T.script store.old) world.plain pid) + reserve ≤ (T.script store.old).heap) }
    ensures script { T.script store.new ≡ T.script store.old }
    ensures turned { (world : World) → T.stands store.old world → is_alive world.plain.table pid ≡ true
        → (after : World) × T.stands store.new after × TurnsTo (T.script store.old) world pid (call_of (T.script store.old) world.plain pid) result after }
    ensures named { HasNamed (T.settled store.old) (T.settled store.new) (T.stirred store.new) }
    ensures marked { T.marks store.new ≡ (T.marks store.old + 1) % 2 ^ 64 }
    ensures high { (world : World) → T.stands store.old world → is_alive world.plain.table pid ≡ true
        → T.high store.new ≤ live_of world + bound (call_of (T.script store.old) world.plain pid) + slack (call_of (T.script store.old) world.plain pid) }
{
    let call = store.next(pid);
    store.turn(pid, &call, need(&call))
}

/// The phase that a turn leaves its process in. A call that would block leaves the machine, so it is the one that was asked for;
/// where a part is done the rest of the call is asked for anew.
fn phase_after<T: Turner>(store: &T, pid: u32, asked: Asked, turned: &Turned) -> Phase
    requires { IsSleep turned.now → (world : World) × T.stands store.now world × (is_alive world.plain.table pid ≡ true) }
    ensures phase { (world : World) → T.stands store.now world → (IsSleep turned.now → is_alive world.plain.table pid ≡ true)
        → (turned.now ≡ Sleep → asked ≡ asked_by (T.script store.now) world.plain pid)
        → result ≡ phase_after (asked_by (T.script store.now) world.plain pid) turned.now }
    ensures waits { (most : ℕ) → WaitsForAtMost most result }
{
    match turned {
        Turned::Done(_) => Phase::User,
        Turned::Part(_) => Phase::Asleep(store.asks(pid)),
        Turned::Sleep => Phase::Asleep(asked),
        Turned::Ended(_) | Turned::Gone => Phase::Dead,
    }
}
