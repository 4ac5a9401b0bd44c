//! A run of a script, over the store of its processes.

mod choices;
mod enabled;
mod ends;
mod events;
mod helping;
mod waiting;

ghost use Rattle.std.specs.Prelude.{◌≡◌, ◌+◌, ◌≤◌, IfOk};
ghost use Rattle.posix_defs.specs.World.{boot_world};
ghost use Rattle.posix_defs.specs.CoreState.{CoreState};
ghost use Rattle.kern_tasks.specs.View.{IsAt, HasRun, HasBooted};

use crate::evictables::{Evictables, evictables_of};
use kabi_types::{Memory, Noted};
use posix_defs::{Phase, Task, Turner};
use std::alloc::Global;
use std::marker::Model;

/// Two blocks, which closing and ending may always use, in bytes.
const RESERVE: u64 = 2176;

/// What is charged at boot, in bytes.
const FIXED: u64 = 2816;

/// A run of a script: the store of its processes, how far each is with its call, and what happened so far.
#[derive(Drop)]
pub struct Core<T: Turner + Drop> {
    store: T,
    steps: u32,
    heap: u64,
    run: Vec<Noted>,
    tasks: Vec<Task>,
    reserved: u64,
    charged: u64,
    peak: u64,
    // The places of the tasks that may have an event: all but those that sleep and of which the store keeps in mind that they would
    // block.
    runnable: Vec<u32>,
    // How many calls sleep.
    asleep: u32,
    // No call that waits may use more, in bytes.
    most_asked: u64,
    // Of each cache whether it keeps something that could go.
    evictables: Evictables,
}

impl<T: Turner + Drop> Model for Core<T> {
    ghost use Rattle.std.specs.Prelude.{vec_capacity};
    ghost use Rattle.kern_tasks.specs.View.{CoreView};
    ghost use Rattle.kern_events.specs.Sleepers.{Knows};

    ghost Value = { CoreView T };

    ghost view = { λ core. record {
      store = core.store;
      steps = core.steps;
      run = core.run.items;
      tasks = core.tasks.items;
      reserved = core.reserved;
      charged = core.charged;
      peak = core.peak;
    } };

    ghost invariant = { λ core. Knows T.stands (T.script core.store) (T.settled core.store) (record {
      store = core.store;
      steps = core.steps;
      run = core.run.items;
      tasks = core.tasks.items;
      reserved = core.reserved;
      charged = core.charged;
      peak = core.peak;
    }) core.heap (vec_capacity core.run) (vec_capacity core.tasks) core.runnable.items (vec_capacity core.runnable) core.asleep core.most_asked core.evictables };
}

impl<T: Turner + Drop> Core<T> {
    /// A core at the start of a run of at most `steps` events, from 1 to 100000, over a store at boot with a heap of
    /// `heap` bytes, from 8192 to 8388608. It reserves room for all events and processes of the run.
    pub fn boot(alloc: Global, store: T, steps: u32, heap: u64) -> Result<Core<T>, Memory>
        requires booted { T.stands store (boot_world (T.script store)) }
        requires heap { heap ≡ (T.script store).heap }
        requires least_heap { 8192 ≤ heap }
        requires most_heap { heap ≤ 8388608 }
        requires most_steps { steps ≤ 100000 }
        ensures booted { IfOk result (λ core. HasBooted T.stands (T.script store) core) }
        ensures store { IfOk result (λ core. core.store ≡ store) }
        ensures steps { IfOk result (λ core. core.steps ≡ steps) }
    {
        let run = Vec::with_capacity(alloc, steps as usize)?;
        let mut tasks = Vec::with_capacity(alloc, steps as usize + 1)?;
        tasks.push_reserved(Task {
            pid: 1,
            phase: Phase::User,
        });
        let mut runnable = Vec::with_capacity(alloc, steps as usize + 2)?;
        runnable.push_reserved(0);
        let evictables = evictables_of(&store);
        Ok(Core {
            store,
            steps,
            heap,
            run,
            tasks,
            reserved: 0,
            charged: FIXED,
            peak: FIXED,
            runnable,
            asleep: 0,
            most_asked: 0,
            evictables,
        })
    }

    /// What is charged now, in bytes: the live heap, the reserve of two blocks, and the bounds of the admitted calls.
    pub fn charged(&self) -> u64
        ensures value { result ≡ self.now.charged }
        ensures within { result ≤ (T.script self.now.store).heap }
    {
        self.charged
    }

    /// The greatest that was charged, at boot and after each event, in bytes.
    pub fn peak(&self) -> u64
        ensures { result ≡ self.now.peak }
    {
        self.peak
    }

    /// How many blocks the store has read from its disk.
    pub fn reads(&self) -> u64
        ensures { (s : CoreState) → IsAt T.stands self.now s → result ≡ s.world.reads }
    {
        self.store.reads()
    }

    /// The events that were taken, the first one first.
    pub fn run(&self) -> &[Noted]
        ensures same { result.now ≡ self.now.run }
        ensures runs { HasRun T.stands (T.script self.now.store) self.now }
    {
        self.run.as_slice()
    }

    /// How much of the heap isn't charged, in bytes.
    fn room(&self) -> u64
        ensures { result + self.now.charged ≡ (T.script self.now.store).heap }
    {
        self.heap - self.charged
    }

    /// The store as it is.
    pub fn close(self) -> T
        ensures { result ≡ self.store }
    {
        self.store
    }
}
