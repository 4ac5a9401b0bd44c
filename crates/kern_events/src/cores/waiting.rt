//! What calls wait for: room, what could go to make some, and that one that sleeps would go on.

ghost use Rattle.std.specs.Prelude.{◌≡◌, true, not};
ghost use Rattle.std.specs.List.{list_any};
ghost use Rattle.posix_defs.specs.World.{can_evict};
ghost use Rattle.posix_defs.specs.CoreState.{CoreState, is_admitted, some_fits, some_wait_in_vain, is_waiting};
ghost use Rattle.posix_defs.specs.SoundTasks.{IsSound};
ghost use Rattle.posix_defs.specs.Licence.{can_evict_any};
ghost use Rattle.posix_defs.specs.Machine.{would_block};
ghost use Rattle.kern_tasks.specs.Room.{is_asleep};
ghost use Rattle.kern_tasks.specs.View.{Has, IsAt};
ghost use Rattle.kern_events.specs.Sleepers.{AllFit};
ghost use Rattle.kern_events.specs.Reliefs.{first_evictable};

use super::Core;
use kabi_types::Cached;
use kern_tasks::{is_admitted, some_within, some_without};
use posix_defs::{Phase, Task, Turner};

impl<T: Turner + Drop> Core<T> {
    pub(crate) fn admits_any(&self) -> bool
        ensures { result ≡ list_any (λ task. is_admitted task.phase) self.now.tasks }
    {
        self.tasks.iter().any(|task| is_admitted(task.phase))
    }

    /// Whether some call waits.
    pub(crate) fn some_wait(&self) -> bool
        ensures { result ≡ list_any (λ task. is_waiting task.phase) self.now.tasks }
    {
        self.tasks
            .iter()
            .any(|task| matches!(task.phase, Phase::Waiting(_)))
    }

    /// Whether the greatest bound that a call waited with fits, so that no call waits in vain. It looks at no task.
    pub(crate) fn all_fit(&self) -> bool
        ensures { result ≡ true → AllFit (T.script self.now.store).heap self.now.charged self.now.tasks }
    {
        self.most_asked <= self.room()
    }

    /// Whether some call waits for which there is no room now.
    pub(crate) fn some_wait_in_vain(&self) -> bool
        ensures { (s : CoreState) → IsAt T.stands self.now s → result ≡ some_wait_in_vain (T.script self.now.store) s }
    {
        !self.all_fit() && some_without(self.tasks.as_slice(), self.room())
    }

    /// Whether some call waits for which there is room now.
    pub(crate) fn some_fit(&self) -> bool
        ensures { (s : CoreState) → IsAt T.stands self.now s → result ≡ some_fits (T.script self.now.store) s }
    {
        some_within(self.tasks.as_slice(), self.room())
    }

    /// Whether this cache keeps something that isn't pinned, as the store told when it last changed.
    pub(crate) fn evictable(&self, what: Cached) -> bool
        ensures { (s : CoreState) → IsAt T.stands self.now s → result ≡ can_evict s.world.plain s.world.kept what }
    {
        self.evictables.has(what)
    }

    pub(crate) fn can_evict_any(&self) -> bool
        ensures { (s : CoreState) → IsAt T.stands self.now s → result ≡ can_evict_any s.world }
    {
        self.evictable(Cached::Name)
            || self.evictable(Cached::Block)
            || self.evictable(Cached::Vnode)
    }

    /// The first cache, of names, of blocks and of nodes, that keeps something that isn't pinned.
    pub(crate) fn first_evictable(&self) -> Option<Cached>
        ensures { (s : CoreState) → IsAt T.stands self.now s → result ≡ first_evictable s.world }
    {
        if self.evictable(Cached::Name) {
            Some(Cached::Name)
        } else if self.evictable(Cached::Block) {
            Some(Cached::Block)
        } else if self.evictable(Cached::Vnode) {
            Some(Cached::Vnode)
        } else {
            None
        }
    }

    /// Whether the call of this task, which sleeps, would go on now.
    pub(crate) fn goes_on(&self, task: Task) -> bool
        requires at { Has self.now.tasks task }
        requires asleep { is_asleep task.phase ≡ true }
        ensures { (s : CoreState) → IsAt T.stands self.now s → IsSound (T.script self.now.store) s
            → result ≡ not (would_block (T.script self.now.store) s.world.plain task.pid) }
    {
        self.store.ready(task.pid)
    }
}
