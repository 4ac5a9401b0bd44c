//! What a core keeps in mind of the caches, so that the store isn't asked of them at every event.

ghost use Rattle.std.specs.Prelude.{◌≡◌};
ghost use Rattle.posix_defs.specs.World.{World, can_evict};
ghost use Rattle.kern_events.specs.Evictables.{AreEvictable, told_of};

use kabi_types::Cached;
use posix_defs::Turner;

/// Of each cache whether it keeps something that isn't pinned.
#[derive(Clone, Copy)]
pub struct Evictables {
    name: bool,
    block: bool,
    vnode: bool,
}

impl Evictables {
    /// Whether this cache does.
    pub fn has(self, what: Cached) -> bool
        ensures { result ≡ told_of self what }
    {
        match what {
            Cached::Name => self.name,
            Cached::Block => self.block,
            Cached::Vnode => self.vnode,
        }
    }
}

/// Asks the store of each cache.
pub fn evictables_of<T: Turner>(store: &T) -> Evictables
    ensures { AreEvictable T.stands store.now result }
{
    Evictables {
        name: store.evictable(Cached::Name),
        block: store.evictable(Cached::Block),
        vnode: store.evictable(Cached::Vnode),
    }
}
