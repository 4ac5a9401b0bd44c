//! Laws of what processes have open. Each is the contract of a function that does nothing.

ghost use Rattle.std.specs.Prelude.{◌≡◌, ℕ};
ghost use Rattle.kheap_slabs.specs.Objects.{InUse};
ghost use Rattle.kheap_slabs.specs.Heap.{Heap};
ghost use Rattle.open_laws.specs.Described.{CountedList};
ghost use Rattle.open_laws.specs.Open.{AreOpen, HaveFronts};
ghost use Rattle.open_laws.specs.Placed.{Numbers};
ghost use Rattle.posix_defs.specs.Account.{Account};
ghost use Rattle.posix_defs.specs.Files.State.{Files};
ghost use Rattle.proc_numbers.specs.Queues.{QueuesStand, fronts_on};

/// Where the bytes of queues stand where they stood, the account goes on having the front of each: it follows from how many bytes
/// each queue had and has. Objects that were there keep their numbers.
pub fn fronts_follow_where_queues_stand()
    ensures { (numbers : Numbers) (now : Numbers) (old : Heap) (new : Heap) (list : CountedList) (later : CountedList) (files : Files) (next : Files)
        (account : Account)
        → AreOpen numbers old list files → AreOpen now new later next → QueuesStand old new
        → ((key : ℕ) → InUse old.pipes key → now.pipes key ≡ numbers.pipes key)
        → ((key : ℕ) → InUse old.socks key → now.socks key ≡ numbers.socks key)
        → HaveFronts numbers old account → HaveFronts now new (fronts_on files next account) }
{}
