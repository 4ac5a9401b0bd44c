//! Laws of how far relief can go. Each is the contract of a function that does nothing.

ghost use Rattle.std.specs.Prelude.{◌≡◌, ◌<◌, ℕ, true, None, length};
ghost use Rattle.kabi_types.specs.declared.entries.Cached.{Cached};
ghost use Rattle.kabi_types.specs.declared.entries.Entry.TheVariants.{Evicted, Killed};
ghost use Rattle.kabi_types.specs.declared.entries.Noted.{Noted};
ghost use Rattle.kabi_types.specs.declared.scripts.Script.{Script};
ghost use Rattle.posix_defs.specs.CoreEvent.{EvictsOne, KillsOne};
ghost use Rattle.posix_defs.specs.CoreState.{CoreState, none_admitted};
ghost use Rattle.posix_defs.specs.Ends.{end_of};
ghost use Rattle.posix_defs.specs.History.{MayFollow, Past};
ghost use Rattle.posix_defs.specs.SoundTasks.{IsSound};
ghost use Rattle.kern_tasks.specs.View.{CoreView, IsAt};
ghost use Rattle.kern_events.specs.Reliefs.{Relieves, relief_of};
ghost use Rattle.kern_events.specs.declared.reliefs.Relief.{Relief};
ghost use Rattle.relief_laws.specs.Measure.{ComesToAnEnd, IsHelpedInTheEnd, IsLess, Lowers, left_to_evict, living, measure_of};

use posix_defs::Turner;

/// An eviction leaves as many processes alive and as many calls admitted, and one object fewer that could be evicted.
pub fn an_eviction_lowers_the_measure()
    ensures { (script : Script) (old new : CoreState) (what : Cached) (noted : Noted) → EvictsOne script old what noted new
        → IsLess (measure_of new) (measure_of old) }
{}

/// A kill leaves fewer processes alive.
pub fn a_kill_lowers_the_measure()
    ensures { (script : Script) (old new : CoreState) (pid : ℕ) (noted : Noted) → KillsOne script old pid noted new
        → IsLess (measure_of new) (measure_of old) }
{}

/// From every state each chain of evictions and kills is finite, whichever are chosen. What holds where such a chain can't go
/// on, `kern_laws` says: where a call waits and no end stands, one is admitted, one that waits fits, something can be evicted,
/// or a kill is licensed.
pub fn reliefs_come_to_an_end()
    ensures { (script : Script) (s : CoreState) → ComesToAnEnd script s }
{}

/// Over any store, what `relief` of a core tells and leads to, where no end stands: where it answers that it has evicted or killed,
/// the core is in a state of a lower measure, and else it is as it was.
pub fn relief_lowers_the_measure<T: Turner>()
    ensures { (script : Script) (old new : CoreView T) (s : CoreState) (told : Relief) → IsAt T.stands old s → IsSound script s
        → end_of script old.steps (length old.run) s ≡ None → told ≡ relief_of script s → Relieves T.stands script old told new
        → Lowers T.stands s old told new }
{}

/// While no call is admitted, finitely many evictions and kills leave no call waiting in vain, make one that waits fit, or leave
/// nobody alive but the first process; and until then one of them is always at hand.
pub fn relief_helps_in_the_end()
    ensures { (script : Script) (s : CoreState) → none_admitted s ≡ true → IsHelpedInTheEnd script s }
{}

/// In a history of the machine, as workers make it, a kill leaves fewer processes alive, and an eviction as many, with fewer objects
/// left that could go. So between two answers there are finitely many of them.
pub fn reliefs_of_a_history_lower_it()
    ensures kill { (script : Script) (past next : Past) (pid waiter need live : ℕ) → MayFollow script past (Killed pid waiter need live) next
        → living next.plain.table < living past.plain.table }
    ensures eviction { (script : Script) (past next : Past) (what : Cached) → MayFollow script past (Evicted what) next
        → (living next.plain.table ≡ living past.plain.table) × (left_to_evict next < left_to_evict past) }
{}
