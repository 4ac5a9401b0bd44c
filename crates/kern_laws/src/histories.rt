//! Laws of what a history keeps: the family, the victim, the pins, the sleepers and the evictions. Each is the contract of
//! a function that does nothing.

ghost use Rattle.std.specs.Prelude.{◌≡◌, ℕ, ◌||◌, ◌&&◌, not, true, false, List, [], ◌∷◌, None, Some};
ghost use Rattle.kabi_types.specs.declared.entries.Entry.{Entry};
ghost use Rattle.kabi_types.specs.declared.entries.Entry.TheVariants.{Gone};
ghost use Rattle.kabi_types.specs.declared.calls.CallKind.{CallKind};
ghost use Rattle.kabi_types.specs.declared.scripts.Policy.TheVariants.{Heaviest, Youngest};
ghost use Rattle.kabi_types.specs.declared.scripts.Script.{Script};
ghost use Rattle.posix_defs.specs.Process.{Alive, Ended, how_many, parent_of};
ghost use Rattle.posix_defs.specs.Ending.{die_in};
ghost use Rattle.posix_defs.specs.Machine.{would_block};
ghost use Rattle.posix_defs.specs.Victim.{pid_of_greatest, score_of, victim_of};
ghost use Rattle.posix_defs.specs.World.{no_account, pins};
ghost use Rattle.posix_defs.specs.History.{AreCovered, Past, IsRun, MayFollow, boot_past, is_among, is_up};
ghost use Rattle.kern_laws.specs.Sleeping.{is_of, sleeps_by};
ghost use Rattle.kern_laws.specs.WorkedFamily.{alone, as_plain, family, member, weight, weights};

/// The worked family: where process 2 is killed its child that runs gets the first process as parent, and the one that has
/// ended is reaped. With the first process all others end, and none is left.
pub fn orphans_get_the_first_process()
    ensures before { (how_many family ≡ 5) × (parent_of family 3 ≡ 2) × (parent_of family 1 ≡ 0) }
    ensures killed { die_in family 2 9
        ≡ member 0 1 Alive ∷ member 1 5 (Ended 9) ∷ member 1 5 Alive ∷ None ∷ member 3 1 Alive ∷ None ∷ [] }
    ensures after { (how_many (die_in family 2 9) ≡ 4) × (parent_of (die_in family 2 9) 3 ≡ 1) × (parent_of (die_in family 2 9) 5 ≡ 3) }
    ensures first { die_in family 1 0 ≡ None ∷ None ∷ None ∷ None ∷ None ∷ None ∷ [] }
{}

/// The heaviest live process but the first is the victim, or the youngest; of equals it is the one of the highest pid.
pub fn the_heaviest_or_the_youngest_is_the_victim()
    ensures score { (score_of Heaviest (weight 2 2 1 3) ≡ 9408) × (score_of Youngest (weight 2 2 1 3) ≡ 2) }
    ensures heaviest { pid_of_greatest Heaviest weights ≡ Some 3 }
    ensures youngest { pid_of_greatest Youngest weights ≡ Some 4 }
    ensures family { (victim_of Heaviest (as_plain family) no_account ≡ Some 5) × (victim_of Youngest (as_plain family) no_account ≡ Some 5) }
    ensures alone { (victim_of Heaviest (as_plain alone) no_account ≡ None) × (victim_of Youngest (as_plain alone) no_account ≡ None) }
{}

/// The root's node and the working directories of the processes that run have to stay cached, each of them once; those of
/// processes that have ended need not.
pub fn the_living_pin_their_directories()
    ensures { (pins (as_plain family) ≡ 2) × (pins (as_plain alone) ≡ 1) × (pins (as_plain (die_in family 1 0)) ≡ 1) }
{}

/// At boot everybody is up. After an entry those sleep whose calls block then, and of whom either the entry itself says that
/// the call slept or did a part, or who slept before and aren't those whose entry it is.
pub fn sleepers_have_blocked_ever_since()
    ensures boot { (script : Script) (pid : ℕ) → is_up (boot_past script) pid ≡ true }
    ensures later { (script : Script) (past : Past) (added : Entry) (next : Past) (pid : ℕ) → MayFollow script past added next
        → is_up next pid ≡ not (would_block script next.plain pid && (sleeps_by pid added || (not (is_of pid added) && not (is_up past pid)))) }
{}

/// In every history no more was evicted of a cache than the calls so far could have put there.
pub fn what_is_evicted_was_cached()
    ensures { (script : Script) (history : List Entry) (past : Past) → IsRun script history past → AreCovered past.evicted past.filled }
{}

/// The call of a process that has ended is given up once.
pub fn a_call_is_given_up_once()
    ensures once { (script : Script) (past : Past) (pid : ℕ) (kind : CallKind) (next : Past) → MayFollow script past (Gone pid kind) next
        → (is_among pid past.gone ≡ false) × (is_among pid next.gone ≡ true) }
    ensures kept { (script : Script) (past : Past) (added : Entry) (next : Past) (pid : ℕ) → MayFollow script past added next
        → is_among pid past.gone ≡ true → is_among pid next.gone ≡ true }
{}
