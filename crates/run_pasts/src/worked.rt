//! Worked histories, computed: of each how many of its entries may come, one after another. Each is the contract of a
//! function that does nothing.

ghost use Rattle.std.specs.Prelude.{◌≡◌, [], ◌∷◌};
ghost use Rattle.kabi_types.specs.declared.calls.CallKind.TheVariants.{Exit, Getpid, Kill, Poll, Waitpid};
ghost use Rattle.kabi_types.specs.declared.entries.Cached.TheVariants.{Name};
ghost use Rattle.kabi_types.specs.declared.entries.Entry.TheVariants.{Done, Evicted, Gone, Killed, Slept};
ghost use Rattle.kabi_types.specs.declared.replies.Reply.TheVariants.{Waited};
ghost use Rattle.run_pasts.specs.Worked.{cached_script, crowded, crowded_script, crowding, dreaming, dropped, falls, gave, good, killed, killed_script, killing, spent, spent_script, starved, starved_script};

/// All twenty entries of a process in a loop may come; another pid is no answer, and nothing is cached that could go.
pub fn a_loop_is_followed()
    ensures all { good spent_script spent ≡ 20 }
    ensures pid { good spent_script (gave 1 Getpid 2 ∷ []) ≡ 0 }
    ensures nothing { good spent_script (Evicted Name ∷ spent) ≡ 0 }
{}

/// Children that are killed while they sleep, and one whose call is given up: who sleeps doesn't fall asleep again, a call is
/// given up once and never that of who lives, and a status is a signal or an exit.
pub fn killed_children_are_followed()
    ensures all { good killed_script killed ≡ 17 }
    ensures again { good killed_script (dreaming (Slept 3 Poll ∷ [])) ≡ 5 }
    ensures exit { good killed_script (dreaming (gave 1 Kill 0 ∷ Done 1 Waitpid (Waited 3 2304) ∷ [])) ≡ 6 }
    ensures twice { good killed_script (dreaming (killing (Gone 4 Poll ∷ []))) ≡ 12 }
    ensures living { good killed_script (dreaming (Gone 3 Poll ∷ [])) ≡ 5 }
    ensures kind { good killed_script (dreaming (killing (Gone 3 Exit ∷ []))) ≡ 12 }
{}

/// A call above all room is refused with its bound, and with no other.
pub fn a_refusal_is_followed()
    ensures all { good starved_script (starved 10368) ≡ 4 }
    ensures bound { good starved_script (starved 10367) ≡ 2 }
{}

/// The heaviest are killed, of equals the youngest first, so that the fork of one of them may fit, who is the last of them; not
/// out of order, not with other live bytes, and not while what is asked for fits.
pub fn kills_are_followed()
    ensures all { good crowded_script crowded ≡ 13 }
    ensures order { good crowded_script (crowding (falls 5 ∷ [])) ≡ 6 }
    ensures live { good crowded_script (crowding (Killed 6 2 3328 3264 ∷ [])) ≡ 6 }
    ensures sleeper { good crowded_script (crowding (Killed 6 1 0 3200 ∷ [])) ≡ 6 }
    ensures first { good crowded_script (falls 2 ∷ []) ≡ 0 }
{}

/// Behind a walk two names may go, and no third.
pub fn evictions_are_followed()
    ensures { good cached_script dropped ≡ 3 }
{}
