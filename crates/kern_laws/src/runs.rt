//! Laws of the core's runs, and of the histories that they tell. Each is the contract of a function that does nothing.

ghost use Rattle.std.specs.Prelude.{◌≡◌, ℕ, ◌<◌, ◌≤◌, List, [], ◌∷◌, None, Some, IsSome, slice_get, length, map, pos};
ghost use Rattle.std.specs.List.{AllByRecursion};
ghost use Rattle.kabi_types.specs.declared.calls.CallKind.{CallKind};
ghost use Rattle.kabi_types.specs.declared.entries.End.TheVariants.{Finished};
ghost use Rattle.kabi_types.specs.declared.entries.Entry.{Entry};
ghost use Rattle.kabi_types.specs.declared.entries.Entry.TheVariants.{Done, Part, Refused, Slept, Ended};
ghost use Rattle.kabi_types.specs.declared.entries.Event.{Event};
ghost use Rattle.kabi_types.specs.declared.entries.Noted.{Noted};
ghost use Rattle.kabi_types.specs.declared.scripts.Script.{Script};
ghost use Rattle.kabi_types.specs.declared.replies.Reply.{Reply};
ghost use Rattle.posix_defs.specs.Needs.{bound};
ghost use Rattle.posix_defs.specs.Sizes.{fixed, room};
ghost use Rattle.posix_defs.specs.declared.phases.Asked.{Asked};
ghost use Rattle.posix_defs.specs.declared.phases.Phase.TheVariants.{Admitted, Asleep};
ghost use Rattle.posix_defs.specs.Plain.{call_of};
ghost use Rattle.posix_defs.specs.CoreState.{CoreState, charged_in, held};
ghost use Rattle.posix_defs.specs.SoundTasks.{IsSound};
ghost use Rattle.posix_defs.specs.Ends.{end_of};
ghost use Rattle.posix_defs.specs.Generator.{next_state, state_after, choice_of};
ghost use Rattle.posix_defs.specs.Enabled.{IsEnabled};
ghost use Rattle.posix_defs.specs.Choice.{enabled_in, default_of, picked_of};
ghost use Rattle.posix_defs.specs.CoreRun.{IsCoreRun, IsPickedRun, entries_of};
ghost use Rattle.posix_defs.specs.FirstScript.{first_script, first_run, first_report, pid_run};
ghost use Rattle.posix_defs.specs.Lines.{report};
ghost use Rattle.posix_defs.specs.History.{Past, IsRun, MayFollow, WantsNothing};

/// In every state that a run of the core leads to, what is charged is at most the heap.
pub fn charged_stays_within_the_heap()
    ensures { (script : Script) (steps : ℕ) (run : List Noted) (s : CoreState)
        → IsCoreRun script steps run s → fixed ≤ script.heap → charged_in s ≤ script.heap }
{}

/// Every state that a run of the core leads to is sound: its tasks are those of the processes that are alive, and of those
/// that have ended while their call was admitted, by rising pid; and what a task has asked for is its process's next call,
/// which the heap can give. So no call that sleeps holds anything in reserve, and nothing is held for anybody else.
pub fn every_state_is_sound()
    ensures sound { (script : Script) (steps : ℕ) (run : List Noted) (s : CoreState) → IsCoreRun script steps run s → IsSound script s }
    ensures asleep { (asked : Asked) → held (Asleep asked) ≡ 0 }
    ensures admitted { (asked : Asked) → held (Admitted asked) ≡ asked.bound }
{}

/// In every state that a run of the core leads to and in which no end stands, some event may be taken.
pub fn something_can_be_taken()
    ensures { (script : Script) (steps : ℕ) (run : List Noted) (s : CoreState)
        → IsCoreRun script steps run s → end_of script steps (length run) s ≡ None → IsSome (default_of script s) }
{}

/// Where one event is enabled it is picked, whoever chooses. Whatever is picked is enabled, and where some event is
/// enabled one is picked.
pub fn what_is_picked_is_enabled()
    ensures one { (script : Script) (j : ℕ) (s : CoreState) (event : Event)
        → enabled_in script s ≡ event ∷ [] → IsSome (default_of script s) → picked_of script j s ≡ Some event }
    ensures enabled { (script : Script) (j : ℕ) (s : CoreState) (event : Event)
        → IsSound script s → picked_of script j s ≡ Some event → IsEnabled script s event }
    ensures some { (script : Script) (j : ℕ) (s : CoreState)
        → IsSome (default_of script s) → IsSome (picked_of script j s) }
{}

/// In a sound state the events that are listed are those that may be taken, and no others.
pub fn events_are_listed_where_they_may_be_taken()
    ensures listed { (script : Script) (s : CoreState) (i : ℕ) (event : Event)
        → IsSound script s → slice_get (enabled_in script s) i ≡ Some event → IsEnabled script s event }
    ensures all { (script : Script) (s : CoreState) (event : Event)
        → IsEnabled script s event → (i : ℕ) × (slice_get (enabled_in script s) i ≡ Some event) }
{}

/// A run by the rule of choice is a run of the core.
pub fn a_picked_run_is_a_run()
    ensures { (script : Script) (steps : ℕ) (run : List Noted) (s : CoreState)
        → IsPickedRun script steps run s → IsCoreRun script steps run s }
{}

/// The generator, computed by hand: three seeds, and for one of them four choices.
pub fn the_generator_is_this_one()
    ensures seven { next_state 7 ≡ 1282168116 }
    ensures choice { choice_of 1282168116 ≡ 19564 }
    ensures zero { map (λ j. choice_of (state_after 0 j)) (1 ∷ 2 ∷ []) ≡ 0 ∷ 21468 ∷ [] }
    ensures one { map (λ j. choice_of (state_after 1 j)) (1 ∷ 2 ∷ 3 ∷ 4 ∷ []) ≡ 16838 ∷ 5758 ∷ 10113 ∷ 17515 ∷ [] }
{}

/// The entries of every run of the core are a legal history, which ends in the same plain machine with the same account.
pub fn entries_are_a_legal_history()
    ensures { (script : Script) (steps : ℕ) (run : List Noted) (s : CoreState) → IsCoreRun script steps run s
        → (past : Past) × IsRun script (entries_of run) past × (past.plain ≡ s.world.plain) × (past.account ≡ s.world.account) }
{}

/// In a legal history no reply is ENOMEM: that is answered as a refusal alone.
pub fn no_reply_wants_memory()
    ensures { (script : Script) (history : List Entry) (past : Past)
        → IsRun script history past → AllByRecursion WantsNothing history }
{}

/// A call is refused exactly where its bound is above the room: only there may a refusal come next, and no answer of the
/// machine may.
pub fn refusals_stand_above_the_room()
    ensures refused { (script : Script) (past next : Past) (pid : ℕ) (kind : CallKind) (asked : ℕ)
        → MayFollow script past (Refused pid kind asked) next
        → (asked ≡ bound (call_of script past.plain pid)) × (room script.heap < bound (call_of script past.plain pid)) }
    ensures answered { (script : Script) (past next : Past) (pid : ℕ) (kind : CallKind) (reply : Reply)
        → MayFollow script past (Done pid kind reply) next → bound (call_of script past.plain pid) ≤ room script.heap }
    ensures moved { (script : Script) (past next : Past) (pid : ℕ) (kind : CallKind) (moved : ℕ)
        → MayFollow script past (Part pid kind moved) next → bound (call_of script past.plain pid) ≤ room script.heap }
    ensures slept { (script : Script) (past next : Past) (pid : ℕ) (kind : CallKind)
        → MayFollow script past (Slept pid kind) next → bound (call_of script past.plain pid) ≤ room script.heap }
    ensures ended { (script : Script) (past next : Past) (pid : ℕ) (kind : CallKind) (status : ℕ)
        → MayFollow script past (Ended pid kind status) next → bound (call_of script past.plain pid) ≤ room script.heap }
{}

/// The worked example: its six events are a run of the core, which ends with the first process, and the report of that
/// run is this text.
pub fn the_first_script_runs()
    ensures runs { (s : CoreState) × IsCoreRun first_script 1000 first_run s × (end_of first_script 1000 (length first_run) s ≡ Some Finished) × (charged_in s ≡ 2304) × (s.world.reads ≡ 0) }
    ensures reported { report first_run Finished 2304 0 ≡ first_report }
{}

/// No run of the worked example tells another pid, and none charges a byte more.
pub fn nothing_else_is_its_run()
    ensures pid { (s : CoreState) → IsCoreRun first_script 1000 (pid_run 2816 (pos 2)) s → ⊥ }
    ensures charged { (s : CoreState) → IsCoreRun first_script 1000 (pid_run 2817 (pos 1)) s → ⊥ }
{}
