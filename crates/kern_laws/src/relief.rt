//! Laws of kills and evictions. Each is the contract of a function that does nothing.

ghost use Rattle.std.specs.Prelude.{◌≡◌, ◌≢◌, ℕ, ◌+◌, ◌*◌, ◌<◌, ◌≤◌, ◌↔◌, ◌⊎◌, ◌||◌, not, true, false, List, [], None, Some, IsSome, length};
ghost use Rattle.std.specs.List.{list_any};
ghost use Rattle.kabi_types.specs.Class.{size};
ghost use Rattle.kabi_types.specs.declared.classes.Class.TheVariants.{Vnode};
ghost use Rattle.kabi_types.specs.declared.entries.Cached.{Cached};
ghost use Rattle.kabi_types.specs.declared.entries.End.{End};
ghost use Rattle.kabi_types.specs.declared.entries.End.TheVariants.{Spent, Starved};
ghost use Rattle.kabi_types.specs.declared.entries.Event.TheVariants.{Kill};
ghost use Rattle.kabi_types.specs.declared.entries.Noted.{Noted};
ghost use Rattle.kabi_types.specs.declared.scripts.Script.{Script};
ghost use Rattle.posix_defs.specs.declared.phases.Asked.{Asked};
ghost use Rattle.posix_defs.specs.declared.phases.Phase.TheVariants.{Waiting};
ghost use Rattle.posix_defs.specs.Process.{is_alive};
ghost use Rattle.posix_defs.specs.Plain.{last_pid};
ghost use Rattle.posix_defs.specs.World.{World, MayKeep, base, live_of, pins};
ghost use Rattle.posix_defs.specs.Relief.{Evicts};
ghost use Rattle.posix_defs.specs.CoreState.{CoreState, asked_by, fits, is_waiting, none_admitted, phase_of, some_fits, some_wait_in_vain};
ghost use Rattle.posix_defs.specs.SoundTasks.{IsSound};
ghost use Rattle.posix_defs.specs.Licence.{can_evict_any, is_licensed};
ghost use Rattle.posix_defs.specs.Enabled.{IsEnabled};
ghost use Rattle.posix_defs.specs.CoreEvent.{Steps, Turns};
ghost use Rattle.posix_defs.specs.Ends.{end_of};
ghost use Rattle.posix_defs.specs.Choice.{default_of, enabled_in};
ghost use Rattle.posix_defs.specs.CoreRun.{IsCoreRun};

/// A process is killed only where some call waits for which there is no room, no call is admitted, none that waits fits,
/// and nothing can be evicted; it is alive, and isn't the first one.
pub fn a_kill_is_the_last_resort()
    ensures { (script : Script) (s : CoreState) (pid : ℕ) → IsEnabled script s (Kill pid)
        → (some_wait_in_vain script s ≡ true) × (none_admitted s ≡ true) × (some_fits script s ≡ false) × (can_evict_any s.world ≡ false)
        × (pid ≢ 1) × (is_alive s.world.plain.table pid ≡ true) }
{}

/// In every state that a run of the core leads to, in which some call waits and no end stands, a call is admitted, which has
/// its turn or is abandoned, or one that waits fits, or something can be evicted, or a kill is licensed.
pub fn a_call_that_waits_is_helped()
    ensures { (script : Script) (steps : ℕ) (run : List Noted) (s : CoreState) → IsCoreRun script steps run s
        → end_of script steps (length run) s ≡ None → list_any (λ task. is_waiting task.phase) s.tasks ≡ true
        → (not (none_admitted s) || some_fits script s || can_evict_any s.world || is_licensed script s) ≡ true }
{}

/// After each event of a run, a kill and an eviction among them, an end stands or some event may be taken; and an eviction
/// makes room.
pub fn relief_goes_on()
    ensures later { (script : Script) (steps : ℕ) (run : List Noted) (old new : CoreState) (noted : Noted) → IsCoreRun script steps run old
        → end_of script steps (length run) old ≡ None → Steps script old noted new
        → end_of script steps (length run + 1) new ≡ None → IsSome (default_of script new) }
    ensures room { (old : World) (what : Cached) (new : World) → Evicts old what new → live_of new < live_of old }
{}

/// The live bytes that a kill tells fix that nothing was left to evict: they are those of a world that keeps the pinned nodes
/// alone.
pub fn the_live_of_a_kill_tells_that_nothing_is_left()
    ensures { (world : World) → MayKeep world.plain world.kept
        → (live_of world ≡ base world.plain world.account + size Vnode * pins world.plain) ↔ (can_evict_any world ≡ false) }
{}

/// A turn leaves what every other process asks for next, and so its bound.
pub fn a_turn_leaves_the_calls_of_others()
    ensures { (script : Script) (old : CoreState) (pid : ℕ) (noted : Noted) (new : CoreState) (other : ℕ) → IsSound script old
        → Turns script old pid noted new → other ≢ pid → other ≤ last_pid old.world.plain
        → asked_by script new.world.plain other ≡ asked_by script old.world.plain other }
{}

/// Of all ends `Starved` alone leaves a live call waiting for room, but for `Spent`. The call is the first process's, which asks
/// for more than there is room for; and it waits for good, since no event may be taken then.
pub fn starved_alone_leaves_a_call_waiting()
    ensures alone { (script : Script) (steps : ℕ) (run : List Noted) (s : CoreState) (end : End) → IsCoreRun script steps run s
        → end_of script steps (length run) s ≡ Some end → list_any (λ task. is_waiting task.phase) s.tasks ≡ true
        → ((need : ℕ) × (end ≡ Starved 1 need)) ⊎ (end ≡ Spent) }
    ensures waits { (script : Script) (steps : ℕ) (run : List Noted) (s : CoreState) (pid need : ℕ) → IsCoreRun script steps run s
        → end_of script steps (length run) s ≡ Some (Starved pid need)
        → (pid ≡ 1) × (asked : Asked) × (phase_of s 1 ≡ Waiting asked) × (asked.bound ≡ need) × (fits script s asked ≡ false) }
    ensures for_good { (script : Script) (steps : ℕ) (run : List Noted) (s : CoreState) (pid need : ℕ) → IsCoreRun script steps run s
        → end_of script steps (length run) s ≡ Some (Starved pid need) → enabled_in script s ≡ [] }
{}
