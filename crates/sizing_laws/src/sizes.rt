//! Laws of how much heap is enough. Each is the contract of a function that does nothing.

ghost use Rattle.std.specs.Prelude.{◌≡◌, ◌≤◌, ℕ, false, List};
ghost use Rattle.std.specs.List.{list_any};
ghost use Rattle.kabi_types.specs.declared.calls.Call.{Call};
ghost use Rattle.kabi_types.specs.declared.entries.Noted.{Noted};
ghost use Rattle.kabi_types.specs.declared.scripts.Script.{Script};
ghost use Rattle.posix_defs.specs.CoreRun.{Anyhow, AsChosen, IsCoreRun, IsPickedRun};
ghost use Rattle.posix_defs.specs.CoreState.{CoreState};
ghost use Rattle.posix_defs.specs.Machine.{machine};
ghost use Rattle.posix_defs.specs.Plain.{Plain, call_of};
ghost use Rattle.posix_defs.specs.Sizes.{fixed};
ghost use Rattle.sizing_laws.specs.Demand.{AllFit, IsSameUnder, is_kill, need_of, with_heap};

/// A run in which each call that waits fits, and none is refused, is event for event and reply for reply the run under every
/// greater heap too, with the same script but for that line; and it ends there as it does here.
pub fn more_heap_changes_nothing()
    ensures { (script : Script) (heap steps : ℕ) (run : List Noted) (s : CoreState) (r : IsPickedRun script steps run s)
        → fixed ≤ script.heap → AllFit script.heap r → script.heap ≤ heap
        → IsSameUnder (AsChosen (with_heap script heap)) script heap steps run s }
{}

/// Of two heaps that have what a run asks for, the lesser and the greater alike, the run is the same: in the order that the script
/// chooses, and in any other. So the need of a run under the greatest heap there is says from which heap on it is this one.
pub fn enough_is_enough()
    ensures chosen { (script : Script) (heap steps : ℕ) (run : List Noted) (s : CoreState) (r : IsPickedRun script steps run s)
        → need_of r ≤ script.heap → need_of r ≤ heap → IsSameUnder (AsChosen (with_heap script heap)) script heap steps run s }
    ensures anyhow { (script : Script) (heap steps : ℕ) (run : List Noted) (s : CoreState) (r : IsCoreRun script steps run s)
        → need_of r ≤ script.heap → need_of r ≤ heap → IsSameUnder Anyhow script heap steps run s }
{}

/// What a run asks for is the least heap in which each call fits that waits in one of its states, and in which none of its calls
/// is refused: in that one they do, and each heap in which they do has as much.
pub fn the_need_is_the_least_that_fits()
    ensures fits { (script : Script) (heap steps : ℕ) (run : List Noted) (s : CoreState) (r : IsPickedRun script steps run s)
        → need_of r ≤ heap → AllFit heap r }
    ensures least { (script : Script) (heap steps : ℕ) (run : List Noted) (s : CoreState) (r : IsPickedRun script steps run s)
        → fixed ≤ heap → AllFit heap r → need_of r ≤ heap }
    ensures fits_anyhow { (script : Script) (heap steps : ℕ) (run : List Noted) (s : CoreState) (r : IsCoreRun script steps run s)
        → need_of r ≤ heap → AllFit heap r }
    ensures least_anyhow { (script : Script) (heap steps : ℕ) (run : List Noted) (s : CoreState) (r : IsCoreRun script steps run s)
        → fixed ≤ heap → AllFit heap r → need_of r ≤ heap }
{}

/// Where the heap has what a run asks for, nobody is killed so that another's call may fit.
pub fn nobody_is_killed_where_all_fit()
    ensures chosen { (script : Script) (steps : ℕ) (run : List Noted) (s : CoreState) (r : IsPickedRun script steps run s)
        → need_of r ≤ script.heap → list_any (λ noted. is_kill noted.event) run ≡ false }
    ensures anyhow { (script : Script) (steps : ℕ) (run : List Noted) (s : CoreState) (r : IsCoreRun script steps run s)
        → need_of r ≤ script.heap → list_any (λ noted. is_kill noted.event) run ≡ false }
{}

/// The plain machine asks nothing of a heap: with another one each process makes the same call, and is answered the same.
pub fn the_heap_is_no_part_of_the_machine()
    ensures made { (script : Script) (heap : ℕ) (plain : Plain) (pid : ℕ)
        → call_of (with_heap script heap) plain pid ≡ call_of script plain pid }
    ensures answered { (script : Script) (heap : ℕ) (plain : Plain) (pid : ℕ) (call : Call)
        → machine (with_heap script heap) plain pid call ≡ machine script plain pid call }
{}
