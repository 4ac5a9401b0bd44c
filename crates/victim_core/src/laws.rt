//! Laws of victims. Each is the contract of a function that does nothing.

ghost use Rattle.std.specs.Prelude.{◌≡◌, ◌≢◌, ◌==◌, ℕ, ◌<◌, List, filter, not, length, slice_index, Some};
ghost use Rattle.kabi_types.specs.declared.classes.Weight.{Weight};
ghost use Rattle.kabi_types.specs.declared.scripts.Policy.{Policy};
ghost use Rattle.posix_defs.specs.Victim.{pid_of_greatest};
ghost use Rattle.victim_core.specs.Victims.{IsVictim, RisesByPid};

/// Of the same weights only one pid is the victim's.
pub fn victims_are_one()
    ensures { (policy : Policy) (weights : List Weight) (pid : ℕ) (other : ℕ)
        → IsVictim policy weights pid → IsVictim policy weights other → pid ≡ other }
{}

/// Of weights by rising pid, the first process's left out, the victim is the one that the machine's own definition names.
pub fn victim_is_the_machines()
    ensures { (policy : Policy) (weights : List Weight) (pid : ℕ)
        → RisesByPid weights → IsVictim policy weights pid
        → pid_of_greatest policy (filter (λ w. not (w.pid == 1)) weights) ≡ Some pid }
{}
