//! Laws of what processes have open, under all forty-three calls. Each is the contract of a function that does nothing.

ghost use Rattle.std.specs.Prelude.{◌≡◌, ℕ, true};
ghost use Rattle.kabi_types.specs.declared.calls.Call.{Call};
ghost use Rattle.kabi_types.specs.declared.scripts.Script.{Script};
ghost use Rattle.posix_defs.specs.Ending.{die};
ghost use Rattle.posix_defs.specs.Plain.{Plain, boot_plain};
ghost use Rattle.posix_defs.specs.Machine.{machine};
ghost use Rattle.posix_defs.specs.Process.{is_alive};
ghost use Rattle.machine_laws.specs.Described.{AreDescribed};
ghost use Rattle.machine_laws.specs.FileSteps.{LeadsTo};
ghost use Rattle.machine_laws.specs.Placed.{IsPlaced};
ghost use Rattle.machine_laws.specs.Reached.{IsReached};

/// Each process ever made has its 32 numbers of descriptors, and one that has ended has none of them open: so it is at the
/// beginning, whatever a live process's call is answered, and where one is killed.
pub fn who_has_ended_has_nothing_open()
    ensures boot { (script : Script) → IsPlaced (boot_plain script) }
    ensures answered { (script : Script) (plain : Plain) (pid : ℕ) (call : Call)
        → IsPlaced plain → is_alive plain.table pid ≡ true → LeadsTo IsPlaced (machine script plain pid call) }
    ensures killed { (plain : Plain) (pid status : ℕ) → IsPlaced plain → IsPlaced (die plain pid status) }
{}

/// What a descriptor names is there, and every description that is there is named by some descriptor: so it is at the
/// beginning, whatever a live process's call is answered, and where one is killed. None is left when the last of its
/// descriptors goes, and none goes before.
pub fn every_description_is_named()
    ensures boot { (script : Script) → AreDescribed (boot_plain script).files }
    ensures answered { (script : Script) (plain : Plain) (pid : ℕ) (call : Call) → IsPlaced plain → AreDescribed plain.files
        → is_alive plain.table pid ≡ true → LeadsTo (λ next. AreDescribed next.files) (machine script plain pid call) }
    ensures killed { (plain : Plain) (pid status : ℕ) → AreDescribed plain.files → AreDescribed (die plain pid status).files }
{}

/// In every machine that calls of live processes, refusals and kills lead to from the beginning, each process has its
/// numbers of descriptors, one that has ended has none open, what a descriptor names is there, and what is there is named.
pub fn what_is_open_is_named_in_every_machine()
    ensures { (script : Script) (plain : Plain) → IsReached script plain → IsPlaced plain × AreDescribed plain.files }
{}
