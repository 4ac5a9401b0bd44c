//! Laws of how files change in one call of the whole machine. Each is the contract of a function that does nothing.

ghost use Rattle.std.specs.Prelude.{ℕ};
ghost use Rattle.kabi_types.specs.declared.calls.Call.{Call};
ghost use Rattle.kabi_types.specs.declared.scripts.Script.{Script};
ghost use Rattle.posix_defs.specs.Plain.{Plain};
ghost use Rattle.posix_defs.specs.Machine.{machine};
ghost use Rattle.machine_laws.specs.FileSteps.{Steps};

/// Whatever a call is answered, of files nothing changes, or one step is taken: what each step needs to be taken is told
/// with it.
pub fn every_answer_takes_a_step()
    ensures { (script : Script) (plain : Plain) (pid : ℕ) (call : Call) → Steps plain pid call (machine script plain pid call) }
{}
