//! The law of the ends of pipes. It is the contract of a function that does nothing.

ghost use Rattle.std.specs.Prelude.{ℕ};
ghost use Rattle.kabi_types.specs.declared.calls.Call.{Call};
ghost use Rattle.kabi_types.specs.declared.scripts.Script.{Script};
ghost use Rattle.posix_defs.specs.Ending.{die};
ghost use Rattle.posix_defs.specs.Plain.{Plain, boot_plain};
ghost use Rattle.posix_defs.specs.Machine.{machine};
ghost use Rattle.machine_laws.specs.FileSteps.{LeadsTo};
ghost use Rattle.machine_laws.specs.Reached.{IsReached};
ghost use Rattle.machine_laws.specs.Piped.{ArePiped};

/// A pipe counts the descriptions that are open on its ends: it is there as long as one is, holds at most 4096 bytes, and
/// none that nobody can read. So it is at the beginning, whatever a call is answered, where a process is killed, and in
/// every machine that is reached.
pub fn pipes_count_their_ends()
    ensures boot { (script : Script) → ArePiped (boot_plain script).files.descriptions (boot_plain script).files.pipes }
    ensures answered { (script : Script) (plain : Plain) (pid : ℕ) (call : Call) → ArePiped plain.files.descriptions plain.files.pipes
        → LeadsTo (λ next. ArePiped next.files.descriptions next.files.pipes) (machine script plain pid call) }
    ensures killed { (plain : Plain) (pid status : ℕ) → ArePiped plain.files.descriptions plain.files.pipes
        → ArePiped (die plain pid status).files.descriptions (die plain pid status).files.pipes }
    ensures reached { (script : Script) (plain : Plain) → IsReached script plain → ArePiped plain.files.descriptions plain.files.pipes }
{}
