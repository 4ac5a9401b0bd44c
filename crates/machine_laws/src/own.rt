//! What a process has by itself changes by its own calls alone. Each law is the contract of a function that does nothing.

ghost use Rattle.std.specs.Prelude.{◌≡◌, ◌≢◌, ℕ, true, false};
ghost use Rattle.kabi_types.specs.declared.calls.Call.{Call};
ghost use Rattle.kabi_types.specs.declared.calls.Call.TheVariants.{Fork};
ghost use Rattle.kabi_types.specs.declared.scripts.Script.{Script};
ghost use Rattle.kabi_types.specs.declared.errnos.Errno.TheVariants.{ENOMEM};
ghost use Rattle.kabi_types.specs.declared.replies.Reply.TheVariants.{Fail};
ghost use Rattle.posix_defs.specs.Ending.{die};
ghost use Rattle.posix_defs.specs.Machine.{machine};
ghost use Rattle.posix_defs.specs.Plain.{Plain, answered};
ghost use Rattle.posix_defs.specs.Process.{is_alive};
ghost use Rattle.machine_laws.specs.FileSteps.{LeadsTo};
ghost use Rattle.machine_laws.specs.Reached.{IsReached};
ghost use Rattle.machine_laws.specs.Own.{InheritsWhere, IsEndedBy, IsLeftAlone};

/// Whatever a call of one process is answered, another that lives before it and after it has what it had: in memory, as its
/// working directory, in its registers and its place in its program, in the open of a FIFO that it waits in, and under each of its numbers, which names the description
/// that it named, and it ignores the signals that it ignored. Of a description of which the caller has no number the offset and the flags stay too. Where it doesn't live
/// after it, the call was a `kill` of it, or ended the first process.
pub fn another_call_leaves_alone()
    ensures alone { (script : Script) (plain : Plain) → IsReached script plain → (pid who : ℕ) (call : Call) → is_alive plain.table pid ≡ true
        → who ≢ pid → is_alive plain.table who ≡ true
        → LeadsTo (λ next. is_alive next.table who ≡ true → IsLeftAlone pid who plain next) (machine script plain pid call) }
    ensures ended { (script : Script) (plain : Plain) (pid who : ℕ) (call : Call) → who ≢ pid → is_alive plain.table who ≡ true
        → LeadsTo (λ next. is_alive next.table who ≡ false → IsEndedBy pid who call) (machine script plain pid call) }
{}

/// So it is where another's call is refused, and where another is killed.
pub fn kills_and_refusals_leave_alone()
    ensures refused { (script : Script) (plain : Plain) → IsReached script plain → (pid who : ℕ) → who ≢ pid
        → IsLeftAlone pid who plain (answered script plain pid (Fail ENOMEM)) }
    ensures killed { (script : Script) (plain : Plain) → IsReached script plain → (pid status who : ℕ) → who ≢ pid → is_alive plain.table who ≡ true
        → is_alive (die plain pid status).table who ≡ true → IsLeftAlone pid who plain (die plain pid status) }
{}

/// A process that is made begins with what its parent has: in memory, as its working directory and under its numbers, and it ignores
/// the signals that that one ignores.
pub fn a_child_begins_with_what_its_parent_has()
    ensures { (script : Script) (plain : Plain) → IsReached script plain → (pid : ℕ) → InheritsWhere plain pid (machine script plain pid Fork) }
{}
