//! What the signals that a process may ignore do, under all calls. Each law is the contract of a function that does nothing.

ghost use Rattle.std.specs.Prelude.{◌≡◌, ◌≢◌, ℕ, ℤ, pos, true};
ghost use Rattle.kabi_types.specs.Arguments.{count_of};
ghost use Rattle.kabi_types.specs.declared.calls.Call.{Call};
ghost use Rattle.kabi_types.specs.declared.calls.Call.TheVariants.{Kill, Signal, Write};
ghost use Rattle.kabi_types.specs.declared.scripts.Script.{Script};
ghost use Rattle.kabi_types.specs.declared.errnos.Errno.TheVariants.{ENOMEM};
ghost use Rattle.kabi_types.specs.declared.replies.Reply.TheVariants.{Fail};
ghost use Rattle.posix_defs.specs.Answer.{Ended};
ghost use Rattle.posix_defs.specs.Ending.{die};
ghost use Rattle.posix_defs.specs.Machine.{machine};
ghost use Rattle.posix_defs.specs.Plain.{Plain, answered, boot_plain};
ghost use Rattle.posix_defs.specs.Process.{ignores_of, is_alive};
ghost use Rattle.posix_defs.specs.Signals.{is_ignored};
ghost use Rattle.machine_laws.specs.FileSteps.{LeadsTo};
ghost use Rattle.machine_laws.specs.Signals.{AllIgnore, EndsByPipe, machine_before, minds_no_signal};

/// Who ignores a signal isn't ended by it: a `kill` with it leaves every process as it is, and a write of who ignores SIGPIPE doesn't
/// end.
pub fn who_ignores_a_signal_is_not_ended_by_it()
    ensures sent { (script : Script) (plain : Plain) (pid target : ℕ) (signal : ℤ) → is_ignored (ignores_of plain.table target) (count_of signal) ≡ true
        → LeadsTo (λ next. next.table ≡ plain.table) (machine script plain pid (Kill (pos target) signal)) }
    ensures broken { (script : Script) (plain : Plain) (pid : ℕ) (fd addr n : ℤ) (done status : ℕ) (next : Plain) → (ignores_of plain.table pid).broken_pipe ≡ true
        → machine script plain pid (Write fd addr n done) ≢ Ended status next }
{}

/// No `kill` ends the first process, whatever it ignores.
pub fn no_kill_ends_the_first_process()
    ensures { (script : Script) (plain : Plain) (pid : ℕ) (target signal : ℤ) → is_alive plain.table 1 ≡ true
        → LeadsTo (λ next. is_alive next.table 1 ≡ true) (machine script plain pid (Kill target signal)) }
{}

/// A write that ends its caller has moved nothing: that one's end is all that has come about.
pub fn a_write_that_ends_its_caller_moved_nothing()
    ensures { (script : Script) (plain : Plain) (pid : ℕ) (fd addr n : ℤ) (done status : ℕ) (next : Plain)
        → machine script plain pid (Write fd addr n done) ≡ Ended status next → EndsByPipe plain pid done status next }
{}

/// At boot the two signals are ignored, and so they stay while nobody makes `signal`; where they are, every call that has nothing to do
/// with them answers what it would if no process could ignore anything, and no write ended its caller.
pub fn without_signal_all_is_as_before()
    ensures boot { (script : Script) → AllIgnore (boot_plain script) }
    ensures stays { (script : Script) (plain : Plain) (pid : ℕ) (call : Call) → AllIgnore plain → ((which disposition : ℤ) → call ≢ Signal which disposition)
        → LeadsTo AllIgnore (machine script plain pid call) }
    ensures refused { (script : Script) (plain : Plain) (pid : ℕ) → AllIgnore plain → AllIgnore (answered script plain pid (Fail ENOMEM)) }
    ensures killed { (plain : Plain) (pid status : ℕ) → AllIgnore plain → AllIgnore (die plain pid status) }
    ensures same { (script : Script) (plain : Plain) (pid : ℕ) (call : Call) → AllIgnore plain → minds_no_signal call ≡ true
        → machine script plain pid call ≡ machine_before script plain pid call }
{}
