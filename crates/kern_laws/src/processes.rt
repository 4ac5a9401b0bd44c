//! Laws of processes. Each is the contract of a function that does nothing.

ghost use Rattle.std.specs.Prelude.{◌≡◌, ◌≢◌, ℕ, ◌+◌, pos, true, false, List, [], ◌∷◌, None, length};
ghost use Rattle.kabi_types.specs.declared.calls.Call.{Call};
ghost use Rattle.kabi_types.specs.declared.calls.Call.TheVariants.{Fork};
ghost use Rattle.kabi_types.specs.declared.entries.Entry.{Entry};
ghost use Rattle.kabi_types.specs.declared.errnos.Errno.{Errno};
ghost use Rattle.kabi_types.specs.declared.errnos.Errno.TheVariants.{ENOMEM};
ghost use Rattle.kabi_types.specs.declared.replies.Reply.TheVariants.{Fail, Val, Waited};
ghost use Rattle.kabi_types.specs.declared.scripts.Script.{Script};
ghost use Rattle.posix_defs.specs.Process.{is_alive};
ghost use Rattle.posix_defs.specs.Plain.{Plain, answered, boot_plain, last_pid};
ghost use Rattle.posix_defs.specs.Answer.{Blocked, Done, Ended};
ghost use Rattle.posix_defs.specs.Family.{IsFamily, IsKept, GoesOn, KeepsOn};
ghost use Rattle.posix_defs.specs.Machine.{machine};
ghost use Rattle.kern_laws.specs.TwoProcesses.{next_answer, two_entries, two_script};
ghost use Rattle.posix_defs.specs.History.{Past, IsRun, MayFollow};

/// In every machine that a history leads to, each process that is there, but the first, has a live parent that is older
/// than it; the first is there as long as it lives, and without it nobody is. As many processes were made as there are
/// controls.
pub fn processes_are_a_family()
    ensures family { (script : Script) (history : List Entry) (past : Past)
        → IsRun script history past → IsFamily past.plain.table }
    ensures counted { (script : Script) (history : List Entry) (past : Past)
        → IsRun script history past → length past.plain.table ≡ last_pid past.plain }
{}

/// Whatever a call of a live process is answered, with `fork`, `waitpid` and `kill` among the calls, keeps that.
pub fn answers_keep_a_family()
    ensures { (script : Script) (plain : Plain) (pid : ℕ) (call : Call)
        → IsKept plain → is_alive plain.table pid ≡ true → KeepsOn plain (machine script plain pid call) }
{}

/// A pid is never used again: who was waited for is never there again, and a fork gives the pid behind the last.
pub fn a_pid_is_never_used_again()
    ensures stays { (script : Script) (history : List Entry) (past : Past) (added : Entry) (next : Past)
        → IsRun script history past → MayFollow script past added next → GoesOn past.plain.table next.plain.table }
    ensures forked { (script : Script) (plain : Plain) (pid child : ℕ) (next : Plain)
        → machine script plain pid Fork ≡ Done (Val (pos child)) next → child ≡ last_pid plain + 1 }
{}

/// After the first process has ended nobody is alive.
pub fn nobody_outlives_the_first_process()
    ensures { (script : Script) (history : List Entry) (past : Past) → IsRun script history past
        → is_alive past.plain.table 1 ≡ false → (pid : ℕ) → is_alive past.plain.table pid ≡ false }
{}

/// A call that is answered with an errno leaves all but its caller's control as it was, and the errno isn't ENOMEM.
pub fn an_error_changes_the_control_alone()
    ensures { (script : Script) (plain : Plain) (pid : ℕ) (call : Call) (errno : Errno) (next : Plain)
        → machine script plain pid call ≡ Done (Fail errno) next → (next ≡ answered script plain pid (Fail errno)) × (errno ≢ ENOMEM) }
{}

/// The worked example: a process makes another, waits for it in vain until that one has ended with 7, is told 256 times 7,
/// and ends; then nobody is there.
pub fn two_processes_run()
    ensures { (forked ended told over : Plain)
        × (next_answer (boot_plain two_script) 1 ≡ Done (Val (pos 2)) forked)
        × (next_answer forked 1 ≡ Blocked)
        × (next_answer forked 2 ≡ Ended 1792 ended)
        × (next_answer ended 1 ≡ Done (Waited 2 1792) told)
        × (next_answer told 1 ≡ Ended 0 over)
        × (over.table ≡ None ∷ None ∷ []) }
{}

/// The same as a legal history: the first process sleeps on `waitpid` until its child has ended, and nobody is there at the end.
pub fn two_processes_have_a_history()
    ensures { (past : Past) × IsRun two_script two_entries past × (past.plain.table ≡ None ∷ None ∷ []) }
{}
