//! Laws of what all forty-six calls are answered. Each is the contract of a function that does nothing.

ghost use Rattle.std.specs.Prelude.{◌≡◌, ◌≢◌, ℕ, true};
ghost use Rattle.kabi_types.specs.declared.calls.Call.{Call};
ghost use Rattle.kabi_types.specs.declared.scripts.Script.{Script};
ghost use Rattle.kabi_types.specs.declared.errnos.Errno.{Errno};
ghost use Rattle.kabi_types.specs.declared.errnos.Errno.TheVariants.{ENOMEM};
ghost use Rattle.kabi_types.specs.declared.replies.Reply.{Reply};
ghost use Rattle.kabi_types.specs.declared.replies.Reply.TheVariants.{Fail};
ghost use Rattle.posix_defs.specs.Plain.{Plain, answered};
ghost use Rattle.posix_defs.specs.Answer.{Blocked, Done};
ghost use Rattle.posix_defs.specs.Machine.{machine};
ghost use Rattle.answer_laws.specs.Shapes.{HasShape, may_block};

/// Whatever a call is answered, it has one of thirteen shapes: of processes nothing changes but its caller's control, memory,
/// directory or the signals that it ignores, but for a child that is made or reaped, for a program that is started, and for a
/// process that ends. A directory changes by `chdir` alone, which signals are ignored by `signal` alone, a part is done of a
/// `write` alone, or of an `open` of a FIFO that waits for the other side, and another process is ended by `kill` alone.
pub fn every_answer_has_a_shape()
    ensures { (script : Script) (plain : Plain) (pid : ℕ) (call : Call) → HasShape script plain pid call (machine script plain pid call) }
{}

/// A call that is answered with an errno leaves all but its caller's control as it was, files and memory too, and the errno
/// isn't ENOMEM.
pub fn an_error_changes_the_control_alone_of_all_calls()
    ensures { (script : Script) (plain : Plain) (pid : ℕ) (call : Call) (errno : Errno) (next : Plain)
        → machine script plain pid call ≡ Done (Fail errno) next → (next ≡ answered script plain pid (Fail errno)) × (errno ≢ ENOMEM) }
{}

/// No call is answered ENOMEM: that is a refusal's alone, and the machine refuses nothing.
pub fn no_reply_of_any_call_wants_memory()
    ensures { (script : Script) (plain : Plain) (pid : ℕ) (call : Call) (reply : Reply) (next : Plain)
        → machine script plain pid call ≡ Done reply next → reply ≢ Fail ENOMEM }
{}

/// Of all calls `waitpid`, `read`, `write`, `accept`, `poll`, `open` and `setlkw` alone may block. A `connect` never does: its peer waits
/// for it.
pub fn seven_calls_alone_may_block()
    ensures { (script : Script) (plain : Plain) (pid : ℕ) (call : Call)
        → machine script plain pid call ≡ Blocked → may_block call ≡ true }
{}
