//! Laws of how programs go on. Each is the contract of a function that does nothing.

ghost use Rattle.std.specs.Prelude.{◌≡◌, ◌<◌, ℕ, pos, neg_ℤ, Some, None, length, slice_get, slice_set};
ghost use Rattle.kabi_types.specs.declared.calls.Call.TheVariants.{Exit};
ghost use Rattle.kabi_types.specs.declared.scripts.Control.{Control};
ghost use Rattle.kabi_types.specs.declared.scripts.Operand.TheVariants.{Number};
ghost use Rattle.kabi_types.specs.declared.scripts.Script.{Script};
ghost use Rattle.kabi_types.specs.declared.scripts.Statement.TheVariants.{Add};
ghost use Rattle.kabi_types.specs.declared.replies.Reply.{Reply};
ghost use Rattle.posix_defs.specs.Control.{after, call_of, local, register_of, restarted, settled, statement_of, statements_of};
ghost use Rattle.posix_defs.specs.ScriptValues.{least_value, greatest_value};
ghost use Rattle.posix_defs.specs.ValidScript.{IsValid};
ghost use Rattle.prog_ctl.specs.Runnable.{Rests, Stands};

/// The local statements lead to a call or to the end of the program. There the next call is the one that was made before
/// them, and they lead no further.
pub fn asked_again_the_call_is_the_same()
    ensures rests { (script : Script) (control : Control) → Stands script control → Rests script (settled script control) }
    ensures settled { (script : Script) (control : Control) → Stands script control
        → settled script (settled script control) ≡ settled script control }
    ensures call { (script : Script) (control : Control) → Stands script control
        → call_of script (settled script control) ≡ call_of script control }
{}

/// At its end a program makes `exit 0`.
pub fn a_program_ends_by_exit_0()
    ensures { (script : Script) (control : Control) → statement_of script (settled script control) ≡ None
        → call_of script control ≡ Exit (pos 0) }
{}

/// A store may keep a control at its next call, in place of the one that the last reply left: asked or answered, the one goes
/// on as the other.
pub fn a_control_may_be_kept_at_its_call()
    ensures kept { (script : Script) (control : Control) → Rests script control → settled script control ≡ control }
    ensures call { (script : Script) (before : Control) → Rests script (settled script before)
        → call_of script (settled script before) ≡ call_of script before }
    ensures after { (script : Script) (before : Control) (reply : Reply) → Rests script (settled script before)
        → after script (settled script before) reply ≡ after script before reply }
{}

/// A control that starts another program of the script stands there with the registers that it had; the first call is that
/// program's, and nothing of it is done.
pub fn a_started_program_stands_at_its_first_statement()
    ensures stands { (script : Script) (control : Control) (program : ℕ) → IsValid script → program < length script.programs
        → Stands script (restarted control program) }
    ensures registers { (control : Control) (program : ℕ) → (restarted control program).regs ≡ control.regs }
    ensures first { (script : Script) (control : Control) (program : ℕ)
        → statement_of script (restarted control program) ≡ slice_get (statements_of (slice_get script.programs program)) 0 }
{}

/// A sum wraps at both ends of 64 bits.
pub fn sums_wrap()
    ensures up { (control : Control) (next : Control) → register_of control 0 ≡ greatest_value
        → local control (Add 0 (Number (pos 1))) ≡ Some next
        → next.regs ≡ slice_set control.regs 0 least_value }
    ensures down { (control : Control) (next : Control) → register_of control 0 ≡ least_value
        → local control (Add 0 (Number (neg_ℤ (pos 1)))) ≡ Some next
        → next.regs ≡ slice_set control.regs 0 greatest_value }
{}
