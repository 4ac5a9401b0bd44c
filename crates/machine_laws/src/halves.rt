//! The law of calls that are done in parts. It is the contract of a function that does nothing.

ghost use Rattle.std.specs.Prelude.{◌≡◌, ◌<◌, ◌||◌, ℕ, Some, true};
ghost use Rattle.kabi_types.specs.declared.scripts.Script.{Script};
ghost use Rattle.posix_defs.specs.Plain.{Plain, call_of, control_of};
ghost use Rattle.posix_defs.specs.Process.{is_alive};
ghost use Rattle.posix_defs.specs.Files.State.{HalfOpen, opening_at};
ghost use Rattle.posix_defs.specs.Files.Whole.{IsHalfOpen, is_half_open, is_open, is_write_of};
ghost use Rattle.machine_laws.specs.Reached.{IsReached};

/// In every machine that is reached a live process that has done a part of a call stands at a write to a pipe or a socket,
/// by a descriptor that is open on it still, whatever the others did since; or at an open of a FIFO, in which it waits for the
/// other side: its descriptor is open on an end of the FIFO's pipe, of which that side was opened as often as when it began to
/// wait, or more often.
pub fn who_is_half_done_stands_at_a_write_or_an_open()
    ensures half { (script : Script) (plain : Plain) → IsReached script plain → (pid : ℕ) → is_alive plain.table pid ≡ true
        → 0 < (control_of plain pid).done
        → (is_write_of plain.files pid (call_of script plain pid) || is_half_open plain.files pid (call_of script plain pid)) ≡ true }
    ensures waits { (script : Script) (plain : Plain) → IsReached script plain → (pid : ℕ) (opening : HalfOpen) → is_alive plain.table pid ≡ true
        → 0 < (control_of plain pid).done → is_open (call_of script plain pid) ≡ true → opening_at plain.files pid ≡ Some opening
        → IsHalfOpen plain.files pid opening }
{}
