//! A write that goes on in parts.

ghost use Rattle.std.specs.Prelude.{◌≡◌, ℕ};
ghost use Rattle.kabi_types.specs.declared.scripts.Control.{Control};
ghost use Rattle.kabi_types.specs.declared.scripts.Script.{Script};
ghost use Rattle.kabi_types.specs.declared.replies.Reply.{Reply};
ghost use Rattle.posix_defs.specs.Control.{after, after_part, call_of, settled};
ghost use Rattle.posix_defs.specs.Made.{further};

/// A part of a write leaves the process at its call: what is done is all that changes, whether it is added before the local
/// statements or behind them; the call is the same with that much more done, and its answer is the same.
pub fn a_write_goes_on_in_parts()
    ensures settled { (script : Script) (control : Control) (k : ℕ) → settled script (after_part control k) ≡ after_part (settled script control) k }
    ensures call { (script : Script) (control : Control) (k : ℕ) → call_of script (after_part control k) ≡ further k (call_of script control) }
    ensures answer { (script : Script) (control : Control) (k : ℕ) (reply : Reply) → after script (after_part control k) reply ≡ after script control reply }
{}
