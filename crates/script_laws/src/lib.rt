//! Laws on generated scripts: what is printed of one is short enough for a script, and reads as that script. Each is the
//! contract of a function that does nothing.
#![tactic(auto)]

ghost use Rattle.std.specs.Prelude.{ℕ, ◌≤◌, length, Ok};
ghost use Rattle.posix_defs.specs.Canonical.{canonical};
ghost use Rattle.posix_defs.specs.Generated.{generated};
ghost use Rattle.posix_defs.specs.ScriptText.{ReadsText};
ghost use Rattle.posix_defs.specs.ValidScript.{IsValid};

/// A generated script isn't too long for a text when it is printed.
pub fn generated_scripts_are_short()
    ensures { (n : ℕ) → n ≤ 1000 → length (canonical (generated n)) ≤ 1048576 }
{}

/// A generated script keeps what scripts promise: its numbers are in their ranges, its jumps go to later labels, no label
/// stands twice, and each call has the operands that it needs.
pub fn generated_scripts_are_valid()
    ensures { (n : ℕ) → n ≤ 1000 → IsValid (generated n) }
{}

/// What is printed of a generated script reads as that script.
pub fn generated_text_reads_as_generated()
    ensures { (n : ℕ) → n ≤ 1000 → ReadsText (canonical (generated n)) (Ok (generated n)) }
{}
