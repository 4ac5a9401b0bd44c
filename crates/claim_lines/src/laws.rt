//! Laws of lines and of what they claim. Each is the contract of a function that does nothing.

ghost use Rattle.std.specs.Prelude.{◌≡◌, ◌<◌, ◌^◌, ℕ, List, Some};
ghost use Rattle.kabi_types.specs.declared.entries.Entry.{Entry};
ghost use Rattle.kabi_types.specs.declared.scripts.Script.{Script};
ghost use Rattle.posix_defs.specs.History.{Past, MayFollow};
ghost use Rattle.posix_defs.specs.Lines.{entry_line};
ghost use Rattle.run_pasts.specs.Claims.{claim_of_entry};
ghost use Rattle.claim_lines.specs.Claims.{claim_of};
ghost use Rattle.claim_lines.specs.Good.{HasPids, line_leads};

/// The line of an entry claims what the entry says.
pub fn a_line_claims_what_its_entry_says()
    ensures { (j : ℕ) (added : Entry) → j < 2 ^ 64 → HasPids (claim_of_entry added)
        → claim_of (entry_line j added) ≡ Some (claim_of_entry added) }
{}

/// A line is good exactly where it is printed of the one entry that is expected of what it claims: such a line is that of an
/// entry that may come next, and leads where it does, and the line of every entry that may come next is such a line. So no
/// reply is ever read back.
pub fn a_good_line_is_predicted()
    ensures good { (script : Script) (past : Past) (j : ℕ) (line : List ℕ) (next : Past) → line_leads script past j line ≡ Some next
        → (added : Entry) × (line ≡ entry_line j added) × MayFollow script past added next }
    ensures predicted { (script : Script) (past : Past) (j : ℕ) (added : Entry) (next : Past)
        → j < 2 ^ 64 → HasPids (claim_of_entry added) → MayFollow script past added next
        → line_leads script past j (entry_line j added) ≡ Some next }
{}

/// Two entries that may come next have two lines. (Of entries in general that isn't so: the end of a process doesn't tell
/// its call.)
pub fn a_line_has_one_entry()
    ensures { (script : Script) (past : Past) (j : ℕ) (added : Entry) (next : Past) (other : Entry) (elsewhere : Past)
        → j < 2 ^ 64 → HasPids (claim_of_entry added) → HasPids (claim_of_entry other)
        → MayFollow script past added next → MayFollow script past other elsewhere
        → entry_line j added ≡ entry_line j other → (added ≡ other) × (next ≡ elsewhere) }
{}
