//! What is so of every text of groups, and of every report of groups. Each law is the contract of a function that does nothing.

ghost use Rattle.std.specs.Prelude.{◌≡◌, ◌+◌, ◌≤◌, ℕ, List, Result};
ghost use Rattle.kabi_types.specs.declared.scripts.ScriptFault.{ScriptFault};
ghost use Rattle.std.specs.List.{AllByRecursion};
ghost use Rattle.charge_words.specs.Rule.{Cells, IsCharged};
ghost use Rattle.posix_defs.specs.ValidScript.{IsValid};
ghost use Rattle.group_heap.specs.declared.lists.Section.{Section};
ghost use Rattle.group_heap.specs.Held.{held_at_boot, held_by_groups};
ghost use Rattle.group_heap.specs.Reports.{IsGroupReport, KeepsGroups};
ghost use Rattle.group_heap.specs.Texts.{Groups, ReadsGroups};

use posix_defs::Turner;

/// A text reads as one list of groups at most and has one fault at most, and never both.
pub fn groups_read_in_one_way()
    ensures { (text : List ℕ) (a b : Result Groups ScriptFault) → ReadsGroups text a → ReadsGroups text b → a ≡ b }
{}

/// Each part of a report of groups keeps the headline for its own script, over any store and whatever the other groups are.
pub fn groups_keep_the_headline<T: Turner>()
    ensures { (whole : ℕ) (sections : List Section) (text : List ℕ) → AllByRecursion (λ section. IsValid section.script) sections
        → IsGroupReport T.stands T.marks T.high whole sections text → KeepsGroups T.stands T.marks T.high whole sections text }
{}

/// At each atomic step the heaps that groups hold are together at most the whole, whichever run: this is the rule of a charge word for
/// the whole and 2816 bytes beside it, which the seat of boot holds all the time.
pub fn heaps_stay_within_the_whole()
    ensures { (whole : ℕ) (s : Cells) → IsCharged (whole + 2816) s → 2816 ≤ held_at_boot s.views → held_by_groups s.views ≤ whole }
{}
