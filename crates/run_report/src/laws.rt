//! What is so of every run that is reported. Each law is the contract of a function that does nothing.

ghost use Rattle.std.specs.Prelude.{◌≡◌, ℕ, List, Some, slice_get, take};
ghost use Rattle.kabi_types.specs.declared.entries.End.{End};
ghost use Rattle.kabi_types.specs.declared.entries.Entry.{Entry};
ghost use Rattle.kabi_types.specs.declared.scripts.Script.{Script};
ghost use Rattle.posix_defs.specs.History.{IsRun, Past};
ghost use Rattle.posix_defs.specs.ValidScript.{IsValid};
ghost use Rattle.run_report.specs.Headline.{EntryKeeps, KeepsHeadline};
ghost use Rattle.run_report.specs.Reports.{IsReport};
ghost use Rattle.run_report.specs.Summaries.{IsSummary, KeepsSummary};

use posix_defs::Turner;

/// The report of a valid script's run, over any store, tells of a run that stayed within the heap at each moment of each
/// event, and whose entries are a legal history of a machine with unlimited memory, but for the calls that are refused.
pub fn a_report_keeps_the_headline<T: Turner>()
    ensures { (script : Script) (store : T) (end : End) (text : List ℕ) → IsValid script
        → IsReport T.stands T.marks T.high script store end text → KeepsHeadline T.stands T.marks T.high script store end text }
{}

/// The summary of a valid script's run sums up such a run, over any store.
pub fn a_summary_keeps_the_headline<T: Turner>()
    ensures { (script : Script) (store : T) (end : End) (rounds : ℕ) (text : List ℕ) → IsValid script
        → IsSummary T.stands T.marks T.high script store end rounds text → KeepsSummary T.stands T.marks T.high script store end rounds text }
{}

/// Each entry of a legal history is one that a machine with unlimited memory allows behind those before it. A call is refused exactly
/// where its bound is above the room, and no other is answered ENOMEM.
pub fn a_history_keeps_to_the_room()
    ensures { (script : Script) (entries : List Entry) (past : Past) → IsRun script entries past
        → (i : ℕ) (added : Entry) → slice_get entries i ≡ Some added → EntryKeeps script (take i entries) added }
{}
