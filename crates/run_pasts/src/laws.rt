//! Laws of what may come next. Each is the contract of a function that does nothing.

ghost use Rattle.std.specs.Prelude.{◌≡◌, List, ◌++◌, None, Some};
ghost use Rattle.kabi_types.specs.declared.entries.Entry.{Entry};
ghost use Rattle.kabi_types.specs.declared.scripts.Script.{Script};
ghost use Rattle.posix_defs.specs.History.{Past, IsRun, MayFollow};
ghost use Rattle.run_pasts.specs.declared.claims.Claim.{Claim};
ghost use Rattle.run_pasts.specs.Claims.{claim_of_entry};
ghost use Rattle.run_pasts.specs.Follows.{expected, follows, led_on, past_of};

/// What is computed to follow is what may, and leads where it may lead: an entry may come next by its definition exactly
/// where `follows` leads somewhere, and then there.
pub fn what_follows_is_computed()
    ensures may { (script : Script) (past : Past) (added : Entry) (next : Past)
        → follows script past added ≡ Some next → MayFollow script past added next }
    ensures computed { (script : Script) (past : Past) (added : Entry) (next : Past)
        → MayFollow script past added next → follows script past added ≡ Some next }
{}

/// Who is said to have done what may come next in one way at most: what is expected of a claim may come next and says just
/// that, and whatever may come next is expected of what it says. So of two entries that may come next and say the same
/// neither replies nor counts differ.
pub fn one_entry_is_expected()
    ensures may { (script : Script) (past : Past) (claim : Claim) (added : Entry) → expected script past claim ≡ Some added
        → (next : Past) × MayFollow script past added next × (claim_of_entry added ≡ claim) }
    ensures expected { (script : Script) (past : Past) (added : Entry) (next : Past)
        → MayFollow script past added next → expected script past (claim_of_entry added) ≡ Some added }
    ensures one { (script : Script) (past : Past) (added : Entry) (next : Past) (other : Entry) (elsewhere : Past)
        → MayFollow script past added next → MayFollow script past other elsewhere
        → claim_of_entry added ≡ claim_of_entry other → (added ≡ other) × (next ≡ elsewhere) }
{}

/// A history is legal exactly where its entries, one after another, are computed to lead somewhere, and then it leads there.
pub fn a_history_is_computed()
    ensures legal { (script : Script) (history : List Entry) (past : Past)
        → past_of script history ≡ Some past → IsRun script history past }
    ensures computed { (script : Script) (history : List Entry) (past : Past)
        → IsRun script history past → past_of script history ≡ Some past }
{}

/// A legal history leads to one past.
pub fn a_run_has_one_past()
    ensures { (script : Script) (history : List Entry) (past other : Past)
        → IsRun script history past → IsRun script history other → past ≡ other }
{}

/// Whatever goes before in a legal history is one, and leads to where the rest goes on from; and a legal history goes on
/// with whatever follows, one entry after another.
pub fn what_goes_before_is_a_run()
    ensures before { (script : Script) (front rest : List Entry) (past : Past) → IsRun script (front ++ rest) past
        → (between : Past) × IsRun script front between × (led_on script between rest ≡ Some past) }
    ensures goes_on { (script : Script) (front rest : List Entry) (between past : Past) → IsRun script front between
        → led_on script between rest ≡ Some past → IsRun script (front ++ rest) past }
    ensures stops { (script : Script) (front rest : List Entry) → past_of script front ≡ None → past_of script (front ++ rest) ≡ None }
{}
