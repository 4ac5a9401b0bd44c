//! Laws of setting ranges, and of what they say of places. Each is the contract of a function that does nothing.

ghost use Rattle.std.specs.Prelude.{◌≡◌, ℕ, ◌+◌, ◌≤◌, List, [], ◌∷◌, ◌++◌, Option, None, Some, IsSome, IsTrue, ◌↔◌, if◌then◌else◌, length};
ghost use Rattle.kabi_types.specs.Ranges.{AreApart, IsCanonical, before, behind, clashes, covers, first_conflict, greatest, kind_at, set};
ghost use Rattle.lock_ranges.specs.Widening.{IsWidened};
ghost use Rattle.kabi_types.specs.declared.ranges.Kind.{Kind};
ghost use Rattle.kabi_types.specs.declared.ranges.Range.{Range};

/// Two canonical lists that say the same of each place are one.
pub fn a_canonical_list_is_the_only_one_that_says_so()
    ensures { (ranges others : List Range) → IsCanonical ranges → IsCanonical others
        → ((place : ℕ) → place ≤ greatest → kind_at ranges place ≡ kind_at others place) → ranges ≡ others }
{}

/// The places inside have then what is set, and the others what they had; the list is canonical.
pub fn setting_changes_the_places_inside()
    ensures meaning { (ranges : List Range) (kind : Option Kind) (start last place : ℕ) → IsCanonical ranges → start ≤ last → last ≤ greatest
        → kind_at (set ranges kind start last) place ≡ (if covers start last place then kind else kind_at ranges place) }
    ensures canonical { (ranges : List Range) (kind : Option Kind) (start last : ℕ) → IsCanonical ranges → start ≤ last → last ≤ greatest
        → IsCanonical (set ranges kind start last) }
{}

/// Setting makes at most two ranges more.
pub fn setting_makes_two_more_at_most()
    ensures { (ranges : List Range) (kind : Option Kind) (start last : ℕ) → IsCanonical ranges → start ≤ last → last ≤ greatest
        → length (set ranges kind start last) ≤ length ranges + 2 }
{}

/// Setting twice is setting once.
pub fn setting_again_changes_nothing()
    ensures { (ranges : List Range) (kind : Option Kind) (start last : ℕ) → IsCanonical ranges → start ≤ last → last ≤ greatest
        → set (set ranges kind start last) kind start last ≡ set ranges kind start last }
{}

/// Where all places are let go no range is left.
pub fn letting_all_go_leaves_none()
    ensures { (ranges : List Range) → IsCanonical ranges → set ranges None 0 greatest ≡ [] }
{}

/// A range is in the way exactly where a place that is asked for is held so that both can't hold it.
pub fn a_conflict_is_at_a_place()
    ensures { (ranges : List Range) (asked : Range) → IsCanonical ranges → asked.start ≤ asked.last
        → (IsSome (first_conflict ranges asked) ↔ ((place : ℕ) × IsTrue (covers asked.start asked.last place) × IsTrue (clashes (kind_at ranges place) (Some asked.kind)))) }
{}

/// Two holders without a place that both can't hold stay so where one sets what nothing of the other is in the way of, and
/// where one lets places go.
pub fn holders_stay_apart()
    ensures held { (ranges others : List Range) (asked : Range) → IsCanonical ranges → asked.start ≤ asked.last → asked.last ≤ greatest
        → AreApart ranges others → first_conflict others asked ≡ None → AreApart (set ranges (Some asked.kind) asked.start asked.last) others }
    ensures let_go { (ranges others : List Range) (start last : ℕ) → IsCanonical ranges → start ≤ last → last ≤ greatest
        → AreApart ranges others → AreApart (set ranges None start last) others }
    ensures both { (ranges others : List Range) → AreApart ranges others → AreApart others ranges }
{}

/// Where the range that is set takes in what it touches of its kind, it stands between what lies before it and what lies behind
/// it, and nothing is joined. Where places are let go nothing is joined either.
pub fn a_widened_range_stands_alone()
    ensures held { (ranges : List Range) (asked wide : Range) → IsCanonical ranges → asked.start ≤ asked.last → asked.last ≤ greatest → IsWidened ranges asked wide
        → set ranges (Some asked.kind) asked.start asked.last ≡ before wide.start ranges ++ wide ∷ behind wide.last ranges }
    ensures let_go { (ranges : List Range) (start last : ℕ) → IsCanonical ranges → start ≤ last → last ≤ greatest
        → set ranges None start last ≡ before start ranges ++ behind last ranges }
{}
