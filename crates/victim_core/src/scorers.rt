ghost use Rattle.std.specs.Prelude.{◌≡◌, ℕ};
ghost use Rattle.kabi_types.specs.declared.scripts.Policy.{Policy};
ghost use Rattle.posix_defs.specs.Victim.{score_of};
ghost use Rattle.victim_core.specs.Victims.{IsInRange};
ghost use Rattle.victim_core.specs.Stored.{Scores, Scores-prop};

use kabi_types::{Policy, Weight};

/// A closure that scores weights: each `Fn(Weight) -> u64` is one.
///
/// A struct can't keep a fact that cites what a closure asks and gives, but one that cites a trait's own member it can.
/// So what is known of a closure has a name here, with the law that it has one proof at most.
pub trait Scorer: Drop {
    ghost scores: { Self → Policy → Type 0 };

    ghost scores_once: { (scorer : Self) (policy : Policy) → IsProp (scores scorer policy) };

    /// The score of a weight in range, where the closure is known to compute this policy's.
    fn score(&self, policy: Policy, weight: Weight) -> u64
        requires known { scores self.now policy }
        requires in_range { IsInRange weight }
        ensures { result ≡ score_of policy weight };
}

impl<F: Fn(Weight) -> u64 + Drop> Scorer for F {
    ghost scores = { λ f policy. Scores policy (F.pre f) (F.post f) };

    ghost scores_once = { λ f policy. Scores-prop policy (F.pre f) (F.post f) };

    fn score(&self, _policy: Policy, weight: Weight) -> u64 {
        self(weight)
    }
}
