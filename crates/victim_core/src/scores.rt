ghost use Rattle.std.specs.Prelude.{◌≡◌, ◌≢◌, ◌↔◌, IfSome, IsNone};
ghost use Rattle.std.specs.List.{All};
ghost use Rattle.kabi_types.specs.declared.scripts.Policy.TheVariants.{Heaviest, Youngest};
ghost use Rattle.posix_defs.specs.Victim.{score_of};
ghost use Rattle.victim_core.specs.Victims.{IsInRange, IsVictim};

use crate::Scorer;
use crate::best::{Best, better};
use kabi_types::{Policy, Weight};

/// The pid of the process that is never killed.
const FIRST_PROCESS: u32 = 1;

/// How processes are scored: a closure for each policy.
///
/// The closures stand beside the fact that each may be called with every weight in range and then answers the score of
/// its policy. Whoever holds a `Score` asks nothing of them any more.
#[derive(Drop)]
pub struct Score<F: Scorer, G: Scorer> {
    heaviest: F,
    youngest: G,
    ghost by_weight: { F.scores heaviest Heaviest } by { F.scores_once heaviest Heaviest },
    ghost by_age: { G.scores youngest Youngest } by { G.scores_once youngest Youngest },
}

impl<F: Scorer, G: Scorer> Score<F, G> {
    /// Keeps both closures.
    pub fn new(heaviest: F, youngest: G) -> Score<F, G>
        requires by_weight { F.scores heaviest Heaviest }
        requires by_age { G.scores youngest Youngest }
    {
        Score { heaviest, youngest }
    }

    // The score of a weight in range.
    fn score(&self, policy: Policy, weight: Weight) -> u64
        requires { IsInRange weight }
        ensures { result ≡ score_of policy weight }
    {
        match policy {
            Policy::Heaviest => self.heaviest.score(policy, weight),
            Policy::Youngest => self.youngest.score(policy, weight),
        }
    }

    /// The pid of the victim: of the processes but the first the one with the greatest score, of equals the highest pid.
    ///
    /// None where no weight is there but of the first process. The weights may stand in any order.
    pub fn choose(&self, policy: Policy, weights: &[Weight]) -> Option<u32>
        requires { All IsInRange weights.now }
        ensures none { IsNone result ↔ All (λ w. w.pid ≡ 1) weights.now }
        ensures victim { IfSome result (IsVictim policy weights.now) }
    {
        let mut best: Option<Best> = None;
        for weight in weights {
            if weight.pid != FIRST_PROCESS {
                let next = Best {
                    score: self.score(policy, *weight),
                    pid: weight.pid,
                };
                best = Some(better(best, next));
            }
        }
        best.map(|best| best.pid)
    }
}
