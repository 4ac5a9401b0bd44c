ghost use Rattle.std.specs.Prelude.{◌≡◌};
ghost use Rattle.victim_core.specs.Judging.{better_of};

// What the victim among the weights so far scores, and its pid.
#[derive(Clone, Copy)]
pub(crate) struct Best {
    pub(crate) score: u64,
    pub(crate) pid: u32,
}

// The one that scores more, of equals the one with the higher pid.
pub(crate) fn better(best: Option<Best>, next: Best) -> Best
    ensures { result ≡ better_of best next }
{
    match best {
        Some(best) if next.score < best.score => best,
        Some(best) if next.score == best.score && next.pid < best.pid => best,
        _ => next,
    }
}
