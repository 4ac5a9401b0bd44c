//! Whom the two scores choose, by hand.

ghost use Rattle.std.specs.Prelude.{◌≡◌, ◌≤◌, IfOk};
ghost use Rattle.std.specs.List.{All};
ghost use Rattle.kabi_types.specs.declared.scripts.Policy.TheVariants.{Heaviest, Youngest};
ghost use Rattle.posix_defs.specs.Victim.{score_of};
ghost use Rattle.victim_core.specs.Victims.{IsInRange};

use crate::checking::check;
use kabi_types::{Policy, Weight};
use std::alloc::{AllocError, Global};
use std::cell::Cell;
use std::process::Abort;
use std::test::Fail;
use victim_core::{Score, Scorer};

// A pid with its frames, nodes and descriptors.
type Row = (u32, u32, u32, u32);

// Weights with the victims by weight and by age, and how many others than the first process there are.
const ROWS: &[(&[Row], Option<u32>, Option<u32>, u32)] = &[
    (&[], None, None, 0),
    (&[(1, 9, 1, 0)], None, None, 0),
    (&[(2, 0, 0, 0)], Some(2), Some(2), 1),
    (&[(1, 200, 4, 100), (2, 0, 0, 0)], Some(2), Some(2), 1),
    // two sleepers of 5248 each
    (
        &[(1, 0, 0, 2), (2, 1, 1, 2), (3, 1, 1, 2)],
        Some(3),
        Some(3),
        2,
    ),
    (&[(3, 1, 1, 2), (2, 1, 1, 2)], Some(3), Some(3), 2),
    (
        &[(1, 0, 0, 2), (2, 2, 1, 0), (3, 1, 1, 2), (4, 0, 0, 0)],
        Some(2),
        Some(4),
        3,
    ),
    // a frame weighs what 8 nodes or 64 descriptors do
    (&[(2, 1, 0, 0), (3, 0, 4, 31)], Some(2), Some(3), 2),
    (&[(2, 1, 0, 0), (3, 0, 4, 32)], Some(3), Some(3), 2),
    (&[(3, 1, 0, 0), (2, 0, 4, 32)], Some(3), Some(3), 2),
    (
        &[(4294967295, 0, 0, 0), (4294967294, 256, 4, 128)],
        Some(4294967294),
        Some(4294967295),
        2,
    ),
];

// The weight of a row, which is in range.
fn weight_of(rt: &impl Abort, row: &Row) -> Weight
    ensures { IsInRange result }
{
    let (pid, frames, nodes, descs) = *row;
    assert!(rt; frames <= 256 && nodes <= 4 && descs <= 128);
    Weight {
        pid,
        frames,
        nodes,
        descs,
    }
}

fn weights_of(rt: &impl Abort, alloc: Global, rows: &[Row]) -> Result<Vec<Weight>, AllocError>
    ensures { IfOk result (λ weights. All IsInRange weights.items) }
{
    let mut weights = Vec::new(alloc);
    for row in rows {
        weights.push(weight_of(rt, row))?;
    }
    Ok(weights)
}

// The victim by these closures.
fn chosen<F: Scorer, G: Scorer>(
    heaviest: F,
    youngest: G,
    policy: Policy,
    weights: &[Weight],
) -> Option<u32>
    requires by_weight { F.scores heaviest Heaviest }
    requires by_age { G.scores youngest Youngest }
    requires in_range { All IsInRange weights.now }
{
    Score::new(heaviest, youngest).choose(policy, weights)
}

// The victim by closures that compute the same numbers another way, and count how often they are asked.
fn victim_counted(asked: &Cell<u32>, policy: Policy, weights: &[Weight]) -> Option<u32>
    requires { All IsInRange weights.now }
{
    chosen(
        |w: Weight| -> u64
            ensures { result ≡ score_of Heaviest w }
        {
            asked.set(asked.get().wrapping_add(1));
            let pages = 64 * u64::from(w.frames) + 8 * u64::from(w.nodes);
            64 * (pages + u64::from(w.descs) + 8)
        },
        |w: Weight| -> u64
            ensures { result ≡ score_of Youngest w }
        {
            asked.set(asked.get().wrapping_add(1));
            u64::from(w.pid / 2) + u64::from(w.pid - w.pid / 2)
        },
        policy,
        weights,
    )
}

// Whether the victims of a row are these, each closure having been asked for each process but the first.
fn are_victims(weights: &[Weight], by_weight: Option<u32>, by_age: Option<u32>, others: u32) -> bool
    requires { All IsInRange weights.now }
{
    let asked = Cell::new(0);
    let heaviest = victim_counted(&asked, Policy::Heaviest, weights);
    let once = asked.get() == others;
    let youngest = victim_counted(&asked, Policy::Youngest, weights);
    let twice = asked.get() == others.wrapping_add(others);
    heaviest == by_weight && youngest == by_age && once && twice
}

#[test]
fn victims_by_both_scores(rt: HostRuntime) -> Result<(), Fail> {
    for (place, (rows, by_weight, by_age, others)) in ROWS.iter().enumerate() {
        let weights = weights_of(&rt, rt.alloc(), rows)?;
        let right = are_victims(weights.as_slice(), *by_weight, *by_age, *others);
        drop(weights);
        check(&rt, place, right);
    }
    Ok(())
}
