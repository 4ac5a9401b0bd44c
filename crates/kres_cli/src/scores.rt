//! How the program scores processes where one has to be killed.

ghost use Rattle.std.specs.Prelude.{◌≡◌};
ghost use Rattle.kabi_types.specs.declared.scripts.Policy.TheVariants.{Heaviest, Youngest};
ghost use Rattle.posix_defs.specs.Victim.{score_of};

use kabi_types::Weight;

/// What the policy `heaviest` goes by, in bytes: the process itself, the frames and the groups of pages of its memory, and its descriptors.
pub fn score_by_weight(weight: Weight) -> u64
    ensures { result ≡ score_of Heaviest weight }
{
    512 + 4096 * u64::from(weight.frames)
        + 512 * u64::from(weight.nodes)
        + 64 * u64::from(weight.descs)
}

/// What the policy `youngest` goes by: the pid.
pub fn score_by_age(weight: Weight) -> u64
    ensures { result ≡ score_of Youngest weight }
{
    u64::from(weight.pid)
}
