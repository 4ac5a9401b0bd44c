//! Any blocks as those in which a name is looked for: a copy of each is looked through.
ghost use Rattle.std.specs.Prelude.{◌≡◌};

use crate::finding::LookedBlocks;
use posix_defs::Blocks;

/// Blocks that are lent, whatever they are.
#[derive(Drop)]
pub(crate) struct CopiedBlocks<'a, B: Blocks> {
    pub(crate) below: &'a mut B,
}

impl<B: Blocks> Blocks for CopiedBlocks<'_, B> {
    ghost blocks = { λ copied. B.blocks copied.below.now };

    // The same are lent, and go on.
    ghost follows = { λ one other. (other.below.ghost_name ≡ one.below.ghost_name)
        × B.follows one.below.now other.below.now };

    ghost asked = { λ one number other. B.asked one.below.now number other.below.now };

    ghost use Rattle.std.specs.Prelude.{refl};
    ghost use Rattle.std.proofs.Common.{◌∙◌};

    ghost follows_refl = { λ one. (refl, B.follows_refl one.below.now) };

    ghost follows_trans = { λ one two three before after. (
      after.0 ∙ before.0,
      B.follows_trans one.below.now two.below.now three.below.now before.1 after.1,
    ) };

    fn count(&self) -> u32 {
        self.below.count()
    }

    fn get(&mut self, number: u32) -> [u8; 1024] {
        self.below.get(number)
    }

    fn set(&mut self, number: u32, bytes: &[u8; 1024]) {
        self.below.set(number, bytes);
    }
}

impl<B: Blocks> LookedBlocks for CopiedBlocks<'_, B> {}
