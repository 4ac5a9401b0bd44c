ghost use Rattle.std.specs.Prelude.{◌≡◌, ℕ, ◌^◌, ◌<◌, List, Some, length, slice_get, slice_set};

/// The blocks of a disk, wherever they lie.
///
/// An implementation may be made of lent parts, as a cache and the disk below it, and it may change as it answers. So two
/// relations speak of what the blocks don't tell. `follows` goes on from call to call: it says that two values hold the
/// same loans, so that a caller knows after a call what it lent, and whatever else no call takes back. `asked` says what
/// one `get` does, so that a caller that knows which blocks were asked for knows what that cost.
pub trait Blocks {
    /// The disk's blocks in order, each of 1024 bytes.
    ghost blocks: { Self → List (List ℕ) };

    /// The second comes after the first by calls of this trait.
    ghost follows: { Self → Self → Type 0 };

    /// One `get` of this block leads from the first to the second.
    ghost asked: { Self → ℕ → Self → Type 0 };

    /// How many blocks there are.
    fn count(&self) -> u32
        ensures { result ≡ length (blocks self.now) };

    /// A block's bytes.
    fn get(&mut self, number: u32) -> [u8; 1024]
        requires { number < length (blocks self.old) }
        ensures value { slice_get (blocks self.old) number ≡ Some result }
        ensures kept { blocks self.new ≡ blocks self.old }
        ensures asked { asked self.old number self.new }
        ensures follows { follows self.old self.new };

    /// Writes a block, and no other.
    fn set(&mut self, number: u32, bytes: &[u8; 1024])
        requires { number < length (blocks self.old) }
        ensures after { blocks self.new ≡ slice_set (blocks self.old) number bytes.now }
        ensures follows { follows self.old self.new };

    ghost follows_refl: { (a : Self) → follows a a };

    ghost follows_trans: { (a b c : Self) → follows a b → follows b c → follows a c };
}

/// Blocks in memory, for whatever wants a disk of its own.
#[derive(Drop)]
pub struct BlockList {
    pub blocks: Vec<[u8; 1024]>,
    ghost few: { length blocks.items < 2 ^ 32 },
}

impl Blocks for BlockList {
    ghost blocks = { λ list. list.blocks.items };

    // It holds no lent part.
    ghost follows = { λ _ _. Unit {0} };

    // To read it changes nothing.
    ghost asked = { λ before _ after. after.blocks.items ≡ before.blocks.items };

    ghost follows_refl = { λ _. tt };

    ghost follows_trans = { λ _ _ _ _ _. tt };

    fn count(&self) -> u32 {
        self.blocks.len() as u32
    }

    fn get(&mut self, number: u32) -> [u8; 1024] {
        self.blocks[number as usize]
    }

    fn set(&mut self, number: u32, bytes: &[u8; 1024]) {
        let place = number as usize;
        self.blocks[place] = *bytes;
    }
}
