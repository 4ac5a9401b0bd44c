//! What an index may be kept by.
ghost use Rattle.std.specs.Prelude.{◌≡◌, ℕ, ◌*◌, ◌%◌, ◌^◌, ◌≤◌, true, List, length};
ghost use Rattle.std.proofs.Common.{eqb-true};
ghost use Rattle.lru_index.specs.NameKeys.{scattered_on};

use kabi_types::Name27;

/// What scatters numbers: 2^64 divided by the golden ratio, an odd number whose bits are as good as random.
const SCATTER: u64 = 11400714819323198485;

/// A key of an index. Keys that compare as equal are the same.
pub trait Key: Ord + Copy {
    /// A number that keys rarely share, however alike they are.
    ghost scatter: { Self → ℕ };

    /// The number of a key.
    fn scattered(&self) -> u64
        ensures { result ≡ scatter self.now };

    ghost same: { (a b : Self) → Self.eq a b ≡ true → a ≡ b };
}

impl Key for u64 {
    ghost scatter = { λ key. key };

    ghost same = { eqb-true };

    // Numbers that follow one another go to buckets that do.
    fn scattered(&self) -> u64 {
        *self
    }
}

/// A name in a directory: the number of the directory's node, the name's length in bytes, and its
/// bytes with zeros behind them. `of` makes it, so that a name has one key.
#[derive(Clone, Copy, Default, PartialEq, Eq, PartialOrd, Ord)]
pub struct NameKey {
    pub dir: u32,
    pub len: u8,
    pub name: [u8; 27],
}

impl NameKey {
    ghost use Rattle.lru_index.specs.NameKeys.{name_key};

    /// The key of a name in the directory of a node.
    pub fn of(dir: u32, name: &Name27) -> NameKey
        ensures { result ≡ name_key dir name.now }
    {
        NameKey::of_bytes(dir, name.items())
    }

    /// The same of a name by its bytes, 27 at most.
    pub fn of_bytes(dir: u32, name: &[u8]) -> NameKey
        requires { length name.now ≤ 27 }
        ensures { result ≡ name_key dir name.now }
    {
        let mut padded = [0; 27];
        padded[..name.len()].copy_from_slice(name);
        NameKey {
            dir,
            len: name.len() as u8,
            name: padded,
        }
    }
}

impl Key for NameKey {
    ghost use Rattle.lru_index.specs.NameKeys.{name_scatter};
    ghost use Rattle.lru_index.specs.Keys.{same_name};

    ghost scatter = { name_scatter };

    ghost same = { same_name };

    fn scattered(&self) -> u64 {
        let len = (self.len as usize).min(27);
        let all = scattered_bytes(self.dir as u64, &self.name[..len]);
        // The lower bits are those of the last bytes alone.
        all / 4294967296
    }
}

/// A number and the bytes behind it as one number.
fn scattered_bytes(start: u64, bytes: &[u8]) -> u64
    ensures { result ≡ scattered_on (start * 11400714819323198485 % 2 ^ 64) bytes.now }
{
    let mut all = start.wrapping_mul(SCATTER);
    for byte in bytes {
        all = all.wrapping_add(*byte as u64).wrapping_mul(SCATTER);
    }
    all
}
