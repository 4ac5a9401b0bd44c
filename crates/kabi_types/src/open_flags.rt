ghost use Rattle.std.specs.Prelude.{⊤, ◌≡◌, [], ◌∷◌, codes, pos, is_some, IfSome};

use bitflags::{Flag, Flags, bitflag_items};

/// The flags of `open` and of an open description: the access mode in the two lowest bits, and `O_` flags above them.
#[derive(Clone, Copy)]
pub struct OpenFlags(u32);

bitflag_items! {
    impl OpenFlags: u32 {
        const WRONLY = 1;
        const RDWR = 2;
        const CREAT = 64;
        const EXCL = 128;
        const TRUNC = 512;
        const APPEND = 1024;
        const NONBLOCK = 2048;
        const CLOEXEC = 524288;
    }
}

impl Flags for OpenFlags {
    type Bits = u32;

    ghost exact = { ⊤ };

    ghost table = { (codes "WRONLY", 1) ∷ (codes "RDWR", 2) ∷ (codes "CREAT", 64) ∷ (codes "EXCL", 128)
        ∷ (codes "TRUNC", 512) ∷ (codes "APPEND", 1024) ∷ (codes "NONBLOCK", 2048) ∷ (codes "CLOEXEC", 524288) ∷ [] };

    ghost set_of = { λ flags. flags.0 };

    fn flags<'a>() -> &'a [Flag<OpenFlags>] {
        OpenFlags::FLAGS
    }

    fn bits(&self) -> u32 {
        self.0
    }

    fn from_bits_retain(bits: u32) -> OpenFlags {
        OpenFlags(bits)
    }
}

impl OpenFlags {
    ghost use Rattle.kabi_types.specs.OpenFlags.{are_open_flags, bits_of};

    /// The flags that a script's number stands for; None for a bit that is no flag's, and for access mode 3, which is no mode.
    /// See `open` in POSIX.1-2017.
    #[tactic(auto, unfolding(bitflags::specs::Sets::known_from))]
    pub fn of(flags: i64) -> Option<OpenFlags>
        ensures known { is_some result ≡ are_open_flags flags }
        ensures same { IfSome result (λ found. pos (bits_of found) ≡ flags) }
    {
        let bits = u32::try_from(flags).ok()?;
        let found = OpenFlags::from_bits(bits)?;
        if bits & 3 == 3 { None } else { Some(found) }
    }
}
