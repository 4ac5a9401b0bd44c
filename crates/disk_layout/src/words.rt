//! Big-endian numbers of four bytes in a row of bytes, and pieces of bytes put into it.

ghost use Rattle.std.specs.Prelude.{◌≡◌, ◌+◌, ◌*◌, ◌≤◌, ◌++◌, ◌↔◌, length, take, drop, slice_index, EachIndex, IsTrue};
ghost use Rattle.std.specs.Int.{w32, to_be_bytes};
ghost use Rattle.std.specs.List.{flat_map};

/// The number of the four bytes from a place on.
pub fn word_at(bytes: &[u8], at: usize) -> u32
    requires { at + 4 ≤ length bytes.now }
    ensures { to_be_bytes w32 result ≡ take 4 (drop at bytes.now) }
{
    u32::from_be_bytes([bytes[at], bytes[at + 1], bytes[at + 2], bytes[at + 3]])
}

/// Writes the bytes from a place on, and leaves all others.
pub fn put(out: &mut [u8], at: usize, bytes: &[u8])
    requires { at + length bytes.now ≤ length out.old }
    ensures { out.new ≡ take at out.old ++ (bytes.now ++ drop (at + length bytes.now) out.old) }
{
    let end = at + bytes.len();
    out[at..end].copy_from_slice(bytes);
}

/// Writes the four bytes of each number from a place on, and leaves all others.
pub fn put_words(out: &mut [u8], at: usize, words: &[u32])
    requires { at + 4 * length words.now ≤ length out.old }
    ensures { out.new ≡ take at out.old ++ (flat_map (to_be_bytes w32) words.now ++ drop (at + 4 * length words.now) out.old) }
{
    for (k, word) in words.iter().enumerate() {
        put(out, at + 4 * k, &word.to_be_bytes());
    }
}

/// All of the bytes are zero.
pub fn all_zero(bytes: &[u8]) -> bool
    ensures { IsTrue result ↔ EachIndex bytes.now (λ k. slice_index bytes.now k ≡ 0) }
{
    bytes.iter().all(|byte| *byte == 0)
}
