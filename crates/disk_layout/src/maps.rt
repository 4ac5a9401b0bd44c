//! The map: block 0, which has a bit for each block of the disk, 1 where that block is in use. A shorter row of bytes is
//! read the same way.

ghost use Rattle.std.specs.Prelude.{◌≡◌, ◌≢◌, ℕ, ◌+◌, ◌*◌, ◌<◌, ◌≤◌, ◌↔◌, IsTrue, length, slice_index};
ghost use Rattle.posix_defs.specs.DiskFormat.{block_size};
ghost use Rattle.posix_defs.specs.SoundDisk.{bit_of};

/// Whether a map has a block as in use.
pub fn is_marked(map: &[u8], number: u32) -> bool
    requires { number < 8 * length map.now }
    ensures { IsTrue result ↔ (bit_of map.now number ≡ 1) }
{
    (map[number as usize / 8] >> (number % 8)) & 1 == 1
}

/// Has a block in use, and leaves all others.
pub fn mark(map: &mut [u8], number: u32)
    requires { number < 8 * length map.old }
    ensures this { bit_of map.new number ≡ 1 }
    ensures others { (other : ℕ) → other ≢ number → bit_of map.new other ≡ bit_of map.old other }
{
    let place = number as usize / 8;
    map[place] |= 1_u8 << (number % 8);
}

/// Has a block free, and leaves all others.
pub fn unmark(map: &mut [u8], number: u32)
    requires { number < 8 * length map.old }
    ensures this { bit_of map.new number ≡ 0 }
    ensures others { (other : ℕ) → other ≢ number → bit_of map.new other ≡ bit_of map.old other }
{
    let place = number as usize / 8;
    map[place] &= !(1_u8 << (number % 8));
}

/// The first block from `from` on that a map has as free, of so many; their count where there is none.
///
/// Where 64 blocks in a row are in use, or 8, they are passed over at once.
pub fn next_free(map: &[u8], from: u32, blocks: u32) -> u32
    requires there { blocks ≤ 8 * length map.now }
    requires few { blocks ≤ 8 * block_size }
    requires within { from ≤ blocks }
    ensures within { (from ≤ result) × (result ≤ blocks) }
    ensures passed { (block : ℕ) → from ≤ block → block < result → bit_of map.now block ≡ 1 }
    ensures free { result < blocks → bit_of map.now result ≢ 1 }
{
    let mut number = from;
    while number < blocks {
        let used = used_from(map, number);
        if used == 0 {
            return number;
        }
        number += used;
    }
    blocks
}

/// How many blocks from one on are in use, as far as one look tells: 64 or 8 where they begin a row of so many, else the one.
fn used_from(map: &[u8], number: u32) -> u32
    requires { number < 8 * length map.now }
    ensures few { result ≤ 64 }
    ensures used { (block : ℕ) → number ≤ block → block < number + result → bit_of map.now block ≡ 1 }
    ensures free { result ≡ 0 → bit_of map.now number ≢ 1 }
{
    let place = number as usize / 8;
    if number % 64 == 0 && is_full_row(map, place) {
        64
    } else if number % 8 == 0 && map[place] == 255 {
        8
    } else {
        is_marked(map, number) as u32
    }
}

/// Whether the eight bytes from a place on are there and have all of their blocks in use.
fn is_full_row(map: &[u8], place: usize) -> bool
    ensures { IsTrue result → (k : ℕ) → k < 8 → slice_index map.now (place + k) ≡ 255 }
{
    if place >= map.len() || map.len() - place < 8 {
        return false;
    }
    let row = [
        map[place],
        map[place + 1],
        map[place + 2],
        map[place + 3],
        map[place + 4],
        map[place + 5],
        map[place + 6],
        map[place + 7],
    ];
    u64::from_be_bytes(row) == u64::MAX
}
