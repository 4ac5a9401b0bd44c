//! Neighbouring blocks of a disk.
ghost use Rattle.std.specs.Prelude.{◌≡◌, ◌-◌, ◌<◌, ◌≤◌, ◌++◌, length, replicate, slice_get, slice_set, Some, IfOk, vec_capacity};
ghost use Rattle.posix_defs.specs.DiskContents.{zeros};

use kabi_types::Memory;
use std::alloc::Global;
use std::marker::Model;

/// So many blocks, of which those up to the highest that was ever written are there, and all others are zero.
///
/// Boot reserves the memory of all of them and writes none of it.
#[derive(Drop)]
pub struct Region {
    written: Vec<[u8; 1024]>,
    count: u32,
}

impl Model for Region {
    ghost use Rattle.std.specs.Prelude.{ℕ, List, length, ◌≤◌, vec_capacity};
    ghost use Rattle.disk_layout.specs.Disk.{all_blocks};

    ghost Value = { List (List ℕ) };

    ghost view = { λ region. all_blocks region.count region.written.items };

    ghost invariant = { λ region.
        (length region.written.items ≤ region.count) × (region.count ≤ vec_capacity region.written) };
}

impl Region {
    /// So many blocks of zeros. Memory where the host has none for them.
    pub fn boot(alloc: Global, count: u32) -> Result<Region, Memory>
        ensures { IfOk result (λ region. region ≡ replicate count (zeros 1024)) }
    {
        let written = Vec::with_capacity(alloc, count as usize)?;
        Ok(Region { written, count })
    }

    /// How many blocks it has.
    pub fn count(&self) -> u32
        ensures { result ≡ length self.now }
    {
        self.count
    }

    /// The bytes of a block.
    pub fn read(&self, number: u32) -> [u8; 1024]
        requires { number < length self.now }
        ensures { slice_get self.now number ≡ Some result }
    {
        match self.written.get(number as usize) {
            Some(block) => *block,
            None => zero_block(),
        }
    }

    /// Writes a block, and no other.
    pub fn write(&mut self, number: u32, bytes: &[u8; 1024])
        requires { number < length self.old }
        ensures { self.new ≡ slice_set self.old number bytes.now }
    {
        let place = number as usize;
        reach(&mut self.written, place);
        if place < self.written.len() {
            self.written[place] = *bytes;
        } else {
            self.written.push_reserved(*bytes);
        }
    }
}

/// Lets the blocks before this one be there: those that aren't yet are zero.
fn reach(written: &mut Vec<[u8; 1024]>, place: usize)
    requires { place ≤ vec_capacity written.old }
    ensures blocks { written.new.items
        ≡ written.old.items ++ replicate (place - length written.old.items) (zeros 1024) }
    ensures capacity { vec_capacity written.new ≡ vec_capacity written.old }
{
    for _ in written.len()..place {
        written.push_reserved(zero_block());
    }
}

#[tactic(auto, unfolding(posix_defs::specs::DiskContents::zeros))]
pub fn zero_block() -> [u8; 1024]
    ensures { result ≡ zeros 1024 }
{
    [0; 1024]
}
