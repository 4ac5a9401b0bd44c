//! A disk in memory that counts its reads.

ghost use Rattle.std.specs.Prelude.{◌≡◌, ◌≢◌, ℕ, ◌+◌, ◌-◌, ◌<◌, ◌≤◌, ◌++◌, ◌∷◌, [], min, length, slice_get, slice_set, slice_index, Some, IfOk};
ghost use Rattle.disk_layout.specs.Disk.{IsRead};
ghost use Rattle.posix_defs.specs.DiskFormat.{table_end};
ghost use Rattle.posix_defs.specs.SoundDisk.{bit_of, Sound};
ghost use Rattle.disk_layout.specs.Vacant.{HasNoneFree, NoneFreeIn};
ghost use Rattle.posix_defs.specs.DiskContents.{zeros, first_marked, new_root, entry_for, new_entries, IsDirectoryOf, IsFormatted};
ghost use Rattle.posix_defs.specs.Tree.{new_tree};
ghost use Rattle.posix_defs.specs.DiskTree.{StandsFor};

use crate::entries::bytes_of_entry;
use crate::inodes::bytes_of;
use crate::maps::{mark, next_free, unmark};
use crate::regions::{Region, zero_block};
use crate::slots::free_slot;
use crate::words::put;
use kabi_types::{DirEntry, Inode, Memory, Name27};
use posix_defs::{Blocks, blank_inode};
use std::alloc::Global;
use std::marker::Model;

/// A disk in memory, of 16 to 4096 blocks.
#[derive(Drop)]
pub struct RamDisk {
    // The map and the table of nodes. Of these and of the contents of files the first ones are written first, so that each stands in a
    // region of its own.
    table: Region,
    contents: Region,
    reads: u64,
    // A bit for each block of the table, the first of them first, which is 1 where all nodes of that block are in use.
    full: [u8; 32],
}

impl Model for RamDisk {
    ghost use Rattle.std.specs.Prelude.{length, ◌++◌, ◌+◌, ◌≤◌};
    ghost use Rattle.disk_layout.specs.Disk.{Disk};
    ghost use Rattle.disk_layout.specs.Vacant.{IsNoted};

    ghost Value = { Disk };

    ghost view = { λ disk. record { blocks = disk.table ++ disk.contents; reads = disk.reads } };

    ghost invariant = { λ disk. (length disk.table + length disk.contents ≤ 4096) × IsNoted disk.full disk.table disk.contents };
}

impl RamDisk {
    /// A disk of so many blocks, 16 to 4096, whose root directory has `.` and `..` alone, and of which nothing was read:
    /// it stands for the new tree.
    /// Memory where the host has none for its blocks.
    pub fn boot(alloc: Global, blocks: u32) -> Result<RamDisk, Memory>
        requires { (16 ≤ blocks) × (blocks ≤ 4096) }
        ensures formatted { IfOk result (λ disk. IsFormatted blocks disk.blocks) }
        ensures sound { IfOk result (λ disk. Sound disk.blocks) }
        ensures root { IfOk result (λ disk. IsDirectoryOf disk.blocks 1 1 []) }
        ensures tree { IfOk result (λ disk. StandsFor disk.blocks (new_tree blocks)) }
        ensures unread { IfOk result (λ disk. disk.reads ≡ 0) }
    {
        let first = blocks / 16 + 1;
        let mut table = Region::boot(alloc, first)?;
        let mut contents = Region::boot(alloc, blocks - first)?;
        table.write(0, &map_of(first + 1));
        table.write(1, &block_of(&bytes_of(&root_of(blocks))));
        contents.write(0, &root_entries());
        Ok(RamDisk {
            table,
            contents,
            reads: 0,
            full: [0; 32],
        })
    }

    /// A block's bytes. The count of reads grows by one, up to its last value.
    pub fn read(&mut self, number: u32) -> [u8; 1024]
        requires { number < length self.old.blocks }
        ensures value { slice_get self.old.blocks number ≡ Some result }
        ensures counted { IsRead self.old self.new }
        ensures grows { self.old.reads ≤ self.new.reads }
    {
        self.reads = self.reads.saturating_add(1);
        let first = self.table.count();
        if number < first {
            self.table.read(number)
        } else {
            self.contents.read(number - first)
        }
    }

    /// How often a block was read, at most 18446744073709551615.
    pub fn reads(&self) -> u64
        ensures { result ≡ self.now.reads }
    {
        self.reads
    }

    /// How many of the first blocks of the table have no free node.
    pub fn full_blocks(&self) -> u32
        ensures within { result ≤ table_end (length self.now.blocks) }
        ensures full { NoneFreeIn self.now.blocks result }
    {
        next_free(&self.full, 0, self.table.count() - 1)
    }

    /// Writes a block, and no other.
    pub fn write(&mut self, number: u32, bytes: &[u8; 1024])
        requires { number < length self.old.blocks }
        ensures after { self.new.blocks ≡ slice_set self.old.blocks number bytes.now }
        ensures reads { self.new.reads ≡ self.old.reads }
    {
        let first = self.table.count();
        if number < first {
            self.table.write(number, bytes);
            note_free(&mut self.full, number, bytes);
        } else {
            self.contents.write(number - first, bytes);
        }
    }
}

impl Blocks for RamDisk {
    ghost blocks = { λ disk. disk.blocks };

    // Reads are never taken back. It holds no lent part.
    ghost follows = { λ before after. before.reads ≤ after.reads };

    ghost asked = { λ before _ after. IsRead before after };

    ghost use Rattle.std.proofs.Common.{arith};

    ghost follows_refl = { λ a. Prim.omega arith };

    ghost follows_trans = { λ a b c one other. Prim.omega arith };

    fn count(&self) -> u32 {
        self.table.count() + self.contents.count()
    }

    fn get(&mut self, number: u32) -> [u8; 1024] {
        self.read(number)
    }

    fn set(&mut self, number: u32, bytes: &[u8; 1024])
        requires { number < length self.old.blocks }
        ensures after { self.new.blocks ≡ slice_set self.old.blocks number bytes.now }
        ensures follows { self.old.reads ≤ self.new.reads }
        ensures reads { self.new.reads ≡ self.old.reads }
    {
        self.write(number, bytes);
    }
}

/// Notes of a block whether it is one of the table that has no free node.
fn note_free(full: &mut [u8; 32], number: u32, bytes: &[u8; 1024])
    requires { number ≤ 256 }
    ensures this { (index : ℕ) → index + 1 ≡ number → bit_of full.new index ≡ 1 → HasNoneFree bytes.now }
    ensures others { (index : ℕ) → index + 1 ≢ number → bit_of full.new index ≡ bit_of full.old index }
{
    if number == 0 {
        return;
    }
    if free_slot(bytes).is_some() {
        unmark(full, number - 1);
    } else {
        mark(full, number - 1);
    }
}

/// The bytes, and zeros behind them.
fn block_of(front: &[u8]) -> [u8; 1024]
    requires { length front.now ≤ 1024 }
    ensures { result ≡ front.now ++ zeros (1024 - length front.now) }
{
    let mut block = zero_block();
    put(&mut block, 0, front);
    block
}

/// The byte of a map in which the first `used` blocks are in use.
fn marked_byte(used: u32, place: usize) -> u8
    requires { place < 1024 }
    ensures { result ≡ first_marked used place }
{
    let bits = (used as usize).saturating_sub(8 * place).min(8);
    ((1_u16 << bits) - 1) as u8
}

/// Block 0 of a disk of which the first blocks are in use.
fn map_of(used: u32) -> [u8; 1024]
    ensures len { length result ≡ 1024 }
    ensures bytes { (place : ℕ) → place < 1024 → slice_index result place ≡ first_marked used place }
{
    let mut map = zero_block();
    for place in 0..map.len() {
        map[place] = marked_byte(used, place);
    }
    map
}

/// The root of a new disk.
fn root_of(blocks: u32) -> Inode
    ensures { result ≡ new_root blocks }
{
    let mut direct = [0; 10];
    direct[0] = blocks / 16 + 1;
    Inode {
        kind: 2,
        nlink: 1,
        size: 64,
        direct,
        ..blank_inode()
    }
}

/// An entry of the root that names the root.
fn entry_for_root(name: &[u8]) -> DirEntry
    requires { length name.now ≤ 27 }
    ensures { result ≡ entry_for 1 name.now }
{
    let name = Name27::of(name).unwrap();
    DirEntry { node: 1, name }
}

/// The one block of a new root.
fn root_entries() -> [u8; 1024]
    ensures { result ≡ new_entries ++ zeros (1024 - 64) }
{
    let mut block = block_of(&bytes_of_entry(&entry_for_root(b".")));
    put(&mut block, 32, &bytes_of_entry(&entry_for_root(b"..")));
    block
}
