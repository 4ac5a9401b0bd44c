//! Directories on a disk that counts: what steps on the root answer and cost, at every border.

ghost use Rattle.std.specs.Prelude.{[], IfSome};
ghost use Rattle.posix_defs.specs.DiskFormat.{IsEntry};
ghost use Rattle.posix_defs.specs.SoundDisk.{Sound};
ghost use Rattle.posix_defs.specs.DiskContents.{IsDirectoryOf};
ghost use Rattle.memfs_dir.specs.Listed.{HasDirectory};

use super::counting::Counting;
use disk_layout::{RamDisk, entry_of};
use kabi_types::{DirEntry, Errno, Inode};
use memfs_dir::{dir_add, dir_entry, dir_find, dir_remove, dir_rename};
use memfs_file::free_count;
use memfs_node::inode_at;
use std::process::Abort;
use std::test::Fail;

/// The root's inode.
fn root_of(b: &mut Counting) -> Inode
    requires sound { Sound b.old.disk.blocks }
    requires root { IsDirectoryOf b.old.disk.blocks 1 1 [] }
    ensures { HasDirectory b.new.disk.blocks 1 result }
{
    inode_at(b, 1)
}

/// The three letters of a number's name.
fn name_of(number: u32) -> [u8; 3] {
    let letter = |digit: u32| b'a' + (digit % 26) as u8;
    [letter(number / 676), letter(number / 26), letter(number)]
}

/// An entry of this name, for a node of a number that tells which one it is.
fn entry_called(name: &[u8; 3], number: u32) -> Option<DirEntry>
    ensures { IfSome result (λ entry. IsEntry entry) }
{
    let mut bytes = [0; 32];
    bytes[2] = (number / 256 % 256) as u8;
    bytes[3] = (number % 256) as u8;
    bytes[4] = 3;
    bytes[5] = name[0];
    bytes[6] = name[1];
    bytes[7] = name[2];
    entry_of(&bytes).ok()
}

/// The entry of a number: its name, and a node 100 above it.
fn entry_numbered(number: u32) -> Option<DirEntry>
    ensures { IfSome result (λ entry. IsEntry entry) }
{
    entry_called(&name_of(number), number.saturating_add(100))
}

/// What is done to the root.
#[derive(Clone, Copy)]
enum Step {
    /// Entries are added, each with the number of its place, until there are so many.
    Fill(u32),
    /// The entry of this number is added.
    Add(u32),
    /// The name of this number is looked for.
    Find(u32),
    /// The entry at this place is looked at.
    Look(u32),
    /// The entry at this place is removed.
    Remove(u32),
    /// The entry of the second number is put at the first place.
    Rename(u32, u32),
}

/// What it answers.
#[derive(Clone, Copy, PartialEq)]
enum Answer {
    Done,
    Full,
    Place(u32),
    Missing,
    Node(u32),
    /// The step speaks of no such place.
    NoPlace,
}

fn add(b: &mut Counting, dir: &mut Inode, number: u32) -> Answer
    requires { HasDirectory b.old.disk.blocks 1 dir.old }
    ensures { HasDirectory b.new.disk.blocks 1 dir.new }
{
    let Some(entry) = entry_numbered(number) else {
        return Answer::NoPlace;
    };
    match dir_add(b, 1, dir, &entry) {
        Ok(()) => Answer::Done,
        Err(Errno::ENOSPC) => Answer::Full,
        Err(_) => Answer::NoPlace,
    }
}

fn fill(b: &mut Counting, dir: &mut Inode, count: u32) -> Answer
    requires { HasDirectory b.old.disk.blocks 1 dir.old }
    ensures { HasDirectory b.new.disk.blocks 1 dir.new }
{
    for number in dir.size / 32..count {
        let answer = add(b, dir, number);
        if answer != Answer::Done {
            return answer;
        }
    }
    Answer::Done
}

fn find(b: &mut Counting, dir: &Inode, name: &[u8]) -> Answer
    requires { HasDirectory b.old.disk.blocks 1 dir.now }
    ensures { HasDirectory b.new.disk.blocks 1 dir.now }
{
    match dir_find(b, dir, name) {
        Some(place) => Answer::Place(place),
        None => Answer::Missing,
    }
}

fn look(b: &mut Counting, dir: &Inode, place: u32) -> Answer
    requires { HasDirectory b.old.disk.blocks 1 dir.now }
    ensures { HasDirectory b.new.disk.blocks 1 dir.now }
{
    if place >= dir.size / 32 {
        return Answer::NoPlace;
    }
    Answer::Node(dir_entry(b, dir, place).node)
}

fn remove(b: &mut Counting, dir: &mut Inode, place: u32) -> Answer
    requires { HasDirectory b.old.disk.blocks 1 dir.old }
    ensures { HasDirectory b.new.disk.blocks 1 dir.new }
{
    if place >= dir.size / 32 {
        return Answer::NoPlace;
    }
    Answer::Node(dir_remove(b, 1, dir, place))
}

fn rename(b: &mut Counting, dir: &Inode, place: u32, number: u32) -> Answer
    requires { HasDirectory b.old.disk.blocks 1 dir.now }
    ensures { HasDirectory b.new.disk.blocks 1 dir.now }
{
    let Some(entry) = entry_numbered(number) else {
        return Answer::NoPlace;
    };
    if place >= dir.size / 32 {
        return Answer::NoPlace;
    }
    dir_rename(b, dir, place, &entry);
    Answer::Done
}

fn take(b: &mut Counting, dir: &mut Inode, step: Step) -> Answer
    requires { HasDirectory b.old.disk.blocks 1 dir.old }
    ensures { HasDirectory b.new.disk.blocks 1 dir.new }
{
    match step {
        Step::Fill(count) => fill(b, dir, count),
        Step::Add(number) => add(b, dir, number),
        Step::Find(number) => find(b, dir, &name_of(number)),
        Step::Look(place) => look(b, dir, place),
        Step::Remove(place) => remove(b, dir, place),
        Step::Rename(place, number) => rename(b, dir, place, number),
    }
}

/// A step, what it answers, how many blocks are read and written for it, and how many blocks are free and how many entries
/// there are then.
type Row = (Step, Answer, u64, u64, u32, u32);

/// Whether each row is as it says, one after another.
fn check_steps(rt: &impl Abort, b: &mut Counting, dir: &mut Inode, rows: &[Row])
    requires { HasDirectory b.old.disk.blocks 1 dir.old }
    ensures { HasDirectory b.new.disk.blocks 1 dir.new }
{
    for (k, (step, answer, gets, sets, free, entries)) in rows.iter().enumerate() {
        let (got, put) = (b.disk.reads(), b.sets);
        let answered = take(b, dir, *step);
        let got = b.disk.reads().saturating_sub(got);
        let put = b.sets.saturating_sub(put);
        let left = free_count(b, 4096);
        let cost = got == *gets && put == *sets;
        let right = answered == *answer && cost && left == *free && dir.size / 32 == *entries;
        assert!(rt; right, "step {k}: {got} gets, {put} sets, {left} free");
    }
}

/// Whether each row is as it says on a new root.
fn check_root(rt: &impl Abort, b: &mut Counting, rows: &[Row])
    requires sound { Sound b.old.disk.blocks }
    requires root { IsDirectoryOf b.old.disk.blocks 1 1 [] }
{
    let mut root = root_of(b);
    check_steps(rt, b, &mut root, rows);
}

/// The same on a new disk of so many blocks.
fn check_on(rt: &(impl Abort + AllocGlobal), blocks: u32, rows: &[Row]) -> Result<(), Fail> {
    assert!(rt; blocks >= 16 && blocks <= 4096);
    let disk = RamDisk::boot(rt.alloc(), blocks)?;
    let mut b = Counting { disk, sets: 0 };
    check_root(rt, &mut b, rows);
    drop(b);
    Ok(())
}

/// A new disk of 16 blocks has 13 free ones beside that of the root, which has `.` and `..`. A block has 32 entries; from
/// entry 321 on one more has the pointers.
const ON_16_BLOCKS: &[Row] = &[
    (Step::Find(0), Answer::Missing, 1, 0, 13, 2),
    (Step::Fill(31), Answer::Done, 58, 58, 13, 31),
    (Step::Add(31), Answer::Done, 2, 2, 13, 32),
    (Step::Add(32), Answer::Done, 2, 4, 12, 33),
    (Step::Find(31), Answer::Place(31), 1, 0, 12, 33),
    (Step::Find(32), Answer::Place(32), 2, 0, 12, 33),
    (Step::Find(33), Answer::Missing, 2, 0, 12, 33),
    (Step::Look(32), Answer::Node(132), 1, 0, 12, 33),
    (Step::Remove(32), Answer::Node(132), 3, 2, 13, 32),
    (Step::Find(32), Answer::Missing, 1, 0, 13, 32),
    (Step::Remove(2), Answer::Node(102), 3, 2, 13, 31),
    (Step::Find(2), Answer::Missing, 1, 0, 13, 31),
    (Step::Find(31), Answer::Place(2), 1, 0, 13, 31),
    (Step::Rename(2, 5000), Answer::Done, 1, 1, 13, 31),
    (Step::Find(5000), Answer::Place(2), 1, 0, 13, 31),
    (Step::Find(31), Answer::Missing, 1, 0, 13, 31),
    (Step::Fill(320), Answer::Done, 578, 596, 4, 320),
    (Step::Find(319), Answer::Place(319), 10, 0, 4, 320),
    (Step::Find(320), Answer::Missing, 10, 0, 4, 320),
    (Step::Add(320), Answer::Done, 3, 5, 2, 321),
    (Step::Find(320), Answer::Place(320), 12, 0, 2, 321),
    (Step::Find(321), Answer::Missing, 12, 0, 2, 321),
    (Step::Look(320), Answer::Node(420), 2, 0, 2, 321),
    (Step::Rename(320, 5001), Answer::Done, 2, 1, 2, 321),
    (Step::Remove(320), Answer::Node(5101), 5, 2, 4, 320),
    (Step::Add(320), Answer::Done, 3, 5, 2, 321),
    (Step::Remove(3), Answer::Node(103), 6, 3, 4, 320),
    (Step::Find(320), Answer::Place(3), 1, 0, 4, 320),
    (Step::Rename(3, 5002), Answer::Done, 1, 1, 4, 320),
    (Step::Fill(416), Answer::Done, 290, 201, 0, 416),
    (Step::Add(416), Answer::Full, 1, 0, 0, 416),
    (Step::Remove(415), Answer::Node(515), 3, 1, 0, 415),
    (Step::Add(415), Answer::Done, 3, 2, 0, 416),
    (Step::Add(416), Answer::Full, 1, 0, 0, 416),
];

/// A directory of 272384 bytes has 8512 entries in 266 blocks, behind one of pointers. One entry more takes a block, the
/// double block and one of pointers.
const ON_4096_BLOCKS: &[Row] = &[
    (Step::Add(2), Answer::Done, 2, 2, 3838, 3),
    (Step::Find(2), Answer::Place(2), 1, 0, 3838, 3),
    (Step::Remove(2), Answer::Node(102), 2, 1, 3838, 2),
    (Step::Find(2), Answer::Missing, 1, 0, 3838, 2),
    (Step::Fill(8512), Answer::Done, 25467, 17806, 3572, 8512),
    (Step::Find(8511), Answer::Place(8511), 267, 0, 3572, 8512),
    (Step::Find(8512), Answer::Missing, 267, 0, 3572, 8512),
    (Step::Add(8512), Answer::Done, 4, 6, 3569, 8513),
    (Step::Find(8512), Answer::Place(8512), 270, 0, 3569, 8513),
    (Step::Find(8513), Answer::Missing, 270, 0, 3569, 8513),
    (Step::Remove(8512), Answer::Node(8612), 7, 2, 3572, 8512),
    (Step::Remove(8511), Answer::Node(8611), 3, 1, 3572, 8511),
    (Step::Add(8511), Answer::Done, 3, 2, 3572, 8512),
];

/// The blocks of a disk, and what is done with its root.
const DISKS: &[(u32, &[Row])] = &[(16, ON_16_BLOCKS), (4096, ON_4096_BLOCKS)];

#[test]
fn directories_cost_what_they_do(rt: HostRuntime) -> Result<(), Fail> {
    for (blocks, rows) in DISKS {
        check_on(&rt, *blocks, rows)?;
    }
    Ok(())
}
