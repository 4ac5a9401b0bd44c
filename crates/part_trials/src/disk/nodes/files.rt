//! Files on a disk that counts: what changes of a file answer and cost, at every border.

ghost use Rattle.std.specs.Prelude.{◌≡◌};
ghost use Rattle.posix_defs.specs.SoundDisk.{HasNode, Sound};

use super::counting::{Counting, new_file};
use blk_map::{grow, shrink};
use disk_layout::RamDisk;
use kabi_types::{Errno, Inode};
use memfs_file::{free_count, set_size, write_at};
use std::process::Abort;
use std::test::Fail;

/// The bytes that are written: the first of them, as many as a write has. Proofs see no table of this length behind a call.
fn sevens() -> &'static [u8] {
    &[7; 32767]
}

/// A change of a file: so many bytes written at a place, another size, or as many blocks as another size takes.
#[derive(Drop)]
enum Change {
    Write(u32, usize),
    Size(u32),
    Blocks(u32),
}

/// Gives a file the blocks of another size, whichever way that is.
fn resize(b: &mut Counting, number: u32, inode: &mut Inode, size: u32) -> Result<(), Errno>
    requires sound { Sound b.old.disk.blocks }
    requires node { HasNode b.old.disk.blocks number inode.old }
    requires kind { inode.old.kind ≡ 1 }
    ensures sound { Sound b.new.disk.blocks }
    ensures node { HasNode b.new.disk.blocks number inode.new }
    ensures kind { inode.new.kind ≡ 1 }
{
    if size >= inode.size {
        return grow(b, number, inode, size);
    }
    shrink(b, number, inode, size);
    Ok(())
}

/// Makes a change of a file; answers how many bytes were written.
fn change_file(
    b: &mut Counting,
    number: u32,
    inode: &mut Inode,
    change: &Change,
) -> Result<u32, Errno>
    requires sound { Sound b.old.disk.blocks }
    requires node { HasNode b.old.disk.blocks number inode.old }
    requires kind { inode.old.kind ≡ 1 }
    ensures sound { Sound b.new.disk.blocks }
    ensures node { HasNode b.new.disk.blocks number inode.new }
    ensures kind { inode.new.kind ≡ 1 }
{
    let bytes = sevens();
    match change {
        Change::Write(_, 0) => Ok(0),
        Change::Write(at, len) if *len <= bytes.len() => {
            write_at(b, number, inode, *at, &bytes[..*len])
        }
        Change::Write(_, _) => Ok(0),
        Change::Size(size) => {
            set_size(b, number, inode, *size)?;
            Ok(0)
        }
        Change::Blocks(size) => {
            resize(b, number, inode, *size)?;
            Ok(0)
        }
    }
}

/// A change, what is answered, how many blocks were read and written for it, and how many are free then.
type Row = (Change, Result<u32, Errno>, u64, u64, u32);

/// Whether each row is as it says, one after another.
fn check_changes(rt: &impl Abort, b: &mut Counting, number: u32, inode: &mut Inode, rows: &[Row])
    requires sound { Sound b.old.disk.blocks }
    requires node { HasNode b.old.disk.blocks number inode.old }
    requires kind { inode.old.kind ≡ 1 }
    ensures sound { Sound b.new.disk.blocks }
    ensures node { HasNode b.new.disk.blocks number inode.new }
    ensures kind { inode.new.kind ≡ 1 }
{
    for (k, (change, answer, gets, sets, free)) in rows.iter().enumerate() {
        let (got, put) = (b.disk.reads(), b.sets);
        let answered = change_file(b, number, inode, change);
        let got = b.disk.reads().saturating_sub(got);
        let put = b.sets.saturating_sub(put);
        let left = free_count(b, 4096);
        let right = answered == *answer && got == *gets && put == *sets && left == *free;
        assert!(rt; right, "change {k}: {got} gets, {put} sets, {left} free");
    }
}

/// Makes the changes on an empty file.
fn check_file(rt: &impl Abort, b: &mut Counting, rows: &[Row])
    requires { Sound b.old.disk.blocks }
{
    let mut inode = new_file(rt, b, 2);
    check_changes(rt, b, 2, &mut inode, rows);
}

/// The same on a new disk of so many blocks.
fn check_on(rt: &(impl Abort + AllocGlobal), blocks: u32, rows: &[Row]) -> Result<(), Fail> {
    assert!(rt; blocks >= 16 && blocks <= 4096);
    let disk = RamDisk::boot(rt.alloc(), blocks)?;
    let mut b = Counting { disk, sets: 0 };
    check_file(rt, &mut b, rows);
    drop(b);
    Ok(())
}

/// A new disk of 16 blocks has 14 for files, and the root in one of them. Each change is made on the file that the row
/// before left.
const ON_16_BLOCKS: &[Row] = &[
    (Change::Write(0, 1), Ok(1), 3, 4, 12),
    (Change::Write(1, 1023), Ok(1023), 2, 2, 12),
    (Change::Write(1024, 1024), Ok(1024), 2, 3, 11),
    (Change::Write(1000, 48), Ok(48), 2, 2, 11),
    (Change::Write(0, 2048), Ok(2048), 0, 2, 11),
    (Change::Write(5000, 10), Ok(10), 3, 6, 8),
    (Change::Write(6000, 1), Ok(1), 4, 5, 7),
    (Change::Write(6001, 32767), Ok(6287), 6, 10, 0),
    (Change::Write(12288, 1), Err(Errno::ENOSPC), 2, 0, 0),
    (Change::Write(12287, 2), Ok(1), 5, 2, 0),
    (Change::Write(272_384, 1), Err(Errno::ENOSPC), 2, 0, 0),
    (Change::Write(67_381_248, 1), Err(Errno::EFBIG), 0, 0, 0),
    (Change::Size(12288), Ok(0), 1, 1, 0),
];

/// A new disk has the root in one of its 14 blocks for files. Each size is tried on the file that the row before left.
const SIZES_ON_16_BLOCKS: &[Row] = &[
    (Change::Blocks(12288), Ok(0), 2, 15, 0),
    (Change::Blocks(12289), Err(Errno::ENOSPC), 1, 0, 0),
    (Change::Blocks(272_385), Err(Errno::ENOSPC), 1, 0, 0),
    (Change::Blocks(67_381_248), Err(Errno::ENOSPC), 1, 0, 0),
    (Change::Blocks(67_381_249), Err(Errno::EFBIG), 0, 0, 0),
    (Change::Blocks(12288), Ok(0), 1, 1, 0),
    (Change::Blocks(10241), Ok(0), 3, 3, 1),
    (Change::Blocks(12288), Ok(0), 3, 4, 0),
    (Change::Blocks(10240), Ok(0), 3, 2, 3),
    (Change::Blocks(0), Ok(0), 2, 2, 13),
    (Change::Blocks(1), Ok(0), 2, 3, 12),
    (Change::Blocks(1024), Ok(0), 1, 1, 12),
    (Change::Blocks(1025), Ok(0), 2, 3, 11),
    (Change::Blocks(0), Ok(0), 2, 2, 13),
];

/// A new disk has 3839 blocks for files, of which the root has one.
const SIZES_ON_4096_BLOCKS: &[Row] = &[
    (Change::Blocks(10240), Ok(0), 2, 12, 3828),
    (Change::Blocks(10241), Ok(0), 2, 4, 3826),
    (Change::Blocks(11264), Ok(0), 1, 1, 3826),
    (Change::Blocks(272_384), Ok(0), 3, 258, 3571),
    (Change::Blocks(10241), Ok(0), 3, 3, 3826),
    (Change::Blocks(272_384), Ok(0), 3, 258, 3571),
    (Change::Blocks(272_385), Ok(0), 2, 5, 3568),
    (Change::Blocks(534_529), Ok(0), 8, 263, 3311),
    (Change::Blocks(67_381_248), Err(Errno::ENOSPC), 1, 0, 3311),
    (Change::Blocks(67_381_249), Err(Errno::EFBIG), 0, 0, 3311),
    (Change::Blocks(10241), Ok(0), 12, 8, 3826),
    (Change::Blocks(10240), Ok(0), 3, 2, 3828),
    (Change::Blocks(0), Ok(0), 2, 2, 3838),
];

/// The blocks of a disk, and what is done with a file on it.
const DISKS: &[(u32, &[Row])] = &[
    (16, ON_16_BLOCKS),
    (16, SIZES_ON_16_BLOCKS),
    (4096, SIZES_ON_4096_BLOCKS),
];

#[test]
fn files_cost_what_they_do(rt: HostRuntime) -> Result<(), Fail> {
    for (blocks, rows) in DISKS {
        check_on(&rt, *blocks, rows)?;
    }
    Ok(())
}
