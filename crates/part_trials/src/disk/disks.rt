ghost use Rattle.std.specs.Prelude.{◌≡◌, ◌<◌, ◌≤◌, [], ◌∷◌, None, IsSome, length};
ghost use Rattle.posix_defs.specs.Asking.{AskedInTurn};
ghost use Rattle.disk_layout.specs.Disk.{one_more};

use disk_layout::{
    BadEntry, BadInode, RamDisk, block_of_pointers, bytes_of, bytes_of_entry, entry_of, inode_in,
    inode_of, is_marked, mark, pointer_in, pointers_in, put_inode, unmark,
};
use kabi_types::{DirEntry, Inode, Name27};
use posix_defs::Blocks;
use std::process::Abort;
use std::test::Fail;

/// A file of 1024 bytes whose one block is block 2.
const FILE: [u8; 64] = [
    1, 0, 0, 1, 0, 0, 4, 0, 0, 0, 0, 2, 0, 0, 0, 0, 0, 0, 0, 0, 0, 0, 0, 0, 0, 0, 0, 0, 0, 0, 0, 0,
    0, 0, 0, 0, 0, 0, 0, 0, 0, 0, 0, 0, 0, 0, 0, 0, 0, 0, 0, 0, 0, 0, 0, 0, 0, 0, 0, 0, 0, 0, 0, 0,
];

/// The root of a new disk of 16 blocks.
const ROOT: [u8; 64] = [
    2, 0, 0, 1, 0, 0, 0, 0x40, 0, 0, 0, 2, 0, 0, 0, 0, 0, 0, 0, 0, 0, 0, 0, 0, 0, 0, 0, 0, 0, 0, 0,
    0, 0, 0, 0, 0, 0, 0, 0, 0, 0, 0, 0, 0, 0, 0, 0, 0, 0, 0, 0, 0, 0, 0, 0, 0, 0, 0, 0, 0, 0, 0, 0,
    0,
];

/// A file of 272384 bytes, the greatest size without a double block, with blocks 2 to 11 and its block of pointers 12.
const FULL: [u8; 64] = [
    1, 0, 0, 127, 0, 4, 0x28, 0, 0, 0, 0, 2, 0, 0, 0, 3, 0, 0, 0, 4, 0, 0, 0, 5, 0, 0, 0, 6, 0, 0,
    0, 7, 0, 0, 0, 8, 0, 0, 0, 9, 0, 0, 0, 10, 0, 0, 0, 11, 0, 0, 0, 12, 0, 0, 0, 0, 0, 0, 0, 0, 0,
    0, 0, 0,
];

/// The entry of node 258 under a name of 27 bytes.
const LONGEST: [u8; 32] = [
    0, 0, 1, 2, 27, 97, 98, 99, 100, 101, 102, 103, 104, 105, 106, 107, 108, 109, 110, 111, 112,
    113, 114, 115, 116, 117, 118, 119, 120, 121, 122, 48,
];

/// The entry of node 3 under `ab`.
const SHORT: [u8; 32] = [
    0, 0, 0, 3, 2, 97, 98, 0, 0, 0, 0, 0, 0, 0, 0, 0, 0, 0, 0, 0, 0, 0, 0, 0, 0, 0, 0, 0, 0, 0, 0,
    0,
];

/// The bytes of a map in which blocks 0 to 257 are in use.
const FIRST_258: [u8; 33] = [
    255, 255, 255, 255, 255, 255, 255, 255, 255, 255, 255, 255, 255, 255, 255, 255, 255, 255, 255,
    255, 255, 255, 255, 255, 255, 255, 255, 255, 255, 255, 255, 255, 3,
];

/// A file of 10240 bytes: as many as the ten blocks that an inode names itself hold.
const TEN: [u8; 64] = [
    1, 0, 0, 127, 0, 0, 0x28, 0, 0, 0, 0, 2, 0, 0, 0, 3, 0, 0, 0, 4, 0, 0, 0, 5, 0, 0, 0, 6, 0, 0,
    0, 7, 0, 0, 0, 8, 0, 0, 0, 9, 0, 0, 0, 10, 0, 0, 0, 11, 0, 0, 0, 0, 0, 0, 0, 0, 0, 0, 0, 0, 0,
    0, 0, 0,
];

const KIND: Option<BadInode> = Some(BadInode::BadKind);

const POINTER: Option<BadInode> = Some(BadInode::BadPointer);

/// Whose bytes are changed: a free node's, a file's of one block, the root's, a file's of 266 blocks, a file's of the greatest
/// size, or a file's of ten blocks, without a block of pointers and with one.
#[derive(Clone, Copy)]
enum Node {
    Free,
    File,
    Root,
    Full,
    Far,
    Ten,
    Pointed,
}

fn bytes_for(node: Node) -> [u8; 64] {
    match node {
        Node::Free => [0; 64],
        Node::File => FILE,
        Node::Root => ROOT,
        Node::Full => FULL,
        Node::Far => {
            let mut bytes = FULL;
            bytes[4] = 4;
            bytes[55] = 13;
            bytes
        }
        Node::Ten => TEN,
        Node::Pointed => {
            let mut bytes = TEN;
            bytes[51] = 12;
            bytes
        }
    }
}

/// A node, a place among its bytes, another byte for it, and what is then wrong on a disk of 16 blocks.
type Row = (Node, &'static str, usize, u8, Option<BadInode>);

/// Bytes that are kept zero; kinds, links and sizes that go together; the sizes of each kind; pointers that the size needs, in the
/// blocks for files.
const INODES: &[Row] = &[
    (Node::File, "behind the kind", 1, 1, KIND),
    (Node::File, "the first at the end", 56, 1, KIND),
    (Node::File, "the last", 63, 255, KIND),
    (Node::File, "a directory", 0, 2, None),
    (Node::File, "kind 4", 0, 4, KIND),
    (Node::File, "kind 255", 0, 255, KIND),
    (Node::File, "127 links", 3, 127, None),
    (Node::File, "128 links", 3, 128, KIND),
    (Node::File, "257 links", 2, 1, KIND),
    (Node::File, "a socket's name of 1024 bytes", 0, 3, KIND),
    (Node::Free, "a socket's name", 0, 3, None),
    (Node::Free, "a free one with a link", 3, 1, KIND),
    (Node::Free, "a free one of a byte", 7, 1, KIND),
    (Node::Far, "the greatest size", 55, 14, None),
    (Node::Far, "67381249 bytes", 7, 1, KIND),
    (Node::Root, "65 bytes", 7, 0x41, KIND),
    (Node::Root, "80 bytes", 7, 0x50, KIND),
    (Node::Root, "one entry", 7, 0x20, None),
    (Node::Root, "a file of 64 bytes", 0, 1, None),
    (Node::File, "none", 11, 0, POINTER),
    (Node::File, "the table", 11, 1, POINTER),
    (Node::File, "the first for files", 11, 2, None),
    (Node::File, "the last", 11, 15, None),
    (Node::File, "behind the last", 11, 16, POINTER),
    (Node::File, "a second for 1024 bytes", 15, 3, POINTER),
    (Node::File, "one for 1025 bytes", 7, 1, POINTER),
    (
        Node::File,
        "a block of pointers for 1024 bytes",
        51,
        3,
        POINTER,
    ),
    (Node::File, "a double block for 1024 bytes", 55, 3, POINTER),
    (Node::File, "16777216 as double block", 52, 1, POINTER),
    (Node::Full, "272385 bytes", 7, 1, POINTER),
    (
        Node::Full,
        "a double block for 272384 bytes",
        55,
        13,
        POINTER,
    ),
    (Node::Far, "no double block", 55, 0, POINTER),
    (Node::Far, "the table as double block", 55, 1, POINTER),
    (Node::Far, "a double block behind the last", 55, 16, POINTER),
    (Node::Full, "the tenth", 47, 16, POINTER),
    (Node::Full, "the table as block of pointers", 51, 1, POINTER),
    (Node::Full, "no block of pointers", 51, 0, POINTER),
    (Node::Ten, "10240 bytes", 51, 0, None),
    (
        Node::Ten,
        "a block of pointers for 10240 bytes",
        51,
        12,
        POINTER,
    ),
    (
        Node::Ten,
        "10241 bytes without a block of pointers",
        7,
        1,
        POINTER,
    ),
    (Node::Pointed, "10241 bytes", 7, 1, None),
    (
        Node::Pointed,
        "a block of pointers that isn't needed",
        7,
        0,
        POINTER,
    ),
];

#[test]
fn inodes_that_are_bad(rt: HostRuntime) {
    for (node, what, place, byte, fault) in INODES {
        let mut bytes = bytes_for(*node);
        if let Some(cell) = bytes.get_mut(*place) {
            *cell = *byte;
        }
        check(&rt, inode_of(&bytes, 16).err() == *fault, *what);
    }
}

/// Whether it is the long entry that is changed; a place among its bytes, another byte for it, and whether it is then bad.
const ENTRIES: &[(bool, &str, usize, u8, bool)] = &[
    (false, "node 0", 3, 0, true),
    (false, "no name", 4, 0, true),
    (false, "a zero byte in the name", 4, 3, true),
    (false, "a slash", 5, 47, true),
    (false, "a byte behind the name", 7, 1, true),
    (false, "the last byte", 31, 1, true),
    (false, "a dot", 6, 46, false),
    (true, "28 bytes", 4, 28, true),
    (true, "a byte behind 26", 4, 26, true),
];

#[test]
fn entries_that_are_bad(rt: HostRuntime) {
    for (long, what, place, byte, bad) in ENTRIES {
        let mut bytes = if *long { LONGEST } else { SHORT };
        if let Some(cell) = bytes.get_mut(*place) {
            *cell = *byte;
        }
        check(&rt, entry_of(&bytes).is_err() == *bad, *what);
    }
}

fn check(rt: &impl Abort, right: bool, what: &str) {
    assert!(rt; right, "{what}");
}

/// The block is the front and zeros behind it.
fn is_front(block: &[u8; 1024], front: &[u8]) -> bool
    requires { length front.now ≤ 1024 }
{
    let len = front.len();
    &block[..len] == front && block[len..].iter().all(|byte| *byte == 0)
}

#[test]
fn a_new_disk_of_16_blocks(rt: HostRuntime) -> Result<(), Fail> {
    let mut disk = RamDisk::boot(rt.alloc(), 16)?;
    assert!(rt; disk.reads() == 0);
    assert!(rt; is_front(&disk.read(0), &[7]));
    assert!(rt; is_front(&disk.read(1), &[2, 0, 0, 1, 0, 0, 0, 0x40, 0, 0, 0, 2]));
    let entries = disk.read(2);
    assert!(rt; entries[..6] == [0, 0, 0, 1, 1, 46]);
    assert!(rt; entries[6..32].iter().all(|byte| *byte == 0));
    assert!(rt; entries[32..39] == [0, 0, 0, 1, 2, 46, 46]);
    assert!(rt; entries[39..].iter().all(|byte| *byte == 0));
    assert!(rt; is_front(&disk.read(15), &[]));
    assert!(rt; disk.reads() == 4);
    Ok(())
}

#[test]
fn a_new_disk_of_4096_blocks(rt: HostRuntime) -> Result<(), Fail> {
    let mut disk = RamDisk::boot(rt.alloc(), 4096)?;
    assert!(rt; is_front(&disk.read(0), &FIRST_258));
    assert!(rt; is_front(&disk.read(1), &[2, 0, 0, 1, 0, 0, 0, 0x40, 0, 0, 1, 1]));
    assert!(rt; disk.read(257)[37] == 46);
    Ok(())
}

/// Reads the first two blocks of a disk, or none where it has fewer.
fn read_two<B: Blocks>(disk: &mut B) -> Option<([u8; 1024], [u8; 1024])>
    ensures few { length (B.blocks disk.old) < 2 → (result ≡ None) × AskedInTurn B.asked disk.old [] disk.new }
    ensures many { 2 ≤ length (B.blocks disk.old) → IsSome result × AskedInTurn B.asked disk.old (0 ∷ 1 ∷ []) disk.new }
    ensures follows { B.follows disk.old disk.new }
{
    if disk.count() < 2 {
        return None;
    }
    let first = disk.get(0);
    let second = disk.get(1);
    Some((first, second))
}

/// What that costs on a disk in memory: two reads, and none of them is written anew.
fn read_two_of(disk: &mut RamDisk) -> Option<([u8; 1024], [u8; 1024])>
    requires { 2 ≤ length disk.old.blocks }
    ensures reads { disk.new.reads ≡ one_more (one_more disk.old.reads) }
    ensures blocks { disk.new.blocks ≡ disk.old.blocks }
{
    read_two(disk)
}

#[test]
fn two_blocks_cost_two_reads(rt: HostRuntime) -> Result<(), Fail> {
    let mut disk = RamDisk::boot(rt.alloc(), 16)?;
    assert!(rt; disk.count() == 16);
    if disk.count() >= 2 {
        assert!(rt; read_two_of(&mut disk).is_some());
    }
    assert!(rt; disk.reads() == 2);
    Ok(())
}

#[test]
fn inodes_are_read_and_written(rt: HostRuntime) {
    let file = Inode {
        kind: 1,
        nlink: 1,
        size: 1024,
        direct: [2, 0, 0, 0, 0, 0, 0, 0, 0, 0],
        indirect: 0,
        double: 0,
    };
    let full = Inode {
        kind: 1,
        nlink: 127,
        size: 272_384,
        direct: [2, 3, 4, 5, 6, 7, 8, 9, 10, 11],
        indirect: 12,
        double: 0,
    };
    let far = Inode {
        size: 67_381_248,
        double: 13,
        ..full
    };
    assert!(rt; inode_of(&FILE, 16) == Ok(file));
    assert!(rt; inode_of(&FULL, 16) == Ok(full));
    assert!(rt; inode_of(&bytes_for(Node::Far), 16) == Ok(far));
    assert!(rt; bytes_of(&file) == FILE);
    assert!(rt; bytes_of(&full) == FULL);
    assert!(rt; bytes_of(&far) == bytes_for(Node::Far));
    assert!(rt; inode_of(&[0; 64], 16).is_ok());
}

#[test]
fn a_bad_kind_comes_before_a_bad_pointer(rt: HostRuntime) {
    let mut odd = FILE;
    odd[0] = 2;
    odd[7] = 1;
    assert!(rt; inode_of(&odd, 16) == Err(BadInode::BadKind));
    odd[7] = 32;
    assert!(rt; inode_of(&odd, 16) == Err(BadInode::BadPointer));
    assert!(rt; inode_of(&FILE, 32) == Err(BadInode::BadPointer));
}

#[test]
fn entries_are_read_and_written(rt: HostRuntime) -> Result<(), Fail> {
    let longest = entry_of(&LONGEST).ok().ok_or("27 bytes are a name")?;
    assert!(rt; longest.node == 258);
    assert!(rt; longest.name.items() == b"abcdefghijklmnopqrstuvwxyz0".as_slice());
    assert!(rt; bytes_of_entry(&longest) == LONGEST);
    let name = Name27::of(b"ab").ok_or("two bytes are a name")?;
    let short = DirEntry { node: 3, name };
    assert!(rt; bytes_of_entry(&short) == SHORT);
    assert!(rt; entry_of(&SHORT) == Ok(short) && entry_of(&[0; 32]) == Err(BadEntry));
    Ok(())
}

/// Where the pointers of a block stand, and that a block has those that it was made of.
#[test]
fn blocks_of_pointers(rt: HostRuntime) {
    let mut pointers = [0; 256];
    pointers[1] = 0x0102;
    pointers[255] = 4095;
    let block = block_of_pointers(&pointers);
    assert!(rt; block[..8] == [0, 0, 0, 0, 0, 0, 1, 2]);
    assert!(rt; block[1020..] == [0, 0, 15, 255]);
    assert!(rt; pointer_in(&block, 255) == 4095);
    assert!(rt; pointers_in(&block) == pointers);
}

/// Block 13 has bit 5 of byte 1.
#[test]
fn bits_of_a_map(rt: HostRuntime) {
    let mut map = [0; 1024];
    map[1] = 1;
    mark(&mut map, 13);
    assert!(rt; map[1] == 33);
    assert!(rt; is_marked(&map, 13) && is_marked(&map, 8) && !is_marked(&map, 12));
    unmark(&mut map, 8);
    assert!(rt; map[1] == 32);
}

/// Slot 2 has bytes 128 to 191.
#[test]
fn slots_of_the_table(rt: HostRuntime) {
    let mut block = [7; 1024];
    let free = Inode {
        kind: 0,
        nlink: 0,
        size: 0,
        direct: [0; 10],
        indirect: 0,
        double: 0,
    };
    put_inode(&mut block, 2, &free);
    assert!(rt; inode_in(&block, 2, 16) == Ok(free));
    assert!(rt; block[127] == 7 && block[128] == 0 && block[191] == 0 && block[192] == 7);
    assert!(rt; inode_in(&block, 3, 16) == Err(BadInode::BadKind));
}
