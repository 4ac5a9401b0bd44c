use crate::Name27;

/// A node of the disk as its table has it.
#[derive(Clone, Copy, PartialEq)]
pub struct Inode {
    /// 0 free, 1 file, 2 directory, 3 socket name, 4 FIFO.
    pub kind: u8,
    pub nlink: u16,
    /// In bytes.
    pub size: u32,
    /// The numbers of the first ten blocks; 0 where the size doesn't need one.
    pub direct: [u32; 10],
    /// The number of the block that has the next 256 pointers; 0 where the size doesn't need one.
    pub indirect: u32,
    /// The number of the block that names the blocks of all further pointers; 0 where the size doesn't need one.
    pub double: u32,
}

/// An entry of a directory: a name, and the number of its node.
#[derive(Drop, PartialEq)]
pub struct DirEntry {
    pub node: u32,
    pub name: Name27,
}
