//! What is wrong with bytes of a disk.

/// Why 64 bytes are no inode of a disk.
#[derive(Clone, Copy, PartialEq)]
pub enum BadInode {
    /// The kind, the links and the size don't go together, or a byte that is kept zero isn't 0.
    BadKind,
    /// A pointer that the size needs is outside the blocks for files, or one that it doesn't need isn't 0.
    BadPointer,
}

/// 32 bytes are no directory entry: no node, no name, a name with a zero or slash byte, or bytes behind the name.
#[derive(Clone, Copy, PartialEq)]
pub struct BadEntry;
