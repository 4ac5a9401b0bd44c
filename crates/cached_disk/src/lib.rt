//! A disk behind a cache of its blocks, as a disk; and its directories behind three caches, as directories: what is cached
//! is not read again.
//!
//! A call lends its heap, its purse, the caches and the disk. Each block that it asks for is found in the cache, or read and
//! filled there; each that it writes goes to the disk, and to the cache where that has it. Names and inodes are kept in the
//! same way, and found without a look at their blocks.
#![tactic(auto)]

mod blocks;
mod changing;
mod dirs;
pub mod laws;
mod looking;
mod through;
mod walking;

pub use blocks::CachedBlocks;
pub use changing::{free_through, make_through, size_through, write_through};
pub use dirs::{CachedDirs, find_inode, find_name, find_parent};
pub use looking::node_named;
pub use through::{inode_through, read_through};
pub use walking::walk_through;
