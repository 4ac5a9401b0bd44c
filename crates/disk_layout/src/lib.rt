//! The disk: its inodes and directory entries as bytes, and a disk in memory.
#![tactic(auto)]

mod disks;
mod entries;
mod faults;
mod inodes;
mod laws;
mod maps;
mod pointers;
mod regions;
mod slots;
mod words;

pub use disks::RamDisk;
pub use entries::{bytes_of_entry, entry_of};
pub use faults::{BadEntry, BadInode};
pub use inodes::{GREATEST_SIZE, bytes_of, inode_of};
pub use laws::an_old_inode_is_one_without_a_double_block;
pub use maps::{is_marked, mark, next_free, unmark};
pub use pointers::{block_of_pointers, pointer_in, pointers_in};
pub use slots::{free_slot, inode_in, put_inode};
