//! The disk, and nodes, files and directories on it.

mod disks;
mod nodes;
