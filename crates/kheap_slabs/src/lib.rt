//! The kernel heap: twelve shelves of objects by class under keys of their own, the meter of the bytes that they take and of
//! the most that they took since the heap was marked, and the purse of a call.
#![tactic(auto)]

mod kheap;
mod meter;
mod objects;
mod purse;
mod shelf;

pub use kheap::KHeap;
pub use objects::{
    Access, Block, Chunk, Desc, DescFlags, Descriptor, HalfOpen, Leaf, Lock, Name, Node, Page,
    PageEntry, Pipe, Proc, QueueParts, Sock, SockState, Target, Vnode,
};
pub use purse::Purse;
