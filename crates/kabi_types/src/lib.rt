//! The words that the kernel, its scripts and its reports share: the values that calls take and give, the calls with
//! their argument check, entries, events, scripts, and the classes of objects that the heap has.
//!
//! Values are made, checked and copied here, and nothing else is done. Each list type is seen by contracts as its list.
#![tactic(auto)]

mod arguments;
mod calls;
mod classes;
mod copies;
mod entries;
mod errnos;
mod inodes;
mod laws;
mod long_lists;
mod memory;
mod open_flags;
mod paths;
pub mod ranges;
mod replies;
mod scripts;
mod short_lists;
mod words;

pub use arguments::{MOST_DESCRIPTORS, last_place, may_wait};
pub use calls::{Call, CallKind};
pub use classes::{Class, Need, Weight};
pub use entries::{Cached, End, Entry, Event, Noted};
pub use errnos::Errno;
pub use inodes::{DirEntry, Inode};
pub use laws::every_call_is_listed;
pub use long_lists::{Entries, Numbers, Operands, Programs, Statements, Text, Texts};
pub use memory::Memory;
pub use open_flags::OpenFlags;
pub use replies::{NodeKind, PollHits, Reply, StatInfo};
pub use scripts::{
    Chooser, Control, FaultKind, Operand, Policy, Program, Script, ScriptFault, Statement, Test,
};
pub use short_lists::{Bytes64, Name27, Path, PollEntry, PollList, Revents};
