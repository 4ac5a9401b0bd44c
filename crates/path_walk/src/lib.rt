//! Paths over any tree of directories: where one leads, by POSIX's pathname resolution.
//!
//! <https://pubs.opengroup.org/onlinepubs/9699919799/basedefs/V1_chap04.html#tag_04_13>
#![tactic(auto)]

mod names;
mod walks;

pub use posix_defs::Walked;
pub use walks::walk;
