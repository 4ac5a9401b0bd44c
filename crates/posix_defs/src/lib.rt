//! The plain machine: what each call means, with no heap and no cache, and what the kernel's parts ask of each other.
//!
//! The definitions stand in `specs/`. This is what code there is beside them: the phases of a process, what a turn
//! answers, and the traits by which the layers meet. The laws that the definitions obey are crates of their own above it.
#![tactic(auto)]

mod blocks;
mod dirs;
mod generator;
mod nodes;
mod phases;
mod prices;
mod said;
mod turner;
mod walked;

pub use blocks::{BlockList, Blocks};
pub use dirs::Dirs;
pub use generator::{choice_of, next_state};
pub use nodes::{Listed, ListedNode, NodeList, blank_inode};
pub use phases::{Asked, Phase, Task};
pub use prices::Price;
pub use said::{AtTop, InProgram, Setting, Shape, Spoken, Stated, Word};
pub use turner::{Turned, Turner};
pub use walked::Walked;
