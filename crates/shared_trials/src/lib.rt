//! Who chooses among events; turns by tickets; the shared kernel over a store of two processes, by tables and beside a seat that holds a
//! part of the charge word; workers over a store of one; and texts of groups, and groups of the two processes. Tests alone, and what
//! there is of the processes.
#![tactic(auto)]

#[cfg(test)]
mod asking;
#[cfg(test)]
mod beside;
#[cfg(test)]
mod choosing;
#[cfg(test)]
mod crew;
#[cfg(test)]
mod desk;
#[cfg(test)]
mod groups;
#[cfg(test)]
mod one_pid;
#[cfg(test)]
mod one_thread;
#[cfg(test)]
mod pair;
#[cfg(test)]
mod rows;
mod scenes;
#[cfg(test)]
mod turns;
#[cfg(test)]
mod workers;

pub use scenes::{Act, Next, Scene, Who};
