//! The tool over streams that fail, over allocations that are refused, by workers that a door holds and by groups at once. Tests alone;
//! what it writes where nothing fails is in the rows that the built program is run on.
#![tactic(auto)]

#[cfg(test)]
mod crews;
#[cfg(test)]
mod groups;
#[cfg(test)]
mod refused;
#[cfg(test)]
mod streams;
#[cfg(test)]
mod tool;
