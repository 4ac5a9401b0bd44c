//! Values, what is left of a write, victims, places in order, chains of waits, ranges that are held, a line of a report and what
//! lines claim; objects of the heap; the disk and the nodes, files and directories on it, with the blocks that each call reads and
//! writes; the order of use and each cache, by hand. Tests alone.
#![tactic(auto)]

#[cfg(test)]
mod caches;
#[cfg(test)]
mod checking;
#[cfg(test)]
mod claims;
#[cfg(test)]
mod disk;
#[cfg(test)]
mod heaps;
#[cfg(test)]
mod lines;
#[cfg(test)]
mod lists;
#[cfg(test)]
mod locks;
#[cfg(test)]
mod places;
#[cfg(test)]
mod prices;
#[cfg(test)]
mod ranges;
#[cfg(test)]
mod values;
#[cfg(test)]
mod victims;
#[cfg(test)]
mod waits;
