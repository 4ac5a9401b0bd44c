//! Each cache, with the heap's bytes at each step, and the order of use beside a plain one.

mod blocks;
mod index;
mod names;
mod nodes;
mod steps;
