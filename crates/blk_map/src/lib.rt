//! The blocks of a node: which block has which bytes, and what it is for a node to get more of them or fewer.
//!
//! Pointers behind those of the inode stand in runs of 256, each in a block of its own. Every call works over any `Blocks`,
//! keeps at most one block's bytes beside the one that it writes, and in each run that it changes copies the pointers out
//! once, and writes the map and the table once.
#![tactic(auto)]

mod counts;
mod found;
mod growing;
mod laws;
mod locating;
mod naming;
mod pointing;
mod settling;
mod shrinking;

pub use counts::{
    BLOCK_POINTERS, DIRECT_POINTERS, NEAR_BLOCKS, block_count, data_count, run_first, run_of,
    run_start,
};
pub use found::free_up_to;
pub use growing::{grow, grow_but};
pub use laws::growing_and_shrinking_back_changes_nothing;
pub use locating::block_at;
pub use naming::pointer_of;
pub use settling::put_in_table;
pub use shrinking::shrink;
