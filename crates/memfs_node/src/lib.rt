//! The nodes of a disk: the inode of a number, the lowest free node, a node that is made, and one that is linked and freed.
//!
//! Every call works over any `Blocks` and keeps at most one block's bytes in hand. An inode in hand is a copy of what the
//! table has: a call that changes it writes the table too.
#![tactic(auto)]

mod freeing;
mod inodes;
mod laws;
mod linking;
mod making;
mod naming;
mod retagging;
mod room;

pub use freeing::free_node;
pub use inodes::{inode_at, lowest_node};
pub use laws::{a_made_node_is_that_of_the_tree, links_are_those_of_the_tree};
pub use linking::{add_link, drop_link, set_links};
pub use making::{NewNode, make_node};
pub use naming::make_named;
pub use room::{has_room, has_room_for_entry};
