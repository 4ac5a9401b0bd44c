//! Which socket is bound to each node of the tree of files.
#![tactic(auto)]

mod table;

pub use table::BoundTable;
