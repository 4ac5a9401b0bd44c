//! Record locks: the ranges of files that processes hold, and what is in the way of whom.
//!
//! They are a chain in the kernel's heap, of which the table keeps the first, in no order.
#![tactic(auto)]

mod laws;
mod locks;
mod table;

pub use laws::{an_empty_table_has_no_lock, each_lock_is_one_of_the_heap};
pub use locks::{LockInfo, LockRange};
pub use table::LockTable;
