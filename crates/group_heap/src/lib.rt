//! Groups of processes, each with a heap, a tree and a policy of its own, that run at once under one whole: a text of several scripts,
//! and the runs of these. A group reserves its whole heap on a charge word before it runs, and gives it back behind its end.
#![tactic(auto)]

mod faults;
mod fronts;
mod groups;
mod laws;
mod lines;
mod lists;
mod names;
mod reports;
mod runs;
mod splits;

pub use faults::GroupFault;
pub use groups::{Group, GroupEnd};
pub use laws::{groups_keep_the_headline, groups_read_in_one_way, heaps_stay_within_the_whole};
pub use lists::GroupList;
pub use reports::report_groups;
pub use runs::{run_groups, run_one};
pub use splits::split_groups;
