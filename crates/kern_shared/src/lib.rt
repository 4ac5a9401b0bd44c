//! The shared kernel: several threads, each with a pass of its own, run the processes of one store in turns, and have one history.
//!
//! A pass is given a process by `pick`, has its call answered by `attend`, helps calls that wait by `relieve`, or gives its process
//! back by `release`. The value that the passes have in turn is `KernelState`, behind a box; a charge word says what is live and reserved.
#![tactic(auto)]

mod attends;
mod boot;
mod boxed;
mod closing;
mod crossing;
mod held;
mod histories;
mod kernel;
mod lists;
mod naming;
mod passes;
mod picks;
mod reliefs;
mod served;
mod state;
mod values;

pub use attends::Attended;
pub use boxed::BoxedState;
pub use closing::Closed;
pub use crossing::crosses_threads;
pub use held::Held;
pub use histories::{
    a_held_call_is_given_up_once, entries_are_a_run, no_reserved_call_comes_behind_starved,
    the_control_of_who_is_held_stands, what_is_over_stays_over, who_is_held_is_up,
};
pub use kernel::Kernel;
pub use passes::Pass;
pub use picks::Picked;
pub use state::{KernelState, RunName};
pub use values::{
    a_reserved_call_finds_no_starved, a_value_at_boot_stands_for_no_item,
    an_entry_of_a_held_process_is_kept, an_item_without_an_entry_leaves_the_store,
    few_processes_are_held, what_frees_heap_is_kept,
};
