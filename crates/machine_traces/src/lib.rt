//! Worked traces of the plain machine: calls of one or more processes, what each is told, and after each the kernel heap
//! that the machine takes and how many nodes have to be cached. All are computed. Each trace is the contract of a function
//! that does nothing.
#![tactic(auto)]

mod fifos;
mod lives;
mod locks;
mod opens;
mod pairs;
mod paths;
mod pipes;
mod polls;
mod signals;
mod sockets;
mod starts;

pub use fifos::{
    faults_on_fifos_are_told, other_sides_that_went_are_told, sleeping_opens_are_told,
};
pub use lives::{breaks_are_told, faults_of_processes_are_told, orphans_are_told};
pub use locks::{clerks_in_a_circle_are_told, locks_that_go_are_told, three_in_a_circle_are_told};
pub use opens::{
    cut_and_grown_are_told, faults_on_files_are_told, files_without_names_are_told,
    flags_of_open_are_told, full_disks_are_told, open_directories_are_told,
    places_in_files_are_told,
};
pub use pairs::{closed_peers_are_told, faults_on_pairs_are_told, shut_reading_are_told};
pub use paths::{
    linked_names_are_told, made_and_removed_are_told, made_directories_are_told,
    refused_walks_are_told, removed_directories_are_told, removed_names_are_told,
    renamed_in_order_are_told,
};
pub use pipes::{
    broken_pipes_are_told, faults_on_pipes_are_told, last_copies_are_told,
    numbers_of_descriptors_are_told, parts_that_end_are_told, writes_at_the_border_are_told,
};
pub use polls::{hung_up_ends_are_told, polled_entries_are_told};
pub use signals::{dispositions_are_told, unread_writes_are_told};
pub use sockets::{
    accepted_sockets_are_told, bound_sockets_are_told, calls_on_sockets_are_told,
    connected_sockets_are_told, waiting_sockets_are_told,
};
pub use starts::{freed_by_starts_are_told, refused_programs_are_told, started_programs_are_told};
