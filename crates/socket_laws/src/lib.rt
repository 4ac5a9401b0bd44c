//! Laws of pipes, of their bytes in chunks, and of Unix stream sockets apart from paths, with two examples computed by hand.
//! Each is the contract of a function that does nothing.
#![tactic(auto)]

mod names;
mod pipes;
mod sockets;

pub use names::{
    a_freed_name_is_nobodys, a_node_names_one_socket, a_socket_moves_no_more_than_it_holds,
    who_listens_is_the_one_that_is_bound,
};
pub use pipes::{
    a_pipe_moves_no_more_than_it_holds, bytes_keep_their_order, chunks_follow_the_bytes,
    writes_keep_to_their_room,
};
pub use sockets::{
    a_shut_side_is_read_to_its_end, a_socket_stays_connected_after_its_peer,
    each_direction_keeps_its_order, every_socket_has_its_owner, sockets_stand_where_they_stood,
    sockets_stay_linked, the_backlog_is_in_order, these_sockets_answer_so,
};
