//! Laws of the heap's objects and the machine's things that they stand for: of places of any class, and of what is open (Descs,
//! Pipes and Socks), with who owns it. Each is the contract of a function that does nothing.
#![tactic(auto)]

mod opened;
mod places;

pub use opened::{
    a_description_is_dropped_at_its_place, a_new_heap_has_nothing_open,
    descriptions_go_with_their_last_count, nothing_is_left_once_all_is_closed, sockets_have_places,
    what_is_named_is_there, what_is_open_goes_on,
};
pub use places::{
    an_object_changes_in_its_place, an_object_is_made_at_the_end, an_object_leaves_its_place,
    objects_keep_their_places, pages_have_places_as_frames,
};
