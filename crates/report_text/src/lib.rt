//! The lines of a report: of an event, of an entry of a history, and of an end.
//!
//! Each line can be had by itself, or added to a text that grows.
#![tactic(auto)]

mod fields;
mod lines;
mod words;

pub use lines::{
    end_line_sim, end_line_threads, entry_line, event_line, push_end_sim, push_end_threads,
    push_end_word, push_entry_line, push_event, push_events,
};
