//! The language of scripts: reading a text, the fault of a text that is no script, printing a script, and the laws of both.
#![tactic(auto)]

mod laws;
mod scripts;

pub use laws::{
    a_text_reads_in_one_way, canonical_text_reads_as_its_script, every_text_reads_or_has_a_fault,
    printing_again_is_the_same, what_reads_is_valid, worked_texts_read,
};
pub use script_read::ParseError;
pub use scripts::{parse, print};
