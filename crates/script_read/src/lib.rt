//! The reader of scripts: what a line says, and how the reader goes on from line to line to the end of a text.
#![tactic(auto)]

mod drafts;
mod parse_error;
mod places;
mod reader;
mod settings;
mod state;
mod statements;

pub use parse_error::ParseError;
use posix_defs::{AtTop, InProgram, Setting, Spoken, Stated, Word};
pub use reader::read;
use script_words::Refused;
pub use statements::said_in_program;
