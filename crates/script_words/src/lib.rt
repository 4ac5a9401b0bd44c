//! The words of a line of a script, and what each says: registers, numbers, constants, names, texts, calls and their
//! operands; and why a line is refused.
#![tactic(auto)]

mod calls;
mod operands;
mod refused;
mod values;
mod words;

pub use calls::{kind_said, shape_of};
pub use operands::{operands_said, two_operands, with_least};
use posix_defs::{Shape, Word};
pub use refused::Refused;
pub use values::{is_word, name, number, only_name, register, value};
pub use words::{cut_at, is_within, line_words};
