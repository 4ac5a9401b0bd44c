//! The printer of scripts: the canonical text of each.
#![tactic(auto)]

mod output;
mod printing;
mod printing_words;

pub use printing::canonical_text;
