//! The text that is printed.

ghost use Rattle.std.specs.Prelude.{◌≡◌, ◌∷◌, [], None, Some, ◌<◌, string_bytes, decimal, MatchResult};
ghost use Rattle.std.specs.Fmt.{signed_decimal};
ghost use Rattle.posix_defs.specs.Canonical.{digits_of};
ghost use Rattle.script_print.specs.Printing.{Adds};

use kabi_types::Memory;
use std::alloc::{AllocError, Global};
use std::marker::Model;

/// A text that grows. Where the host has no memory for a part of it, the text isn't whole from then on, which is told at
/// its end: so nothing that adds to it has to ask.
#[derive(Drop)]
pub struct Output {
    text: String,
    is_whole: bool,
}

impl Model for Output {
    ghost use Rattle.std.specs.Prelude.{ℕ, List, Option, string_bytes};
    ghost use Rattle.script_print.specs.Printing.{whole_text};

    ghost Value = { Option (List ℕ) };

    ghost view = { λ o. whole_text o.is_whole (string_bytes o.text) };
}

impl Output {
    /// No text yet.
    pub fn new(alloc: Global) -> Output
        ensures { result ≡ Some [] }
    {
        Output {
            text: String::new(alloc),
            is_whole: true,
        }
    }

    /// Adds a text.
    pub fn push(&mut self, text: &str)
        ensures { Adds self.old text.now self.new }
    {
        if self.text.push_str(text).is_err() {
            self.is_whole = false;
        }
    }

    /// Adds a byte below 128 as the character that it is.
    pub fn push_char(&mut self, byte: u8)
        requires { byte < 128 }
        ensures { Adds self.old (byte ∷ []) self.new }
    {
        if self.text.push(char::from(byte)).is_err() {
            self.is_whole = false;
        }
    }

    /// Adds a number.
    pub fn push_number(&mut self, number: u64)
        ensures { Adds self.old (decimal number) self.new }
    {
        if write!(self.text, "{number}").is_err() {
            self.is_whole = false;
        }
    }

    /// Adds a number with its sign.
    pub fn push_signed(&mut self, number: i64)
        ensures { Adds self.old (signed_decimal number) self.new }
    {
        if write!(self.text, "{number}").is_err() {
            self.is_whole = false;
        }
    }

    /// Adds the escape of a byte by its two hexadecimal digits.
    pub fn push_escape(&mut self, byte: u8)
        ensures { Adds self.old (digits_of byte) self.new }
    {
        let (high, low) = (byte / 16, byte % 16);
        if write!(self.text, "\\x{high:x}{low:x}").is_err() {
            self.is_whole = false;
        }
    }

    /// The text, if it is whole; an error just where it isn't.
    pub fn finish(self) -> Result<String, Memory>
        ensures { MatchResult result (λ text. self ≡ Some (string_bytes text)) (λ _. self ≡ None) }
    {
        if self.is_whole {
            Ok(self.text)
        } else {
            Err(Memory)
        }
    }
}
