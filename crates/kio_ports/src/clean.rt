ghost use Rattle.std.specs.Prelude.{◌≡◌, ◌++◌, Some, None, drop, length, min, take, IfOk, IsOkAnd};

use crate::unread::Unread;
use crate::{Failed, Sink, Source};
use std::marker::Model;

/// A source in memory that never fails, and fills each buffer as far as its bytes go.
#[derive(Drop)]
pub struct CleanSource {
    unread: Unread,
}

impl Model for CleanSource {
    ghost use Rattle.std.specs.Prelude.{ℕ, List};

    ghost Value = { List ℕ };

    ghost view = { λ source. source.unread };
}

impl CleanSource {
    /// Gives these bytes.
    pub fn new(bytes: Vec<u8>) -> Self
        ensures { result ≡ bytes.items }
    {
        CleanSource {
            unread: Unread::new(bytes),
        }
    }
}

impl Source for CleanSource {
    ghost left = { λ bytes. Some bytes };

    ghost faults = { λ _. 0 };

    fn take(&mut self, buf: &mut [u8]) -> Result<usize, Failed>
        ensures never_fails { IsOkAnd result (λ k. k ≡ min (length buf.old) (length self.old)) }
        ensures buffer { IfOk result (λ k. buf.new ≡ take k self.old ++ drop k buf.old) }
        ensures rest { IfOk result (λ k. self.new ≡ drop k self.old) }
        ensures given { IfOk result (λ k. self.old ≡ take k buf.new ++ self.new) }
    {
        Ok(self.unread.give(buf.len(), buf))
    }
}

/// A sink that never fails: it takes each piece whole and keeps nothing of it.
#[derive(Clone, Copy, Default)]
pub struct CleanSink;

impl CleanSink {
    /// A sink that has no state.
    pub fn new() -> Self {
        CleanSink
    }
}

impl Sink for CleanSink {
    ghost held = { λ _. None };

    ghost faults = { λ _. 0 };

    ghost put_gives = { λ _ piece answer _. IsOkAnd answer (λ k. k ≡ length piece) };

    fn put(&mut self, piece: &[u8]) -> Result<usize, Failed>
        ensures whole { IsOkAnd result (λ k. k ≡ length piece.now) }
    {
        Ok(piece.len())
    }
}
