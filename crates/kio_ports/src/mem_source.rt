ghost use Rattle.std.specs.Prelude.{◌≡◌, ◌≢◌, ◌↔◌, ◌<◌, ◌≤◌, [], ◌++◌, Some, drop, length, take, IfOk, IsErr, OnErr};
ghost use Rattle.kio_ports.specs.Calls.{first_call, after_call, after_fault, IsNextListed};
ghost use Rattle.kio_ports.specs.Streams.{given_count};

use crate::calls::Calls;
use crate::unread::Unread;
use crate::{Failed, Source};
use std::marker::Model;

/// A source in memory that fails at the calls that it is told, and gives few bytes at a time.
#[derive(Drop)]
pub struct MemSource {
    unread: Unread,
    most: usize,
    calls: Calls,
}

impl Model for MemSource {
    ghost use Rattle.std.specs.Prelude.{◌<◌};
    ghost use Rattle.kio_ports.specs.Streams.{SourceState};

    ghost Value = { SourceState };

    ghost view = { λ it. record { left = it.unread; most = it.most; calls = it.calls } };

    ghost invariant = { λ it. 0 < it.most };
}

impl MemSource {
    /// Gives these bytes, at most `most` of them per call. The calls whose numbers, from 1, are in
    /// `fails` fail.
    pub fn new(bytes: Vec<u8>, fails: Vec<u64>, most: usize) -> Self
        requires { most ≢ 0 }
        ensures left { result.left ≡ bytes.items }
        ensures most { result.most ≡ most }
        ensures calls { result.calls ≡ first_call fails.items }
    {
        MemSource {
            unread: Unread::new(bytes),
            most,
            calls: Calls::new(fails),
        }
    }

    /// How many calls were made, those that failed among them.
    pub fn calls(&self) -> u64
        ensures { result ≡ self.now.calls.made }
    {
        self.calls.made()
    }

    /// How many calls have failed.
    pub fn faults(&self) -> u64
        ensures { result ≡ self.now.calls.faults }
    {
        self.calls.faults()
    }
}

impl Source for MemSource {
    ghost left = { λ source. Some source.left };

    ghost faults = { λ source. source.calls.faults };

    fn take(&mut self, buf: &mut [u8]) -> Result<usize, Failed>
        ensures fails { IsErr result ↔ IsNextListed self.old.calls }
        ensures count { IfOk result (λ k. k ≡ given_count self.old (length buf.old)) }
        ensures end { IfOk result (λ k. k ≡ 0 → 0 < length buf.old → self.old.left ≡ []) }
        ensures buffer { IfOk result (λ k. buf.new ≡ take k self.old.left ++ drop k buf.old) }
        ensures given { IfOk result (λ k. self.old.left ≡ take k buf.new ++ self.new.left) }
        ensures ok { IfOk result (λ k. self.new ≡ record self.old {
          left = drop k self.old.left;
          calls = after_call self.old.calls;
        }) }

        ensures err_buffer { OnErr result (buf.new ≡ buf.old) }
        ensures err { OnErr result (self.new ≡ record self.old {
          calls = after_fault (after_call self.old.calls);
        }) }
        ensures never_falls { self.old.calls.faults ≤ self.new.calls.faults }
    {
        self.calls.begin()?;
        Ok(self.unread.give(self.most, buf))
    }
}
