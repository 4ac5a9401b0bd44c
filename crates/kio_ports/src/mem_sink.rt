ghost use Rattle.std.specs.Prelude.{◌≡◌, ◌↔◌, ◌<◌, ◌≤◌, [], ◌++◌, Some, length, take, IfOk, IsErr, OnErr};
ghost use Rattle.kio_ports.specs.Calls.{first_call, after_call, after_fault, next_number};
ghost use Rattle.kio_ports.specs.Streams.{taken_count, PutFails};

use crate::calls::Calls;
use crate::{Failed, Sink};
use kabi_types::Memory;
use std::alloc::Global;
use std::marker::Model;

/// A sink in memory that fails at the calls that it is told, and takes few bytes at a time.
#[derive(Drop)]
pub struct MemSink {
    bytes: Vec<u8>,
    room: usize,
    most: usize,
    calls: Calls,
}

impl Model for MemSink {
    ghost use Rattle.std.specs.Prelude.{◌≤◌, vec_len, vec_capacity};
    ghost use Rattle.kio_ports.specs.Streams.{SinkState};

    ghost Value = { SinkState };

    ghost view = { λ it. record {
      held = it.bytes.items;
      room = it.room;
      most = it.most;
      calls = it.calls;
    } };

    ghost invariant = { λ it. (vec_len it.bytes ≤ it.room) × (it.room ≤ vec_capacity it.bytes) };
}

impl MemSink {
    /// Reserves `room` bytes, and takes at most `most` of them per call. The calls whose numbers,
    /// from 1, are in `fails` fail, and so does one that takes nothing of a piece that isn't empty.
    pub fn new(alloc: Global, room: usize, fails: Vec<u64>, most: usize) -> Result<Self, Memory>
        ensures held { IfOk result (λ sink. sink.held ≡ []) }
        ensures room { IfOk result (λ sink. sink.room ≡ room) }
        ensures most { IfOk result (λ sink. sink.most ≡ most) }
        ensures calls { IfOk result (λ sink. sink.calls ≡ first_call fails.items) }
    {
        let bytes = Vec::with_capacity(alloc, room)?;
        Ok(MemSink {
            bytes,
            room,
            most,
            calls: Calls::new(fails),
        })
    }

    /// What the sink holds, in the order in which it was put.
    pub fn bytes(&self) -> &[u8]
        ensures { result.now ≡ self.now.held }
    {
        self.bytes.as_slice()
    }

    /// How many calls were made, those that failed among them.
    pub fn calls(&self) -> u64
        ensures { result ≡ self.now.calls.made }
    {
        self.calls.made()
    }

    /// How many calls have failed.
    pub fn faults(&self) -> u64
        ensures { result ≡ self.now.calls.faults }
    {
        self.calls.faults()
    }
}

impl Sink for MemSink {
    ghost held = { λ sink. Some sink.held };

    ghost faults = { λ sink. sink.calls.faults };

    ghost put_gives = { λ old piece answer new. (new.calls.made ≡ next_number old.calls.made)
        × IfOk answer (λ k. new.held ≡ old.held ++ take k piece) };

    fn put(&mut self, piece: &[u8]) -> Result<usize, Failed>
        ensures fails { IsErr result ↔ PutFails self.old (length piece.now) }
        ensures count { IfOk result (λ k. k ≡ taken_count self.old (length piece.now)) }
        ensures some { IfOk result (λ k. 0 < length piece.now → 0 < k) }
        ensures ok { IfOk result (λ k. self.new ≡ record self.old {
          held = self.old.held ++ take k piece.now;
          calls = after_call self.old.calls;
        }) }

        ensures err { OnErr result (self.new ≡ record self.old {
          calls = after_fault (after_call self.old.calls);
        }) }
        ensures never_falls { self.old.calls.faults ≤ self.new.calls.faults }
    {
        self.calls.begin()?;
        let room_left = self.room - self.bytes.len();
        let count = self.most.min(piece.len()).min(room_left);
        if count == 0 && !piece.is_empty() {
            return Err(self.calls.fault());
        }
        self.bytes.extend_from_slice(&piece[..count]).unwrap();
        Ok(count)
    }
}
