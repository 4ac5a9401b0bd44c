ghost use Rattle.std.specs.Prelude.{◌≡◌, ◌++◌, drop, length, min, take};

use std::marker::Model;

/// Bytes in memory of which the first were given away; contracts see those that are left.
#[derive(Drop)]
pub struct Unread {
    bytes: Vec<u8>,
    given: usize,
}

impl Model for Unread {
    ghost use Rattle.std.specs.Prelude.{ℕ, ◌≤◌, List, drop, vec_len};

    ghost Value = { List ℕ };

    ghost view = { λ unread. drop unread.given unread.bytes.items };

    ghost invariant = { λ unread. unread.given ≤ vec_len unread.bytes };
}

impl Unread {
    pub fn new(bytes: Vec<u8>) -> Self
        ensures { result ≡ bytes.items }
    {
        Unread { bytes, given: 0 }
    }

    /// Moves at most `most` bytes to the front of the buffer, until it is full or none is left, and
    /// answers how many.
    pub fn give(&mut self, most: usize, buf: &mut [u8]) -> usize
        ensures count { result ≡ min most (min (length buf.old) (length self.old)) }
        ensures buffer { buf.new ≡ take result self.old ++ drop result buf.old }
        ensures rest { self.new ≡ drop result self.old }
        ensures moved { self.old ≡ take result buf.new ++ self.new }
    {
        let left = &self.bytes[self.given..];
        let count = most.min(buf.len()).min(left.len());
        buf[..count].copy_from_slice(&left[..count]);
        self.given += count;
        count
    }
}
