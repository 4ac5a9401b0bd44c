ghost use Rattle.std.specs.Prelude.{◌≡◌, ◌<◌, ◌≤◌, ◌==◌, ◌||◌, nat_lt, length, OnOk, OnErr, if◌then◌else◌};
ghost use Rattle.plain_bytes.specs.Moving.{meant};
ghost use Rattle.plain_bytes.specs.Unread.{taken_by};
ghost use Rattle.plain_pipes.specs.Held.{IsHeld, becomes, queue_of};
ghost use Rattle.posix_defs.specs.Calls.OnFiles.{fifo_fault, fifo_waits, most_opens};
ghost use Rattle.posix_defs.specs.Pipe.{after_read, after_write, ends_of, fifo_of, free_in, new_pipe, opens_of, pipe_read, pipe_write, polled_to_read, polled_to_write, unopened, with_end, without_reader, without_writer};

use kabi_types::{Errno, Memory};
use plain_bytes::{Moving, POLLERR, POLLHUP, POLLIN, POLLOUT, Queue, event_if, has_flag};
use std::alloc::Global;
use std::marker::Model;

/// How many bytes a write may have to go whole or not at all (PIPE_BUF).
const WHOLE: u32 = 512;

const O_WRONLY: u64 = 1;

const O_RDWR: u64 = 2;

const O_NONBLOCK: u64 = 2048;

/// A pipe that is there, or that of a FIFO that nobody has open. Contracts see the pipe of the definitions, and the front of
/// its queue.
#[derive(Drop)]
pub struct Pipe {
    queue: Queue,
    readers: u64,
    writers: u64,
    // 0 of a pipe that is no FIFO's.
    node: u32,
    read_opens: u32,
    write_opens: u32,
}

impl Model for Pipe {
    ghost use Rattle.plain_pipes.specs.Held.{Held, IsHeld};

    ghost Value = { Held };

    ghost use Rattle.plain_pipes.specs.Inside.{held_in};

    ghost view = { held_in };

    ghost invariant = { λ pipe. IsHeld (held_in pipe) };
}

impl Pipe {
    /// What `pipe` makes: a pipe with both ends and without a byte.
    pub fn new(alloc: Global) -> Pipe
        ensures { result ≡ record { pipe = new_pipe; front = 0 } }
    {
        Pipe {
            queue: Queue::new(alloc),
            readers: 1,
            writers: 1,
            node: 0,
            read_opens: 0,
            write_opens: 0,
        }
    }

    /// The pipe of a FIFO that nobody has open: it has no end.
    pub fn unopened(alloc: Global, number: u32) -> Pipe
        ensures { result ≡ record { pipe = unopened number; front = 0 } }
    {
        Pipe {
            queue: Queue::new(alloc),
            readers: 0,
            writers: 0,
            node: number,
            read_opens: 0,
            write_opens: 0,
        }
    }

    /// The bytes that are unread, the first one first.
    pub fn bytes(&self) -> &[u8]
        ensures { result.now ≡ self.now.pipe.bytes }
    {
        self.queue.bytes()
    }

    /// How many chunks they take.
    pub fn chunks(&self) -> u64
        ensures value { result ≡ taken_by (queue_of self.now) }
        ensures few { result ≤ 9 }
        ensures held { IsHeld self.now }
    {
        self.queue.chunks()
    }

    /// The node of the FIFO whose pipe it is.
    pub fn fifo(&self) -> Option<u32>
        ensures { result ≡ fifo_of self.now.pipe }
    {
        if self.node == 0 {
            None
        } else {
            Some(self.node)
        }
    }

    /// Whether its node has this number.
    pub fn is_of(&self, number: u32) -> bool
        ensures { result ≡ (self.now.pipe.node == number) }
    {
        self.node == number
    }

    /// How many descriptions have an end of one side.
    pub fn ends(&self, writing: bool) -> u64
        ensures { result ≡ ends_of self.now.pipe writing }
    {
        if writing { self.writers } else { self.readers }
    }

    /// How often one side of a FIFO was opened.
    pub fn opens(&self, writing: bool) -> u32
        ensures { result ≡ opens_of self.now.pipe writing }
    {
        if writing {
            self.write_opens
        } else {
            self.read_opens
        }
    }

    /// Whether a description has one of its ends.
    pub fn has_end(&self) -> bool
        ensures { result ≡ (nat_lt 0 self.now.pipe.readers || nat_lt 0 self.now.pipe.writers) }
    {
        self.readers > 0 || self.writers > 0
    }

    /// How many bytes more it takes.
    pub fn free(&self) -> u32
        ensures { result ≡ free_in self.now.pipe }
    {
        self.queue.free()
    }

    /// What a read of at most so many bytes comes to.
    pub fn reads(&self, nonblock: bool, count: u32) -> Moving
        ensures { meant result ≡ pipe_read self.now.pipe nonblock count }
    {
        let unread = self.queue.len();
        if unread > 0 {
            Moving::Moves(count.min(unread))
        } else if self.writers == 0 {
            Moving::Moves(0)
        } else {
            Moving::not_now(nonblock)
        }
    }

    /// What a write of so many bytes comes to, of which some are left.
    pub fn writes(&self, nonblock: bool, count: u32, left: u32) -> Moving
        ensures { meant result ≡ pipe_write self.now.pipe nonblock count left }
    {
        if self.readers == 0 {
            return Moving::Fails(Errno::EPIPE);
        }
        let free = self.queue.free();
        if count <= WHOLE {
            if count <= free {
                Moving::Moves(left)
            } else {
                Moving::not_now(nonblock)
            }
        } else if left <= free {
            Moving::Moves(left)
        } else if free == 0 {
            Moving::not_now(nonblock)
        } else {
            Moving::Moves(free)
        }
    }

    /// What `poll` tells of the write end, or of the read end.
    pub fn polled(&self, writing: bool, events: i64) -> u8
        ensures { result ≡ (if writing then polled_to_write self.now.pipe events else polled_to_read self.now.pipe events) }
    {
        if !writing {
            let ended = if self.writers == 0 { POLLHUP } else { 0 };
            return event_if(POLLIN, events, self.queue.len() > 0) + ended;
        }
        if self.readers == 0 {
            POLLERR
        } else {
            event_if(POLLOUT, events, self.queue.free() >= WHOLE)
        }
    }

    /// Why a FIFO with this pipe isn't opened with these flags.
    pub fn fault(&self, flags: i64) -> Option<Errno>
        ensures { result ≡ fifo_fault self.now.pipe flags }
    {
        if has_flag(flags, O_RDWR) {
            return Some(Errno::EINVAL);
        }
        let writing = has_flag(flags, O_WRONLY);
        if writing && has_flag(flags, O_NONBLOCK) && self.readers == 0 {
            return Some(Errno::ENXIO);
        }
        if self.opens(writing) == u32::MAX {
            Some(Errno::EAGAIN)
        } else {
            None
        }
    }

    /// Whether an open of a FIFO with this pipe waits for the other side.
    pub fn waits(&self, flags: i64) -> bool
        ensures { result ≡ fifo_waits self.now.pipe flags }
    {
        let writing = has_flag(flags, O_RDWR) || has_flag(flags, O_WRONLY);
        !has_flag(flags, O_NONBLOCK) && self.ends(!writing) == 0
    }

    /// Its first bytes were read.
    pub fn drop_first(&mut self, count: u32)
        ensures read { self.new ≡ becomes self.old (after_read self.old.pipe count) }
        ensures held { IsHeld self.new }
    {
        self.queue.drop_first(count);
    }

    /// The first so many of these bytes are written. Where the host has no memory nothing changes.
    pub fn put(&mut self, bytes: &[u8], count: u32) -> Result<(), Memory>
        requires there { count ≤ length bytes.now }
        requires fit { count ≤ free_in self.old.pipe }
        ensures written { OnOk result (self.new ≡ becomes self.old (after_write self.old.pipe bytes.now count)) }
        ensures kept { OnErr result (self.new ≡ self.old) }
        ensures held { IsHeld self.new }
    {
        self.queue.put(&bytes[..count as usize])
    }

    /// One side is opened once more, and has one end more.
    pub fn open_end(&mut self, writing: bool)
        requires { opens_of self.old.pipe writing < most_opens }
        ensures opened { self.new ≡ becomes self.old (with_end self.old.pipe writing) }
        ensures held { IsHeld self.new }
    {
        if writing {
            self.writers += 1;
            self.write_opens += 1;
        } else {
            self.readers += 1;
            self.read_opens += 1;
        }
    }

    /// One end is closed. With the last reader the bytes go.
    pub fn close_end(&mut self, writing: bool)
        ensures closed { self.new ≡ becomes self.old (if writing then without_writer self.old.pipe else without_reader self.old.pipe) }
        ensures held { IsHeld self.new }
    {
        if writing {
            self.writers = self.writers.saturating_sub(1);
            return;
        }
        if self.readers == 1 {
            self.queue.clear();
        }
        self.readers = self.readers.saturating_sub(1);
    }
}
