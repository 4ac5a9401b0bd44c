ghost use Rattle.std.specs.Prelude.{◌≡◌, ℕ, ◌+◌, ◌^◌, ◌<◌, ◌≤◌, ◌++◌, [], ◌∷◌, length, slice_index_or, slice_set, None, Some, is_some, IfOk, OnOk, OnErr};
ghost use Rattle.std.specs.List.{count_by};
ghost use Rattle.std.specs.Option.{option_copied, option_map};
ghost use Rattle.plain_pipes.specs.Held.{FrontsFollow, HasPipe, fifo_at_in, fifo_in, first_of_fifo, fronts_in, lengths_in, opened_in, pipe_in, pipe_of, pipes_in, place_in};
ghost use Rattle.posix_defs.specs.Account.{chunks_taken};
ghost use Rattle.posix_defs.specs.Calls.OnFiles.{fifo_fault, fifo_waits, most_opens};
ghost use Rattle.posix_defs.specs.Files.State.{Files, pipe_at, pipe_there, with_pipe};
ghost use Rattle.posix_defs.specs.Pipe.{after_close, after_read, free_in, new_pipe, opens_of, unopened, with_end};
ghost use Rattle.posix_defs.specs.Calls.Writing.{put_in_pipe};

use crate::pipe::Pipe;
use kabi_types::{Errno, Memory};
use kept_places::{Kept, Places};
use std::alloc::Global;
use std::marker::Model;

/// All pipes ever made, by their places, each with the front of its queue. A clause speaks of files with just these pipes.
#[derive(Drop)]
pub struct Pipes {
    places: Places<Pipe>,
    // The chunks of all of them together.
    chunks: u64,
}

impl Model for Pipes {
    ghost use Rattle.std.specs.Prelude.{List, Option};
    ghost use Rattle.plain_bytes.specs.Many.{AreKept};
    ghost use Rattle.plain_pipes.specs.Held.{Held, queue_of};

    ghost Value = { List (Option Held) };

    ghost view = { λ pipes. pipes.places };

    ghost invariant = { λ pipes. AreKept queue_of pipes.places pipes.chunks };
}

impl Pipes {
    /// No pipe was made yet.
    pub fn new(alloc: Global) -> Pipes
        ensures { result ≡ [] }
    {
        Pipes {
            places: Places::new(alloc),
            chunks: 0,
        }
    }

    /// How many were made, those that have gone among them.
    pub fn made(&self) -> u32
        ensures { result ≡ length (pipes_in self.now) }
    {
        self.places.made()
    }

    /// How many there are.
    pub fn count(&self) -> u32
        ensures { result ≡ count_by is_some (pipes_in self.now) }
    {
        self.places.there().len() as u32
    }

    /// How many chunks the bytes of all take.
    pub fn chunks(&self) -> u64
        ensures { result ≡ chunks_taken (lengths_in self.now) (fronts_in self.now) }
    {
        self.chunks
    }

    /// The pipe of a place; None where it has gone, and where none was made.
    pub fn find(&self, place: u32) -> Option<&Pipe>
        ensures { option_map pipe_of (option_copied result) ≡ slice_index_or (pipes_in self.now) place None }
    {
        self.places.get(place)
    }

    /// The pipe of a place.
    pub fn at(&self, place: u32) -> &Pipe
        requires { HasPipe self.now place }
        ensures pipe { (files : Files) → files.pipes ≡ pipes_in self.now → result.now.pipe ≡ pipe_at files place }
        ensures there { (files : Files) → files.pipes ≡ pipes_in self.now → pipe_there files place ≡ Some result.now.pipe }
        ensures value { result.now.pipe ≡ pipe_in self.now place }
    {
        match self.places.get(place) {
            Some(pipe) => pipe,
            None => unreachable!(),
        }
    }

    /// The place of the pipe of a FIFO; None where nobody has it open.
    pub fn fifo_at(&self, number: u32) -> Option<u32>
        ensures { result ≡ fifo_at_in self.now number }
    {
        first_of_fifo(self.places.there(), number)
    }

    /// How often one side of a FIFO was opened so far.
    pub fn fifo_opens(&self, number: u32, writing: bool) -> u32
        ensures { result ≡ opens_of (fifo_in self.now number) writing }
    {
        match self.fifo_at(number) {
            Some(place) => self.at(place).opens(writing),
            None => 0,
        }
    }

    /// Why a FIFO isn't opened with these flags.
    pub fn fifo_fault(&self, alloc: Global, number: u32, flags: i64) -> Option<Errno>
        ensures { result ≡ fifo_fault (fifo_in self.now number) flags }
    {
        match self.fifo_at(number) {
            Some(place) => self.at(place).fault(flags),
            None => Pipe::unopened(alloc, number).fault(flags),
        }
    }

    /// Whether an open of a FIFO waits for the other side.
    pub fn fifo_waits(&self, alloc: Global, number: u32, flags: i64) -> bool
        ensures { result ≡ fifo_waits (fifo_in self.now number) flags }
    {
        match self.fifo_at(number) {
            Some(place) => self.at(place).waits(flags),
            None => Pipe::unopened(alloc, number).waits(flags),
        }
    }

    /// Makes a pipe with both ends, and tells its place. Where the host has no memory none is made.
    pub fn make(&mut self, alloc: Global) -> Result<u32, Memory>
        requires { length (pipes_in self.old) + 1 < 2 ^ 32 }
        ensures place { IfOk result (λ place. place ≡ length (pipes_in self.old)) }
        ensures pipes { OnOk result (pipes_in self.new ≡ pipes_in self.old ++ Some new_pipe ∷ []) }
        ensures fronts { OnOk result (FrontsFollow self.old self.new) }
        ensures kept { OnErr result (self.new ≡ self.old) }
    {
        self.places.push(Pipe::new(alloc))
    }

    /// Opens one side of a FIFO once more, by the pipe that it has or gets, and tells its place. Where the host has no memory
    /// nothing changes.
    pub fn open_end(&mut self, alloc: Global, number: u32, writing: bool) -> Result<u32, Memory>
        requires room { length (pipes_in self.old) + 1 < 2 ^ 32 }
        requires few { opens_of (fifo_in self.old number) writing < most_opens }
        ensures place { IfOk result (λ place. place ≡ place_in self.old (fifo_at_in self.old number)) }
        ensures pipes { OnOk result (pipes_in self.new ≡ opened_in self.old number writing (fifo_at_in self.old number)) }
        ensures fronts { OnOk result (FrontsFollow self.old self.new) }
        ensures kept { OnErr result (self.new ≡ self.old) }
    {
        match self.fifo_at(number) {
            Some(place) => {
                self.open_more(place, writing);
                Ok(place)
            }
            None => self.open_first(alloc, number, writing),
        }
    }

    // One side of the pipe of a place is opened once more.
    fn open_more(&mut self, place: u32, writing: bool)
        requires there { HasPipe self.old place }
        requires few { opens_of (pipe_in self.old place) writing < most_opens }
        ensures pipes { pipes_in self.new ≡ slice_set (pipes_in self.old) place (Some (with_end (pipe_in self.old place) writing)) }
        ensures fronts { FrontsFollow self.old self.new }
    {
        let pipe = self.places.get_mut(place);
        let before = pipe.chunks();
        pipe.open_end(writing);
        self.chunks = self.chunks - before + pipe.chunks();
    }

    // One side of a FIFO that nobody has open is opened.
    fn open_first(&mut self, alloc: Global, number: u32, writing: bool) -> Result<u32, Memory>
        requires { length (pipes_in self.old) + 1 < 2 ^ 32 }
        ensures place { IfOk result (λ place. place ≡ length (pipes_in self.old)) }
        ensures pipes { OnOk result (pipes_in self.new ≡ pipes_in self.old ++ Some (with_end (unopened number) writing) ∷ []) }
        ensures fronts { OnOk result (FrontsFollow self.old self.new) }
        ensures kept { OnErr result (self.new ≡ self.old) }
    {
        let mut pipe = Pipe::unopened(alloc, number);
        pipe.open_end(writing);
        self.places.push(pipe)
    }

    /// The first bytes of a pipe were read.
    pub fn drop_first(&mut self, place: u32, count: u32)
        requires { HasPipe self.old place }
        ensures pipes { (files : Files) → files.pipes ≡ pipes_in self.old
            → pipes_in self.new ≡ (with_pipe files place (Some (after_read (pipe_at files place) count))).pipes }
        ensures fronts { FrontsFollow self.old self.new }
    {
        let pipe = self.places.get_mut(place);
        let before = pipe.chunks();
        pipe.drop_first(count);
        self.chunks = self.chunks - before + pipe.chunks();
    }

    /// The first so many of these bytes are written to a pipe. Where the host has no memory nothing changes.
    pub fn put(&mut self, place: u32, bytes: &[u8], count: u32) -> Result<(), Memory>
        requires there { HasPipe self.old place }
        requires some { count ≤ length bytes.now }
        requires fit { count ≤ free_in (pipe_in self.old place) }
        ensures pipes { OnOk result ((files : Files) → files.pipes ≡ pipes_in self.old
            → pipes_in self.new ≡ (put_in_pipe files place bytes.now count).pipes) }
        ensures fronts { OnOk result (FrontsFollow self.old self.new) }
        ensures kept { OnErr result (self.new ≡ self.old) }
    {
        let pipe = self.places.get_mut(place);
        let before = pipe.chunks();
        pipe.put(bytes, count)?;
        self.chunks = self.chunks - before + pipe.chunks();
        Ok(())
    }

    /// Closes one end of a pipe, which goes with its last end.
    pub fn close(&mut self, place: u32, writing: bool)
        requires { HasPipe self.old place }
        ensures pipes { (files : Files) → files.pipes ≡ pipes_in self.old
            → pipes_in self.new ≡ (with_pipe files place (after_close (pipe_at files place) writing)).pipes }
        ensures fronts { FrontsFollow self.old self.new }
    {
        let pipe = self.places.get_mut(place);
        let before = pipe.chunks();
        pipe.close_end(writing);
        if pipe.has_end() {
            self.chunks = self.chunks - before + pipe.chunks();
            return;
        }
        self.chunks -= before;
        self.places.remove(place);
    }
}

// The place of the first of these pipes that is of this FIFO.
fn first_of_fifo(there: &[Kept<Pipe>], number: u32) -> Option<u32>
    ensures { result ≡ first_of_fifo number there.now }
{
    for kept in there {
        if kept.what.is_of(number) {
            return Some(kept.place);
        }
    }
    None
}
