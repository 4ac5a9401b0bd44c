ghost use Rattle.std.specs.Prelude.{◌≡◌, take, MatchResult};
ghost use Rattle.std.specs.Io.KnownBytes.{Appends, Keeps};

use crate::{Failed, Sink, Source};
use std::io::{Read, Stdin, Stdout, Write};
use std::marker::Model;

/// Standard input, which tells nobody what bytes come.
pub type StdSource = ReadSource<Stdin>;

/// Standard output, which tells nobody what bytes went out.
pub type StdSink = WriteSink<Stdout>;

/// The bytes of a reader. Every error of a read counts as a fault, an interrupted read too.
#[derive(Drop)]
pub struct ReadSource<R> {
    reader: R,
    faults: u64,
}

impl<R> Model for ReadSource<R> {
    ghost use Rattle.kio_ports.specs.Adapters.{Adapted};

    ghost Value = { Adapted R };

    ghost view = { λ source. record { stream = source.reader; faults = source.faults } };
}

impl<R> ReadSource<R> {
    /// Reads from this reader; no read has failed.
    pub fn new(reader: R) -> Self
        ensures stream { result.stream ≡ reader }
        ensures faults { result.faults ≡ 0 }
    {
        ReadSource { reader, faults: 0 }
    }

    /// How many reads have failed.
    pub fn faults(&self) -> u64
        ensures { result ≡ self.now.faults }
    {
        self.faults
    }
}

impl<R: Read> Source for ReadSource<R> {
    ghost left = { λ source. R.remaining source.stream };

    ghost faults = { λ source. source.faults };

    fn take(&mut self, buf: &mut [u8]) -> Result<usize, Failed> {
        match self.reader.read(buf) {
            Ok(count) => Ok(count),
            Err(_) => {
                self.faults = self.faults.saturating_add(1);
                Err(Failed)
            }
        }
    }
}

/// A writer to put bytes into. Every error of a write counts as a fault, an interrupted write too, and so does a write
/// that takes nothing.
#[derive(Drop)]
pub struct WriteSink<W> {
    writer: W,
    faults: u64,
}

impl<W> Model for WriteSink<W> {
    ghost use Rattle.kio_ports.specs.Adapters.{Adapted};

    ghost Value = { Adapted W };

    ghost view = { λ sink. record { stream = sink.writer; faults = sink.faults } };
}

impl<W> WriteSink<W> {
    /// Writes to this writer; no write has failed.
    pub fn new(writer: W) -> Self
        ensures stream { result.stream ≡ writer }
        ensures faults { result.faults ≡ 0 }
    {
        WriteSink { writer, faults: 0 }
    }

    /// How many writes have failed.
    pub fn faults(&self) -> u64
        ensures { result ≡ self.now.faults }
    {
        self.faults
    }
}

impl<W: Write> Sink for WriteSink<W> {
    ghost held = { λ sink. W.contents sink.stream };

    ghost faults = { λ sink. sink.faults };

    ghost put_gives = { λ old piece answer new. MatchResult answer (λ k. Appends (W.contents old.stream) (W.contents new.stream) (take k piece))
        (λ _. Keeps (W.contents old.stream) (W.contents new.stream)) };

    fn put(&mut self, piece: &[u8]) -> Result<usize, Failed> {
        match self.writer.write(piece) {
            Ok(count) if count > 0 || piece.is_empty() => Ok(count),
            _ => {
                self.faults = self.faults.saturating_add(1);
                Err(Failed)
            }
        }
    }
}
