ghost use Rattle.std.specs.Prelude.{◌≡◌, ℕ, ◌<◌, ◌≤◌, Option, List, Result, take, length, IfOk, OnOk, OnErr};
ghost use Rattle.std.specs.Io.KnownBytes.{Appends, Keeps};
ghost use Rattle.kio_ports.specs.Faults.{HasRisen};
ghost use Rattle.kio_ports.specs.declared.failed.Failed.{Failed};

use crate::Failed;

/// A stream of bytes to write to.
pub trait Sink {
    // The bytes that it holds, where the sink tells them. One that tells them goes on telling.
    ghost held: { Self → Option (List ℕ) };

    // How many puts failed so far. At the last value of a u64 this count stands still.
    ghost faults: { Self → ℕ };

    // A put that was offered this piece gave this answer.
    ghost put_gives: { Self → List ℕ → Result ℕ Failed → Self → Type 0 };

    /// Appends the first bytes of the piece and answers how many these are.
    /// Where not a single byte of a piece is taken, the put has failed.
    fn put(&mut self, piece: &[u8]) -> Result<usize, Failed>
        ensures offered { put_gives self.old piece.now result self.new }
        ensures fits { IfOk result (λ k. k ≤ length piece.now) }
        ensures some { IfOk result (λ k. 0 < length piece.now → 0 < k) }
        ensures appended { IfOk result (λ k. Appends (held self.old) (held self.new) (take k piece.now)) }
        ensures no_fault { OnOk result (faults self.new ≡ faults self.old) }

        ensures kept { OnErr result (Keeps (held self.old) (held self.new)) }
        ensures fault { OnErr result (HasRisen (faults self.old) (faults self.new)) }
        ensures never_falls { faults self.old ≤ faults self.new };
}
