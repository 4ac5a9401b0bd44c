ghost use Rattle.std.specs.Prelude.{◌≡◌, ℕ, ◌<◌, ◌≤◌, Option, List, take, length, IfOk, OnOk, OnErr};
ghost use Rattle.std.specs.Io.KnownBytes.{Consumes, IsAtEnd, Keeps};
ghost use Rattle.kio_ports.specs.Faults.{HasRisen};

use crate::Failed;

/// A stream of bytes to read from.
pub trait Source {
    // The bytes that are left, where the source tells them. One that tells them goes on telling.
    ghost left: { Self → Option (List ℕ) };

    // How many takes failed so far. At the last value of a u64 this count stands still.
    ghost faults: { Self → ℕ };

    /// Moves the next bytes to the front of the buffer and answers how many these are.
    /// 0 for a buffer that isn't empty is the end of the stream.
    fn take(&mut self, buf: &mut [u8]) -> Result<usize, Failed>
        ensures fits { IfOk result (λ k. k ≤ length buf.new) }
        ensures given { IfOk result (λ k. Consumes (left self.old) (left self.new) (take k buf.new)) }
        ensures end { IfOk result (λ k. k ≡ 0 → 0 < length buf.new → IsAtEnd (left self.new)) }
        ensures no_fault { OnOk result (faults self.new ≡ faults self.old) }

        ensures kept { OnErr result (Keeps (left self.old) (left self.new)) }
        ensures fault { OnErr result (HasRisen (faults self.old) (faults self.new)) }
        ensures never_falls { faults self.old ≤ faults self.new };
}
