ghost use Rattle.std.specs.Prelude.{◌≡◌, ℕ, ◌<◌, ◌≤◌, true, false, length, take, OnOk, OnErr};
ghost use Rattle.std.specs.Io.KnownBytes.{Appends};
ghost use Rattle.kio_ports.specs.Faults.{HasRisen};
ghost use Rattle.kio_ports.specs.Offers.{PutsAll};

use kio_ports::{Failed, Sink};

/// Puts a text whole. Each put offers all that is left of it. Where the sink fails, it holds a proper beginning of the
/// text.
pub fn write_text<K: Sink>(sink: &mut K, text: &[u8]) -> Result<(), Failed>
    ensures written { OnOk result (Appends (K.held sink.old) (K.held sink.new) text.now) }
    ensures no_fault { OnOk result (K.faults sink.new ≡ K.faults sink.old) }
    ensures begun { OnErr result ((n : ℕ) × (n < length text.now) × Appends (K.held sink.old) (K.held sink.new) (take n text.now)) }
    ensures fault { OnErr result (HasRisen (K.faults sink.old) (K.faults sink.new)) }
    ensures offered { OnOk result (PutsAll K.put_gives sink.old text.now true sink.new) }
    ensures offered_part { OnErr result (PutsAll K.put_gives sink.old text.now false sink.new) }
    ensures never_falls { K.faults sink.old ≤ K.faults sink.new }
{
    let mut left = text;
    while !left.is_empty() {
        let count = sink.put(left)?;
        left = &left[count..];
    }
    Ok(())
}
