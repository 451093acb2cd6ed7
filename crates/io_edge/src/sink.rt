ghost use Rattle.std.specs.Prelude.{◌≡◌, ◌≤◌, ◌<◌, ℕ, List, [], Option, length, take, IfOk, OnOk, OnErr, MatchResult};
ghost use Rattle.io_edge.specs.Rose.{Rose};
ghost use Rattle.io_edge.specs.Gained.{Gained, GainedFront};

use crate::fault::{Failed, WriteFault};

/// Where bytes are written, one after the other.
pub trait Sink {
    // The bytes that were written so far, where the sink tells them.
    ghost written: { Self → Option (List ℕ) };

    // A number that never falls, and which rises when a write fails.
    ghost faults: { Self → ℕ };

    /// Takes some of the bytes from the front, at least one where there is one, and says how many.
    fn write(&mut self, bytes: &[u8]) -> Result<usize, Failed>
        ensures within { IfOk result (λ n. n ≤ length bytes.now) }
        ensures some { IfOk result (λ n. 0 < length bytes.now → 0 < n) }
        ensures gained { MatchResult result (λ n. Gained (written self.old) (written self.new) (take n bytes.now)) (λ _. written self.new ≡ written self.old) }
        ensures kept { faults self.old ≤ faults self.new }
        ensures failed { OnErr result (Rose (faults self.old) (faults self.new)) };
}

/// Writes all of the bytes, or a part from their front where a write fails.
pub fn write_all<K: Sink>(sink: &mut K, bytes: &[u8]) -> Result<(), WriteFault>
    ensures all { OnOk result (Gained (K.written sink.old) (K.written sink.new) bytes.now) }
    ensures front { OnErr result (GainedFront (K.written sink.old) (K.written sink.new) bytes.now) }
    ensures kept { K.faults sink.old ≤ K.faults sink.new }
    ensures failed { OnErr result (Rose (K.faults sink.old) (K.faults sink.new)) }
{
    let mut done = 0;
    while done < bytes.len() {
        match sink.write(&bytes[done..]) {
            Ok(taken) => done += taken,
            Err(Failed) => return Err(WriteFault),
        }
    }
    Ok(())
}
