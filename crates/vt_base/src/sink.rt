// Where bytes go.
ghost use Rattle.std.specs.Prelude.{◌≡◌, ◌≤◌, ◌<◌, ◌+◌, ℕ, List, Option, length, IsOk, IfOk};
ghost use Rattle.std.specs.Io.{WritesAtMost};
ghost use Rattle.std.specs.Io.KnownBytes.{WriteAppends};
ghost use Rattle.vt_base.specs.Faults.{Counts, HasCause};
ghost use Rattle.vt_base.specs.Output.{WritesAll};

use crate::Failed;

/// Where bytes go.
pub trait Sink {
    /// The bytes that were written, where they are known.
    ghost written: { Self → Option (List ℕ) };

    /// How many writes have failed. A counter that has reached its last value stays there.
    ghost faults: { Self → ℕ };

    /// How many more bytes the sink promises to take without a failure; 0 where it promises nothing.
    ghost room: { Self → ℕ };

    /// Writes a prefix of the bytes and gives its length: at least one, unless there is none to write. A write that
    /// fails takes no byte.
    fn write(&mut self, bytes: &[u8]) -> Result<usize, Failed>
        ensures bound { WritesAtMost result bytes.now }
        ensures some { 0 < length bytes.now → IfOk result (λ n. 0 < n) }
        ensures bytes { WriteAppends (written self.old) (written self.new) result bytes.now }
        ensures counts { Counts (faults self.old) (faults self.new) result }
        ensures room { 0 < length bytes.now → length bytes.now ≤ room self.old → IfOk result (λ n. room self.new + n ≡ room self.old) }
        ensures succeeds_if_promised { 0 < length bytes.now → length bytes.now ≤ room self.old → IsOk result };
}

/// Writes all bytes, in as many writes as it takes. It gives up at the first that fails; the bytes before it are written.
pub fn write_all<K: Sink>(sink: &mut K, bytes: &[u8]) -> Result<(), Failed>
    ensures all { WritesAll (K.written sink.old) (K.written sink.new) result bytes.now }
    ensures counts { Counts (K.faults sink.old) (K.faults sink.new) result }
    ensures cause { HasCause (K.faults sink.old) (K.faults sink.new) result }
    ensures succeeds_if_promised { length bytes.now ≤ K.room sink.old → IsOk result }
    ensures room { length bytes.now ≤ K.room sink.old → K.room sink.new + length bytes.now ≡ K.room sink.old }
{
    let mut rest = bytes;
    while !rest.is_empty() {
        let count = sink.write(rest)?;
        let (_, after) = rest.split_at(count);
        rest = after;
    }
    Ok(())
}
