ghost use Rattle.std.specs.Prelude.{◌≡◌, ℕ, ◌<◌, ◌≤◌, List, length, IfOk, Option, Err};
ghost use Rattle.std.specs.Io.{WritesAtMost};
ghost use Rattle.std.specs.Io.KnownBytes.{WriteAppends};
ghost use Rattle.core_terms.specs.Count.{Rose};

use crate::PortError;

/// Where bytes go.
pub trait Sink {
    // The bytes that were written, if the sink shows them.
    ghost written: { Self → Option (List ℕ) };

    // How many writes failed; it stays at its greatest value once it has reached it.
    ghost faults: { Self → ℕ };

    /// Writes bytes from the front of `from`, and answers how many. To take nothing of a piece that is not empty is a
    /// fault.
    fn write(&mut self, from: &[u8]) -> Result<usize, PortError>
        ensures bound { WritesAtMost result from.now }
        ensures bytes { WriteAppends (written self.old) (written self.new) result from.now }
        ensures some { 0 < length from.now → IfOk result (λ n. 0 < n) }
        ensures fault { result ≡ Err PortError.Fault → Rose (faults self.old) (faults self.new) }
        ensures never_falls { faults self.old ≤ faults self.new };
}
