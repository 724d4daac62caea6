ghost use Rattle.std.specs.Prelude.{◌≡◌, ℕ, ◌≤◌, List, Option, Err};
ghost use Rattle.std.specs.Io.{ReadsAtMost};
ghost use Rattle.std.specs.Io.KnownBytes.{ReadConsumes};
ghost use Rattle.core_terms.specs.Count.{Rose};
ghost use Rattle.elim_ports.specs.Reading.{FillsFront};

use crate::PortError;

/// Where bytes come from.
pub trait Source {
    // The bytes still to come, if the source shows them.
    ghost left: { Self → Option (List ℕ) };

    // How many reads failed; it stays at its greatest value once it has reached it.
    ghost faults: { Self → ℕ };

    /// Moves bytes into the front of `into`, and answers how many. For a slice that is not empty, 0 is the end.
    fn read(&mut self, into: &mut [u8]) -> Result<usize, PortError>
        ensures bound { ReadsAtMost result into.new }
        ensures bytes { ReadConsumes (left self.old) (left self.new) result into.new }
        ensures rest { FillsFront result into.old into.new }
        ensures fault { result ≡ Err PortError.Fault → Rose (faults self.old) (faults self.new) }
        ensures never_falls { faults self.old ≤ faults self.new };
}
