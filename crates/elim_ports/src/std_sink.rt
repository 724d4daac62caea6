ghost use Rattle.std.specs.Prelude.{◌≡◌, ◌+◌, ◌-◌, ◌^◌, ◌<◌, ◌≤◌, min, length, IfOk, Err, OnOk, OnErr, IsOkUnless, None};
ghost use Rattle.std.specs.Io.{WritesAtMost};
ghost use Rattle.std.specs.Io.KnownBytes.{WriteAppends};
ghost use Rattle.core_terms.specs.Count.{Rose};

use crate::{PortError, Sink};
use std::io::Write;
use std::marker::Model;

/// A sink over a writer of the standard library, which says nothing of the bytes.
///
/// Each error of the writer is a fault, also one that says that the write was interrupted. The writer is not flushed.
#[derive(Debug, Drop)]
pub struct StdSink<W: Write> {
    writer: W,
    faults: u64,
}

impl<W: Write> Model for StdSink<W> {
    ghost use Rattle.std.specs.Prelude.{◌^◌, ◌<◌};
    ghost use Rattle.elim_ports.specs.Ports.{OverWriter};

    ghost Value = { OverWriter };

    ghost view = { λ s. record { contents = W.contents s.writer; faults = s.faults } };

    ghost invariant = { λ s. s.faults < 2 ^ 64 };
}

impl<W: Write + Drop> StdSink<W> {
    pub fn new(writer: W) -> StdSink<W>
        ensures { result ≡ record { contents = W.contents writer; faults = 0 } }
    {
        StdSink { writer, faults: 0 }
    }
}

impl<W: Write + Drop> Sink for StdSink<W> {
    ghost written = { λ _. None };

    ghost faults = { λ s. s.faults };

    fn write(&mut self, from: &[u8]) -> Result<usize, PortError>
        ensures bound { WritesAtMost result from.now }
        ensures bytes { WriteAppends None None result from.now }
        ensures some { 0 < length from.now → IfOk result (λ n. 0 < n) }
        ensures fault { result ≡ Err PortError.Fault → Rose self.old.faults self.new.faults }
        ensures never_falls { self.old.faults ≤ self.new.faults }

        // The bytes go to the writer; the count is raised at each error of it and at each piece not taken, and no
        // memory is taken.
        ensures given { WriteAppends self.old.contents self.new.contents result from.now }
        ensures ok { OnOk result (self.new.faults ≡ self.old.faults) }
        ensures err { OnErr result (self.new.faults ≡ min (self.old.faults + 1) (2 ^ 64 - 1)) }
        ensures no_memory { IsOkUnless result PortError.Fault }
    {
        match self.writer.write(from) {
            Ok(n) if n > 0 || from.is_empty() => Ok(n),
            _ => {
                self.faults = self.faults.saturating_add(1);
                Err(PortError::Fault)
            }
        }
    }
}
