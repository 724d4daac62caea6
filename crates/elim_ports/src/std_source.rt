ghost use Rattle.std.specs.Prelude.{◌≡◌, ◌+◌, ◌-◌, ◌^◌, ◌≤◌, min, Err, OnOk, OnErr, IsOkUnless, None};
ghost use Rattle.std.specs.Io.{ReadsAtMost};
ghost use Rattle.std.specs.Io.KnownBytes.{ReadConsumes};
ghost use Rattle.core_terms.specs.Count.{Rose};
ghost use Rattle.elim_ports.specs.Reading.{FillsFront};

use crate::copying::{PIECE, copy_front};
use crate::{PortError, Source};
use std::io::Read;
use std::marker::Model;

/// A source over a reader of the standard library, which says nothing of the bytes.
///
/// Each error of the reader is a fault, also one that says that the read was interrupted.
#[derive(Debug, Drop)]
pub struct StdSource<R: Read> {
    reader: R,
    faults: u64,
}

impl<R: Read> Model for StdSource<R> {
    ghost use Rattle.std.specs.Prelude.{◌^◌, ◌<◌};
    ghost use Rattle.elim_ports.specs.Ports.{OverReader};

    ghost Value = { OverReader };

    ghost view = { λ s. record { remaining = R.remaining s.reader; faults = s.faults } };

    ghost invariant = { λ s. s.faults < 2 ^ 64 };
}

impl<R: Read + Drop> StdSource<R> {
    pub fn new(reader: R) -> StdSource<R>
        ensures { result ≡ record { remaining = R.remaining reader; faults = 0 } }
    {
        StdSource { reader, faults: 0 }
    }
}

impl<R: Read + Drop> Source for StdSource<R> {
    ghost left = { λ _. None };

    ghost faults = { λ s. s.faults };

    fn read(&mut self, into: &mut [u8]) -> Result<usize, PortError>
        ensures bound { ReadsAtMost result into.new }
        ensures bytes { ReadConsumes None None result into.new }
        ensures rest { FillsFront result into.old into.new }
        ensures fault { result ≡ Err PortError.Fault → Rose self.old.faults self.new.faults }
        ensures never_falls { self.old.faults ≤ self.new.faults }

        // The bytes are the reader's; the count is raised at each error of it, and no memory is taken.
        ensures given { ReadConsumes self.old.remaining self.new.remaining result into.new }
        ensures ok { OnOk result (self.new.faults ≡ self.old.faults) }
        ensures err { OnErr result (self.new.faults ≡ min (self.old.faults + 1) (2 ^ 64 - 1)) }
        ensures no_memory { IsOkUnless result PortError.Fault }
    {
        // The reader may leave anything in its slice where it fails.
        let mut piece = [0u8; PIECE];
        let most = into.len().min(PIECE);
        match self.reader.read(&mut piece[..most]) {
            Ok(n) => {
                copy_front(&piece, into, n);
                Ok(n)
            }
            Err(_) => {
                self.faults = self.faults.saturating_add(1);
                Err(PortError::Fault)
            }
        }
    }
}
