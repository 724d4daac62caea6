ghost use Rattle.std.specs.Prelude.{◌≡◌, ◌-◌, ◌^◌, ◌<◌, ◌≤◌, min, length, if◌then◌else◌, Ok, Err, Some, None};
ghost use Rattle.std.specs.Io.{ReadsAtMost};
ghost use Rattle.std.specs.Io.KnownBytes.{ReadConsumes};
ghost use Rattle.core_terms.specs.Count.{Rose};
ghost use Rattle.elim_ports.specs.Calls.{no_calls, fails_next, after_call, piece_len};
ghost use Rattle.elim_ports.specs.Reading.{FillsFront};

use crate::call_plan::CallPlan;
use crate::copying::copy_front;
use crate::{PortError, Source};
use core_terms::Items;
use std::marker::Model;

/// A source over bytes in memory.
///
/// Its reads are numbered from 1, and those in `fails` fail; after number `u32::MAX` none does.
#[derive(Debug, Drop)]
pub struct MemorySource {
    bytes: Items<u8>,
    taken: usize,
    calls: CallPlan,
}

impl Model for MemorySource {
    ghost use Rattle.std.specs.Prelude.{◌≤◌, length, drop};
    ghost use Rattle.elim_ports.specs.Ports.{Input};

    ghost Value = { Input };

    ghost view = { λ s. record { left = drop s.taken s.bytes; calls = s.calls } };

    ghost invariant = { λ s. s.taken ≤ length s.bytes };
}

impl MemorySource {
    /// A read that does not fail gives all that fits.
    pub fn new(bytes: Items<u8>, fails: Items<u32>) -> MemorySource
        ensures { result ≡ record { left = bytes; calls = no_calls None fails } }
    {
        MemorySource {
            bytes,
            taken: 0,
            calls: CallPlan::new(None, fails),
        }
    }

    /// A read that does not fail gives at most `step` bytes.
    pub fn stepped(bytes: Items<u8>, step: u32, fails: Items<u32>) -> MemorySource
        requires { 1 ≤ step }
        ensures { result ≡ record { left = bytes; calls = no_calls (Some step) fails } }
    {
        MemorySource {
            bytes,
            taken: 0,
            calls: CallPlan::new(Some(step), fails),
        }
    }
}

impl Source for MemorySource {
    ghost left = { λ s. Some s.left };

    ghost faults = { λ s. s.calls.faults };

    fn read(&mut self, into: &mut [u8]) -> Result<usize, PortError>
        ensures bound { ReadsAtMost result into.new }
        ensures bytes { ReadConsumes (Some self.old.left) (Some self.new.left) result into.new }
        ensures rest { FillsFront result into.old into.new }
        ensures fault { result ≡ Err PortError.Fault → Rose self.old.calls.faults self.new.calls.faults }
        ensures never_falls { self.old.calls.faults ≤ self.new.calls.faults }

        // The call fails exactly where its number is listed, and never because it is out of memory.
        ensures answer { result ≡ (if fails_next self.old.calls then Err PortError.Fault
            else Ok (piece_len self.old.calls.step (min (length into.old) (length self.old.left)))) }
        ensures calls { self.new.calls ≡ after_call self.old.calls }
        ensures below_last { self.new.calls.faults < 2 ^ 64 - 1 }
    {
        self.calls.begin()?;
        let left = &self.bytes.as_slice()[self.taken..];
        let n = self.calls.piece_len(into.len().min(left.len()));
        copy_front(left, into, n);
        self.taken += n;
        Ok(n)
    }
}
