ghost use Rattle.std.specs.Prelude.{◌≡◌, ◌-◌, ◌^◌, ◌<◌, ◌≤◌, ◌↔◌, [], length, IsTrue, IfOk, Err, Some, None};
ghost use Rattle.std.specs.Option.{ForSome};
ghost use Rattle.std.specs.Io.{WritesAtMost};
ghost use Rattle.std.specs.Io.KnownBytes.{WriteAppends};
ghost use Rattle.core_terms.specs.Count.{Rose};
ghost use Rattle.elim_ports.specs.Calls.{no_calls, fails_next, after_call, piece_len};

use crate::call_plan::CallPlan;
use crate::{PortError, Sink};
use core_terms::Items;
use std::marker::Model;

/// A sink that keeps the bytes that it takes in memory, with the allocator of `fails`.
///
/// Its writes are numbered from 1, and those in `fails` fail; after number `u32::MAX` none does.
#[derive(Debug, Drop)]
pub struct MemorySink {
    bytes: Vec<u8>,
    calls: CallPlan,
}

impl Model for MemorySink {
    ghost use Rattle.elim_ports.specs.Ports.{Output};

    ghost Value = { Output };

    ghost view = { λ s. record { written = s.bytes.items; calls = s.calls } };
}

impl MemorySink {
    /// A write that does not fail takes the whole piece.
    pub fn new(fails: Items<u32>) -> MemorySink
        ensures { result ≡ record { written = []; calls = no_calls None fails } }
    {
        MemorySink::over(None, fails)
    }

    /// A write that does not fail takes at most `step` bytes.
    pub fn stepped(step: u32, fails: Items<u32>) -> MemorySink
        requires { 1 ≤ step }
        ensures { result ≡ record { written = []; calls = no_calls (Some step) fails } }
    {
        MemorySink::over(Some(step), fails)
    }

    fn over(step: Option<u32>, fails: Items<u32>) -> MemorySink
        requires { ForSome step (λ n. 0 < n) }
        ensures { result ≡ record { written = []; calls = no_calls step fails } }
    {
        let fails = fails.into_vec();
        MemorySink {
            bytes: Vec::new(*fails.allocator()),
            calls: CallPlan::new(step, Items::from_vec(fails)),
        }
    }

    pub fn written(&self) -> &[u8]
        ensures { result.now ≡ self.now.written }
    {
        self.bytes.as_slice()
    }
}

impl Sink for MemorySink {
    ghost written = { λ s. Some s.written };

    ghost faults = { λ s. s.calls.faults };

    fn write(&mut self, from: &[u8]) -> Result<usize, PortError>
        ensures bound { WritesAtMost result from.now }
        ensures bytes { WriteAppends (Some self.old.written) (Some self.new.written) result from.now }
        ensures some { 0 < length from.now → IfOk result (λ n. 0 < n) }
        ensures fault { result ≡ Err PortError.Fault → Rose self.old.calls.faults self.new.calls.faults }
        ensures never_falls { self.old.calls.faults ≤ self.new.calls.faults }

        // The call fails exactly where its number is listed.
        ensures fails { (result ≡ Err PortError.Fault) ↔ IsTrue (fails_next self.old.calls) }
        ensures takes { IfOk result (λ n. n ≡ piece_len self.old.calls.step (length from.now)) }
        ensures calls { self.new.calls ≡ after_call self.old.calls }
        ensures below_last { self.new.calls.faults < 2 ^ 64 - 1 }
    {
        self.calls.begin()?;
        let n = self.calls.piece_len(from.len());
        self.bytes.extend_from_slice(&from[..n])?;
        Ok(n)
    }
}
