ghost use Rattle.std.specs.Prelude.{◌≡◌, ◌+◌, ◌-◌, ◌^◌, ◌<◌, if◌then◌else◌, Ok, Err};
ghost use Rattle.std.specs.Option.{ForSome};
ghost use Rattle.elim_ports.specs.Calls.{Calls, CallsFailAsListed, no_calls, fails_next, after_call, piece_len};

use crate::PortError;
use core_terms::Items;
use std::marker::Model;

/// The calls of an object in memory: how much one may move, which of them fail, and how many there were.
#[derive(Debug, Drop)]
pub(crate) struct CallPlan {
    step: Option<u32>,
    fails: Items<u32>,
    made: u32,
    faults: u64,
}

impl Model for CallPlan {
    ghost use Rattle.std.specs.Prelude.{◌<◌, ◌≤◌};
    ghost use Rattle.std.specs.Option.{ForSome};
    ghost use Rattle.elim_ports.specs.Calls.{Calls};

    ghost Value = { Calls };

    ghost view = { λ p. record { step = p.step; fails = p.fails; made = p.made; faults = p.faults } };

    ghost invariant = { λ p. ForSome p.step (λ step. 0 < step) × (p.faults ≤ p.made) };
}

impl CallPlan {
    pub fn new(step: Option<u32>, fails: Items<u32>) -> CallPlan
        requires { ForSome step (λ n. 0 < n) }
        ensures { result ≡ no_calls step fails }
    {
        CallPlan {
            step,
            fails,
            made: 0,
            faults: 0,
        }
    }

    /// Makes the next call, which fails if its number is listed.
    pub fn begin(&mut self) -> Result<(), PortError>
        ensures answer { result ≡ (if fails_next self.old then Err PortError.Fault else Ok tt) }
        ensures made { self.new ≡ after_call self.old }
        ensures below_last { self.new.faults < 2 ^ 64 - 1 }
    {
        let Some(number) = self.made.checked_add(1) else {
            return Ok(());
        };
        self.made = number;
        if self.fails.as_slice().contains(&number) {
            self.faults += 1;
            return Err(PortError::Fault);
        }
        Ok(())
    }

    pub fn piece_len(&self, most: usize) -> usize
        ensures len { result ≡ piece_len self.now.step most }
        ensures some { 0 < most → 0 < result }
    {
        match self.step {
            Some(step) => most.min(step as usize),
            None => most,
        }
    }
}

/// The law of the calls of an object in memory.
pub fn calls_fail_as_listed()
    ensures { CallsFailAsListed }
{}
