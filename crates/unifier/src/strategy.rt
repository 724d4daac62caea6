ghost use Rattle.std.specs.Prelude.{◌≡◌, ◌≤◌, ◌+◌, IfOk, slice_get, Some};
ghost use Rattle.core_terms.specs.Answers.{Runs};
ghost use Rattle.problems.specs.Meanings.{equation_of, state_of, turn_of};
ghost use Rattle.unification.specs.Strategy as spec;
ghost use Rattle.problems.specs.Conditions.{IsKept, LeadsOn, LeadsToRoom};
ghost use Rattle.unification.specs.ScopedStates.{IsReady};

use crate::constructors::constructor_trial;
use crate::cycles::cycle_trial;
use crate::deletions::deletion_trial;
use crate::groups::group_trials;
use crate::solutions::solution_trial;
use crate::sticking::stuck;
use core_sig::Signature;
use core_terms::Stop;
use kernel_check::Kernel;
use problems::{Equation, State, Turn};
use std::alloc::Global;

/// The rules for the first equation, in their order.
fn first_trials(
    alloc: Global,
    sig: &Signature,
    s: &State,
    e: &Equation,
    kernel: &mut Kernel<'_>,
) -> Result<Turn, Stop>
    requires kernel { kernel.old.signature ≡ sig.now }
    requires ready { IsReady sig.now }
    requires state { IsKept sig.now (state_of s.now) }
    requires first { slice_get (state_of s.now).equations 0 ≡ Some (equation_of e.now) }
    ensures answer { Runs (λ turn. Some (turn_of turn)) result kernel.new.left (spec.first_trials sig.now (state_of s.now) (equation_of e.now) kernel.old.left) }
    ensures sum { kernel.new.left + kernel.new.spent ≡ kernel.old.left + kernel.old.spent }
    ensures spends { kernel.new.left ≤ kernel.old.left }
    ensures kernel { kernel.new.signature ≡ sig.now }
    ensures room { IfOk result (λ found. LeadsToRoom (turn_of found)) }
{
    if let Some(turn) = solution_trial(alloc, s, e, kernel)? {
        return Ok(turn);
    }
    if let Some(turn) = constructor_trial(alloc, sig, s, e, kernel)? {
        return Ok(turn);
    }
    if let Some(turn) = cycle_trial(alloc, sig, e, kernel)? {
        return Ok(turn);
    }
    if let Some(turn) = deletion_trial(alloc, sig, s, e, kernel)? {
        return Ok(turn);
    }
    stuck(sig, e, kernel)
}

/// The turn of a state.
pub(crate) fn turn(
    alloc: Global,
    sig: &Signature,
    s: &State,
    kernel: &mut Kernel<'_>,
) -> Result<Turn, Stop>
    requires kernel { kernel.old.signature ≡ sig.now }
    requires ready { IsReady sig.now }
    requires state { IsKept sig.now (state_of s.now) }
    ensures answer { Runs (λ turn. Some (turn_of turn)) result kernel.new.left (spec.turn_of sig.now (state_of s.now) kernel.old.left) }
    ensures sum { kernel.new.left + kernel.new.spent ≡ kernel.old.left + kernel.old.spent }
    ensures spends { kernel.new.left ≤ kernel.old.left }
    ensures kernel { kernel.new.signature ≡ sig.now }
    ensures kept { IfOk result (λ found. LeadsOn sig.now (turn_of found)) }
{
    all_trials(alloc, sig, s, kernel)
}

/// All trials in their order: groups, and then the rules for the first equation.
fn all_trials(
    alloc: Global,
    sig: &Signature,
    s: &State,
    kernel: &mut Kernel<'_>,
) -> Result<Turn, Stop>
    requires kernel { kernel.old.signature ≡ sig.now }
    requires ready { IsReady sig.now }
    requires state { IsKept sig.now (state_of s.now) }
    ensures answer { Runs (λ turn. Some (turn_of turn)) result kernel.new.left (spec.turn_of sig.now (state_of s.now) kernel.old.left) }
    ensures sum { kernel.new.left + kernel.new.spent ≡ kernel.old.left + kernel.old.spent }
    ensures spends { kernel.new.left ≤ kernel.old.left }
    ensures kernel { kernel.new.signature ≡ sig.now }
    ensures room { IfOk result (λ found. LeadsToRoom (turn_of found)) }
{
    let [first, rest @ ..] = s.equations.as_slice() else {
        return Ok(Turn::Done);
    };
    match group_trials(alloc, sig, s, rest.len() as u32, kernel)? {
        Some(turn) => Ok(turn),
        None => first_trials(alloc, sig, s, first, kernel),
    }
}
