ghost use Rattle.std.specs.Prelude.{◌≡◌, ◌≤◌, ◌<◌, ◌+◌, IfOk, length, Some, Ok};
ghost use Rattle.core_terms.specs.Answers.{Gives, Runs};
ghost use Rattle.core_terms.specs.Bounds.{context_limit};
ghost use Rattle.problems.specs.Meanings.{outcome_of, problem_of, state_of, turn_of};
ghost use Rattle.unification.specs.Runs as spec;
ghost use Rattle.unification.specs.ScopedStates.{IsReady, IsScopedOutcome, IsScopedProblem};
ghost use Rattle.problems.specs.Conditions.{IsKept};
ghost use Rattle.core_terms.specs.TreeMeanings.{steps_of};
ghost use Rattle.unification.specs.Outcomes as outcomes;

use crate::strategy::turn;
use core_sig::Signature;
use core_terms::{Items, Step, Stop, Units};
use kernel_check::Kernel;
use problems::{Outcome, Problem, State, Turn, start};
use std::alloc::Global;

/// The outcome of the run from a state on.
fn run(
    alloc: Global,
    sig: &Signature,
    start: Box<State>,
    kernel: &mut Kernel<'_>,
) -> Result<Outcome, Stop>
    requires kernel { kernel.old.signature ≡ sig.now }
    requires ready { IsReady sig.now }
    requires state { IsKept sig.now (state_of start.value) }
    ensures answer { Runs outcome_of result kernel.new.left (spec.run_of sig.now (state_of start.value) kernel.old.left) }
    ensures sum { kernel.new.left + kernel.new.spent ≡ kernel.old.left + kernel.old.spent }
    ensures spends { kernel.new.left ≤ kernel.old.left }
    ensures kernel { kernel.new.signature ≡ sig.now }
{
    let mut state = start;
    let mut steps = Items::new(alloc);
    'turns: loop {
        match turn(alloc, sig, &state, kernel)? {
            Turn::Goes(step, next) => {
                steps.push(step)?;
                state = next;
            }
            end => return finish(Box::into_inner(state), steps, end),
        }
    }
}

/// The outcome of a turn that is an end, after the steps.
fn finish(state: State, mut steps: Items<Step>, end: Turn) -> Result<Outcome, Stop>
    ensures { (outcome : outcomes.Outcome) → spec.end_of (state_of state) (turn_of end) ≡ Some outcome → Gives outcome_of result (Ok (outcomes.behind_steps (steps_of steps) outcome)) }
{
    let State { ctx, subst, .. } = state;
    match end {
        Turn::Fails(step, left, right) => {
            steps.push(step)?;
            Ok(Outcome::Absurd {
                steps,
                ctx,
                left,
                right,
            })
        }
        Turn::Sticks(why, left, right) => Ok(Outcome::Stuck {
            steps,
            ctx,
            left,
            right,
            why,
        }),
        Turn::Done | Turn::Goes(_, _) => Ok(Outcome::Solved { steps, ctx, subst }),
    }
}

/// Unifies two lists of terms of a telescope, with the steps of the rules and the units that they take.
///
/// Without K no equation is deleted. Fuel comes where a unit is needed and none is left. Deep comes where a term that is given, or
/// that the run makes, is higher than 2,000, where a comparison or a normal form has more than 2,000 calls open, or where a
/// telescope of equations has more than 1,000 places.
pub fn unify(
    alloc: Global,
    sig: &Signature,
    p: &Problem,
    units: &mut Units,
) -> Result<Outcome, Stop>
    requires ready { IsReady sig.now }
    requires problem { IsScopedProblem sig.now (problem_of p.now) }
    requires few { length p.now.ctx + length p.now.tele < context_limit }
    ensures answer { Runs outcome_of result units.new.left (spec.unify_of sig.now (problem_of p.now) units.old.left) }
    ensures sum { units.new.left + units.new.spent ≡ units.old.left + units.old.spent }
    ensures spends { units.new.left ≤ units.old.left }
    ensures scoped { IfOk result (λ o. IsScopedOutcome sig.now (length p.now.ctx) (outcome_of o)) }
{
    let mut kernel = Kernel::new(alloc, sig, *units);
    let made = unify_with(alloc, sig, p, &mut kernel);
    *units = kernel.into_units();
    made
}

/// `unify` over a kernel with this signature, with its units.
pub fn unify_with(
    alloc: Global,
    sig: &Signature,
    p: &Problem,
    kernel: &mut Kernel<'_>,
) -> Result<Outcome, Stop>
    requires kernel { kernel.old.signature ≡ sig.now }
    requires ready { IsReady sig.now }
    requires problem { IsScopedProblem sig.now (problem_of p.now) }
    requires few { length p.now.ctx + length p.now.tele < context_limit }
    ensures answer { Runs outcome_of result kernel.new.left (spec.unify_of sig.now (problem_of p.now) kernel.old.left) }
    ensures sum { kernel.new.left + kernel.new.spent ≡ kernel.old.left + kernel.old.spent }
    ensures spends { kernel.new.left ≤ kernel.old.left }
    ensures kernel { kernel.new.signature ≡ sig.now }
    ensures scoped { IfOk result (λ o. IsScopedOutcome sig.now (length p.now.ctx) (outcome_of o)) }
{
    run_of_problem(alloc, sig, p, kernel)
}

/// The run of a problem.
fn run_of_problem(
    alloc: Global,
    sig: &Signature,
    p: &Problem,
    kernel: &mut Kernel<'_>,
) -> Result<Outcome, Stop>
    requires kernel { kernel.old.signature ≡ sig.now }
    requires ready { IsReady sig.now }
    requires problem { IsScopedProblem sig.now (problem_of p.now) }
    requires few { length p.now.ctx + length p.now.tele < context_limit }
    ensures answer { Runs outcome_of result kernel.new.left (spec.unify_of sig.now (problem_of p.now) kernel.old.left) }
    ensures sum { kernel.new.left + kernel.new.spent ≡ kernel.old.left + kernel.old.spent }
    ensures spends { kernel.new.left ≤ kernel.old.left }
    ensures kernel { kernel.new.signature ≡ sig.now }
{
    let state = start(alloc, p)?;
    run(alloc, sig, state, kernel)
}
