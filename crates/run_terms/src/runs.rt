ghost use Rattle.std.specs.Prelude.{◌≡◌, ◌≤◌, ◌++◌, Ok, length};
ghost use Rattle.core_terms.specs.Answers.{Gives};
ghost use Rattle.core_terms.specs.Meanings.{tree_of};
ghost use Rattle.core_terms.specs.TreeMeanings.{step_of, steps_of};
ghost use Rattle.theory.specs.Terms as tree;
ghost use Rattle.core_terms.specs.Bounds.{most_height};
ghost use Rattle.tele_eq.specs.Items.{item_of};
ghost use Rattle.run_terms.specs.CodeRuns as spec;
ghost use Rattle.run_terms.specs.ComparisonMeanings.{HasMemberKinds, comparison_of};
ghost use Rattle.run_terms.specs.StandingMeanings.{equation_of, equations_of, standing_of, state_of};

use crate::comparisons::{Comparison, compared};
use crate::hidden::step_in;
use crate::injections::injected_standing;
use crate::level_lists::with_all;
use crate::replays::{deleted_standing, solved_standing};
use crate::state::{Equation, Standing, State, equation_between, standing_at};
use core_sig::Signature;
use core_terms::{Items, MAX_HEIGHT, Rule, Step, Stop, copy_tele, copy_whole};
use std::alloc::Global;
use tele_eq::Item;

fn copy_equation(alloc: Global, e: &Equation) -> Result<Equation, Stop>
    ensures { Gives equation_of result (Ok (equation_of e.now)) }
{
    let place = Item {
        ty: copy_whole(alloc, &e.place.ty)?,
        level: e.place.level,
    };
    let ty = copy_whole(alloc, &e.ty)?;
    let left = copy_whole(alloc, &e.left);
    let right = copy_whole(alloc, &e.right);
    equation_between(place, ty, left, right)
}

/// Equations, followed by others.
#[tactic(auto, using(tele_eq::proofs::Growing::growing))]
fn with_copies(
    alloc: Global,
    equations: &[Equation],
    mut made: Items<Equation>,
) -> Result<Items<Equation>, Stop>
    ensures { Gives equations_of result (Ok (equations_of made ++ equations_of equations.now)) }
{
    match equations {
        [] => Ok(made),
        [e, rest @ ..] => {
            made.push(copy_equation(alloc, e)?)?;
            with_copies(alloc, rest, made)
        }
    }
}

fn copy_state(alloc: Global, s: &State) -> Result<State, Stop>
    ensures { Gives state_of result (Ok (state_of s.now)) }
{
    Ok(State {
        ctx: copy_tele(alloc, s.ctx.as_slice())?,
        equations: with_copies(alloc, s.equations.as_slice(), Items::new(alloc))?,
    })
}

/// A copy of a standing.
pub fn copy_standing(alloc: Global, s: &Standing) -> Result<Standing, Stop>
    ensures { Gives standing_of result (Ok (standing_of s.now)) }
{
    let state = copy_state(alloc, &s.state)?;
    let goal = copy_whole(alloc, &s.goal)?;
    let hidden = with_all(Items::new(alloc), s.hidden.as_slice());
    let variables = with_all(Items::new(alloc), s.variables.as_slice());
    standing_at(state, goal, hidden, variables, s.depth)
}

/// The standing after an injectivity, where the comparison has all parameters.
fn injected_if_fits(
    alloc: Global,
    s: &Standing,
    group: u32,
    c: &Comparison,
) -> Result<Standing, Stop>
    requires { HasMemberKinds c.now.left }
    ensures { Gives standing_of result (spec.injected_one (standing_of s.now) group (comparison_of c.now)) }
{
    if c.parameters.as_slice().len() != c.left.built.record.params.as_slice().len() {
        return Err(Stop::Deep);
    }
    injected_standing(alloc, s, group, c)
}

/// The standing after a step by injectivity, or Deep.
fn after_injection(
    alloc: Global,
    sig: &Signature,
    s: &Standing,
    step: &Step,
) -> Result<Standing, Stop>
    requires left { tree.height (tree_of step.now.left) ≤ most_height }
    requires right { tree.height (tree_of step.now.right) ≤ most_height }
    ensures { Gives standing_of result (spec.after_comparison sig.now (standing_of s.now) (step_of step.now)) }
{
    match compared(alloc, sig, &s.state, step)? {
        None => copy_standing(alloc, s),
        Some(c) => injected_if_fits(alloc, s, step.group, &c),
    }
}

/// The standing after a step by injectivity whose sides may be too high, or Deep.
fn after_high_injection(
    alloc: Global,
    sig: &Signature,
    s: &Standing,
    step: &Step,
) -> Result<Standing, Stop>
    ensures { Gives standing_of result (spec.after_injection sig.now (standing_of s.now) (step_of step.now)) }
{
    if step.left.height() > MAX_HEIGHT {
        return Err(Stop::Deep);
    }
    if step.right.height() > MAX_HEIGHT {
        return Err(Stop::Deep);
    }
    after_injection(alloc, sig, s, step)
}

/// The standing after a step over the whole context, or Deep.
pub fn after_rule(
    alloc: Global,
    sig: &Signature,
    s: &Standing,
    step: &Step,
) -> Result<Standing, Stop>
    ensures { Gives standing_of result (spec.after_rule sig.now (standing_of s.now) (step_of step.now) step.now.rule) }
{
    match step.rule {
        Rule::SolveRight(x) => solved_standing(alloc, s, x, &step.ty, &step.left),
        Rule::SolveLeft(x) => solved_standing(alloc, s, x, &step.ty, &step.right),
        Rule::Inject(_, _) => after_high_injection(alloc, sig, s, step),
        Rule::Delete => deleted_standing(alloc, s, &step.ty, &step.left),
        Rule::Conflict(_, _, _) | Rule::Cycle(_) => copy_standing(alloc, s),
    }
}

/// The standing after a step of a run, or Deep.
pub fn after_step(
    alloc: Global,
    sig: &Signature,
    s: &Standing,
    step: &Step,
) -> Result<Standing, Stop>
    ensures { Gives standing_of result (spec.after_step sig.now (standing_of s.now) (step_of step.now)) }
{
    let step = step_in(alloc, s, step)?;
    after_rule(alloc, sig, s, &step)
}

/// The standing after a run, or Deep.
pub fn after_run(
    alloc: Global,
    sig: &Signature,
    steps: &[Step],
    s: Standing,
) -> Result<Standing, Stop>
    ensures { Gives standing_of result (spec.after_run sig.now (steps_of steps.now) (standing_of s)) }
{
    match steps {
        [] => Ok(s),
        [step, rest @ ..] => {
            let next = after_step(alloc, sig, &s, step)?;
            after_run(alloc, sig, rest, next)
        }
    }
}
