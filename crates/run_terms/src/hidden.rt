ghost use Rattle.std.specs.Prelude.{◌≡◌, Ok, length};
ghost use Rattle.core_terms.specs.Answers.{Gives};
ghost use Rattle.core_terms.specs.Meanings.{tree_of};
ghost use Rattle.core_terms.specs.TreeMeanings.{step_of};
ghost use Rattle.tree_translation.specs.Hidden as spec;
ghost use Rattle.tree_translation.specs.Replays as replays;
ghost use Rattle.run_terms.specs.CodeHidden as meant;
ghost use Rattle.run_terms.specs.StandingMeanings.{standing_of};

use crate::level_lists::{with_levels, with_levels_without};
use crate::places::level_at;
use crate::placing::placed;
use crate::state::Standing;
use core_terms::{Items, Rule, Step, Stop, Term, number_of, sum};
use std::alloc::Global;

/// The levels of the variables that are not hidden, among `n`.
pub fn visible(alloc: Global, n: u32, hidden: &[u32]) -> Result<Items<u32>, Stop>
    ensures { Gives (λ v. v) result (Ok (spec.visible n hidden.now)) }
{
    with_levels_without(hidden, 0, n, Items::new(alloc))
}

/// A term over the variables that are not hidden, as one over all `n`.
pub fn widened(alloc: Global, n: u32, hidden: &[u32], t: &Term) -> Result<Term, Stop>
    ensures { Gives tree_of result (Ok (spec.widened n hidden.now (tree_of t.now))) }
{
    let levels = visible(alloc, n, hidden)?;
    placed(alloc, levels.as_slice(), n, t)
}

/// A term after `count` places and over such variables among `n`, as one over all of them.
fn placed_after(
    alloc: Global,
    n: u32,
    levels: Items<u32>,
    count: u32,
    t: &Term,
) -> Result<Term, Stop>
    ensures { Gives tree_of result (Ok (meant.placed_behind n levels count (tree_of t.now))) }
{
    let levels = with_levels(n, count, levels)?;
    placed(alloc, levels.as_slice(), sum(n, count)?, t)
}

/// A term after `count` places and over the variables that are not hidden, as one over all `n` variables and the places.
pub fn widened_after(
    alloc: Global,
    n: u32,
    hidden: &[u32],
    count: u32,
    t: &Term,
) -> Result<Term, Stop>
    ensures { Gives tree_of result (Ok (spec.widened_behind n hidden.now count (tree_of t.now))) }
{
    let levels = visible(alloc, n, hidden)?;
    placed_after(alloc, n, levels, count, t)
}

/// The number among all `n` variables of one of those that have these levels.
fn number_at(n: u32, levels: &[u32], x: u32) -> u32
    ensures { result ≡ meant.number_at n levels.now x }
{
    let position = levels.len().saturating_sub(x as usize + 1);
    let level = level_at(levels, position);
    (n as u64).saturating_sub(level as u64 + 1) as u32
}

/// The number of a variable that is not hidden, among all `n`.
pub fn widened_number(alloc: Global, n: u32, hidden: &[u32], x: u32) -> Result<u32, Stop>
    ensures { Gives (λ x. x) result (Ok (spec.widened_number n hidden.now x)) }
{
    let levels = visible(alloc, n, hidden)?;
    Ok(number_at(n, levels.as_slice(), x))
}

/// The rule of a step over such variables, over all `n`.
fn rule_at(n: u32, levels: &[u32], rule: Rule) -> Rule
    ensures { result ≡ meant.rule_at n levels.now rule }
{
    match rule {
        Rule::SolveRight(x) => Rule::SolveRight(number_at(n, levels, x)),
        Rule::SolveLeft(x) => Rule::SolveLeft(number_at(n, levels, x)),
        Rule::Cycle(x) => Rule::Cycle(number_at(n, levels, x)),
        Rule::Inject(_, _) | Rule::Conflict(_, _, _) | Rule::Delete => rule,
    }
}

/// A step over such variables, over all `n`.
fn step_at(alloc: Global, n: u32, levels: Items<u32>, step: &Step) -> Result<Step, Stop>
    ensures { Gives step_of result (Ok (meant.step_at n levels (step_of step.now))) }
{
    let rule = rule_at(n, levels.as_slice(), step.rule);
    let left = placed(alloc, levels.as_slice(), n, &step.left)?;
    let right = placed(alloc, levels.as_slice(), n, &step.right)?;
    let count = step.group.saturating_sub(1);
    Ok(Step {
        group: step.group,
        rule,
        ty: placed_after(alloc, n, levels, count, &step.ty)?,
        left,
        right,
    })
}

/// A step in a context of `n` variables, some of which are hidden from it.
fn widened_step(alloc: Global, n: u32, hidden: &[u32], step: &Step) -> Result<Step, Stop>
    ensures { Gives step_of result (Ok (spec.widened_step n hidden.now (step_of step.now))) }
{
    let levels = visible(alloc, n, hidden)?;
    step_at(alloc, n, levels, step)
}

/// A step of a run, as it is read in a standing.
pub fn step_in(alloc: Global, s: &Standing, step: &Step) -> Result<Step, Stop>
    ensures { Gives step_of result (Ok (replays.step_in (standing_of s.now) (step_of step.now))) }
{
    let n = number_of(s.state.ctx.as_slice().len())?;
    widened_step(alloc, n, s.hidden.as_slice(), step)
}
