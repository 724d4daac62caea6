ghost use Rattle.std.specs.Prelude.{◌≡◌, ◌≤◌, ◌∷◌, [], ◌++◌, Ok};
ghost use Rattle.core_terms.specs.Answers.{Gives};
ghost use Rattle.core_terms.specs.Meanings.{tree_of};
ghost use Rattle.core_terms.specs.TreeMeanings.{step_of, steps_of};
ghost use Rattle.theory.specs.Terms as tree;
ghost use Rattle.core_terms.specs.Bounds.{most_height};
ghost use Rattle.unification.specs.Built.{built_of};
ghost use Rattle.tree_translation.specs.Comparisons.{compared as compared_meant};
ghost use Rattle.tree_translation.specs.Naming as naming;
ghost use Rattle.tree_translation.specs.Replays as replays;
ghost use Rattle.tree_translation.specs.Replays.{level_of_first};
ghost use Rattle.tree_translation.specs.RunTerms as runs;
ghost use Rattle.run_terms.specs.ComparisonMeanings.{comparison_of};
ghost use Rattle.run_terms.specs.StandingMeanings.{standing_of};
ghost use Rattle.split_terms.specs.CodeRunTerms as spec;
ghost use Rattle.split_terms.specs.NodeMeanings.{named_standing_of};

use crate::steps::next_standing;
use core_sig::Signature;
use core_terms::{Items, MAX_HEIGHT, Name, Rule, Step, Stop, copy_name};
use run_terms::cycle_terms::cycle_names;
use run_terms::{Comparison, Standing, compared, first_level, left_name, noconf_name, step_in};
use std::alloc::Global;

/// Names, followed by others.
#[tactic(auto, using(tele_eq::proofs::Growing::listing))]
pub fn names_joined(
    alloc: Global,
    mut names: Items<Name>,
    others: &[Name],
) -> Result<Items<Name>, Stop>
    ensures { Gives (λ ns. ns) result (Ok (names ++ others.now)) }
{
    match others {
        [] => Ok(names),
        [name, rest @ ..] => {
            names.push(copy_name(alloc, name)?)?;
            names_joined(alloc, names, rest)
        }
    }
}

/// Names, followed by that of no confusion for a comparison.
fn with_noconf(
    alloc: Global,
    level: u8,
    c: &Comparison,
    mut names: Items<Name>,
) -> Result<Items<Name>, Stop>
    ensures { Gives (λ ns. ns) result (Ok (names ++ naming.noconf_name (comparison_of c.now).family (comparison_of c.now).left.number level ∷ [])) }
{
    let built = c.left.built;
    names.push(noconf_name(alloc, built.record, built.number, level)?)?;
    Ok(names)
}

/// Names, followed by that of no confusion where a step compares two constructors.
#[tactic(auto, using(tele_eq::proofs::Growing::listing))]
fn with_compared(
    alloc: Global,
    sig: &Signature,
    level: u8,
    s: &Standing,
    step: &Step,
    names: Items<Name>,
) -> Result<Items<Name>, Stop>
    requires left { tree.height (tree_of step.now.left) ≤ most_height }
    requires right { tree.height (tree_of step.now.right) ≤ most_height }
    ensures { Gives (λ ns. ns) result (Ok (names ++ runs.compared_names level (compared_meant sig.now (standing_of s.now).state (step_of step.now)))) }
{
    match compared(alloc, sig, &s.state, step)? {
        None => Ok(names),
        Some(c) => with_noconf(alloc, level, &c, names),
    }
}

/// Names, followed by those of a cycle.
fn with_cycle(
    alloc: Global,
    sig: &Signature,
    step: &Step,
    names: Items<Name>,
) -> Result<Items<Name>, Stop>
    requires left { tree.height (tree_of step.now.left) ≤ most_height }
    requires right { tree.height (tree_of step.now.right) ≤ most_height }
    ensures { Gives (λ ns. ns) result (Ok (names ++ runs.cycle_names (built_of sig.now (tree_of step.now.left)) (built_of sig.now (tree_of step.now.right)))) }
{
    let others = cycle_names(alloc, sig, &step.left, &step.right)?;
    names_joined(alloc, names, others.as_slice())
}

/// Names, followed by that of the elimination by a variable on the left.
fn with_left(
    alloc: Global,
    level: u8,
    s: &Standing,
    mut names: Items<Name>,
) -> Result<Items<Name>, Stop>
    ensures { Gives (λ ns. ns) result (Ok (names ++ naming.left_name (level_of_first (standing_of s.now).state.equations) level ∷ [])) }
{
    names.push(left_name(alloc, first_level(&s.state), level)?)?;
    Ok(names)
}

/// Names, followed by those of a step whose rule reads its sides as constructors.
#[tactic(auto, using(tele_eq::proofs::Growing::listing))]
fn with_sides(
    alloc: Global,
    sig: &Signature,
    level: u8,
    s: &Standing,
    step: &Step,
    names: Items<Name>,
) -> Result<Items<Name>, Stop>
    requires left { tree.height (tree_of step.now.left) ≤ most_height }
    requires right { tree.height (tree_of step.now.right) ≤ most_height }
    ensures { Gives (λ ns. ns) result (Ok (names ++ runs.rule_names sig.now level (standing_of s.now) (step_of step.now) step.now.rule)) }
{
    match step.rule {
        Rule::Inject(_, _) | Rule::Conflict(_, _, _) => {
            with_compared(alloc, sig, level, s, step, names)
        }
        Rule::Cycle(_) => with_cycle(alloc, sig, step, names),
        Rule::SolveLeft(_) => with_left(alloc, level, s, names),
        Rule::SolveRight(_) | Rule::Delete => Ok(names),
    }
}

/// Names, followed by those of a step whose rule reads its sides as constructors, or Deep where a side is too high.
fn with_high_sides(
    alloc: Global,
    sig: &Signature,
    level: u8,
    s: &Standing,
    step: &Step,
    names: Items<Name>,
) -> Result<Items<Name>, Stop>
    ensures { Gives (λ ns. ns) result (spec.if_low_sides (step_of step.now) (Ok (names ++ runs.rule_names sig.now level (standing_of s.now) (step_of step.now) step.now.rule))) }
{
    if step.left.height() > MAX_HEIGHT {
        return Err(Stop::Deep);
    }
    if step.right.height() > MAX_HEIGHT {
        return Err(Stop::Deep);
    }
    with_sides(alloc, sig, level, s, step, names)
}

/// Names, followed by those of a step over the whole context by its rule.
fn with_rule(
    alloc: Global,
    sig: &Signature,
    level: u8,
    s: &Standing,
    step: &Step,
    names: Items<Name>,
) -> Result<Items<Name>, Stop>
    ensures { Gives (λ ns. ns) result (spec.rule_names_made sig.now level (standing_of s.now) (step_of step.now) step.now.rule names) }
{
    match step.rule {
        Rule::SolveRight(_) | Rule::Delete => Ok(names),
        Rule::SolveLeft(_) => with_left(alloc, level, s, names),
        Rule::Inject(_, _) | Rule::Conflict(_, _, _) | Rule::Cycle(_) => {
            with_high_sides(alloc, sig, level, s, step, names)
        }
    }
}

/// Names, followed by those of a step of a run, which is read over the whole context.
fn with_step(
    alloc: Global,
    sig: &Signature,
    level: u8,
    s: &Standing,
    step: &Step,
    read: &Step,
    names: Items<Name>,
) -> Result<Items<Name>, Stop>
    requires { step_of read.now ≡ replays.step_in (standing_of s.now) (step_of step.now) }
    ensures { Gives (λ ns. ns) result (spec.step_names_made sig.now level (standing_of s.now) (step_of step.now) names) }
{
    with_rule(alloc, sig, level, s, read, names)
}

/// Names, followed by those that the term of a run may mention, and the standing after the run, or Deep.
pub fn run_ended(
    alloc: Global,
    sig: &Signature,
    level: u8,
    steps: &[Step],
    s: Standing,
    names: Items<Name>,
) -> Result<(Items<Name>, Standing), Stop>
    ensures { Gives named_standing_of result (spec.run_ended sig.now level (steps_of steps.now) (standing_of s) names) }
{
    match steps {
        [] => Ok((names, s)),
        [step, rest @ ..] => {
            let read = step_in(alloc, &s, step)?;
            let names = with_step(alloc, sig, level, &s, step, &read, names)?;
            let next = next_standing(alloc, sig, &s, step, &read)?;
            run_ended(alloc, sig, level, rest, next, names)
        }
    }
}
