ghost use Rattle.std.specs.Prelude.{◌≡◌, ◌≤◌, Ok};
ghost use Rattle.core_terms.specs.Answers.{Gives};
ghost use Rattle.core_terms.specs.Meanings.{tree_of};
ghost use Rattle.core_terms.specs.TreeMeanings.{step_of};
ghost use Rattle.theory.specs.Terms as tree;
ghost use Rattle.core_terms.specs.Bounds.{most_height};
ghost use Rattle.run_terms.specs.CodeNaming.{naming_of};
ghost use Rattle.run_terms.specs.CodeRuns.{after_rule, after_step};
ghost use Rattle.run_terms.specs.StandingMeanings.{standing_of};
ghost use Rattle.split_terms.specs.CodeRunTerms as spec;

use core_sig::Signature;
use core_terms::{MAX_HEIGHT, Rule, Step, Stop, Term};
use run_terms::cycle_terms::cycle_of_sides;
use run_terms::{
    Naming, Standing, compared, conflict_term, delete_term, inject_term, solve_left_term,
    solve_right_term, state_term, step_in,
};
use std::alloc::Global;

/// The term of a step by injectivity, or Deep where something in its equations is too high.
fn injection_term(
    alloc: Global,
    sig: &Signature,
    naming: Naming,
    level: u8,
    s: &Standing,
    step: &Step,
    inner: Term,
) -> Result<Term, Stop>
    requires left { tree.height (tree_of step.now.left) ≤ most_height }
    requires right { tree.height (tree_of step.now.right) ≤ most_height }
    ensures { Gives tree_of result (spec.injection_made sig.now (naming_of naming.entry) level (standing_of s.now) (step_of step.now) (tree_of inner)) }
{
    let k = step.group.saturating_sub(1);
    match compared(alloc, sig, &s.state, step)? {
        None => Ok(Term::Sort(0)),
        Some(c) => inject_term(alloc, naming, level, s, k, &c, inner),
    }
}

/// The term of a step by conflict, or Deep where something in its equations is too high.
fn refutation_term(
    alloc: Global,
    sig: &Signature,
    naming: Naming,
    level: u8,
    s: &Standing,
    step: &Step,
) -> Result<Term, Stop>
    requires left { tree.height (tree_of step.now.left) ≤ most_height }
    requires right { tree.height (tree_of step.now.right) ≤ most_height }
    ensures { Gives tree_of result (spec.refutation_made sig.now (naming_of naming.entry) level (standing_of s.now) (step_of step.now)) }
{
    let k = step.group.saturating_sub(1);
    match compared(alloc, sig, &s.state, step)? {
        None => Ok(Term::Sort(0)),
        Some(c) => conflict_term(alloc, naming, level, s, k, &c),
    }
}

/// The term of a step whose rule reads its sides as constructors.
fn sides_term(
    alloc: Global,
    sig: &Signature,
    naming: Naming,
    level: u8,
    s: &Standing,
    step: &Step,
    inner: Term,
) -> Result<Term, Stop>
    requires left { tree.height (tree_of step.now.left) ≤ most_height }
    requires right { tree.height (tree_of step.now.right) ≤ most_height }
    ensures { Gives tree_of result (spec.sides_made sig.now (naming_of naming.entry) level (standing_of s.now) (step_of step.now) step.now.rule (tree_of inner)) }
{
    match step.rule {
        Rule::Inject(_, _) => injection_term(alloc, sig, naming, level, s, step, inner),
        Rule::Conflict(_, _, _) => refutation_term(alloc, sig, naming, level, s, step),
        Rule::Cycle(x) => cycle_of_sides(alloc, sig, naming, level, s, x, &step.left, &step.right),
        Rule::SolveRight(_) | Rule::SolveLeft(_) | Rule::Delete => Ok(Term::Sort(0)),
    }
}

/// The term of a step whose rule reads its sides as constructors, or Deep where a side is too high.
fn high_sides_term(
    alloc: Global,
    sig: &Signature,
    naming: Naming,
    level: u8,
    s: &Standing,
    step: &Step,
    inner: Term,
) -> Result<Term, Stop>
    ensures { Gives tree_of result (spec.if_low_sides (step_of step.now) (spec.sides_made sig.now (naming_of naming.entry) level (standing_of s.now) (step_of step.now) step.now.rule (tree_of inner))) }
{
    if step.left.height() > MAX_HEIGHT {
        return Err(Stop::Deep);
    }
    if step.right.height() > MAX_HEIGHT {
        return Err(Stop::Deep);
    }
    sides_term(alloc, sig, naming, level, s, step, inner)
}

/// The term of a step over the whole context by its rule, from the next state's term.
fn rule_term(
    alloc: Global,
    sig: &Signature,
    naming: Naming,
    level: u8,
    s: &Standing,
    step: &Step,
    next: &Standing,
    inner: Term,
) -> Result<Term, Stop>
    requires { after_rule sig.now (standing_of s.now) (step_of step.now) step.now.rule ≡ Ok (standing_of next.now) }
    ensures { Gives tree_of result (spec.rule_made sig.now (naming_of naming.entry) level (standing_of s.now) (step_of step.now) step.now.rule (tree_of inner)) }
{
    let (ty, left, right) = (&step.ty, &step.left, &step.right);
    match step.rule {
        Rule::SolveRight(x) => solve_right_term(alloc, level, s, x, ty, left, next, inner),
        Rule::SolveLeft(x) => solve_left_term(alloc, naming, level, s, x, ty, right, next, inner),
        Rule::Delete => delete_term(alloc, level, s, ty, left, inner),
        Rule::Inject(_, _) | Rule::Conflict(_, _, _) | Rule::Cycle(_) => {
            high_sides_term(alloc, sig, naming, level, s, step, inner)
        }
    }
}

/// The term of a step of a run, from the term after the equations of the next standing.
pub fn step_term(
    alloc: Global,
    sig: &Signature,
    naming: Naming,
    level: u8,
    s: &Standing,
    step: &Step,
    next: &Standing,
    inner: Term,
) -> Result<Term, Stop>
    requires { after_step sig.now (standing_of s.now) (step_of step.now) ≡ Ok (standing_of next.now) }
    ensures { Gives tree_of result (spec.step_made sig.now (naming_of naming.entry) level (standing_of s.now) (step_of step.now) (standing_of next.now) (tree_of inner)) }
{
    let step = step_in(alloc, s, step)?;
    let state = state_term(alloc, next, inner)?;
    rule_term(alloc, sig, naming, level, s, &step, next, state)
}
