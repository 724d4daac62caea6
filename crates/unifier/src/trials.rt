//! The shared part of the trials of rules. A trial answers None if its rule does not apply.
ghost use Rattle.std.specs.Prelude.{◌≡◌, ◌≤◌, ◌+◌, IfOk, Ok, option_map};
ghost use Rattle.theory.specs.Terms as tree;
ghost use Rattle.core_terms.specs.Answers.{Gives, Runs};
ghost use Rattle.core_terms.specs.Bounds.{most_height};
ghost use Rattle.core_terms.specs.Meanings.{tree_of};
ghost use Rattle.core_terms.specs.TreeMeanings.{step_of};
ghost use Rattle.problems.specs.Meanings.{turn_of};
ghost use Rattle.unification.specs.Turns as spec;
ghost use Rattle.problems.specs.Conditions.{IsGiven, most_levels};
ghost use Rattle.unification.specs.ScopedStates.{IsReady};

use crate::Why;
use core_terms::{Rule, Step, Stop, Term, copy_whole};
use kernel_check::Kernel;
use problems::Turn;
use std::alloc::Global;

/// A step whose rule works on one equation.
pub(crate) fn single(rule: Rule, ty: Term, left: Term, right: Term) -> Step
    ensures { step_of result ≡ spec.single rule (tree_of ty) (tree_of left) (tree_of right) }
{
    Step {
        group: 1,
        rule,
        ty,
        left,
        right,
    }
}

/// Both terms tidied, the left one first.
pub(crate) fn tidied(
    left: &Term,
    right: &Term,
    kernel: &mut Kernel<'_>,
) -> Result<(Term, Term), Stop>
    requires ready { IsReady kernel.old.signature }
    requires left { IsGiven kernel.old.signature most_levels (tree_of left.now) }
    requires right { IsGiven kernel.old.signature most_levels (tree_of right.now) }
    ensures answer { Runs (λ sides. (tree_of sides.0, tree_of sides.1)) result kernel.new.left (spec.tidied kernel.old.signature (tree_of left.now) (tree_of right.now) kernel.old.left) }
    ensures sum { kernel.new.left + kernel.new.spent ≡ kernel.old.left + kernel.old.spent }
    ensures spends { kernel.new.left ≤ kernel.old.left }
    ensures kernel { kernel.new.signature ≡ kernel.old.signature }
    ensures low { IfOk result (λ sides. (tree.height (tree_of sides.0) ≤ most_height) × (tree.height (tree_of sides.1) ≤ most_height)) }
{
    let left = kernel.tidy(left)?;
    let right = kernel.tidy(right)?;
    Ok((left, right))
}

/// A last step, with the tidied sides.
pub(crate) fn fails(
    step: Step,
    left: &Term,
    right: &Term,
    kernel: &mut Kernel<'_>,
) -> Result<Option<Turn>, Stop>
    requires ready { IsReady kernel.old.signature }
    requires left { IsGiven kernel.old.signature most_levels (tree_of left.now) }
    requires right { IsGiven kernel.old.signature most_levels (tree_of right.now) }
    ensures answer { Runs (option_map turn_of) result kernel.new.left (spec.fails_at kernel.old.signature (step_of step) (tree_of left.now) (tree_of right.now) kernel.old.left) }
    ensures sum { kernel.new.left + kernel.new.spent ≡ kernel.old.left + kernel.old.spent }
    ensures spends { kernel.new.left ≤ kernel.old.left }
    ensures kernel { kernel.new.signature ≡ kernel.old.signature }
{
    let (left, right) = tidied(left, right, kernel)?;
    Ok(Some(Turn::Fails(step, left, right)))
}

/// No rule goes on, with the tidied sides.
pub(crate) fn sticks(
    why: Why,
    left: &Term,
    right: &Term,
    kernel: &mut Kernel<'_>,
) -> Result<Option<Turn>, Stop>
    requires ready { IsReady kernel.old.signature }
    requires left { IsGiven kernel.old.signature most_levels (tree_of left.now) }
    requires right { IsGiven kernel.old.signature most_levels (tree_of right.now) }
    ensures answer { Runs (option_map turn_of) result kernel.new.left (spec.sticks_at kernel.old.signature why (tree_of left.now) (tree_of right.now) kernel.old.left) }
    ensures sum { kernel.new.left + kernel.new.spent ≡ kernel.old.left + kernel.old.spent }
    ensures spends { kernel.new.left ≤ kernel.old.left }
    ensures kernel { kernel.new.signature ≡ kernel.old.signature }
{
    let (left, right) = tidied(left, right, kernel)?;
    Ok(Some(Turn::Sticks(why, left, right)))
}

/// A of Eq.i A u v.
pub(crate) fn type_in(alloc: Global, t: &Term) -> Result<Term, Stop>
    ensures { Gives tree_of result (Ok (spec.type_in (tree_of t.now))) }
{
    if let Term::App(f, _) = t {
        if let Term::App(g, _) = &**f {
            if let Term::App(_, ty) = &**g {
                return copy_whole(alloc, ty);
            }
        }
    }
    Ok(Term::Sort(0))
}
