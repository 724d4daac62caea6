ghost use Rattle.std.specs.Prelude.{◌≡◌, ◌≤◌, ◌+◌, Some};
ghost use Rattle.core_terms.specs.Answers.{Runs};
ghost use Rattle.core_terms.specs.Meanings.{tree_of};
ghost use Rattle.problems.specs.Meanings.{equation_of, turn_of};
ghost use Rattle.unification.specs.Sticking as spec;
ghost use Rattle.theory.specs.Terms as tree;
ghost use Rattle.core_terms.specs.Bounds.{most_height};
ghost use Rattle.problems.specs.Conditions.{most_levels};
ghost use Rattle.unification.specs.ScopedStates.{IsReady, IsScopedEquation};
ghost use Rattle.unification.specs.Built.{built_of};

use crate::Why;
use crate::trials::tidied;
use core_sig::Signature;
use core_terms::{Stop, Term};
use kernel_check::Kernel;
use problems::{Equation, Turn, built_of, has_no_indices, variable_in};
use tele_eq::has_variable;

fn why_variable(x: u32, other: &Term) -> Why
    requires { tree.height (tree_of other.now) ≤ most_height }
    ensures { result ≡ spec.why_variable x (tree_of other.now) }
{
    if has_variable(x as u64, other) {
        Why::OccursNotRigid
    } else {
        Why::Depends
    }
}

/// Whether both are one constructor of a family with indices.
fn are_indexed(sig: &Signature, left: &Term, right: &Term) -> bool
    requires left { tree.height (tree_of left.now) ≤ most_height }
    requires right { tree.height (tree_of right.now) ≤ most_height }
    ensures { result ≡ spec.are_indexed (built_of sig.now (tree_of left.now)) (built_of sig.now (tree_of right.now)) }
{
    match (built_of(sig, left), built_of(sig, right)) {
        (Some(b), Some(d)) => {
            b.family == d.family && b.number == d.number && !has_no_indices(b.record)
        }
        _ => false,
    }
}

/// Why no rule goes on with an equation of these sides, which are tidied.
fn why_stuck(sig: &Signature, left: &Term, right: &Term) -> Why
    requires left { tree.height (tree_of left.now) ≤ most_height }
    requires right { tree.height (tree_of right.now) ≤ most_height }
    ensures { result ≡ spec.why_stuck sig.now (tree_of left.now) (tree_of right.now) }
{
    if let Some(x) = variable_in(right) {
        return why_variable(x, left);
    }
    if let Some(x) = variable_in(left) {
        return why_variable(x, right);
    }
    if are_indexed(sig, left, right) {
        Why::NeedsIndexEquations
    } else {
        Why::NotRigid
    }
}

/// The end where no rule applies to the equation.
pub(crate) fn stuck(sig: &Signature, e: &Equation, kernel: &mut Kernel<'_>) -> Result<Turn, Stop>
    requires kernel { kernel.old.signature ≡ sig.now }
    requires ready { IsReady sig.now }
    requires e { IsScopedEquation sig.now most_levels 0 (equation_of e.now) }
    requires low { (tree.height (tree_of e.now.left) ≤ most_height) × (tree.height (tree_of e.now.right) ≤ most_height) }
    ensures answer { Runs (λ turn. Some (turn_of turn)) result kernel.new.left (spec.stuck_trial sig.now (equation_of e.now) kernel.old.left) }
    ensures sum { kernel.new.left + kernel.new.spent ≡ kernel.old.left + kernel.old.spent }
    ensures spends { kernel.new.left ≤ kernel.old.left }
    ensures kernel { kernel.new.signature ≡ sig.now }
{
    let (left, right) = tidied(&e.left, &e.right, kernel)?;
    let why = why_stuck(sig, &left, &right);
    Ok(Turn::Sticks(why, left, right))
}
