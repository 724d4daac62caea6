ghost use Rattle.std.specs.Prelude.{◌≡◌, ◌≤◌, true, IfOk, length, Ok};
ghost use Rattle.core_terms.specs.Answers.{Gives, are_low};
ghost use Rattle.core_terms.specs.Meanings.{tree_of, tele_of};
ghost use Rattle.case_trees.specs.Points as spec;
ghost use Rattle.clause_walks.specs.PointConditions.{AreOverSo, is_low_point as is_low_meant};
ghost use Rattle.clause_walks.specs.PointMeanings.{point_of};
ghost use Rattle.problems.specs.Conditions.{most_levels};

use core_terms::{MAX_HEIGHT, Stop, Tele, Term, copy_tele, copy_whole, inst, inst_terms};
use problems::are_low;
use std::alloc::Global;
use tele_eq::variables;

/// How many variables a context may have; with more, memory is short.
pub(crate) const MOST_LEVELS: usize = 2147400000;

/// The point of a walk or a tree: its context and goal, a term of the context for each variable of the context that was given, and
/// the terms of the columns, with what clauses were compared with.
#[derive(Debug, Drop)]
pub struct Point {
    pub context: Tele,
    pub goal: Term,
    pub substitution: Tele,
    pub terms: Tele,
}

/// No term in the point is too high.
fn is_low_point(p: &Point) -> bool
    ensures { result ≡ is_low_meant (point_of p.now) }
{
    are_low(p.context.as_slice())
        && p.goal.height() <= MAX_HEIGHT
        && are_low(p.substitution.as_slice())
        && are_low(p.terms.as_slice())
}

/// The point itself, or Deep where a term in it is too high, or Memory where its context has too many variables.
pub fn bounded_point(p: Point) -> Result<Point, Stop>
    ensures answer { Gives point_of result (spec.bounded_point (point_of p)) }
    ensures few { IfOk result (λ q. length q.context ≤ most_levels) }
{
    if !is_low_point(&p) {
        return Err(Stop::Deep);
    }
    if p.context.as_slice().len() > MOST_LEVELS {
        return Err(Stop::Memory);
    }
    Ok(p)
}

/// The point at which all begins, or Deep: each variable of the context stands for itself.
pub fn start_at(alloc: Global, context: &[Term], goal: &Term, terms: &[Term]) -> Result<Point, Stop>
    requires few { length context.now ≤ most_levels }
    ensures answer { Gives point_of result (spec.bounded_point (spec.start_at (tele_of context.now) (tree_of goal.now) (tele_of terms.now))) }
    ensures few { IfOk result (λ q. length q.context ≤ most_levels) }
{
    let point = start(alloc, context, goal, terms)?;
    bounded_point(point)
}

fn start(alloc: Global, context: &[Term], goal: &Term, terms: &[Term]) -> Result<Point, Stop>
    requires few { length context.now ≤ most_levels }
    ensures { Gives point_of result (Ok (spec.start_at (tele_of context.now) (tree_of goal.now) (tele_of terms.now))) }
{
    let substitution = variables(alloc, context.len() as u32)?;
    Ok(Point {
        context: copy_tele(alloc, context)?,
        goal: copy_whole(alloc, goal)?,
        substitution,
        terms: copy_tele(alloc, terms)?,
    })
}

/// An outcome's solution for the variables of the point; the terms for the arguments of a constructor come after it.
pub fn solution_for<'a>(p: &Point, solution: &'a [Term]) -> &'a [Term]
    ensures { tele_of result.now ≡ spec.solution_for (point_of p.now) (tele_of solution.now) }
{
    let count = p.context.as_slice().len();
    if count < solution.len() {
        &solution[..count]
    } else {
        solution
    }
}

/// The point in a new context, where the variables of the old one have the terms of a solution, or Deep.
pub fn moved_point(
    alloc: Global,
    p: &Point,
    context: Tele,
    solution: &[Term],
) -> Result<Point, Stop>
    requires solution { AreOverSo (length context) (tele_of solution.now) }
    ensures answer { Gives point_of result (spec.bounded_point (spec.moved_point (point_of p.now) (tele_of context) (tele_of solution.now))) }
    ensures few { IfOk result (λ q. length q.context ≤ most_levels) }
{
    if !are_low(context.as_slice()) {
        return Err(Stop::Deep);
    }
    if context.as_slice().len() > MOST_LEVELS {
        return Err(Stop::Memory);
    }
    moved(alloc, p, context, solution)
}

fn moved(alloc: Global, p: &Point, context: Tele, solution: &[Term]) -> Result<Point, Stop>
    requires low { are_low (tele_of context) ≡ true }
    requires few { length context ≤ most_levels }
    requires solution { AreOverSo (length context) (tele_of solution.now) }
    ensures answer { Gives point_of result (spec.bounded_point (spec.moved_point (point_of p.now) (tele_of context) (tele_of solution.now))) }
    ensures few { IfOk result (λ q. length q.context ≤ most_levels) }
{
    let goal = inst(alloc, solution, &p.goal)?;
    let substitution = inst_terms(alloc, solution, p.substitution.as_slice())?;
    let terms = inst_terms(alloc, solution, p.terms.as_slice())?;
    Ok(Point {
        context,
        goal,
        substitution,
        terms,
    })
}
