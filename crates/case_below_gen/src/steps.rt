ghost use Rattle.std.specs.Prelude.{◌≡◌, ◌≤◌, ◌+◌};
ghost use Rattle.core_terms.specs.Answers.{Gives};
ghost use Rattle.core_terms.specs.Bounds.{most_height};
ghost use Rattle.core_terms.specs.Meanings.{tree_of};
ghost use Rattle.core_sig.specs.Shapes.{shape_of};
ghost use Rattle.case_below_gen.specs.CourseEntries as spec;
ghost use Rattle.case_below_gen.specs.Projections.{HasFewBinders};

use crate::binding::{at_scrutinee, bound_of, closed_over, scrutinee_over};
use crate::components::{Course, below_at, pair_of_answers};
use core_sig::Family;
use core_terms::{Binder, Stop, Term, variable};
use std::alloc::Global;

/// Binds the parameters, the motive, the step, the indices and the scrutinee around `end`.
pub fn step_over(
    alloc: Global,
    binder: Binder,
    fam: u32,
    f: &Family,
    q: Course,
    end: Term,
) -> Result<Term, Stop>
    requires few { HasFewBinders (shape_of f.now) }
    requires params { q.params ≤ most_height }
    requires indices { q.indices ≤ most_height }
    ensures { Gives tree_of result (Ok (spec.step_over binder fam (shape_of f.now) q (tree_of end))) }
{
    let end = scrutinee_over(alloc, binder, fam, f, q.params + 2, end);
    let step = step_type(alloc, fam, f, q, q.params + 1);
    let end = bound_of(alloc, binder, step, end);
    let motive = scrutinee_over(alloc, Binder::Product, fam, f, q.params, Term::Sort(q.m));
    let end = bound_of(alloc, binder, motive, end)?;
    closed_over(alloc, binder, f.params.as_slice(), end)
}

/// The type of a step, at a depth.
fn step_type(alloc: Global, fam: u32, f: &Family, q: Course, depth: u32) -> Result<Term, Stop>
    requires few { HasFewBinders (shape_of f.now) }
    requires indices { q.indices ≤ most_height }
    requires depth { depth ≤ 20000 }
    ensures { Gives tree_of result (Ok (spec.step_type fam (shape_of f.now) q depth)) }
{
    let inside = depth + q.indices + 1;
    let below = below_at(alloc, q, inside)?;
    let below = at_scrutinee(alloc, inside, depth, q.indices, below);
    let motive = variable(inside + 1, q.params);
    let goal = at_scrutinee(alloc, inside + 1, depth, q.indices, motive);
    let end = Term::product_of(alloc, below, goal)?;
    scrutinee_over(alloc, Binder::Product, fam, f, depth, end)
}

/// The pair of the motive and `D!below.m` at the indices, whose levels begin with `start`, and at the scrutinee.
pub fn aux_goal(alloc: Global, q: Course, depth: u32, start: u32) -> Result<Term, Stop>
    requires { start + q.indices ≤ 1000000 }
    ensures { Gives tree_of result (Ok (spec.aux_goal q depth start)) }
{
    let below = below_at(alloc, q, depth)?;
    let motive = variable(depth, q.params);
    let first = at_scrutinee(alloc, depth, start, q.indices, motive);
    let second = at_scrutinee(alloc, depth, start, q.indices, below);
    pair_of_answers(alloc, q.m, first, second)
}
