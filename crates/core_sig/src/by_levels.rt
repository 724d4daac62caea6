ghost use Rattle.std.specs.Prelude.{◌≡◌, ◌≤◌, ◌+◌, ◌∷◌, [], length, map};
ghost use Rattle.core_terms.specs.Answers.{Gives};
ghost use Rattle.core_terms.specs.Levels as level;
ghost use Rattle.core_terms.specs.Meanings.{tree_of};
ghost use Rattle.core_sig.specs.ByLevels as spec;
ghost use Rattle.core_sig.specs.Shapes.{IsFew, argument_shape, shape_of, types_of};

use crate::{Arg, Family};
use core_terms::{Binder, Run, Stop, Term, applied_to_run, bind, place, variable};
use std::alloc::Global;

/// Binds the types of arguments or indices of a record around `end`, at a depth.
pub fn arguments_over(
    alloc: Global,
    binder: Binder,
    runs: &[Run],
    size: u32,
    depth: u32,
    args: &[Arg],
    end: Term,
) -> Result<Term, Stop>
    requires size { size + length args.now ≤ 1000000 }
    requires depth { depth + length args.now ≤ 1000000 }
    ensures { Gives tree_of result (Ok (level.over binder runs.now size depth (types_of (map argument_shape args.now)) (tree_of end))) }
{
    match args {
        [] => Ok(end),
        [arg, rest @ ..] => {
            let ty = place(alloc, runs, size, depth, &arg.ty)?;
            let rest = arguments_over(alloc, binder, runs, size + 1, depth + 1, rest, end)?;
            bind(alloc, binder, ty, rest)
        }
    }
}

/// The family at its parameters, and at `count` indices that have the levels from `start` on.
pub fn family_at(
    alloc: Global,
    fam: u32,
    params: u32,
    depth: u32,
    start: u32,
    count: u32,
) -> Result<Term, Stop>
    requires { start + count ≤ 1000000 }
    ensures { Gives tree_of result (Ok (spec.family_at fam params depth start count)) }
{
    let head = applied_to_run(alloc, Term::Fam(fam), depth, 0, params)?;
    applied_to_run(alloc, head, depth, start, count)
}

/// The type of a motive at a depth: (I) -> D p I -> Type m.
pub fn motive_type(alloc: Global, fam: u32, f: &Family, m: u8, depth: u32) -> Result<Term, Stop>
    requires few { IsFew (shape_of f.now) }
    requires depth { depth ≤ 100000 }
    ensures { Gives tree_of result (Ok (spec.motive_type fam (shape_of f.now) m depth)) }
{
    let params = f.params.as_slice().len() as u32;
    let indices = f.indices.as_slice();
    let count = indices.len() as u32;
    let domain = family_at(alloc, fam, params, depth + count, depth, count)?;
    let end = Term::new_pi(alloc, domain, Term::Sort(m))?;
    let runs = [(0, params), (depth, count)];
    arguments_over(alloc, Binder::Product, &runs, params, depth, indices, end)
}

/// The goal of an eliminator, at a depth: (I) -> (x : D p I) -> P I x, where P has the level `motive`.
pub fn goal_type(alloc: Global, fam: u32, f: &Family, motive: u32, depth: u32) -> Result<Term, Stop>
    requires few { IsFew (shape_of f.now) }
    requires depth { depth ≤ 100000 }
    ensures { Gives tree_of result (Ok (spec.goal_type fam (shape_of f.now) motive depth)) }
{
    let params = f.params.as_slice().len() as u32;
    let indices = f.indices.as_slice();
    let count = indices.len() as u32;
    let inside = depth + count;
    let domain = family_at(alloc, fam, params, inside, depth, count)?;
    let goal = applied_to_run(
        alloc,
        variable(inside + 1, motive),
        inside + 1,
        depth,
        count,
    )?;
    let goal = Term::new_app(alloc, goal, variable(inside + 1, inside))?;
    let end = Term::new_pi(alloc, domain, goal)?;
    let runs = [(0, params), (depth, count)];
    arguments_over(alloc, Binder::Product, &runs, params, depth, indices, end)
}
