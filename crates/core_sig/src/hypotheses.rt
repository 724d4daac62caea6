ghost use Rattle.std.specs.Prelude.{◌≡◌, ◌≤◌, ◌+◌, ◌∷◌, [], length, map};
ghost use Rattle.core_terms.specs.Answers.{Gives};
ghost use Rattle.core_terms.specs.Bounds.{most_height};
ghost use Rattle.core_terms.specs.Meanings.{tree_of};
ghost use Rattle.core_sig.specs.ByLevels as spec;
ghost use Rattle.core_sig.specs.Shapes.{argument_shape, constructor_shape, recursive_count};

use crate::{Arg, ArgKind, Constructor};
use core_terms::{
    Binder, MAX_HEIGHT, Run, Stop, Term, applied_to_places, applied_to_run, bind, copy_whole,
    place, variable,
};
use std::alloc::Global;

/// `head` applied to the last `count` arguments of a term of a record, placed in the runs.
pub fn applied_to_targets(
    alloc: Global,
    runs: &[Run],
    size: u32,
    depth: u32,
    head: Term,
    count: u32,
    t: &Term,
) -> Result<Term, Stop>
    requires { depth ≤ 1000000 }
    ensures { Gives tree_of result (Ok (spec.applied_to_targets runs.now size depth (tree_of head) count (tree_of t.now))) }
{
    match t {
        Term::App(function, target) if count > 0 => {
            let f = applied_to_targets(alloc, runs, size, depth, head, count - 1, function)?;
            Term::new_app(alloc, f, place(alloc, runs, size, depth, target)?)
        }
        _ => Ok(head),
    }
}

/// The place of a hypothesis: the levels of the motive, of its argument and of the first inner argument, and how many indices
/// the family has.
#[derive(Clone, Copy)]
struct Site {
    motive: u32,
    argument: u32,
    start: u32,
    indices: u32,
}

/// The hypothesis for an argument of the type `ty` with `count` inner arguments.
fn hypothesis_from(
    alloc: Global,
    runs: &[Run],
    size: u32,
    depth: u32,
    at: Site,
    count: u32,
    ty: &Term,
) -> Result<Term, Stop>
    requires size { size + count ≤ 1000000 }
    requires depth { depth + count ≤ 1000000 }
    ensures { Gives tree_of result (Ok (spec.hypothesis_from runs.now size depth at.motive at.argument at.start at.indices count (tree_of ty.now))) }
{
    match ty {
        Term::Pi(domain, codomain) if count > 0 => {
            let domain = place(alloc, runs, size, depth, domain)?;
            let rest = hypothesis_from(alloc, runs, size + 1, depth + 1, at, count - 1, codomain)?;
            Term::new_pi(alloc, domain, rest)
        }
        _ => {
            let motive = variable(depth, at.motive);
            let motive = applied_to_targets(alloc, runs, size, depth, motive, at.indices, ty)?;
            let inner = depth.saturating_sub(at.start);
            let argument = variable(depth, at.argument);
            let argument = applied_to_run(alloc, argument, depth, at.start, inner)?;
            Term::new_app(alloc, motive, argument)
        }
    }
}

/// The motive of an eliminator: its level, and how many parameters and indices the family has.
#[derive(Clone, Copy)]
pub struct Motive {
    pub level: u32,
    pub params: u32,
    pub indices: u32,
}

/// The hypothesis for argument `at` of a constructor, at a depth. It has the type `ty`, with `count` inner arguments. A type
/// with more than 2,000 of them stays as it is.
pub fn hypothesis_type(
    alloc: Global,
    motive: Motive,
    first: u32,
    at: u32,
    depth: u32,
    count: u32,
    ty: &Term,
) -> Result<Term, Stop>
    requires params { motive.params ≤ most_height }
    requires first { first ≤ 100000 }
    requires at { at ≤ most_height }
    requires depth { depth ≤ 100000 }
    ensures { Gives tree_of result (Ok (spec.hypothesis_type motive.params motive.indices motive.level first at depth count (tree_of ty.now))) }
{
    if count > MAX_HEIGHT {
        return copy_whole(alloc, ty);
    }
    let runs = [(0, motive.params), (first, at), (depth, count)];
    let site = Site {
        motive: motive.level,
        argument: first + at,
        start: depth,
        indices: motive.indices,
    };
    hypothesis_from(alloc, &runs, motive.params + at, depth, site, count, ty)
}

/// Binds the hypotheses for arguments after `at` others around `end`, at a depth.
pub fn hypotheses_over(
    alloc: Global,
    binder: Binder,
    motive: Motive,
    first: u32,
    at: u32,
    depth: u32,
    args: &[Arg],
    end: Term,
) -> Result<Term, Stop>
    requires params { motive.params ≤ most_height }
    requires first { first ≤ 100000 }
    requires at { at + length args.now ≤ most_height }
    requires depth { depth + length args.now ≤ 100000 }
    ensures { Gives tree_of result (Ok (spec.hypotheses_over binder motive.params motive.indices motive.level first at depth (map argument_shape args.now) (tree_of end))) }
{
    match args {
        [] => Ok(end),
        [arg, rest @ ..] => match arg.kind {
            ArgKind::Plain => hypotheses_over(
                alloc,
                binder,
                motive,
                first,
                at + 1,
                depth,
                rest,
                end,
            ),
            ArgKind::Recursive(count) => {
                let ty = hypothesis_type(alloc, motive, first, at, depth, count, &arg.ty)?;
                let rest = hypotheses_over(
                    alloc,
                    binder,
                    motive,
                    first,
                    at + 1,
                    depth + 1,
                    rest,
                    end,
                )?;
                bind(alloc, binder, ty, rest)
            }
        },
    }
}

/// The motive at a constructor's targets and at the constructor with its arguments, at a depth.
pub fn conclusion(
    alloc: Global,
    fam: u32,
    motive: Motive,
    number: u32,
    first: u32,
    depth: u32,
    con: &Constructor,
) -> Result<Term, Stop>
    requires params { motive.params ≤ most_height }
    requires first { first ≤ 100000 }
    requires few { length con.now.args ≤ most_height }
    requires depth { depth ≤ 1000000 }
    ensures { Gives tree_of result (Ok (spec.conclusion fam motive.params motive.level number first depth (constructor_shape con.now))) }
{
    let count = con.args.as_slice().len() as u32;
    let runs = [(0, motive.params), (first, count)];
    let targets = con.targets.as_slice();
    let head = variable(depth, motive.level);
    let size = motive.params + count;
    let goal = applied_to_places(alloc, head, &runs, size, depth, targets)?;
    let head = applied_to_run(alloc, Term::Con(fam, number), depth, 0, motive.params)?;
    let scrutinee = applied_to_run(alloc, head, depth, first, count)?;
    Term::new_app(alloc, goal, scrutinee)
}
