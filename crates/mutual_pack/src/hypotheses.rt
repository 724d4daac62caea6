//! Types of motives and of hypotheses.
ghost use Rattle.std.specs.Prelude.{◌≡◌, ◌≤◌, ◌<◌, ◌+◌, Ok, length, map};
ghost use Rattle.core_terms.specs.Answers.{Gives};
ghost use Rattle.core_terms.specs.Meanings.{tree_of};
ghost use Rattle.core_sig.specs.Shapes.{argument_shape};
ghost use Rattle.mutual_pack.specs.Fitting.{IsNear};
ghost use Rattle.mutual_pack.specs.Inductions as spec;

use crate::packed_family::PackedFamily;
use core_sig::{Arg, ArgKind};
use core_terms::{MAX_HEIGHT, Run, Stop, Term, applied_to_run, copy_whole, place, variable};
use std::alloc::Global;

/// `Mk p`, for member k, counted from 0, at a depth.
pub fn member_type(alloc: Global, q: PackedFamily, k: u32, depth: u32) -> Result<Term, Stop>
    requires near { IsNear q }
    requires member { k < 2000 }
    ensures { Gives tree_of result (Ok (spec.member_type q k depth)) }
{
    applied_to_run(alloc, Term::Const(q.tag + 2 + k), depth, 0, q.params)
}

/// The motive of member k, at a depth.
pub fn motive(q: PackedFamily, k: u32, depth: u32) -> Term
    ensures { tree_of result ≡ spec.motive q k depth }
{
    let level = q.params as u64 + k as u64;
    Term::Var((depth as u64).saturating_sub(level + 1) as u32)
}

/// The member i of a type `S p ti`.
pub fn member_in(t: &Term) -> u32
    ensures { result ≡ spec.member_in (tree_of t.now) }
{
    match t {
        Term::App(_, tag) => constructor_in(tag),
        _ => 0,
    }
}

fn constructor_in(t: &Term) -> u32
    ensures { result ≡ spec.constructor_in (tree_of t.now) }
{
    match t {
        Term::Con(_, i) => *i,
        _ => 0,
    }
}

/// The argument with the level `r` at inner arguments, whose levels begin with `start`.
pub fn at_inner(alloc: Global, r: u32, start: u32, depth: u32) -> Result<Term, Stop>
    requires start { start ≤ 1000000 }
    requires depth { depth ≤ 1000000 }
    ensures { Gives tree_of result (Ok (spec.at_inner r start depth)) }
{
    let count = depth.saturating_sub(start);
    applied_to_run(alloc, variable(depth, r), depth, start, count)
}

/// The hypothesis for the argument with the level `r`, of the type `ty` with `count` inner arguments, at a depth.
fn hypothesis_from(
    alloc: Global,
    q: PackedFamily,
    runs: &[Run],
    size: u32,
    depth: u32,
    r: u32,
    start: u32,
    count: u32,
    ty: &Term,
) -> Result<Term, Stop>
    requires size { size + count ≤ 1000000 }
    requires depth { depth + count ≤ 1000000 }
    requires start { start ≤ 1000000 }
    ensures { Gives tree_of result (Ok (spec.hypothesis_from q runs.now size depth r start count (tree_of ty.now))) }
{
    match ty {
        Term::Pi(a, b) if count > 0 => {
            let a = place(alloc, runs, size, depth, a)?;
            let b = hypothesis_from(alloc, q, runs, size + 1, depth + 1, r, start, count - 1, b)?;
            Term::new_pi(alloc, a, b)
        }
        _ => {
            let argument = at_inner(alloc, r, start, depth)?;
            Term::new_app(alloc, motive(q, member_in(ty), depth), argument)
        }
    }
}

/// The hypothesis for argument `at` of a constructor whose arguments' levels begin with `first`, at a depth. A type with more than 2,000
/// inner arguments stays as it is.
fn hypothesis_type(
    alloc: Global,
    q: PackedFamily,
    first: u32,
    at: u32,
    depth: u32,
    count: u32,
    ty: &Term,
) -> Result<Term, Stop>
    requires near { IsNear q }
    requires first { first ≤ 100000 }
    requires at { at ≤ 2000 }
    requires depth { depth ≤ 100000 }
    ensures { Gives tree_of result (Ok (spec.hypothesis_type q first at depth count (tree_of ty.now))) }
{
    if count > MAX_HEIGHT {
        return copy_whole(alloc, ty);
    }
    let runs = [(0, q.params), (first, at), (depth, count)];
    let size = q.params + at;
    hypothesis_from(alloc, q, &runs, size, depth, first + at, depth, count, ty)
}

/// Binds the hypotheses for arguments after `at` others around `end`, at a depth.
pub fn hypotheses_over(
    alloc: Global,
    q: PackedFamily,
    first: u32,
    at: u32,
    depth: u32,
    args: &[Arg],
    end: Term,
) -> Result<Term, Stop>
    requires near { IsNear q }
    requires first { first ≤ 100000 }
    requires at { at + length args.now ≤ 2000 }
    requires depth { depth + length args.now ≤ 100000 }
    ensures { Gives tree_of result (Ok (spec.hypotheses_over q first at depth (map argument_shape args.now) (tree_of end))) }
{
    match args {
        [] => Ok(end),
        [arg, rest @ ..] => match arg.kind {
            ArgKind::Plain => hypotheses_over(alloc, q, first, at + 1, depth, rest, end),
            ArgKind::Recursive(count) => {
                let end = hypotheses_over(alloc, q, first, at + 1, depth + 1, rest, end);
                let domain = hypothesis_type(alloc, q, first, at, depth, count, &arg.ty);
                Term::product_of(alloc, domain, end)
            }
        },
    }
}
