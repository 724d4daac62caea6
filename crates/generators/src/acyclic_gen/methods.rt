ghost use Rattle.std.specs.Prelude.{◌≡◌, ◌≤◌, ◌+◌, ◌∷◌, [], length, map};
ghost use Rattle.core_terms.specs.Answers.{Gives};
ghost use Rattle.core_terms.specs.Bounds.{most_height};
ghost use Rattle.core_terms.specs.Meanings.{tree_of};
ghost use Rattle.core_sig.specs.Shapes.{argument_shape, constructor_shape};
ghost use Rattle.generators.specs.acyclic_gen.Bounds.{IsNearClaim};
ghost use Rattle.generators.specs.acyclic_gen.Claims as spec;

use crate::acyclic_gen::carrier::Carrier;
use crate::acyclic_gen::claims::{Claim, claim_at};
use crate::acyclic_gen::point::{Head, Point};
use core_sig::{Arg, ArgKind, Constructor, arguments_over};
use core_terms::{Binder, MAX_HEIGHT, Run, Stop, Term, copy_whole, place};
use std::alloc::Global;

/// The claim about the variable with the level `argument` at all variables from the level `start` on.
fn claim_inside(
    alloc: Global,
    claim: Claim,
    q: Carrier,
    depth: u32,
    argument: u32,
    start: u32,
) -> Result<Term, Stop>
    requires claim { IsNearClaim claim }
    requires start { start ≤ 500000 }
    requires depth { depth ≤ 500000 }
    ensures { Gives tree_of result (Ok (spec.claim_inside claim q depth argument start)) }
{
    let b = Point {
        head: Head::Variable(argument),
        start,
        count: depth.saturating_sub(start),
    };
    claim_at(alloc, claim, q, depth, b)
}

/// The hypothesis for the argument with the level `argument`, whose inner arguments' levels begin with `start`; `count` of them
/// are left in `ty`.
fn hypothesis_from(
    alloc: Global,
    claim: Claim,
    q: Carrier,
    runs: &[Run],
    size: u32,
    depth: u32,
    argument: u32,
    start: u32,
    count: u32,
    ty: &Term,
) -> Result<Term, Stop>
    requires claim { IsNearClaim claim }
    requires start { start ≤ 500000 }
    requires size { size + count ≤ 500000 }
    requires depth { depth + count ≤ 500000 }
    ensures { Gives tree_of result (Ok (spec.hypothesis_from claim q runs.now size depth argument start count (tree_of ty.now))) }
{
    match ty {
        Term::Pi(domain, codomain) if count > 0 => {
            let domain = place(alloc, runs, size, depth, domain)?;
            let rest = hypothesis_from(
                alloc,
                claim,
                q,
                runs,
                size + 1,
                depth + 1,
                argument,
                start,
                count - 1,
                codomain,
            )?;
            Term::new_pi(alloc, domain, rest)
        }
        _ => claim_inside(alloc, claim, q, depth, argument, start),
    }
}

/// The hypothesis for argument `at` of a constructor, at a depth. It has the type `ty`, with `count` inner arguments. A type
/// with more than 2,000 of them stays as it is.
fn hypothesis(
    alloc: Global,
    claim: Claim,
    q: Carrier,
    first: u32,
    at: u32,
    depth: u32,
    count: u32,
    ty: &Term,
) -> Result<Term, Stop>
    requires claim { IsNearClaim claim }
    requires params { q.params ≤ most_height }
    requires first { first ≤ 100000 }
    requires at { at ≤ most_height }
    requires depth { depth ≤ 100000 }
    ensures { Gives tree_of result (Ok (spec.hypothesis claim q first at depth count (tree_of ty.now))) }
{
    if count > MAX_HEIGHT {
        return copy_whole(alloc, ty);
    }
    let runs = [(0, q.params), (first, at), (depth, count)];
    let size = q.params + at;
    hypothesis_from(
        alloc,
        claim,
        q,
        &runs,
        size,
        depth,
        first + at,
        depth,
        count,
        ty,
    )
}

/// The function with `end` over the hypotheses for arguments after `at` others, at a depth.
fn hypotheses_over(
    alloc: Global,
    claim: Claim,
    q: Carrier,
    first: u32,
    at: u32,
    depth: u32,
    args: &[Arg],
    end: Term,
) -> Result<Term, Stop>
    requires claim { IsNearClaim claim }
    requires params { q.params ≤ most_height }
    requires first { first ≤ 100000 }
    requires at { at + length args.now ≤ most_height }
    requires depth { depth + length args.now ≤ 100000 }
    ensures { Gives tree_of result (Ok (spec.hypotheses_over claim q first at depth (map argument_shape args.now) (tree_of end))) }
{
    match args {
        [] => Ok(end),
        [arg, rest @ ..] => match arg.kind {
            ArgKind::Plain => hypotheses_over(alloc, claim, q, first, at + 1, depth, rest, end),
            ArgKind::Recursive(count) => {
                let ty = hypothesis(alloc, claim, q, first, at, depth, count, &arg.ty)?;
                let body = hypotheses_over(alloc, claim, q, first, at + 1, depth + 1, rest, end)?;
                Term::new_lam(alloc, ty, body)
            }
        },
    }
}

/// The method with `end` after the arguments of a constructor and their hypotheses, at a depth.
pub fn method_over(
    alloc: Global,
    claim: Claim,
    q: Carrier,
    depth: u32,
    con: &Constructor,
    end: Term,
) -> Result<Term, Stop>
    requires claim { IsNearClaim claim }
    requires params { q.params ≤ most_height }
    requires few { length con.now.args ≤ most_height }
    requires depth { depth ≤ 50000 }
    ensures { Gives tree_of result (Ok (spec.method_over claim q depth (constructor_shape con.now) (tree_of end))) }
{
    let args = con.args.as_slice();
    let count = args.len() as u32;
    let end = hypotheses_over(alloc, claim, q, depth, 0, depth + count, args, end)?;
    let runs = [(0, q.params), (depth, count)];
    arguments_over(alloc, Binder::Function, &runs, q.params, depth, args, end)
}
