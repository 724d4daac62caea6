//! The sides of an equation.
ghost use Rattle.std.specs.Prelude.{◌≤◌, ◌+◌, Ok, length, map};
ghost use Rattle.core_terms.specs.Answers.{Gives};
ghost use Rattle.core_terms.specs.Meanings.{tree_of};
ghost use Rattle.core_sig.specs.Shapes.{argument_shape};
ghost use Rattle.mutual_pack.specs.Equations as spec;
ghost use Rattle.mutual_pack.specs.Fitting.{IsNear};

use crate::hypotheses::{at_inner, member_in};
use crate::numbers::number_at;
use crate::packed_family::PackedFamily;
use crate::telescopes::{constructor_at, induction_size};
use core_sig::{Arg, ArgKind};
use core_terms::{MAX_HEIGHT, Run, Stop, Term, applied_to_run, copy_whole, place, variable};
use std::alloc::Global;

/// `Mi!ind p P ms`, at a depth.
fn induction_at(
    alloc: Global,
    q: PackedFamily,
    inductions: &[u32],
    i: u32,
    depth: u32,
) -> Result<Term, Stop>
    requires near { IsNear q }
    ensures { Gives tree_of result (Ok (spec.induction_at q inductions.now i depth)) }
{
    let head = Term::Const(number_at(inductions, i));
    applied_to_run(alloc, head, depth, 0, induction_size(q))
}

/// The recursion at the argument with the level `r`, of the type `ty` with `count` inner arguments, at a depth.
fn recursion_from(
    alloc: Global,
    q: PackedFamily,
    inductions: &[u32],
    runs: &[Run],
    size: u32,
    depth: u32,
    r: u32,
    start: u32,
    count: u32,
    ty: &Term,
) -> Result<Term, Stop>
    requires near { IsNear q }
    requires size { size + count ≤ 1000000 }
    requires depth { depth + count ≤ 1000000 }
    requires start { start ≤ 1000000 }
    ensures { Gives tree_of result (Ok (spec.recursion_from q inductions.now runs.now size depth r start count (tree_of ty.now))) }
{
    match ty {
        Term::Pi(a, b) if count > 0 => {
            let a = place(alloc, runs, size, depth, a);
            let count = count - 1;
            let b = recursion_from(
                alloc,
                q,
                inductions,
                runs,
                size + 1,
                depth + 1,
                r,
                start,
                count,
                b,
            );
            Term::function_of(alloc, a, b)
        }
        _ => {
            let head = induction_at(alloc, q, inductions, member_in(ty), depth);
            Term::application_of(alloc, head, at_inner(alloc, r, start, depth))
        }
    }
}

/// That for argument `at` of a constructor whose arguments' levels begin with `first`, at a depth. A type with more than 2,000 inner
/// arguments stays as it is.
fn recursion_at(
    alloc: Global,
    q: PackedFamily,
    inductions: &[u32],
    first: u32,
    at: u32,
    depth: u32,
    count: u32,
    ty: &Term,
) -> Result<Term, Stop>
    requires near { IsNear q }
    requires first { first ≤ 100000 }
    requires at { at ≤ 2000 }
    requires depth { depth ≤ 100000 }
    ensures { Gives tree_of result (Ok (spec.recursion_at q inductions.now first at depth count (tree_of ty.now))) }
{
    if count > MAX_HEIGHT {
        return copy_whole(alloc, ty);
    }
    let runs = [(0, q.params), (first, at), (depth, count)];
    let size = q.params + at;
    let r = first + at;
    recursion_from(
        alloc, q, inductions, &runs, size, depth, r, depth, count, ty,
    )
}

/// `head` applied to that for argument `at`, where it is recursive.
fn applied_to_recursion(
    alloc: Global,
    q: PackedFamily,
    inductions: &[u32],
    first: u32,
    at: u32,
    depth: u32,
    head: Term,
    arg: &Arg,
) -> Result<Term, Stop>
    requires near { IsNear q }
    requires first { first ≤ 100000 }
    requires at { at ≤ 2000 }
    requires depth { depth ≤ 100000 }
    ensures { Gives tree_of result (Ok (spec.applied_to_recursion q inductions.now first at depth (tree_of head) (argument_shape arg.now))) }
{
    match arg.kind {
        ArgKind::Plain => Ok(head),
        ArgKind::Recursive(count) => {
            let value = recursion_at(alloc, q, inductions, first, at, depth, count, &arg.ty);
            Term::application_of(alloc, Ok(head), value)
        }
    }
}

/// `head` applied to that for each recursive one among arguments after `at` others.
fn applied_to_recursions(
    alloc: Global,
    q: PackedFamily,
    inductions: &[u32],
    first: u32,
    at: u32,
    depth: u32,
    head: Term,
    args: &[Arg],
) -> Result<Term, Stop>
    requires near { IsNear q }
    requires first { first ≤ 100000 }
    requires at { at + length args.now ≤ 2000 }
    requires depth { depth ≤ 100000 }
    ensures { Gives tree_of result (Ok (spec.applied_to_recursions q inductions.now first at depth (tree_of head) (map argument_shape args.now))) }
{
    match args {
        [] => Ok(head),
        [arg, rest @ ..] => {
            let head = applied_to_recursion(alloc, q, inductions, first, at, depth, head, arg)?;
            applied_to_recursions(alloc, q, inductions, first, at + 1, depth, head, rest)
        }
    }
}

/// `Mk!ind p P ms (c p a)`, for the constructor with a number and `count` arguments.
pub fn left_side(
    alloc: Global,
    q: PackedFamily,
    inductions: &[u32],
    k: u32,
    number: u32,
    count: u32,
) -> Result<Term, Stop>
    requires near { IsNear q }
    requires count { count ≤ 2000 }
    ensures { Gives tree_of result (Ok (spec.left_side q inductions.now k number count)) }
{
    let x = induction_size(q);
    let head = induction_at(alloc, q, inductions, k, x + count);
    let whole = constructor_at(alloc, q, number, x, count, x + count);
    Term::application_of(alloc, head, whole)
}

/// `m_c a h`, for the constructor with a number and the arguments.
pub fn right_side(
    alloc: Global,
    q: PackedFamily,
    inductions: &[u32],
    number: u32,
    args: &[Arg],
) -> Result<Term, Stop>
    requires near { IsNear q }
    requires number { number ≤ 4294000000 }
    requires few { length args.now ≤ 2000 }
    ensures { Gives tree_of result (Ok (spec.right_side q inductions.now number (map argument_shape args.now))) }
{
    let x = induction_size(q);
    let count = args.len() as u32;
    let depth = x + count;
    let head = variable(depth, q.params + q.members + number);
    let head = applied_to_run(alloc, head, depth, x, count)?;
    applied_to_recursions(alloc, q, inductions, x, 0, depth, head, args)
}
