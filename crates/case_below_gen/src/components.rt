ghost use Rattle.std.specs.Prelude.{◌≡◌, ◌≤◌, ◌+◌, ◌∷◌, [], length, map};
ghost use Rattle.core_terms.specs.Answered.{of_two, shown};
ghost use Rattle.core_terms.specs.Answers.{Gives};
ghost use Rattle.core_terms.specs.Bounds.{most_height};
ghost use Rattle.core_terms.specs.Meanings.{tree_of};
ghost use Rattle.core_sig.specs.Shapes.{argument_shape};
ghost use Rattle.case_below_gen.specs.Components as spec;

use core_sig::{Arg, ArgKind, applied_to_targets, pair, unit};
use core_terms::{MAX_HEIGHT, Run, Stop, Term, applied_to_run, copy_whole, place, variable};
use std::alloc::Global;

/// Course-of-values recursion into `Type m`: how many parameters and indices the family has, and the number of the constant
/// `D!below.m`. The motive comes after the parameters.
#[derive(Clone, Copy)]
pub struct Course {
    pub m: u8,
    pub params: u32,
    pub indices: u32,
    pub below: u32,
}

/// The end after the inner arguments of a recursive argument r: `Type m`, or the motive at r beside its hypothesis, or beside
/// `D!below.m` at r.
#[derive(Clone, Copy, Debug, PartialEq, Eq)]
pub enum Ending {
    Level,
    Beside,
    Folded,
}

/// `Pair.m A B`.
pub fn pair_of(alloc: Global, m: u8, first: Term, second: Term) -> Result<Term, Stop>
    ensures { Gives tree_of result (Ok (spec.pair_of m (tree_of first) (tree_of second))) }
{
    pair_of_answers(alloc, m, Ok(first), Ok(second))
}

/// `Pair.m A B` of two answers.
pub fn pair_of_answers(
    alloc: Global,
    m: u8,
    first: Result<Term, Stop>,
    second: Result<Term, Stop>,
) -> Result<Term, Stop>
    ensures { Gives tree_of result (of_two (spec.pair_of m) (shown first) (shown second)) }
{
    let head = Term::application_of(alloc, Ok(Term::Fam(pair(m))), first);
    Term::application_of(alloc, head, second)
}

/// `pair.m A B a b`.
pub fn pair_with(
    alloc: Global,
    m: u8,
    first: Term,
    second: Term,
    left: Term,
    right: Term,
) -> Result<Term, Stop>
    ensures { Gives tree_of result (Ok (spec.pair_with m (tree_of first) (tree_of second) (tree_of left) (tree_of right))) }
{
    pair_with_answers(alloc, m, Ok(first), Ok(second), Ok(left), Ok(right))
}

/// `pair.m A B a b` of four answers.
pub fn pair_with_answers(
    alloc: Global,
    m: u8,
    first: Result<Term, Stop>,
    second: Result<Term, Stop>,
    left: Result<Term, Stop>,
    right: Result<Term, Stop>,
) -> Result<Term, Stop>
    ensures { Gives tree_of result (spec.pair_with_answers m (shown first) (shown second) (shown left) (shown right)) }
{
    let head = Term::application_of(alloc, Ok(Term::Con(pair(m), 0)), first);
    let head = Term::application_of(alloc, head, second);
    let head = Term::application_of(alloc, head, left);
    Term::application_of(alloc, head, right)
}

/// `D!below.m p P`.
pub fn below_at(alloc: Global, q: Course, depth: u32) -> Result<Term, Stop>
    ensures { Gives tree_of result (Ok (spec.below_at q depth)) }
{
    let head = applied_to_run(alloc, Term::Const(q.below), depth, 0, q.params)?;
    Term::new_app(alloc, head, variable(depth, q.params))
}

/// The variable with a level at the inner arguments, whose levels begin with `start`.
fn at_inner(alloc: Global, depth: u32, level: u32, start: u32) -> Result<Term, Stop>
    requires start { start ≤ 100000 }
    requires depth { depth ≤ 1000000 }
    ensures { Gives tree_of result (Ok (spec.at_inner depth level start)) }
{
    let inner = depth.saturating_sub(start);
    applied_to_run(alloc, variable(depth, level), depth, start, inner)
}

/// Where a component is: the levels of its argument, of its first inner argument and of its hypothesis.
#[derive(Clone, Copy)]
struct Site {
    argument: u32,
    start: u32,
    hypothesis: u32,
}

/// `head` at the targets and at the argument, whose type ends in `t`.
fn at_argument(
    alloc: Global,
    runs: &[Run],
    size: u32,
    depth: u32,
    head: Term,
    at: Site,
    indices: u32,
    t: &Term,
) -> Result<Term, Stop>
    requires start { at.start ≤ 100000 }
    requires depth { depth ≤ 1000000 }
    ensures { Gives tree_of result (Ok (spec.at_argument runs.now size depth (tree_of head) at.argument at.start indices (tree_of t.now))) }
{
    let head = applied_to_targets(alloc, runs, size, depth, head, indices, t);
    let argument = at_inner(alloc, depth, at.argument, at.start);
    Term::application_of(alloc, head, argument)
}

fn behind_inner(
    alloc: Global,
    e: Ending,
    q: Course,
    runs: &[Run],
    size: u32,
    depth: u32,
    at: Site,
    t: &Term,
) -> Result<Term, Stop>
    requires start { at.start ≤ 100000 }
    requires depth { depth ≤ 1000000 }
    ensures { Gives tree_of result (Ok (spec.behind_inner e q runs.now size depth at.argument at.start at.hypothesis (tree_of t.now))) }
{
    match e {
        Ending::Level => Ok(Term::Sort(q.m)),
        Ending::Beside => {
            let motive = variable(depth, q.params);
            let first = at_argument(alloc, runs, size, depth, motive, at, q.indices, t);
            let hypothesis = at_inner(alloc, depth, at.hypothesis, at.start);
            pair_of_answers(alloc, q.m, first, hypothesis)
        }
        Ending::Folded => {
            let below = below_at(alloc, q, depth)?;
            let motive = variable(depth, q.params);
            let first = at_argument(alloc, runs, size, depth, motive, at, q.indices, t);
            let second = at_argument(alloc, runs, size, depth, below, at, q.indices, t);
            pair_of_answers(alloc, q.m, first, second)
        }
    }
}

fn component_from(
    alloc: Global,
    e: Ending,
    q: Course,
    runs: &[Run],
    size: u32,
    depth: u32,
    at: Site,
    count: u32,
    ty: &Term,
) -> Result<Term, Stop>
    requires start { at.start ≤ 100000 }
    requires size { size + count ≤ 1000000 }
    requires depth { depth + count ≤ 1000000 }
    ensures { Gives tree_of result (Ok (spec.component_from e q runs.now size depth at.argument at.start at.hypothesis count (tree_of ty.now))) }
{
    match ty {
        Term::Pi(domain, codomain) if count > 0 => {
            let domain = place(alloc, runs, size, depth, domain);
            let rest = component_from(
                alloc,
                e,
                q,
                runs,
                size + 1,
                depth + 1,
                at,
                count - 1,
                codomain,
            );
            Term::product_of(alloc, domain, rest)
        }
        _ => behind_inner(alloc, e, q, runs, size, depth, at, ty),
    }
}

/// The component for argument `at` of a constructor, at a depth. It has the type `ty`, with `count` inner arguments. A type
/// with more than 2,000 of them stays as it is.
pub fn component(
    alloc: Global,
    e: Ending,
    q: Course,
    first: u32,
    at: u32,
    depth: u32,
    hypothesis: u32,
    count: u32,
    ty: &Term,
) -> Result<Term, Stop>
    requires params { q.params ≤ most_height }
    requires first { first ≤ 100000 }
    requires at { at ≤ most_height }
    requires depth { depth ≤ 100000 }
    ensures { Gives tree_of result (Ok (spec.component e q first at depth hypothesis count (tree_of ty.now))) }
{
    if count > MAX_HEIGHT {
        return copy_whole(alloc, ty);
    }
    let runs = [(0, q.params), (first, at), (depth, count)];
    let site = Site {
        argument: first + at,
        start: depth,
        hypothesis,
    };
    component_from(alloc, e, q, &runs, q.params + at, depth, site, count, ty)
}

/// The function with `end` over hypotheses of the types of components, at a depth.
pub fn components_over(
    alloc: Global,
    e: Ending,
    q: Course,
    first: u32,
    at: u32,
    depth: u32,
    args: &[Arg],
    end: Term,
) -> Result<Term, Stop>
    requires params { q.params ≤ most_height }
    requires first { first ≤ 100000 }
    requires at { at + length args.now ≤ most_height }
    requires depth { depth + length args.now ≤ 100000 }
    ensures { Gives tree_of result (Ok (spec.components_over e q first at depth (map argument_shape args.now) (tree_of end))) }
{
    match args {
        [] => Ok(end),
        [arg, rest @ ..] => match arg.kind {
            ArgKind::Plain => components_over(alloc, e, q, first, at + 1, depth, rest, end),
            ArgKind::Recursive(count) => {
                let ty = component(alloc, e, q, first, at, depth, 0, count, &arg.ty);
                let rest = components_over(alloc, e, q, first, at + 1, depth + 1, rest, end);
                Term::function_of(alloc, ty, rest)
            }
        },
    }
}

/// The type of the tuple of components, at a depth.
pub fn tuple_type(
    alloc: Global,
    e: Ending,
    q: Course,
    first: u32,
    at: u32,
    depth: u32,
    hypothesis: u32,
    args: &[Arg],
) -> Result<Term, Stop>
    requires params { q.params ≤ most_height }
    requires first { first ≤ 100000 }
    requires at { at + length args.now ≤ most_height }
    requires depth { depth ≤ 100000 }
    requires hypothesis { hypothesis + length args.now ≤ 1000000 }
    ensures { Gives tree_of result (Ok (spec.tuple_type e q first at depth hypothesis (map argument_shape args.now))) }
{
    match args {
        [] => Ok(Term::Fam(unit(q.m))),
        [arg, rest @ ..] => match arg.kind {
            ArgKind::Plain => tuple_type(alloc, e, q, first, at + 1, depth, hypothesis, rest),
            ArgKind::Recursive(count) => {
                let ty = component(alloc, e, q, first, at, depth, hypothesis, count, &arg.ty);
                let rest = tuple_type(alloc, e, q, first, at + 1, depth, hypothesis + 1, rest);
                pair_of_answers(alloc, q.m, ty, rest)
            }
        },
    }
}

/// The tuple of the hypotheses, whose types are the folded components, at a depth.
pub fn tuple(
    alloc: Global,
    q: Course,
    first: u32,
    at: u32,
    depth: u32,
    hypothesis: u32,
    args: &[Arg],
) -> Result<Term, Stop>
    requires params { q.params ≤ most_height }
    requires first { first ≤ 100000 }
    requires at { at + length args.now ≤ most_height }
    requires depth { depth ≤ 100000 }
    requires hypothesis { hypothesis + length args.now ≤ 1000000 }
    ensures { Gives tree_of result (Ok (spec.tuple q first at depth hypothesis (map argument_shape args.now))) }
{
    match args {
        [] => Ok(Term::Con(unit(q.m), 0)),
        [arg, rest @ ..] => match arg.kind {
            ArgKind::Plain => tuple(alloc, q, first, at + 1, depth, hypothesis, rest),
            ArgKind::Recursive(count) => {
                let e = Ending::Folded;
                let ty = component(alloc, e, q, first, at, depth, hypothesis, count, &arg.ty);
                let behind = tuple_type(alloc, e, q, first, at + 1, depth, hypothesis + 1, rest);
                let value = Ok(variable(depth, hypothesis));
                let others = tuple(alloc, q, first, at + 1, depth, hypothesis + 1, rest);
                pair_with_answers(alloc, q.m, ty, behind, value, others)
            }
        },
    }
}
