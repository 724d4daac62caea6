ghost use Rattle.std.specs.Prelude.{◌≡◌, ◌≤◌, ◌<◌, ◌+◌, length, map};
ghost use Rattle.core_terms.specs.Answers.{Gives};
ghost use Rattle.core_terms.specs.Levels.{variable};
ghost use Rattle.core_terms.specs.Meanings.{tree_of};
ghost use Rattle.core_sig.specs.Shapes.{argument_shape};
ghost use Rattle.theory.specs.Terms as tree;
ghost use Rattle.core_terms.specs.Bounds.{most_height};
ghost use Rattle.case_below_gen.specs.Components as components;
ghost use Rattle.case_below_gen.specs.Components.{pair_of as pair_type};
ghost use Rattle.case_below_gen.specs.declared.components.Ending.TheVariants.{Folded};
ghost use Rattle.case_below_gen.specs.PathSteps as spec;
ghost use Rattle.case_below_gen.specs.Projections.{side_variable};

use crate::components::{Course, Ending, below_at, component, pair_of_answers, tuple_type};
use crate::sides::{Side, side_variable};
use core_sig::{Arg, ArgKind, applied_to_targets, pair};
use core_terms::{Stop, Term, applied_to_run, copy_whole, variable};
use std::alloc::Global;

/// The types of the parts of a pair.
#[derive(Drop)]
struct Types {
    first: Term,
    second: Term,
}

/// The motive of a projection: the type of the side that is taken.
fn side_motive(
    alloc: Global,
    side: Side,
    m: u8,
    types: &Types,
    inside: &Types,
) -> Result<Term, Stop>
    ensures { Gives tree_of result (Ok (tree.Lam (pair_type m (tree_of types.now.first) (tree_of types.now.second)) (spec.side_of side (tree_of inside.now.first) (tree_of inside.now.second)))) }
{
    let first = copy_whole(alloc, &types.first);
    let second = copy_whole(alloc, &types.second);
    let domain = pair_of_answers(alloc, m, first, second);
    let goal = match side {
        Side::First => copy_whole(alloc, &inside.first),
        Side::Second => copy_whole(alloc, &inside.second),
    };
    Term::function_of(alloc, domain, goal)
}

/// The method of a projection.
fn side_method(alloc: Global, side: Side, types: &Types, inside: &Types) -> Result<Term, Stop>
    ensures { Gives tree_of result (Ok (tree.Lam (tree_of types.now.first) (tree.Lam (tree_of inside.now.second) (side_variable side)))) }
{
    let second = copy_whole(alloc, &inside.second);
    let taken = Term::function_of(alloc, second, Ok(side_variable(side)));
    Term::function_of(alloc, copy_whole(alloc, &types.first), taken)
}

/// The first or the second of a pair, where `inside` is `types` one binder further in.
fn projected(
    alloc: Global,
    side: Side,
    m: u8,
    types: &Types,
    inside: &Types,
    value: Term,
) -> Result<Term, Stop>
    ensures { Gives tree_of result (Ok (spec.projected side m (tree_of types.now.first) (tree_of types.now.second) (tree_of inside.now.first) (tree_of inside.now.second) (tree_of value))) }
{
    let head = Ok(Term::Elim(pair(m), m));
    let head = Term::application_of(alloc, head, copy_whole(alloc, &types.first));
    let head = Term::application_of(alloc, head, copy_whole(alloc, &types.second));
    let head = Term::application_of(alloc, head, side_motive(alloc, side, m, types, inside));
    let head = Term::application_of(alloc, head, side_method(alloc, side, types, inside));
    Term::application_of(alloc, head, Ok(value))
}

/// The types of the component for argument `at` and of the tuple of those after it.
fn component_types(
    alloc: Global,
    q: Course,
    depth: u32,
    at: u32,
    count: u32,
    ty: &Term,
    rest: &[Arg],
) -> Result<Types, Stop>
    requires params { q.params ≤ most_height }
    requires at { at + 1 + length rest.now ≤ most_height }
    requires depth { depth ≤ 20000 }
    ensures first { Gives (λ types. tree_of types.first) result (Ok (components.component Folded q (q.params + 1) at depth 0 count (tree_of ty.now))) }
    ensures second { Gives (λ types. tree_of types.second) result (Ok (components.tuple_type Folded q (q.params + 1) (at + 1) depth 0 (map argument_shape rest.now))) }
{
    let e = Ending::Folded;
    let start = q.params + 1;
    Ok(Types {
        first: component(alloc, e, q, start, at, depth, 0, count, ty)?,
        second: tuple_type(alloc, e, q, start, at + 1, depth, 0, rest)?,
    })
}

/// The component for argument `at`, or the tuple of those after it, of the tuple of the components from this argument on.
fn component_side(
    alloc: Global,
    side: Side,
    q: Course,
    depth: u32,
    at: u32,
    count: u32,
    ty: &Term,
    rest: &[Arg],
    value: Term,
) -> Result<Term, Stop>
    requires params { q.params ≤ most_height }
    requires at { at + 1 + length rest.now ≤ most_height }
    requires depth { depth ≤ 10000 }
    ensures { Gives tree_of result (Ok (spec.component_side side q depth at count (tree_of ty.now) (map argument_shape rest.now) (tree_of value))) }
{
    let types = component_types(alloc, q, depth, at, count, ty, rest)?;
    let inside = component_types(alloc, q, depth + 1, at, count, ty, rest)?;
    projected(alloc, side, q.m, &types, &inside, value)
}

/// The component for argument `wanted`, of the tuple of those for the arguments from `at` on.
fn component_in(
    alloc: Global,
    q: Course,
    depth: u32,
    wanted: u32,
    at: u32,
    args: &[Arg],
    value: Term,
) -> Result<Term, Stop>
    requires params { q.params ≤ most_height }
    requires at { at + length args.now ≤ most_height }
    requires depth { depth ≤ 10000 }
    ensures { Gives tree_of result (Ok (spec.component_in q depth wanted at (map argument_shape args.now) (tree_of value))) }
{
    match args {
        [] => Ok(value),
        [arg, rest @ ..] => match arg.kind {
            ArgKind::Plain => component_in(alloc, q, depth, wanted, at + 1, rest, value),
            ArgKind::Recursive(count) if at == wanted => {
                component_side(
                    alloc,
                    Side::First,
                    q,
                    depth,
                    at,
                    count,
                    &arg.ty,
                    rest,
                    value,
                )
            }
            ArgKind::Recursive(count) => {
                let side = Side::Second;
                let value = component_side(alloc, side, q, depth, at, count, &arg.ty, rest, value)?;
                component_in(alloc, q, depth, wanted, at + 1, rest, value)
            }
        },
    }
}

/// An argument that a step goes to: its number, the level of its first inner argument, and how many of these it has.
#[derive(Clone, Copy)]
struct Target {
    at: u32,
    start: u32,
    count: u32,
}

/// `head` at the targets in `end` and at an argument with its inner arguments.
fn at_part(
    alloc: Global,
    q: Course,
    depth: u32,
    to: Target,
    end: &Term,
    head: Term,
) -> Result<Term, Stop>
    requires params { q.params ≤ most_height }
    requires at { to.at ≤ most_height }
    requires start { to.start ≤ 10000 }
    requires count { to.count ≤ most_height }
    requires depth { depth ≤ 20000 }
    ensures { Gives tree_of result (Ok (spec.at_part q depth to.at to.start to.count (tree_of end.now) (tree_of head))) }
{
    let first = q.params + 1;
    let runs = [(0, q.params), (first, to.at), (to.start, to.count)];
    let size = q.params + to.at + to.count;
    let head = applied_to_targets(alloc, &runs, size, depth, head, q.indices, end);
    let argument = variable(depth, first + to.at);
    let argument = applied_to_run(alloc, argument, depth, to.start, to.count);
    Term::application_of(alloc, head, argument)
}

/// The types of the two components of a below value for an argument with its inner arguments.
fn part_types(alloc: Global, q: Course, depth: u32, to: Target, end: &Term) -> Result<Types, Stop>
    requires params { q.params ≤ most_height }
    requires at { to.at ≤ most_height }
    requires start { to.start ≤ 10000 }
    requires count { to.count ≤ most_height }
    requires depth { depth ≤ 20000 }
    ensures first { Gives (λ types. tree_of types.first) result (Ok (spec.at_part q depth to.at to.start to.count (tree_of end.now) (variable depth q.params))) }
    ensures second { Gives (λ types. tree_of types.second) result (Ok (spec.at_part q depth to.at to.start to.count (tree_of end.now) (components.below_at q depth))) }
{
    let below = below_at(alloc, q, depth)?;
    let second = at_part(alloc, q, depth, to, end, below)?;
    let motive = variable(depth, q.params);
    let first = at_part(alloc, q, depth, to, end, motive)?;
    Ok(Types { first, second })
}

/// The first or the second component of `value` for an argument with its inner arguments.
fn part_side(
    alloc: Global,
    side: Side,
    q: Course,
    depth: u32,
    to: Target,
    end: &Term,
    value: Term,
) -> Result<Term, Stop>
    requires params { q.params ≤ most_height }
    requires at { to.at ≤ most_height }
    requires start { to.start ≤ 10000 }
    requires count { to.count ≤ most_height }
    requires depth { depth < 20000 }
    ensures { Gives tree_of result (Ok (spec.part_side side q depth to.at to.start to.count (tree_of end.now) (tree_of value))) }
{
    let types = part_types(alloc, q, depth, to, end)?;
    let inside = part_types(alloc, q, depth + 1, to, end)?;
    projected(alloc, side, q.m, &types, &inside, value)
}

/// The step to argument `at`, with `count` inner arguments, whose type ends in `end`. The levels are those of the parameters, of
/// the motive, of the arguments, of the below value and of the inner arguments.
pub fn path_step(
    alloc: Global,
    side: Side,
    q: Course,
    args: &[Arg],
    at: u32,
    count: u32,
    end: &Term,
) -> Result<Term, Stop>
    requires params { q.params ≤ most_height }
    requires few { length args.now ≤ most_height }
    requires at { at ≤ most_height }
    requires count { count ≤ most_height }
    ensures { Gives tree_of result (Ok (spec.path_step side q (map argument_shape args.now) at count (tree_of end.now))) }
{
    let value = q.params + 1 + args.len() as u32;
    let start = value + 1;
    let depth = start + count;
    let to = Target { at, start, count };
    let below = variable(depth, value);
    let component = component_in(alloc, q, depth, at, 0, args, below)?;
    let component = applied_to_run(alloc, component, depth, start, count)?;
    part_side(alloc, side, q, depth, to, end, component)
}
