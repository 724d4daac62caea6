ghost use Rattle.std.specs.Prelude.{◌≡◌, ◌≤◌, ◌<◌, ◌+◌, ◌*◌, ◌∷◌, Ok, length};
ghost use Rattle.core_terms.specs.Answers.{Gives};
ghost use Rattle.core_terms.specs.Meanings.{tree_of, tele_of};
ghost use Rattle.tele_eq.specs.CodeEnvironments.{AreSmallPairs, AreSmallSides, IsSmallGoal, IsSmallLeft, IsSmallMap, base_of, congruences_of, environment_of, equations_of, goal_of, left_of, levels_of_goal, levels_of_pairs, proofs_of, variables_of};
ghost use Rattle.tele_eq.specs.Environments as environments;
ghost use Rattle.tele_eq.specs.Items.{AreSmall, AreUpTo, items_of};
ghost use Rattle.tele_eq.specs.TelescopicEquality as spec;

use crate::Item;
use crate::dependences::dependences;
use crate::environment::{at, left_at};
use crate::goals::{applied_goal, base_term, proof_at, transport_type};
use crate::sides::{Goal, Left, Map, Pairs, Sides};
use crate::typing::{
    all_positions, bound_of, common_level, greatest_level, left_eliminator, left_equation,
    left_type, level_at, reflexive, type_with,
};
use core_sig::equality;
use core_terms::{Binder, Stop, Term, variable};
use std::alloc::Global;

/// The equation at position `j`, at a depth, with the left side that `n` levels of transports give.
#[cycle(elimination)]
pub(crate) fn equation(
    alloc: Global,
    n: u32,
    tele: &[Item],
    left: Left,
    pairs: Pairs,
    depth: u32,
    j: u32,
) -> Result<Term, Stop>
    requires items { AreSmall (items_of tele.now) }
    requires left { IsSmallLeft left }
    requires pairs { AreSmallPairs pairs }
    requires n { n ≤ 1000 }
    requires j { j ≤ 1000 }
    requires depth { depth + levels_of_pairs n pairs * 1010000 ≤ 2030000000 }
    ensures { Gives tree_of result (Ok (spec.equation (items_of tele.now) (spec.left_below n (items_of tele.now) (left_of left.entry)) (environment_of (left_of left.entry) pairs.entry) (equations_of (items_of tele.now) (left_of left.entry) pairs.entry) depth j)) }
{
    let head = Ok(Term::Fam(equality(level_at(tele, j))));
    let ty = type_with(alloc, tele, left, pairs, depth, j);
    let head = Term::application_of(alloc, head, ty);
    let w = left_below(alloc, n, tele, left, pairs, depth, j);
    let head = Term::application_of(alloc, head, w);
    Term::application_of(alloc, head, at(alloc, left, pairs, depth, j))
}

/// The left term at position `j`, transported where its type depends on earlier positions.
#[cycle(elimination)]
fn left_below(
    alloc: Global,
    n: u32,
    tele: &[Item],
    left: Left,
    pairs: Pairs,
    depth: u32,
    j: u32,
) -> Result<Term, Stop>
    requires items { AreSmall (items_of tele.now) }
    requires left { IsSmallLeft left }
    requires pairs { AreSmallPairs pairs }
    requires n { n ≤ 1000 }
    requires j { j ≤ 1000 }
    requires depth { depth + levels_of_pairs n pairs * 1010000 ≤ 2030000000 }
    ensures { Gives tree_of result (Ok (spec.left_below n (items_of tele.now) (left_of left.entry) (environment_of (left_of left.entry) pairs.entry) (equations_of (items_of tele.now) (left_of left.entry) pairs.entry) depth j)) }
{
    if n == 0 {
        return left_at(alloc, left, depth, j);
    }
    let positions = dependences(alloc, tele, j)?;
    match positions.as_slice() {
        [] => left_at(alloc, left, depth, j),
        positions => transported(alloc, n - 1, tele, left, positions, j, pairs, depth),
    }
}

/// The left term at position `j`, transported along the equations at some positions.
#[cycle(elimination)]
pub(crate) fn transported(
    alloc: Global,
    n: u32,
    tele: &[Item],
    left: Left,
    positions: &[u32],
    j: u32,
    pairs: Pairs,
    depth: u32,
) -> Result<Term, Stop>
    requires items { AreSmall (items_of tele.now) }
    requires left { IsSmallLeft left }
    requires pairs { AreSmallPairs pairs }
    requires n { n ≤ 1000 }
    requires j { j ≤ 1000 }
    requires few { length positions.now ≤ 1000 }
    requires low { AreUpTo 1000 positions.now }
    requires depth { depth + levels_of_pairs (n + 1) pairs * 1010000 ≤ 2030000000 }
    requires room { depth + (n + 1) * 1010000 ≤ 2030000000 }
    ensures { Gives tree_of result (Ok (spec.transported (items_of tele.now) (left_of left.entry) (spec.left_below n (items_of tele.now) (left_of left.entry)) positions.now j (environment_of (left_of left.entry) pairs.entry) (equations_of (items_of tele.now) (left_of left.entry) pairs.entry) depth)) }
{
    let m = greatest_level(tele, level_at(tele, j), positions);
    let goal = Goal::Transport(j);
    let carried = telescopic_j(alloc, n, tele, left, m, goal, positions, pairs, depth);
    Term::application_of(alloc, carried, left_at(alloc, left, depth, j))
}

/// The telescopic J into a goal.
#[cycle(elimination)]
pub(crate) fn telescopic_j(
    alloc: Global,
    n: u32,
    tele: &[Item],
    left: Left,
    m: u8,
    goal: Goal,
    positions: &[u32],
    pairs: Pairs,
    depth: u32,
) -> Result<Term, Stop>
    requires items { AreSmall (items_of tele.now) }
    requires left { IsSmallLeft left }
    requires goal { IsSmallGoal (items_of tele.now) (left_of left) goal }
    requires pairs { AreSmallPairs pairs }
    requires n { n ≤ 1000 }
    requires few { length positions.now ≤ 1000 }
    requires low { AreUpTo 1000 positions.now }
    requires depth { depth + levels_of_pairs n pairs * 1010000 ≤ 2030000000 }
    requires room { depth + length positions.now * length positions.now + 5000 + n * 1010000 ≤ 2030000000 }
    requires goal_room { depth + length positions.now * length positions.now + 5000 + levels_of_goal n goal * 1010000 ≤ 2030000000 }
    ensures { Gives tree_of result (Ok (spec.telescopic_j (items_of tele.now) (left_of left.entry) (spec.left_below n (items_of tele.now) (left_of left.entry)) m (goal_of (items_of tele.now) (left_of left.entry) goal.entry) (base_of (items_of tele.now) (left_of left.entry) goal.entry) positions.now (environment_of (left_of left.entry) pairs.entry) (equations_of (items_of tele.now) (left_of left.entry) pairs.entry) depth)) }
{
    match positions {
        [] => base_term(alloc, tele, left, goal, depth),
        [s, rest @ ..] => {
            let inner = Sides::Inside(rest, depth);
            let pairs_inside = Pairs::Plain(inner);
            let behind = depth + 2 * rest.len() as u32;
            let base = telescopic_j(alloc, n, tele, left, m, goal, rest, pairs_inside, behind)?;
            let binder = Binder::Function;
            let method = equations_over(alloc, n, tele, left, binder, rest, inner, depth, base)?;
            let motive = motive(alloc, n, tele, left, goal, *s, rest, positions, depth)?;
            let head = left_eliminator(alloc, tele, left, m, depth, *s)?;
            let head = Term::new_app(alloc, Term::new_app(alloc, head, motive)?, method)?;
            applied_to_pairs(alloc, tele, left, head, positions, pairs, depth)
        }
    }
}

/// The motive of the elimination of the equation at position `s`, which `rest` follow.
#[cycle(elimination)]
fn motive(
    alloc: Global,
    n: u32,
    tele: &[Item],
    left: Left,
    goal: Goal,
    s: u32,
    rest: &[u32],
    positions: &[u32],
    depth: u32,
) -> Result<Term, Stop>
    requires items { AreSmall (items_of tele.now) }
    requires left { IsSmallLeft left }
    requires goal { IsSmallGoal (items_of tele.now) (left_of left) goal }
    requires n { n ≤ 1000 }
    requires few { length positions.now ≤ 1000 }
    requires low { AreUpTo 1000 positions.now }
    requires split { positions.now ≡ s ∷ rest.now }
    requires room { depth + 5000 + n * 1010000 ≤ 2030000000 }
    requires goal_room { depth + 5000 + levels_of_goal n goal * 1010000 ≤ 2030000000 }
    ensures { Gives tree_of result (Ok (spec.motive (items_of tele.now) (left_of left.entry) (spec.left_below n (items_of tele.now) (left_of left.entry)) (goal_of (items_of tele.now) (left_of left.entry) goal.entry) s rest.now depth)) }
{
    let sides = Sides::Inside(positions, depth);
    let behind = depth + 2 + 2 * rest.len() as u32;
    let end = goal_term(alloc, n, tele, left, goal, sides, behind)?;
    let binder = Binder::Product;
    let end = equations_over(alloc, n, tele, left, binder, rest, sides, depth + 2, end)?;
    let z = variable(depth + 1, depth);
    let first = left_equation(alloc, tele, left, depth + 1, s, z);
    let body = Term::function_of(alloc, first, Ok(end));
    Term::function_of(alloc, left_type(alloc, tele, left, depth, s), body)
}

/// The goal of a telescopic J, at a depth.
#[cycle(elimination)]
fn goal_term(
    alloc: Global,
    n: u32,
    tele: &[Item],
    left: Left,
    goal: Goal,
    sides: Sides,
    depth: u32,
) -> Result<Term, Stop>
    requires items { AreSmall (items_of tele.now) }
    requires left { IsSmallLeft left }
    requires goal { IsSmallGoal (items_of tele.now) (left_of left) goal }
    requires sides { AreSmallSides sides }
    requires depth { depth + levels_of_goal n goal * 1010000 ≤ 2030000000 }
    ensures { Gives tree_of result (Ok (goal_of (items_of tele.now) (left_of left.entry) goal.entry (variables_of (left_of left.entry) sides.entry) (proofs_of (items_of tele.now) (left_of left.entry) sides.entry) depth)) }
{
    match goal {
        Goal::Transport(j) => transport_type(alloc, tele, left, j, sides, depth),
        Goal::Congruence(map, c, j) => {
            let pairs = Pairs::Mapped(map, c, sides);
            let count = map.to.len() as u32;
            equation(alloc, count, map.to, Left::Images(map), pairs, depth, j)
        }
        Goal::Applied(head, _) => applied_goal(alloc, tele, left, head, sides, depth),
    }
}

/// Binds the variable and the equation at each of the positions around `end`, at a depth.
#[cycle(elimination)]
fn equations_over(
    alloc: Global,
    n: u32,
    tele: &[Item],
    left: Left,
    binder: Binder,
    positions: &[u32],
    sides: Sides,
    depth: u32,
    end: Term,
) -> Result<Term, Stop>
    requires items { AreSmall (items_of tele.now) }
    requires left { IsSmallLeft left }
    requires sides { AreSmallSides sides }
    requires n { n ≤ 1000 }
    requires few { length positions.now ≤ 1000 }
    requires low { AreUpTo 1000 positions.now }
    requires depth { depth + 2 * length positions.now + n * 1010000 ≤ 2030000000 }
    ensures { Gives tree_of result (Ok (spec.equations_over binder (items_of tele.now) (spec.left_below n (items_of tele.now) (left_of left.entry)) positions.now (variables_of (left_of left.entry) sides.entry) (proofs_of (items_of tele.now) (left_of left.entry) sides.entry) depth (tree_of end))) }
{
    match positions {
        [] => Ok(end),
        [t, rest @ ..] => {
            let inner = equations_over(alloc, n, tele, left, binder, rest, sides, depth + 2, end)?;
            let pairs = Pairs::Plain(sides);
            let equation = equation(alloc, n, tele, left, pairs, depth + 1, *t);
            let inner = bound_of(alloc, binder, equation, Ok(inner));
            let ty = type_with(alloc, tele, left, pairs, depth, *t);
            bound_of(alloc, binder, ty, inner)
        }
    }
}

/// `head` applied to the terms for the variable and the equation at each of the positions, at a depth.
#[cycle(elimination)]
fn applied_to_pairs(
    alloc: Global,
    tele: &[Item],
    left: Left,
    head: Term,
    positions: &[u32],
    pairs: Pairs,
    depth: u32,
) -> Result<Term, Stop>
    requires items { AreSmall (items_of tele.now) }
    requires left { IsSmallLeft left }
    requires pairs { AreSmallPairs pairs }
    requires few { length positions.now ≤ 1000 }
    requires low { AreUpTo 1000 positions.now }
    requires depth { depth + levels_of_pairs 0 pairs * 1010000 ≤ 2030000000 }
    ensures { Gives tree_of result (Ok (spec.applied_to_pairs (tree_of head) positions.now (environment_of (left_of left.entry) pairs.entry) (equations_of (items_of tele.now) (left_of left.entry) pairs.entry) depth)) }
{
    match positions {
        [] => Ok(head),
        [t, rest @ ..] => {
            let z = at(alloc, left, pairs, depth, *t);
            let head = Term::application_of(alloc, Ok(head), z);
            let e = match pairs {
                Pairs::Plain(sides) => proof_at(alloc, tele, left, sides, depth, *t),
                Pairs::Mapped(map, c, sides) => congruence_below(alloc, map, c, sides, depth, *t),
            };
            let head = Term::application_of(alloc, head, e);
            applied_to_pairs(alloc, tele, left, head?, rest, pairs, depth)
        }
    }
}

/// The congruence at position `j` of a map's second telescope, with those of `n` levels before it, at a depth.
#[cycle(elimination)]
pub(crate) fn congruence_below(
    alloc: Global,
    map: Map,
    n: u32,
    sides: Sides,
    depth: u32,
    j: u32,
) -> Result<Term, Stop>
    requires map { IsSmallMap map }
    requires sides { AreSmallSides sides }
    requires n { n ≤ 1000 }
    requires j { j ≤ 1000 }
    requires depth { depth + (1000 + n) * 1010000 ≤ 2030000000 }
    ensures { Gives tree_of result (Ok (congruences_of n map.entry (variables_of (environments.outside (tele_of map.entry.left.now)) sides.entry) (proofs_of (items_of map.entry.from.now) (environments.outside (tele_of map.entry.left.now)) sides.entry) depth j)) }
{
    if n == 0 {
        return reflexive(alloc, map.to, Left::Images(map), depth, j);
    }
    let goal = Goal::Congruence(map, n - 1, j);
    let count = map.from.len() as u32;
    let positions = all_positions(alloc, map.from)?;
    let m = common_level(map.from, map.to);
    let left = Left::Terms(map.left);
    let positions = positions.as_slice();
    let pairs = Pairs::Plain(sides);
    telescopic_j(
        alloc, count, map.from, left, m, goal, positions, pairs, depth,
    )
}
