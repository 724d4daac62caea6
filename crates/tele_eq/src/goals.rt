ghost use Rattle.std.specs.Prelude.{◌≡◌, ◌≤◌, ◌<◌, ◌+◌, ◌*◌, Ok, length};
ghost use Rattle.core_terms.specs.Answers.{Gives};
ghost use Rattle.core_terms.specs.Meanings.{tree_of, tele_of};
ghost use Rattle.tele_eq.specs.CodeEnvironments.{AreSmallPairs, AreSmallSides, IsSmallGoal, IsSmallLeft, base_of, left_of, proofs_of, variables_of};
ghost use Rattle.tele_eq.specs.Environments as environments;
ghost use Rattle.tele_eq.specs.Items.{AreSmall, IsSmall, each_position, items_of};
ghost use Rattle.tele_eq.specs.TelescopicEquality as spec;
ghost use Rattle.theory.specs.Telescopes.{applied};
ghost use Rattle.theory.specs.Terms as tree;

use crate::Item;
use crate::environment::{at, outside};
use crate::sides::{Goal, Left, Pairs, Sides};
use crate::typing::{left_type, reflexive, type_with};
use core_terms::{Stop, Term, lift, variable};
use std::alloc::Global;

/// The function type from the type at position `j` at the left terms to that at the sides, at a depth.
pub(crate) fn transport_type(
    alloc: Global,
    tele: &[Item],
    left: Left,
    j: u32,
    sides: Sides,
    depth: u32,
) -> Result<Term, Stop>
    requires items { AreSmall (items_of tele.now) }
    requires left { IsSmallLeft left }
    requires sides { AreSmallSides sides }
    requires depth { depth ≤ 2030000000 }
    ensures { Gives tree_of result (Ok (spec.transport_type (items_of tele.now) (left_of left.entry) j (variables_of (left_of left.entry) sides.entry) spec.as_bound depth)) }
{
    let domain = left_type(alloc, tele, left, depth, j)?;
    let codomain = type_with(alloc, tele, left, Pairs::Plain(sides), depth + 1, j)?;
    Term::new_pi(alloc, domain, codomain)
}

/// The equation at a position, at a depth.
pub(crate) fn proof_at(
    alloc: Global,
    tele: &[Item],
    left: Left,
    sides: Sides,
    depth: u32,
    position: u32,
) -> Result<Term, Stop>
    requires items { AreSmall (items_of tele.now) }
    requires left { IsSmallLeft left }
    requires sides { AreSmallSides sides }
    requires depth { depth ≤ 2030000000 }
    ensures { Gives tree_of result (Ok (proofs_of (items_of tele.now) (left_of left.entry) sides.entry depth position)) }
{
    match sides {
        Sides::Given(_, eqs) => outside(alloc, eqs, depth, position),
        Sides::Bound(_) => Ok(variable(depth, position)),
        Sides::Inside(positions, level) => {
            solved(alloc, tele, left, positions, level + 1, depth, position)
        }
    }
}

fn solved(
    alloc: Global,
    tele: &[Item],
    left: Left,
    positions: &[u32],
    level: u32,
    depth: u32,
    position: u32,
) -> Result<Term, Stop>
    requires items { AreSmall (items_of tele.now) }
    requires left { IsSmallLeft left }
    requires level { level + 2 * length positions.now ≤ 2040000001 }
    requires depth { depth ≤ 2030000000 }
    ensures { Gives tree_of result (Ok (environments.inside positions.now level (spec.reflexive (items_of tele.now) (left_of left.entry)) depth position)) }
{
    match positions {
        [] => reflexive(alloc, tele, left, depth, position),
        [t, rest @ ..] => {
            if position == *t {
                Ok(variable(depth, level))
            } else {
                solved(alloc, tele, left, rest, level + 2, depth, position)
            }
        }
    }
}

/// `head` applied to the terms for the variables at `count` positions from `j` on, at a depth.
fn applied_to_variables(
    alloc: Global,
    left: Left,
    head: Term,
    sides: Sides,
    j: u32,
    count: u32,
    depth: u32,
) -> Result<Term, Stop>
    requires left { IsSmallLeft left }
    requires sides { AreSmallSides sides }
    requires positions { j + count ≤ 1000 }
    requires depth { depth ≤ 2030000000 }
    ensures { Gives tree_of result (Ok (applied (tree_of head) (each_position (variables_of (left_of left.entry) sides.entry depth) j count))) }
{
    if count == 0 {
        return Ok(head);
    }
    let z = at(alloc, left, Pairs::Plain(sides), depth, j)?;
    let head = Term::new_app(alloc, head, z)?;
    applied_to_variables(alloc, left, head, sides, j + 1, count - 1, depth)
}

/// `head` applied to the equations at `count` positions from `j` on, at a depth.
fn applied_to_proofs(
    alloc: Global,
    tele: &[Item],
    left: Left,
    head: Term,
    sides: Sides,
    j: u32,
    count: u32,
    depth: u32,
) -> Result<Term, Stop>
    requires items { AreSmall (items_of tele.now) }
    requires left { IsSmallLeft left }
    requires sides { AreSmallSides sides }
    requires positions { j + count ≤ 1000 }
    requires depth { depth ≤ 2030000000 }
    ensures { Gives tree_of result (Ok (applied (tree_of head) (each_position (proofs_of (items_of tele.now) (left_of left.entry) sides.entry depth) j count))) }
{
    if count == 0 {
        return Ok(head);
    }
    let e = proof_at(alloc, tele, left, sides, depth, j)?;
    let head = Term::new_app(alloc, head, e)?;
    applied_to_proofs(alloc, tele, left, head, sides, j + 1, count - 1, depth)
}

/// `head` applied to the terms for all variables and to all equations, at a depth.
#[tactic(auto, using(core_terms::proofs::SubstUnder::lift_laws))]
pub(crate) fn applied_goal(
    alloc: Global,
    tele: &[Item],
    left: Left,
    head: &Term,
    sides: Sides,
    depth: u32,
) -> Result<Term, Stop>
    requires items { AreSmall (items_of tele.now) }
    requires few { length tele.now ≤ 1000 }
    requires left { IsSmallLeft left }
    requires head { IsSmall (tree_of head.now) }
    requires sides { AreSmallSides sides }
    requires depth { depth ≤ 2030000000 }
    ensures { Gives tree_of result (Ok (spec.applied_goal (tree_of head.now) (length tele.now) (variables_of (left_of left.entry) sides.entry) (proofs_of (items_of tele.now) (left_of left.entry) sides.entry) depth)) }
{
    let count = tele.len() as u32;
    let head = lift(alloc, head, depth, 0)?;
    let head = applied_to_variables(alloc, left, head, sides, 0, count, depth)?;
    applied_to_proofs(alloc, tele, left, head, sides, 0, count, depth)
}

/// The term that a telescopic J begins from, at a depth.
#[tactic(auto, using(core_terms::proofs::SubstUnder::lift_laws))]
pub(crate) fn base_term(
    alloc: Global,
    tele: &[Item],
    left: Left,
    goal: Goal,
    depth: u32,
) -> Result<Term, Stop>
    requires items { AreSmall (items_of tele.now) }
    requires left { IsSmallLeft left }
    requires goal { IsSmallGoal (items_of tele.now) (left_of left) goal }
    requires depth { depth ≤ 2030000000 }
    ensures { Gives tree_of result (Ok (base_of (items_of tele.now) (left_of left.entry) goal.entry depth)) }
{
    match goal {
        Goal::Transport(j) => {
            let domain = left_type(alloc, tele, left, depth, j)?;
            Term::new_lam(alloc, domain, Term::Var(0))
        }
        Goal::Congruence(map, _, j) => reflexive(alloc, map.to, Left::Images(map), depth, j),
        Goal::Applied(_, base) => lift(alloc, base, depth, 0),
    }
}
