ghost use Rattle.std.specs.Prelude.{◌≡◌, ◌≤◌, ◌+◌};
ghost use Rattle.theory.specs.Terms as tree;
ghost use Rattle.core_terms.specs.Answers.{Gives};
ghost use Rattle.core_terms.specs.Meanings.{tree_of};
ghost use Rattle.case_below_gen.specs.Projections.{side_variable};
ghost use Rattle.case_below_gen.specs.declared.sides.Side.TheVariants.{First, Second};
ghost use Rattle.generators.specs.acyclic_gen.Bounds.{IsNear, IsNearPairing};
ghost use Rattle.generators.specs.acyclic_gen.CodePairings.{pairing_of};
ghost use Rattle.generators.specs.acyclic_gen.Pairings as spec;

use crate::acyclic_gen::carrier::Carrier;
use crate::acyclic_gen::direct_arguments::Direct;
use crate::acyclic_gen::point::{Point, at_level};
use crate::acyclic_gen::statements::{no_part, none_within, not_within, unequal};
use case_below_gen::{Side, pair_of};
use core_sig::pair;
use core_terms::{Stop, Term};
use std::alloc::Global;

/// `Within(x, y)`: that x is not y, and no part of y. `Several(x, d, directs)`: that x is not within the direct argument d, nor
/// within one of those after it.
#[derive(Clone, Copy)]
pub enum Pairing<'a> {
    Within(Point, Point),
    Several(Point, Direct, &'a [Direct]),
}

fn side_type(
    alloc: Global,
    side: Side,
    q: Carrier,
    depth: u32,
    pairing: Pairing,
) -> Result<Term, Stop>
    requires near { IsNearPairing pairing }
    requires depth { depth ≤ 1000000 }
    ensures { Gives tree_of result (Ok (spec.side_type side q depth (pairing_of pairing.entry))) }
{
    match (side, pairing) {
        (Side::First, Pairing::Within(x, y)) => unequal(alloc, q, depth, x, y),
        (Side::Second, Pairing::Within(x, y)) => no_part(alloc, q, depth, x, y),
        (Side::First, Pairing::Several(x, d, _)) => {
            not_within(alloc, q, depth, x, at_level(d.argument))
        }
        (Side::Second, Pairing::Several(x, _, rest)) => none_within(alloc, q, depth, x, rest),
    }
}

fn pairing_type(alloc: Global, q: Carrier, depth: u32, pairing: Pairing) -> Result<Term, Stop>
    requires near { IsNearPairing pairing }
    requires depth { depth ≤ 1000000 }
    ensures { Gives tree_of result (Ok (spec.pairing_type q depth (pairing_of pairing.entry))) }
{
    let first = side_type(alloc, Side::First, q, depth, pairing)?;
    let second = side_type(alloc, Side::Second, q, depth, pairing)?;
    pair_of(alloc, q.level, first, second)
}

/// `\_. C`, where C is the side.
fn side_motive(
    alloc: Global,
    side: Side,
    q: Carrier,
    depth: u32,
    pairing: Pairing,
) -> Result<Term, Stop>
    requires near { IsNearPairing pairing }
    requires depth { depth ≤ 900000 }
    ensures { Gives tree_of result (Ok (tree.Lam (spec.pairing_type q depth (pairing_of pairing.entry)) (spec.side_type side q (depth + 1) (pairing_of pairing.entry)))) }
{
    let domain = pairing_type(alloc, q, depth, pairing)?;
    Term::new_lam(
        alloc,
        domain,
        side_type(alloc, side, q, depth + 1, pairing)?,
    )
}

/// `\a b. c`, where c is the side.
fn side_method(
    alloc: Global,
    side: Side,
    q: Carrier,
    depth: u32,
    pairing: Pairing,
) -> Result<Term, Stop>
    requires near { IsNearPairing pairing }
    requires depth { depth ≤ 900000 }
    ensures { Gives tree_of result (Ok (tree.Lam (spec.side_type First q depth (pairing_of pairing.entry)) (tree.Lam (spec.side_type Second q (depth + 1) (pairing_of pairing.entry)) (side_variable side)))) }
{
    let body = match side {
        Side::First => Term::Var(1),
        Side::Second => Term::Var(0),
    };
    let second = side_type(alloc, Side::Second, q, depth + 1, pairing);
    let body = Term::function_of(alloc, second, Ok(body));
    let first = side_type(alloc, Side::First, q, depth, pairing);
    Term::function_of(alloc, first, body)
}

/// A side of a pair, at a depth.
pub fn projection(
    alloc: Global,
    side: Side,
    q: Carrier,
    depth: u32,
    pairing: Pairing,
    both: Term,
) -> Result<Term, Stop>
    requires near { IsNearPairing pairing }
    requires depth { depth ≤ 900000 }
    ensures { Gives tree_of result (Ok (spec.projection side q depth (pairing_of pairing.entry) (tree_of both))) }
{
    let head = Ok(Term::Elim(pair(q.level), q.level));
    let first = side_type(alloc, Side::First, q, depth, pairing);
    let head = Term::application_of(alloc, head, first);
    let second = side_type(alloc, Side::Second, q, depth, pairing);
    let head = Term::application_of(alloc, head, second);
    let motive = side_motive(alloc, side, q, depth, pairing);
    let head = Term::application_of(alloc, head, motive);
    let method = side_method(alloc, side, q, depth, pairing);
    let head = Term::application_of(alloc, head, method);
    Term::application_of(alloc, head, Ok(both))
}

/// The part of a tuple for direct arguments about the one with the level `wanted`, at a depth.
pub fn component(
    alloc: Global,
    q: Carrier,
    depth: u32,
    x: Point,
    wanted: u32,
    directs: &[Direct],
    tuple: Term,
) -> Result<Term, Stop>
    requires x { IsNear x }
    requires depth { depth ≤ 900000 }
    ensures { Gives tree_of result (Ok (spec.component q depth x wanted directs.now (tree_of tuple))) }
{
    match directs {
        [] => Ok(tuple),
        [d, rest @ ..] => {
            let pairing = Pairing::Several(x, *d, rest);
            if d.argument == wanted {
                projection(alloc, Side::First, q, depth, pairing, tuple)
            } else {
                let tuple = projection(alloc, Side::Second, q, depth, pairing, tuple)?;
                component(alloc, q, depth, x, wanted, rest, tuple)
            }
        }
    }
}
