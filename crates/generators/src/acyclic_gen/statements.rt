ghost use Rattle.std.specs.Prelude.{◌≡◌, ◌≤◌};
ghost use Rattle.core_terms.specs.Answers.{Gives};
ghost use Rattle.core_terms.specs.Meanings.{tree_of};
ghost use Rattle.generators.specs.acyclic_gen.Bounds.{IsNear};
ghost use Rattle.generators.specs.acyclic_gen.Statements as spec;

use crate::acyclic_gen::carrier::{Carrier, carrier_at};
use crate::acyclic_gen::direct_arguments::Direct;
use crate::acyclic_gen::point::{Point, at_level, point_at};
use case_below_gen::pair_of;
use core_sig::{equality, unit};
use core_terms::{Stop, Term, applied_to_run};
use std::alloc::Global;

/// The number of the family `Empty` in each signature that begins with the prelude.
pub const EMPTY: u32 = 0;

/// `Eq.l (D p) x y`, at a depth.
pub fn equal(alloc: Global, q: Carrier, depth: u32, x: Point, y: Term) -> Result<Term, Stop>
    requires { IsNear x }
    ensures { Gives tree_of result (Ok (spec.equal q depth x (tree_of y))) }
{
    let head = Ok(Term::Fam(equality(q.level)));
    let head = Term::application_of(alloc, head, carrier_at(alloc, q, depth));
    let head = Term::application_of(alloc, head, point_at(alloc, q, depth, x));
    Term::application_of(alloc, head, Ok(y))
}

/// `\z. Eq.l (D p) x z -> Empty`, at a depth.
fn unequal_to(alloc: Global, q: Carrier, depth: u32, x: Point) -> Result<Term, Stop>
    requires x { IsNear x }
    requires depth { depth ≤ 1000000 }
    ensures { Gives tree_of result (Ok (spec.unequal_to q depth x)) }
{
    let equal = equal(alloc, q, depth + 1, x, Term::Var(0));
    let body = Term::product_of(alloc, equal, Ok(Term::Fam(EMPTY)));
    Term::function_of(alloc, carrier_at(alloc, q, depth), body)
}

/// That x is not y, at a depth.
pub fn unequal(alloc: Global, q: Carrier, depth: u32, x: Point, y: Point) -> Result<Term, Stop>
    requires x { IsNear x }
    requires y { IsNear y }
    requires depth { depth ≤ 1000000 }
    ensures { Gives tree_of result (Ok (spec.unequal q depth x y)) }
{
    let head = unequal_to(alloc, q, depth, x)?;
    Term::new_app(alloc, head, point_at(alloc, q, depth, y)?)
}

/// That x is no part of y, at a depth.
pub fn no_part(alloc: Global, q: Carrier, depth: u32, x: Point, y: Point) -> Result<Term, Stop>
    requires x { IsNear x }
    requires y { IsNear y }
    requires depth { depth ≤ 1000000 }
    ensures { Gives tree_of result (Ok (spec.no_part q depth x y)) }
{
    let head = applied_to_run(alloc, Term::Const(q.direct), depth, 0, q.params);
    let head = Term::application_of(alloc, head, unequal_to(alloc, q, depth, x));
    Term::application_of(alloc, head, point_at(alloc, q, depth, y))
}

/// That x is neither y nor a part of y, at a depth.
pub fn not_within(alloc: Global, q: Carrier, depth: u32, x: Point, y: Point) -> Result<Term, Stop>
    requires x { IsNear x }
    requires y { IsNear y }
    requires depth { depth ≤ 1000000 }
    ensures { Gives tree_of result (Ok (spec.not_within q depth x y)) }
{
    let first = unequal(alloc, q, depth, x, y)?;
    let second = no_part(alloc, q, depth, x, y)?;
    pair_of(alloc, q.level, first, second)
}

/// That x is neither one of the direct arguments nor a part of one, at a depth.
pub fn none_within(
    alloc: Global,
    q: Carrier,
    depth: u32,
    x: Point,
    directs: &[Direct],
) -> Result<Term, Stop>
    requires x { IsNear x }
    requires depth { depth ≤ 1000000 }
    ensures { Gives tree_of result (Ok (spec.none_within q depth x directs.now)) }
{
    match directs {
        [] => Ok(Term::Fam(unit(q.level))),
        [d, rest @ ..] => {
            let here = not_within(alloc, q, depth, x, at_level(d.argument))?;
            let rest = none_within(alloc, q, depth, x, rest)?;
            pair_of(alloc, q.level, here, rest)
        }
    }
}
