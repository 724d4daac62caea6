ghost use Rattle.std.specs.Prelude.{◌≡◌, ◌∷◌, ◌++◌, [], Ok, Some, drop, option_map};
ghost use Rattle.std.specs.Option.{option_copied};
ghost use Rattle.core_terms.specs.Answers.{Gives};
ghost use Rattle.core_terms.specs.Meanings.{tree_of, tele_of};
ghost use Rattle.tree_translation.specs.Recursion as spec;
ghost use Rattle.leaf_terms.specs.RecursionMeanings.{recursion_of};

use crate::recursion::Recursion;
use core_terms::{Items, Stop, Tele, Term};
use run_terms::{Places, joined, new_context, put, with_all, with_levels};
use std::alloc::Global;
use tree_translation::structural_rec::recursion_order;

/// is and x: the positions of the indices, and the position itself.
pub(crate) fn scrutinee_positions(alloc: Global, r: &Recursion) -> Result<Items<u32>, Stop>
    ensures { Gives (λ v. v) result (Ok ((recursion_of r.now).admission.indices ++ (recursion_of r.now).position ∷ [])) }
{
    let mut positions = Items::from_vec(r.admission.indices.as_slice().to_vec(alloc)?);
    positions.push(r.position)?;
    Ok(positions)
}

/// F, is and x: the positions that come first.
pub fn first_positions(alloc: Global, r: &Recursion) -> Result<Items<u32>, Stop>
    ensures { Gives (λ v. v) result (Ok (spec.first_positions (recursion_of r.now))) }
{
    let scrutinee = scrutinee_positions(alloc, r)?;
    joined(alloc, r.admission.fixed.as_slice(), scrutinee.as_slice())
}

/// The old positions in the order of recursion.
pub fn recursive_order(alloc: Global, count: u32, r: &Recursion) -> Result<Items<u32>, Stop>
    ensures { Gives (λ v. v) result (Ok (spec.order_of count (Some (recursion_of r.now)))) }
{
    Ok(Items::from_vec(recursion_order(alloc, count, r.position, &r.admission)?))
}

/// The old positions in their new order, which is the old one without recursion.
pub fn order_of(alloc: Global, count: u32, r: Option<&Recursion>) -> Result<Items<u32>, Stop>
    ensures { Gives (λ v. v) result (Ok (spec.order_of count (option_map recursion_of (option_copied r.entry)))) }
{
    match r {
        Some(r) => recursive_order(alloc, count, r),
        None => with_levels(0, count, Items::new(alloc)),
    }
}

/// Positions after the first `count` ones.
fn after_positions(positions: &[u32], count: usize) -> &[u32]
    ensures { result.now ≡ drop count positions.now }
{
    if count == 0 {
        return positions;
    }
    match positions {
        [] => positions,
        [_, rest @ ..] => after_positions(rest, count - 1),
    }
}

/// R: the other positions.
pub fn remaining_positions(alloc: Global, count: u32, r: &Recursion) -> Result<Items<u32>, Stop>
    ensures { Gives (λ v. v) result (Ok (spec.remaining_positions count (recursion_of r.now))) }
{
    let first = first_positions(alloc, r)?;
    let order = recursive_order(alloc, count, r)?;
    let rest = after_positions(order.as_slice(), first.as_slice().len());
    with_all(Items::new(alloc), rest)
}

/// The telescope in an order.
pub fn ordered_telescope(alloc: Global, tele: &[Term], order: &[u32]) -> Result<Tele, Stop>
    ensures { Gives tele_of result (Ok (spec.ordered_telescope (tele_of tele.now) order.now)) }
{
    new_context(
        alloc,
        tele,
        Places::Reordered(order),
        0,
        order,
        Items::new(alloc),
    )
}

/// A goal over the telescope, in that order.
pub fn ordered_term(alloc: Global, count: u32, order: &[u32], t: &Term) -> Result<Term, Stop>
    ensures { Gives tree_of result (Ok (spec.ordered_term count order.now (tree_of t.now))) }
{
    put(alloc, Places::Reordered(order), count, count, t)
}
