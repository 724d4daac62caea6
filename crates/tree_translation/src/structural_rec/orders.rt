ghost use Rattle.std.specs.Prelude.{◌<◌, ◌+◌, ◌^◌, ◌++◌, flat_map, Ok};
ghost use Rattle.std.specs.List.{range_with_len};
ghost use Rattle.core_terms.specs.Answers.{Gives};
ghost use Rattle.tree_translation.specs.structural_rec.Meanings.{admission_of};
ghost use Rattle.tree_translation.specs.structural_rec.Orders as spec;

use crate::structural_rec::admission::Admission;
use core_terms::Stop;
use std::alloc::Global;
use tele_eq::is_among;

/// The recursion order at position `j` over `count` positions: the fixed ones, those of the indices in the family's order, `j`, and
/// then the others in their old order.
pub fn recursion_order(alloc: Global, count: u32, j: u32, a: &Admission) -> Result<Vec<u32>, Stop>
    ensures { Gives (λ v. v.items) result (Ok (spec.recursion_order count j (admission_of a.now))) }
{
    let first = recursive_positions(alloc, j, a)?;
    let mut order = Vec::new(alloc);
    order.extend_from_slice(first.as_slice())?;
    with_others(order, first.as_slice(), 0, count)
}

/// The positions that recursion at `j` goes over.
pub fn recursive_positions(alloc: Global, j: u32, a: &Admission) -> Result<Vec<u32>, Stop>
    ensures { Gives (λ v. v.items) result (Ok (spec.recursive_positions j (admission_of a.now))) }
{
    let mut positions = Vec::new(alloc);
    positions.extend_from_slice(a.fixed.as_slice())?;
    positions.extend_from_slice(a.indices.as_slice())?;
    positions.push(j)?;
    Ok(positions)
}

/// Positions with those of `count` from `from` on after them that are not among the first.
fn with_others(positions: Vec<u32>, first: &[u32], from: u32, count: u32) -> Result<Vec<u32>, Stop>
    requires { from + count < 2 ^ 32 }
    ensures { Gives (λ v. v.items) result (Ok (positions.items ++ flat_map (spec.unless_among first.now) (range_with_len from count))) }
{
    if count == 0 {
        return Ok(positions);
    }
    let positions = unless_among(positions, first, from)?;
    with_others(positions, first, from + 1, count - 1)
}

/// Positions with one more after them, unless it is among the first.
pub fn unless_among(mut positions: Vec<u32>, first: &[u32], i: u32) -> Result<Vec<u32>, Stop>
    ensures { Gives (λ v. v.items) result (Ok (positions.items ++ spec.unless_among first.now i)) }
{
    if !is_among(i, first) {
        positions.push(i)?;
    }
    Ok(positions)
}
