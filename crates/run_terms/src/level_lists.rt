ghost use Rattle.std.specs.Prelude.{◌≡◌, ◌++◌, Ok, get_or, map};
ghost use Rattle.core_terms.specs.Answers.{Gives};
ghost use Rattle.tele_eq.specs.Levels as spec_levels;
ghost use Rattle.tree_translation.specs.Standings.{levels_from};
ghost use Rattle.unification.specs.Occurrences as spec;

use crate::places::{level_at, place_in};
use core_terms::{Items, Stop, next, number_of};
use std::alloc::Global;
use tele_eq::is_among;

/// Levels, followed by those of so many binders from one on.
#[tactic(auto, using(tele_eq::proofs::Growing::listing))]
pub fn with_levels(start: u32, count: u32, mut made: Items<u32>) -> Result<Items<u32>, Stop>
    ensures { Gives (λ v. v) result (Ok (made ++ levels_from start count)) }
{
    if count == 0 {
        return Ok(made);
    }
    made.push(start)?;
    with_levels(next(start)?, count - 1, made)
}

/// Levels, followed by others.
#[tactic(auto, using(tele_eq::proofs::Growing::listing))]
pub fn with_all(mut made: Items<u32>, others: &[u32]) -> Result<Items<u32>, Stop>
    ensures { Gives (λ v. v) result (Ok (made ++ others.now)) }
{
    match others {
        [] => Ok(made),
        [j, rest @ ..] => {
            made.push(*j)?;
            with_all(made, rest)
        }
    }
}

/// Two lists of levels, one after the other.
pub fn joined(alloc: Global, first: &[u32], second: &[u32]) -> Result<Items<u32>, Stop>
    ensures { Gives (λ v. v) result (Ok (first.now ++ second.now)) }
{
    let first = Items::from_vec(first.to_vec(alloc)?);
    with_all(first, second)
}

/// Levels, followed by those of so many binders from one on that are not left out.
#[tactic(auto, using(tele_eq::proofs::Growing::listing))]
pub fn with_levels_without(
    out: &[u32],
    start: u32,
    count: u32,
    mut made: Items<u32>,
) -> Result<Items<u32>, Stop>
    ensures { Gives (λ v. v) result (Ok (made ++ spec.without out.now (levels_from start count))) }
{
    if count == 0 {
        return Ok(made);
    }
    if !is_among(start, out) {
        made.push(start)?;
    }
    with_levels_without(out, next(start)?, count - 1, made)
}

/// Levels, followed by the places of others in an order.
#[tactic(auto, using(tele_eq::proofs::Growing::listing))]
pub fn with_places(order: &[u32], levels: &[u32], mut made: Items<u32>) -> Result<Items<u32>, Stop>
    ensures { Gives (λ v. v) result (Ok (made ++ map (spec_levels.place_in order.now) levels.now)) }
{
    match levels {
        [] => Ok(made),
        [j, rest @ ..] => {
            made.push(number_of(place_in(order, *j))?)?;
            with_places(order, rest, made)
        }
    }
}

/// Levels, followed by those that are at positions of a list.
#[tactic(auto, using(tele_eq::proofs::Growing::listing))]
pub fn with_level_at(
    variables: &[u32],
    positions: &[u32],
    mut made: Items<u32>,
) -> Result<Items<u32>, Stop>
    ensures { Gives (λ v. v) result (Ok (made ++ map (λ j. get_or variables.now j 0) positions.now)) }
{
    match positions {
        [] => Ok(made),
        [j, rest @ ..] => {
            made.push(level_at(variables, *j as usize))?;
            with_level_at(variables, rest, made)
        }
    }
}
