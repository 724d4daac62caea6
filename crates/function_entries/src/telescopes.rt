//! Telescopes with one type more among others.
ghost use Rattle.std.specs.Prelude.{◌≡◌, ◌-◌, ◌++◌, Ok, take};
ghost use Rattle.core_terms.specs.Answers.{Gives};
ghost use Rattle.core_terms.specs.Levels as by_level;
ghost use Rattle.core_terms.specs.Meanings.{tree_of, tele_of};
ghost use Rattle.core_terms.specs.Telescopes as lifted;
ghost use Rattle.tele_eq.specs.Items.{each_position};
ghost use Rattle.tele_eq.specs.Levels as levels;
ghost use Rattle.tree_translation.specs.Entries as spec;

use core_terms::{Items, Stop, Tele, Term, copy_whole, next, number_of, variable};
use leaf_terms::after_first;
use run_terms::{place_in, raised};
use std::alloc::Global;

/// Terms, followed by the first `count` of others.
#[tactic(auto, using(tele_eq::proofs::Growing::growing))]
pub fn with_first(alloc: Global, count: u32, terms: &[Term], mut made: Tele) -> Result<Tele, Stop>
    ensures { Gives tele_of result (Ok (tele_of made ++ take count (tele_of terms.now))) }
{
    if count == 0 {
        return Ok(made);
    }
    match terms {
        [] => Ok(made),
        [t, rest @ ..] => {
            made.push(copy_whole(alloc, t)?)?;
            with_first(alloc, count - 1, rest, made)
        }
    }
}

/// Types, followed by those of a telescope, each one variable further in; `from` types of the telescope come before these.
#[tactic(auto, using(tele_eq::proofs::Growing::growing))]
fn with_raised(alloc: Global, from: u32, tele: &[Term], mut made: Tele) -> Result<Tele, Stop>
    ensures { Gives tele_of result (Ok (tele_of made ++ lifted.lift_telescope (tele_of tele.now) 1 from)) }
{
    match tele {
        [] => Ok(made),
        [ty, rest @ ..] => {
            made.push(raised(alloc, 1, from, ty)?)?;
            with_raised(alloc, next(from)?, rest, made)
        }
    }
}

/// A telescope with the type of the below value after so many types.
#[tactic(auto, using(tele_eq::proofs::Growing::growing))]
pub fn with_below(alloc: Global, at: u32, below: Term, tele: &[Term]) -> Result<Tele, Stop>
    ensures { Gives tele_of result (Ok (spec.with_below at (tree_of below) (tele_of tele.now))) }
{
    let mut made = with_first(alloc, at, tele, Items::new(alloc))?;
    made.push(below)?;
    with_raised(alloc, 0, after_first(tele, at), made)
}

/// A goal over a telescope of `count` types, with the below value after `at` of them.
pub fn goal_with_below(alloc: Global, at: u32, count: u32, goal: &Term) -> Result<Term, Stop>
    ensures { Gives tree_of result (Ok (spec.goal_with_below at count (tree_of goal.now))) }
{
    raised(alloc, 1, count.saturating_sub(at), goal)
}

/// Terms, followed by the variables at `count` old positions from one on, which are in a new order.
#[tactic(auto, using(tele_eq::proofs::Growing::growing))]
fn with_ordered(
    order: &[u32],
    depth: u32,
    from: u32,
    count: u32,
    mut made: Tele,
) -> Result<Tele, Stop>
    ensures { Gives tele_of result (Ok (tele_of made ++ each_position (λ i. by_level.variable depth (levels.place_in order.now i)) from count)) }
{
    if count == 0 {
        return Ok(made);
    }
    let place = number_of(place_in(order, from))?;
    made.push(variable(depth, place))?;
    with_ordered(order, depth, next(from)?, count - 1, made)
}

/// The variables at the old positions, in the new order, at a depth.
pub fn ordered_variables(alloc: Global, order: &[u32], depth: u32) -> Result<Tele, Stop>
    ensures { Gives tele_of result (Ok (spec.ordered_variables order.now depth)) }
{
    let count = number_of(order.len())?;
    with_ordered(order, depth, 0, count, Items::new(alloc))
}
