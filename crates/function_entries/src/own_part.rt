//! The function's own part in the order of recursion.
ghost use Rattle.std.specs.Prelude.{◌≡◌, Ok, length};
ghost use Rattle.core_terms.specs.Answers.{Gives};
ghost use Rattle.core_terms.specs.Meanings.{tree_of, tele_of};
ghost use Rattle.leaf_terms.specs.PlanMeanings.{part_of};
ghost use Rattle.leaf_terms.specs.RecursionMeanings.{recursion_of};
ghost use Rattle.function_entries.specs.CodeEntries as spec;

use core_terms::{Items, Stop, Tele, Term, number_of};
use leaf_terms::{
    Part, Recursion, first_positions, ordered_telescope, ordered_term, recursive_order,
};
use std::alloc::Global;

/// How many positions come first.
pub fn first_count(alloc: Global, r: &Recursion) -> Result<u32, Stop>
    ensures { Gives (λ n. n) result (Ok (spec.first_count (recursion_of r.now))) }
{
    let first = first_positions(alloc, r)?;
    number_of(first.as_slice().len())
}

/// How many types the part's telescope has.
#[tactic(auto, using(run_terms::proofs::Spines::counts))]
pub fn type_count(part: &Part) -> Result<u32, Stop>
    ensures { Gives (λ n. n) result (Ok (length (part_of part.now).tele)) }
{
    number_of(part.tele.as_slice().len())
}

/// The old positions in the order of recursion.
pub fn own_order(alloc: Global, own: &Part, r: &Recursion) -> Result<Items<u32>, Stop>
    ensures { Gives (λ v. v) result (Ok (spec.own_order (part_of own.now) (recursion_of r.now))) }
{
    let count = type_count(own)?;
    recursive_order(alloc, count, r)
}

/// The telescope in that order.
pub fn own_telescope(alloc: Global, own: &Part, r: &Recursion) -> Result<Tele, Stop>
    ensures { Gives tele_of result (Ok (spec.own_telescope (part_of own.now) (recursion_of r.now))) }
{
    let order = own_order(alloc, own, r)?;
    ordered_telescope(alloc, own.tele.as_slice(), order.as_slice())
}

/// The goal over it.
pub fn own_goal(alloc: Global, own: &Part, r: &Recursion) -> Result<Term, Stop>
    ensures { Gives tree_of result (Ok (spec.own_goal (part_of own.now) (recursion_of r.now))) }
{
    let count = type_count(own)?;
    let order = own_order(alloc, own, r)?;
    ordered_term(alloc, count, order.as_slice(), &own.goal)
}
