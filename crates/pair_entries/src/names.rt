//! The names of entries of a function over a pair of positions, and those that they mention.
ghost use Rattle.std.specs.Prelude.{◌≡◌, [], Ok};
ghost use Rattle.core_terms.specs.Answers.{Gives};
ghost use Rattle.tree_translation.specs.Naming as names;
ghost use Rattle.leaf_terms.specs.PlanMeanings.{plan_of};
ghost use Rattle.lex_recursion.specs.PairEntries as spec;
ghost use Rattle.pair_entries.specs.PairMeanings.{pair_of};

use crate::recursions::PairRecursion;
use core_terms::{Items, Name, Stop};
use leaf_terms::{Plan, marked, motive_name};
use run_terms::{below_name, rec_name, with_names};
use std::alloc::Global;

/// `F!motive2`.
pub fn motive2_name(alloc: Global, function: &Name) -> Result<Name, Stop>
    ensures { Gives (λ name. name) result (Ok (spec.motive2_name function.now)) }
{
    Ok(Name::from_vec(marked(alloc, function, b"!motive2")?))
}

/// `F!step2`.
pub fn step2_name(alloc: Global, function: &Name) -> Result<Name, Stop>
    ensures { Gives (λ name. name) result (Ok (spec.step2_name function.now)) }
{
    Ok(Name::from_vec(marked(alloc, function, b"!step2")?))
}

/// The names in the type of the first below value.
fn below_names(alloc: Global, plan: &Plan, p: &PairRecursion) -> Result<Items<Name>, Stop>
    ensures { Gives (λ ns. ns) result (Ok (spec.below_names (plan_of plan.now) (pair_of p.now))) }
{
    let mut made = Items::new(alloc);
    made.push(below_name(alloc, p.outer.family, plan.level)?)?;
    made.push(motive_name(alloc, &plan.name)?)?;
    Ok(made)
}

/// The names in the types of both below values.
#[tactic(auto, using(tele_eq::proofs::Growing::listing))]
pub fn step2_names(alloc: Global, plan: &Plan, p: &PairRecursion) -> Result<Items<Name>, Stop>
    ensures { Gives (λ ns. ns) result (Ok (spec.step2_names (plan_of plan.now) (pair_of p.now))) }
{
    let mut made = below_names(alloc, plan, p)?;
    made.push(below_name(alloc, p.inner.family, plan.level)?)?;
    made.push(motive2_name(alloc, &plan.name)?)?;
    Ok(made)
}

/// The names that the first step mentions.
#[tactic(auto, using(tele_eq::proofs::Growing::listing))]
fn first_step_names(alloc: Global, plan: &Plan, p: &PairRecursion) -> Result<Items<Name>, Stop>
    ensures { Gives (λ ns. ns) result (Ok (spec.first_step_names (plan_of plan.now) (pair_of p.now))) }
{
    let mut made = below_names(alloc, plan, p)?;
    made.push(rec_name(alloc, p.inner.family, plan.level)?)?;
    made.push(motive2_name(alloc, &plan.name)?)?;
    made.push(step2_name(alloc, &plan.name)?)?;
    Ok(made)
}

/// Those that the second motive mentions, each once.
pub fn motive2_table(alloc: Global, plan: &Plan, p: &PairRecursion) -> Result<Items<Name>, Stop>
    ensures { Gives (λ ns. ns) result (Ok (names.with_names [] (spec.below_names (plan_of plan.now) (pair_of p.now)))) }
{
    let names = below_names(alloc, plan, p)?;
    with_names(alloc, Items::new(alloc), names.as_slice())
}

/// Those that the first step mentions, each once.
pub fn first_step_table(alloc: Global, plan: &Plan, p: &PairRecursion) -> Result<Items<Name>, Stop>
    ensures { Gives (λ ns. ns) result (Ok (names.with_names [] (spec.first_step_names (plan_of plan.now) (pair_of p.now)))) }
{
    let names = first_step_names(alloc, plan, p)?;
    with_names(alloc, Items::new(alloc), names.as_slice())
}
