ghost use Rattle.std.specs.Prelude.{◌≡◌, ◌+◌, ◌++◌, Ok, option_map};
ghost use Rattle.std.specs.Option.{option_copied};
ghost use Rattle.core_terms.specs.Answers.{Gives};
ghost use Rattle.tele_eq.specs.Items.{each_position};
ghost use Rattle.tree_translation.specs.Entries as spec;
ghost use Rattle.tree_translation.specs.Naming as naming;
ghost use Rattle.leaf_terms.specs.PlanMeanings.{plan_of};
ghost use Rattle.leaf_terms.specs.RecursionMeanings.{recursion_of};

use core_terms::{Items, Name, Stop, next, number_of};
use leaf_terms::{Plan, Recursion, helper_name, motive_name};
use run_terms::below_name;
use std::alloc::Global;

/// How many helpers there are.
#[tactic(auto, using(run_terms::proofs::Spines::counts))]
fn helper_count(plan: &Plan) -> Result<u32, Stop>
    ensures { Gives (λ n. n) result (Ok (spec.helper_count (plan_of plan.now))) }
{
    match plan.parts.as_slice() {
        [] => Ok(0),
        [_, helpers @ ..] => number_of(helpers.len()),
    }
}

/// Names, followed by those of `count` helpers from number k on.
#[tactic(auto, using(tele_eq::proofs::Growing::listing))]
fn with_helpers(
    alloc: Global,
    function: &Name,
    k: u32,
    count: u32,
    mut made: Items<Name>,
) -> Result<Items<Name>, Stop>
    ensures { Gives (λ ns. ns) result (Ok (made ++ each_position (naming.helper_name function.now) k count)) }
{
    if count == 0 {
        return Ok(made);
    }
    made.push(helper_name(alloc, function, k)?)?;
    with_helpers(alloc, function, next(k)?, count - 1, made)
}

/// Names, followed by those of the helpers after part `at`.
fn with_later_helpers(
    alloc: Global,
    plan: &Plan,
    at: u32,
    made: Items<Name>,
) -> Result<Items<Name>, Stop>
    ensures { Gives (λ ns. ns) result (Ok (made ++ spec.helper_names (plan_of plan.now) at)) }
{
    let count = helper_count(plan)?.saturating_sub(at);
    with_helpers(alloc, &plan.name, next(at)?, count, made)
}

/// The names that right sides of part `at` may mention.
pub fn side_names(
    alloc: Global,
    plan: &Plan,
    r: Option<&Recursion>,
    at: u32,
) -> Result<Items<Name>, Stop>
    ensures { Gives (λ ns. ns) result (Ok (spec.side_names (plan_of plan.now) (option_map recursion_of (option_copied r.entry)) at)) }
{
    let mut made = Items::new(alloc);
    if let Some(r) = r {
        made.push(below_name(alloc, r.family, plan.level)?)?;
        made.push(motive_name(alloc, &plan.name)?)?;
    }
    with_later_helpers(alloc, plan, at, made)
}
